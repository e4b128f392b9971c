// The wire encoding of hns-encoding over lent bytes: a cursor by value, and writers at an offset.
#![tactic(auto)]

pub mod integer;
pub mod put;
pub mod read;
