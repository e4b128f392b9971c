// Name states: their records read and written (document 01, module 6).
#![tactic(auto)]

pub mod decode;
pub mod encode;
mod read;
