// The weights of the bitmap's bits, one for each field that the record may leave out.

pub const OWNER: u16 = 1;

pub const VALUE: u16 = 2;

pub const HIGHEST: u16 = 4;

pub const TRANSFER: u16 = 8;

pub const REVOKED: u16 = 16;

pub const CLAIMED: u16 = 32;

pub const RENEWALS: u16 = 64;

pub const REGISTERED: u16 = 128;

pub const EXPIRED: u16 = 256;

pub const WEAK: u16 = 512;
