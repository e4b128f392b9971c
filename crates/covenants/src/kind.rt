// Covenant kinds: the Rust's `CovenantKind`, each its byte.
ghost use Rattle.std.specs.Prelude.{◌≡◌};
ghost use Rattle.covenants.specs.Kind.{is_name, is_linked, is_unspendable};

pub const NONE: u8 = 0;

pub const CLAIM: u8 = 1;

pub const OPEN: u8 = 2;

pub const BID: u8 = 3;

pub const REVEAL: u8 = 4;

pub const REDEEM: u8 = 5;

pub const REGISTER: u8 = 6;

pub const UPDATE: u8 = 7;

pub const RENEW: u8 = 8;

pub const TRANSFER: u8 = 9;

pub const FINALIZE: u8 = 10;

pub const REVOKE: u8 = 11;

pub fn is_name(kind: u8) -> bool
    ensures { result ≡ is_name kind }
{
    (CLAIM..=REVOKE).contains(&kind)
}

pub fn is_linked(kind: u8) -> bool
    ensures { result ≡ is_linked kind }
{
    (REVEAL..=REVOKE).contains(&kind)
}

pub fn is_unspendable(kind: u8) -> bool
    ensures { result ≡ is_unspendable kind }
{
    kind == REVOKE
}
