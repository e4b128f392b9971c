// The kinds of amounts, heights and keys, each its own, and outpoints: the part of hns-primitives that names and links
// stand on.
#![tactic(auto)]

ghost use Rattle.std.specs.Prelude.{◌≡◌};
ghost use Rattle.encoding.specs.Paper.{read_paper};
ghost use Rattle.primitives.specs.Units.{sum_of, difference_of};
ghost use Rattle.primitives.specs.Outpoints.{same_outpoint, is_null, outpoint_bytes, outpoint_at};

use encoding::read::{Cursor, Read};
use words::store::{put_bytes, put_le};

// An amount, in millionths of a coin.
#[repr(C)]
#[derive(Clone, Copy, PartialEq, Eq, PartialOrd, Ord)]
pub struct Dollarydoos(pub u64);

// A block's height.
#[repr(C)]
#[derive(Clone, Copy, PartialEq, Eq, PartialOrd, Ord)]
pub struct Height(pub u32);

// The key of a name: the hash of its bytes.
#[repr(C)]
#[derive(Clone, Copy, PartialEq, Eq)]
pub struct NameHash(pub [u8; 32]);

#[repr(C)]
#[derive(Clone, Copy, PartialEq, Eq)]
pub struct TransactionHash(pub [u8; 32]);

#[derive(Clone, Copy, PartialEq, Eq)]
pub enum ArithmeticError {
    Overflow,
    Underflow,
}

impl Dollarydoos {
    pub fn checked_add(self, other: Dollarydoos) -> Result<Dollarydoos, ArithmeticError>
        ensures { result ≡ sum_of self other }
    {
        self.0
            .checked_add(other.0)
            .map(Dollarydoos)
            .ok_or(ArithmeticError::Overflow)
    }

    pub fn checked_sub(self, other: Dollarydoos) -> Result<Dollarydoos, ArithmeticError>
        ensures { result ≡ difference_of self other }
    {
        self.0
            .checked_sub(other.0)
            .map(Dollarydoos)
            .ok_or(ArithmeticError::Underflow)
    }
}

// A transaction's output, by the transaction's hash and the output's number.
#[repr(C)]
#[derive(Clone, Copy, PartialEq, Eq)]
pub struct Outpoint {
    pub transaction_hash: TransactionHash,
    pub index: u32,
}

impl Outpoint {
    pub const NULL: Outpoint = Outpoint {
        transaction_hash: TransactionHash([0u8; 32]),
        index: 4294967295,
    };

    // What stands in an answer where there is no outpoint.
    pub const NONE: Outpoint = Outpoint {
        transaction_hash: TransactionHash([0u8; 32]),
        index: 0,
    };

    // Whether two outpoints are the same: the Rust's `==`.
    pub fn same(self, other: Outpoint) -> bool
        ensures { result ≡ same_outpoint self other }
    {
        self == other
    }

    pub fn is_null(self) -> bool
        ensures { result ≡ is_null self }
    {
        // Most outpoints differ in the index, and are told by it without a call.
        self.index == Outpoint::NULL.index && self == Outpoint::NULL
    }

    // The 36 bytes of a transaction's input.
    pub fn encode(self) -> [u8; 36]
        ensures { result ≡ outpoint_bytes self }
    {
        let mut encoded = [0u8; 36];
        put_bytes(&mut encoded, 0, &self.transaction_hash.0);
        put_le(&mut encoded, 32, 4, u64::from(self.index));
        encoded
    }

    // Those 36 bytes read: the Rust's `decode_outpoint_from`.
    pub fn decode(c: Cursor, s: &[u8]) -> Read<Outpoint>
        ensures { read_paper result ≡ outpoint_at s.now c.position }
    {
        let (hash, next) = c.read_array::<32>(s)?;
        let (index, end) = next.read_le::<u32>(s)?;
        let outpoint = Outpoint {
            transaction_hash: TransactionHash(hash),
            index,
        };
        Ok((outpoint, end))
    }
}
