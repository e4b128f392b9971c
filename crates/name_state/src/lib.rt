// A name state, by value: it carries its name and resource bytes inside itself (document 01, module 6).
#![tactic(auto)]

ghost use Rattle.std.specs.Prelude.{◌≡◌, [], ◌≤◌};
ghost use Rattle.refusal.specs.Paper.{judgement_paper};
ghost use Rattle.names.specs.Name.{name_hash};
ghost use Rattle.name_state.specs.State.{null, bit, bitmap, keyed, binding};
ghost use Rattle.name_state.specs.Paper.{text, state_of, stored, null_state, owner_of, class_of, heights_of, amounts_of, times_of};

use names::hash_name;
use primitives::{Dollarydoos, Height, NameHash, Outpoint};
use refusal::Refusal;
use words::same::same_bytes;

pub mod comparison;
pub mod field;

// The Rust's `NameState`; of each array only the first `name_length`, `resource_length` bytes are the name and the
// resource.
#[repr(C)]
#[derive(Clone, Copy)]
pub struct NameState {
    pub name_hash: NameHash,
    pub name: [u8; 63],
    pub name_length: usize,
    pub resource_data: [u8; 512],
    pub resource_length: usize,
    pub height: Height,
    pub renewal: Height,
    pub owner: Outpoint,
    pub value: Dollarydoos,
    pub highest: Dollarydoos,
    pub transfer: Height,
    pub revoked: Height,
    pub claimed: Height,
    pub renewals: u32,
    pub registered: bool,
    pub expired: bool,
    pub weak: bool,
}

// What the name report prints of a state.
#[derive(Clone, Copy, PartialEq, Eq)]
pub enum Class {
    Null,
    Held,
    Free,
}

// A state's height and renewal.
#[derive(Clone, Copy, PartialEq, Eq)]
pub struct Heights {
    pub height: Height,
    pub renewal: Height,
}

// A state's value and highest.
#[derive(Clone, Copy, PartialEq, Eq)]
pub struct Amounts {
    pub value: Dollarydoos,
    pub highest: Dollarydoos,
}

// A state's transfer, revoked, claimed and renewals.
#[derive(Clone, Copy, PartialEq, Eq)]
pub struct Times {
    pub transfer: Height,
    pub revoked: Height,
    pub claimed: Height,
    pub renewals: u32,
}

impl Heights {
    pub const ZERO: Heights = Heights {
        height: Height(0),
        renewal: Height(0),
    };
}

impl Amounts {
    pub const ZERO: Amounts = Amounts {
        value: Dollarydoos(0),
        highest: Dollarydoos(0),
    };
}

impl Times {
    pub const ZERO: Times = Times {
        transfer: Height(0),
        revoked: Height(0),
        claimed: Height(0),
        renewals: 0,
    };
}

// The weight of a bit that is set, else 0.
fn flag(present: bool, weight: u16) -> u16
    ensures { (result ≡ bit weight present) × (result ≤ weight) }
{
    u16::from(present) * weight
}

// The key is the hash of the name, which is hashed here once.
#[tactic(auto, using(crate::proofs::Sets::binding_steps))]
fn name_binding(name: &[u8; 63], length: usize, key: &NameHash) -> Result<(), Refusal>
    ensures { judgement_paper result ≡ keyed (name_hash (text length name.now)) key.now.0 }
{
    let name = name.get(..length).ok_or(Refusal::InvalidName)?;
    match &hash_name(name) {
        // Eight bytes at a time: `==` goes byte by byte and takes more than half as long again.
        Ok(hash) if same_bytes(&hash.0, &key.0) => Ok(()),
        Ok(_) => Err(Refusal::NameStateHashMismatch),
        Err(refusal) => Err(*refusal),
    }
}

impl NameState {
    pub const MAX_NAME_SIZE: usize = names::MAX_NAME_SIZE;

    pub const MAX_RESOURCE_SIZE: usize = 512;

    pub const MAX_SIZE: usize = 668;

    // 2^53 - 1
    pub const MAX_SAFE_INTEGER: u64 = 9007199254740991;

    #[tactic(auto, unfolding(words::specs::Buffers::zero_padded))]
    pub fn null(key: NameHash) -> NameState
        ensures { result ≡ stored (null_state key.0 []) }
    {
        NameState {
            name_hash: key,
            name: [0u8; 63],
            name_length: 0,
            resource_data: [0u8; 512],
            resource_length: 0,
            height: Height(0),
            renewal: Height(0),
            owner: Outpoint::NULL,
            value: Dollarydoos(0),
            highest: Dollarydoos(0),
            transfer: Height(0),
            revoked: Height(0),
            claimed: Height(0),
            renewals: 0,
            registered: false,
            expired: false,
            weak: false,
        }
    }

    pub fn heights(self) -> Heights
        ensures { result ≡ heights_of (state_of self) }
    {
        Heights {
            height: self.height,
            renewal: self.renewal,
        }
    }

    pub fn amounts(self) -> Amounts
        ensures { result ≡ amounts_of (state_of self) }
    {
        Amounts {
            value: self.value,
            highest: self.highest,
        }
    }

    pub fn times(self) -> Times
        ensures { result ≡ times_of (state_of self) }
    {
        Times {
            transfer: self.transfer,
            revoked: self.revoked,
            claimed: self.claimed,
            renewals: self.renewals,
        }
    }

    #[tactic(auto, using(crate::proofs::Sets::field_tests), unfolding(crate::specs::State::null))]
    pub fn is_null(self) -> bool
        ensures { result ≡ null (state_of self) }
    {
        self.heights() == Heights::ZERO
            && self.amounts() == Amounts::ZERO
            && self.times() == Times::ZERO
            && self.resource_length == 0
            && !self.registered
            && !self.expired
            && !self.weak
            && self.owner.is_null()
    }

    // The current owner, where there is one.
    pub fn owner_outpoint(self) -> Option<Outpoint>
        ensures { result ≡ owner_of (state_of self) }
    {
        if self.owner.is_null() {
            None
        } else {
            Some(self.owner)
        }
    }

    pub fn class(self) -> Class
        ensures { result ≡ class_of (state_of self) }
    {
        if self.is_null() {
            Class::Null
        } else if self.owner.is_null() {
            Class::Free
        } else {
            Class::Held
        }
    }

    // Which fields the record shows.
    #[tactic(auto, unfolding(crate::specs::State::bitmap))]
    pub fn bitmap(self) -> u16
        ensures { result ≡ bitmap (state_of self) }
    {
        let owned = flag(!self.owner.is_null(), field::OWNER);
        let amounts = flag(self.value != Dollarydoos(0), field::VALUE)
            + flag(self.highest != Dollarydoos(0), field::HIGHEST);
        let times = flag(self.transfer != Height(0), field::TRANSFER)
            + flag(self.revoked != Height(0), field::REVOKED)
            + flag(self.claimed != Height(0), field::CLAIMED);
        let renewed = flag(self.renewals != 0, field::RENEWALS);
        let flags = flag(self.registered, field::REGISTERED)
            + flag(self.expired, field::EXPIRED)
            + flag(self.weak, field::WEAK);
        owned + amounts + times + renewed + flags
    }

    // Nothing binds a null state.
    #[tactic(auto, unfolding(crate::specs::State::binding))]
    pub fn validate_key_binding(self) -> Result<(), Refusal>
        ensures { judgement_paper result ≡ binding (state_of self) }
    {
        if self.is_null() {
            return Ok(());
        }
        // Two fields by themselves: where one of `self` is lent, all 712 bytes of the state are copied.
        let name = self.name;
        let key = self.name_hash;
        name_binding(&name, self.name_length, &key)
    }
}
