// The name rule, the name hash and the blind commitment (document 01, module 5).
#![tactic(auto)]

ghost use Rattle.std.specs.Prelude.{◌≡◌, ◌||◌};
ghost use Rattle.names.specs.Blind.{blind_of};
ghost use Rattle.names.specs.Name.{plain, mark, letters, reserved, valid_name, name_hash};
ghost use Rattle.names.specs.Paper.{hashed_paper};

use primitives::{Dollarydoos, NameHash};
use refusal::Refusal;

pub const MAX_NAME_SIZE: usize = 63;

// "0-9, a-z".
#[tactic(auto, using(std::proofs::lemmas::Bool::Decides::nat_tests), unfolding(crate::specs::Name::plain))]
fn is_plain(b: u8) -> bool
    ensures { result ≡ plain b }
{
    matches!(b, b'0'..=b'9' | b'a'..=b'z')
}

// "`-` and `_`".
#[tactic(auto, using(std::proofs::lemmas::Bool::Decides::nat_tests), unfolding(crate::specs::Name::mark))]
fn is_mark(b: u8) -> bool
    ensures { result ≡ mark b }
{
    matches!(b, b'-' | b'_')
}

// One of the bytes that a name may have.
fn is_letter(b: u8) -> bool
    ensures { result ≡ (plain b || mark b) }
{
    is_plain(b) || is_mark(b)
}

fn all_letters(name: &[u8]) -> bool
    ensures { result ≡ letters name.now }
{
    name.iter().all(|b| is_letter(*b))
}

// "not example, invalid, local, localhost, test".
#[tactic(auto, using(crate::proofs::Spelled::spellings), unfolding(crate::specs::Name::reserved))]
fn is_reserved(name: &[u8]) -> bool
    ensures { result ≡ reserved name.now }
{
    matches!(
        name,
        b"example" | b"invalid" | b"local" | b"localhost" | b"test"
    )
}

#[tactic(auto, using(std::proofs::lemmas::Bool::Decides::nat_tests), unfolding(crate::specs::Name::valid_name))]
pub fn validate_name(name: &[u8]) -> bool
    ensures { result ≡ valid_name name.now }
{
    let (Some(first), Some(last)) = (name.first(), name.last()) else {
        return false;
    };
    name.len() <= MAX_NAME_SIZE
        && all_letters(name)
        && !is_mark(*first)
        && !is_mark(*last)
        && !is_reserved(name)
}

// The hash of a name. A call would hand it over through memory, and a name of 63 bytes take 5 % longer.
#[inline(always)]
#[tactic(auto, unfolding(crate::specs::Name::name_hash))]
pub fn hash_name(name: &[u8]) -> Result<NameHash, Refusal>
    ensures { hashed_paper result ≡ name_hash name.now }
{
    if !validate_name(name) {
        return Err(Refusal::InvalidName);
    }
    Ok(NameHash(sha3::sha3_256(name)))
}

// The commitment of a bid: what a reveal's value and nonce must give again.
pub fn blind_bid(value: Dollarydoos, nonce: &[u8; 32]) -> [u8; 32]
    ensures { result ≡ blind_of value.0 nonce.now }
{
    blake2b::blake2b_256_value_nonce(value.0, nonce)
}
