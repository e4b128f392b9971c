// Names and name states.
ghost use Rattle.std.specs.Prelude.{◌≡◌, []};
ghost use Rattle.words.specs.Buffers.{pick};
ghost use Rattle.refusal.specs.Outcome.{refused_by};
ghost use Rattle.names.specs.Name.{valid_name, name_hash};
ghost use Rattle.names.specs.Paper.{shown_hash};
ghost use Rattle.names.specs.Blind.{blind_of};
ghost use Rattle.name_state.specs.State.{null, bitmap, binding, same_state};
ghost use Rattle.name_state.specs.Paper.{state_of, stored, null_state, owner_of, class_of, class_number};
ghost use Rattle.name_state_codec.specs.Written.{checked_size, encode_answer, encode_content};
ghost use Rattle.name_state_codec.specs.Read.{read_state};
ghost use Rattle.encoding.specs.Paper.{read_paper};
ghost use Rattle.name_state_codec.specs.Paper.{zero_state, shown_state};
ghost use Rattle.capi.specs.Flat.{write_flat};
ghost use Rattle.capi.specs.States.{state_flat, owner_flat, state_or_zero};

use crate::{FlatStop, WriteAnswer};
use encoding::read::Read;
use name_state::NameState;
use name_state_codec::decode::decode;
use name_state_codec::encode::{encode, encoded_size};
use names::{blind_bid, hash_name, validate_name};
use primitives::{Dollarydoos, NameHash, Outpoint};
use refusal::{judgement_number, number};

// ---- names

pub fn turgamysk_validate_name(name: &[u8]) -> u8
    ensures { result ≡ pick (valid_name name.now) 0 6 }
{
    if validate_name(name) { 0 } else { 6 }
}

pub fn turgamysk_hash_name(name: &[u8], digest: &mut [u8; 32]) -> u8
    ensures value { result ≡ refused_by (name_hash name.now) }
    ensures digest_after { digest.new ≡ (shown_hash (name_hash name.now)).1 }
{
    match hash_name(name) {
        Ok(hash) => {
            let bytes = hash.0;
            *digest = bytes;
            0
        }
        Err(refusal) => {
            *digest = [0; 32];
            number(refusal)
        }
    }
}

pub fn turgamysk_blind_bid(value: u64, nonce: &[u8; 32], digest: &mut [u8; 32])
    ensures { digest.new ≡ blind_of value nonce.now }
{
    *digest = blind_bid(Dollarydoos(value), nonce);
}

// ---- name states

// A state that was read, or the refusal, and then zeros for a state.
#[repr(C)]
#[derive(Clone, Copy)]
pub struct StateAnswer {
    pub stop: FlatStop,
    pub state: NameState,
}

// The current owner (`held`), or that there is none, and then zeros for it.
#[repr(C)]
#[derive(Clone, Copy)]
pub struct OwnerAnswer {
    pub held: bool,
    pub outpoint: Outpoint,
}

// What stands for a state where the bytes are none.
fn zero_state() -> NameState
    ensures { result ≡ zero_state }
{
    let mut state = NameState::null(NameHash([0; 32]));
    state.owner = Outpoint::NONE;
    state
}

impl From<Read<NameState>> for StateAnswer {
    ghost from_gives = { λ read flat. flat ≡ state_flat (state_or_zero (read_paper read)) };

    fn from(read: Read<NameState>) -> StateAnswer {
        match read {
            Ok((state, next)) => StateAnswer {
                stop: FlatStop::from(next),
                state,
            },
            Err(stop) => StateAnswer {
                stop: FlatStop::from(stop),
                state: zero_state(),
            },
        }
    }
}

impl From<Option<Outpoint>> for OwnerAnswer {
    ghost from_gives = { λ owner flat. flat ≡ owner_flat owner };

    fn from(owner: Option<Outpoint>) -> OwnerAnswer {
        match owner {
            Some(outpoint) => OwnerAnswer {
                held: true,
                outpoint,
            },
            None => OwnerAnswer {
                held: false,
                outpoint: Outpoint::NONE,
            },
        }
    }
}

pub fn turgamysk_name_state_decode(key: &[u8; 32], bytes: &[u8]) -> StateAnswer
    ensures { result ≡ state_flat (shown_state (read_state key.now bytes.now)) }
{
    StateAnswer::from(decode(NameHash(*key), bytes))
}

pub fn turgamysk_name_state_encode(state: NameState, dest: &mut [u8]) -> WriteAnswer
    ensures value { result ≡ write_flat (encode_answer (state_of state) dest.old) }
    ensures dest_after { dest.new ≡ encode_content (state_of state) dest.old }
{
    WriteAnswer::from(encode(state, dest))
}

pub fn turgamysk_name_state_encoded_size(state: NameState) -> WriteAnswer
    ensures { result ≡ write_flat (checked_size (state_of state)) }
{
    WriteAnswer::from(encoded_size(state))
}

pub fn turgamysk_name_state_class(state: NameState) -> u8
    ensures { result ≡ class_number (class_of (state_of state)) }
{
    state.class() as u8
}

pub fn turgamysk_name_state_owner_outpoint(state: NameState) -> OwnerAnswer
    ensures { result ≡ owner_flat (owner_of (state_of state)) }
{
    OwnerAnswer::from(state.owner_outpoint())
}

pub fn turgamysk_name_state_bitmap(state: NameState) -> u16
    ensures { result ≡ bitmap (state_of state) }
{
    state.bitmap()
}

pub fn turgamysk_name_state_validate_key_binding(state: NameState) -> u8
    ensures { result ≡ refused_by (binding (state_of state)) }
{
    judgement_number(state.validate_key_binding())
}

pub fn turgamysk_name_state_is_null(state: NameState) -> bool
    ensures { result ≡ null (state_of state) }
{
    state.is_null()
}

pub fn turgamysk_name_state_null(key: &[u8; 32]) -> NameState
    ensures { result ≡ stored (null_state key.now []) }
{
    NameState::null(NameHash(*key))
}

pub fn turgamysk_name_state_same(state: NameState, other: NameState) -> bool
    ensures { result ≡ same_state (state_of state) (state_of other) }
{
    state.same(other)
}
