// Names and name states.
ghost use Rattle.std.specs.Prelude.{◌≡◌, []};
ghost use Rattle.words.specs.Buffers.{pick};
ghost use Rattle.refusal.specs.Outcome.{refused_by};
ghost use Rattle.names.specs.Name.{valid_name, name_hash};
ghost use Rattle.names.specs.Paper.{shown_hash};
ghost use Rattle.names.specs.Blind.{blind_of};
ghost use Rattle.name_state.specs.State.{null, bitmap, binding, same_state};
ghost use Rattle.name_state.specs.Paper.{state_of, stored, null_state, owner_of, class_of, class_number};
ghost use Rattle.name_state_codec.specs.Written.{checked_size, encode_answer, encode_content};
ghost use Rattle.name_state_codec.specs.Read.{read_state};
ghost use Rattle.name_state_codec.specs.Paper.{shown_state};
ghost use Rattle.capi.specs.Flat.{write_flat};
ghost use Rattle.capi.specs.States.{state_flat, owner_flat};

use capi::WriteAnswer;
use capi::states::{OwnerAnswer, StateAnswer};
use name_state::NameState;

#[unsafe(no_mangle)]
pub extern "C" fn turgamysk_validate_name(name: &[u8]) -> u8
    ensures { result ≡ pick (valid_name name.now) 0 6 }
{
    capi::states::turgamysk_validate_name(name)
}

#[unsafe(no_mangle)]
pub extern "C" fn turgamysk_hash_name(name: &[u8], digest: &mut [u8; 32]) -> u8
    ensures value { result ≡ refused_by (name_hash name.now) }
    ensures digest_after { digest.new ≡ (shown_hash (name_hash name.now)).1 }
{
    capi::states::turgamysk_hash_name(name, digest)
}

#[unsafe(no_mangle)]
pub extern "C" fn turgamysk_blind_bid(value: u64, nonce: &[u8; 32], digest: &mut [u8; 32])
    ensures { digest.new ≡ blind_of value nonce.now }
{
    capi::states::turgamysk_blind_bid(value, nonce, digest)
}

#[unsafe(no_mangle)]
pub extern "C" fn turgamysk_name_state_decode(key: &[u8; 32], bytes: &[u8]) -> StateAnswer
    ensures { result ≡ state_flat (shown_state (read_state key.now bytes.now)) }
{
    capi::states::turgamysk_name_state_decode(key, bytes)
}

#[unsafe(no_mangle)]
pub extern "C" fn turgamysk_name_state_encode(state: NameState, dest: &mut [u8]) -> WriteAnswer
    ensures value { result ≡ write_flat (encode_answer (state_of state) dest.old) }
    ensures dest_after { dest.new ≡ encode_content (state_of state) dest.old }
{
    capi::states::turgamysk_name_state_encode(state, dest)
}

#[unsafe(no_mangle)]
pub extern "C" fn turgamysk_name_state_encoded_size(state: NameState) -> WriteAnswer
    ensures { result ≡ write_flat (checked_size (state_of state)) }
{
    capi::states::turgamysk_name_state_encoded_size(state)
}

#[unsafe(no_mangle)]
pub extern "C" fn turgamysk_name_state_class(state: NameState) -> u8
    ensures { result ≡ class_number (class_of (state_of state)) }
{
    capi::states::turgamysk_name_state_class(state)
}

#[unsafe(no_mangle)]
pub extern "C" fn turgamysk_name_state_owner_outpoint(state: NameState) -> OwnerAnswer
    ensures { result ≡ owner_flat (owner_of (state_of state)) }
{
    capi::states::turgamysk_name_state_owner_outpoint(state)
}

#[unsafe(no_mangle)]
pub extern "C" fn turgamysk_name_state_bitmap(state: NameState) -> u16
    ensures { result ≡ bitmap (state_of state) }
{
    capi::states::turgamysk_name_state_bitmap(state)
}

#[unsafe(no_mangle)]
pub extern "C" fn turgamysk_name_state_validate_key_binding(state: NameState) -> u8
    ensures { result ≡ refused_by (binding (state_of state)) }
{
    capi::states::turgamysk_name_state_validate_key_binding(state)
}

#[unsafe(no_mangle)]
pub extern "C" fn turgamysk_name_state_is_null(state: NameState) -> bool
    ensures { result ≡ null (state_of state) }
{
    capi::states::turgamysk_name_state_is_null(state)
}

#[unsafe(no_mangle)]
pub extern "C" fn turgamysk_name_state_null(key: &[u8; 32]) -> NameState
    ensures { result ≡ stored (null_state key.now []) }
{
    capi::states::turgamysk_name_state_null(key)
}

#[unsafe(no_mangle)]
pub extern "C" fn turgamysk_name_state_same(state: NameState, other: NameState) -> bool
    ensures { result ≡ same_state (state_of state) (state_of other) }
{
    capi::states::turgamysk_name_state_same(state, other)
}
