// What the reader of name states answers, as the bytes of a record: every field of a state.
ghost use Rattle.std.specs.Prelude.{◌≡◌, ◌++◌, ◌≤◌, length, take, drop};
ghost use Rattle.words.specs.Sameness.{same};
ghost use Rattle.encoding.specs.Paper.{read_paper};
ghost use Rattle.name_state_codec.specs.Read.{read_state};
ghost use Rattle.name_state_codec.specs.Paper.{decoded};
ghost use Rattle.replay.specs.Answers.{numbers, state_amounts, state_flags, state_fields, state_accepted, state_answer};

use crate::answers::{accepted, join, refused};
use encoding::read::Read;
use name_state::NameState;
use name_state_codec::decode::decode;
use primitives::NameHash;
use words::same::same_bytes;
use words::store::words_bytes;

// Heights, amounts and renewals.
fn amounts(state: &NameState) -> [u8; 64]
    ensures { result ≡ numbers (state_amounts state.now) }
{
    let first = words_bytes(
        state.height.0 as u64,
        state.renewal.0 as u64,
        state.value.0,
        state.highest.0,
    );
    let second = words_bytes(
        state.transfer.0 as u64,
        state.revoked.0 as u64,
        state.claimed.0 as u64,
        state.renewals as u64,
    );
    join(&first, &second)
}

// The owner's index and the flags.
fn flags(state: &NameState) -> [u8; 32]
    ensures { result ≡ numbers (state_flags state.now) }
{
    words_bytes(
        state.owner.index as u64,
        u64::from(state.registered),
        u64::from(state.expired),
        u64::from(state.weak),
    )
}

// Every field, of name and resource all of both arrays.
#[tactic(auto, unfolding(crate::specs::Answers::state_fields))]
fn fields(state: &NameState) -> [u8; 703]
    ensures { result ≡ state_fields state.now }
{
    let owner: [u8; 64] = join(&flags(state), &state.owner.transaction_hash.0);
    let values: [u8; 128] = join(&amounts(state), &owner);
    let texts: [u8; 575] = join(&state.name, &state.resource_data);
    join(&values, &texts)
}

// A state that was read up to a position.
fn accepted_state(state: &NameState, position: usize) -> [u8; 767]
    ensures { result ≡ numbers (state_accepted state.now position) ++ state_fields state.now }
{
    let first = accepted(
        position,
        state.class() as usize,
        state.name_length,
        state.resource_length,
    );
    join(&first, &fields(state))
}

// Whether an answer is what was read.
fn is_decoded(read: Read<NameState>, answer: &[u8]) -> bool
    ensures { result ≡ same (state_answer (read_paper read)) answer.now }
{
    match read {
        Ok((state, end)) => same_bytes(&accepted_state(&state, end.position), answer),
        Err(stop) => same_bytes(&refused(stop.refusal, stop.position), answer),
    }
}

// Whether an answer is what is read of a key and a record.
pub(crate) fn is_state(a: &[u8], answer: &[u8]) -> bool
    requires { 32 ≤ length a.now }
    ensures { result ≡ same (state_answer (decoded (read_state (take 32 a.now) (drop 32 a.now)))) answer.now }
{
    let (key, record) = a.split_first_chunk::<32>().unwrap();
    is_decoded(decode(NameHash(*key), record), answer)
}
