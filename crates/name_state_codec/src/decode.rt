// Reading a state under its key.
ghost use Rattle.std.specs.Prelude.{◌≡◌, ◌+◌, ◌≤◌, length, take, drop};
ghost use Rattle.words.specs.Buffers.{zero_padded};
ghost use Rattle.refusal.specs.Outcome.{past};
ghost use Rattle.encoding.specs.Paper.{read_paper, moved_paper};
ghost use Rattle.name_state.specs.Paper.{state_of, stored};
ghost use Rattle.name_state_codec.specs.Read.{read_state};
ghost use Rattle.name_state_codec.specs.Paper.{decoded};
ghost use Rattle.name_state_codec.specs.Workers.{gathered_of, judged_bits, Inside};

use crate::read::{
    Numbers, Texts, has, read_amounts, read_numbers, read_owner, read_texts, read_times,
};
use encoding::read::{Cursor, Read, Span};
use name_state::{Amounts, NameState, Times, field};
use primitives::{NameHash, Outpoint};
use refusal::{Refusal, Stop};

// The fields of a record; of the name and the resource, where they stand.
#[derive(Clone, Copy)]
pub struct Fields {
    pub texts: Texts,
    pub numbers: Numbers,
    pub owner: Outpoint,
    pub amounts: Amounts,
    pub times: Times,
}

// The bytes of a part, and zeros past them.
#[tactic(auto, using(crate::proofs::Sets::paddings), unfolding(words::specs::Buffers::zero_padded))]
fn padded<const N: usize>(s: &[u8], part: Span) -> [u8; N]
    requires { (part.len ≤ N) × (part.start + part.len ≤ length s.now) }
    ensures { result ≡ zero_padded N (take part.len (drop part.start s.now)) }
{
    let mut array = [0u8; N];
    array[..part.len].copy_from_slice(&s[part.start..part.start + part.len]);
    array
}

// The state that the fields make. Compiled into its caller: a call would copy the state, of 712 bytes, once more.
#[inline(always)]
#[tactic(auto, unfolding(crate::specs::Read::gathered))]
fn build(key: NameHash, s: &[u8], fields: Fields) -> NameState
    requires { Inside s.now fields.texts }
    ensures { result ≡ stored (gathered_of key.0 s.now fields) }
{
    let Fields {
        texts,
        numbers,
        owner,
        amounts,
        times,
    } = fields;
    NameState {
        name_hash: key,
        name: padded(s, texts.name),
        name_length: texts.name.len,
        resource_data: padded(s, texts.resource),
        resource_length: texts.resource.len,
        height: numbers.height,
        renewal: numbers.renewal,
        owner,
        value: amounts.value,
        highest: amounts.highest,
        transfer: times.transfer,
        revoked: times.revoked,
        claimed: times.claimed,
        renewals: times.renewals,
        registered: has(numbers.bits, field::REGISTERED),
        expired: has(numbers.bits, field::EXPIRED),
        weak: has(numbers.bits, field::WEAK),
    }
}

// What is judged at the end: trailing bytes, the name and its key, the bitmap. Compiled into its caller, as above.
#[inline(always)]
#[tactic(auto, using(crate::proofs::Sets::read_steps), unfolding(crate::specs::Workers::judged_bits))]
fn judge(s: &[u8], bits: u16, state: NameState, c: Cursor) -> Result<Cursor, Stop>
    ensures { moved_paper result ≡ past (judged_bits s.now (bits, state_of state) c.position) }
{
    let end = c.finish(s)?;
    let position = end.position;
    state
        .validate_key_binding()
        .map_err(|refusal| Stop { refusal, position })?;
    if state.bitmap() != bits {
        return Err(Stop {
            refusal: Refusal::NonCanonicalNameState,
            position,
        });
    }
    Ok(end)
}

// The state of a record under its key; its name is hashed once.
#[tactic(auto, using(crate::proofs::Sets::read_steps), unfolding(crate::specs::Read::read_state, crate::specs::Read::fields_at, crate::specs::Read::optional_at, crate::specs::Read::held_at))]
pub fn decode(key: NameHash, s: &[u8]) -> Read<NameState>
    ensures { read_paper result ≡ decoded (read_state key.0 s.now) }
{
    if NameState::MAX_SIZE < s.len() {
        return Err(Stop {
            refusal: Refusal::TooLarge {
                actual: s.len(),
                maximum: NameState::MAX_SIZE,
            },
            position: 0,
        });
    }
    let (texts, after_texts) = read_texts(s, Cursor { position: 0 })?;
    let (numbers, after_numbers) = read_numbers(s, after_texts)?;
    let (owner, after_owner) = read_owner(s, after_numbers, numbers.bits)?;
    let (amounts, after_amounts) = read_amounts(s, after_owner, numbers.bits)?;
    let (times, after_times) = read_times(s, after_amounts, numbers.bits)?;
    let fields = Fields {
        texts,
        numbers,
        owner,
        amounts,
        times,
    };
    let state = build(key, s, fields);
    let end = judge(s, numbers.bits, state, after_times)?;
    Ok((state, end))
}
