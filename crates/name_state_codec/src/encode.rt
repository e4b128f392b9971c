// Writing a state's record into lent bytes.
ghost use Rattle.std.specs.Prelude.{◌≡◌, ◌+◌, ◌≤◌, length};
ghost use Rattle.words.specs.Buffers.{over};
ghost use Rattle.refusal.specs.Paper.{judgement_paper, put_paper};
ghost use Rattle.encoding.specs.Wire.{compact};
ghost use Rattle.names.specs.Name.{max_name_size};
ghost use Rattle.name_state.specs.State.{max_resource_size};
ghost use Rattle.name_state.specs.Paper.{state_of};
ghost use Rattle.name_state_codec.specs.Written.{state_bytes, checked_size, encode_answer, encode_content};
ghost use Rattle.name_state_codec.specs.Workers.{limited, safe, owner_bytes, amount_bytes, time_bytes, own_held, own_times, text_bytes, number_bytes, Puts};

use crate::read::{Numbers, Reason};
use encoding::integer::Integer;
use encoding::put::{compact_size_len, put_compact_size};
use name_state::{Amounts, NameState, Times};
use primitives::{Dollarydoos, Height, Outpoint};
use refusal::Refusal;
use words::store::{put_bytes, put_le};

// ---- how many bytes

// An amount, or the count of renewals, that is not 0.
#[tactic(auto, using(crate::proofs::Sets::field_steps), unfolding(crate::specs::Workers::amount_bytes))]
fn amount_size(v: u64) -> usize
    ensures { (result ≡ length (amount_bytes v)) × (result ≤ 9) }
{
    if v == 0 { 0 } else { compact_size_len(v) }
}

// A height that is not 0.
#[tactic(auto, using(crate::proofs::Sets::field_steps), unfolding(crate::specs::Workers::time_bytes))]
fn time_size(v: Height) -> usize
    ensures { (result ≡ length (time_bytes v.0)) × (result ≤ 4) }
{
    if v.0 == 0 { 0 } else { 4 }
}

// An owner that is not null.
#[tactic(auto, using(crate::proofs::Sets::field_steps), unfolding(crate::specs::Workers::owner_bytes))]
fn owner_size(o: Outpoint) -> usize
    ensures { (result ≡ length (owner_bytes o)) × (result ≤ 41) }
{
    if o.is_null() {
        0
    } else {
        32 + compact_size_len(u64::from(o.index))
    }
}

#[tactic(auto, using(crate::proofs::Sets::row_sizes))]
fn held_size(o: Outpoint, amounts: Amounts) -> usize
    ensures { (result ≡ length (own_held o amounts)) × (result ≤ 59) }
{
    owner_size(o) + (amount_size(amounts.value.0) + amount_size(amounts.highest.0))
}

#[tactic(auto, using(crate::proofs::Sets::row_sizes))]
fn times_size(times: Times) -> usize
    ensures { (result ≡ length (own_times times)) × (result ≤ 21) }
{
    time_size(times.transfer)
        + time_size(times.revoked)
        + time_size(times.claimed)
        + amount_size(u64::from(times.renewals))
}

// The whole record.
#[tactic(auto, using(crate::proofs::Sets::record_sizes))]
fn record_size(state: NameState) -> usize
    requires { (state.name_length ≤ max_name_size) × (state.resource_length ≤ max_resource_size) }
    ensures { result ≡ length (state_bytes (state_of state)) }
{
    let held = held_size(state.owner, state.amounts());
    let times = times_size(state.times());
    state.name_length + state.resource_length + (13 + (held + times))
}

// At most a maximum of bytes.
fn limited(actual: usize, maximum: usize) -> Result<(), Refusal>
    ensures { judgement_paper result ≡ limited maximum actual }
{
    if maximum < actual {
        return Err(Refusal::TooLarge { actual, maximum });
    }
    Ok(())
}

// An amount that the record may hold.
fn safe(amount: Dollarydoos) -> Result<(), Refusal>
    ensures { judgement_paper result ≡ safe amount.0 }
{
    if NameState::MAX_SAFE_INTEGER < amount.0 {
        return Err(Reason::SafeInteger.refusal());
    }
    Ok(())
}

// How many bytes the record of a state takes, or why it is not written.
#[tactic(auto, using(crate::proofs::Sets::write_checks), unfolding(crate::specs::Written::checked_size))]
pub fn encoded_size(state: NameState) -> Result<usize, Refusal>
    ensures { put_paper result ≡ checked_size (state_of state) }
{
    limited(state.name_length, NameState::MAX_NAME_SIZE)?;
    limited(state.resource_length, NameState::MAX_RESOURCE_SIZE)?;
    safe(state.value)?;
    safe(state.highest)?;
    state.validate_key_binding()?;
    Ok(record_size(state))
}

// ---- the bytes, where there is room; each answers where they end

// A compact size: there is room for it, so all of it is put, and the 0 is never taken.
fn put_size(d: &mut [u8], at: usize, v: u64) -> usize
    requires { at + length (compact v) ≤ length d.old }
    ensures { Puts at (compact v) d.old result d.new }
{
    at + put_compact_size(d, at, v).unwrap_or(0)
}

#[tactic(auto, using(crate::proofs::Sets::field_steps), unfolding(crate::specs::Workers::amount_bytes))]
fn put_amount(d: &mut [u8], at: usize, v: u64) -> usize
    requires { at + length (amount_bytes v) ≤ length d.old }
    ensures { Puts at (amount_bytes v) d.old result d.new }
{
    if v == 0 { at } else { put_size(d, at, v) }
}

#[tactic(auto, using(crate::proofs::Sets::field_steps), unfolding(crate::specs::Workers::time_bytes))]
fn put_time(d: &mut [u8], at: usize, v: Height) -> usize
    requires { at + length (time_bytes v.0) ≤ length d.old }
    ensures { Puts at (time_bytes v.0) d.old result d.new }
{
    if v.0 == 0 {
        return at;
    }
    put_le(d, at, 4, u64::from(v.0));
    at + 4
}

// The hash of an owner that is not null, and its index.
#[tactic(auto, using(crate::proofs::Sets::field_steps), unfolding(crate::specs::Workers::owner_bytes))]
fn put_owner(d: &mut [u8], at: usize, o: Outpoint) -> usize
    requires { at + length (owner_bytes o) ≤ length d.old }
    ensures { Puts at (owner_bytes o) d.old result d.new }
{
    if o.is_null() {
        return at;
    }
    put_bytes(d, at, &o.transaction_hash.0);
    put_size(d, at + 32, u64::from(o.index))
}

#[tactic(auto, using(crate::proofs::Sets::rows), unfolding(crate::specs::Workers::own_held))]
fn put_held(d: &mut [u8], at: usize, o: Outpoint, amounts: Amounts) -> usize
    requires { at + length (own_held o amounts) ≤ length d.old }
    ensures { Puts at (own_held o amounts) d.old result d.new }
{
    let one = put_owner(d, at, o);
    let two = put_amount(d, one, amounts.value.0);
    put_amount(d, two, amounts.highest.0)
}

#[tactic(auto, using(crate::proofs::Sets::row_sizes))]
fn put_times(d: &mut [u8], at: usize, times: Times) -> usize
    requires { at + length (own_times times) ≤ length d.old }
    ensures { Puts at (own_times times) d.old result d.new }
{
    let one = put_time(d, at, times.transfer);
    let two = put_time(d, one, times.revoked);
    let three = put_time(d, two, times.claimed);
    put_amount(d, three, u64::from(times.renewals))
}

// A text after its length, which is a number of a type.
#[tactic(auto, using(crate::proofs::Sets::rows))]
fn put_text<T: Integer>(d: &mut [u8], at: usize, text: &[u8]) -> usize
    requires { at + (T.WIDTH + length text.now) ≤ length d.old }
    ensures { Puts at (text_bytes T.WIDTH text.now) d.old result d.new }
{
    put_le(d, at, T::WIDTH, text.len() as u64);
    let body = at + T::WIDTH;
    put_bytes(d, body, text);
    body + text.len()
}

fn put_numbers(d: &mut [u8], at: usize, numbers: Numbers)
    requires { at + 10 ≤ length d.old }
    ensures { d.new ≡ over at (number_bytes numbers) d.old }
{
    put_le(d, at, 4, u64::from(numbers.height.0));
    put_le(d, at + 4, 4, u64::from(numbers.renewal.0));
    put_le(d, at + 8, 2, u64::from(numbers.bits));
}

// The whole record.
#[tactic(auto, using(crate::proofs::Sets::record_sizes))]
fn put_record(state: NameState, d: &mut [u8])
    requires { (state.name_length ≤ max_name_size) × (state.resource_length ≤ max_resource_size) × (length (state_bytes (state_of state)) ≤ length d.old) }
    ensures { d.new ≡ over 0 (state_bytes (state_of state)) d.old }
{
    let numbers = Numbers {
        height: state.height,
        renewal: state.renewal,
        bits: state.bitmap(),
    };
    let one = put_text::<u8>(d, 0, &state.name[..state.name_length]);
    let two = put_text::<u16>(d, one, &state.resource_data[..state.resource_length]);
    put_numbers(d, two, numbers);
    let three = put_held(d, two + 10, state.owner, state.amounts());
    put_times(d, three, state.times());
}

// The record at the start of dest: all of it, or nothing and the refusal. The name is hashed once.
pub fn encode(state: NameState, dest: &mut [u8]) -> Result<usize, Refusal>
    ensures { (put_paper result ≡ encode_answer (state_of state) dest.old) × (dest.new ≡ encode_content (state_of state) dest.old) }
{
    let n = encoded_size(state)?;
    if dest.len() < n {
        return Err(Refusal::NoRoom { needed: n });
    }
    put_record(state, dest);
    Ok(n)
}
