// The fields of a record, from left to right: where the name and the resource stand, and the numbers.
ghost use Rattle.std.specs.Prelude.{◌≡◌, ◌^◌, ◌<◌, true, false, Ok};
ghost use Rattle.refusal.specs.Outcome.{then};
ghost use Rattle.refusal.specs.Paper.{standing};
ghost use Rattle.refusal.specs.declared.Refusal.{Refusal};
ghost use Rattle.encoding.specs.Wire.{fixed_at, compact_at};
ghost use Rattle.encoding.specs.Paper.{read_as, read_paper, span_paper};
ghost use Rattle.primitives.specs.Outpoints.{null_outpoint};
ghost use Rattle.name_state_codec.specs.Read.{renewal_count, max_u32, up_to, text_at, texts_at, numbers_at, present, owner_at, amount_at, amounts_at, times_at};
ghost use Rattle.name_state_codec.specs.Written.{has};
ghost use Rattle.name_state_codec.specs.Workers.{reason_number, texts_said, numbers_said, amounts_said, times_said};

use encoding::integer::Integer;
use encoding::read::{Cursor, Read, Span};
use name_state::{Amounts, NameState, Times, field};
use primitives::{Dollarydoos, Height, Outpoint, TransactionHash};
use refusal::{Refusal, Stop};

// Where the name and the resource stand.
#[derive(Clone, Copy)]
pub struct Texts {
    pub name: Span,
    pub resource: Span,
}

// Height, renewal and the bitmap.
#[derive(Clone, Copy)]
pub struct Numbers {
    pub height: Height,
    pub renewal: Height,
    pub bits: u16,
}

// The reasons of `InvalidNameState`, in the table's order.
#[derive(Clone, Copy)]
pub enum Reason {
    NameOver = 1,
    ResourceOver = 2,
    UnknownBits = 3,
    OwnerIndex = 4,
    RenewalCount = 5,
    SafeInteger = 6,
}

impl Reason {
    pub(crate) fn refusal(self) -> Refusal
        ensures { result ≡ Refusal.InvalidNameState (reason_number self) }
    {
        Refusal::InvalidNameState { reason: self as u8 }
    }
}

// The ten bits of the bitmap that are known, all set.
const KNOWN_BITS: u16 = 1023;

// A number that was read and is too large, for a reason.
fn invalid(reason: Reason, next: Cursor) -> Stop
    ensures { (result.refusal ≡ Refusal.InvalidNameState (reason_number reason)) × (standing result ≡ next.position) }
{
    Stop {
        refusal: reason.refusal(),
        position: next.position,
    }
}

// Whether the bit of a weight is set.
pub(crate) fn has(bits: u16, weight: u16) -> bool
    requires { 0 < weight }
    ensures { result ≡ has weight bits }
{
    bits / weight % 2 == 1
}

// A text after its length, which is a number of a type.
#[tactic(auto, using(crate::proofs::Sets::read_steps), unfolding(crate::specs::Read::text_at, crate::specs::Read::up_to))]
fn read_text<T: Integer>(s: &[u8], c: Cursor, maximum: usize, reason: Reason) -> Read<Span>
    ensures { span_paper result ≡ text_at T.WIDTH maximum (reason_number reason) s.now c.position }
{
    let (length, body) = c.read_le::<T>(s)?;
    let n = length.into_u64() as usize;
    if maximum < n {
        return Err(invalid(reason, body));
    }
    body.read_slice(s, n)
}

// The name and the resource.
#[tactic(auto, using(crate::proofs::Sets::read_steps), unfolding(crate::specs::Read::texts_at))]
pub(crate) fn read_texts(s: &[u8], c: Cursor) -> Read<Texts>
    ensures { read_as texts_said result ≡ texts_at s.now c.position }
{
    let (name, next) = read_text::<u8>(s, c, NameState::MAX_NAME_SIZE, Reason::NameOver)?;
    let (resource, end) = read_text::<u16>(
        s,
        next,
        NameState::MAX_RESOURCE_SIZE,
        Reason::ResourceOver,
    )?;
    Ok((Texts { name, resource }, end))
}

// Height, renewal and the bitmap, which has ten bits.
#[tactic(auto, using(crate::proofs::Sets::read_steps), unfolding(crate::specs::Read::numbers_at, crate::specs::Read::up_to))]
pub(crate) fn read_numbers(s: &[u8], c: Cursor) -> Read<Numbers>
    ensures { read_as numbers_said result ≡ numbers_at s.now c.position }
{
    let (height, after_height) = c.read_le::<u32>(s)?;
    let (renewal, after_renewal) = after_height.read_le::<u32>(s)?;
    let (bits, end) = after_renewal.read_le::<u16>(s)?;
    if KNOWN_BITS < bits {
        return Err(invalid(Reason::UnknownBits, end));
    }
    let numbers = Numbers {
        height: Height(height),
        renewal: Height(renewal),
        bits,
    };
    Ok((numbers, end))
}

// A compact size of at most a maximum, as a number of a type.
#[tactic(auto, using(crate::proofs::Sets::read_steps), unfolding(crate::specs::Read::up_to))]
fn read_compact<T: Integer>(s: &[u8], c: Cursor, maximum: u64, reason: Reason) -> Read<T>
    requires { maximum < 256 ^ T.WIDTH }
    ensures { read_as T.number result ≡ then (compact_at s.now c.position) (up_to maximum (reason_number reason)) }
{
    let (v, next) = c.read_compact_size(s)?;
    if maximum < v {
        return Err(invalid(reason, next));
    }
    Ok((T::from_u64(v), next))
}

// What is read where its bit is set, else what stands for it.
fn read_present<T: Copy, F: FnOnce() -> Read<T>>(
    set: bool,
    c: Cursor,
    absent: T,
    read: F,
) -> Read<T>
    requires { F.pre read }
    ensures held { set ≡ true → F.post read result }
    ensures missing { set ≡ false → result ≡ Ok (absent, c) }
{
    if set { read() } else { Ok((absent, c)) }
}

#[tactic(auto, using(crate::proofs::Sets::read_steps), unfolding(crate::specs::Read::owner_at))]
fn read_outpoint(s: &[u8], c: Cursor) -> Read<Outpoint>
    ensures { read_paper result ≡ owner_at s.now c.position }
{
    let (hash, next) = c.read_array::<32>(s)?;
    let (index, end) = read_compact::<u32>(s, next, u64::from(u32::MAX), Reason::OwnerIndex)?;
    let outpoint = Outpoint {
        transaction_hash: TransactionHash(hash),
        index,
    };
    Ok((outpoint, end))
}

// The owner where its bit is set, else the null outpoint.
pub(crate) fn read_owner(s: &[u8], c: Cursor, bits: u16) -> Read<Outpoint>
    ensures { read_paper result ≡ present (has 1 bits) (owner_at s.now c.position) null_outpoint c.position }
{
    read_present(
        has(bits, field::OWNER),
        c,
        Outpoint::NULL,
        || read_outpoint(s, c),
    )
}

// An amount where its bit is set, else 0.
#[tactic(auto, unfolding(crate::specs::Read::amount_at))]
fn read_amount(s: &[u8], c: Cursor, set: bool) -> Read<u64>
    ensures { read_paper result ≡ present set (amount_at s.now c.position) 0 c.position }
{
    read_present(set, c, 0, || {
        read_compact::<u64>(s, c, NameState::MAX_SAFE_INTEGER, Reason::SafeInteger)
    })
}

// Value and highest.
#[tactic(auto, using(crate::proofs::Sets::read_steps), unfolding(crate::specs::Read::amounts_at))]
pub(crate) fn read_amounts(s: &[u8], c: Cursor, bits: u16) -> Read<Amounts>
    ensures { read_as amounts_said result ≡ amounts_at bits s.now c.position }
{
    let (value, next) = read_amount(s, c, has(bits, field::VALUE))?;
    let (highest, end) = read_amount(s, next, has(bits, field::HIGHEST))?;
    let amounts = Amounts {
        value: Dollarydoos(value),
        highest: Dollarydoos(highest),
    };
    Ok((amounts, end))
}

// A height where its bit is set, else 0.
fn read_time(s: &[u8], c: Cursor, set: bool) -> Read<u32>
    ensures { read_paper result ≡ present set (fixed_at 4 s.now c.position) 0 c.position }
{
    read_present(set, c, 0, || c.read_le::<u32>(s))
}

// The number of renewals where its bit is set, else 0.
fn read_renewals(s: &[u8], c: Cursor, set: bool) -> Read<u32>
    ensures { read_paper result ≡ present set (then (compact_at s.now c.position) (up_to max_u32 renewal_count)) 0 c.position }
{
    read_present(set, c, 0, || {
        read_compact::<u32>(s, c, u64::from(u32::MAX), Reason::RenewalCount)
    })
}

// Transfer, revoked, claimed and renewals.
#[tactic(auto, using(crate::proofs::Sets::read_steps), unfolding(crate::specs::Read::times_at))]
pub(crate) fn read_times(s: &[u8], c: Cursor, bits: u16) -> Read<Times>
    ensures { read_as times_said result ≡ times_at bits s.now c.position }
{
    let (transfer, after_transfer) = read_time(s, c, has(bits, field::TRANSFER))?;
    let (revoked, after_revoked) = read_time(s, after_transfer, has(bits, field::REVOKED))?;
    let (claimed, after_claimed) = read_time(s, after_revoked, has(bits, field::CLAIMED))?;
    let (renewals, end) = read_renewals(s, after_claimed, has(bits, field::RENEWALS))?;
    let times = Times {
        transfer: Height(transfer),
        revoked: Height(revoked),
        claimed: Height(claimed),
        renewals,
    };
    Ok((times, end))
}
