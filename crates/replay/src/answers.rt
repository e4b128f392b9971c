// What the entries answer, as the bytes of a record.
ghost use Rattle.std.specs.Prelude.{◌≡◌, true, [], ◌∷◌, ◌++◌, ◌+◌, ◌≤◌, length, take, drop};
ghost use Rattle.words.specs.Words.{le};
ghost use Rattle.words.specs.Sameness.{same};
ghost use Rattle.refusal.specs.Paper.{number_of, carried};
ghost use Rattle.primitives.specs.Outpoints.{outpoint_bytes};
ghost use Rattle.covenants.specs.Covenant.{skimmed, covenant_at, whole_covenant};
ghost use Rattle.covenants.specs.Paper.{covenant_paper};
ghost use Rattle.names.specs.Name.{name_hash};
ghost use Rattle.names.specs.Blind.{blind_of};
ghost use Rattle.links.specs.Verify.{verify_of};
ghost use Rattle.links.specs.Paper.{verified_paper};
ghost use Rattle.replay.specs.Answers.{entry_number, takes, numbers, accepted, refused, covenant_numbers, links_answer, name_answer, answer_of};

use crate::records::{Entry, size_at};
use crate::states::is_state;
use covenants::{Accepted, Covenant};
use encoding::read::{Cursor, Read};
use links::{CovenantLinkSummary, LinkStop, verify_covenant_links};
use names::{blind_bid, hash_name};
use primitives::{Dollarydoos, Outpoint};
use refusal::{Refusal, carried_by, number};
use words::load::load_u64;
use words::same::same_bytes;
use words::store::{put_bytes, words_bytes};

// Two runs of bytes, one after the other.
pub(crate) fn join<const N: usize>(first: &[u8], second: &[u8]) -> [u8; N]
    requires { length first.now + length second.now ≡ N }
    ensures { result ≡ first.now ++ second.now }
{
    let mut both = [0u8; N];
    put_bytes(&mut both, 0, first);
    put_bytes(&mut both, first.len(), second);
    both
}

// No refusal, and four numbers more.
pub(crate) fn accepted(a: usize, b: usize, c: usize, d: usize) -> [u8; 64]
    ensures { result ≡ numbers (accepted (a ∷ b ∷ c ∷ d ∷ [])) }
{
    let others = words_bytes(a as u64, b as u64, c as u64, d as u64);
    join(&words_bytes(0, 0, 0, 0), &others)
}

// A refusal, one number more, and zeros.
pub(crate) fn refused(refusal: Refusal, last: usize) -> [u8; 64]
    ensures { result ≡ numbers (refused (number_of refusal) (carried refusal) (last ∷ 0 ∷ 0 ∷ 0 ∷ [])) }
{
    let carried = carried_by(refusal);
    let first = words_bytes(
        number(refusal) as u64,
        carried.first as u64,
        carried.second as u64,
        carried.third as u64,
    );
    join(&first, &words_bytes(last as u64, 0, 0, 0))
}

fn covenant_numbers(read: Read<Accepted>) -> [u8; 64]
    ensures { result ≡ numbers (covenant_numbers (covenant_paper read)) }
{
    match read {
        Ok((covenant, end)) => accepted(
            end.position,
            covenant.kind as usize,
            covenant.count,
            covenant.used,
        ),
        Err(stop) => refused(stop.refusal, stop.position),
    }
}

fn whole_covenant(a: &[u8]) -> [u8; 64]
    ensures { result ≡ numbers (covenant_numbers (skimmed (whole_covenant a.now))) }
{
    match Covenant::decode(a) {
        Ok((decoded, end)) => accepted(
            end.position,
            decoded.covenant.kind as usize,
            decoded.covenant.count,
            decoded.used,
        ),
        Err(stop) => refused(stop.refusal, stop.position),
    }
}

fn covenant_within(a: &[u8]) -> [u8; 64]
    requires { 16 ≤ length a.now }
    ensures { result ≡ numbers (covenant_numbers (skimmed (covenant_at (le (take 8 a.now)) (drop 16 a.now) (le (take 8 (drop 8 a.now)))))) }
{
    let limit = load_u64(a, 0) as usize;
    let position = load_u64(a, 8) as usize;
    covenant_numbers(Covenant::read(Cursor { position }, &a[16..], limit))
}

// Both outpoints after other bytes.
fn with_outpoints(first: [u8; 64], expected: Outpoint, actual: Outpoint) -> [u8; 136]
    ensures { result ≡ first ++ (outpoint_bytes expected ++ outpoint_bytes actual) }
{
    let both: [u8; 72] = join(&expected.encode(), &actual.encode());
    join(&first, &both)
}

#[tactic(auto, unfolding(crate::specs::Answers::links_answer))]
fn verified_answer(verified: Result<CovenantLinkSummary, LinkStop>) -> [u8; 136]
    ensures { result ≡ links_answer (verified_paper verified) }
{
    match verified {
        Ok(s) => {
            let first = accepted(0, s.inputs_checked, s.linked_outputs, s.name_inputs);
            with_outpoints(first, Outpoint::NONE, Outpoint::NONE)
        }
        Err(stop) => {
            let first = refused(stop.refusal, stop.side as usize);
            with_outpoints(first, stop.expected, stop.actual)
        }
    }
}

fn sheets(a: &[u8]) -> [u8; 136]
    requires { (4 ≤ length a.now) × (4 + le (take 4 a.now) ≤ length a.now) }
    ensures { result ≡ links_answer (verify_of (take (le (take 4 a.now)) (drop 4 a.now)) (drop (4 + le (take 4 a.now)) a.now)) }
{
    let end = 4 + size_at(a, 0);
    verified_answer(verify_covenant_links(&a[4..end], &a[end..]))
}

fn name(a: &[u8]) -> [u8; 40]
    ensures { result ≡ name_answer (name_hash a.now) }
{
    match hash_name(a) {
        Ok(hash) => join(&[0; 8], &hash.0),
        Err(refusal) => join(&u64::from(number(refusal)).to_le_bytes(), &[0; 32]),
    }
}

fn blind(a: &[u8]) -> [u8; 32]
    requires { length a.now ≡ 40 }
    ensures { result ≡ blind_of (le (take 8 a.now)) (drop 8 a.now) }
{
    let (value, nonce) = a.split_last_chunk::<32>().unwrap();
    blind_bid(Dollarydoos(load_u64(value, 0)), nonce)
}

// Whether an answer is ours.
#[tactic(auto, unfolding(crate::specs::Answers::takes, crate::specs::Answers::answer_of))]
pub(crate) fn is_ours(entry: Entry, a: &[u8], answer: &[u8]) -> bool
    requires { takes (entry_number entry) a.now ≡ true }
    ensures { result ≡ same (answer_of (entry_number entry) a.now) answer.now }
{
    match entry {
        Entry::WholeCovenant => same_bytes(&whole_covenant(a), answer),
        Entry::CovenantWithin => same_bytes(&covenant_within(a), answer),
        Entry::State => is_state(a, answer),
        Entry::Links => same_bytes(&sheets(a), answer),
        Entry::Name => same_bytes(&name(a), answer),
        Entry::Blind => same_bytes(&blind(a), answer),
    }
}
