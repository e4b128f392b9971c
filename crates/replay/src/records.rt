// A file of records.
ghost use Rattle.std.specs.Prelude.{◌≡◌, ◌&&◌, ◌+◌, ◌-◌, ◌≤◌, leb, length, take, drop};
ghost use Rattle.words.specs.Words.{le};
ghost use Rattle.replay.specs.Answers.{entry_number, Numbered, takes, record_paper, answered_at, record_at, Inside};

use words::load::load_u64;

// The entries that were recorded, by their numbers.
#[derive(Clone, Copy)]
pub enum Entry {
    WholeCovenant = 1,
    CovenantWithin,
    State,
    Links,
    Name,
    Blind,
}

// A number that no entry has.
#[derive(Clone, Copy)]
pub struct UnknownEntry;

impl TryFrom<u8> for Entry {
    type Error = UnknownEntry;

    ghost try_from_gives = { Numbered };

    fn try_from(number: u8) -> Result<Self, UnknownEntry> {
        match number {
            1 => Ok(Entry::WholeCovenant),
            2 => Ok(Entry::CovenantWithin),
            3 => Ok(Entry::State),
            4 => Ok(Entry::Links),
            5 => Ok(Entry::Name),
            6 => Ok(Entry::Blind),
            _ => Err(UnknownEntry),
        }
    }
}

impl Entry {
    // Whether the entry takes an argument.
    #[tactic(auto, unfolding(crate::specs::Answers::takes))]
    fn takes(self, a: &[u8]) -> bool
        ensures { result ≡ takes (entry_number self) a.now }
    {
        match self {
            Entry::WholeCovenant | Entry::Name => true,
            Entry::CovenantWithin => 16 <= a.len(),
            Entry::State => 32 <= a.len(),
            Entry::Links => holds_sheet(a),
            Entry::Blind => a.len() == 40,
        }
    }
}

// The argument stands from `start` up to `end`, the answer from `end + 4` up to `next`, the place after the record.
#[derive(Clone, Copy)]
pub struct Record {
    pub entry: Entry,
    pub start: usize,
    pub end: usize,
    pub next: usize,
}

// The number of four bytes.
pub(crate) fn size_at(s: &[u8], at: usize) -> usize
    requires { at + 4 ≤ length s.now }
    ensures { result ≡ le (take 4 (drop at s.now)) }
{
    load_u64(&s[at..at + 4], 0) as usize
}

// Whether a sheet stands after its length.
fn holds_sheet(a: &[u8]) -> bool
    ensures { result ≡ (leb 4 (length a.now) && leb (le (take 4 a.now)) (length a.now - 4)) }
{
    4 <= a.len() && size_at(a, 0) <= a.len() - 4
}

// The record of an entry whose argument stands from `start` up to `end`.
#[tactic(auto, unfolding(crate::specs::Answers::answered_at))]
fn answered(s: &[u8], entry: Entry, start: usize, end: usize) -> Option<Record>
    requires { (start ≤ end) × (end + 4 ≤ length s.now) }
    ensures record { record_paper result ≡ answered_at s.now (entry_number entry) start end }
    ensures inside { Inside s.now start result }
{
    let m = size_at(s, end);
    if m <= s.len() - end - 4 && entry.takes(&s[start..end]) {
        Some(Record {
            entry,
            start,
            end,
            next: end + 4 + m,
        })
    } else {
        None
    }
}

// The record at a place.
#[tactic(auto, unfolding(crate::specs::Answers::record_at))]
pub(crate) fn find(s: &[u8], at: usize) -> Option<Record>
    requires { at ≤ length s.now }
    ensures record { record_paper result ≡ record_at s.now at }
    ensures inside { Inside s.now (at + 5) result }
{
    let left = s.len() - at;
    if left < 9 {
        return None;
    }
    let n = size_at(s, at + 1);
    if left - 9 < n {
        return None;
    }
    let entry = Entry::try_from(s[at]).ok()?;
    answered(s, entry, at + 5, at + 5 + n)
}
