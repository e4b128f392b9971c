// Covenants of hns-covenants: a kind byte, a compact count, and items, each a compact length and its bytes.
#![tactic(auto)]

pub mod decode;
pub mod items;
pub mod kind;
mod short;
pub mod write;

ghost use Rattle.std.specs.Prelude.{◌≡◌, ◌-◌, ◌≤◌, min};
ghost use Rattle.refusal.specs.Outcome.{past, many_at};
ghost use Rattle.refusal.specs.Paper.{standing};
ghost use Rattle.refusal.specs.declared.Refusal.{Refusal};
ghost use Rattle.encoding.specs.Paper.{span_paper, moved_paper};
ghost use Rattle.covenants.specs.Covenant.{max_encoded_size, allowed, item_at, head_at, opening, covenant_at, skimmed};
ghost use Rattle.covenants.specs.Paper.{covenant_paper, head_paper};
ghost use Rattle.covenants.specs.Workers.{left_paper};

use crate::short::Reached;
use encoding::read::{Cursor, Read, Span, cut};
use refusal::{Refusal, Stop};

// A covenant as a flat directory over lent bytes: where each of at most 1,000 items starts and how long it is, and
// zeros after them.
#[derive(Clone, Copy)]
pub struct Covenant {
    pub kind: u8,
    pub count: usize,
    pub starts: [usize; 1000],
    pub lens: [usize; 1000],
}

impl Covenant {
    pub const MAX_ITEMS: usize = 1000;

    pub const MAX_ITEM_SIZE: usize = 1_000_000;

    pub const MAX_ENCODED_SIZE: usize = 1_000_009;

    // A covenant accepted or refused under an allowance, without its directory.
    pub fn read(c: Cursor, s: &[u8], limit: usize) -> Read<Accepted>
        ensures { covenant_paper result ≡ skimmed (covenant_at limit s.now c.position) }
    {
        let reader = Reader::new(c, limit);
        let (head, first) = reader.open(s)?;
        // `&s[..]` hands on the pointer and the length, so that the loop does not wait for a store: with `s` four items
        // take 1.8 times as long to accept (bench/README.md).
        let end = reader.pass_items(first, &s[..], head.count)?;
        Ok((reader.accepted(head, end), end))
    }
}

// A covenant that was read without its directory: `used` is the bytes used up from the allowance.
#[derive(Clone, Copy, PartialEq, Eq)]
pub struct Accepted {
    pub kind: u8,
    pub count: usize,
    pub used: usize,
}

// What stands before a covenant's items: its kind, and how many there are.
#[derive(Clone, Copy)]
pub(crate) struct Head {
    pub kind: u8,
    pub count: usize,
}

// 5: more bytes than are allowed, be it those consumed, those that a length asks for, those of the whole input, or the
// two of the least covenant.
pub(crate) fn too_large(actual: usize, maximum: usize, position: usize) -> Stop
    ensures { (result.refusal ≡ Refusal.TooLarge actual maximum) × (standing result ≡ position) }
{
    Stop {
        refusal: Refusal::TooLarge { actual, maximum },
        position,
    }
}

// The reading of one covenant: where it begins, and how many bytes it may take.
#[derive(Clone, Copy)]
pub(crate) struct Reader {
    pub start: usize,
    pub allowance: usize,
}

impl Reader {
    // An allowance is at most what a covenant can take.
    pub(crate) fn new(start: Cursor, limit: usize) -> Reader
        ensures { (result.start ≡ start.position) × (result.allowance ≡ min limit max_encoded_size) }
    {
        Reader {
            start: start.position,
            allowance: limit.min(Covenant::MAX_ENCODED_SIZE),
        }
    }

    // What is left of the allowance at a cursor.
    fn left(self, c: Cursor) -> Result<usize, Stop>
        requires { self.start ≤ c.position }
        ensures { left_paper c.position result ≡ allowed self.allowance self.start c.position }
    {
        let used = c.position - self.start;
        if self.allowance < used {
            return Err(too_large(used, self.allowance, c.position));
        }
        Ok(self.allowance - used)
    }

    // The kind and the count.
    pub(crate) fn head(self, s: &[u8]) -> Read<Head>
        ensures { head_paper result ≡ head_at self.allowance s.now self.start }
    {
        let start = Cursor {
            position: self.start,
        };
        let (kind, after_kind) = start.read_le::<u8>(s)?;
        let (count, next) = after_kind.read_compact_usize(s, Covenant::MAX_ITEMS)?;
        self.left(next)?;
        Ok((Head { kind, count }, next))
    }

    // The tests before the covenant's first byte, and then its head.
    pub(crate) fn open(self, s: &[u8]) -> Read<Head>
        ensures { head_paper result ≡ opening self.allowance s.now self.start (head_at self.allowance s.now self.start) }
    {
        let at = self.start;
        if s.len() < at {
            return Err(cut(at, at - s.len()));
        }
        if self.allowance < 2 {
            return Err(too_large(2, self.allowance, at));
        }
        self.head(s)
    }

    // One item.
    pub(crate) fn item(self, c: Cursor, s: &[u8]) -> Read<Span>
        requires { self.start ≤ c.position }
        ensures { span_paper result ≡ item_at self.allowance self.start s.now c.position }
    {
        let (size, next) = c.read_compact_usize(s, Covenant::MAX_ITEM_SIZE)?;
        let left = self.left(next)?;
        if left < size {
            let used = next.position - self.start;
            return Err(too_large(used + size, self.allowance, next.position));
        }
        next.read_slice(s, size)
    }

    // So many items are passed.
    pub(crate) fn pass_items(self, from: Cursor, s: &[u8], count: usize) -> Result<Cursor, Stop>
        requires { self.start ≤ from.position }
        ensures { moved_paper result ≡ past (many_at (item_at self.allowance self.start s.now) count from.position) }
    {
        let mut reached = Reached {
            passed: 0,
            next: from,
        };
        loop {
            let short = self.short_items(s, count, reached);
            if short.passed == count {
                return Ok(short.next);
            }
            let (_, next) = self.item(short.next, s)?;
            reached = Reached {
                passed: short.passed + 1,
                next,
            };
        }
    }

    // The covenant, once all its items were passed.
    pub(crate) fn accepted(self, head: Head, end: Cursor) -> Accepted
        requires { self.start ≤ end.position }
        ensures { (result.kind ≡ head.kind) × (result.count ≡ head.count) × (result.used ≡ end.position - self.start) }
    {
        Accepted {
            kind: head.kind,
            count: head.count,
            used: end.position - self.start,
        }
    }
}
