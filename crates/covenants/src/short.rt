// Short items: those whose length is one byte. A fast path, for most items are short: its loops make no `Read` for an
// item. They ask only whether it is short and ends in time, and where the next one stands; the first other item is
// left, with its refusals, to `item`.
ghost use Rattle.std.specs.Prelude.{◌≡◌, ℕ, ◌+◌, ◌-◌, ◌≤◌, min, length, IfSome};
ghost use Rattle.refusal.specs.Outcome.{past, many_at};
ghost use Rattle.covenants.specs.Covenant.{max_items, item_at};
ghost use Rattle.covenants.specs.Workers.{Filling, ShortAt};

use crate::Reader;
use encoding::read::Cursor;

// How far items were passed: how many of them, and where the next one stands.
#[derive(Clone, Copy)]
pub(crate) struct Reached {
    pub passed: usize,
    pub next: Cursor,
}

// Where the item at `at` ends, if it is short and ends by `end`. An empty one is told apart, so that the next place
// does not wait for its length: without that a covenant of 1,000 empty items takes 3.8 times as long to accept
// (bench/README.md).
fn short_item(s: &[u8], end: usize, at: usize) -> Option<usize>
    requires { end ≤ length s.now }
    ensures { IfSome result (λ next. ShortAt s.now end at next) }
{
    if end <= at {
        return None;
    }
    let size = s[at];
    if size == 0 {
        return Some(at + 1);
    }
    if 252 < size {
        return None;
    }
    let next = at + 1 + size as usize;
    if next <= end { Some(next) } else { None }
}

impl Reader {
    // No item ends later: here the bytes end, or the allowance does.
    fn latest(self, length: usize) -> usize
        ensures { result ≡ min length (self.start + self.allowance) }
    {
        if length <= self.start || length - self.start <= self.allowance {
            length
        } else {
            self.start + self.allowance
        }
    }

    // Short items are passed, up to the first that is not short or does not fit. What is left to pass comes to the
    // same. Without it four items take a third more instructions to accept, and links 12 % more (bench/README.md). With
    // `for` in place of `while` 1,000 empty items take a third more time.
    pub(crate) fn short_items(self, s: &[u8], count: usize, from: Reached) -> Reached
        requires { (self.start ≤ from.next.position) × (from.passed ≤ count) }
        ensures start_le_at { (self.start ≤ result.next.position) × (from.passed ≤ result.passed) × (result.passed ≤ count) }
        ensures at_value { past (many_at (item_at self.allowance self.start s.now) (count - result.passed) result.next.position) ≡ past (many_at (item_at self.allowance self.start s.now) (count - from.passed) from.next.position) }
    {
        let end = self.latest(s.len());
        let mut passed = from.passed;
        let mut at = from.next.position;
        while passed < count {
            let Some(next) = short_item(s, end, at) else {
                break;
            };
            at = next;
            passed += 1;
        }
        let next = Cursor { position: at };
        Reached { passed, next }
    }

    // The same, each item into its place of a directory that is being filled. It is for directories of many items:
    // without it 1,000 empty ones take 2.8 times as long (bench/README.md).
    pub(crate) fn short_entries(
        self,
        s: &[u8],
        count: usize,
        from: Reached,
        starts: &mut [usize; 1000],
        lens: &mut [usize; 1000],
    ) -> Reached
        requires { (self.start ≤ from.next.position) × (from.passed ≤ count) × (count ≤ max_items) }
        ensures start_le_at { (self.start ≤ result.next.position) × (from.passed ≤ result.passed) × (result.passed ≤ count) }
        ensures by_index { (first : ℕ) → Filling (item_at self.allowance self.start s.now) self.start count first starts.old lens.old from.next.position from.passed → Filling (item_at self.allowance self.start s.now) self.start count first starts.new lens.new result.next.position result.passed }
    {
        let end = self.latest(s.len());
        let mut passed = from.passed;
        let mut at = from.next.position;
        while passed < count {
            let Some(next) = short_item(s, end, at) else {
                break;
            };
            starts[passed] = at + 1;
            lens[passed] = next - (at + 1);
            at = next;
            passed += 1;
        }
        let next = Cursor { position: at };
        Reached { passed, next }
    }
}
