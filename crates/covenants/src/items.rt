// Single items: where one stands, from a directory or straight from the bytes, and what it says at a fixed width.
ghost use Rattle.std.specs.Prelude.{◌≡◌, Some, IfSome};
ghost use Rattle.covenants.specs.Items.{directory_item, seek_at, of_width, number_in};
ghost use Rattle.covenants.specs.Paper.{spot_paper, number_paper, name_hash_paper};

use crate::{Covenant, Reader};
use encoding::integer::Integer;
use encoding::read::{Cursor, Span};
use primitives::NameHash;
use words::store::has_room;

// An item as a number: only where it is as wide as one and lies within the bytes.
pub fn as_number<T: Integer>(item: Option<Span>, s: &[u8]) -> Option<T>
    ensures { number_paper T.number result ≡ number_in T.WIDTH s.now (spot_paper item) }
{
    let part = item?;
    if part.len != T::WIDTH {
        return None;
    }
    let place = Cursor {
        position: part.start,
    };
    let (value, _) = place.read_le::<T>(s).ok()?;
    Some(value)
}

// The same as a name hash.
pub fn as_name_hash(item: Option<Span>, s: &[u8]) -> Option<NameHash>
    ensures { name_hash_paper result ≡ of_width 32 s.now (spot_paper item) }
{
    let part = item?;
    if part.len != 32 {
        return None;
    }
    let place = Cursor {
        position: part.start,
    };
    let (hash, _) = place.read_array::<32>(s).ok()?;
    Some(NameHash(hash))
}

// A covenant's directory over a source of bytes: where each of its items starts, and how long it is.
#[derive(Clone, Copy)]
pub struct Directory<'a> {
    pub source: &'a [u8],
    pub starts: &'a [usize; 1000],
    pub lens: &'a [usize; 1000],
    pub count: usize,
}

impl<'a> Directory<'a> {
    // Where an item stands in the source.
    pub fn item(self, index: usize) -> Option<Span>
        ensures { spot_paper result ≡ directory_item self.entry.source.now self.entry.starts.now self.entry.lens.now self.entry.count index }
    {
        if self.count <= index || Covenant::MAX_ITEMS <= index {
            return None;
        }
        let (start, len) = (self.starts[index], self.lens[index]);
        if has_room(self.source.len(), start, len) {
            return Some(Span { start, len });
        }
        None
    }

    pub fn item_number<T: Integer>(self, index: usize) -> Option<T>
        ensures { number_paper T.number result ≡ number_in T.WIDTH self.entry.source.now (directory_item self.entry.source.now self.entry.starts.now self.entry.lens.now self.entry.count index) }
    {
        as_number::<T>(self.item(index), self.source)
    }

    pub fn item_name_hash(self, index: usize) -> Option<NameHash>
        ensures { name_hash_paper result ≡ of_width 32 self.entry.source.now (directory_item self.entry.source.now self.entry.starts.now self.entry.lens.now self.entry.count index) }
    {
        as_name_hash(self.item(index), self.source)
    }
}

// The item of the covenant that stands at c, found by a scan without a directory.
pub fn find(c: Cursor, s: &[u8], index: usize) -> Option<Span>
    ensures { spot_paper result ≡ seek_at s.now c.position index }
{
    let reader = Reader::new(c, Covenant::MAX_ENCODED_SIZE);
    let (head, first) = reader.head(s).ok()?;
    if head.count <= index {
        return None;
    }
    let next = reader.pass_items(first, s, index).ok()?;
    let (item, _) = reader.item(next, s).ok()?;
    Some(item)
}

// Items 0 and 1 of the covenant at `at`, where its count and their lengths are one byte each and both are there.
// The fast path of `find_two`: it spares both scans where links asks for the name and the start of a covenant. Without
// it links take 16 % longer (bench/README.md).
fn two_short(s: &[u8], at: usize) -> Option<(Span, Span)>
    ensures { IfSome result (λ two. (spot_paper (Some two.0) ≡ seek_at s.now at 0) × (spot_paper (Some two.1) ≡ seek_at s.now at 1)) }
{
    let length = s.len();
    if length < 3 || length - 3 < at {
        return None;
    }
    let count = s[at + 1];
    let first = s[at + 2];
    if count < 2 || 252 < count || 252 < first {
        return None;
    }
    let first = Span {
        start: at + 3,
        len: usize::from(first),
    };
    let next = first.start + first.len;
    if length <= next || 252 < s[next] {
        return None;
    }
    let second = Span {
        start: next + 1,
        len: usize::from(s[next]),
    };
    if second.len < length - next {
        Some((first, second))
    } else {
        None
    }
}

// Items 0 and 1 of the covenant that stands at c. Mostly `two_short` finds them, and no scan is needed.
pub fn find_two(c: Cursor, s: &[u8]) -> (Option<Span>, Option<Span>)
    ensures { (spot_paper result.0 ≡ seek_at s.now c.position 0) × (spot_paper result.1 ≡ seek_at s.now c.position 1) }
{
    match two_short(s, c.position) {
        Some((first, second)) => (Some(first), Some(second)),
        None => (find(c, s, 0), find(c, s, 1)),
    }
}
