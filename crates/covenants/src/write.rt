// Writing a covenant over a source of bytes: its items are entries, in a row, of two lists of starts and lengths.
ghost use Rattle.std.specs.Prelude.{◌≡◌, ◌+◌, ◌≤◌, length};
ghost use Rattle.words.specs.Buffers.{over};
ghost use Rattle.encoding.specs.Wire.{varbytes};
ghost use Rattle.encoding.specs.Joined.{joined};
ghost use Rattle.refusal.specs.Paper.{put_paper};
ghost use Rattle.covenants.specs.Covenant.{max_items, max_encoded_size, bytes_in, contents};
ghost use Rattle.covenants.specs.Workers.{There, held_paper};
ghost use Rattle.covenants.specs.Written.{parts, Held, size_from, size_answer, encode_answer, encode_content, entry_held, table_held, table_size, table_bytes, table_answer, table_content};

use crate::Covenant;
use crate::items::Directory;
use encoding::put::{compact_size_len, put_compact_size, put_le, put_varbytes};
use refusal::Refusal;
use words::store::has_room;

// A covenant's items in a table of the items of many, over a source of bytes: `count` entries, from `first` on.
#[derive(Clone, Copy)]
pub struct Table<'a> {
    pub source: &'a [u8],
    pub starts: &'a [usize],
    pub lens: &'a [usize],
    pub first: usize,
    pub count: usize,
}

// One item, its length and its bytes, where there is room. Returns where it ends. An empty one is its length alone: a
// copy of no bytes would be a call, and a covenant of 1,000 of them 45 % more instructions.
fn put_item(dest: &mut [u8], at: usize, source: &[u8], from: usize, n: usize) -> usize
    requires { (from + n ≤ length source.now) × (at + length (varbytes (bytes_in source.now (from, n))) ≤ length dest.old) }
    ensures { (result ≡ at + length (varbytes (bytes_in source.now (from, n)))) × (dest.new ≡ over at (varbytes (bytes_in source.now (from, n))) dest.old) }
{
    if n == 0 {
        let _ = put_compact_size(dest, at, 0);
        return at + 1;
    }
    let end = from + n;
    let _ = put_varbytes(dest, at, &source[from..end]);
    at + compact_size_len(n as u64) + n
}

impl<'a> Table<'a> {
    // Whether item i lies within the source; one without an entry does not.
    fn holds(self, i: usize) -> bool
        ensures { result ≡ entry_held (length self.entry.source.now) self.entry.starts.now self.entry.lens.now (self.entry.first + i) }
    {
        if self.starts.len() <= i || self.starts.len() - i <= self.first {
            return false;
        }
        let entry = self.first + i;
        entry < self.lens.len() && has_room(self.source.len(), self.starts[entry], self.lens[entry])
    }

    // The first item that does not lie within the source is refused.
    fn held(self) -> Result<(), Refusal>
        ensures { held_paper result ≡ table_held (length self.entry.source.now) self.entry.starts.now self.entry.lens.now self.entry.first 0 self.entry.count }
    {
        for i in 0..self.count {
            if !self.holds(i) {
                return Err(Refusal::BadItem { item: i });
            }
        }
        Ok(())
    }

    // The size of the covenant, whose items come after `before` bytes, or the first of them that is too much.
    fn size_after(self, before: usize) -> Result<usize, Refusal>
        requires { (before ≤ max_encoded_size) × There self.lens.now self.first self.count }
        ensures { put_paper result ≡ size_from before (parts self.entry.starts.now self.entry.lens.now self.entry.first self.entry.count) }
    {
        let mut used = before;
        for i in 0..self.count {
            let n = self.lens[self.first + i];
            if Covenant::MAX_ITEM_SIZE < n {
                return Err(Refusal::TooLarge {
                    actual: n,
                    maximum: Covenant::MAX_ITEM_SIZE,
                });
            }
            used = used + compact_size_len(n as u64) + n;
            if Covenant::MAX_ENCODED_SIZE < used {
                return Err(Refusal::TooLarge {
                    actual: used,
                    maximum: Covenant::MAX_ENCODED_SIZE,
                });
            }
        }
        Ok(used)
    }

    // How many bytes the covenant takes, or why it cannot be written.
    pub fn size(self) -> Result<usize, Refusal>
        ensures { put_paper result ≡ table_size self.entry.source.now self.entry.starts.now self.entry.lens.now self.entry.first self.entry.count }
    {
        if Covenant::MAX_ITEMS < self.count {
            return Err(Refusal::TooLarge {
                actual: self.count,
                maximum: Covenant::MAX_ITEMS,
            });
        }
        self.held()?;
        self.size_after(1 + compact_size_len(self.count as u64))
    }

    // The items, one after the other, from `place` on, where there is room.
    fn put_items(self, dest: &mut [u8], place: usize)
        requires there { There self.starts.now self.first self.count × There self.lens.now self.first self.count × Held (length self.source.now) (parts self.starts.now self.lens.now self.first self.count) }
        requires count_in_bounds { place + length (joined varbytes (contents self.source.now (parts self.starts.now self.lens.now self.first self.count))) ≤ length dest.old }
        ensures { dest.new ≡ over place (joined varbytes (contents self.entry.source.now (parts self.entry.starts.now self.entry.lens.now self.entry.first self.entry.count))) dest.old }
    {
        let mut at = place;
        for i in 0..self.count {
            let entry = self.first + i;
            at = put_item(dest, at, self.source, self.starts[entry], self.lens[entry]);
        }
    }

    // All of the covenant, from `at` on, where there is room: no write in it is refused.
    fn write_all(self, dest: &mut [u8], at: usize, kind: u8)
        requires there { There self.starts.now self.first self.count × There self.lens.now self.first self.count × Held (length self.source.now) (parts self.starts.now self.lens.now self.first self.count) }
        requires count_in_bounds { at + length (table_bytes kind self.source.now self.starts.now self.lens.now self.first self.count) ≤ length dest.old }
        ensures { dest.new ≡ over at (table_bytes kind self.entry.source.now self.entry.starts.now self.entry.lens.now self.entry.first self.entry.count) dest.old }
    {
        let _ = put_le::<u8>(dest, at, kind);
        let _ = put_compact_size(dest, at + 1, self.count as u64);
        self.put_items(dest, at + 1 + compact_size_len(self.count as u64));
    }

    // The covenant in `dest` from `at` on: all of it, or nothing and the refusal.
    pub fn encode(self, dest: &mut [u8], at: usize, kind: u8) -> Result<usize, Refusal>
        ensures result_value { put_paper result ≡ table_answer at kind self.entry.source.now self.entry.starts.now self.entry.lens.now self.entry.first self.entry.count dest.old }
        ensures dest_after { dest.new ≡ table_content at kind self.entry.source.now self.entry.starts.now self.entry.lens.now self.entry.first self.entry.count dest.old }
    {
        let needed = self.size()?;
        if !has_room(dest.len(), at, needed) {
            return Err(Refusal::NoRoom { needed });
        }
        self.write_all(dest, at, kind);
        Ok(needed)
    }
}

impl<'a> Directory<'a> {
    // A directory is a table that begins at its first entry.
    fn table(self) -> Table<'a>
        ensures same { (result.source.now ≡ self.entry.source.now) × (result.starts.now ≡ self.entry.starts.now) × (result.lens.now ≡ self.entry.lens.now) × (result.first ≡ 0) × (result.count ≡ self.entry.count) }
        ensures whole { (length self.entry.starts.now ≡ max_items) × (length self.entry.lens.now ≡ max_items) }
    {
        let Directory {
            source,
            starts,
            lens,
            count,
        } = self;
        Table {
            source,
            starts,
            lens,
            first: 0,
            count,
        }
    }

    // How many bytes the covenant takes, or why it cannot be written.
    pub fn encoded_size(self) -> Result<usize, Refusal>
        ensures { put_paper result ≡ size_answer self.entry.source.now self.entry.starts.now self.entry.lens.now self.entry.count }
    {
        self.table().size()
    }

    // The covenant at the start of `dest`: all of it, or nothing and the refusal.
    pub fn encode(self, dest: &mut [u8], kind: u8) -> Result<usize, Refusal>
        ensures result_value { put_paper result ≡ encode_answer kind self.entry.source.now self.entry.starts.now self.entry.lens.now self.entry.count dest.old }
        ensures dest_after { dest.new ≡ encode_content kind self.entry.source.now self.entry.starts.now self.entry.lens.now self.entry.count dest.old }
    {
        self.table().encode(dest, 0, kind)
    }
}
