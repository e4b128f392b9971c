// Writing into lent bytes from an offset on: all of it, or nothing and the refusal.
ghost use Rattle.std.specs.Prelude.{◌≡◌, List, [], ◌∷◌, ℕ, ◌+◌, ◌≤◌, length};
ghost use Rattle.words.specs.Words.{bytes};
ghost use Rattle.words.specs.Buffers.{pick, over, laid};
ghost use Rattle.refusal.specs.Outcome.{wrote, refused};
ghost use Rattle.refusal.specs.Paper.{put_paper};
ghost use Rattle.encoding.specs.Wire.{compact, compact_size, varbytes, put_answer};

use crate::integer::Integer;
use refusal::Refusal;
use words::store::has_room;

// The answer to a write of n bytes that was done, or for which there was no room.
fn answered(done: bool, n: usize) -> Result<usize, Refusal>
    ensures { put_paper result ≡ pick done (wrote n) (refused 29 (n ∷ [])) }
{
    if done {
        Ok(n)
    } else {
        Err(Refusal::NoRoom { needed: n })
    }
}

// A number of its type's width: the Rust's `put_u8`, `put_u16_le`, `put_u32_le` and `put_u64_le`.
pub fn put_le<T: Integer>(d: &mut [u8], at: usize, value: T) -> Result<usize, Refusal>
    ensures result_value { put_paper result ≡ put_answer at (bytes T.WIDTH (T.number value)) d.old }
    ensures d_after { d.new ≡ laid at (bytes T.WIDTH (T.number value)) d.old }
{
    answered(
        words::store::put_le(d, at, T::WIDTH, value.into_u64()),
        T::WIDTH,
    )
}

pub fn put_bytes(d: &mut [u8], at: usize, value: &[u8]) -> Result<usize, Refusal>
    ensures { (put_paper result ≡ put_answer at value.now d.old) × (d.new ≡ laid at value.now d.old) }
{
    answered(words::store::put_bytes(d, at, value), value.len())
}

// How many bytes a compact size takes. By returns: of one choice among the four the compiler makes a row of moves, all
// of which are made, and most sizes are of one byte.
#[tactic(auto, unfolding(crate::specs::Wire::compact_size))]
pub fn compact_size_len(value: u64) -> usize
    ensures { result ≡ compact_size value }
{
    if value < 253 {
        return 1;
    }
    if value < 65536 {
        return 3;
    }
    if value < 4294967296 {
        return 5;
    }
    9
}

// A tag and the n lowest bytes of v.
fn put_tagged(d: &mut [u8], at: usize, tag: u8, n: usize, v: u64)
    requires { at + (n + 1) ≤ length d.old }
    ensures { d.new ≡ over at (tag ∷ bytes n v) d.old }
{
    d[at] = tag;
    words::store::put_le(d, at + 1, n, v);
}

// A compact size in its shortest form, where there is room.
fn put_compact(d: &mut [u8], at: usize, value: u64)
    requires { at + compact_size value ≤ length d.old }
    ensures { d.new ≡ over at (compact value) d.old }
{
    if value < 253 {
        words::store::put_le(d, at, 1, value);
    } else if value < 65536 {
        put_tagged(d, at, 253, 2, value);
    } else if value < 4294967296 {
        put_tagged(d, at, 254, 4, value);
    } else {
        put_tagged(d, at, 255, 8, value);
    }
}

pub fn put_compact_size(d: &mut [u8], at: usize, value: u64) -> Result<usize, Refusal>
    ensures { (put_paper result ≡ put_answer at (compact value) d.old) × (d.new ≡ laid at (compact value) d.old) }
{
    let n = compact_size_len(value);
    if has_room(d.len(), at, n) {
        put_compact(d, at, value);
        return Ok(n);
    }
    Err(Refusal::NoRoom { needed: n })
}

// Bytes after their length.
pub fn put_varbytes(d: &mut [u8], at: usize, value: &[u8]) -> Result<usize, Refusal>
    ensures { (put_paper result ≡ put_answer at (varbytes value.now) d.old) × (d.new ≡ laid at (varbytes value.now) d.old) }
{
    let prefix = compact_size_len(value.len() as u64);
    let n = prefix + value.len();
    if has_room(d.len(), at, n) {
        put_compact(d, at, value.len() as u64);
        words::store::put_bytes(d, at + prefix, value);
        return Ok(n);
    }
    Err(Refusal::NoRoom { needed: n })
}
