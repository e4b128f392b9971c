// Bytes into lent memory: all of them, or none where there is no room.
ghost use Rattle.std.specs.Prelude.{◌≡◌, ◌++◌, ◌+◌, ◌≤◌, leb, length};
ghost use Rattle.words.specs.Words.{bytes};
ghost use Rattle.words.specs.Buffers.{over, fits, laid};

// Whether n bytes from `at` on lie within `length` bytes; their end may pass 2^64 - 1.
pub fn has_room(length: usize, at: usize, n: usize) -> bool
    ensures { result ≡ leb (at + n) length }
{
    at <= length && n <= length - at
}

// As many of the lowest bytes of v as d has.
fn fill_le(d: &mut [u8], v: u64)
    ensures { d.new ≡ bytes (length d.old) v }
{
    let mut rest = v;
    for byte in d.iter_mut() {
        *byte = (rest % 256) as u8;
        rest /= 256;
    }
}

// The n lowest bytes of v from `at` on; false, and nothing touched, where there is no room.
pub fn put_le(d: &mut [u8], at: usize, n: usize, v: u64) -> bool
    ensures { (result ≡ fits at (bytes n v) d.old) × (d.new ≡ laid at (bytes n v) d.old) }
{
    let room = has_room(d.len(), at, n);
    if room {
        fill_le(&mut d[at..at + n], v);
    }
    room
}

// All of s, where there is room. It is a loop, for the library's copy of one lent slice into another asks C for
// `memmove`, and the archive of the C entries asks for `memcpy` and `memset` alone.
fn store_bytes(d: &mut [u8], at: usize, s: &[u8])
    requires { at + length s.now ≤ length d.old }
    ensures { d.new ≡ over at s.now d.old }
{
    for (i, byte) in s.iter().enumerate() {
        d[at + i] = *byte;
    }
}

// All of s from `at` on; false, and nothing touched, where there is no room.
pub fn put_bytes(d: &mut [u8], at: usize, s: &[u8]) -> bool
    ensures { (result ≡ fits at s.now d.old) × (d.new ≡ laid at s.now d.old) }
{
    let room = has_room(d.len(), at, s.len());
    if room {
        store_bytes(d, at, s);
    }
    room
}

// Four words as their 32 bytes.
pub fn words_bytes(a: u64, b: u64, c: u64, d: u64) -> [u8; 32]
    ensures { result ≡ bytes 8 a ++ bytes 8 b ++ bytes 8 c ++ bytes 8 d }
{
    let mut out = [0u8; 32];
    out[..8].copy_from_slice(&a.to_le_bytes());
    out[8..16].copy_from_slice(&b.to_le_bytes());
    out[16..24].copy_from_slice(&c.to_le_bytes());
    out[24..].copy_from_slice(&d.to_le_bytes());
    out
}
