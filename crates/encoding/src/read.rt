// Reading: a cursor by value over lent bytes.
ghost use Rattle.std.specs.Prelude.{◌≡◌, ℕ, ◌+◌, ◌-◌, ◌≤◌, ◌<◌, length, take, drop, get_or};
ghost use Rattle.words.specs.Words.{le};
ghost use Rattle.refusal.specs.Outcome.{then};
ghost use Rattle.refusal.specs.Paper.{standing};
ghost use Rattle.refusal.specs.declared.Refusal.{Refusal};
ghost use Rattle.encoding.specs.Wire.{remaining_at, slice_at, bytes_at, fixed_at, canonical, compact_at, compact_most, bounded_at, varbytes_at, finish_at};
ghost use Rattle.encoding.specs.Paper.{read_as, read_paper, span_paper, moved_paper};

use crate::integer::Integer;
use refusal::{Refusal, Stop};

// A place in the lent bytes: the position of the Rust's `Decoder`, whose slice is a parameter here.
#[derive(Clone, Copy, PartialEq, Eq)]
pub struct Cursor {
    pub position: usize,
}

// A part of the lent bytes, by its start and length.
#[derive(Clone, Copy, PartialEq, Eq)]
pub struct Span {
    pub start: usize,
    pub len: usize,
}

// What a read comes to: what was read, and the cursor after it; or the refusal, and where the reader then stands.
pub type Read<T> = Result<(T, Cursor), Stop>;

// 1: so many bytes are missing to what begins at `at`.
pub fn cut(at: usize, needed: usize) -> Stop
    ensures { (result.refusal ≡ Refusal.UnexpectedEnd at needed) × (standing result ≡ at) }
{
    Stop {
        refusal: Refusal::UnexpectedEnd { offset: at, needed },
        position: at,
    }
}

// 2: a length above its maximum, or a slice whose end would pass 2^64 - 1.
fn too_long(actual: usize, maximum: usize, position: usize) -> Stop
    ensures { (result.refusal ≡ Refusal.LengthExceedsBound actual maximum) × (standing result ≡ position) }
{
    Stop {
        refusal: Refusal::LengthExceedsBound { actual, maximum },
        position,
    }
}

// 3: so many bytes are left.
fn trailing(remaining: usize, position: usize) -> Stop
    ensures { (result.refusal ≡ Refusal.TrailingBytes remaining) × (standing result ≡ position) }
{
    Stop {
        refusal: Refusal::TrailingBytes { remaining },
        position,
    }
}

// 4: a number in a longer form than it needs.
fn longer_form(width: u8, position: usize) -> Stop
    ensures { (result.refusal ≡ Refusal.InvalidValue width) × (standing result ≡ position) }
{
    Stop {
        refusal: Refusal::InvalidValue { width },
        position,
    }
}

// What every reader answers to a cursor beyond its slice.
fn beyond(at: usize, length: usize) -> Stop
    requires { length < at }
    ensures { (result.refusal ≡ Refusal.UnexpectedEnd at (at - length)) × (standing result ≡ at) }
{
    cut(at, at - length)
}

// The number that the n bytes from `at` on spell.
fn le_at(s: &[u8], at: usize, n: usize) -> u64
    requires { (n ≤ 8) × (at + n ≤ length s.now) }
    ensures { result ≡ le (take n (drop at s.now)) }
{
    let mut v: u64 = 0;
    for i in (0..n).rev() {
        v = v * 256 + u64::from(s[at + i]);
    }
    v
}

// A number in a longer form than it needs is refused.
fn shortest(read: Read<u64>, width: u8, least: u64) -> Read<u64>
    ensures { read_paper result ≡ then (read_paper read) (canonical width least) }
{
    let (v, next) = read?;
    if v < least {
        return Err(longer_form(width, next.position));
    }
    Ok((v, next))
}

impl Cursor {
    pub fn remaining(self, s: &[u8]) -> usize
        ensures { result ≡ remaining_at s.now self.position }
    {
        s.len().saturating_sub(self.position)
    }

    // The next `length` bytes.
    pub fn read_slice(self, s: &[u8], length: usize) -> Read<Span>
        ensures { span_paper result ≡ slice_at length s.now self.position }
    {
        let at = self.position;
        if s.len() < at {
            return Err(beyond(at, s.len()));
        }
        let left = s.len() - at;
        if length <= left {
            let part = Span {
                start: at,
                len: length,
            };
            return Ok((
                part,
                Cursor {
                    position: at + length,
                },
            ));
        }
        if length <= usize::MAX - at {
            return Err(cut(at, length - left));
        }
        Err(too_long(usize::MAX, left, at))
    }

    // The number that the next n bytes spell.
    fn fixed(self, s: &[u8], n: usize) -> Read<u64>
        requires { n ≤ 8 }
        ensures { read_paper result ≡ fixed_at n s.now self.position }
    {
        let (part, next) = self.read_slice(s, n)?;
        Ok((le_at(s, part.start, n), next))
    }

    // A number of its type's width: the Rust's `read_u8`, `read_u16_le`, `read_u32_le` and `read_u64_le`.
    pub fn read_le<T: Integer>(self, s: &[u8]) -> Read<T>
        ensures { read_as T.number result ≡ fixed_at T.WIDTH s.now self.position }
    {
        let (v, next) = self.fixed(s, T::WIDTH)?;
        Ok((T::from_u64(v), next))
    }

    // A compact size whose first byte is the tag of a longer form, or is not there.
    fn longer_compact(self, s: &[u8]) -> Read<u64>
        requires { self.position < length s.now → 252 < get_or s.now self.position 0 }
        ensures { read_paper result ≡ compact_at s.now self.position }
    {
        let (tag, next) = self.read_le::<u8>(s)?;
        match tag {
            253 => shortest(next.fixed(s, 2), 16, 253),
            254 => shortest(next.fixed(s, 4), 32, 65536),
            _ => shortest(next.fixed(s, 8), 64, 4294967296),
        }
    }

    // Most sizes are one byte: this way is short enough to be compiled into its callers. The rest, with the tag once
    // more, is a function of two calls: one of a single call would be compiled into this. Without the split four items
    // take 9 % longer to accept (bench/README.md).
    pub fn read_compact_size(self, s: &[u8]) -> Read<u64>
        ensures { read_paper result ≡ compact_at s.now self.position }
    {
        let at = self.position;
        if s.len() <= at {
            return self.longer_compact(s);
        }
        let tag = s[at];
        if 252 < tag {
            return self.longer_compact(s);
        }
        let position = at + 1;
        Ok((u64::from(tag), Cursor { position }))
    }

    // A compact size of at most `maximum`.
    pub fn read_compact_usize(self, s: &[u8], maximum: usize) -> Read<usize>
        ensures { read_paper result ≡ compact_most maximum s.now self.position }
    {
        let (v, next) = self.read_compact_size(s)?;
        let value = v as usize;
        if maximum < value {
            return Err(too_long(value, maximum, next.position));
        }
        Ok((value, next))
    }

    // The next `length` bytes, of which there may be at most `maximum`: the Rust's `read_bounded_vec`.
    pub fn read_bounded(self, s: &[u8], length: usize, maximum: usize) -> Read<Span>
        ensures { span_paper result ≡ bounded_at length maximum s.now self.position }
    {
        let at = self.position;
        if s.len() < at {
            return Err(beyond(at, s.len()));
        }
        if maximum < length {
            return Err(too_long(length, maximum, at));
        }
        self.read_slice(s, length)
    }

    // A compact size of at most `maximum`, and as many bytes.
    pub fn read_varbytes(self, s: &[u8], maximum: usize) -> Read<Span>
        ensures { span_paper result ≡ varbytes_at maximum s.now self.position }
    {
        let (n, next) = self.read_compact_usize(s, maximum)?;
        next.read_bounded(s, n, maximum)
    }

    // The next N bytes themselves.
    pub fn read_array<const N: usize>(self, s: &[u8]) -> Read<[u8; N]>
        ensures { read_paper result ≡ bytes_at N s.now self.position }
    {
        let (part, next) = self.read_slice(s, N)?;
        let mut bytes = [0u8; N];
        bytes.copy_from_slice(&s[part.start..part.start + N]);
        Ok((bytes, next))
    }

    // Nothing is left.
    pub fn finish(self, s: &[u8]) -> Result<Cursor, Stop>
        ensures { moved_paper result ≡ finish_at s.now self.position }
    {
        let at = self.position;
        if s.len() < at {
            return Err(beyond(at, s.len()));
        }
        if at < s.len() {
            return Err(trailing(s.len() - at, at));
        }
        Ok(self)
    }
}
