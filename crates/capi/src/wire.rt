// The wire encoding: reads from a position of lent bytes, writes into lent bytes from an offset on, and outpoints.
ghost use Rattle.std.specs.Prelude.{◌≡◌, ℕ};
ghost use Rattle.words.specs.Words.{bytes};
ghost use Rattle.words.specs.Buffers.{laid};
ghost use Rattle.encoding.specs.Wire.{remaining_at, slice_at, bytes_at, fixed_at, compact_at, compact_most, bounded_at, varbytes_at, finish_at, compact, compact_size, varbytes, put_answer};
ghost use Rattle.encoding.specs.Paper.{read_as, read_paper, span_paper, moved_paper, shown_bytes};
ghost use Rattle.refusal.specs.Outcome.{past};
ghost use Rattle.primitives.specs.Outpoints.{same_outpoint, is_null, outpoint_bytes, outpoint_at, shown_outpoint};
ghost use Rattle.capi.specs.Flat.{moved_flat, write_flat};
ghost use Rattle.capi.specs.Reading.{number_flat, span_flat, outpoint_flat, bytes_or};

use crate::{FlatStop, WriteAnswer};
use encoding::integer::Integer;
use encoding::put::{compact_size_len, put_bytes, put_compact_size, put_le, put_varbytes};
use encoding::read::{Cursor, Read, Span};
use primitives::Outpoint;
use refusal::Stop;

// A number that was read, or the refusal.
#[repr(C)]
#[derive(Clone, Copy)]
pub struct NumberAnswer {
    pub stop: FlatStop,
    pub value: u64,
}

// Where the bytes that were read stand, or the refusal.
#[repr(C)]
#[derive(Clone, Copy)]
pub struct SpanAnswer {
    pub stop: FlatStop,
    pub start: usize,
    pub length: usize,
}

// An outpoint that was read, or the refusal.
#[repr(C)]
#[derive(Clone, Copy)]
pub struct OutpointAnswer {
    pub stop: FlatStop,
    pub outpoint: Outpoint,
}

impl<T: Integer> From<Read<T>> for NumberAnswer {
    ghost from_gives = { λ read flat. flat ≡ number_flat (read_as T.number read) };

    fn from(read: Read<T>) -> NumberAnswer {
        match read {
            Ok((value, next)) => NumberAnswer {
                stop: FlatStop::from(next),
                value: value.into_u64(),
            },
            Err(stop) => NumberAnswer {
                stop: FlatStop::from(stop),
                value: 0,
            },
        }
    }
}

impl From<Read<Span>> for SpanAnswer {
    ghost from_gives = { λ read flat. flat ≡ span_flat (span_paper read) };

    fn from(read: Read<Span>) -> SpanAnswer {
        match read {
            Ok((part, next)) => SpanAnswer {
                stop: FlatStop::from(next),
                start: part.start,
                length: part.len,
            },
            Err(stop) => SpanAnswer {
                stop: FlatStop::from(stop),
                start: 0,
                length: 0,
            },
        }
    }
}

impl From<Read<Outpoint>> for OutpointAnswer {
    ghost from_gives = { λ read flat. flat ≡ outpoint_flat (shown_outpoint (read_paper read)) };

    fn from(read: Read<Outpoint>) -> OutpointAnswer {
        match read {
            Ok((outpoint, next)) => OutpointAnswer {
                stop: FlatStop::from(next),
                outpoint,
            },
            Err(stop) => OutpointAnswer {
                stop: FlatStop::from(stop),
                outpoint: Outpoint::NONE,
            },
        }
    }
}

// 32 bytes into a lent array, which keeps what it has where they are refused.
fn store_array(c: Cursor, source: &[u8], array: &mut [u8; 32]) -> Result<Cursor, Stop>
    ensures result_value { moved_paper result ≡ past (bytes_at 32 source.now c.position) }
    ensures array_after { array.new ≡ bytes_or array.old (bytes_at 32 source.now c.position) }
{
    let (bytes, next) = c.read_array::<32>(source)?;
    *array = bytes;
    Ok(next)
}

// ---- reads

pub fn turgamysk_remaining(source: &[u8], position: usize) -> usize
    ensures { result ≡ remaining_at source.now position }
{
    Cursor { position }.remaining(source)
}

pub fn turgamysk_read_u8(source: &[u8], position: usize) -> NumberAnswer
    ensures { result ≡ number_flat (fixed_at 1 source.now position) }
{
    NumberAnswer::from(Cursor { position }.read_le::<u8>(source))
}

pub fn turgamysk_read_u16_le(source: &[u8], position: usize) -> NumberAnswer
    ensures { result ≡ number_flat (fixed_at 2 source.now position) }
{
    NumberAnswer::from(Cursor { position }.read_le::<u16>(source))
}

pub fn turgamysk_read_u32_le(source: &[u8], position: usize) -> NumberAnswer
    ensures { result ≡ number_flat (fixed_at 4 source.now position) }
{
    NumberAnswer::from(Cursor { position }.read_le::<u32>(source))
}

pub fn turgamysk_read_u64_le(source: &[u8], position: usize) -> NumberAnswer
    ensures { result ≡ number_flat (fixed_at 8 source.now position) }
{
    NumberAnswer::from(Cursor { position }.read_le::<u64>(source))
}

pub fn turgamysk_read_compact_size(source: &[u8], position: usize) -> NumberAnswer
    ensures { result ≡ number_flat (compact_at source.now position) }
{
    NumberAnswer::from(Cursor { position }.read_compact_size(source))
}

pub fn turgamysk_read_compact_usize(source: &[u8], position: usize, maximum: usize) -> NumberAnswer
    ensures { result ≡ number_flat (compact_most maximum source.now position) }
{
    let read = Cursor { position }.read_compact_usize(source, maximum);
    NumberAnswer::from(read.map(|(size, next)| (size as u64, next)))
}

pub fn turgamysk_read_slice(source: &[u8], position: usize, size: usize) -> SpanAnswer
    ensures { result ≡ span_flat (slice_at size source.now position) }
{
    SpanAnswer::from(Cursor { position }.read_slice(source, size))
}

pub fn turgamysk_read_bounded(
    source: &[u8],
    position: usize,
    size: usize,
    maximum: usize,
) -> SpanAnswer
    ensures { result ≡ span_flat (bounded_at size maximum source.now position) }
{
    SpanAnswer::from(Cursor { position }.read_bounded(source, size, maximum))
}

pub fn turgamysk_read_varbytes(source: &[u8], position: usize, maximum: usize) -> SpanAnswer
    ensures { result ≡ span_flat (varbytes_at maximum source.now position) }
{
    SpanAnswer::from(Cursor { position }.read_varbytes(source, maximum))
}

pub fn turgamysk_read_array(source: &[u8], position: usize, array: &mut [u8; 32]) -> FlatStop
    ensures value { result ≡ moved_flat (shown_bytes 32 (bytes_at 32 source.now position)).0 }
    ensures array_after { array.new ≡ (shown_bytes 32 (bytes_at 32 source.now position)).1 }
{
    *array = [0; 32];
    FlatStop::from(store_array(Cursor { position }, source, array))
}

pub fn turgamysk_finish(source: &[u8], position: usize) -> FlatStop
    ensures { result ≡ moved_flat (finish_at source.now position) }
{
    FlatStop::from(Cursor { position }.finish(source))
}

// ---- writes

pub fn turgamysk_put_u8(dest: &mut [u8], at: usize, value: u8) -> WriteAnswer
    ensures value { result ≡ write_flat (put_answer at (bytes 1 value) dest.old) }
    ensures dest_after { dest.new ≡ laid at (bytes 1 value) dest.old }
{
    WriteAnswer::from(put_le(dest, at, value))
}

pub fn turgamysk_put_u16_le(dest: &mut [u8], at: usize, value: u16) -> WriteAnswer
    ensures value { result ≡ write_flat (put_answer at (bytes 2 value) dest.old) }
    ensures dest_after { dest.new ≡ laid at (bytes 2 value) dest.old }
{
    WriteAnswer::from(put_le(dest, at, value))
}

pub fn turgamysk_put_u32_le(dest: &mut [u8], at: usize, value: u32) -> WriteAnswer
    ensures value { result ≡ write_flat (put_answer at (bytes 4 value) dest.old) }
    ensures dest_after { dest.new ≡ laid at (bytes 4 value) dest.old }
{
    WriteAnswer::from(put_le(dest, at, value))
}

pub fn turgamysk_put_u64_le(dest: &mut [u8], at: usize, value: u64) -> WriteAnswer
    ensures value { result ≡ write_flat (put_answer at (bytes 8 value) dest.old) }
    ensures dest_after { dest.new ≡ laid at (bytes 8 value) dest.old }
{
    WriteAnswer::from(put_le(dest, at, value))
}

pub fn turgamysk_put_bytes(dest: &mut [u8], at: usize, value: &[u8]) -> WriteAnswer
    ensures value { result ≡ write_flat (put_answer at value.now dest.old) }
    ensures dest_after { dest.new ≡ laid at value.now dest.old }
{
    WriteAnswer::from(put_bytes(dest, at, value))
}

pub fn turgamysk_put_compact_size(dest: &mut [u8], at: usize, value: u64) -> WriteAnswer
    ensures value { result ≡ write_flat (put_answer at (compact value) dest.old) }
    ensures dest_after { dest.new ≡ laid at (compact value) dest.old }
{
    WriteAnswer::from(put_compact_size(dest, at, value))
}

pub fn turgamysk_put_varbytes(dest: &mut [u8], at: usize, value: &[u8]) -> WriteAnswer
    ensures value { result ≡ write_flat (put_answer at (varbytes value.now) dest.old) }
    ensures dest_after { dest.new ≡ laid at (varbytes value.now) dest.old }
{
    WriteAnswer::from(put_varbytes(dest, at, value))
}

pub fn turgamysk_compact_size_len(value: u64) -> usize
    ensures { result ≡ compact_size value }
{
    compact_size_len(value)
}

// ---- outpoints

pub fn turgamysk_outpoint_decode(source: &[u8], position: usize) -> OutpointAnswer
    ensures { result ≡ outpoint_flat (shown_outpoint (outpoint_at source.now position)) }
{
    OutpointAnswer::from(Outpoint::decode(Cursor { position }, source))
}

pub fn turgamysk_outpoint_encode(outpoint: Outpoint, encoded: &mut [u8; 36])
    ensures { encoded.new ≡ outpoint_bytes outpoint }
{
    *encoded = outpoint.encode();
}

pub fn turgamysk_outpoint_same(outpoint: Outpoint, other: Outpoint) -> bool
    ensures { result ≡ same_outpoint outpoint other }
{
    outpoint.same(other)
}

pub fn turgamysk_outpoint_is_null(outpoint: Outpoint) -> bool
    ensures { result ≡ is_null outpoint }
{
    outpoint.is_null()
}
