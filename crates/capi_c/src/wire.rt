// The wire encoding: reads from a position of lent bytes, writes into lent bytes from an offset on, and outpoints.
ghost use Rattle.std.specs.Prelude.{◌≡◌};
ghost use Rattle.words.specs.Words.{bytes};
ghost use Rattle.words.specs.Buffers.{laid};
ghost use Rattle.encoding.specs.Wire.{remaining_at, slice_at, bytes_at, fixed_at, compact_at, compact_most, bounded_at, varbytes_at, finish_at, compact, compact_size, varbytes, put_answer};
ghost use Rattle.encoding.specs.Paper.{shown_bytes};
ghost use Rattle.primitives.specs.Outpoints.{same_outpoint, is_null, outpoint_bytes, outpoint_at, shown_outpoint};
ghost use Rattle.capi.specs.Flat.{moved_flat, write_flat};
ghost use Rattle.capi.specs.Reading.{number_flat, span_flat, outpoint_flat};

use capi::wire::{NumberAnswer, OutpointAnswer, SpanAnswer};
use capi::{FlatStop, WriteAnswer};
use primitives::Outpoint;

#[unsafe(no_mangle)]
pub extern "C" fn turgamysk_remaining(source: &[u8], position: usize) -> usize
    ensures { result ≡ remaining_at source.now position }
{
    capi::wire::turgamysk_remaining(source, position)
}

#[unsafe(no_mangle)]
pub extern "C" fn turgamysk_read_u8(source: &[u8], position: usize) -> NumberAnswer
    ensures { result ≡ number_flat (fixed_at 1 source.now position) }
{
    capi::wire::turgamysk_read_u8(source, position)
}

#[unsafe(no_mangle)]
pub extern "C" fn turgamysk_read_u16_le(source: &[u8], position: usize) -> NumberAnswer
    ensures { result ≡ number_flat (fixed_at 2 source.now position) }
{
    capi::wire::turgamysk_read_u16_le(source, position)
}

#[unsafe(no_mangle)]
pub extern "C" fn turgamysk_read_u32_le(source: &[u8], position: usize) -> NumberAnswer
    ensures { result ≡ number_flat (fixed_at 4 source.now position) }
{
    capi::wire::turgamysk_read_u32_le(source, position)
}

#[unsafe(no_mangle)]
pub extern "C" fn turgamysk_read_u64_le(source: &[u8], position: usize) -> NumberAnswer
    ensures { result ≡ number_flat (fixed_at 8 source.now position) }
{
    capi::wire::turgamysk_read_u64_le(source, position)
}

#[unsafe(no_mangle)]
pub extern "C" fn turgamysk_read_compact_size(source: &[u8], position: usize) -> NumberAnswer
    ensures { result ≡ number_flat (compact_at source.now position) }
{
    capi::wire::turgamysk_read_compact_size(source, position)
}

#[unsafe(no_mangle)]
pub extern "C" fn turgamysk_read_compact_usize(
    source: &[u8],
    position: usize,
    maximum: usize,
) -> NumberAnswer
    ensures { result ≡ number_flat (compact_most maximum source.now position) }
{
    capi::wire::turgamysk_read_compact_usize(source, position, maximum)
}

#[unsafe(no_mangle)]
pub extern "C" fn turgamysk_read_slice(source: &[u8], position: usize, size: usize) -> SpanAnswer
    ensures { result ≡ span_flat (slice_at size source.now position) }
{
    capi::wire::turgamysk_read_slice(source, position, size)
}

#[unsafe(no_mangle)]
pub extern "C" fn turgamysk_read_bounded(
    source: &[u8],
    position: usize,
    size: usize,
    maximum: usize,
) -> SpanAnswer
    ensures { result ≡ span_flat (bounded_at size maximum source.now position) }
{
    capi::wire::turgamysk_read_bounded(source, position, size, maximum)
}

#[unsafe(no_mangle)]
pub extern "C" fn turgamysk_read_varbytes(
    source: &[u8],
    position: usize,
    maximum: usize,
) -> SpanAnswer
    ensures { result ≡ span_flat (varbytes_at maximum source.now position) }
{
    capi::wire::turgamysk_read_varbytes(source, position, maximum)
}

#[unsafe(no_mangle)]
pub extern "C" fn turgamysk_read_array(
    source: &[u8],
    position: usize,
    array: &mut [u8; 32],
) -> FlatStop
    ensures value { result ≡ moved_flat (shown_bytes 32 (bytes_at 32 source.now position)).0 }
    ensures array_after { array.new ≡ (shown_bytes 32 (bytes_at 32 source.now position)).1 }
{
    capi::wire::turgamysk_read_array(source, position, array)
}

#[unsafe(no_mangle)]
pub extern "C" fn turgamysk_finish(source: &[u8], position: usize) -> FlatStop
    ensures { result ≡ moved_flat (finish_at source.now position) }
{
    capi::wire::turgamysk_finish(source, position)
}

#[unsafe(no_mangle)]
pub extern "C" fn turgamysk_put_u8(dest: &mut [u8], at: usize, value: u8) -> WriteAnswer
    ensures value { result ≡ write_flat (put_answer at (bytes 1 value) dest.old) }
    ensures dest_after { dest.new ≡ laid at (bytes 1 value) dest.old }
{
    capi::wire::turgamysk_put_u8(dest, at, value)
}

#[unsafe(no_mangle)]
pub extern "C" fn turgamysk_put_u16_le(dest: &mut [u8], at: usize, value: u16) -> WriteAnswer
    ensures value { result ≡ write_flat (put_answer at (bytes 2 value) dest.old) }
    ensures dest_after { dest.new ≡ laid at (bytes 2 value) dest.old }
{
    capi::wire::turgamysk_put_u16_le(dest, at, value)
}

#[unsafe(no_mangle)]
pub extern "C" fn turgamysk_put_u32_le(dest: &mut [u8], at: usize, value: u32) -> WriteAnswer
    ensures value { result ≡ write_flat (put_answer at (bytes 4 value) dest.old) }
    ensures dest_after { dest.new ≡ laid at (bytes 4 value) dest.old }
{
    capi::wire::turgamysk_put_u32_le(dest, at, value)
}

#[unsafe(no_mangle)]
pub extern "C" fn turgamysk_put_u64_le(dest: &mut [u8], at: usize, value: u64) -> WriteAnswer
    ensures value { result ≡ write_flat (put_answer at (bytes 8 value) dest.old) }
    ensures dest_after { dest.new ≡ laid at (bytes 8 value) dest.old }
{
    capi::wire::turgamysk_put_u64_le(dest, at, value)
}

#[unsafe(no_mangle)]
pub extern "C" fn turgamysk_put_bytes(dest: &mut [u8], at: usize, value: &[u8]) -> WriteAnswer
    ensures value { result ≡ write_flat (put_answer at value.now dest.old) }
    ensures dest_after { dest.new ≡ laid at value.now dest.old }
{
    capi::wire::turgamysk_put_bytes(dest, at, value)
}

#[unsafe(no_mangle)]
pub extern "C" fn turgamysk_put_compact_size(dest: &mut [u8], at: usize, value: u64) -> WriteAnswer
    ensures value { result ≡ write_flat (put_answer at (compact value) dest.old) }
    ensures dest_after { dest.new ≡ laid at (compact value) dest.old }
{
    capi::wire::turgamysk_put_compact_size(dest, at, value)
}

#[unsafe(no_mangle)]
pub extern "C" fn turgamysk_put_varbytes(dest: &mut [u8], at: usize, value: &[u8]) -> WriteAnswer
    ensures value { result ≡ write_flat (put_answer at (varbytes value.now) dest.old) }
    ensures dest_after { dest.new ≡ laid at (varbytes value.now) dest.old }
{
    capi::wire::turgamysk_put_varbytes(dest, at, value)
}

#[unsafe(no_mangle)]
pub extern "C" fn turgamysk_compact_size_len(value: u64) -> usize
    ensures { result ≡ compact_size value }
{
    capi::wire::turgamysk_compact_size_len(value)
}

#[unsafe(no_mangle)]
pub extern "C" fn turgamysk_outpoint_decode(source: &[u8], position: usize) -> OutpointAnswer
    ensures { result ≡ outpoint_flat (shown_outpoint (outpoint_at source.now position)) }
{
    capi::wire::turgamysk_outpoint_decode(source, position)
}

#[unsafe(no_mangle)]
pub extern "C" fn turgamysk_outpoint_encode(outpoint: Outpoint, encoded: &mut [u8; 36])
    ensures { encoded.new ≡ outpoint_bytes outpoint }
{
    capi::wire::turgamysk_outpoint_encode(outpoint, encoded)
}

#[unsafe(no_mangle)]
pub extern "C" fn turgamysk_outpoint_same(outpoint: Outpoint, other: Outpoint) -> bool
    ensures { result ≡ same_outpoint outpoint other }
{
    capi::wire::turgamysk_outpoint_same(outpoint, other)
}

#[unsafe(no_mangle)]
pub extern "C" fn turgamysk_outpoint_is_null(outpoint: Outpoint) -> bool
    ensures { result ≡ is_null outpoint }
{
    capi::wire::turgamysk_outpoint_is_null(outpoint)
}
