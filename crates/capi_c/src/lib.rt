// The static library of the C boundary: each entry of `capi` under its C name, with its whole contract said again.
// bindings/c/turgamysk.h declares them.
#![tactic(auto)]

pub mod amounts;
pub mod items;
pub mod lines;
pub mod linkage;
pub mod sheet;
pub mod states;
pub mod wire;

ghost use Rattle.std.specs.Prelude.{◌≡◌, ◌++◌};
ghost use Rattle.words.specs.Words.{bytes};
ghost use Rattle.sha3.specs.Sha3.{sha3};
ghost use Rattle.blake2b.specs.Blake2b.{blake2b};
ghost use Rattle.covenants.specs.Covenant.{skimmed, covenant_at, whole_covenant};
ghost use Rattle.covenants.specs.Written.{encode_answer, encode_content};
ghost use Rattle.covenants.specs.Paper.{directory_of};
ghost use Rattle.capi.specs.Flat.{covenant_flat, write_flat};
ghost use Rattle.capi.specs.Version.{version};

use capi::{CovenantAnswer, WriteAnswer};

#[unsafe(no_mangle)]
pub extern "C" fn turgamysk_version() -> u32
    ensures { result ≡ version }
{
    capi::turgamysk_version()
}

#[unsafe(no_mangle)]
pub extern "C" fn turgamysk_sha3_256(message: &[u8], digest: &mut [u8; 32])
    ensures { digest.new ≡ sha3 message.now }
{
    capi::turgamysk_sha3_256(message, digest)
}

#[unsafe(no_mangle)]
pub extern "C" fn turgamysk_blake2b_256(message: &[u8], digest: &mut [u8; 32])
    ensures { digest.new ≡ blake2b message.now }
{
    capi::turgamysk_blake2b_256(message, digest)
}

#[unsafe(no_mangle)]
pub extern "C" fn turgamysk_blake2b_256_value_nonce(
    value: u64,
    nonce: &[u8; 32],
    digest: &mut [u8; 32],
)
    ensures { digest.new ≡ blake2b (bytes 8 value ++ nonce.now) }
{
    capi::turgamysk_blake2b_256_value_nonce(value, nonce, digest)
}

#[unsafe(no_mangle)]
pub extern "C" fn turgamysk_covenant_read(
    bytes: &[u8],
    position: usize,
    limit: usize,
) -> CovenantAnswer
    ensures { result ≡ covenant_flat (skimmed (covenant_at limit bytes.now position)) }
{
    capi::turgamysk_covenant_read(bytes, position, limit)
}

#[unsafe(no_mangle)]
pub extern "C" fn turgamysk_covenant_decode(
    bytes: &[u8],
    starts: &mut [usize; 1000],
    lens: &mut [usize; 1000],
) -> CovenantAnswer
    ensures value { result ≡ covenant_flat (skimmed (whole_covenant bytes.now)) }
    ensures starts_after { starts.new ≡ (directory_of (whole_covenant bytes.now)).starts }
    ensures lens_after { lens.new ≡ (directory_of (whole_covenant bytes.now)).lens }
{
    capi::turgamysk_covenant_decode(bytes, starts, lens)
}

#[unsafe(no_mangle)]
pub extern "C" fn turgamysk_covenant_decode_from(
    bytes: &[u8],
    position: usize,
    limit: usize,
    starts: &mut [usize; 1000],
    lens: &mut [usize; 1000],
) -> CovenantAnswer
    ensures value { result ≡ covenant_flat (skimmed (covenant_at limit bytes.now position)) }
    ensures starts_after { starts.new ≡ (directory_of (covenant_at limit bytes.now position)).starts }
    ensures lens_after { lens.new ≡ (directory_of (covenant_at limit bytes.now position)).lens }
{
    capi::turgamysk_covenant_decode_from(bytes, position, limit, starts, lens)
}

#[unsafe(no_mangle)]
pub extern "C" fn turgamysk_covenant_encode<'a>(
    dest: &mut [u8],
    kind: u8,
    source: &'a [u8],
    starts: &'a [usize; 1000],
    lens: &'a [usize; 1000],
    count: usize,
) -> WriteAnswer
    ensures value { result ≡ write_flat (encode_answer kind source.now starts.now lens.now count dest.old) }
    ensures dest_after { dest.new ≡ encode_content kind source.now starts.now lens.now count dest.old }
{
    capi::turgamysk_covenant_encode(dest, kind, source, starts, lens, count)
}
