// The C boundary: each entry of the libraries under a C name, with its whole contract. `capi_c` is the static library
// of them, and bindings/c/turgamysk.h declares them.
#![tactic(auto)]

pub mod amounts;
pub mod items;
pub mod lines;
pub mod linkage;
pub mod sheet;
pub mod states;
pub mod wire;

ghost use Rattle.std.specs.Prelude.{◌≡◌, [], ◌++◌};
ghost use Rattle.words.specs.Words.{bytes};
ghost use Rattle.sha3.specs.Sha3.{sha3};
ghost use Rattle.blake2b.specs.Blake2b.{blake2b};
ghost use Rattle.refusal.specs.Paper.{number_of, carried, put_paper};
ghost use Rattle.encoding.specs.Paper.{moved_paper};
ghost use Rattle.covenants.specs.Covenant.{skimmed, covenant_at, whole_covenant};
ghost use Rattle.covenants.specs.Written.{encode_answer, encode_content};
ghost use Rattle.covenants.specs.Paper.{covenant_paper, directory_of};
ghost use Rattle.capi.specs.Flat.{stop_flat, moved_flat, covenant_flat, write_flat};
ghost use Rattle.capi.specs.Version.{version};

use covenants::items::Directory;
use covenants::{Accepted, Covenant};
use encoding::read::{Cursor, Read};
use refusal::{Refusal, Stop, carried_by, number};

// The number of the interface that bindings/c/turgamysk.h declares.
pub const VERSION: u32 = 1;

pub fn turgamysk_version() -> u32
    ensures { result ≡ version }
{
    VERSION
}

pub fn turgamysk_sha3_256(message: &[u8], digest: &mut [u8; 32])
    ensures { digest.new ≡ sha3 message.now }
{
    *digest = sha3::sha3_256(message);
}

pub fn turgamysk_blake2b_256(message: &[u8], digest: &mut [u8; 32])
    ensures { digest.new ≡ blake2b message.now }
{
    *digest = blake2b::blake2b_256(message);
}

pub fn turgamysk_blake2b_256_value_nonce(value: u64, nonce: &[u8; 32], digest: &mut [u8; 32])
    ensures { digest.new ≡ blake2b (bytes 8 value ++ nonce.now) }
{
    *digest = blake2b::blake2b_256_value_nonce(value, nonce);
}

// What a call that reads says beside what it read: 0, or the refusal's number and up to three of what it carries; and
// where the reader then stands.
#[repr(C)]
#[derive(Clone, Copy)]
pub struct FlatStop {
    pub number: u8,
    pub first: usize,
    pub second: usize,
    pub third: usize,
    pub position: usize,
}

// A covenant that was read, or the refusal.
#[repr(C)]
#[derive(Clone, Copy)]
pub struct CovenantAnswer {
    pub stop: FlatStop,
    pub kind: u8,
    pub count: usize,
    pub used: usize,
}

// How many bytes were written, or the refusal.
#[repr(C)]
#[derive(Clone, Copy)]
pub struct WriteAnswer {
    pub number: u8,
    pub first: usize,
    pub second: usize,
    pub third: usize,
    pub written: usize,
}

impl FlatStop {
    // Nothing was refused, where there is no position to say.
    pub(crate) const PASSED: FlatStop = FlatStop {
        number: 0,
        first: 0,
        second: 0,
        third: 0,
        position: 0,
    };
}

impl From<Cursor> for FlatStop {
    ghost from_gives = { λ next flat. flat ≡ stop_flat 0 [] next.position };

    fn from(next: Cursor) -> FlatStop {
        FlatStop {
            position: next.position,
            ..FlatStop::PASSED
        }
    }
}

impl From<Stop> for FlatStop {
    ghost from_gives = { λ stop flat. flat ≡ stop_flat (number_of stop.refusal) (carried stop.refusal) stop.position };

    fn from(stop: Stop) -> FlatStop {
        let carried = carried_by(stop.refusal);
        FlatStop {
            number: number(stop.refusal),
            first: carried.first,
            second: carried.second,
            third: carried.third,
            position: stop.position,
        }
    }
}

impl From<Refusal> for FlatStop {
    ghost from_gives = { λ refusal flat. flat ≡ stop_flat (number_of refusal) (carried refusal) 0 };

    fn from(refusal: Refusal) -> FlatStop {
        FlatStop::from(Stop {
            refusal,
            position: 0,
        })
    }
}

impl From<Result<Cursor, Stop>> for FlatStop {
    ghost from_gives = { λ moved flat. flat ≡ moved_flat (moved_paper moved) };

    fn from(moved: Result<Cursor, Stop>) -> FlatStop {
        match moved {
            Ok(next) => FlatStop::from(next),
            Err(stop) => FlatStop::from(stop),
        }
    }
}

impl From<Read<Accepted>> for CovenantAnswer {
    ghost from_gives = { λ read flat. flat ≡ covenant_flat (covenant_paper read) };

    fn from(read: Read<Accepted>) -> CovenantAnswer {
        match read {
            Ok((accepted, next)) => CovenantAnswer {
                stop: FlatStop::from(next),
                kind: accepted.kind,
                count: accepted.count,
                used: accepted.used,
            },
            Err(stop) => CovenantAnswer {
                stop: FlatStop::from(stop),
                kind: 0,
                count: 0,
                used: 0,
            },
        }
    }
}

impl From<Result<usize, Refusal>> for WriteAnswer {
    ghost from_gives = { λ put flat. flat ≡ write_flat (put_paper put) };

    fn from(put: Result<usize, Refusal>) -> WriteAnswer {
        match put {
            Ok(written) => WriteAnswer {
                number: 0,
                first: 0,
                second: 0,
                third: 0,
                written,
            },
            Err(refusal) => {
                let carried = carried_by(refusal);
                WriteAnswer {
                    number: number(refusal),
                    first: carried.first,
                    second: carried.second,
                    third: carried.third,
                    written: 0,
                }
            }
        }
    }
}

pub fn turgamysk_covenant_read(bytes: &[u8], position: usize, limit: usize) -> CovenantAnswer
    ensures { result ≡ covenant_flat (skimmed (covenant_at limit bytes.now position)) }
{
    CovenantAnswer::from(Covenant::read(Cursor { position }, bytes, limit))
}

pub fn turgamysk_covenant_decode(
    bytes: &[u8],
    starts: &mut [usize; 1000],
    lens: &mut [usize; 1000],
) -> CovenantAnswer
    ensures value { result ≡ covenant_flat (skimmed (whole_covenant bytes.now)) }
    ensures starts_after { starts.new ≡ (directory_of (whole_covenant bytes.now)).starts }
    ensures lens_after { lens.new ≡ (directory_of (whole_covenant bytes.now)).lens }
{
    CovenantAnswer::from(Covenant::decode_into(bytes, starts, lens))
}

pub fn turgamysk_covenant_decode_from(
    bytes: &[u8],
    position: usize,
    limit: usize,
    starts: &mut [usize; 1000],
    lens: &mut [usize; 1000],
) -> CovenantAnswer
    ensures value { result ≡ covenant_flat (skimmed (covenant_at limit bytes.now position)) }
    ensures starts_after { starts.new ≡ (directory_of (covenant_at limit bytes.now position)).starts }
    ensures lens_after { lens.new ≡ (directory_of (covenant_at limit bytes.now position)).lens }
{
    CovenantAnswer::from(Covenant::decode_from_into(
        Cursor { position },
        bytes,
        limit,
        starts,
        lens,
    ))
}

pub fn turgamysk_covenant_encode<'a>(
    dest: &mut [u8],
    kind: u8,
    source: &'a [u8],
    starts: &'a [usize; 1000],
    lens: &'a [usize; 1000],
    count: usize,
) -> WriteAnswer
    ensures value { result ≡ write_flat (encode_answer kind source.now starts.now lens.now count dest.old) }
    ensures dest_after { dest.new ≡ encode_content kind source.now starts.now lens.now count dest.old }
{
    let directory = Directory {
        source,
        starts,
        lens,
        count,
    };
    WriteAnswer::from(directory.encode(dest, kind))
}
