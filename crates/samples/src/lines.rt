// Document 01's sample lines without a P: each is run, and what came of it is printed.
ghost use Rattle.std.specs.Prelude.{◌≡◌, ◌+◌, ◌≤◌, length, take, drop};
ghost use Rattle.words.specs.Sameness.{same};
ghost use Rattle.refusal.specs.Paper.{put_paper};
ghost use Rattle.covenants.specs.Written.{encode_answer, encode_content};
ghost use Rattle.links.specs.Samples.{zeros, opens, registered};
ghost use Rattle.samples.specs.Lines.{sample_starts, sample_lengths, height_one};

use crate::vectors::make;
use covenants::items::Directory;
use covenants::{Accepted, Covenant};
use encoding::read::{Cursor, Read};
use links::verify_covenant_links;
use name_state_codec::decode::decode;
use primitives::NameHash;
use refusal::{Refusal, carried_by, number};
use std::io;
use words::same::same_bytes;

// A refusal that carries two numbers.
fn tell_refused(rt: &impl Print, r: Refusal, when: &str) -> io::Result<()> {
    let carried = carried_by(r);
    print!(rt;
        "refused {} with {} and {} when {when}",
        number(r),
        carried.first,
        carried.second
    )
}

fn tell_written(rt: &impl Print, written: Result<usize, Refusal>) -> io::Result<()> {
    match written {
        Ok(n) => print!(rt; "{n} written, "),
        Err(r) => tell_refused(rt, r, "written, "),
    }
}

fn tell_read(rt: &impl Print, read: Read<Accepted>) -> io::Result<()> {
    match read {
        Ok((covenant, _)) => print!(rt; "{} read with {} items", covenant.used, covenant.count),
        Err(stop) => tell_refused(rt, stop.refusal, "read"),
    }
}

// A covenant of so many items: the first is 1,000,000 bytes of the source, and the others are empty.
fn write_items(dest: &mut [u8], source: &[u8], count: usize) -> Result<usize, Refusal>
    ensures result_value { put_paper result ≡ encode_answer 0 source.now sample_starts sample_lengths count dest.old }
    ensures dest_after { dest.new ≡ encode_content 0 source.now sample_starts sample_lengths count dest.old }
{
    let starts = [0usize; 1000];
    let mut lens = [0usize; 1000];
    lens[0] = 1_000_000;
    let directory = Directory {
        source,
        starts: &starts,
        lens: &lens,
        count,
    };
    directory.encode(dest, 0)
}

// Does the source stand at this place of what was written?
fn is_kept(dest: &[u8], start: usize, source: &[u8]) -> bool
    requires { start + length source.now ≤ length dest.now }
    ensures { result ≡ same source.now (take (length source.now) (drop start dest.now)) }
{
    same_bytes(source, &dest[start..start + source.len()])
}

// "Three items of 1,000,000, 0, 0 fill 1,000,009". The first stands after the kind, the count and a length of five
// bytes.
fn run_three(rt: &impl Print, dest: &mut [u8; 1000010], source: &[u8; 1000000]) -> io::Result<()> {
    let first = Cursor { position: 0 };
    print!(rt; "three items of 1000000, 0 and 0: ")?;
    tell_written(rt, write_items(dest, source, 3))?;
    tell_read(rt, Covenant::read(first, dest, Covenant::MAX_ENCODED_SIZE))?;
    let not = if is_kept(dest, 7, source) { "" } else { "not " };
    println!(rt; ", the first {not}as it was")
}

// "a fourth empty item is 5": to the writer, and to the reader of the three items under the count 4, with one zero byte
// more.
fn run_four(rt: &impl Print, dest: &mut [u8; 1000010], source: &[u8; 1000000]) -> io::Result<()> {
    let first = Cursor { position: 0 };
    print!(rt; "a fourth empty item: ")?;
    tell_written(rt, write_items(dest, source, 4))?;
    dest[1] = 4;
    dest[1_000_009] = 0;
    tell_read(rt, Covenant::read(first, dest, Covenant::MAX_ENCODED_SIZE))?;
    println!(rt)
}

// Arrays and not slices are lent: their type says their length, and no check builds a list of a million numbers.
fn run_items(
    rt: &impl Print,
    dest: &mut [u8; 1000010],
    source: &mut [u8; 1000000],
) -> io::Result<()> {
    make(source);
    run_three(rt, dest, source)?;
    run_four(rt, dest, source)
}

// A name state's record.
fn height_one() -> [u8; 13]
    ensures { result ≡ height_one }
{
    let mut record = [0u8; 13];
    record[3] = 1;
    record
}

// "Height 1 with an empty name: 6".
fn run_height(rt: &impl Print) -> io::Result<()> {
    print!(rt; "height 1 with an empty name: ")?;
    match decode(NameHash([0u8; 32]), &height_one()) {
        Ok(_) => println!(rt; "accepted"),
        Err(stop) => println!(rt; "refused {}", number(stop.refusal)),
    }
}

// A sheet of one coin: a Register of value 0 with no address hash and no items.
fn register_coins() -> [u8; 52]
    ensures { result ≡ registered (zeros 36) }
{
    let mut coins = [0u8; 52];
    coins[0] = 0x14;
    coins[1] = 1;
    coins[50] = 6;
    coins
}

// A sheet of one input, which spends that coin, and one output: an Open with no address hash and no items.
fn open_transaction(value: u8) -> [u8; 52]
    ensures { result ≡ opens (zeros 36) value }
{
    let mut tx = [0u8; 52];
    tx[0] = 0x10;
    tx[1] = 1;
    tx[3] = 0x40;
    tx[47] = value;
    tx[50] = 2;
    tx
}

// "Register to Open with unequal values: 22, with equal value and address: 14". A refusal's number, and the input that
// it carries.
fn run_links(rt: &impl Print, name: &str, value: u8) -> io::Result<()> {
    match verify_covenant_links(&open_transaction(value), &register_coins()) {
        Ok(_) => println!(rt; "{name}: accepted"),
        Err(stop) => {
            let r = stop.refusal;
            println!(rt; "{name}: refused {} at {}", number(r), carried_by(r).first)
        }
    }
}

pub(crate) fn run_lines(rt: &impl Print) -> io::Result<()> {
    let mut dest = [0u8; 1000010];
    let mut source = [0u8; 1000000];
    run_items(rt, &mut dest, &mut source)?;
    run_height(rt)?;
    run_links(rt, "register to open with unequal values", 1)?;
    run_links(rt, "register to open with equal value and address", 0)
}
