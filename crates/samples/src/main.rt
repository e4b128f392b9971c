// Runs hash vectors and compares: the published ones, and those that an independent tool made. Then runs document 01's
// sample lines, and the item viewer.
#![tactic(auto)]

mod compare;
mod lines;
mod vectors;
mod viewer;

ghost use Rattle.std.specs.Prelude.{◌≡◌, ◌&&◌, ◌≤◌, leb, eqb, length, take};
ghost use Rattle.words.specs.Words.{le};
ghost use Rattle.samples.specs.Vectors.{head_of};

use crate::compare::judge;
use crate::lines::run_lines;
use crate::vectors::Function;
use crate::viewer::run_viewer;
use files::load;
use std::io;
use std::rt::Files;
use words::load::load_u64;

// Where the file is missing, cut, longer than it says or of another form, nothing is told of its vectors as a whole.
fn refuse(rt: &impl Print, name: &str, number: u64) -> io::Result<()> {
    println!(rt; "{name} file: not of the form after {number} vectors")
}

// Whether a file begins with its function's head, and has a count after it.
fn is_headed(f: Function, s: &[u8]) -> bool
    ensures { result ≡ (leb 16 (length s.now) && eqb (le (take 8 s.now)) (head_of f)) }
{
    16 <= s.len() && load_u64(s, 0) == f.head()
}

// All vectors of a file, one after the other, up to its end. They are counted from 1.
fn run(rt: &impl Print, name: &str, f: Function, s: &[u8], room: &mut [u8; 66000]) -> io::Result<()>
    requires { 16 ≤ length s.now }
{
    let count = load_u64(s, 8);
    let mut at = 16;
    let mut differ: u64 = 0;
    for number in 0..count {
        let Some(vector) = judge(f, s, at, room) else {
            return refuse(rt, name, number);
        };
        if vector.differs {
            differ += 1;
            println!(rt; "{name} vector {} differs", number + 1)?;
        }
        at = vector.next;
    }
    if at < s.len() {
        return refuse(rt, name, count);
    }
    println!(rt; "{name} {count} compared, {differ} differ")
}

// A file that fills all of the buffer may have been cut.
fn run_file(
    rt: &(impl Files + Print),
    name: &str,
    f: Function,
    path: &str,
    room: &mut [u8; 66000],
) -> io::Result<()> {
    let mut file = [0u8; 20000];
    let n = load(rt, path.as_bytes(), &mut file);
    let s = &file[..n];
    if n < file.len() && is_headed(f, s) {
        run(rt, name, f, s, room)
    } else {
        refuse(rt, name, 0)
    }
}

fn main(rt: HostRuntime) -> io::Result<()> {
    let files = [
        ("sha3-256", Function::Sha3, "sha3_256.vectors"),
        ("blake2b-256", Function::Blake2b, "blake2b_256.vectors"),
        (
            "blake2b-256 of value and nonce",
            Function::ValueNonce,
            "value_nonce.vectors",
        ),
    ];
    let mut room = [0u8; 66000];
    for (name, f, path) in files {
        run_file(&rt, name, f, path, &mut room)?;
    }
    run_lines(&rt)?;
    run_viewer(&rt)
}
