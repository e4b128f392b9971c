// Replays recorded answers of the Rust and compares ours with them.
#![tactic(auto)]

mod answers;
mod compare;
mod records;
mod states;

use crate::compare::judge;
use files::load;
use std::io;
use std::rt::Files;

// Where the file is missing, cut or of another form, nothing is told of its records as a whole.
fn refuse(rt: &impl Print, name: &str, number: u64) -> io::Result<()> {
    println!(rt; "{name} file: not of the form after {number} records")
}

// All records of a file, one after the other, up to its end. They are counted from 1. No `for`: where a record ends,
// and so how many there are, is known only once it is read.
fn run(rt: &impl Print, name: &str, s: &[u8]) -> io::Result<()> {
    let mut at = 0;
    let mut number: u64 = 0;
    let mut differ: u64 = 0;
    while at < s.len() {
        let Some(record) = judge(s, at) else {
            return refuse(rt, name, number);
        };
        number += 1;
        if record.differs {
            differ += 1;
            println!(rt; "{name} record {number} differs")?;
        }
        at = record.next;
    }
    println!(rt; "{name} {number} compared, {differ} differ")
}

// A file that fills all of the buffer may have been cut, and one without a byte may be missing.
fn run_file(rt: &(impl Files + Print), name: &str, path: &str) -> io::Result<()> {
    let mut file = [0u8; 60000];
    let n = load(rt, path.as_bytes(), &mut file);
    if 0 < n && n < file.len() {
        run(rt, name, &file[..n])
    } else {
        refuse(rt, name, 0)
    }
}

fn main(rt: HostRuntime) -> io::Result<()> {
    let files = [
        ("covenants 1", "covenants_1.answers"),
        ("covenants 2", "covenants_2.answers"),
        ("states 1", "states_1.answers"),
        ("states 2", "states_2.answers"),
        ("states 3", "states_3.answers"),
        ("states 4", "states_4.answers"),
        ("states 5", "states_5.answers"),
        ("links 1", "links_1.answers"),
        ("links 2", "links_2.answers"),
        ("links 3", "links_3.answers"),
        ("links 4", "links_4.answers"),
        ("links 5", "links_5.answers"),
        ("links 6", "links_6.answers"),
        ("links 7", "links_7.answers"),
        ("links 8", "links_8.answers"),
        ("names", "names.answers"),
    ];
    for (name, path) in files {
        run_file(&rt, name, path)?;
    }
    Ok(())
}
