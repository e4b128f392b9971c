// Files, as the programs load them.
#![tactic(auto)]

ghost use Rattle.std.specs.Prelude.{IfOk};
ghost use Rattle.files.specs.Counts.{IsPrefixLen};

use std::fs::File;
use std::io::{self, Read};
use std::rt::Files;
use std::str;

// The bytes up to the file's end, as many as fit, at the start of `buf`, and how many.
fn read_whole<F: Read>(file: &mut F, buf: &mut [u8]) -> io::Result<usize>
    ensures { IfOk result (λ n. IsPrefixLen n buf.new) }
{
    let mut done = 0;
    while done < buf.len() {
        match file.read(&mut buf[done..])? {
            0 => break,
            n => done += n,
        }
    }
    Ok(done)
}

// The file's bytes at the start of `buf`, as many as fit, and how many. A file that cannot be opened, or of which a
// read fails, counts as missing: it has none, whatever came before. So does a path that is no UTF-8: the library opens
// only a path that is text.
pub fn load<R: Files>(rt: &R, path: &[u8], buf: &mut [u8]) -> usize
    ensures { IsPrefixLen result buf.new }
{
    let Ok(text) = str::from_utf8(path) else {
        return 0;
    };
    let Ok(mut file) = File::open(rt, text) else {
        return 0;
    };
    read_whole(&mut file, buf).unwrap_or(0)
}
