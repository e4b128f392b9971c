// The name report: what `state.bin` says, in one line.
#![tactic(auto)]

use files::load;
use reports::name::name_line;
use std::io;

fn report(rt: &impl Print, file: &[u8]) -> io::Result<()> {
    let mut line = [0u8; 64];
    match name_line(file, &mut line) {
        Ok(m) => rt.write_all(&line[..m]),
        // Never: every line fits (NameLineFits of reports).
        Err(_) => Ok(()),
    }
}

// One byte more than a key and the longest record is read, so that a longer file is refused for its length.
fn main(rt: HostRuntime) -> io::Result<()> {
    let mut file = [0u8; 701];
    let n = load(&rt, b"state.bin", &mut file);
    report(&rt, &file[..n])
}
