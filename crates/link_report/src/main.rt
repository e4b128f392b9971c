// The link report: what the rules say of `tx.sheet` and `coins.sheet`, in one line.
#![tactic(auto)]

use files::load;
use reports::link::link_line;
use std::io;

fn report(rt: &impl Print, tx: &[u8], coins: &[u8]) -> io::Result<()> {
    let mut line = [0u8; 89];
    match link_line(tx, coins, &mut line) {
        Ok(m) => rt.write_all(&line[..m]),
        // Never: every line fits (LinkLineFits of reports).
        Err(_) => Ok(()),
    }
}

// One byte more than is allowed of each sheet is read, so that a longer file is refused for its length.
fn main(rt: HostRuntime) -> io::Result<()> {
    let mut tx = [0u8; 32769];
    let mut coins = [0u8; 32769];
    let n = load(&rt, b"tx.sheet", &mut tx);
    let m = load(&rt, b"coins.sheet", &mut coins);
    report(&rt, &tx[..n], &coins[..m])
}
