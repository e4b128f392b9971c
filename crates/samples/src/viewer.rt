// The item viewer on a pair of sheets: its yes or no, and the bytes that it hands back, are printed.
ghost use Rattle.std.specs.Prelude.{◌≡◌};
ghost use Rattle.samples.specs.Viewed.{viewed_transaction, viewed_coins};

use sheets::viewer::{has_item, item};
use std::io;

// A sheet of one input and one output: an Open with two items, `ab` and an empty one.
fn transaction() -> [u8; 56]
    ensures { result ≡ viewed_transaction }
{
    let mut tx = [0u8; 56];
    tx[0] = 0x10;
    tx[1] = 1;
    tx[3] = 0x40;
    tx[50] = 2;
    tx[51] = 2;
    tx[52] = 2;
    tx[53] = b'a';
    tx[54] = b'b';
    tx
}

// A sheet of one coin: a Register with two items, an empty one and `xyz`.
fn coin() -> [u8; 57]
    ensures { result ≡ viewed_coins }
{
    let mut coins = [0u8; 57];
    coins[0] = 0x14;
    coins[1] = 1;
    coins[50] = 6;
    coins[51] = 2;
    coins[53] = 3;
    coins[54] = b'x';
    coins[55] = b'y';
    coins[56] = b'z';
    coins
}

fn tell_item(
    rt: &impl Print,
    tx: &[u8],
    coins: &[u8],
    side: u8,
    index: usize,
    number: usize,
) -> io::Result<()> {
    let bytes = item(tx, coins, side, index, number);
    let there = if has_item(tx, coins, side, index, number) {
        "yes"
    } else {
        "no"
    };
    print!(rt;
        "side {side} record {index} item {number}: {there}, {} bytes (",
        bytes.len()
    )?;
    rt.write_all(bytes)?;
    println!(rt; ")")
}

// The two sides and another one, of each both items of a record and one that it does not have; and a record that is not
// there.
pub(crate) fn run_viewer(rt: &impl Print) -> io::Result<()> {
    let tx = transaction();
    let coins = coin();
    for side in 0..3 {
        for number in 0..3 {
            tell_item(rt, &tx, &coins, side, 0, number)?;
        }
    }
    tell_item(rt, &tx, &coins, 0, 1, 0)
}
