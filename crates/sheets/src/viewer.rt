// The item viewer: the bytes of one item, inside the sheet that it stands in.
ghost use Rattle.std.specs.Prelude.{◌≡◌, ◌+◌, ◌≤◌, length};
ghost use Rattle.covenants.specs.Covenant.{bytes_in};
ghost use Rattle.covenants.specs.Paper.{spot_paper};
ghost use Rattle.sheets.specs.Sheet.{whole, place_at, transaction_at, coins_at, transaction_counts, coin_counts};
ghost use Rattle.sheets.specs.Viewer.{record_of, item_of_place, viewed, view_of, view_bytes, view_place, exists};
ghost use Rattle.sheets.specs.Workers.{places_of, coin_places_of, item_read};
ghost use Rattle.sheets.specs.Paper.{in_sheet, view_paper};

use crate::{VERSION, judge_pair, ledger, pass_coins, pass_to_output, place_at};
use covenants::items::find;
use encoding::read::{Cursor, Span};

// What stands first on a sheet, after the head's 4 bytes.
const FIRST: Cursor = Cursor { position: 4 };

#[derive(Clone, Copy, PartialEq, Eq)]
pub enum Sheet {
    Transaction,
    Coins,
}

// Where an item stands: on which sheet, and in what part of it.
#[derive(Clone, Copy, PartialEq, Eq)]
pub struct View {
    pub sheet: Sheet,
    pub part: Span,
}

// An item that was looked for on a sheet.
fn on_sheet(sheet: Sheet, spot: Option<Span>) -> Option<View>
    ensures { view_paper result ≡ viewed (in_sheet sheet) (spot_paper spot) }
{
    let part = spot?;
    Some(View { sheet, part })
}

// The item of the output that stands at c.
fn item_of(c: Cursor, s: &[u8], side: u8, item: usize) -> Option<Span>
    ensures { spot_paper result ≡ item_read s.now (place_at side s.now c.position) item }
{
    let (place, _) = place_at(c, s, side).ok()?;
    let covenant = Cursor {
        position: place.covenant,
    };
    find(covenant, s, item)
}

// An output's item on a transaction sheet with so many inputs and outputs.
fn output_item(tx: &[u8], inputs: usize, outputs: usize, record: usize, item: usize) -> Option<Span>
    requires { transaction_counts tx.now ≡ whole (inputs, outputs) }
    ensures { spot_paper result ≡ item_of_place tx.now (record_of (places_of (transaction_at tx.now)) «record») item }
{
    if outputs <= record {
        return None;
    }
    let output = ledger(FIRST, tx, inputs, record).ok()?;
    item_of(output, tx, 0, item)
}

// A coin's item on a coin sheet with so many coins.
fn coin_item(coins: &[u8], count: usize, record: usize, item: usize) -> Option<Span>
    requires { coin_counts coins.now ≡ whole (count, 0) }
    ensures { spot_paper result ≡ item_of_place coins.now (record_of (coin_places_of (coins_at coins.now)) «record») item }
{
    if count <= record {
        return None;
    }
    let coin = pass_coins(FIRST, coins, VERSION, record).ok()?;
    let output = pass_to_output(coin, coins, VERSION).ok()?;
    item_of(output, coins, 1, item)
}

// Both sheets are judged, and then the record's item is found.
pub fn find_view(tx: &[u8], coins: &[u8], side: u8, record: usize, item: usize) -> Option<View>
    ensures { view_paper result ≡ view_of tx.now coins.now side «record» item }
{
    let counts = judge_pair(tx, coins).ok()?;
    match side {
        0 => {
            let spot = output_item(tx, counts.inputs, counts.outputs, record, item);
            on_sheet(Sheet::Transaction, spot)
        }
        1 => {
            let spot = coin_item(coins, counts.coins, record, item);
            on_sheet(Sheet::Coins, spot)
        }
        _ => None,
    }
}

fn cut(s: &[u8], part: Span) -> &[u8]
    requires { part.start + part.len ≤ length s.now }
    ensures result_value { result.now ≡ bytes_in s.now (part.start, part.len) }
    ensures ref_ptr_value { result.ref_ptr ≡ (s.entry.ref_ptr.0, part.start + s.entry.ref_ptr.1) }
{
    &s[part.start..part.start + part.len]
}

// The item's bytes, inside their sheet; where there is no such item, the empty start of the transaction sheet.
pub fn item<'a>(tx: &'a [u8], coins: &'a [u8], side: u8, record: usize, item: usize) -> &'a [u8]
    ensures result_value { result.now ≡ view_bytes tx.now coins.now (view_of tx.now coins.now side «record» item) }
    ensures ref_ptr_value { result.ref_ptr ≡ view_place tx.entry.ref_ptr coins.entry.ref_ptr (view_of tx.now coins.now side «record» item) }
{
    let Some(view) = find_view(tx, coins, side, record, item) else {
        return &tx[..0];
    };
    match view.sheet {
        Sheet::Transaction => cut(tx, view.part),
        Sheet::Coins => cut(coins, view.part),
    }
}

// Whether there is such an item.
pub fn has_item(tx: &[u8], coins: &[u8], side: u8, record: usize, item: usize) -> bool
    ensures { result ≡ exists (view_of tx.now coins.now side «record» item) }
{
    find_view(tx, coins, side, record, item).is_some()
}
