// Sheets judged whole, their inputs and outputs read one by one, and the item viewer.
ghost use Rattle.std.specs.Prelude.{◌≡◌};
ghost use Rattle.primitives.specs.Outpoints.{shown_outpoint};
ghost use Rattle.sheets.specs.Sheet.{input_at, place_at, transaction_counts, coin_counts};
ghost use Rattle.sheets.specs.Viewer.{view_of};
ghost use Rattle.capi.specs.Reading.{outpoint_flat};
ghost use Rattle.capi.specs.Sheet.{sheet_flat, output_flat, view_flat};

use capi::sheet::{PlaceAnswer, SheetAnswer, ViewAnswer};
use capi::wire::OutpointAnswer;

#[unsafe(no_mangle)]
pub extern "C" fn turgamysk_judge_transaction(sheet: &[u8]) -> SheetAnswer
    ensures { result ≡ sheet_flat (transaction_counts sheet.now) }
{
    capi::sheet::turgamysk_judge_transaction(sheet)
}

#[unsafe(no_mangle)]
pub extern "C" fn turgamysk_judge_coins(sheet: &[u8]) -> SheetAnswer
    ensures { result ≡ sheet_flat (coin_counts sheet.now) }
{
    capi::sheet::turgamysk_judge_coins(sheet)
}

#[unsafe(no_mangle)]
pub extern "C" fn turgamysk_sheet_input_at(sheet: &[u8], position: usize) -> OutpointAnswer
    ensures { result ≡ outpoint_flat (shown_outpoint (input_at sheet.now position)) }
{
    capi::sheet::turgamysk_sheet_input_at(sheet, position)
}

#[unsafe(no_mangle)]
pub extern "C" fn turgamysk_sheet_place_at(sheet: &[u8], position: usize, side: u8) -> PlaceAnswer
    ensures { result ≡ output_flat (place_at side sheet.now position) }
{
    capi::sheet::turgamysk_sheet_place_at(sheet, position, side)
}

#[unsafe(no_mangle)]
pub extern "C" fn turgamysk_view_item(
    tx: &[u8],
    coins: &[u8],
    side: u8,
    index: usize,
    item: usize,
) -> ViewAnswer
    ensures { result ≡ view_flat (view_of tx.now coins.now side index item) }
{
    capi::sheet::turgamysk_view_item(tx, coins, side, index, item)
}
