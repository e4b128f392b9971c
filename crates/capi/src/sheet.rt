// Sheets judged whole, their inputs and outputs read one by one, and the item viewer.
ghost use Rattle.std.specs.Prelude.{◌≡◌};
ghost use Rattle.primitives.specs.Outpoints.{shown_outpoint};
ghost use Rattle.sheets.specs.Sheet.{input_at, place_at, transaction_counts, coin_counts};
ghost use Rattle.sheets.specs.Viewer.{view_of};
ghost use Rattle.encoding.specs.Paper.{read_paper};
ghost use Rattle.sheets.specs.Paper.{sheet_paper, view_paper};
ghost use Rattle.capi.specs.Reading.{outpoint_flat};
ghost use Rattle.capi.specs.Sheet.{sheet_flat, output_flat, view_flat};

use crate::FlatStop;
use crate::wire::OutpointAnswer;
use encoding::read::{Cursor, Read};
use sheets::viewer::{View, find_view};
use sheets::{Counts, Place, SheetStop, input_at, judge_coins, judge_transaction, place_at};

// How many inputs (or coins) and outputs a sheet has, or the refusal and which sheet that is.
#[repr(C)]
#[derive(Clone, Copy)]
pub struct SheetAnswer {
    pub stop: FlatStop,
    pub side: u8,
    pub inputs: usize,
    pub outputs: usize,
}

// An output that was read: its value, its address's version and where the address's bytes stand, where its covenant
// begins, and its kind. Or the refusal.
#[repr(C)]
#[derive(Clone, Copy)]
pub struct PlaceAnswer {
    pub stop: FlatStop,
    pub value: u64,
    pub version: u8,
    pub start: usize,
    pub size: usize,
    pub covenant: usize,
    pub kind: u8,
}

// Where an item stands in the sheet of its side.
#[repr(C)]
#[derive(Clone, Copy)]
pub struct ViewAnswer {
    pub exists: bool,
    pub offset: usize,
    pub length: usize,
}

impl From<Result<Counts, SheetStop>> for SheetAnswer {
    ghost from_gives = { λ judged flat. flat ≡ sheet_flat (sheet_paper judged) };

    fn from(judged: Result<Counts, SheetStop>) -> SheetAnswer {
        match judged {
            Ok(counts) => SheetAnswer {
                stop: FlatStop::PASSED,
                side: 0,
                inputs: counts.inputs,
                outputs: counts.outputs,
            },
            Err(refused) => SheetAnswer {
                stop: FlatStop::from(refused.refusal),
                side: refused.side,
                inputs: 0,
                outputs: 0,
            },
        }
    }
}

impl From<Read<Place>> for PlaceAnswer {
    ghost from_gives = { λ read flat. flat ≡ output_flat (read_paper read) };

    fn from(read: Read<Place>) -> PlaceAnswer {
        match read {
            Ok((place, next)) => PlaceAnswer {
                stop: FlatStop::from(next),
                value: place.value.0,
                version: place.address.version,
                start: place.address.start,
                size: place.address.len,
                covenant: place.covenant,
                kind: place.kind,
            },
            Err(stop) => PlaceAnswer {
                stop: FlatStop::from(stop),
                value: 0,
                version: 0,
                start: 0,
                size: 0,
                covenant: 0,
                kind: 0,
            },
        }
    }
}

impl From<Option<View>> for ViewAnswer {
    ghost from_gives = { λ view flat. flat ≡ view_flat (view_paper view) };

    fn from(view: Option<View>) -> ViewAnswer {
        match view {
            Some(View { part, .. }) => ViewAnswer {
                exists: true,
                offset: part.start,
                length: part.len,
            },
            None => ViewAnswer {
                exists: false,
                offset: 0,
                length: 0,
            },
        }
    }
}

pub fn turgamysk_judge_transaction(sheet: &[u8]) -> SheetAnswer
    ensures { result ≡ sheet_flat (transaction_counts sheet.now) }
{
    SheetAnswer::from(judge_transaction(sheet))
}

pub fn turgamysk_judge_coins(sheet: &[u8]) -> SheetAnswer
    ensures { result ≡ sheet_flat (coin_counts sheet.now) }
{
    SheetAnswer::from(judge_coins(sheet))
}

pub fn turgamysk_sheet_input_at(sheet: &[u8], position: usize) -> OutpointAnswer
    ensures { result ≡ outpoint_flat (shown_outpoint (input_at sheet.now position)) }
{
    OutpointAnswer::from(input_at(Cursor { position }, sheet))
}

pub fn turgamysk_sheet_place_at(sheet: &[u8], position: usize, side: u8) -> PlaceAnswer
    ensures { result ≡ output_flat (place_at side sheet.now position) }
{
    PlaceAnswer::from(place_at(Cursor { position }, sheet, side))
}

pub fn turgamysk_view_item(
    tx: &[u8],
    coins: &[u8],
    side: u8,
    index: usize,
    item: usize,
) -> ViewAnswer
    ensures { result ≡ view_flat (view_of tx.now coins.now side index item) }
{
    ViewAnswer::from(find_view(tx, coins, side, index, item))
}
