// Covenants back to back, single items of a covenant, and kinds.
ghost use Rattle.std.specs.Prelude.{◌≡◌, true, false};
ghost use Rattle.covenants.specs.Kind.{is_name, is_linked, is_unspendable};
ghost use Rattle.covenants.specs.Written.{size_answer};
ghost use Rattle.covenants.specs.Items.{directory_item, seek_at, of_width, number_in};
ghost use Rattle.covenants.specs.Paper.{spot_paper, number_paper, shown_item_hash};
ghost use Rattle.runs.specs.Run.{run_said};
ghost use Rattle.runs.specs.Covenants.{default_allowance, covenant_run, covenant_step};
ghost use Rattle.runs.specs.Paper.{run_step_paper, run_end_paper};
ghost use Rattle.capi.specs.Flat.{write_flat};
ghost use Rattle.capi.specs.Items.{step_flat, run_flat, place_flat, item_flat};

use crate::sheet::ViewAnswer;
use crate::{FlatStop, WriteAnswer};
use covenants::Accepted;
use covenants::items::{Directory, find};
use covenants::kind::{is_linked, is_name, is_unspendable};
use encoding::integer::Integer;
use encoding::read::{Cursor, Span};
use primitives::NameHash;
use runs::archive::import_archive;
use runs::{Run, RunStop, read_run, read_run_with_limit};

// A covenant of a run, or how the run ended; and how many covenants there were up to here.
#[repr(C)]
#[derive(Clone, Copy)]
pub struct StepAnswer {
    pub stop: FlatStop,
    pub ended: bool,
    pub kind: u8,
    pub count: usize,
    pub used: usize,
    pub covenants: usize,
}

// How a run ended, and how many covenants it had.
#[repr(C)]
#[derive(Clone, Copy)]
pub struct RunAnswer {
    pub stop: FlatStop,
    pub covenants: usize,
}

// The number that an item spells, if it has the width.
#[repr(C)]
#[derive(Clone, Copy)]
pub struct ItemAnswer {
    pub exists: bool,
    pub value: u64,
}

fn step_answer(run: Run, step: Result<Option<(Accepted, Run)>, RunStop>) -> StepAnswer
    ensures { result ≡ step_flat (run_step_paper run.count step) }
{
    match step {
        Ok(Some((accepted, after))) => StepAnswer {
            stop: FlatStop::from(after.cursor),
            ended: false,
            kind: accepted.kind,
            count: accepted.count,
            used: accepted.used,
            covenants: after.count,
        },
        Ok(None) => StepAnswer {
            stop: FlatStop::PASSED,
            ended: true,
            kind: 0,
            count: 0,
            used: 0,
            covenants: run.count,
        },
        Err(refused) => StepAnswer {
            stop: FlatStop::from(refused.stop),
            ended: false,
            kind: 0,
            count: 0,
            used: 0,
            covenants: refused.count,
        },
    }
}

impl From<Result<usize, RunStop>> for RunAnswer {
    ghost from_gives = { λ end flat. flat ≡ run_flat (run_end_paper end) };

    fn from(end: Result<usize, RunStop>) -> RunAnswer {
        match end {
            Ok(covenants) => RunAnswer {
                stop: FlatStop::PASSED,
                covenants,
            },
            Err(refused) => RunAnswer {
                stop: FlatStop::from(refused.stop),
                covenants: refused.count,
            },
        }
    }
}

impl From<Option<Span>> for ViewAnswer {
    ghost from_gives = { λ item flat. flat ≡ place_flat (spot_paper item) };

    fn from(item: Option<Span>) -> ViewAnswer {
        match item {
            Some(part) => ViewAnswer {
                exists: true,
                offset: part.start,
                length: part.len,
            },
            None => ViewAnswer {
                exists: false,
                offset: 0,
                length: 0,
            },
        }
    }
}

impl<T: Integer> From<Option<T>> for ItemAnswer {
    ghost from_gives = { λ item flat. flat ≡ item_flat (number_paper T.number item) };

    fn from(item: Option<T>) -> ItemAnswer {
        match item {
            Some(number) => ItemAnswer {
                exists: true,
                value: number.into_u64(),
            },
            None => ItemAnswer {
                exists: false,
                value: 0,
            },
        }
    }
}

// ---- runs

pub fn turgamysk_covenant_run_next(source: &[u8], position: usize, count: usize) -> StepAnswer
    ensures { result ≡ step_flat (covenant_step default_allowance source.now position count) }
{
    let run = Run {
        cursor: Cursor { position },
        count,
    };
    step_answer(run, run.next(source))
}

pub fn turgamysk_covenant_run_next_with_limit(
    source: &[u8],
    limit: usize,
    position: usize,
    count: usize,
) -> StepAnswer
    ensures { result ≡ step_flat (covenant_step limit source.now position count) }
{
    let run = Run {
        cursor: Cursor { position },
        count,
    };
    step_answer(run, run.next_with_limit(source, limit))
}

pub fn turgamysk_covenant_read_run(source: &[u8]) -> RunAnswer
    ensures { result ≡ run_flat (run_said (covenant_run default_allowance source.now)) }
{
    RunAnswer::from(read_run(source))
}

pub fn turgamysk_covenant_read_run_with_limit(source: &[u8], limit: usize) -> RunAnswer
    ensures { result ≡ run_flat (run_said (covenant_run limit source.now)) }
{
    RunAnswer::from(read_run_with_limit(source, limit))
}

pub fn turgamysk_covenant_import_archive(source: &[u8]) -> RunAnswer
    ensures { result ≡ run_flat (run_said (covenant_run default_allowance source.now)) }
{
    RunAnswer::from(import_archive(source))
}

// ---- items

pub fn turgamysk_covenant_find(source: &[u8], position: usize, index: usize) -> ViewAnswer
    ensures { result ≡ place_flat (seek_at source.now position index) }
{
    ViewAnswer::from(find(Cursor { position }, source, index))
}

pub fn turgamysk_covenant_item<'a>(
    source: &'a [u8],
    starts: &'a [usize; 1000],
    lens: &'a [usize; 1000],
    count: usize,
    index: usize,
) -> ViewAnswer
    ensures { result ≡ place_flat (directory_item source.now starts.now lens.now count index) }
{
    let directory = Directory {
        source,
        starts,
        lens,
        count,
    };
    ViewAnswer::from(directory.item(index))
}

pub fn turgamysk_covenant_item_u8<'a>(
    source: &'a [u8],
    starts: &'a [usize; 1000],
    lens: &'a [usize; 1000],
    count: usize,
    index: usize,
) -> ItemAnswer
    ensures { result ≡ item_flat (number_in 1 source.now (directory_item source.now starts.now lens.now count index)) }
{
    let directory = Directory {
        source,
        starts,
        lens,
        count,
    };
    ItemAnswer::from(directory.item_number::<u8>(index))
}

pub fn turgamysk_covenant_item_u32<'a>(
    source: &'a [u8],
    starts: &'a [usize; 1000],
    lens: &'a [usize; 1000],
    count: usize,
    index: usize,
) -> ItemAnswer
    ensures { result ≡ item_flat (number_in 4 source.now (directory_item source.now starts.now lens.now count index)) }
{
    let directory = Directory {
        source,
        starts,
        lens,
        count,
    };
    ItemAnswer::from(directory.item_number::<u32>(index))
}

pub fn turgamysk_covenant_item_u64<'a>(
    source: &'a [u8],
    starts: &'a [usize; 1000],
    lens: &'a [usize; 1000],
    count: usize,
    index: usize,
) -> ItemAnswer
    ensures { result ≡ item_flat (number_in 8 source.now (directory_item source.now starts.now lens.now count index)) }
{
    let directory = Directory {
        source,
        starts,
        lens,
        count,
    };
    ItemAnswer::from(directory.item_number::<u64>(index))
}

pub fn turgamysk_covenant_item_name_hash<'a>(
    source: &'a [u8],
    starts: &'a [usize; 1000],
    lens: &'a [usize; 1000],
    count: usize,
    index: usize,
    hash: &mut [u8; 32],
) -> bool
    ensures value { result ≡ (shown_item_hash (of_width 32 source.now (directory_item source.now starts.now lens.now count index))).0 }
    ensures hash_after { hash.new ≡ (shown_item_hash (of_width 32 source.now (directory_item source.now starts.now lens.now count index))).1 }
{
    let directory = Directory {
        source,
        starts,
        lens,
        count,
    };
    let found = directory.item_name_hash(index);
    let NameHash(bytes) = found.unwrap_or(NameHash([0; 32]));
    *hash = bytes;
    found.is_some()
}

pub fn turgamysk_covenant_encoded_size<'a>(
    source: &'a [u8],
    starts: &'a [usize; 1000],
    lens: &'a [usize; 1000],
    count: usize,
) -> WriteAnswer
    ensures { result ≡ write_flat (size_answer source.now starts.now lens.now count) }
{
    let directory = Directory {
        source,
        starts,
        lens,
        count,
    };
    WriteAnswer::from(directory.encoded_size())
}

// ---- kinds

pub fn turgamysk_is_name(kind: u8) -> bool
    ensures { result ≡ is_name kind }
{
    is_name(kind)
}

pub fn turgamysk_is_linked(kind: u8) -> bool
    ensures { result ≡ is_linked kind }
{
    is_linked(kind)
}

pub fn turgamysk_is_unspendable(kind: u8) -> bool
    ensures { result ≡ is_unspendable kind }
{
    is_unspendable(kind)
}
