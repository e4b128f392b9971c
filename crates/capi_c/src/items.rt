// Covenants back to back, single items of a covenant, and kinds.
ghost use Rattle.std.specs.Prelude.{◌≡◌};
ghost use Rattle.covenants.specs.Kind.{is_name, is_linked, is_unspendable};
ghost use Rattle.covenants.specs.Written.{size_answer};
ghost use Rattle.covenants.specs.Items.{directory_item, seek_at, of_width, number_in};
ghost use Rattle.covenants.specs.Paper.{shown_item_hash};
ghost use Rattle.runs.specs.Run.{run_said};
ghost use Rattle.runs.specs.Covenants.{default_allowance, covenant_run, covenant_step};
ghost use Rattle.capi.specs.Flat.{write_flat};
ghost use Rattle.capi.specs.Items.{step_flat, run_flat, place_flat, item_flat};

use capi::WriteAnswer;
use capi::items::{ItemAnswer, RunAnswer, StepAnswer};
use capi::sheet::ViewAnswer;

#[unsafe(no_mangle)]
pub extern "C" fn turgamysk_covenant_run_next(
    source: &[u8],
    position: usize,
    count: usize,
) -> StepAnswer
    ensures { result ≡ step_flat (covenant_step default_allowance source.now position count) }
{
    capi::items::turgamysk_covenant_run_next(source, position, count)
}

#[unsafe(no_mangle)]
pub extern "C" fn turgamysk_covenant_run_next_with_limit(
    source: &[u8],
    limit: usize,
    position: usize,
    count: usize,
) -> StepAnswer
    ensures { result ≡ step_flat (covenant_step limit source.now position count) }
{
    capi::items::turgamysk_covenant_run_next_with_limit(source, limit, position, count)
}

#[unsafe(no_mangle)]
pub extern "C" fn turgamysk_covenant_read_run(source: &[u8]) -> RunAnswer
    ensures { result ≡ run_flat (run_said (covenant_run default_allowance source.now)) }
{
    capi::items::turgamysk_covenant_read_run(source)
}

#[unsafe(no_mangle)]
pub extern "C" fn turgamysk_covenant_read_run_with_limit(source: &[u8], limit: usize) -> RunAnswer
    ensures { result ≡ run_flat (run_said (covenant_run limit source.now)) }
{
    capi::items::turgamysk_covenant_read_run_with_limit(source, limit)
}

#[unsafe(no_mangle)]
pub extern "C" fn turgamysk_covenant_import_archive(source: &[u8]) -> RunAnswer
    ensures { result ≡ run_flat (run_said (covenant_run default_allowance source.now)) }
{
    capi::items::turgamysk_covenant_import_archive(source)
}

#[unsafe(no_mangle)]
pub extern "C" fn turgamysk_covenant_find(
    source: &[u8],
    position: usize,
    index: usize,
) -> ViewAnswer
    ensures { result ≡ place_flat (seek_at source.now position index) }
{
    capi::items::turgamysk_covenant_find(source, position, index)
}

#[unsafe(no_mangle)]
pub extern "C" fn turgamysk_covenant_item<'a>(
    source: &'a [u8],
    starts: &'a [usize; 1000],
    lens: &'a [usize; 1000],
    count: usize,
    index: usize,
) -> ViewAnswer
    ensures { result ≡ place_flat (directory_item source.now starts.now lens.now count index) }
{
    capi::items::turgamysk_covenant_item(source, starts, lens, count, index)
}

#[unsafe(no_mangle)]
pub extern "C" fn turgamysk_covenant_item_u8<'a>(
    source: &'a [u8],
    starts: &'a [usize; 1000],
    lens: &'a [usize; 1000],
    count: usize,
    index: usize,
) -> ItemAnswer
    ensures { result ≡ item_flat (number_in 1 source.now (directory_item source.now starts.now lens.now count index)) }
{
    capi::items::turgamysk_covenant_item_u8(source, starts, lens, count, index)
}

#[unsafe(no_mangle)]
pub extern "C" fn turgamysk_covenant_item_u32<'a>(
    source: &'a [u8],
    starts: &'a [usize; 1000],
    lens: &'a [usize; 1000],
    count: usize,
    index: usize,
) -> ItemAnswer
    ensures { result ≡ item_flat (number_in 4 source.now (directory_item source.now starts.now lens.now count index)) }
{
    capi::items::turgamysk_covenant_item_u32(source, starts, lens, count, index)
}

#[unsafe(no_mangle)]
pub extern "C" fn turgamysk_covenant_item_u64<'a>(
    source: &'a [u8],
    starts: &'a [usize; 1000],
    lens: &'a [usize; 1000],
    count: usize,
    index: usize,
) -> ItemAnswer
    ensures { result ≡ item_flat (number_in 8 source.now (directory_item source.now starts.now lens.now count index)) }
{
    capi::items::turgamysk_covenant_item_u64(source, starts, lens, count, index)
}

#[unsafe(no_mangle)]
pub extern "C" fn turgamysk_covenant_item_name_hash<'a>(
    source: &'a [u8],
    starts: &'a [usize; 1000],
    lens: &'a [usize; 1000],
    count: usize,
    index: usize,
    hash: &mut [u8; 32],
) -> bool
    ensures value { result ≡ (shown_item_hash (of_width 32 source.now (directory_item source.now starts.now lens.now count index))).0 }
    ensures hash_after { hash.new ≡ (shown_item_hash (of_width 32 source.now (directory_item source.now starts.now lens.now count index))).1 }
{
    capi::items::turgamysk_covenant_item_name_hash(source, starts, lens, count, index, hash)
}

#[unsafe(no_mangle)]
pub extern "C" fn turgamysk_covenant_encoded_size<'a>(
    source: &'a [u8],
    starts: &'a [usize; 1000],
    lens: &'a [usize; 1000],
    count: usize,
) -> WriteAnswer
    ensures { result ≡ write_flat (size_answer source.now starts.now lens.now count) }
{
    capi::items::turgamysk_covenant_encoded_size(source, starts, lens, count)
}

#[unsafe(no_mangle)]
pub extern "C" fn turgamysk_is_name(kind: u8) -> bool
    ensures { result ≡ is_name kind }
{
    capi::items::turgamysk_is_name(kind)
}

#[unsafe(no_mangle)]
pub extern "C" fn turgamysk_is_linked(kind: u8) -> bool
    ensures { result ≡ is_linked kind }
{
    capi::items::turgamysk_is_linked(kind)
}

#[unsafe(no_mangle)]
pub extern "C" fn turgamysk_is_unspendable(kind: u8) -> bool
    ensures { result ≡ is_unspendable kind }
{
    capi::items::turgamysk_is_unspendable(kind)
}
