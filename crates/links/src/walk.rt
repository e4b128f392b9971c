// The walk over two sheets that were judged: each input with its coin and its partner, in step, and then the outputs
// past them.
ghost use Rattle.std.specs.Prelude.{◌≡◌, ◌+◌, ◌*◌, ◌≤◌, ◌<◌, ◌^◌, length};
ghost use Rattle.primitives.specs.Outpoints.{shown_outpoint};
ghost use Rattle.sheets.specs.Sheet.{input_at};
ghost use Rattle.links.specs.Rules.{linked, differs, unpaired, rule, links_from};
ghost use Rattle.links.specs.Verify.{answer_of};
ghost use Rattle.links.specs.Paper.{stop_answer, verified_paper};
ghost use Rattle.links.specs.Workers.{inputs_in, outputs_in, coins_in, Outputs, Sheets, partner_at, turn_at, Ahead};

use crate::rows::{Next, Turn, finish_row, row};
use crate::{CovenantLinkSummary, LinkStop};
use checks::{pair_of, unequal};
use covenants::kind::{is_linked, is_name};
use encoding::read::Cursor;
use primitives::Outpoint;
use refusal::Refusal;
use sheets::{Place, VERSION, gap_of, input_at, place_at};

// An input's partner, the output of the same index, if there is one, and where the next output stands.
#[derive(Clone, Copy)]
struct Beside {
    partner: Option<Place>,
    next: usize,
}

// The outpoint of an input or a coin, zeros where there is none.
pub(crate) fn outpoint_at(s: &[u8], at: usize) -> Outpoint
    ensures { result ≡ (shown_outpoint (input_at s.now at)).1 }
{
    match input_at(Cursor { position: at }, s) {
        Ok((outpoint, _)) => outpoint,
        // Never reached from the walk: the sheet was judged whole, so every outpoint can be read again.
        Err(_) => Outpoint::NONE,
    }
}

// The coin of an input has another outpoint.
fn mismatch(input: usize, expected: Outpoint, actual: Outpoint) -> LinkStop
    ensures { stop_answer result ≡ answer_of (differs input expected actual) }
{
    LinkStop {
        refusal: Refusal::CoinOutpointMismatch { input },
        side: 0,
        expected,
        actual,
    }
}

// The partner, where outputs are left.
fn partner_at(tx: &[u8], at: usize, left: usize) -> Beside
    ensures { result ≡ partner_at left tx.now at }
{
    let nobody = Beside {
        partner: None,
        next: at,
    };
    if left == 0 {
        return nobody;
    }
    match place_at(Cursor { position: at }, tx, 0) {
        Ok((made, next)) => Beside {
            partner: Some(made),
            next: next.position,
        },
        // Never reached from the walk: the sheet was judged whole, so every output that is left can be read again.
        Err(_) => nobody,
    }
}

// One input, its outpoint apart, up to name and start: its coin stands at `coin`, the partner at `output`.
fn start_row(
    tx: &[u8],
    coins: &[u8],
    input: usize,
    coin: usize,
    output: usize,
    left: usize,
) -> Result<Turn, Refusal>
    requires { coin + 36 ≤ length coins.now }
    ensures { Ahead tx.now coins.now input (turn_at tx.now coins.now input coin output left) result }
{
    let place = Cursor {
        position: coin + 36 + gap_of(VERSION),
    };
    // Never refused from the walk: the sheet was judged whole, so every coin can be read again.
    let (spent, after) = place_at(place, coins, 1).map_err(|stop| stop.refusal)?;
    let beside = partner_at(tx, output, left);
    let next = Next {
        coin: after.position,
        output: beside.next,
    };
    row(tx, coins, input, spent, beside.partner, next)
}

// The outputs past the inputs: kinds 4 to 11 are refused, Claim passes.
fn trailing(
    tx: &[u8],
    at: usize,
    n: usize,
    left: usize,
    linked_outputs: usize,
    name_inputs: usize,
) -> Result<CovenantLinkSummary, LinkStop>
    requires { (n + left < 2 ^ 64) × Outputs tx.now left at }
    ensures { verified_paper result ≡ answer_of (unpaired n (linked n linked_outputs name_inputs) (outputs_in tx.now left at)) }
{
    let mut c = Cursor { position: at };
    for k in 0..left {
        // Never refused: the sheet was judged whole, so every output that is left can be read again.
        let (made, next) = place_at(c, tx, 0).map_err(|stop| stop.refusal)?;
        if is_linked(made.kind) {
            return Err(LinkStop::from(Refusal::UnpairedLinkedOutput {
                output: n + k,
                kind: made.kind,
            }));
        }
        c = next;
    }
    Ok(CovenantLinkSummary {
        inputs_checked: n,
        linked_outputs,
        name_inputs,
    })
}

// The inputs in order, each fully before the next: a head has 4 bytes, an outpoint 36. Of each its outpoint, its row up
// to name and start, items 0 and 1 of both covenants (the Rust's `require_name_and_start_match`), and the rest of its
// row. The loops over inputs, items and their bytes stand one in the other, and the first rule broken anywhere leaves
// them by the label: document 01 asks for this form, "Where each form belongs".
pub(crate) fn walk(
    tx: &[u8],
    coins: &[u8],
    n: usize,
    outputs: usize,
) -> Result<CovenantLinkSummary, LinkStop>
    requires { Sheets tx.now coins.now n outputs n }
    ensures { verified_paper result ≡ answer_of (links_from rule 0 0 0 (inputs_in tx.now n) (coins_in coins.now n) (outputs_in tx.now outputs (4 + n * 36))) }
{
    let mut input_position = 4;
    let mut coin_position = 4;
    let mut output_position = 4 + n * 36;
    let mut linked_outputs = 0;
    let mut name_inputs = 0;
    'inputs: {
        for i in 0..n {
            let left = outputs.saturating_sub(i);
            let expected = outpoint_at(tx, input_position);
            let actual = outpoint_at(coins, coin_position);
            if expected != actual {
                break 'inputs Err(mismatch(i, expected, actual));
            }
            let turn = match start_row(tx, coins, i, coin_position, output_position, left) {
                Ok(turn) => turn,
                Err(refusal) => break 'inputs Err(LinkStop::from(refusal)),
            };
            for k in turn.first..2 {
                let pair = match pair_of(turn.spent_items, turn.made_items, k) {
                    Ok(pair) => pair,
                    Err(field) => {
                        let refusal = Refusal::MalformedCovenant { input: i, field };
                        break 'inputs Err(LinkStop::from(refusal));
                    }
                };
                for j in 0..pair.width {
                    if coins[pair.spent + j] != tx[pair.created + j] {
                        break 'inputs Err(LinkStop::from(unequal(i, k)));
                    }
                }
            }
            let links = match finish_row(tx, coins, i, turn) {
                Ok(links) => links,
                Err(refusal) => break 'inputs Err(LinkStop::from(refusal)),
            };
            linked_outputs += usize::from(links);
            name_inputs += usize::from(is_name(turn.spent.kind));
            coin_position = turn.next.coin;
            output_position = turn.next.output;
            input_position += 36;
        }
        let left = outputs.saturating_sub(n);
        trailing(tx, output_position, n, left, linked_outputs, name_inputs)
    }
}
