// The link rules over two sheets: the Rust's `verify_covenant_links`.
#![tactic(auto)]

mod rows;
mod walk;

ghost use Rattle.std.specs.Prelude.{◌≡◌, ◌+◌, ◌*◌};
ghost use Rattle.links.specs.Rules.{coinbase, rule, links_of};
ghost use Rattle.links.specs.Verify.{answer_of, verify_of};
ghost use Rattle.links.specs.Paper.{plain_stop, verified_paper};
ghost use Rattle.links.specs.Workers.{inputs_in, outputs_in, coins_in, Inputs, Sheets};

use crate::walk::{outpoint_at, walk};
use primitives::Outpoint;
use refusal::Refusal;
use sheets::{PairCounts, SheetStop, judge_pair};

#[derive(Clone, Copy, PartialEq, Eq)]
pub struct CovenantLinkSummary {
    pub inputs_checked: usize,
    pub linked_outputs: usize,
    pub name_inputs: usize,
}

// Why links are refused: the side of a sheet that was refused, 0 where a rule was broken, and the outpoints of 12, the
// input's and the coin's, zeros else.
#[derive(Clone, Copy, PartialEq, Eq)]
pub struct LinkStop {
    pub refusal: Refusal,
    pub side: u8,
    pub expected: Outpoint,
    pub actual: Outpoint,
}

// A sheet was refused.
impl From<SheetStop> for LinkStop {
    ghost from_gives = { λ stop e. e ≡ plain_stop stop.refusal stop.side };

    fn from(stop: SheetStop) -> LinkStop {
        LinkStop {
            refusal: stop.refusal,
            side: stop.side,
            expected: Outpoint::NONE,
            actual: Outpoint::NONE,
        }
    }
}

// A rule was broken.
impl From<Refusal> for LinkStop {
    ghost from_gives = { λ refusal e. e ≡ plain_stop refusal 0 };

    fn from(refusal: Refusal) -> LinkStop {
        LinkStop::from(SheetStop { refusal, side: 0 })
    }
}

// Is the first input null?
fn is_coinbase(tx: &[u8], n: usize) -> bool
    requires { Inputs tx.now n }
    ensures { result ≡ coinbase (inputs_in tx.now n) }
{
    n != 0 && outpoint_at(tx, 4).is_null()
}

// The links of two sheets that were judged.
fn judged_links(
    tx: &[u8],
    coins: &[u8],
    counts: PairCounts,
) -> Result<CovenantLinkSummary, LinkStop>
    requires { Sheets tx.now coins.now counts.inputs counts.outputs counts.coins }
    ensures { verified_paper result ≡ answer_of (links_of rule (inputs_in tx.now counts.inputs) (outputs_in tx.now counts.outputs (4 + counts.inputs * 36)) (coins_in coins.now counts.coins)) }
{
    if is_coinbase(tx, counts.inputs) {
        return Err(LinkStop::from(Refusal::CoinbaseRequiresIssuanceVerifier));
    }
    if counts.inputs != counts.coins {
        return Err(LinkStop::from(Refusal::InputCountMismatch {
            transaction: counts.inputs,
            coins: counts.coins,
        }));
    }
    walk(tx, coins, counts.inputs, counts.outputs)
}

// Both sheets are judged, then the links.
pub fn verify_covenant_links(tx: &[u8], coins: &[u8]) -> Result<CovenantLinkSummary, LinkStop>
    ensures { verified_paper result ≡ verify_of tx.now coins.now }
{
    let counts = judge_pair(tx, coins)?;
    judged_links(tx, coins, counts)
}
