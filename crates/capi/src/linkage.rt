// The link verifier over two sheets.
ghost use Rattle.std.specs.Prelude.{◌≡◌};
ghost use Rattle.links.specs.Verify.{verify_of};
ghost use Rattle.links.specs.Paper.{verified_paper};
ghost use Rattle.capi.specs.Linkage.{links_flat};

use crate::FlatStop;
use links::{CovenantLinkSummary, LinkStop, verify_covenant_links};
use primitives::Outpoint;

// The summary, or the refusal, with the side where it is a sheet's, and with both outpoints of 12.
#[repr(C)]
#[derive(Clone, Copy)]
pub struct LinksAnswer {
    pub stop: FlatStop,
    pub side: u8,
    pub inputs_checked: usize,
    pub linked_outputs: usize,
    pub name_inputs: usize,
    pub expected: Outpoint,
    pub actual: Outpoint,
}

impl From<Result<CovenantLinkSummary, LinkStop>> for LinksAnswer {
    ghost from_gives = { λ verified flat. flat ≡ links_flat (verified_paper verified) };

    fn from(verified: Result<CovenantLinkSummary, LinkStop>) -> LinksAnswer {
        match verified {
            Ok(summary) => LinksAnswer {
                stop: FlatStop::PASSED,
                side: 0,
                inputs_checked: summary.inputs_checked,
                linked_outputs: summary.linked_outputs,
                name_inputs: summary.name_inputs,
                expected: Outpoint::NONE,
                actual: Outpoint::NONE,
            },
            Err(refused) => LinksAnswer {
                stop: FlatStop::from(refused.refusal),
                side: refused.side,
                inputs_checked: 0,
                linked_outputs: 0,
                name_inputs: 0,
                expected: refused.expected,
                actual: refused.actual,
            },
        }
    }
}

pub fn turgamysk_verify_covenant_links(tx: &[u8], coins: &[u8]) -> LinksAnswer
    ensures { result ≡ links_flat (verify_of tx.now coins.now) }
{
    LinksAnswer::from(verify_covenant_links(tx, coins))
}
