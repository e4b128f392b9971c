// One input against the rules, what is spent and its partner: what comes before "name and start", and what comes after.
// The two items themselves are compared in the walk.
ghost use Rattle.std.specs.Prelude.{◌≡◌, [], ◌∷◌};
ghost use Rattle.std.proofs.Math.Option.{some};
ghost use Rattle.refusal.specs.declared.Refusal.{Refusal};
ghost use Rattle.covenants.specs.Kind.{None, Open, Bid, Update, Renew, Transfer, Revoke, is_name};
ghost use Rattle.sheets.specs.Sheet.{address_at, output_of};
ghost use Rattle.checks.specs.Checks.{check, same_address};
ghost use Rattle.checks.specs.Paper.{step_paper, partner_of};
ghost use Rattle.links.specs.Rules.{one_of, committed, bid_rule, reveal_rule, owned_rule, transfer_rule, free_rule, unknown_rule, row_of, row_rule, rule};
ghost use Rattle.links.specs.Workers.{afterwards, gated, Gates, Alone};
ghost use Rattle.links.specs.Workers.{turned, Ahead, FreeTurn, NamedTurn, LoneTurn};

use checks::{Items, Spending, items_at, same_address};
use covenants::kind;
use encoding::read::Span;
use refusal::Refusal;
use sheets::Place;

// What is left of a row after name and start: nothing, where no output is linked or where one is; the address (21); 20;
// the commitment; the destination.
#[derive(Clone, Copy)]
pub(crate) enum Rest {
    Unlinked,
    Linked,
    Address,
    Claimed,
    Commitment,
    Destination,
}

// A row up to name and start: it is broken, or they come next and then the rest, or it passes without them.
type Gate = Result<Option<Rest>, Refusal>;

// Where the next coin and the next output stand.
#[derive(Clone, Copy)]
pub(crate) struct Next {
    pub coin: usize,
    pub output: usize,
}

// An input that stands before name and start: both outputs, items 0 and 1 of both, the first item to be compared (2
// where none is), the rest of the row, and what comes next.
#[derive(Clone, Copy)]
pub(crate) struct Turn {
    pub spent: Place,
    pub made: Place,
    pub spent_items: Items,
    pub made_items: Items,
    pub first: usize,
    pub rest: Rest,
    pub next: Next,
}

// 14, with both kinds.
fn invalid_transition(s: Spending) -> Refusal
    ensures { result ≡ Refusal.InvalidTransition s.entry.input s.entry.spent.kind s.entry.made.kind }
{
    Refusal::InvalidTransition {
        input: s.input,
        from: s.spent.kind,
        to: s.made.kind,
    }
}

// "address (21)".
fn address(s: Spending) -> Result<bool, Refusal>
    ensures { step_paper result ≡ check (same_address (address_at s.entry.coins.now s.entry.spent.address) (address_at s.entry.tx.now s.entry.made.address)) 21 (s.entry.input ∷ []) }
{
    if same_address(s.coins, s.spent.address, s.tx, s.made.address) {
        Ok(true)
    } else {
        Err(Refusal::AddressMismatch { input: s.input })
    }
}

// A bid's end: the reveal's nonce and value give the bid's commitment, and the value is not above the bid's.
fn commitment(s: Spending) -> Result<bool, Refusal>
    ensures { step_paper result ≡ committed s.entry.input (output_of s.entry.coins.now s.entry.spent) (output_of s.entry.tx.now s.entry.made) }
{
    s.opening()?;
    if s.spent.value < s.made.value {
        return Err(Refusal::BidValueInflation { input: s.input });
    }
    Ok(true)
}

// Bid: "Reveal (14); name and start; ..".
fn bid_row(s: Spending) -> Gate
    ensures { Gates bid_rule s.entry.input s.entry.spent s.entry.made result }
{
    if s.made.kind != kind::REVEAL {
        return Err(invalid_transition(s));
    }
    Ok(Some(Rest::Commitment))
}

// Claim and Reveal: "Register: name and start, address (21). Redeem: name and start, then 20 if Claim. Else 14".
fn reveal_row(s: Spending) -> Gate
    ensures { Gates reveal_rule s.entry.input s.entry.spent s.entry.made result }
{
    match s.made.kind {
        kind::REGISTER => Ok(Some(Rest::Address)),
        kind::REDEEM if s.spent.kind == kind::CLAIM => Ok(Some(Rest::Claimed)),
        kind::REDEEM => Ok(Some(Rest::Linked)),
        _ => Err(invalid_transition(s)),
    }
}

// Update, Renew, Transfer or Revoke.
fn stays(to: u8) -> bool
    ensures { result ≡ one_of to (Update ∷ Renew ∷ Transfer ∷ Revoke ∷ []) }
{
    matches!(
        to,
        kind::UPDATE | kind::RENEW | kind::TRANSFER | kind::REVOKE
    )
}

// Register, Update, Renew and Finalize: "equal value (22); address (21); .. else 14; name and start".
fn owned_row(s: Spending) -> Gate
    ensures { gated result s.entry.input (output_of s.entry.coins.now s.entry.spent) (output_of s.entry.tx.now s.entry.made) ≡ owned_rule s.entry.input (output_of s.entry.coins.now s.entry.spent) (output_of s.entry.tx.now s.entry.made) }
{
    if s.made.value != s.spent.value {
        return Err(Refusal::LockedValueMismatch { input: s.input });
    }
    if !same_address(s.coins, s.spent.address, s.tx, s.made.address) {
        return Err(Refusal::AddressMismatch { input: s.input });
    }
    if !stays(s.made.kind) {
        return Err(invalid_transition(s));
    }
    Ok(Some(Rest::Linked))
}

// Update, Renew or Revoke.
fn keeps(to: u8) -> bool
    ensures { result ≡ one_of to (Update ∷ Renew ∷ Revoke ∷ []) }
{
    matches!(to, kind::UPDATE | kind::RENEW | kind::REVOKE)
}

// Transfer: "equal value (22); Update, Renew or Revoke: name and start, address (21). Finalize: name and start, .. Else
// 14".
fn transfer_row(s: Spending) -> Gate
    ensures { Gates transfer_rule s.entry.input s.entry.spent s.entry.made result }
{
    if s.made.value != s.spent.value {
        return Err(Refusal::LockedValueMismatch { input: s.input });
    }
    if keeps(s.made.kind) {
        Ok(Some(Rest::Address))
    } else if s.made.kind == kind::FINALIZE {
        Ok(Some(Rest::Destination))
    } else {
        Err(invalid_transition(s))
    }
}

// None, Open or Bid.
fn is_free(to: u8) -> bool
    ensures { result ≡ one_of to (None ∷ Open ∷ Bid ∷ []) }
{
    matches!(to, kind::NONE | kind::OPEN | kind::BID)
}

// None, Open and Redeem, with a partner.
fn free_row(s: Spending) -> Gate
    ensures { Gates (λ i a b. free_rule i a (some b)) s.entry.input s.entry.spent s.entry.made result }
{
    if !is_free(s.made.kind) {
        return Err(invalid_transition(s));
    }
    Ok(None)
}

// 12 to 255, with a partner.
fn unknown_row(s: Spending) -> Gate
    ensures { Gates (λ i a b. unknown_rule i (some b)) s.entry.input s.entry.spent s.entry.made result }
{
    let to = s.made.kind;
    if kind::is_name(to) {
        return Err(Refusal::UnknownCovenantCreatesName { input: s.input, to });
    }
    Ok(None)
}

// The table's rows, by what is spent.
#[derive(Clone, Copy)]
enum TableRow {
    Free,
    Bid,
    Reveal,
    Owned,
    Transfer,
    Revoke,
    Unknown,
}

fn row_of(from: u8) -> TableRow
    ensures { result ≡ row_of from }
{
    match from {
        kind::NONE | kind::OPEN | kind::REDEEM => TableRow::Free,
        kind::BID => TableRow::Bid,
        kind::CLAIM | kind::REVEAL => TableRow::Reveal,
        kind::REGISTER | kind::UPDATE | kind::RENEW | kind::FINALIZE => TableRow::Owned,
        kind::TRANSFER => TableRow::Transfer,
        kind::REVOKE => TableRow::Revoke,
        _ => TableRow::Unknown,
    }
}

// An input with its partner, by the row of its spent kind: up to name and start.
fn pair_row(s: Spending, from: TableRow) -> Gate
    ensures { gated result s.entry.input (output_of s.entry.coins.now s.entry.spent) (output_of s.entry.tx.now s.entry.made) ≡ row_rule from s.entry.input (output_of s.entry.coins.now s.entry.spent) (some (output_of s.entry.tx.now s.entry.made)) }
{
    match from {
        TableRow::Free => free_row(s),
        TableRow::Bid => bid_row(s),
        TableRow::Reveal => reveal_row(s),
        TableRow::Owned => owned_row(s),
        TableRow::Transfer => transfer_row(s),
        TableRow::Revoke => Err(Refusal::RevokedCoinSpent { input: s.input }),
        TableRow::Unknown => unknown_row(s),
    }
}

// An input without a partner, by its spent kind and the row of that kind: it passes, and no output is linked, or it is
// broken, mostly by "partner (13)".
fn lone_row(input: usize, kind: u8, from: TableRow) -> Result<(), Refusal>
    ensures { Alone input kind from result }
{
    match from {
        TableRow::Free | TableRow::Unknown => Ok(()),
        TableRow::Bid | TableRow::Reveal | TableRow::Owned | TableRow::Transfer => {
            Err(Refusal::MissingLinkedOutput { input, kind })
        }
        TableRow::Revoke => Err(Refusal::RevokedCoinSpent { input }),
    }
}

// No item is compared, and no output is linked: what is spent stands where no partner is asked for.
fn free_turn(spent: Place, next: Next) -> Turn
    ensures { FreeTurn spent next.coin next.output result }
{
    let nowhere = Span { start: 0, len: 0 };
    let none = Items {
        name: nowhere,
        height: nowhere,
    };
    Turn {
        spent,
        made: spent,
        spent_items: none,
        made_items: none,
        first: 2,
        rest: Rest::Unlinked,
        next,
    }
}

// Name and start, and then the rest.
fn named_turn(s: Spending, rest: Rest, next: Next) -> Turn
    ensures { NamedTurn s.entry.tx.now s.entry.coins.now s.entry.spent s.entry.made rest next.coin next.output result }
{
    Turn {
        spent: s.spent,
        made: s.made,
        spent_items: items_at(s.coins, s.spent.covenant),
        made_items: items_at(s.tx, s.made.covenant),
        first: 0,
        rest,
        next,
    }
}

// An input with its partner.
fn paired_turn(s: Spending, next: Next) -> Result<Turn, Refusal>
    ensures { Ahead s.entry.tx.now s.entry.coins.now s.entry.input (turned (rule s.entry.input (output_of s.entry.coins.now s.entry.spent) (some (output_of s.entry.tx.now s.entry.made))) (is_name s.entry.spent.kind) next.coin next.output) result }
{
    let gate = pair_row(s, row_of(s.spent.kind))?;
    Ok(match gate {
        Some(rest) => named_turn(s, rest, next),
        None => free_turn(s.spent, next),
    })
}

// An input without a partner.
fn lone_turn(input: usize, spent: Place, next: Next) -> Result<Turn, Refusal>
    ensures { LoneTurn input spent next.coin next.output result }
{
    lone_row(input, spent.kind, row_of(spent.kind))?;
    Ok(free_turn(spent, next))
}

// An input against the row of its spent kind, up to name and start.
pub(crate) fn row(
    tx: &[u8],
    coins: &[u8],
    input: usize,
    spent: Place,
    partner: Option<Place>,
    next: Next,
) -> Result<Turn, Refusal>
    ensures { Ahead tx.now coins.now input (turned (rule input (output_of coins.now spent) (partner_of tx.now partner)) (is_name spent.kind) next.coin next.output) result }
{
    let Some(made) = partner else {
        return lone_turn(input, spent, next);
    };
    let s = Spending {
        tx,
        coins,
        input,
        spent,
        made,
    };
    paired_turn(s, next)
}

// What is left of an input's row after name and start.
pub(crate) fn finish_row(tx: &[u8], coins: &[u8], input: usize, turn: Turn) -> Result<bool, Refusal>
    ensures { step_paper result ≡ afterwards turn.rest input (output_of coins.now turn.spent) (output_of tx.now turn.made) }
{
    let s = Spending {
        tx,
        coins,
        input,
        spent: turn.spent,
        made: turn.made,
    };
    match turn.rest {
        Rest::Unlinked => Ok(false),
        Rest::Linked => Ok(true),
        Rest::Address => address(s),
        Rest::Claimed => Err(Refusal::ClaimCannotRedeem { input }),
        Rest::Commitment => commitment(s),
        Rest::Destination => s.destination(),
    }
}
