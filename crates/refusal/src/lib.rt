// Why something was refused: document 01's table, one variant for each number, in its order.
#![tactic(auto)]

ghost use Rattle.std.specs.Prelude.{◌≡◌, [], ◌∷◌};
ghost use Rattle.refusal.specs.Outcome.{refused_by};
ghost use Rattle.refusal.specs.Paper.{number_of, carried, shown_carried, judgement_paper};

// The names and the carried numbers are the table's. The outpoints of 12 stand beside the refusal, in the verifier's
// own error, so that every other answer is small.
#[derive(Clone, Copy, PartialEq, Eq)]
pub enum Refusal {
    UnexpectedEnd { offset: usize, needed: usize },
    LengthExceedsBound { actual: usize, maximum: usize },
    TrailingBytes { remaining: usize },
    InvalidValue { width: u8 },
    TooLarge { actual: usize, maximum: usize },
    InvalidName,
    InvalidNameState { reason: u8 },
    NonCanonicalNameState,
    NameStateHashMismatch,
    CoinbaseRequiresIssuanceVerifier,
    InputCountMismatch { transaction: usize, coins: usize },
    CoinOutpointMismatch { input: usize },
    MissingLinkedOutput { input: usize, kind: u8 },
    InvalidTransition { input: usize, from: u8, to: u8 },
    MalformedCovenant { input: usize, field: u8 },
    NameHashMismatch { input: usize },
    StartHeightMismatch { input: usize },
    BlindCommitmentMismatch { input: usize },
    BidValueInflation { input: usize },
    ClaimCannotRedeem { input: usize },
    AddressMismatch { input: usize },
    LockedValueMismatch { input: usize },
    TransferDestinationMismatch { input: usize },
    RevokedCoinSpent { input: usize },
    UnknownCovenantCreatesName { input: usize, to: u8 },
    UnpairedLinkedOutput { output: usize, kind: u8 },
    SheetField { side: u8, offset: usize },
    SheetTooLong { side: u8, length: usize },
    NoRoom { needed: usize },
    BadItem { item: usize },
}

// The error of a read: the refusal, and the position where the reader then stands.
#[derive(Clone, Copy, PartialEq, Eq)]
pub struct Stop {
    pub refusal: Refusal,
    pub position: usize,
}

// The refusal's number in document 01's table.
pub fn number(r: Refusal) -> u8
    ensures { result ≡ number_of r }
{
    match r {
        Refusal::UnexpectedEnd { .. } => 1,
        Refusal::LengthExceedsBound { .. } => 2,
        Refusal::TrailingBytes { .. } => 3,
        Refusal::InvalidValue { .. } => 4,
        Refusal::TooLarge { .. } => 5,
        Refusal::InvalidName => 6,
        Refusal::InvalidNameState { .. } => 7,
        Refusal::NonCanonicalNameState => 8,
        Refusal::NameStateHashMismatch => 9,
        Refusal::CoinbaseRequiresIssuanceVerifier => 10,
        Refusal::InputCountMismatch { .. } => 11,
        Refusal::CoinOutpointMismatch { .. } => 12,
        Refusal::MissingLinkedOutput { .. } => 13,
        Refusal::InvalidTransition { .. } => 14,
        Refusal::MalformedCovenant { .. } => 15,
        Refusal::NameHashMismatch { .. } => 16,
        Refusal::StartHeightMismatch { .. } => 17,
        Refusal::BlindCommitmentMismatch { .. } => 18,
        Refusal::BidValueInflation { .. } => 19,
        Refusal::ClaimCannotRedeem { .. } => 20,
        Refusal::AddressMismatch { .. } => 21,
        Refusal::LockedValueMismatch { .. } => 22,
        Refusal::TransferDestinationMismatch { .. } => 23,
        Refusal::RevokedCoinSpent { .. } => 24,
        Refusal::UnknownCovenantCreatesName { .. } => 25,
        Refusal::UnpairedLinkedOutput { .. } => 26,
        Refusal::SheetField { .. } => 27,
        Refusal::SheetTooLong { .. } => 28,
        Refusal::NoRoom { .. } => 29,
        Refusal::BadItem { .. } => 30,
    }
}

// The refusal's number, 0 where there is none.
pub fn judgement_number(judgement: Result<(), Refusal>) -> u8
    ensures { result ≡ refused_by (judgement_paper judgement) }
{
    judgement.map_or_else(number, |_| 0)
}

// What a refusal carries, in the table's order; zeros where it carries less.
#[derive(Clone, Copy)]
pub struct Carried {
    pub first: usize,
    pub second: usize,
    pub third: usize,
}

pub fn carried_by(r: Refusal) -> Carried
    ensures { result ≡ shown_carried (carried r) }
{
    match r {
        Refusal::UnexpectedEnd { offset, needed } => three(offset, needed, 0),
        Refusal::LengthExceedsBound { actual, maximum } => three(actual, maximum, 0),
        Refusal::TrailingBytes { remaining } => three(remaining, 0, 0),
        Refusal::InvalidValue { width } => three(width as usize, 0, 0),
        Refusal::TooLarge { actual, maximum } => three(actual, maximum, 0),
        Refusal::InvalidName => three(0, 0, 0),
        Refusal::InvalidNameState { reason } => three(reason as usize, 0, 0),
        Refusal::NonCanonicalNameState => three(0, 0, 0),
        Refusal::NameStateHashMismatch => three(0, 0, 0),
        Refusal::CoinbaseRequiresIssuanceVerifier => three(0, 0, 0),
        Refusal::InputCountMismatch { transaction, coins } => three(transaction, coins, 0),
        Refusal::CoinOutpointMismatch { input } => three(input, 0, 0),
        Refusal::MissingLinkedOutput { input, kind } => three(input, kind as usize, 0),
        Refusal::InvalidTransition { input, from, to } => three(input, from as usize, to as usize),
        Refusal::MalformedCovenant { input, field } => three(input, field as usize, 0),
        Refusal::NameHashMismatch { input } => three(input, 0, 0),
        Refusal::StartHeightMismatch { input } => three(input, 0, 0),
        Refusal::BlindCommitmentMismatch { input } => three(input, 0, 0),
        Refusal::BidValueInflation { input } => three(input, 0, 0),
        Refusal::ClaimCannotRedeem { input } => three(input, 0, 0),
        Refusal::AddressMismatch { input } => three(input, 0, 0),
        Refusal::LockedValueMismatch { input } => three(input, 0, 0),
        Refusal::TransferDestinationMismatch { input } => three(input, 0, 0),
        Refusal::RevokedCoinSpent { input } => three(input, 0, 0),
        Refusal::UnknownCovenantCreatesName { input, to } => three(input, to as usize, 0),
        Refusal::UnpairedLinkedOutput { output, kind } => three(output, kind as usize, 0),
        Refusal::SheetField { side, offset } => three(side as usize, offset, 0),
        Refusal::SheetTooLong { side, length } => three(side as usize, length, 0),
        Refusal::NoRoom { needed } => three(needed, 0, 0),
        Refusal::BadItem { item } => three(item, 0, 0),
    }
}

fn three(first: usize, second: usize, third: usize) -> Carried
    ensures { result ≡ shown_carried (first ∷ second ∷ third ∷ []) }
{
    Carried {
        first,
        second,
        third,
    }
}
