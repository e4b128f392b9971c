// Sums and differences of amounts.
ghost use Rattle.std.specs.Prelude.{◌≡◌};
ghost use Rattle.primitives.specs.Units.{sum_of, difference_of};
ghost use Rattle.capi.specs.Amounts.{amount_flat};

use primitives::{ArithmeticError, Dollarydoos};

// The amount (`outcome` 0), or why there is none: 1 for an overflow, 2 for an underflow.
#[repr(C)]
#[derive(Clone, Copy)]
pub struct AmountAnswer {
    pub outcome: u8,
    pub value: u64,
}

impl From<Result<Dollarydoos, ArithmeticError>> for AmountAnswer {
    ghost from_gives = { λ sum flat. flat ≡ amount_flat sum };

    fn from(sum: Result<Dollarydoos, ArithmeticError>) -> AmountAnswer {
        match sum {
            Ok(amount) => AmountAnswer {
                outcome: 0,
                value: amount.0,
            },
            Err(ArithmeticError::Overflow) => AmountAnswer {
                outcome: 1,
                value: 0,
            },
            Err(ArithmeticError::Underflow) => AmountAnswer {
                outcome: 2,
                value: 0,
            },
        }
    }
}

pub fn turgamysk_checked_add(amount: u64, other: u64) -> AmountAnswer
    ensures { result ≡ amount_flat (sum_of (record { 0 = amount }) (record { 0 = other })) }
{
    AmountAnswer::from(Dollarydoos(amount).checked_add(Dollarydoos(other)))
}

pub fn turgamysk_checked_sub(amount: u64, other: u64) -> AmountAnswer
    ensures { result ≡ amount_flat (difference_of (record { 0 = amount }) (record { 0 = other })) }
{
    AmountAnswer::from(Dollarydoos(amount).checked_sub(Dollarydoos(other)))
}
