// Sums and differences of amounts.
ghost use Rattle.std.specs.Prelude.{◌≡◌};
ghost use Rattle.primitives.specs.Units.{sum_of, difference_of};
ghost use Rattle.capi.specs.Amounts.{amount_flat};

use capi::amounts::AmountAnswer;

#[unsafe(no_mangle)]
pub extern "C" fn turgamysk_checked_add(amount: u64, other: u64) -> AmountAnswer
    ensures { result ≡ amount_flat (sum_of (record { 0 = amount }) (record { 0 = other })) }
{
    capi::amounts::turgamysk_checked_add(amount, other)
}

#[unsafe(no_mangle)]
pub extern "C" fn turgamysk_checked_sub(amount: u64, other: u64) -> AmountAnswer
    ensures { result ≡ amount_flat (difference_of (record { 0 = amount }) (record { 0 = other })) }
{
    capi::amounts::turgamysk_checked_sub(amount, other)
}
