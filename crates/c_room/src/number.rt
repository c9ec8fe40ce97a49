//! Sums and products that are known where they are below 2^64.

ghost use Rattle.std.specs.Prelude.{◌≡◌};
ghost use Rattle.c_room.specs.Numbers.{fitting, greater, plus, times};

/// A number that is below 2^64.
#[tactic(auto, using(crate::proofs::Fitting::known_fits))]
pub(crate) fn known(number: u64) -> Option<u64>
    ensures { result ≡ fitting number }
{
    Some(number)
}

/// The sum of two numbers, where both and the sum are below 2^64.
#[tactic(auto, unfolding(crate::specs::Numbers::plus), using(crate::proofs::Fitting::checked))]
pub(crate) fn plus(first: Option<u64>, second: Option<u64>) -> Option<u64>
    ensures { result ≡ plus first second }
{
    match first {
        None => None,
        Some(first) => match second {
            None => None,
            Some(second) => first.checked_add(second),
        },
    }
}

/// The product of a number and another, where both and the product are below 2^64.
#[tactic(auto, unfolding(crate::specs::Numbers::times), using(crate::proofs::Fitting::checked))]
pub(crate) fn times(factor: u64, number: Option<u64>) -> Option<u64>
    ensures { result ≡ times factor number }
{
    match number {
        None => None,
        Some(number) => factor.checked_mul(number),
    }
}

/// The greater of two numbers, where both are below 2^64.
#[tactic(auto, unfolding(crate::specs::Numbers::greater))]
pub(crate) fn greater(first: Option<u64>, second: Option<u64>) -> Option<u64>
    ensures { result ≡ greater first second }
{
    match first {
        None => None,
        Some(first) => match second {
            None => None,
            Some(second) => Some(first.max(second)),
        },
    }
}
