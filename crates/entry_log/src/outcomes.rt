//! What calls and replies with an outcome have in common.
ghost use Rattle.std.specs.Prelude.{◌≡◌};
ghost use Rattle.entry_log.specs.Outcomes.{by_outcome, outcome_number};

use pic_base::{Outcome, Value};

/// The value or the code of an outcome.
#[inline(always)]
pub(crate) fn number_of(outcome: Outcome) -> Value
    ensures { result ≡ outcome_number outcome }
{
    match outcome {
        Outcome::Returned(value) => value,
        Outcome::Cancelled(code) => code,
    }
}

/// The one kind or the other, by how the outcome came about.
#[inline(always)]
pub(crate) fn by_outcome<K: Copy>(outcome: Outcome, returned: K, cancelled: K) -> K
    ensures { result ≡ by_outcome outcome returned cancelled }
{
    match outcome {
        Outcome::Returned(_) => returned,
        Outcome::Cancelled(_) => cancelled,
    }
}
