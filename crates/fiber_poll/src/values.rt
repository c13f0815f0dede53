//! The numbers that statements compute with.
ghost use Rattle.std.specs.Prelude.{◌≡◌};
ghost use Rattle.fiber_body.specs.Context.{holds};
ghost use Rattle.fiber_body.specs.Statements.{outcome_number, state_number, won};
ghost use Rattle.fiber_body.specs.Triggers.{attached_number};

use pic_base::{Outcome, Value};
use pic_machine::{AttachReply, CompleteReply};
use script_tree::Test;

/// Whether the comparison holds.
pub(crate) fn holds(test: Test, left: Value, right: Value) -> bool
    ensures { result ≡ holds test left right }
{
    match test {
        Test::Eq => left == right,
        Test::Ne => left != right,
        Test::Lt => left < right,
        Test::Le => left <= right,
        Test::Gt => left > right,
        Test::Ge => left >= right,
    }
}

/// 1 where this call completed the computation, and else 0.
pub(crate) fn won(reply: CompleteReply) -> Value
    ensures { result ≡ won reply }
{
    match reply {
        CompleteReply::Won => 1,
        CompleteReply::Lost(_) => 0,
    }
}

/// 1 where a trigger was attached, and else 0.
pub(crate) fn attached(reply: AttachReply) -> Value
    ensures { result ≡ attached_number reply }
{
    match reply {
        AttachReply::Attached => 1,
        AttachReply::Completed(_) => 0,
    }
}

/// 0 for a running computation, 1 for a returned and 2 for a cancelled one.
pub(crate) fn state_number(seen: Option<Outcome>) -> Value
    ensures { result ≡ state_number seen }
{
    match seen {
        None => 0,
        Some(Outcome::Returned(_)) => 1,
        Some(Outcome::Cancelled(_)) => 2,
    }
}

/// The computation's value or code, 0 while it runs.
pub(crate) fn outcome_number(seen: Option<Outcome>) -> Value
    ensures { result ≡ outcome_number seen }
{
    match seen {
        None => 0,
        Some(Outcome::Returned(value)) => value,
        Some(Outcome::Cancelled(code)) => code,
    }
}
