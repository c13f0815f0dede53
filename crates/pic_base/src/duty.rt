use crate::numbers::{CompNo, TriggerNo, Value};

/// What a fiber owes after a call that others wait for: the entry that it makes next. The machine
/// lets it make no other until the duty is fulfilled.
#[derive(Clone, Copy, Debug, PartialEq, Eq)]
pub enum Duty {
    /// To signal a trigger.
    Signal(TriggerNo),
    /// To look at a computation, and where that is cancelled, to cancel the other one.
    Follow { from: CompNo, into: CompNo },
    /// To cancel a computation with this code.
    Cancel { into: CompNo, code: Value },
    /// To return the number of a branch to a computation.
    Return { into: CompNo, branch: u32 },
}
