use pic_base::{Outcome, Value};

/// Whether a wait goes on.
#[derive(Clone, Copy, Debug, PartialEq, Eq)]
pub enum Ahead {
    /// It goes on.
    Go,
    /// The fiber's current computation was cancelled with this code, and the fiber is told
    /// (Picos: the exception that `Trigger.await` returns).
    Cancelled(Value),
}

/// What comes next of a wait for a computation.
#[derive(Clone, Copy, Debug, PartialEq, Eq)]
pub enum CompAhead {
    /// The computation was completed so, and the wait is over.
    Done(Outcome),
    /// The trigger of the parts is to be armed next.
    Park,
    /// The fiber's current computation was cancelled with this code, and the fiber is told.
    Cancelled(Value),
}
