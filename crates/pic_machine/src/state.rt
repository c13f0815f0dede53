use crate::attached::Attached;
use pic_base::{Action, FiberNo, Outcome, TriggerNo};

/// A trigger: at first nobody awaits it, then perhaps one does, and at last it is signalled, once and
/// for all (Picos: `Trigger`).
#[derive(Clone, Copy, Debug, PartialEq, Eq)]
pub enum TrigState {
    Initial,
    /// Somebody awaits it, on whose behalf the signal does this.
    Awaiting(Action),
    Signalled,
}

/// A computation: running, with the triggers that its completion signals, or completed once and for all
/// (Picos: `Computation`).
#[derive(Drop)]
pub enum CompState {
    Running(Attached),
    Done(Outcome),
}

/// A fiber: it can make entries, or waits for a trigger to be signalled, or has ended.
#[derive(Clone, Copy, Debug, PartialEq, Eq)]
pub enum FiberState {
    Live,
    /// It goes on once this trigger is signalled.
    Suspended(TriggerNo),
    Ended(Outcome),
}

/// How a computation was completed: by which fiber, and with which outcome.
#[derive(Clone, Copy, Debug, PartialEq, Eq)]
pub struct Completion {
    pub fiber: FiberNo,
    pub outcome: Outcome,
}
