use crate::numbers::FiberNo;

/// What the signal of a trigger does on behalf of whoever armed it (Picos: the action of
/// `Trigger.on_signal`).
#[derive(Clone, Copy, Debug, PartialEq, Eq)]
pub enum Action {
    /// Resumes the fiber, which is suspended at the trigger.
    Resume(FiberNo),
}
