use pic_machine::{Call, Reply};

/// An entry without its fiber: what was asked of the machine, and what it answered.
#[derive(Clone, Copy, Debug, PartialEq, Eq)]
pub(crate) struct Deed {
    pub(crate) call: Call,
    pub(crate) reply: Reply,
}

/// All of a deed but its numbers.
#[derive(Clone, Copy, Debug, PartialEq, Eq)]
pub(crate) enum Kind {
    Turn,
    Yield,
    Say,
    PeekedRunning,
    PeekedReturned,
    PeekedCancelled,
    ReturnWon,
    ReturnLostReturned,
    ReturnLostCancelled,
    CancelWon,
    CancelLostReturned,
    CancelLostCancelled,
    /// Not packed: the deed is kept whole.
    Whole,
}
