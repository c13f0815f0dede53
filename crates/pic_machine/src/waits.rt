use pic_base::{CompNo, PlaceNo, TriggerNo};

/// Under what a fiber waits: its current computation, and whether it is told of the cancellation of that
/// (Picos: `Fiber.has_forbidden`).
#[derive(Clone, Copy, Debug, PartialEq, Eq)]
pub struct Standing {
    pub current: CompNo,
    pub permitted: bool,
}

/// What a wait that is under way has made, and how far it is.
#[derive(Clone, Copy, Debug, PartialEq, Eq)]
pub struct Parts {
    pub trigger: Option<TriggerNo>,
    /// The place at which the trigger is attached to the current computation.
    pub place: Option<PlaceNo>,
    /// A second place, of a wait that attaches the trigger elsewhere too.
    pub second: Option<PlaceNo>,
    pub at: u8,
}
