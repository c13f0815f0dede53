//! How far a wait is, as `Parts` counts it: see `making_at` and `waiting_at` of `pic_machine`.

/// While a wait is made ready: nothing is made.
pub(crate) const NOTHING: u8 = 0;

/// The trigger is made, and its place isn't.
pub(crate) const TRIGGER: u8 = 1;

/// All that the wait needs is made.
pub(crate) const ALL: u8 = 2;

/// A limit of the machine was met.
pub(crate) const LIMIT: u8 = 3;

/// While the fiber waits: the trigger is attached.
pub(crate) const ATTACHED: u8 = 3;

/// While a fiber waits for a computation: it is to look at that.
pub(crate) const LOOKING: u8 = 0;

/// Making ready begins here, and is counted on from here.
pub(crate) const MAKING: u8 = 1;

/// All but the second place is made.
pub(crate) const ONE_PLACE: u8 = 3;

/// A limit of the machine was met.
pub(crate) const FULL: u8 = 4;

/// Waiting for the trigger is counted on from here.
pub(crate) const WAITING: u8 = 4;

/// The trigger is to be attached to the computation.
pub(crate) const PLACING: u8 = 5;

/// It is attached there, and the fiber is to wait for it.
pub(crate) const SLEEPY: u8 = 6;

/// The trigger is to be armed.
pub(crate) const ARMING: u8 = 7;

/// The fiber was told of a cancellation.
pub(crate) const TOLD: u8 = 8;

/// The trigger was armed, or was signalled.
pub(crate) const AWAKE: u8 = 9;

/// The fiber goes on, and is to look at the computation again.
pub(crate) const WOKEN: u8 = 10;
