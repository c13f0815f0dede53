//! How things are numbered. Each kind of thing is numbered on its own, without gaps.

/// A value that scripts compute with, and the code of a cancellation.
pub type Value = u32;

/// The number of a fiber: 0 is the clock, 1 is main, and later fibers are numbered as they are made.
pub type FiberNo = u32;

/// The number of a computation, from 0: the root, then the declared ones in order.
pub type CompNo = u32;

/// The number of a trigger, from 0: the declared ones in order, then those that fibers make.
pub type TriggerNo = u32;

/// The number of a place for an attachment, from 0, as fibers make them.
pub type PlaceNo = u32;
