use crate::under_way::UnderWay;
use pic_base::{Outcome, Value};

/// How statements end.
#[derive(Clone, Copy, Debug, PartialEq, Eq)]
pub enum Exit {
    /// What follows goes on.
    Next,
    /// This code was raised.
    Raised(Value),
    /// The innermost loop is to end.
    Broke,
    /// No step is left for what was to begin.
    Spent,
}

/// Where a fiber stands in its text.
#[derive(Clone, Copy, Debug, PartialEq, Eq)]
pub enum Standing {
    /// In the block with this number, before the statement with this place, or at the block's end.
    At {
        block: u32,
        place: u32,
    },
    /// Within the statement with this place, from one of its calls to the next one.
    Within {
        block: u32,
        place: u32,
        way: UnderWay,
    },
    /// Where the innermost block has ended so.
    Out(Exit),
    /// It has left its text, and is to end with this outcome.
    Ending(Outcome),
    /// It has ended.
    Ended,
}

/// What is around the place where a fiber stands, within its text.
#[derive(Clone, Copy, Debug, PartialEq, Eq)]
pub enum Frame {
    /// The block with this number, from this place on.
    Rest { block: u32, place: u32 },
    /// The exit of the block with this number, which is the body of a `loop` and runs again.
    Repeats { block: u32 },
    /// The exit of the block of a `try`: where a code is raised, the register gets it and the block
    /// `handler` runs.
    Catches { register: u8, handler: u32 },
    /// The exit of a block before which the fiber stood under this: it stands under it again.
    Restores(pic_machine::Standing),
}
