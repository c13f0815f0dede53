/// How many things of each kind a machine may have.
#[derive(Clone, Copy, Debug, PartialEq, Eq)]
pub struct Limits {
    /// Fibers, main included and the clock not counted.
    pub fibers: u32,
    /// Triggers, the declared ones included.
    pub triggers: u32,
    /// Places for attachments.
    pub places: u32,
    /// Computations, the root included.
    pub comps: u32,
}

/// How many steps a fiber may make: each statement that it begins is one.
pub const STEPS: u32 = 200_000;
