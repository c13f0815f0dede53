//! How much a script has of what is limited.
/// How much of each kind a script has so far. Objects are all that is declared but triggers and
/// computations; leaves are the events of the last select.
#[derive(Clone, Copy)]
pub struct Counts {
    pub triggers: u32,
    pub comps: u32,
    pub objects: u32,
    pub statements: u32,
    pub leaves: u32,
}
