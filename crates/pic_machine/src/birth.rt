use pic_base::{CompNo, Value};

/// What a fiber was made with. It never changes.
#[derive(Clone, Copy, Debug, PartialEq, Eq)]
pub struct Birth {
    /// The text that the fiber runs, a place among the program's texts.
    pub text: u32,
    /// The value that it was handed.
    pub value: Value,
    /// Its current computation at its first statement (Picos: `Fiber.create`).
    pub current: CompNo,
}
