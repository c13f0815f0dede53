//! What is answered for a text that gives no program.
use pic_base::Memory;
use std::alloc::AllocError;

/// The first fault of a script: the line, from 1, and the number of its cause, 1 to 14. A fault at
/// the end of the file has the number of lines plus one.
#[derive(Clone, Copy, Debug, PartialEq, Eq)]
pub struct Refused {
    pub line: u32,
    pub cause: u8,
}

/// Why a text gave no program.
#[derive(Clone, Copy, Debug, PartialEq, Eq)]
pub enum ParseRefusal {
    /// The text is no script.
    Refused(Refused),
    /// Memory was wanted and there was none.
    Memory,
}

impl From<Memory> for ParseRefusal {
    ghost use Rattle.std.specs.Prelude.{◌≡◌};
    ghost use Rattle.script_tree.specs.declared.refusal.ParseRefusal.TheVariants as parse_refusal;

    ghost from_gives = { λ _ e. e ≡ parse_refusal.Memory };

    fn from(_memory: Memory) -> ParseRefusal {
        ParseRefusal::Memory
    }
}

impl From<AllocError> for ParseRefusal {
    ghost use Rattle.std.specs.Prelude.{◌≡◌};
    ghost use Rattle.script_tree.specs.declared.refusal.ParseRefusal.TheVariants as parse_refusal;

    ghost from_gives = { λ _ e. e ≡ parse_refusal.Memory };

    fn from(_error: AllocError) -> ParseRefusal {
        ParseRefusal::Memory
    }
}
