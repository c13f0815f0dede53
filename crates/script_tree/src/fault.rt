//! Why a line is not taken: its cause, or want of memory.
use crate::cause::Cause;
use pic_base::Memory;

/// Why a line wasn't taken.
#[derive(Clone, Copy)]
pub enum Fault {
    Cause(Cause),
    Memory,
}

impl From<Cause> for Fault {
    ghost use Rattle.std.specs.Prelude.{◌≡◌};
    ghost use Rattle.script_tree.specs.declared.fault.Fault.TheVariants as fault;

    ghost from_gives = { λ c e. e ≡ fault.Cause c };

    fn from(cause: Cause) -> Fault {
        Fault::Cause(cause)
    }
}

impl From<Memory> for Fault {
    ghost use Rattle.std.specs.Prelude.{◌≡◌};
    ghost use Rattle.script_tree.specs.declared.fault.Fault.TheVariants as fault;

    ghost from_gives = { λ _ e. e ≡ fault.Memory };

    fn from(_memory: Memory) -> Fault {
        Fault::Memory
    }
}
