use pic_base::{Memory, TriggerNo};
use std::alloc::Global;
use std::marker::Model;

/// The triggers that are attached to a computation, in the order of attaching. Contracts see it as the
/// list of their numbers.
#[derive(Drop)]
pub struct Attached {
    triggers: Vec<TriggerNo>,
}

impl Model for Attached {
    ghost use Rattle.std.specs.Prelude.{ℕ, List};

    ghost Value = { List ℕ };

    ghost view = { λ attached. attached.triggers.items };
}

impl Attached {
    ghost use Rattle.std.specs.Prelude.{◌≡◌, ◌++◌, ◌∷◌, [], OnErr, OnOk};

    /// Nothing is attached.
    pub(crate) fn none(alloc: Global) -> Attached
        ensures { result ≡ [] }
    {
        Attached {
            triggers: Vec::new(alloc),
        }
    }

    /// Attaches one more trigger, as the last one.
    pub(crate) fn push(&mut self, trigger: TriggerNo) -> Result<(), Memory>
        ensures attached { OnOk result (self.new ≡ self.old ++ trigger ∷ []) }
        ensures kept { OnErr result (self.new ≡ self.old) }
    {
        self.triggers.push(trigger)?;
        Ok(())
    }

    /// The triggers, the first attached first.
    pub(crate) fn as_slice(&self) -> &[TriggerNo]
        ensures { result.now ≡ self.now }
    {
        self.triggers.as_slice()
    }
}
