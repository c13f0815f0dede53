ghost use Rattle.std.specs.Prelude.{◌≡◌, ◌≤◌, reverse};
ghost use Rattle.std.specs.Vec.{vec_capacity, vec_len};
ghost use Rattle.pic_machine.specs.Duty.{fulfilled};

use crate::attached::Attached;
use pic_base::{Duty, Memory, Outcome};
use std::alloc::Global;
use std::marker::Model;

/// What a fiber owes. Contracts see it as a list, the duty that has to be fulfilled first in front.
#[derive(Drop)]
pub struct Duties {
    // The first duty stands last, where it is cheaply taken away.
    duties: Vec<Duty>,
}

impl Model for Duties {
    ghost use Rattle.std.specs.Prelude.{List, reverse};
    ghost use Rattle.pic_base.specs.declared.duty.Duty.{Duty};

    ghost Value = { List Duty };

    ghost view = { λ owed. reverse owed.duties.items };
}

impl Duties {
    ghost use Rattle.std.specs.Prelude.{◌≡◌, ◌↔◌, ◌++◌, [], IsTrue, OnErr, OnOk, Option, map, reverse, slice_get};
    ghost use Rattle.pic_base.specs.declared.duty.Duty.TheVariants.{Signal};
    ghost use Rattle.pic_machine.specs.declared.entry.Reply.TheVariants.{Peeked};
    ghost use Rattle.pic_machine.specs.declared.state.CompState.{CompState};
    ghost use Rattle.pic_machine.specs.Duty.{followed, fulfilled};
    ghost use Rattle.pic_machine.specs.Step.{peeked};

    /// Nothing is owed.
    pub fn none(alloc: Global) -> Duties
        ensures { result ≡ [] }
    {
        Duties {
            duties: Vec::new(alloc),
        }
    }

    /// Whether nothing is owed.
    pub(crate) fn is_empty(&self) -> bool
        ensures { IsTrue result ↔ (self.now ≡ []) }
    {
        self.duties.is_empty()
    }

    /// The first duty, if there is one.
    pub fn first(&self) -> Option<Duty>
        ensures { result ≡ slice_get self.now 0 }
    {
        self.duties.last().copied()
    }

    /// Takes the first duty away, if there is one.
    pub(crate) fn fulfil(&mut self)
        ensures { self.new ≡ fulfilled self.old }
    {
        take_first(&mut self.duties);
    }

    /// Takes the first duty away, if there is one, and owes a signal to each attached trigger before all
    /// else, to the last one first.
    pub(crate) fn fulfil_and_signal(&mut self, attached: &Attached) -> Result<(), Memory>
        ensures owes { OnOk result (self.new ≡ map Signal (reverse attached.now) ++ fulfilled self.old) }
        ensures kept { OnErr result (self.new ≡ self.old) }
    {
        let triggers = attached.as_slice();
        self.duties.reserve(triggers.len())?;
        take_first(&mut self.duties);
        for trigger in triggers {
            self.duties.push_reserved(Duty::Signal(*trigger));
        }
        Ok(())
    }

    /// What is left once the first duty is fulfilled by a look that found this outcome: whoever follows a
    /// cancelled computation has to cancel the other one.
    pub(crate) fn follow(&mut self, outcome: Option<Outcome>)
        ensures { (state : Option CompState) → Peeked outcome ≡ peeked state → self.new ≡ followed self.old state }
    {
        let first = self.duties.pop();
        if let (Some(Duty::Follow { into, .. }), Some(Outcome::Cancelled(code))) = (
            first, outcome,
        ) {
            self.duties.push_reserved(Duty::Cancel { into, code });
        }
    }
}

/// Takes away the first duty, which stands last, and keeps its room.
fn take_first(duties: &mut Vec<Duty>)
    ensures left { reverse duties.new.items ≡ fulfilled (reverse duties.old.items) }
    ensures len { vec_len duties.new ≤ vec_len duties.old }
    ensures capacity { vec_capacity duties.new ≡ vec_capacity duties.old }
{
    duties.pop();
}
