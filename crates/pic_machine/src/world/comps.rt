//! Computations, and what is attached to them.
ghost use Rattle.std.specs.Prelude.{◌≡◌, ◌<◌, length, slice_get, slice_set, IfOk, OnErr, OnOk};
ghost use Rattle.pic_machine.specs.State.{owed_of};
ghost use Rattle.pic_machine.specs.Duty.{followed, fulfilled};
ghost use Rattle.pic_machine.specs.Step.{MayAct, attached, completed, peeked, with_attached, with_outcome, with_signals};

use super::World;
use crate::entry::{AttachReply, CompleteReply, Reply};
use crate::state::CompState;
use pic_base::{CompNo, FiberNo, Memory, Outcome, TriggerNo};

impl World {
    /// Attaches a trigger to a running computation.
    pub(super) fn attach(&mut self, comp: CompNo, trigger: TriggerNo) -> Result<AttachReply, Memory>
        requires { comp < length self.old.comps }
        ensures reply { IfOk result (λ how. Reply.Attached how ≡ attached (slice_get self.old.comps comp)) }
        ensures after { OnOk result (self.new ≡ record self.old {
          comps = with_attached self.old.comps comp trigger (slice_get self.old.comps comp);
        }) }
        ensures err { OnErr result (self.new ≡ self.old) }
    {
        match &mut self.comps[comp as usize] {
            CompState::Running(attached) => {
                attached.push(trigger)?;
                Ok(AttachReply::Attached)
            }
            CompState::Done(outcome) => Ok(AttachReply::Completed(*outcome)),
        }
    }

    /// Completes a running computation, and owes a signal to each trigger that is attached to it.
    #[tactic(auto, using(crate::proofs::Callers::caller_owes))]
    pub(super) fn complete(
        &mut self,
        fiber: FiberNo,
        comp: CompNo,
        outcome: Outcome,
    ) -> Result<CompleteReply, Memory>
        requires comp { comp < length self.old.comps }
        requires caller { MayAct self.old fiber }
        ensures reply { IfOk result (λ how. Reply.Completed how ≡ completed (slice_get self.old.comps comp)) }
        ensures after { OnOk result (self.new ≡ record self.old {
          comps = with_outcome self.old.comps comp outcome (slice_get self.old.comps comp);
          owed = slice_set self.old.owed fiber
              (with_signals (slice_get self.old.comps comp) (fulfilled (owed_of self.old fiber)));
        }) }
        ensures err { OnErr result (self.new ≡ self.old) }
    {
        let owed = &mut self.owed[fiber as usize];
        match &self.comps[comp as usize] {
            CompState::Running(attached) => {
                owed.fulfil_and_signal(attached)?;
                self.comps[comp as usize] = CompState::Done(outcome);
                Ok(CompleteReply::Won)
            }
            CompState::Done(standing) => {
                owed.fulfil();
                Ok(CompleteReply::Lost(*standing))
            }
        }
    }

    /// Looks at a computation, and fulfils what the fiber owed first, if it owed anything.
    #[tactic(auto, using(crate::proofs::Callers::caller_owes))]
    pub(super) fn peek(&mut self, fiber: FiberNo, comp: CompNo) -> Option<Outcome>
        requires comp { comp < length self.old.comps }
        requires caller { MayAct self.old fiber }
        ensures reply { Reply.Peeked result ≡ peeked (slice_get self.old.comps comp) }
        ensures after { self.new ≡ record self.old {
          owed = slice_set self.old.owed fiber
              (followed (owed_of self.old fiber) (slice_get self.old.comps comp));
        } }
    {
        let outcome = match &self.comps[comp as usize] {
            CompState::Running(_) => None,
            CompState::Done(outcome) => Some(*outcome),
        };
        self.owed[fiber as usize].follow(outcome);
        outcome
    }
}
