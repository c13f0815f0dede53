//! Triggers and places.
ghost use Rattle.std.specs.Prelude.{◌≡◌, ◌<◌, length, nat_lt, slice_get, slice_set, IfOk, OnErr, OnOk};
ghost use Rattle.pic_machine.specs.State.{owed_of};
ghost use Rattle.pic_machine.specs.Duty.{fulfilled};
ghost use Rattle.pic_machine.specs.Step.{IsLive, MayAct, armed, grown, made_below, places_after, resumed, seen, signalled, with_action, with_waiting};

use super::World;
use crate::entry::{ArmReply, Call, Reply, SignalReply};
use crate::state::{FiberState, TrigState};
use pic_base::{Action, FiberNo, Memory, TriggerNo};

impl World {
    /// Makes a trigger, where there may be one more.
    pub(super) fn new_trigger(&mut self) -> Result<Reply, Memory>
        ensures reply { IfOk result (λ reply. reply ≡ made_below (length self.old.triggers) self.old.limits.triggers) }
        ensures after { OnOk result (self.new ≡ record self.old {
          triggers = grown (nat_lt (length self.old.triggers) self.old.limits.triggers)
              self.old.triggers TrigState.Initial;
        }) }
        ensures err { OnErr result (self.new ≡ self.old) }
    {
        let count = self.triggers.len();
        if count >= self.limits.triggers as usize {
            return Ok(Reply::Full);
        }
        self.triggers.push(TrigState::Initial)?;
        Ok(Reply::Made(count as u32))
    }

    /// Makes a place, where there may be one more.
    pub(super) fn new_place(&mut self) -> Reply
        ensures reply { result ≡ made_below self.old.places self.old.limits.places }
        ensures after { self.new ≡ record self.old { places = places_after self.old Call.NewPlace } }
    {
        if self.places >= self.limits.places {
            return Reply::Full;
        }
        let place = self.places;
        self.places = place + 1;
        Reply::Made(place)
    }

    /// Looks at a trigger.
    pub(super) fn look(&self, trigger: TriggerNo) -> TrigState
        requires { trigger < length self.now.triggers }
        ensures { Reply.Seen result ≡ seen (slice_get self.now.triggers trigger) }
    {
        self.triggers[trigger as usize]
    }

    /// Arms a trigger that nobody awaits. Where the action is the caller's resumption, the caller is
    /// suspended.
    pub(super) fn arm(&mut self, fiber: FiberNo, trigger: TriggerNo, action: Action) -> ArmReply
        requires trigger { trigger < length self.old.triggers }
        requires caller { IsLive self.old fiber }
        ensures reply { Reply.Armed result ≡ armed (slice_get self.old.triggers trigger) }
        ensures after { self.new ≡ record self.old {
          triggers = with_action self.old.triggers trigger action (slice_get self.old.triggers trigger);
          fibers = with_waiting self.old.fibers fiber trigger action
              (slice_get self.old.triggers trigger);
        } }
    {
        match self.triggers[trigger as usize] {
            TrigState::Initial => {
                self.triggers[trigger as usize] = TrigState::Awaiting(action);
                let Action::Resume(_) = action;
                self.fibers[fiber as usize - 1] = FiberState::Suspended(trigger);
                ArmReply::Set
            }
            TrigState::Awaiting(_) => ArmReply::Taken,
            TrigState::Signalled => ArmReply::Signalled,
        }
    }

    /// Signals a trigger, which acts for whoever awaits it, and is what the fiber owed first, if it owed
    /// anything.
    #[tactic(auto, using(crate::proofs::Callers::caller_owes))]
    pub(super) fn signal(&mut self, fiber: FiberNo, trigger: TriggerNo) -> SignalReply
        requires trigger { trigger < length self.old.triggers }
        requires caller { MayAct self.old fiber }
        ensures reply { Reply.Signalled result ≡ signalled (slice_get self.old.triggers trigger) }
        ensures after { self.new ≡ record self.old {
          triggers = slice_set self.old.triggers trigger TrigState.Signalled;
          fibers = resumed self.old.fibers (slice_get self.old.triggers trigger);
          owed = slice_set self.old.owed fiber (fulfilled (owed_of self.old fiber));
        } }
    {
        self.owed[fiber as usize].fulfil();
        let state = self.triggers[trigger as usize];
        self.triggers[trigger as usize] = TrigState::Signalled;
        match state {
            TrigState::Initial => SignalReply::Plain,
            TrigState::Awaiting(action) => {
                let Action::Resume(resumed) = action;
                self.resume(resumed);
                SignalReply::Acted(action)
            }
            TrigState::Signalled => SignalReply::Already,
        }
    }
}
