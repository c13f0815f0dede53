//! The port's calls, each by one step of what it stores.
ghost use Rattle.std.specs.Prelude.{refl};
ghost use Rattle.pic_machine.specs.Final.{IsBusy};
ghost use Rattle.pic_machine.specs.Step.{IsLive};
ghost use Rattle.pic_machine.specs.History.{world};
ghost use Rattle.port_plain.specs.Shown.{origin_in, sight_of};

use crate::plain::{PlainPort, reply};
use pic_base::{Action, CompNo, Duty, FiberNo, Outcome, PlaceNo, TriggerNo, Value};
use pic_machine::{
    ArmReply, AttachReply, Call, Carried, ClaimRefusal, CompleteReply, Idle, ParkRefusal, Port,
    PortFault, Reply, SignalReply, TrigState,
};

impl<B: Carried> Port for PlainPort<B> {
    type Body = B;

    ghost sight = { sight_of B.seen };

    // The fiber isn't live.
    ghost missed = { λ port f. IsLive (world (origin_in B.seen port) port.front) f → ⊥ };

    // A fiber is live, or one owes.
    ghost busy = { λ port. IsBusy (world (origin_in B.seen port) port.front) };

    fn contended(&self) -> u64 {
        0
    }

    fn say(&mut self, body: &mut B, value: Value) -> Result<(), PortFault> {
        self.lend(body, Call::Say(value))?;
        Ok(())
    }

    fn new_trigger(&mut self, body: &mut B) -> Result<TriggerNo, PortFault> {
        self.make_thing(body, Call::NewTrigger)
    }

    fn new_place(&mut self, body: &mut B) -> Result<PlaceNo, PortFault> {
        self.make_thing(body, Call::NewPlace)
    }

    fn look(&mut self, body: &mut B, trigger: TriggerNo) -> Result<TrigState, PortFault> {
        let reply = self.lend(body, Call::Look(trigger))?;
        Ok(reply::seen(reply))
    }

    fn signal(&mut self, body: &mut B, trigger: TriggerNo) -> Result<SignalReply, PortFault> {
        let reply = self.settle(body, Call::Signal(trigger))?;
        Ok(reply::signalled(reply))
    }

    fn attach(
        &mut self,
        body: &mut B,
        place: PlaceNo,
        comp: CompNo,
        trigger: TriggerNo,
    ) -> Result<AttachReply, PortFault> {
        let call = Call::Attach {
            place,
            comp,
            trigger,
        };
        let reply = self.lend(body, call)?;
        Ok(reply::attached(reply))
    }

    fn walk_next(&mut self, body: &mut B) -> Option<Duty> {
        self.owed(body.fiber()).first()
    }

    fn peek(&mut self, body: &mut B, comp: CompNo) -> Result<Option<Outcome>, PortFault> {
        let reply = self.settle(body, Call::Peek(comp))?;
        Ok(reply::peeked(reply))
    }

    fn complete(
        &mut self,
        body: &mut B,
        comp: CompNo,
        outcome: Outcome,
    ) -> Result<CompleteReply, PortFault> {
        let reply = self.settle(body, Call::Complete { comp, outcome })?;
        Ok(reply::completed(reply))
    }

    fn fork(
        &mut self,
        body: &mut B,
        text: u32,
        value: Value,
        child: B,
    ) -> Result<FiberNo, (B, PortFault)> {
        let fiber = body.fiber();
        let call = Call::Fork { text, value };
        match self.make_fiber(fiber, text, value, child) {
            Ok(number) => {
                body.note(call, Reply::Made(number));
                Ok(number)
            }
            Err((child, PortFault::Full)) => {
                body.note(call, Reply::Full);
                Err((child, PortFault::Full))
            }
            Err((child, PortFault::Again)) => Err((child, PortFault::Again)),
            Err((child, PortFault::Memory)) => Err((child, PortFault::Memory)),
        }
    }

    fn claim(&mut self, fiber: FiberNo) -> Result<B, ClaimRefusal> {
        if !self.is_live(fiber) {
            return Err(ClaimRefusal::NotReady);
        }
        let body = self.take(fiber);
        match self.make(fiber, Call::Turn) {
            Ok(_) => Ok(body),
            Err(_) => {
                self.keep(body);
                Err(ClaimRefusal::Memory)
            }
        }
    }

    fn lay(&mut self, body: B, yielded: bool) -> Result<(), (B, PortFault)> {
        if yielded {
            return self.finish(body, Call::Yield);
        }
        self.keep(body);
        Ok(())
    }

    fn park(&mut self, trigger: TriggerNo, body: B) -> Result<(), (B, ParkRefusal)> {
        let mut body = body;
        let fiber = body.fiber();
        let call = Call::Arm {
            trigger,
            action: Action::Resume(fiber),
        };
        let Ok(reply) = self.make(fiber, call) else {
            return Err((body, ParkRefusal::Memory));
        };
        body.note(call, reply);
        match reply::armed(reply) {
            ArmReply::Set => {
                self.keep(body);
                Ok(())
            }
            ArmReply::Signalled => Err((body, ParkRefusal::Signalled)),
            ArmReply::Taken => Err((body, ParkRefusal::Taken)),
        }
    }

    fn end(&mut self, body: B, outcome: Outcome) -> Result<(), (B, PortFault)> {
        self.finish(body, Call::End(outcome))
    }

    fn idle(&mut self) -> Result<Idle, PortFault> {
        if self.is_final() {
            Ok(Idle::Over)
        } else {
            Ok(Idle::Busy)
        }
    }

    ghost starts = { λ port. record { start = port.start; is = refl } };
}
