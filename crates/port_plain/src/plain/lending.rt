//! Calls for a body that is out: it is lent and stays out, or is handed over and comes back.
ghost use Rattle.std.specs.Prelude.{◌≡◌, ◌≢◌, None, IfErr, IfOk, OnOk};
ghost use Rattle.pic_machine.specs.Step.{reply_of};
ghost use Rattle.pic_machine.specs.History.{event, world};
ghost use Rattle.pic_machine.specs.Log.{log};
ghost use Rattle.pic_machine.specs.Sight.{CanMake, fiber_of};
ghost use Rattle.pic_machine.specs.Lending.{Answered, Called, FitsWith, Made, Refuses, RefusesMaking};
ghost use Rattle.port_plain.specs.Shown.{IsLast, IsLent, MakesThing, Settles, origin_in, sight_of};

use super::{PlainPort, reply};
use pic_machine::{Call, Carried, PortFault, Reply};
use std::snapshot::Snapshot;

impl<B: Carried> PlainPort<B> {
    /// Makes a call of the body's fiber that leaves what it owes, and notes its entry.
    #[inline(always)]
    pub(crate) fn lend(&mut self, body: &mut B, call: Call) -> Result<Reply, PortFault>
        requires can { CanMake (sight_of B.seen self.old) (B.seen body.old) call }
        requires lent { IsLent call }
        ensures made { IfOk result (λ reply. Answered (sight_of B.seen self.old) (sight_of B.seen self.new)
            (B.seen body.old) (B.seen body.new) call reply) }
        ensures reply { IfOk result (λ reply. reply ≡ reply_of
            (world (origin_in B.seen self.old) self.old.front) (fiber_of (B.seen body.old)) call) }
        ensures none { IfErr result (λ fault. Refuses fault (sight_of B.seen self.old)
            (sight_of B.seen self.new) (B.seen body.old) (B.seen body.new)) }
        ensures rest { B.same_rest body.old body.new }
    {
        let fiber = body.fiber();
        let Ok(reply) = self.make(fiber, call) else {
            return Err(PortFault::Memory);
        };
        body.note(call, reply);
        Ok(reply)
    }

    /// Makes a call of the body's fiber that a duty asks for, and notes its entry and what the fiber owes
    /// from then on.
    pub(crate) fn settle(&mut self, body: &mut B, call: Call) -> Result<Reply, PortFault>
        requires can { CanMake (sight_of B.seen self.old) (B.seen body.old) call }
        requires settles { Settles call }
        ensures made { IfOk result (λ reply. Answered (sight_of B.seen self.old) (sight_of B.seen self.new)
            (B.seen body.old) (B.seen body.new) call reply) }
        ensures reply { IfOk result (λ reply. reply ≡ reply_of
            (world (origin_in B.seen self.old) self.old.front) (fiber_of (B.seen body.old)) call) }
        ensures none { IfErr result (λ fault. Refuses fault (sight_of B.seen self.old)
            (sight_of B.seen self.new) (B.seen body.old) (B.seen body.new)) }
        ensures rest { B.same_rest body.old body.new }
    {
        let fiber = body.fiber();
        let Ok(reply) = self.make(fiber, call) else {
            return Err(PortFault::Memory);
        };
        body.note(call, reply);
        body.owe(Snapshot::of(self.owed(fiber)));
        Ok(reply)
    }

    /// Makes a thing for the body's fiber. That it was made is left out of a report, so only an entry which
    /// says that there is no room for it is noted.
    pub(crate) fn make_thing(&mut self, body: &mut B, call: Call) -> Result<u32, PortFault>
        requires can { CanMake (sight_of B.seen self.old) (B.seen body.old) call }
        requires makes { MakesThing call }
        ensures made { IfOk result (λ number. Called (sight_of B.seen self.old) (sight_of B.seen self.new)
            (B.seen body.old) (B.seen body.new) call (Reply.Made number)) }
        ensures none { IfErr result (λ fault. RefusesMaking fault (sight_of B.seen self.old)
            (sight_of B.seen self.new) (B.seen body.old) (B.seen body.new) call) }
        ensures rest { B.same_rest body.old body.new }
    {
        let fiber = body.fiber();
        let Ok(reply) = self.make(fiber, call) else {
            return Err(PortFault::Memory);
        };
        match reply::made(reply) {
            Some(number) => Ok(number),
            None => {
                body.note(call, reply);
                Err(PortFault::Full)
            }
        }
    }

    /// Makes the last call of a turn of the body's fiber, notes its entry, and takes the body back.
    #[inline(always)]
    pub(crate) fn finish(&mut self, body: B, call: Call) -> Result<(), (B, PortFault)>
        requires can { CanMake (sight_of B.seen self.old) (B.seen body) call }
        requires last { IsLast call }
        requires after { FitsWith B.seen B.same_rest B.fits body
            (log self.old.front (fiber_of (B.seen body))) (event (fiber_of (B.seen body)) call Reply.Plain) }
        ensures made { OnOk result (Made (sight_of B.seen self.old) (sight_of B.seen self.new)
            (event (fiber_of (B.seen body)) call Reply.Plain)) }
        ensures out { OnOk result (self.new.out ≡ None) }
        ensures none { IfErr result (λ refused. Refuses refused.1 (sight_of B.seen self.old)
            (sight_of B.seen self.new) (B.seen body) (B.seen refused.0)
            × B.same_rest body refused.0) }
    {
        let mut body = body;
        let fiber = body.fiber();
        let Ok(reply) = self.make(fiber, call) else {
            return Err((body, PortFault::Memory));
        };
        body.note(call, reply);
        self.keep(body);
        Ok(())
    }
}
