//! What the port stores, step by step: each of these calls keeps its invariant.
ghost use Rattle.std.specs.Prelude.{◌≡◌, ◌≢◌, ◌∷◌, [], ◌++◌, Some, None, IfErr, IfOk, OnErr};
ghost use Rattle.pic_machine.specs.Step.{IsLive, MakesNoFiber};
ghost use Rattle.pic_machine.specs.History.{Follows, IsLegal, MayMake, forked, world};
ghost use Rattle.pic_machine.specs.Sight.{IsChild, fiber_of};
ghost use Rattle.port_plain.specs.Shown.{IsAtHome, NoFiber, marked, origin_in, sight_of, with_entry};

use super::{PlainPort, reply};
use pic_base::{FiberNo, Memory, Value};
use pic_machine::{Call, Carried, Entry, PortFault, Reply};

impl<B: Carried> PlainPort<B> {
    /// Makes a call of the fiber whose body is out, and stores the entry.
    #[inline(always)]
    pub(crate) fn make(&mut self, fiber: FiberNo, call: Call) -> Result<Reply, Memory>
        requires out { self.old.out ≡ Some fiber }
        requires may { MayMake (origin_in B.seen self.old) self.old.front fiber call }
        requires none { MakesNoFiber call }
        ensures made { IfOk result (λ reply.
            self.new ≡ with_entry self.old (marked B.seen self.old fiber call reply)) }
        ensures follows { IfOk result (λ reply.
            Follows (origin_in B.seen self.old) self.old.front (marked B.seen self.old fiber call reply)) }
        ensures legal { IsLegal (origin_in B.seen self.old) self.old.front }
        ensures err { OnErr result (self.new ≡ self.old) }
    {
        // Room first, so that an entry is stored wherever its call was made.
        self.history.reserve()?;
        let reply = self.world.apply(fiber, call)?;
        self.history.push_reserved(Entry { fiber, call, reply });
        Ok(reply)
    }

    /// Takes the body that is out back.
    pub(crate) fn keep(&mut self, body: B)
        requires out { self.old.out ≡ Some (fiber_of (B.seen body)) }
        requires fiber { fiber_of (B.seen body) ≢ 0 }
        requires home { IsAtHome B.seen B.fits self.old (fiber_of (B.seen body)) body }
        ensures { self.new ≡ record self.old { out = None } }
    {
        let place = body.fiber() as usize - 1;
        self.bodies[place] = Some(body);
        self.out = None;
    }

    /// Lets the body of a live fiber out.
    pub(crate) fn take(&mut self, fiber: FiberNo) -> B
        requires out { self.old.out ≡ None }
        requires live { IsLive (world (origin_in B.seen self.old) self.old.front) fiber }
        ensures home { IsAtHome B.seen B.fits self.old fiber result }
        ensures out { self.new ≡ record self.old { out = Some fiber } }
    {
        let body = self.bodies[fiber as usize - 1].take();
        self.out = Some(fiber);
        match body {
            Some(body) => body,
            None => unreachable!("no body is out"),
        }
    }

    /// Makes a fiber by a call of the one whose body is out, stores the entry with the child's birth,
    /// and keeps the child. Where no fiber may be made, the entry says so.
    pub(crate) fn make_fiber(
        &mut self,
        fiber: FiberNo,
        text: u32,
        value: Value,
        child: B,
    ) -> Result<FiberNo, (B, PortFault)>
        requires out { self.old.out ≡ Some fiber }
        requires may { MayMake (origin_in B.seen self.old) self.old.front fiber (Call.Fork text value) }
        requires child { IsChild (sight_of B.seen self.old) (B.seen child) text value }
        requires fresh { B.fits child [] }
        ensures made { IfOk result (λ number.
            self.new ≡ with_entry self.old (forked fiber number (B.seen child).birth)) }
        ensures follows { IfOk result (λ number.
            Follows (origin_in B.seen self.old) self.old.front (forked fiber number (B.seen child).birth)) }
        ensures legal { IsLegal (origin_in B.seen self.old) self.old.front }
        ensures err { IfErr result (λ refused.
            NoFiber B.seen refused.1 self.old self.new fiber (Call.Fork text value)) }
        ensures back { IfErr result (λ refused. refused.0 ≡ child) }
    {
        let mut child = child;
        // Room first, so that the entry and the birth are stored, and the child kept, wherever the fiber
        // was made.
        if self.history.reserve().is_err()
            || self.births.reserve(1).is_err()
            || self.bodies.reserve(1).is_err()
        {
            return Err((child, PortFault::Memory));
        }
        let call = Call::Fork { text, value };
        let Ok(reply) = self.world.apply(fiber, call) else {
            return Err((child, PortFault::Memory));
        };
        self.history.push_reserved(Entry { fiber, call, reply });
        match reply::made(reply) {
            None => Err((child, PortFault::Full)),
            Some(number) => {
                self.births.push_reserved(child.birth());
                child.number(number);
                self.bodies.push_reserved(Some(child));
                Ok(number)
            }
        }
    }
}
