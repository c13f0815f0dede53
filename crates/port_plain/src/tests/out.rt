//! A body that is out of its port.
ghost use Rattle.std.specs.Prelude.{◌≡◌, ◌<◌, [], OnOk};
ghost use Rattle.port_plain.specs.Shown.{sight_of};
ghost use Rattle.port_plain.specs.Handed.{IsOut};

use super::bare::Bare;
use super::home::In;
use crate::PlainPort;
use pic_base::{Duty, FiberNo, Memory, Outcome, TriggerNo};
use pic_machine::{
    AttachReply, Carried, CompleteReply, ParkRefusal, Port, PortFault, SignalReply, TrigState,
};
use std::alloc::Global;
use std::marker::Model;

/// A body is out.
#[derive(Drop)]
pub(super) struct Out {
    pub(super) port: PlainPort<Bare>,
    pub(super) body: Bare,
}

impl Model for Out {
    ghost use Rattle.std.specs.Prelude.{⊤};
    ghost use Rattle.port_plain.specs.Shown.{sight_of};
    ghost use Rattle.port_plain.specs.Handed.{IsOut};

    ghost Value = { ⊤ };

    ghost view = { λ a. tt };

    ghost invariant = { λ a. IsOut (sight_of ⟦<Bare as Carried>⟧.seen a.port) (⟦<Bare as Carried>⟧.seen a.body) };
}

/// How a call of `park` ended.
#[derive(Drop)]
pub(super) enum Parked {
    Asleep(In),
    Signalled(Out),
    Taken(Out),
}

/// Makes room for an entry in a body that is out and whose fiber owes nothing.
fn make_ready(port: &mut PlainPort<Bare>, body: &mut Bare) -> Result<(), Memory>
    requires { IsOut (sight_of ⟦<Bare as Carried>⟧.seen port.old) (⟦<Bare as Carried>⟧.seen body.old) }
    ensures out { IsOut (sight_of ⟦<Bare as Carried>⟧.seen port.new) (⟦<Bare as Carried>⟧.seen body.new) }
    ensures owes { OnOk result ((⟦<Bare as Carried>⟧.seen body.new).owes ≡ []) }
    ensures room { OnOk result (0 < (⟦<Bare as Carried>⟧.seen body.new).room) }
{
    let None = port.walk_next(body) else {
        return Err(Memory);
    };
    body.reserve()
}

impl Out {
    /// Makes a trigger, where there may be one more.
    pub(super) fn new_trigger(&mut self) -> Result<Option<TriggerNo>, Memory> {
        make_ready(&mut self.port, &mut self.body)?;
        match self.port.new_trigger(&mut self.body) {
            Ok(trigger) => Ok(Some(trigger)),
            Err(PortFault::Full) => Ok(None),
            Err(_) => Err(Memory),
        }
    }

    /// Makes a place, where there may be one more.
    pub(super) fn new_place(&mut self) -> Result<Option<u32>, Memory> {
        make_ready(&mut self.port, &mut self.body)?;
        match self.port.new_place(&mut self.body) {
            Ok(place) => Ok(Some(place)),
            Err(PortFault::Full) => Ok(None),
            Err(_) => Err(Memory),
        }
    }

    /// Looks at a trigger.
    pub(super) fn look(&mut self, trigger: TriggerNo) -> Result<TrigState, Memory>
        requires { trigger < 2 }
    {
        make_ready(&mut self.port, &mut self.body)?;
        match self.port.look(&mut self.body, trigger) {
            Ok(state) => Ok(state),
            Err(_) => Err(Memory),
        }
    }

    /// Signals a trigger, for whose signal nobody asked.
    pub(super) fn signal(&mut self, trigger: TriggerNo) -> Result<SignalReply, Memory>
        requires { trigger < 2 }
    {
        make_ready(&mut self.port, &mut self.body)?;
        match self.port.signal(&mut self.body, trigger) {
            Ok(how) => Ok(how),
            Err(_) => Err(Memory),
        }
    }

    /// Attaches a trigger to the root, at a place of its own.
    pub(super) fn attach(&mut self, trigger: TriggerNo) -> Result<AttachReply, Memory>
        requires { trigger < 2 }
    {
        make_ready(&mut self.port, &mut self.body)?;
        let Ok(place) = self.port.new_place(&mut self.body) else {
            return Err(Memory);
        };
        self.body.reserve()?;
        match self.port.attach(&mut self.body, place, 0, trigger) {
            Ok(how) => Ok(how),
            Err(_) => Err(Memory),
        }
    }

    /// Completes the root.
    pub(super) fn complete(&mut self, outcome: Outcome) -> Result<CompleteReply, Memory> {
        make_ready(&mut self.port, &mut self.body)?;
        match self.port.complete(&mut self.body, 0, outcome) {
            Ok(how) => Ok(how),
            Err(_) => Err(Memory),
        }
    }

    /// What the fiber owes first.
    pub(super) fn first(&mut self) -> Option<Duty> {
        self.port.walk_next(&mut self.body)
    }

    /// Signals a trigger, whose signal is what the fiber owes first.
    pub(super) fn pay(&mut self, trigger: TriggerNo) -> Result<SignalReply, Memory>
        requires { trigger < 2 }
    {
        let Some(Duty::Signal(first)) = self.port.walk_next(&mut self.body) else {
            return Err(Memory);
        };
        if first != trigger {
            return Err(Memory);
        }
        self.body.reserve()?;
        match self.port.signal(&mut self.body, trigger) {
            Ok(how) => Ok(how),
            Err(_) => Err(Memory),
        }
    }

    /// Makes a fiber.
    pub(super) fn fork(&mut self, alloc: Global) -> Result<FiberNo, Memory> {
        make_ready(&mut self.port, &mut self.body)?;
        let child = Bare::new(alloc, 5, 7);
        match self.port.fork(&mut self.body, 5, 7, child) {
            Ok(number) => Ok(number),
            Err(_) => Err(Memory),
        }
    }

    /// Suspends the fiber until a trigger is signalled.
    pub(super) fn park(self, trigger: TriggerNo) -> Result<Parked, Memory>
        requires { trigger < 2 }
    {
        let Out { mut port, mut body } = self;
        make_ready(&mut port, &mut body)?;
        match port.park(trigger, body) {
            Ok(()) => Ok(Parked::Asleep(In { port })),
            Err((body, ParkRefusal::Signalled)) => Ok(Parked::Signalled(Out { port, body })),
            Err((body, ParkRefusal::Taken)) => Ok(Parked::Taken(Out { port, body })),
            Err(_) => Err(Memory),
        }
    }

    /// Lays the body back, without an entry.
    pub(super) fn lay(self) -> Result<In, Memory> {
        let Out { mut port, body } = self;
        match port.lay(body, false) {
            Ok(()) => Ok(In { port }),
            Err(_) => Err(Memory),
        }
    }

    /// Ends the fiber.
    pub(super) fn end(self, outcome: Outcome) -> Result<In, Memory> {
        let Out { mut port, mut body } = self;
        make_ready(&mut port, &mut body)?;
        match port.end(body, outcome) {
            Ok(()) => Ok(In { port }),
            Err(_) => Err(Memory),
        }
    }
}
