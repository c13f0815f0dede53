//! A port whose bodies are all at home.
ghost use Rattle.std.specs.Prelude.{◌≡◌, ◌≤◌};

use super::bare::Bare;
use super::out::Out;
use crate::PlainPort;
use pic_base::{FiberNo, Limits, Memory};
use pic_machine::{Carried, ClaimRefusal, Idle, Port, Start};
use std::alloc::Global;
use std::marker::Model;

/// All bodies are in the port. Fibers 1 and 2 may be made, and two triggers stand from the start.
#[derive(Drop)]
pub(super) struct In {
    pub(super) port: PlainPort<Bare>,
}

impl Model for In {
    ghost use Rattle.std.specs.Prelude.{⊤};
    ghost use Rattle.port_plain.specs.Shown.{sight_of};
    ghost use Rattle.port_plain.specs.Handed.{IsIn};

    ghost Value = { ⊤ };

    ghost view = { λ a. tt };

    ghost invariant = { λ a. IsIn (sight_of ⟦<Bare as Carried>⟧.seen a.port) };
}

fn start() -> Start
    ensures { result ≡ record {
      triggers = 2;
      comps = 1;
      text = 3;
      limits = record { fibers = 2; triggers = 3; places = 3; comps = 1 };
    } }
{
    Start {
        triggers: 2,
        comps: 1,
        text: 3,
        limits: Limits {
            fibers: 2,
            triggers: 3,
            places: 3,
            comps: 1,
        },
    }
}

/// Main's body, out of a new port.
pub(super) fn main_out(alloc: Global) -> Result<Out, Memory> {
    match In::open(alloc)?.claim(1)? {
        Ok(main) => Ok(main),
        Err(_) => Err(Memory),
    }
}

impl In {
    pub(super) fn open(alloc: Global) -> Result<In, Memory> {
        let main = Bare::new(alloc, 3, 0);
        let mut clock = Bare::new(alloc, 0, 0);
        clock.number(0);
        let port = PlainPort::open(alloc, &start(), main, clock)?;
        Ok(In { port })
    }

    /// Takes a fiber's body out, where the fiber is ready.
    pub(super) fn claim(self, fiber: FiberNo) -> Result<Result<Out, In>, Memory>
        requires { (1 ≤ fiber) × (fiber ≤ 2) }
    {
        let In { mut port } = self;
        match port.claim(fiber) {
            Ok(body) => Ok(Ok(Out { port, body })),
            Err(ClaimRefusal::NotReady) => Ok(Err(In { port })),
            Err(_) => Err(Memory),
        }
    }

    /// Whether nothing is left to do.
    pub(super) fn is_over(self) -> Result<(In, bool), Memory> {
        let In { mut port } = self;
        match port.idle() {
            Ok(Idle::Busy) => Ok((In { port }, false)),
            Ok(Idle::Over) => Ok((In { port }, true)),
            Err(_) => Err(Memory),
        }
    }
}
