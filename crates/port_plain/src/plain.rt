ghost use Rattle.std.specs.Prelude.{◌≡◌, ◌≤◌, ◌↔◌, ◌∷◌, [], ◌++◌, None, Some, IfOk, IsTrue, OnErr, OnOk, length};
ghost use Rattle.pic_machine.specs.State.{CanStart, owed_of};
ghost use Rattle.pic_machine.specs.Final.{IsFinal};
ghost use Rattle.pic_machine.specs.Step.{IsLive};
ghost use Rattle.pic_machine.specs.History.{IsLegal, world};
ghost use Rattle.pic_machine.specs.Laws.{Lawful};
ghost use Rattle.pic_machine.specs.Log.{entries};
ghost use Rattle.port_plain.specs.Shown.{IsMain, IsClock, births_in, origin_in};

use entry_log::EntryLog;
use pic_base::{FiberNo, Memory};
use pic_machine::{Birth, Carried, Duties, Start, World};
use std::alloc::Global;
use std::marker::Model;
use std::snapshot::Snapshot;

mod keeping;
mod lending;
mod opening;
pub(crate) mod reply;

/// A port that is alone: it stores the world, the whole history, and each body that isn't out.
/// Contracts see it as the `Shown` of `specs/Shown.antt`.
#[derive(Drop)]
pub struct PlainPort<B: Carried> {
    alloc: Global,
    start: Start,
    main: Snapshot<B>,
    world: World,
    history: EntryLog,
    /// Apart from the history, since few of its entries make a fiber.
    births: Vec<Birth>,
    bodies: Vec<Option<B>>,
    clock: B,
    out: Option<FiberNo>,
}

impl<B: Carried> Model for PlainPort<B> {
    ghost use Rattle.pic_machine.specs.State.{world_at};
    ghost use Rattle.port_plain.specs.Shown.{Shown};
    ghost use Rattle.port_plain.specs.Paired.{HasEachBirth, paired};
    ghost use Rattle.port_plain.specs.Stored.{IsStored};

    ghost Value = { Shown B };

    ghost view = { λ port. record {
      start = port.start;
      main = port.main.value;
      front = paired (world_at port.start) port.history.entries port.births.items;
      out = port.out;
    } };

    ghost invariant = { λ port. IsStored B.seen B.fits
        (record { start = port.start; main = port.main.value; front = paired (world_at port.start) port.history.entries port.births.items; out = port.out })
        port.world port.bodies.items port.clock
        × HasEachBirth port.history.entries port.births.items };
}

impl<B: Carried> PlainPort<B> {
    /// The world that the history leads to.
    pub fn world(&self) -> &World
        ensures now { result.now ≡ world (origin_in B.seen self.now) self.now.front }
        ensures start { CanStart self.now.start }
    {
        &self.world
    }

    /// The entries of all that happened so far.
    pub fn history(&self) -> &EntryLog
        ensures entries { result.now.entries ≡ entries self.now.front }
        ensures legal { IsLegal (origin_in B.seen self.now) self.now.front }
        ensures laws { Lawful (origin_in B.seen self.now) self.now.front }
    {
        &self.history
    }

    /// The births of the fibers that were made so far, in order. Main wasn't made by an entry.
    pub fn births(&self) -> &[Birth]
        ensures { result.now ≡ births_in self.now.front }
    {
        self.births.as_slice()
    }

    /// Whether the fiber is live.
    pub(crate) fn is_live(&self, fiber: FiberNo) -> bool
        ensures legal { IsLegal (origin_in B.seen self.now) self.now.front }
        ensures live { IsTrue result ↔ IsLive (world (origin_in B.seen self.now) self.now.front) fiber }
    {
        self.world.is_live(fiber)
    }

    /// What a fiber owes; the clock is fiber 0.
    pub(crate) fn owed(&self, fiber: FiberNo) -> &Duties
        requires { fiber ≤ length (world (origin_in B.seen self.now) self.now.front).fibers }
        ensures { result.now ≡ owed_of (world (origin_in B.seen self.now) self.now.front) fiber }
    {
        self.world.owed(fiber)
    }

    /// Whether nothing is left to do.
    pub(crate) fn is_final(&self) -> bool
        ensures legal { IsLegal (origin_in B.seen self.now) self.now.front }
        ensures done { IsTrue result ↔ IsFinal (world (origin_in B.seen self.now) self.now.front) }
    {
        self.world.is_final()
    }
}
