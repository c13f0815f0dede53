ghost use Rattle.std.specs.Prelude.{◌≡◌, ◌<◌, ◌≤◌, ◌↔◌, ℕ, [], length, replicate, slice_get, IsTrue, IfOk, OnOk, OnErr};
ghost use Rattle.pic_machine.specs.State.{CanStart, owed_of, world_at};
ghost use Rattle.pic_machine.specs.Step.{Allowed, IsLive, after, reply_of};
ghost use Rattle.pic_machine.specs.Final.{IsAtRest, IsFinal};

use crate::attached::Attached;
use crate::duties::Duties;
use crate::entry::{Call, Reply};
use crate::state::{CompState, FiberState, TrigState};
use pic_base::{FiberNo, Limits, Memory};
use std::alloc::Global;
use std::marker::Model;

mod comps;
mod fibers;
mod triggers;

/// What stands before the first entry: so many triggers, all initial; so many computations, all running,
/// the root among them; and fiber 1, main, live with its text.
#[derive(Clone, Copy, Debug, PartialEq, Eq)]
pub struct Start {
    pub triggers: u32,
    pub comps: u32,
    pub text: u32,
    pub limits: Limits,
}

/// The world of the machine. Contracts see it as the `State` of `specs/State.antt`.
#[derive(Drop)]
pub struct World {
    triggers: Vec<TrigState>,
    comps: Vec<CompState>,
    fibers: Vec<FiberState>,
    owed: Vec<Duties>,
    places: u32,
    limits: Limits,
}

impl Model for World {
    ghost use Rattle.std.specs.Prelude.{◌≡◌, ◌+◌, length};
    ghost use Rattle.pic_machine.specs.State.{State};

    ghost Value = { State };

    ghost view = { λ world. record {
      triggers = world.triggers.items;
      comps = world.comps.items;
      fibers = world.fibers.items;
      owed = world.owed.items;
      places = world.places;
      limits = world.limits;
    } };

    // The clock owes too.
    ghost invariant = { λ world. length world.owed.items ≡ length world.fibers.items + 1 };
}

impl World {
    /// The world before the first entry.
    pub fn start(alloc: Global, start: &Start) -> Result<World, Memory>
        requires { CanStart start.now }
        ensures { IfOk result (λ world. world ≡ world_at start.now) }
    {
        let triggers = vec![in alloc; TrigState::Initial; start.triggers as usize]?;
        let comps = running(alloc, start.comps)?;
        let mut fibers = Vec::with_capacity(alloc, 1)?;
        fibers.push(FiberState::Live)?;
        let mut owed = Vec::with_capacity(alloc, 2)?;
        owed.push(Duties::none(alloc))?;
        owed.push(Duties::none(alloc))?;
        Ok(World {
            triggers,
            comps,
            fibers,
            owed,
            places: 0,
            limits: start.limits,
        })
    }

    /// Makes one call of a fiber, and answers its reply.
    #[inline(always)]
    pub fn apply(&mut self, fiber: FiberNo, call: Call) -> Result<Reply, Memory>
        requires { Allowed self.old fiber call }
        ensures reply { IfOk result (λ reply. reply ≡ reply_of self.old fiber call) }
        ensures after { OnOk result (self.new ≡ after self.old fiber call) }
        ensures err { OnErr result (self.new ≡ self.old) }
    {
        // These stand in hot loops, and leave the world as it is.
        match call {
            Call::Turn => Ok(Reply::Plain),
            Call::Yield => Ok(Reply::Plain),
            Call::Say(_) => Ok(Reply::Plain),
            _ => self.change(fiber, call),
        }
    }

    /// The fibers in order of their numbers, from 1.
    pub fn fibers(&self) -> &[FiberState]
        ensures { result.now ≡ self.now.fibers }
    {
        self.fibers.as_slice()
    }

    /// What a fiber owes; the clock is fiber 0.
    pub fn owed(&self, fiber: FiberNo) -> &Duties
        requires { fiber ≤ length self.now.fibers }
        ensures { result.now ≡ owed_of self.now fiber }
    {
        &self.owed[fiber as usize]
    }

    /// Whether the fiber is live.
    pub fn is_live(&self, fiber: FiberNo) -> bool
        ensures { IsTrue result ↔ IsLive self.now fiber }
    {
        fiber != 0 && matches!(self.fibers.get(fiber as usize - 1), Some(FiberState::Live))
    }

    /// Whether nothing is left to do.
    pub fn is_final(&self) -> bool
        ensures { IsTrue result ↔ IsFinal self.now }
    {
        self.fibers
            .iter()
            .all(|fiber| is_at_rest(&self.triggers, *fiber))
            && self.owed.iter().all(|owed| owed.is_empty())
    }
}

impl World {
    /// Makes a call that may change the world.
    #[tactic(auto, using(crate::proofs::Callers::armer_is_live, crate::proofs::Callers::ender_is_live))]
    fn change(&mut self, fiber: FiberNo, call: Call) -> Result<Reply, Memory>
        requires { Allowed self.old fiber call }
        ensures reply { IfOk result (λ reply. reply ≡ reply_of self.old fiber call) }
        ensures after { OnOk result (self.new ≡ after self.old fiber call) }
        ensures err { OnErr result (self.new ≡ self.old) }
    {
        match call {
            Call::Turn | Call::Yield | Call::Say(_) => Ok(Reply::Plain),
            Call::NewTrigger => self.new_trigger(),
            Call::NewPlace => Ok(self.new_place()),
            Call::Look(trigger) => Ok(Reply::Seen(self.look(trigger))),
            Call::Arm { trigger, action } => Ok(Reply::Armed(self.arm(fiber, trigger, action))),
            Call::Signal(trigger) => Ok(Reply::Signalled(self.signal(fiber, trigger))),
            Call::Attach { comp, trigger, .. } => Ok(Reply::Attached(self.attach(comp, trigger)?)),
            Call::Complete { comp, outcome } => {
                Ok(Reply::Completed(self.complete(fiber, comp, outcome)?))
            }
            Call::Peek(comp) => Ok(Reply::Peeked(self.peek(fiber, comp))),
            Call::Fork { .. } => self.fork(),
            Call::End(outcome) => {
                self.end(fiber, outcome);
                Ok(Reply::Plain)
            }
        }
    }
}

/// Whether a fiber that stands so makes no entry any more.
fn is_at_rest(triggers: &[TrigState], fiber: FiberState) -> bool
    ensures { IsTrue result ↔ IsAtRest triggers.now fiber }
{
    match fiber {
        FiberState::Live => false,
        FiberState::Suspended(trigger) => {
            !matches!(triggers.get(trigger as usize), Some(TrigState::Signalled))
        }
        FiberState::Ended(_) => true,
    }
}

/// So many running computations, with nothing attached.
fn running(alloc: Global, count: u32) -> Result<Vec<CompState>, Memory>
    ensures { IfOk result (λ comps. comps.items ≡ replicate count (CompState.Running [])) }
{
    let mut comps = Vec::with_capacity(alloc, count as usize)?;
    for _ in 0..count {
        comps.push(CompState::Running(Attached::none(alloc)))?;
    }
    Ok(comps)
}
