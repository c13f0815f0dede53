//! Fibers.
ghost use Rattle.std.specs.Prelude.{◌≡◌, ◌-◌, [], slice_set, IfOk, OnErr, OnOk};
ghost use Rattle.pic_machine.specs.Step.{IsLive, fork_reply, grown, has_room};

use super::World;
use crate::duties::Duties;
use crate::entry::Reply;
use crate::state::FiberState;
use pic_base::{FiberNo, Memory, Outcome};

impl World {
    /// Makes a fiber, where there may be one more.
    pub(super) fn fork(&mut self) -> Result<Reply, Memory>
        ensures reply { IfOk result (λ reply. reply ≡ fork_reply self.old) }
        ensures after { OnOk result (self.new ≡ record self.old {
          fibers = grown (has_room self.old) self.old.fibers FiberState.Live;
          owed = grown (has_room self.old) self.old.owed [];
        }) }
        ensures err { OnErr result (self.new ≡ self.old) }
    {
        let count = self.fibers.len();
        if count >= self.limits.fibers as usize {
            return Ok(Reply::Full);
        }
        self.fibers.reserve(1)?;
        let alloc = *self.owed.allocator();
        self.owed.push(Duties::none(alloc))?;
        self.fibers.push_reserved(FiberState::Live);
        Ok(Reply::Made(count as u32 + 1))
    }

    /// Ends a fiber.
    pub(super) fn end(&mut self, fiber: FiberNo, outcome: Outcome)
        requires { IsLive self.old fiber }
        ensures { self.new ≡ record self.old { fibers = slice_set self.old.fibers (fiber - 1) (FiberState.Ended outcome) } }
    {
        self.fibers[fiber as usize - 1] = FiberState::Ended(outcome);
    }

    /// Lets a fiber be live again that waited for a trigger.
    pub(super) fn resume(&mut self, fiber: FiberNo)
        ensures { self.new ≡ record self.old { fibers = slice_set self.old.fibers (fiber - 1) FiberState.Live } }
    {
        let place = (fiber as usize).saturating_sub(1);
        if place < self.fibers.len() {
            self.fibers[place] = FiberState::Live;
        }
    }
}
