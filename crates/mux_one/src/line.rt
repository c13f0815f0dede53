ghost use Rattle.std.specs.Prelude.{◌≡◌, ◌∷◌, [], false, IfOk, MatchOption};

use pic_base::{FiberNo, Memory};
use pic_machine::ReadyLine;
use std::alloc::Global;
use std::collections::VecDeque;

/// The ready fibers, the one that has been ready longest first.
#[derive(Drop)]
pub(crate) struct Line {
    queue: VecDeque<FiberNo>,
    /// A fiber could not be added, since memory was wanted.
    lost: bool,
}

impl Line {
    /// Main alone, with room for so many fibers.
    pub(crate) fn starting(alloc: Global, room: usize) -> Result<Line, Memory>
        ensures queue { IfOk result (λ line. line.queue.items ≡ 1 ∷ []) }
        ensures lost { IfOk result (λ line. line.lost ≡ false) }
    {
        let mut queue = VecDeque::with_capacity(alloc, room)?;
        queue.push_back(1)?;
        Ok(Line { queue, lost: false })
    }

    /// Takes the fiber that has been ready longest.
    pub(crate) fn take(&mut self) -> Option<FiberNo>
        ensures queue { MatchOption result (self.old.queue.items ≡ [])
            (λ fiber. self.old.queue.items ≡ fiber ∷ self.new.queue.items) }
        ensures lost { self.new.lost ≡ self.old.lost }
    {
        self.queue.pop_front()
    }

    /// Whether a fiber may be missing.
    pub(crate) fn is_lost(&self) -> bool
        ensures { result ≡ self.now.lost }
    {
        self.lost
    }
}

impl ReadyLine for Line {
    ghost use Rattle.mux_one.specs.UnderWay.{told_by};

    ghost told = { λ line. told_by line.lost line.queue.items };

    fn add(&mut self, fiber: FiberNo) {
        if self.queue.push_back(fiber).is_err() {
            self.lost = true;
        }
    }
}
