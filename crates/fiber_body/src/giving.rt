//! What a body leaves.
ghost use Rattle.std.specs.Prelude.{◌≡◌, IfSome};

use crate::body::Body;
use entry_log::FiberLog;

impl Body {
    /// The visible entries of its fiber, given up once the fiber is over.
    pub fn into_entries(self) -> FiberLog
        ensures entries { result.entries ≡ self.noted }
        ensures fiber { IfSome self.number (λ fiber. result.fiber ≡ fiber) }
    {
        Box::into_inner(self.content).noted
    }
}
