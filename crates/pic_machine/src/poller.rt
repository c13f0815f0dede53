ghost use Rattle.std.specs.Prelude.{◌≡◌, ◌≢◌, ◌≤◌, List, Some};
ghost use Rattle.pic_base.specs.Steps.{most_steps};
ghost use Rattle.pic_machine.specs.Happened.{Happened};
ghost use Rattle.pic_machine.specs.Log.{log, own};
ghost use Rattle.pic_machine.specs.Order.{yields};
ghost use Rattle.pic_machine.specs.Sight.{Holds, Sight, fiber_of};

use crate::body::Carried;
use crate::port::{Port, ReadyLine};

/// How a poll ended: the turn is over and the port has the body back, or the body is handed back with
/// its turn under way.
#[derive(Clone, Copy, Debug, PartialEq, Eq)]
pub enum Turn<B> {
    /// The fiber has ended.
    Ended,
    /// The fiber yielded, and is ready.
    Yielded,
    /// The fiber is suspended at a trigger.
    Parked,
    /// Another port was in the way.
    Again(B),
    /// Memory was wanted and there was none.
    Memory(B),
}

/// What runs bodies on a port, a turn at a time.
pub trait Poller<P: Port> {
    ghost use Rattle.pic_machine.specs.Turning.{Polled};

    // It polls the bodies of such a port.
    ghost polls: { Self → Sight P.Body.Share → Type 0 };

    /// Runs one turn of the body's fiber, and adds each fiber that the turn makes ready to the line,
    /// in the order of happening.
    fn poll<R: ReadyLine>(&self, port: &mut P, line: &mut R, body: P::Body) -> Turn<P::Body>
        requires polls { polls self.now (P.sight port.old) }
        requires holds { Holds (P.sight port.old) (P.Body.seen body) }
        requires fiber { fiber_of (P.Body.seen body) ≢ 0 }
        requires fits { P.Body.fits body
            (log (P.sight port.old).front (fiber_of (P.Body.seen body))) }
        ensures { Polled result P.Body.seen P.Body.fits (P.sight port.old) (P.sight port.new)
            (P.Body.seen body) (R.told line.old) (R.told line.new) };

    // Where the history began, and what its bodies share, are all that matters of a port.
    ghost polls_later: { (poller : Self) (old new : Sight P.Body.Share) → polls poller old
        → new.origin ≡ old.origin → new.share ≡ old.share → polls poller new };

    // A fiber yields no more often than it has steps.
    ghost few: { (poller : Self) (body : P.Body) (log : List Happened) → (P.Body.seen body).number ≢ Some 0
        → P.Body.fits body log → yields (own log) ≤ most_steps };
}
