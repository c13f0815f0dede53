ghost use Rattle.std.specs.Prelude.{◌≡◌, ◌<◌, ◌+◌, ◌^◌};
ghost use Rattle.fiber_poll.specs.Moving.{behind_at};

use fiber_body::{Exit, Standing, UnderWay};
use pic_base::Outcome;

/// A place in a block: that of a statement, or the block's end.
#[derive(Clone, Copy)]
pub(crate) struct Spot {
    pub block: u32,
    pub place: u32,
}

impl Spot {
    /// That a fiber stands there.
    pub(crate) fn here(self) -> Standing
        ensures { result ≡ Standing.At self.block self.place }
    {
        Standing::At {
            block: self.block,
            place: self.place,
        }
    }

    /// That a fiber stands within the statement at this place.
    pub(crate) fn within(self, way: UnderWay) -> Standing
        ensures { result ≡ Standing.Within self.block self.place way }
    {
        Standing::Within {
            block: self.block,
            place: self.place,
            way,
        }
    }

    /// Where a fiber stands once the statement at this place has ended so.
    pub(crate) fn behind(self, exit: Exit) -> Standing
        requires { self.place + 1 < 2 ^ 32 }
        ensures { result ≡ behind_at self exit }
    {
        match exit {
            Exit::Next => Standing::At {
                block: self.block,
                place: self.place + 1,
            },
            exit => Standing::Out(exit),
        }
    }
}

/// What ends a turn.
#[derive(Clone, Copy)]
pub(crate) enum Last {
    /// A yield, the statement at this place.
    Yield(Spot),
    /// The arming of the trigger for which the statement at this place waits, which stands there.
    Park(Spot, UnderWay),
    /// The fiber's end, with this outcome.
    End(Outcome),
}

/// What comes of a statement at once.
#[derive(Clone, Copy)]
pub(crate) enum AtOnce {
    /// It has come to its end, in this way.
    Ends(Exit),
    /// It is a test, and chose this block.
    Chooses(u32),
    /// Nothing: it has a call, or a block that isn't a test's.
    Waits,
}
