//! What a port asks of a body.
ghost use Rattle.std.proofs.Common.{refl, ◌∙◌};
ghost use Rattle.fiber_body.specs.Shown.{IsSameRest, carry_of};
ghost use Rattle.fiber_body.specs.Fits.{Fits};
ghost use Rattle.fiber_body.specs.Laws.{clock_fits, fits_fresh, fits_same};

use crate::body::Body;
use pic_base::{FiberNo, Memory};
use pic_machine::{Birth, Call, Carried, Duties, Reply};
use script_tree::Program;
use std::snapshot::Snapshot;

impl Carried for Body {
    type Share = Option<Program>;

    ghost seen = { carry_of };

    ghost same_rest = { IsSameRest };

    ghost fits = { Fits };

    fn birth(&self) -> Birth {
        self.content.birth
    }

    fn fiber(&self) -> FiberNo {
        match self.content.number {
            Some(fiber) => fiber,
            None => unreachable!("the body has a number"),
        }
    }

    fn number(&mut self, fiber: FiberNo) {
        self.content.number = Some(fiber);
        self.content.noted.set_fiber(fiber);
    }

    #[inline(always)]
    fn reserve(&mut self) -> Result<(), Memory> {
        self.content.noted.reserve()
    }

    #[inline(always)]
    fn note(&mut self, call: Call, reply: Reply) {
        self.content.noted.note(call, reply);
    }

    #[inline(always)]
    fn owe(&mut self, duties: Snapshot<Duties>) {
        self.content.owed = duties;
    }

    ghost shows = { λ body log fits. fits.noted };

    ghost clock = { clock_fits };

    ghost fits_same = { fits_same };

    ghost fits_fresh = { fits_fresh };

    ghost rest_same = { λ body. record {
      context = refl;
      standing = refl;
      frames = refl;
    } };

    ghost rest_after = { λ a b c one other. record {
      context = other.context ∙ one.context;
      standing = other.standing ∙ one.standing;
      frames = other.frames ∙ one.frames;
    } };
}
