//! A body that is its entries alone.
ghost use Rattle.std.specs.Prelude.{◌≡◌, ⊤, [], None};
ghost use Rattle.std.proofs.Common.{◌∙◌};
ghost use Rattle.pic_machine.specs.Log.{visible};

use entry_log::EntryLog;
use pic_base::{FiberNo, Memory};
use pic_machine::{Birth, Call, Carried, Duties, Entry, Reply};
use std::alloc::Global;
use std::snapshot::Snapshot;

#[derive(Drop)]
pub(super) struct Bare {
    birth: Birth,
    number: Option<FiberNo>,
    noted: EntryLog,
    owes: Snapshot<Duties>,
}

impl Carried for Bare {
    type Share = ();

    ghost seen = { λ body. record {
      birth = body.birth;
      number = body.number;
      noted = body.noted.entries;
      room = body.noted.room;
      owes = body.owes.value;
      share = tt;
    } };

    ghost same_rest = { λ old new. ⊤ };

    ghost fits = { λ body log. body.noted.entries ≡ visible log };

    fn birth(&self) -> Birth {
        self.birth
    }

    fn fiber(&self) -> FiberNo {
        match self.number {
            Some(fiber) => fiber,
            None => unreachable!("the body has a number"),
        }
    }

    fn number(&mut self, fiber: FiberNo) {
        self.number = Some(fiber);
    }

    fn reserve(&mut self) -> Result<(), Memory> {
        self.noted.reserve()
    }

    fn note(&mut self, call: Call, reply: Reply) {
        let fiber = self.fiber();
        self.noted.push_reserved(Entry { fiber, call, reply });
    }

    fn owe(&mut self, duties: Snapshot<Duties>) {
        self.owes = duties;
    }

    ghost shows = { λ body log fits. fits };

    ghost clock = { λ body log number noted. noted };

    ghost fits_same = { λ old new log fits rest same. same.noted ∙ fits };

    ghost fits_fresh = { λ old new fits number rest birth noted share. noted ∙ fits };

    ghost rest_same = { λ body. tt };

    ghost rest_after = { λ a b c one other. tt };
}

impl Bare {
    pub(super) fn new(alloc: Global, text: u32, value: u32) -> Bare
        ensures birth { result.birth ≡ record { text = text; value = value; current = 0 } }
        ensures number { result.number ≡ None }
        ensures noted { result.noted.entries ≡ [] }
        ensures owes { result.owes.value ≡ [] }
    {
        Bare {
            birth: Birth {
                text,
                value,
                current: 0,
            },
            number: None,
            noted: EntryLog::new(alloc),
            owes: Snapshot::of(&Duties::none(alloc)),
        }
    }

    pub(super) fn noted(&self) -> &EntryLog {
        &self.noted
    }
}
