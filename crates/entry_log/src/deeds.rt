ghost use Rattle.std.specs.Prelude.{◌≡◌, ◌+◌, ◌-◌, ◌<◌, ◌≤◌, ◌∷◌, [], ◌++◌, length, slice_get, take, OnErr, OnOk};

use crate::iter::DeedsIter;
use crate::kind::{Deed, Kind};
use crate::packing::{put, wholes, width};
use crate::reading::read;
use pic_base::Memory;
use pic_machine::{Call, Reply};
use std::alloc::Global;
use std::marker::Model;

/// A list of deeds: of each its kind, and apart from the kinds the numbers of all, and those that are
/// kept whole. Contracts see the `Kept` of `specs/Kept.antt`.
#[derive(Drop)]
pub(crate) struct Deeds {
    kinds: Vec<Kind>,
    numbers: Vec<u32>,
    kept: Vec<Deed>,
}

impl Model for Deeds {
    ghost use Rattle.std.specs.Prelude.{◌≡◌, ◌-◌, ◌/◌, length, min, vec_len, vec_capacity};
    ghost use Rattle.entry_log.specs.Kept.{Kept};
    ghost use Rattle.entry_log.specs.Packing.{all_wholes, total};
    ghost use Rattle.entry_log.specs.Reading.{deeds_of};

    ghost Value = { Kept };

    // A deed has three numbers at most.
    ghost view = { λ a. record {
      list = deeds_of a.kinds.items a.numbers.items a.kept.items;
      room = min (vec_capacity a.kinds - vec_len a.kinds)
          (min ((vec_capacity a.numbers - vec_len a.numbers) / 3) (vec_capacity a.kept - vec_len a.kept));
    } };

    ghost invariant = { λ a. (length a.numbers.items ≡ total a.kinds.items)
        × (length a.kept.items ≡ all_wholes a.kinds.items) };
}

impl Deeds {
    pub(crate) fn new(alloc: Global) -> Deeds
        ensures { result.list ≡ [] }
    {
        Deeds {
            kinds: Vec::new(alloc),
            numbers: Vec::new(alloc),
            kept: Vec::new(alloc),
        }
    }

    /// Makes room for one more.
    #[inline(always)]
    pub(crate) fn reserve(&mut self) -> Result<(), Memory>
        ensures ok { OnOk result (0 < self.new.room) }
        ensures full { OnErr result (self.old.room ≡ 0) }
        ensures room { self.old.room ≤ self.new.room }
        ensures list { self.new.list ≡ self.old.list }
    {
        self.kinds.reserve(1)?;
        self.numbers.reserve(3)?;
        self.kept.reserve(1)?;
        Ok(())
    }

    /// Puts one behind the others.
    #[inline(always)]
    pub(crate) fn note(&mut self, call: Call, reply: Reply)
        requires { 0 < self.old.room }
        ensures room { self.old.room ≤ self.new.room + 1 }
        ensures list { self.new.list ≡ self.old.list ++ record { call = call; reply = reply } ∷ [] }
    {
        let kind = put(call, reply, &mut self.numbers, &mut self.kept);
        self.kinds.push_reserved(kind);
    }

    /// Takes the last away, if there is one.
    pub(crate) fn unnote(&mut self)
        ensures room { self.old.room ≤ self.new.room }
        ensures list { self.new.list ≡ take (length self.old.list - 1) self.old.list }
    {
        if let Some(kind) = self.kinds.pop() {
            self.numbers.truncate(self.numbers.len() - width(kind));
            self.kept.truncate(self.kept.len() - wholes(kind));
        }
    }

    /// The last, if there is one.
    pub(crate) fn last(&self) -> Option<Deed>
        ensures { result ≡ slice_get self.now.list (length self.now.list - 1) }
    {
        let kind = *self.kinds.last()?;
        let (_, numbers) = self.numbers.split_at(self.numbers.len() - width(kind));
        let (_, kept) = self.kept.split_at(self.kept.len() - wholes(kind));
        Some(read(kind, numbers, kept))
    }

    /// How many there are.
    pub(crate) fn len(&self) -> usize
        ensures { result ≡ length self.now.list }
    {
        self.kinds.len()
    }

    /// They from the first on.
    pub(crate) fn iter(&self) -> DeedsIter<'_>
        ensures { result ≡ self.now.list }
    {
        DeedsIter::over(
            self.kinds.as_slice(),
            self.numbers.as_slice(),
            self.kept.as_slice(),
        )
    }
}
