ghost use Rattle.std.specs.Prelude.{◌≡◌, ◌+◌, ◌-◌, ◌<◌, ◌≤◌, ◌==◌, ◌∷◌, [], ◌++◌, length, slice_get, take, OnErr, OnOk};

use crate::deeds::Deeds;
use crate::entry_iter::EntryIter;
use crate::kind::Deed;
use pic_base::{FiberNo, Memory};
use pic_machine::Entry;
use std::alloc::Global;
use std::marker::Model;

/// The entries of many fibers, in order of happening. Contracts see the `Recorded` of
/// `specs/Logged.antt`.
#[derive(Drop)]
pub struct EntryLog {
    fibers: Vec<FiberNo>,
    deeds: Deeds,
}

impl Model for EntryLog {
    ghost use Rattle.std.specs.Prelude.{◌≡◌, ◌-◌, length, min, vec_len, vec_capacity};
    ghost use Rattle.entry_log.specs.Logged.{Recorded};
    ghost use Rattle.entry_log.specs.Kept.{by_fibers};

    ghost Value = { Recorded };

    ghost view = { λ a. record {
      entries = by_fibers a.fibers.items a.deeds.list;
      room = min (vec_capacity a.fibers - vec_len a.fibers) a.deeds.room;
    } };

    ghost invariant = { λ a. length a.fibers.items ≡ length a.deeds.list };
}

impl EntryLog {
    /// A log with no entry.
    pub fn new(alloc: Global) -> EntryLog
        ensures { result.entries ≡ [] }
    {
        EntryLog {
            fibers: Vec::new(alloc),
            deeds: Deeds::new(alloc),
        }
    }

    /// Makes room for one further entry. Answers `Memory` only where there was no room and there is none to be
    /// had.
    #[inline(always)]
    pub fn reserve(&mut self) -> Result<(), Memory>
        ensures ok { OnOk result (0 < self.new.room) }
        ensures full { OnErr result (self.old.room ≡ 0) }
        ensures room { self.old.room ≤ self.new.room }
        ensures entries { self.new.entries ≡ self.old.entries }
    {
        self.fibers.reserve(1)?;
        self.deeds.reserve()
    }

    /// Puts an entry behind the others. Allocates nothing.
    #[inline(always)]
    pub fn push_reserved(&mut self, entry: Entry)
        requires { 0 < self.old.room }
        ensures room { self.old.room ≤ self.new.room + 1 }
        ensures entries { self.new.entries ≡ self.old.entries ++ entry ∷ [] }
    {
        let Entry { fiber, call, reply } = entry;
        self.fibers.push_reserved(fiber);
        self.deeds.note(call, reply);
    }

    /// Takes the last entry away, if there is one.
    pub fn unnote(&mut self)
        ensures room { self.old.room ≤ self.new.room }
        ensures entries { self.new.entries ≡ take (length self.old.entries - 1) self.old.entries }
    {
        if self.fibers.pop().is_some() {
            self.deeds.unnote();
        }
    }

    /// The last entry, if there is one.
    pub fn last(&self) -> Option<Entry>
        ensures { result ≡ slice_get self.now.entries (length self.now.entries - 1) }
    {
        let fiber = *self.fibers.last()?;
        let Deed { call, reply } = self.deeds.last()?;
        Some(Entry { fiber, call, reply })
    }

    /// How many entries there are.
    pub fn len(&self) -> usize
        ensures { result ≡ length self.now.entries }
    {
        self.fibers.len()
    }

    /// Whether there is no entry.
    pub fn is_empty(&self) -> bool
        ensures { result ≡ (length self.now.entries == 0) }
    {
        self.len() == 0
    }

    /// The entries from the first on.
    pub fn iter(&self) -> EntryIter<'_>
        ensures { result ≡ self.now.entries }
    {
        EntryIter::of_many(self.fibers.as_slice(), self.deeds.iter())
    }
}

impl<'a> IntoIterator for &'a EntryLog {
    type Item = Entry;

    type IntoIter = EntryIter<'a>;

    ghost into_iter_gives = { λ log entries. entries ≡ log.now.entries };

    fn into_iter(self) -> EntryIter<'a> {
        self.iter()
    }
}
