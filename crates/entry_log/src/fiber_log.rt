ghost use Rattle.std.specs.Prelude.{◌≡◌, ◌+◌, ◌-◌, ◌<◌, ◌≤◌, ◌==◌, ◌∷◌, [], ◌++◌, length, slice_get, take, OnErr, OnOk};

use crate::deeds::Deeds;
use crate::entry_iter::EntryIter;
use crate::kind::Deed;
use pic_base::{FiberNo, Memory};
use pic_machine::{Call, Entry, Reply};
use std::alloc::Global;
use std::marker::Model;

/// The entries of one fiber, in order. Its number stands once for all of them. Contracts see the `Logged`
/// of `specs/Logged.antt`.
#[derive(Drop)]
pub struct FiberLog {
    fiber: FiberNo,
    deeds: Deeds,
}

impl Model for FiberLog {
    ghost use Rattle.entry_log.specs.Logged.{Logged};
    ghost use Rattle.entry_log.specs.Kept.{by_fiber};

    ghost Value = { Logged };

    ghost view = { λ a. record {
      fiber = a.fiber;
      entries = by_fiber a.fiber a.deeds.list;
      room = a.deeds.room;
    } };
}

impl FiberLog {
    /// A log of this fiber with no entry.
    pub fn new(alloc: Global, fiber: FiberNo) -> FiberLog
        ensures fiber { result.fiber ≡ fiber }
        ensures entries { result.entries ≡ [] }
    {
        FiberLog {
            fiber,
            deeds: Deeds::new(alloc),
        }
    }

    /// The number of the fiber.
    pub fn fiber(&self) -> FiberNo
        ensures { result ≡ self.now.fiber }
    {
        self.fiber
    }

    /// Gives a log with no entry to another fiber, as to one whose number wasn't known before.
    pub fn set_fiber(&mut self, fiber: FiberNo)
        requires { self.old.entries ≡ [] }
        ensures fiber { self.new.fiber ≡ fiber }
        ensures entries { self.new.entries ≡ [] }
        ensures room { self.new.room ≡ self.old.room }
    {
        self.fiber = fiber;
    }

    /// Makes room for one further entry. Answers `Memory` only where there was no room and there is none to be
    /// had.
    #[inline(always)]
    pub fn reserve(&mut self) -> Result<(), Memory>
        ensures ok { OnOk result (0 < self.new.room) }
        ensures full { OnErr result (self.old.room ≡ 0) }
        ensures room { self.old.room ≤ self.new.room }
        ensures fiber { self.new.fiber ≡ self.old.fiber }
        ensures entries { self.new.entries ≡ self.old.entries }
    {
        self.deeds.reserve()
    }

    /// Puts an entry of the fiber behind the others. Allocates nothing.
    #[inline(always)]
    pub fn note(&mut self, call: Call, reply: Reply)
        requires { 0 < self.old.room }
        ensures room { self.old.room ≤ self.new.room + 1 }
        ensures fiber { self.new.fiber ≡ self.old.fiber }
        ensures entries { self.new.entries ≡ self.old.entries
            ++ record { fiber = self.old.fiber; call = call; reply = reply } ∷ [] }
    {
        self.deeds.note(call, reply);
    }

    /// Takes the last entry away, if there is one.
    pub fn unnote(&mut self)
        ensures room { self.old.room ≤ self.new.room }
        ensures fiber { self.new.fiber ≡ self.old.fiber }
        ensures entries { self.new.entries ≡ take (length self.old.entries - 1) self.old.entries }
    {
        self.deeds.unnote();
    }

    /// The last entry, if there is one.
    pub fn last(&self) -> Option<Entry>
        ensures { result ≡ slice_get self.now.entries (length self.now.entries - 1) }
    {
        let Deed { call, reply } = self.deeds.last()?;
        Some(Entry {
            fiber: self.fiber,
            call,
            reply,
        })
    }

    /// How many entries there are.
    pub fn len(&self) -> usize
        ensures { result ≡ length self.now.entries }
    {
        self.deeds.len()
    }

    /// Whether there is no entry.
    pub fn is_empty(&self) -> bool
        ensures { result ≡ (length self.now.entries == 0) }
    {
        self.len() == 0
    }

    /// The entries from the first on.
    pub fn iter(&self) -> EntryIter<'_>
        ensures { result ≡ self.now.entries }
    {
        EntryIter::of_one(self.fiber, self.deeds.iter())
    }
}

impl<'a> IntoIterator for &'a FiberLog {
    type Item = Entry;

    type IntoIter = EntryIter<'a>;

    ghost into_iter_gives = { λ log entries. entries ≡ log.now.entries };

    fn into_iter(self) -> EntryIter<'a> {
        self.iter()
    }
}
