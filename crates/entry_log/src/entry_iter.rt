ghost use Rattle.std.specs.Prelude.{◌≡◌, length};
ghost use Rattle.entry_log.specs.Kept.{by_fiber, by_fibers};

use crate::iter::DeedsIter;
use crate::kind::Deed;
use pic_base::FiberNo;
use pic_machine::Entry;
use std::marker::Model;

/// Whose the entries are that an iterator has left.
#[derive(Drop)]
enum Owners<'a> {
    /// All are of this fiber.
    One(FiberNo),
    /// Each is of the fiber at its place.
    Many(&'a [FiberNo]),
}

/// Yields the entries of a log from the first on. Contracts see the list of those that are left.
#[derive(Drop)]
pub struct EntryIter<'a> {
    owners: Owners<'a>,
    deeds: DeedsIter<'a>,
}

impl<'a> Model for EntryIter<'a> {
    ghost use Rattle.std.specs.Prelude.{List};
    ghost use Rattle.pic_machine.specs.declared.entry.Entry.{Entry};
    ghost use Rattle.entry_log.specs.Owned.{IsOfEach, by_owners};

    ghost Value = { List Entry };

    ghost view = { λ a. by_owners a.owners a.deeds };

    ghost invariant = { λ a. IsOfEach a.owners a.deeds };
}

impl<'a> EntryIter<'a> {
    /// Over the deeds of one fiber.
    pub(crate) fn of_one(fiber: FiberNo, deeds: DeedsIter<'a>) -> EntryIter<'a>
        ensures { result ≡ by_fiber fiber deeds.entry }
    {
        EntryIter {
            owners: Owners::One(fiber),
            deeds,
        }
    }

    /// Over the deeds of many fibers, each of the fiber at its place.
    pub(crate) fn of_many(fibers: &'a [FiberNo], deeds: DeedsIter<'a>) -> EntryIter<'a>
        requires { length fibers.now ≡ length deeds }
        ensures { result ≡ by_fibers fibers.now deeds.entry }
    {
        EntryIter {
            owners: Owners::Many(fibers),
            deeds,
        }
    }
}

impl<'a> Iterator for EntryIter<'a> {
    ghost use Rattle.std.specs.Iterator.{YieldsFirst, item_count};

    type Item = Entry;

    ghost next_gives = { YieldsFirst (λ s. s) };

    ghost remaining = { item_count (λ s. s) };

    #[inline(always)]
    fn next(&mut self) -> Option<Entry> {
        let Deed { call, reply } = self.deeds.next()?;
        let fiber = match self.owners {
            Owners::One(fiber) => fiber,
            Owners::Many(fibers) => {
                self.owners = Owners::Many(&fibers[1..]);
                fibers[0]
            }
        };
        Some(Entry { fiber, call, reply })
    }
}
