ghost use Rattle.std.specs.Prelude.{◌≡◌, length};
ghost use Rattle.std.specs.Iterator.{YieldsFirst, item_count};
ghost use Rattle.entry_log.specs.Packing.{all_wholes, total};
ghost use Rattle.entry_log.specs.Reading.{deeds_of};

use crate::kind::{Deed, Kind};
use crate::packing::{wholes, width};
use crate::reading::read;
use std::marker::Model;

/// Yields deeds from the first on. Contracts see the list of those that are left.
#[derive(Drop)]
pub(crate) struct DeedsIter<'a> {
    kinds: &'a [Kind],
    numbers: &'a [u32],
    kept: &'a [Deed],
}

impl<'a> Model for DeedsIter<'a> {
    ghost use Rattle.std.specs.Prelude.{◌≡◌, List, length};
    ghost use Rattle.entry_log.specs.declared.kind.Deed.{Deed};

    ghost Value = { List Deed };

    ghost use Rattle.entry_log.specs.Packing.{all_wholes, total};
    ghost use Rattle.entry_log.specs.Reading.{deeds_of};

    ghost view = { λ a. deeds_of a.kinds.now a.numbers.now a.kept.now };

    ghost invariant = { λ a. (length a.numbers.now ≡ total a.kinds.now)
        × (length a.kept.now ≡ all_wholes a.kinds.now) };
}

impl<'a> DeedsIter<'a> {
    pub(crate) fn over(kinds: &'a [Kind], numbers: &'a [u32], kept: &'a [Deed]) -> DeedsIter<'a>
        requires numbers { length numbers.now ≡ total kinds.now }
        requires kept { length kept.now ≡ all_wholes kinds.now }
        ensures { result ≡ deeds_of kinds.now numbers.now kept.now }
    {
        DeedsIter {
            kinds,
            numbers,
            kept,
        }
    }
}

impl<'a> Iterator for DeedsIter<'a> {
    type Item = Deed;

    ghost next_gives = { YieldsFirst (λ s. s) };

    ghost remaining = { item_count (λ s. s) };

    #[inline(always)]
    fn next(&mut self) -> Option<Deed> {
        let (kind, kinds) = self.kinds.split_first()?;
        let kind = *kind;
        let (numbers, other_numbers) = self.numbers.split_at(width(kind));
        let (kept, other_kept) = self.kept.split_at(wholes(kind));
        self.kinds = kinds;
        self.numbers = other_numbers;
        self.kept = other_kept;
        Some(read(kind, numbers, kept))
    }
}
