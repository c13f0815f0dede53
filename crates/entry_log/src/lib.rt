//! Lists of entries in few bytes, for the history of a run and for what one fiber did.
//!
//! An entry that stands in hot loops takes one byte and four for each of its numbers, and in a history
//! four more for its fiber; any other takes its own size and this byte. Nothing of it shows in a
//! contract: `EntryLog` is seen as the list of its entries (`Recorded` of `specs/Logged.antt`), `FiberLog`
//! as its fiber and the list of its entries (`Logged`), and `EntryIter`, which yields the entries of both,
//! as the list of those that are left. The layers above use just these: `reserve` makes room for an entry, `push_reserved` and `note`
//! put it behind the others, `unnote` takes the last away, and `last`, `len` and `iter` read. Each is
//! exact.
//!
//! Inside, the entries of both are `Deeds`: of each its kind (`kind`), apart from the kinds the numbers of
//! all, and apart from both those that are kept whole. `packing` says which calls with which replies are
//! packed, and how, and `reading` is the way back; any other is kept whole, so that a new call or reply costs
//! nothing here until it is worth packing. It stands on `pic_base` and `pic_machine`.
#![tactic(auto)]

mod deeds;
mod entry_iter;
mod entry_log;
mod fiber_log;
mod iter;
mod kind;
mod outcomes;
mod packing;
mod reading;

pub use entry_iter::EntryIter;
pub use entry_log::EntryLog;
pub use fiber_log::FiberLog;

#[cfg(test)]
mod tests;
