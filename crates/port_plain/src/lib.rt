//! The machine on one thread: a port that is alone and stores the world, the whole history and each
//! body that isn't out.
//!
//! It stands on `pic_base`, `pic_machine` and `entry_log`. The layers above use `PlainPort`: the contract
//! of `Port`, each clause of which it keeps, at the sight of `specs/Shown.antt` (it is alone, and nobody is
//! ever in its way, so no call answers `Again`); `open`; `history`, the entries of the front as an
//! `EntryLog`, and `births`, those of the fibers that it made; `world`, to which it leads; and `close`,
//! which hands out each body as the history says that it is (`IsLeft` of `pic_machine`), with what it owes
//! (`OwesAsLeft` of `specs/Closing.antt`), and `close_with_history`, which hands out the entries too.
#![tactic(auto)]

mod plain;
mod port;

pub use plain::PlainPort;

#[cfg(test)]
mod tests;
