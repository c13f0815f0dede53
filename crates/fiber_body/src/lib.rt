//! A fiber of a script: its body, and what its statements mean.
//!
//! `specs/` defines the meaning of scripts, over lists of what happened. First come tables, whose lines
//! are the statements' own: `Context` (what statements read and write, and the numbers of declared
//! things), `Phases` (where a statement stands, from one of its calls to the next one), `Statements`
//! (how each begins: what it changes, or its call and what the reply makes of it, or its block) and
//! `Tables` (at each phase the call that is asked for and where its reply leads, or how it goes on by
//! itself; and what is done at the exit of a block). Then come rules that know no statement: `Segments`
//! (which segments of a log statements leave, whole or cut anywhere), `Follows` (which logs a fiber may
//! have, from its birth on) and `Around` (where a fiber stands in its text, what is around that place, and
//! what may come of it). `Texts` and `Starts` are a program's texts, and what stands before its first
//! entry. A log may stop anywhere, so this speaks of fibers under way too; turns have no place in it.
//!
//! `Body` is what a port moves about: it keeps each clause of `Carried`, seen as the `Shown` of
//! `specs/Shown.antt`; `Fits` says where it stands after a log, and `New` what it is before the first one.
//! Three files of `specs/` are laws on which proofs above stand too: `Framing`, what each row of the tables
//! makes of where a fiber stands, once for all statements; `Laws`, that a body fits where its log leads to
//! it, and goes on to fit where something else of it changes; and `Places`, what stands at a place of a
//! list. The walks of `proofs/Walks.antt` and `proofs/WalksUnder.antt` go through each line of the tables by
//! given replies.
//!
//! Pollers use a body's calls: `change` for a statement that makes no entry and has no block, `stand` and
//! the calls on frames for all others; with `Numbers` they find the triggers and computations that statements
//! name, and with `block_at` the statements of a block. Where a step of theirs leads they prove by the lemmas of
//! `Framing` (one for each kind of row), and by `leads_segment` that the log follows its text there. Who
//! begins a run uses `Body::new`, `Body::clock` and `start_of`. It stands on `pic_base`, `pic_machine`,
//! `entry_log` and `script_tree`.
#![tactic(auto)]

mod body;
mod carried;
mod change;
mod giving;
mod numbering;
mod standing;
mod start;
mod texts;
mod under_way;

pub use body::Body;
pub use numbering::{Counted, Numbers};
pub use standing::{Exit, Frame, Standing};
pub use start::start_of;
pub use texts::block_at;
pub use under_way::UnderWay;

#[cfg(test)]
mod tests;
