//! The Picos machine: worlds, the entries that fibers make in them, the histories of entries that are
//! legal, and the contract of ports, by which everything above makes entries.
//!
//! `specs/` defines the machine, over lists and whole numbers, by cases on the call: `State` (a world),
//! `Duty` (what fibers owe), `Step` (which calls are allowed, their replies, and what they change of each
//! part of a world), `Happened` and `History` (legal histories and births), `Log` (what one fiber did, and
//! what of it was its own), `Completing` (how computations were completed), `Final` (nothing is left to
//! do, or something is) and `Order` (the turns of one worker, first ready, first run, or by another pick).
//! `Routine` says what a fiber does as a table of calls and replies, `Waits` has the tables of waiting for a
//! trigger, and `Following` that of waiting for a computation.
//! `World` is the machine itself: its calls are exactly the definition's start and step. What holds of every
//! legal history, whoever acts in it, `Laws` says, in the words of `Once` (what happens once), `Signalling`
//! (what becomes of attached triggers) and `Suspending` (who waits for what).
//!
//! A fiber's body (`Carried`) is moved between a port (`Port`), which has the bodies and makes their
//! entries in one history, and whoever runs it, a turn at a time (`Poller`). `Sight` defines what
//! contracts see of bodies and ports, `Lending` what a call did to them, `Turning` what a turn did,
//! `Home` what stands of a body that its port keeps, and `Closing` what is left of a machine at the end.
//! A port on one thread, one under a lock and one without locks meet the same contract, so what stands on
//! a port is proved once for all of them.
//!
//! The laws of `proofs/` are for those who write ports and what runs on them: how a legal history grows
//! (`Histories`), what a step changes of what its caller owes, and what else it and other fibers leave
//! standing (`Steps`, `Counts`, `Numbers`, `Staying`), that there is nothing of a fiber that isn't made
//! (`Fresh`), what a fiber's own log leaves out, and what it keeps (`Owns`), which numbers it may use, as its
//! log tells (`NumbersByLog`), how a port's call keeps the contract (`Onward`, `Homes`), what a body owes
//! behind one (`Lendings`, `Freeing`), how turns and the answers of polls are put together and stand in order
//! (`Turns`, `Polls`), that the ready list has exactly the live fibers (`Readiness`), that where not all is
//! over somebody is live or owes (`Finals`), and where nobody is live all is over (`Rests`), how many waits
//! and turns there can be where fibers yield so often (`Parks`, `Turnings`), how one routine stands in another
//! one (`Embedded`), what a log tells of how its fiber
//! and the computations ended (`Ends`, `Fates`, `Completions`), that all duties are signals (`Dues`), and that
//! `Laws` holds (`Lawfully`). It stands on `pic_base`.
#![tactic(auto)]

mod attached;
mod birth;
mod body;
mod closed;
mod duties;
mod entry;
mod poller;
mod port;
mod state;
mod waits;
mod world;

pub use attached::Attached;
pub use birth::Birth;
pub use body::Carried;
pub use closed::Closed;
pub use duties::Duties;
pub use entry::{ArmReply, AttachReply, Call, CompleteReply, Entry, Reply, SignalReply};
pub use poller::{Poller, Turn};
pub use port::{ClaimRefusal, Idle, ParkRefusal, Port, PortFault, ReadyLine};
pub use state::{CompState, Completion, FiberState, TrigState};
pub use waits::{Parts, Standing};
pub use world::{Start, World};

#[cfg(test)]
mod tests;
