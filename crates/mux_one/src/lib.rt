//! Runs a machine on one thread: `run_fifo` gives each turn to the fiber that has been ready longest,
//! until every fiber has ended or waits for a trigger that nobody is left to signal, and always returns.
//!
//! It stands on `pic_machine`, `port_plain` and `pic_base`. The line of ready fibers is exactly the ready
//! list of the history's turns (`IsUnderWay` of `specs/UnderWay.antt`), and so has exactly the live
//! fibers: a fiber that was suspended leaves it, and is put at its end again by the turn that signals the
//! trigger. Each claim finds its fiber ready, and where the line is empty all is over. A poller lets no
//! fiber yield more often than it has steps, and no two fibers are suspended at one trigger, which bounds
//! the number of turns (`most_turns`).
#![tactic(auto)]

mod fifo;
mod line;

pub use fifo::run_fifo;

#[cfg(test)]
mod tests;
