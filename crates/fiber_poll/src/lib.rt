//! Runs the fibers of a script, a turn at a time, on any port.
//!
//! `ScriptPoller` keeps the contract of `Poller` for every port whose bodies are `Body`: a turn runs the
//! statements of the fiber's text one by one, in and out of their blocks, each as `fiber_body` says what
//! it means, until the fiber yields or ends. It polls where the port's bodies run its program, all of
//! whose forms are built (`built`, `specs/Built.antt`), and its computations stand (`specs/Polls.antt`).
//! It stands on `pic_base`, `pic_machine`, `script_tree` and `fiber_body`.
#![tactic(auto)]

mod blocks;
mod calls;
mod follow;
mod forms;
mod last;
mod looking;
mod making;
mod owed;
mod poller;
mod silent;
mod spot;
mod stmts;
mod turn;
mod under;
mod values;
mod within;

pub use forms::built;
pub use poller::ScriptPoller;

#[cfg(test)]
mod tests;
