//! The words that every crate of Picos core shares: the numbers of things, the outcome of a
//! computation, the duties of a fiber, the limits of a machine and of a fiber, and the refusal for want
//! of memory.
//!
//! It stands on std alone. The layers above use its types as they are, and `outcome_text` of
//! `specs/Outcome.antt` for what an outcome prints.
#![tactic(auto)]

mod action;
mod duty;
mod limits;
mod memory;
mod numbers;
mod outcome;

pub use action::Action;
pub use duty::Duty;
pub use limits::{Limits, STEPS};
pub use memory::Memory;
pub use numbers::{CompNo, FiberNo, PlaceNo, TriggerNo, Value};
pub use outcome::Outcome;

#[cfg(test)]
mod tests;
