//! The words of a script: where each stands, the line that it stands on, and the first line that
//! no script may have.
//!
//! It stands on std and `memchr`. The layer above uses `tokens`: what it answers groups into the
//! lines of the text that have words (`rows` of `specs/Lines.antt`), and its refusals are the first
//! faulty line (`first_fault` of `specs/Faults.antt`).
#![tactic(auto)]

mod fault;
mod line;
mod scan;
mod token;
mod word;

pub use scan::tokens;
pub use token::{Token, TokenRefusal, Tokens};

#[cfg(test)]
mod tests;
