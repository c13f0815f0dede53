//! Tests of `script_tree` through its public calls: the verdicts on scripts at each limit and beyond it,
//! on every front of a long one and every changed byte of a short one, and the canonical text.
//!
//! It has nothing but tests, and stands on `script_tree`. They have a crate of their own since a crate is
//! proved a second time with its tests, and `script_tree` takes longest of all.
#![tactic(auto)]

#[cfg(test)]
mod tests;
