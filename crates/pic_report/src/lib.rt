//! The report of a run: what is told of it when it is over.
//!
//! `view_of` takes what a report needs (`RunView`) from what a port leaves when it is closed, and
//! `write_report` writes it to a sink, line by line. `specs/Report.antt` defines the text of a report
//! of a history, with `EntryText` for the texts of entries; `View` says what a view has of a history,
//! and which text is written of a view; `Output` says how a text was written. It stands on `pic_base`,
//! `pic_io`, `pic_machine`, `entry_log`, `script_tree`, `fiber_body` and the kit's `itoa`.
#![tactic(auto)]

mod completions;
mod comps;
mod entry_lines;
mod entry_texts;
mod fibers;
mod output;
mod refusal;
mod reply_words;
mod view;
mod writing;

pub use output::put_all;
pub use refusal::ReportRefusal;
pub use view::{FiberView, RunView, view_of};
pub use writing::write_report;

#[cfg(test)]
mod tests;
