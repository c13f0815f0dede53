//! The top calls: from the words of a command line to the bytes of a report.
//!
//! - `run_to_end` does what the words ask for, and hands all that it wrote on to a sink. The program is
//!   this call.
//! - `run_one_call` does the same, and puts each piece to the sink as it comes.
//! - `answer_script` answers a request on the bytes of a script, without files: both others go through
//!   it.
//!
//! A run parses the script (`script_tree`), opens a port, has `mux_one` run all fibers on it until each
//! one has ended or is suspended for good (`run`), and has `pic_report` write the report (`report`).
//!
//! `specs/` has the definitions that the contracts cite: what the words ask for (`Request`), which text
//! is due with which status (`Due`), what a call promises of it (`Promise`), the headline of a run
//! (`Headline`), which histories are runs (`Run`), what is refused (`Refusal`), the statuses (`Status`),
//! and the limits (`Limits`).
#![tactic(auto)]

mod answer;
mod call;
mod flags;
mod limits;
mod report;
mod request;
mod run;
mod script_call;
mod status;
mod to_end;

pub use call::run_one_call;
pub use limits::{LIMITS, MOST_BYTES};
pub use request::{Mode, Request, RequestRefusal, request_of};
pub use script_call::answer_script;
pub use status::Status;
pub use to_end::run_to_end;

#[cfg(test)]
mod tests;
