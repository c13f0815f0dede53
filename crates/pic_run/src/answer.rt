//! Makes ready what a call has to write.
ghost use Rattle.std.specs.Prelude.{◌≡◌, ◌≤◌, ℕ, List, Ok, length, IfOk};
ghost use Rattle.script_tree.specs.Grammar.{grammar};
ghost use Rattle.pic_run.specs.Request.{command_of, run};
ghost use Rattle.pic_run.specs.Answer.{Tells, answer_status, answer_text};
ghost use Rattle.pic_run.specs.Due.{Answers};

use crate::report::{Report, report_of};
use crate::request::{Mode, Request};
use crate::run::run_program;
use crate::status::Status;
use fiber_poll::built;
use pic_base::Memory;
use script_tree::{ParseRefusal, Program, Refused, parse, show};
use std::alloc::Global;
use std::sync::Arc;

/// How a script is refused of which not all forms are run yet.
const UNSERVED: Refused = Refused { line: 0, cause: 0 };

/// A text to write, and the status of a call that has written it whole.
#[derive(Drop)]
pub(crate) enum Answer {
    /// A line that is always the same.
    Text(&'static str, Status),
    /// A text that was made for this call.
    Made(String, Status),
    /// The report of a run.
    Report(Report),
}

/// What a call has to write that asks so of these bytes.
pub(crate) fn answer_of_text(
    alloc: Global,
    request: &Request,
    bytes: &[u8],
) -> Result<Answer, Memory>
    requires { length bytes.now ≤ 16777216 }
    ensures { IfOk result (λ answer.
        Answers bytes.now (command_of request.now) (answer_text answer) (answer_status answer)) }
{
    match parse(alloc, bytes) {
        Ok(program) => answer_of_program(alloc, request, program),
        Err(ParseRefusal::Refused(refused)) => refusal(alloc, refused),
        Err(ParseRefusal::Memory) => Err(Memory),
    }
}

/// What a call has to write that asks so of a script.
fn answer_of_program(alloc: Global, request: &Request, program: Program) -> Result<Answer, Memory>
    ensures { IfOk result (λ answer. (bytes : List ℕ) → grammar bytes ≡ Ok program
        → Answers bytes (command_of request.now) (answer_text answer) (answer_status answer)) }
{
    match request.mode {
        Mode::Run { .. } => answer_of_run(alloc, program, request.trace, request.log),
        Mode::Check { .. } => Ok(Answer::Text("ok\n", Status::Done)),
        Mode::Show { .. } => Ok(Answer::Made(show(alloc, &program)?, Status::Done)),
    }
}

/// The report of a run, where all forms of the script are run so far.
fn answer_of_run(alloc: Global, program: Program, trace: bool, log: bool) -> Result<Answer, Memory>
    ensures { IfOk result (λ answer. (bytes script input : List ℕ) → grammar bytes ≡ Ok program
        → Answers bytes (run script input trace log) (answer_text answer) (answer_status answer)) }
{
    if !built(&program) {
        return refusal(alloc, UNSERVED);
    }
    let program = Arc::new(alloc, program)?;
    let port = run_program(alloc, &program)?;
    Ok(Answer::Report(report_of(alloc, program, port, trace, log)?))
}

/// The line that tells why a script was refused.
fn refusal(alloc: Global, refused: Refused) -> Result<Answer, Memory>
    ensures { IfOk result (λ answer. Tells answer refused) }
{
    let line = refused.line;
    let cause = refused.cause;
    let text = format!(in alloc; "refused line {line} cause {cause}\n")?;
    Ok(Answer::Made(text, Status::Refused))
}
