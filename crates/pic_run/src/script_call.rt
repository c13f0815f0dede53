//! The answer to a request on the bytes of a script.
ghost use Rattle.std.specs.Prelude.{◌≡◌, ◌≤◌, ℕ, Bool, List, length};
ghost use Rattle.pic_io.specs.Held.{holds};
ghost use Rattle.pic_run.specs.Answer.{ended_status};
ghost use Rattle.pic_run.specs.Due.{Answers};
ghost use Rattle.pic_run.specs.Headline.{Headline};
ghost use Rattle.pic_run.specs.Promise.{OwedOn, Serves, output_of};
ghost use Rattle.pic_run.specs.Request.{command_of, run};
ghost use Rattle.pic_run.specs.Status.{IsOfRun};

use crate::answer::{Answer, answer_of_text};
use crate::request::Request;
use crate::status::Status;
use pic_io::Sink;
use pic_report::{ReportRefusal, put_all, write_report};
use std::alloc::Global;

/// Does with the bytes of a script what the request asks for, and writes what came of it: the report
/// of a run of the script, that it is one, its canonical text, or why it was refused. No file is read.
/// The one condition is that there are at most 16,777,216 bytes (`MOST_BYTES`).
pub fn answer_script<K: Sink>(
    alloc: Global,
    request: &Request,
    script: &[u8],
    out: &mut K,
) -> Status
    requires { length script.now ≤ 16777216 }

    // The text that was due, or what was taken of it.
    ensures serves { Serves (Answers script.now (command_of request.now))
        (output_of K.taken K.fault_count out.old out.new) result }

    // A run: one legal history of the machine, and its report.
    ensures headline { IsOfRun result → (name input : List ℕ) (traced logged : Bool)
        → command_of request.now ≡ run name input traced logged
        → Headline (holds script.now) traced logged (K.taken out.old) (K.taken out.new) result }

    // Which answers come when.
    ensures owed { OwedOn script.now (command_of request.now)
        (output_of K.taken K.fault_count out.old out.new) result }
    ensures steady { K.fault_count out.old ≤ K.fault_count out.new }
{
    put_answer(alloc, request, script, out)
}

/// The same, with all that is known of the answer as one fact.
fn put_answer<K: Sink>(alloc: Global, request: &Request, script: &[u8], out: &mut K) -> Status
    requires { length script.now ≤ 16777216 }
    ensures serves { Serves (Answers script.now (command_of request.now))
        (output_of K.taken K.fault_count out.old out.new) result }
    ensures steady { K.fault_count out.old ≤ K.fault_count out.new }
{
    let Ok(answer) = answer_of_text(alloc, request, script) else {
        return Status::OutOfMemory;
    };
    match answer {
        Answer::Text(text, status) => ended(put_all(out, text.as_bytes()), status),
        Answer::Made(text, status) => ended(put_all(out, text.as_str().as_bytes()), status),
        Answer::Report(report) => ended(
            write_report(alloc, &report.program, &report.view, out),
            report.status,
        ),
    }
}

/// The status of a call whose text was written so.
pub(crate) fn ended(written: Result<(), ReportRefusal>, good: Status) -> Status
    ensures { result ≡ ended_status written good }
{
    match written {
        Ok(()) => good,
        Err(ReportRefusal::WriteFault) => Status::WriteFault,
        Err(ReportRefusal::Memory) => Status::OutOfMemory,
    }
}
