//! The top call with a sink that its text is gathered for.
ghost use Rattle.std.specs.Prelude.{◌≡◌, ◌≤◌, ℕ, Bool, List, Some, None, map, string_bytes};
ghost use Rattle.std.specs.Io.KnownBytes.{append_known};
ghost use Rattle.pic_run.specs.Due.{Due, asked_of};
ghost use Rattle.pic_run.specs.Headline.{Headline};
ghost use Rattle.pic_run.specs.Promise.{GaveUp, Owed, ReadsOnce, ServesAtMost, finished_status, inner_output};
ghost use Rattle.pic_run.specs.Request.{request as asked_for, run};
ghost use Rattle.pic_run.specs.Status.{IsOfRun};

use crate::call::run_one_call;
use crate::status::Status;
use pic_io::{Files, Gathered, Sink, SinkRefusal};
use std::alloc::Global;

/// Does what the words ask for, as `run_one_call`. The text is gathered for the inner sink, which by
/// the end of the call has taken all of it, unless it failed or memory was wanted. What was gathered
/// before the call goes first.
pub fn run_to_end<F: Files, S: Sink>(
    alloc: Global,
    words: &[String],
    files: &mut F,
    out: &mut Gathered<S>,
) -> Status
    // The text that was due, by the table of all answers, or what was taken of it.
    ensures serves { ServesAtMost
        (Due (asked_of F.held F.fault_count F.last_failed
        (map string_bytes words.now) files.old files.new))
        (inner_output S.taken S.fault_count out.old out.new) result }

    // A run: one legal history of the machine, and its report.
    ensures headline { IsOfRun result → (script input : List ℕ) (traced logged : Bool)
        → asked_for (map string_bytes words.now) ≡ Some (run script input traced logged)
        → Headline (F.held files.old script) traced logged
        (append_known (S.taken out.old.inner) out.old.gathered.items)
        (S.taken out.new.inner) result }

    // Which answers come when.
    ensures owed { Owed
        (asked_of F.held F.fault_count F.last_failed
        (map string_bytes words.now) files.old files.new)
        (inner_output S.taken S.fault_count out.old out.new) result }

    // A request reads the script's file and no other, once. Other words read no file.
    ensures reads { ReadsOnce (map string_bytes words.now) (F.reads files.old) (F.reads files.new)
        (GaveUp result) }
    ensures untouched { asked_for (map string_bytes words.now) ≡ None → files.new ≡ files.old }
    ensures kept { (name : List ℕ) → F.held files.new name ≡ F.held files.old name }
{
    gather_to_end(alloc, words, files, out)
}

/// The same, with all that is known of the answer as one fact.
fn gather_to_end<F: Files, S: Sink>(
    alloc: Global,
    words: &[String],
    files: &mut F,
    out: &mut Gathered<S>,
) -> Status
    ensures serves { ServesAtMost
        (Due (asked_of F.held F.fault_count F.last_failed
        (map string_bytes words.now) files.old files.new))
        (inner_output S.taken S.fault_count out.old out.new) result }
    ensures reads { ReadsOnce (map string_bytes words.now) (F.reads files.old) (F.reads files.new)
        (GaveUp result) }
    ensures untouched { asked_for (map string_bytes words.now) ≡ None → files.new ≡ files.old }
    ensures kept { (name : List ℕ) → F.held files.new name ≡ F.held files.old name }
{
    let called = run_one_call(alloc, words, files, out);
    finished(called, out.finish())
}

/// The status of a call after which what was gathered was handed on so.
fn finished(called: Status, handed: Result<(), SinkRefusal>) -> Status
    ensures { result ≡ finished_status handed called }
{
    match handed {
        Ok(()) => called,
        Err(SinkRefusal::Failed) => Status::WriteFault,
        Err(SinkRefusal::Memory) => Status::OutOfMemory,
    }
}
