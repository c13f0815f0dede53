//! The top call.
ghost use Rattle.std.specs.Prelude.{◌≡◌, ◌≤◌, ◌⊎◌, ℕ, Bool, List, Some, None, [], ◌∷◌, ◌++◌, map, string_bytes};
ghost use Rattle.pic_run.specs.Due.{Due, asked_of};
ghost use Rattle.pic_run.specs.Headline.{Headline};
ghost use Rattle.pic_run.specs.Promise.{Owed, ReadsOnce, Serves, output_of};
ghost use Rattle.pic_run.specs.Request.{command_of, request as asked_for, run, script_of};
ghost use Rattle.pic_run.specs.Status.{IsOfRun};

use crate::limits::MOST_BYTES;
use crate::request::{Request, RequestRefusal, request_of};
use crate::script_call::{answer_script, ended};
use crate::status::Status;
use pic_io::{Files, ReadRefusal, Sink};
use pic_report::put_all;
use std::alloc::Global;

/// Does what the words ask for: reads the script, and writes the report of a run of it, that it is
/// one, or its canonical text; or one line that says why it doesn't. The words are the arguments
/// without the program's name. The file of the input is not opened yet, since no statement that runs
/// reads it. Want of memory may come at any point.
pub fn run_one_call<F: Files, K: Sink>(
    alloc: Global,
    words: &[String],
    files: &mut F,
    out: &mut K,
) -> Status
    // The text that was due, by the table of all answers, or what was taken of it.
    ensures serves { Serves
        (Due (asked_of F.held F.fault_count F.last_failed
        (map string_bytes words.now) files.old files.new))
        (output_of K.taken K.fault_count out.old out.new) result }

    // A run: one legal history of the machine, and its report.
    ensures headline { IsOfRun result → (script input : List ℕ) (traced logged : Bool)
        → asked_for (map string_bytes words.now) ≡ Some (run script input traced logged)
        → Headline (F.held files.old script) traced logged
        (K.taken out.old) (K.taken out.new) result }

    // Which answers come when.
    ensures owed { Owed
        (asked_of F.held F.fault_count F.last_failed
        (map string_bytes words.now) files.old files.new)
        (output_of K.taken K.fault_count out.old out.new) result }

    // A request reads the script's file and no other, once. Other words read no file.
    ensures reads { ReadsOnce (map string_bytes words.now) (F.reads files.old) (F.reads files.new)
        (result ≡ Status.OutOfMemory) }
    ensures untouched { asked_for (map string_bytes words.now) ≡ None → files.new ≡ files.old }
    ensures kept { (name : List ℕ) → F.held files.new name ≡ F.held files.old name }
    ensures steady { K.fault_count out.old ≤ K.fault_count out.new }
{
    call_once(alloc, words, files, out)
}

/// The same, with all that is known of the answer as one fact.
fn call_once<F: Files, K: Sink>(
    alloc: Global,
    words: &[String],
    files: &mut F,
    out: &mut K,
) -> Status
    ensures serves { Serves
        (Due (asked_of F.held F.fault_count F.last_failed
        (map string_bytes words.now) files.old files.new))
        (output_of K.taken K.fault_count out.old out.new) result }
    ensures reads { ReadsOnce (map string_bytes words.now) (F.reads files.old) (F.reads files.new)
        (result ≡ Status.OutOfMemory) }
    ensures untouched { asked_for (map string_bytes words.now) ≡ None → files.new ≡ files.old }
    ensures kept { (name : List ℕ) → F.held files.new name ≡ F.held files.old name }
    ensures steady { K.fault_count out.old ≤ K.fault_count out.new }
{
    match request_of(words) {
        Ok(request) => answer_file(alloc, &request, files, out),
        Err(RequestRefusal::Usage) => ended(put_all(out, "usage\n".as_bytes()), Status::Usage),
        Err(RequestRefusal::Memory) => Status::OutOfMemory,
    }
}

/// Answers a request that names a script's file.
fn answer_file<F: Files, K: Sink>(
    alloc: Global,
    request: &Request,
    files: &mut F,
    out: &mut K,
) -> Status
    ensures serves { (words : List (List ℕ))
        → asked_for words ≡ Some (command_of request.now)
        → Serves (Due (asked_of F.held F.fault_count F.last_failed words files.old files.new))
        (output_of K.taken K.fault_count out.old out.new) result }
    ensures reads { (F.reads files.new ≡ F.reads files.old ++ script_of (command_of request.now) ∷ [])
        ⊎ ((result ≡ Status.OutOfMemory) × (F.reads files.new ≡ F.reads files.old)) }
    ensures kept { (name : List ℕ) → F.held files.new name ≡ F.held files.old name }
    ensures steady { K.fault_count out.old ≤ K.fault_count out.new }
{
    match files.read(alloc, request.script(), MOST_BYTES) {
        Ok(bytes) => answer_script(alloc, request, bytes.as_slice(), out),
        Err(ReadRefusal::TooLarge) => {
            ended(put_all(out, "too large\n".as_bytes()), Status::TooLarge)
        }
        Err(ReadRefusal::Failed) => {
            ended(put_all(out, "read fault\n".as_bytes()), Status::ReadFault)
        }
        Err(ReadRefusal::Memory) => Status::OutOfMemory,
    }
}
