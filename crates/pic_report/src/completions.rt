//! How computations were completed, found in one pass over what the fibers did.
ghost use Rattle.std.specs.Prelude.{◌≡◌, ◌<◌, ◌==◌, if◌then◌else◌, ℕ, length, Some, None, slice_index_or, IfOk, MatchOption};
ghost use Rattle.pic_machine.specs.Completing.{completion, completion_at};
ghost use Rattle.pic_report.specs.Lines.{IsNoted, noted};
ghost use Rattle.pic_report.specs.View.{all_entries};

use crate::view::RunView;
use entry_log::FiberLog;
use pic_base::{CompNo, Memory};
use pic_machine::{Call, CompleteReply, Completion, Entry, Reply};
use std::alloc::Global;

/// How each of the first computations was completed, at the computation's number.
pub(crate) fn completions_of(
    alloc: Global,
    view: &RunView,
    count: usize,
) -> Result<Vec<Option<Completion>>, Memory>
    ensures count { IfOk result (λ found. length found.items ≡ count) }
    ensures each { IfOk result (λ found. (c : ℕ) → c < count
        → slice_index_or found.items c None ≡ completion (all_entries view.entry.now) c) }
{
    let mut found: Vec<Option<Completion>> = vec![in alloc; None; count]?;
    for fiber in &view.fibers {
        note_all(&mut found, &fiber.entries);
    }
    note_all(&mut found, &view.clock_entries);
    Ok(found)
}

/// Notes what the entries tell.
fn note_all(found: &mut Vec<Option<Completion>>, entries: &FiberLog)
    ensures { IsNoted found.old.items found.new.items entries.now.entries }
{
    for entry in entries {
        if let Some((comp, completion)) = completion_by(entry) {
            note(found, comp as usize, completion);
        }
    }
}

/// Notes the completion at a place that has none yet.
fn note(found: &mut Vec<Option<Completion>>, place: usize, completion: Completion)
    ensures { found.new.items ≡ noted found.old.items place completion }
{
    if place < found.len() && found[place].is_none() {
        found[place] = Some(completion);
    }
}

/// The computation that the entry completed, and how.
fn completion_by(entry: Entry) -> Option<(CompNo, Completion)>
    ensures { MatchOption result
        ((c : ℕ) → completion_at c entry.fiber entry.call entry.reply ≡ None)
        (λ told. (c : ℕ) → completion_at c entry.fiber entry.call entry.reply
        ≡ (if told.0 == c then Some told.1 else None)) }
{
    match (entry.call, entry.reply) {
        (Call::Complete { comp, outcome }, Reply::Completed(CompleteReply::Won)) => Some((
            comp,
            Completion {
                fiber: entry.fiber,
                outcome,
            },
        )),
        _ => None,
    }
}
