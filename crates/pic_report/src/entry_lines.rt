//! The lines of entries: those of the trace, and those of the fibers' logs.
ghost use Rattle.std.specs.Prelude.{map};
ghost use Rattle.pic_report.specs.EntryLine.{entry_line};
ghost use Rattle.pic_report.specs.Output.{Puts};
ghost use Rattle.pic_report.specs.Report.{joined, text_names};

use crate::entry_texts::EntryText;
use crate::output::put_line;
use crate::refusal::ReportRefusal;
use entry_log::EntryIter;
use pic_io::Sink;
use pic_machine::Entry;
use script_tree::Program;

/// Where an entry's line stands.
#[derive(Clone, Copy)]
pub(crate) enum Place {
    /// In the trace, which names the fiber of each entry.
    Trace,
    /// In the log of the entry's fiber.
    Log,
}

/// Writes a line for each entry, in order.
pub(crate) fn put_entries<K: Sink>(
    program: &Program,
    entries: EntryIter<'_>,
    place: Place,
    buffer: &mut String,
    out: &mut K,
) -> Result<(), ReportRefusal>
    ensures { Puts (K.taken out.old) (K.taken out.new) (K.fault_count out.old) (K.fault_count out.new)
        (joined (map (entry_line place (text_names program.now)) entries.entry)) result }
{
    for entry in entries {
        put_entry(program, entry, place, buffer, out)?;
    }
    Ok(())
}

/// Writes the line of an entry.
fn put_entry<K: Sink>(
    program: &Program,
    entry: Entry,
    place: Place,
    buffer: &mut String,
    out: &mut K,
) -> Result<(), ReportRefusal>
    ensures { Puts (K.taken out.old) (K.taken out.new) (K.fault_count out.old) (K.fault_count out.new)
        (entry_line place (text_names program.now) entry) result }
{
    let fiber = entry.fiber;
    let text = EntryText { program, entry };
    match place {
        Place::Trace => put_line(format_args!("trace {fiber} {text}\n"), buffer, out),
        Place::Log => put_line(format_args!("  log {text}\n"), buffer, out),
    }
}
