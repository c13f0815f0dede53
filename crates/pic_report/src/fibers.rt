//! The lines of fibers.
ghost use Rattle.std.specs.Prelude.{◌≡◌, OnOk, string_bytes};
ghost use Rattle.pic_report.specs.Output.{Puts};
ghost use Rattle.pic_report.specs.Report.{fiber_line, joined, log_lines, said_line, said_lines, says_of, text_names};
ghost use Rattle.pic_report.specs.View.{viewed_lines, views_lines};

use crate::entry_lines::{Place, put_entries};
use crate::entry_texts::text_name;
use crate::output::{put_all, put_line};
use crate::refusal::ReportRefusal;
use crate::view::FiberView;
use entry_log::FiberLog;
use pic_base::{Memory, Value};
use pic_io::Sink;
use pic_machine::{Call, FiberState};
use script_tree::Program;

/// Writes the lines of each fiber in order, with what it did where that is asked for.
pub(crate) fn put_fibers<K: Sink>(
    program: &Program,
    fibers: &[FiberView],
    log: bool,
    buffer: &mut String,
    out: &mut K,
) -> Result<(), ReportRefusal>
    ensures { Puts (K.taken out.old) (K.taken out.new) (K.fault_count out.old) (K.fault_count out.new)
        (joined (views_lines (text_names program.now) log 1 fibers.now)) result }
{
    for (index, fiber) in fibers.iter().enumerate() {
        put_fiber(program, index + 1, fiber, log, buffer, out)?;
    }
    Ok(())
}

/// Writes the lines of one fiber: how it stands, what it said, and what it did.
fn put_fiber<K: Sink>(
    program: &Program,
    number: usize,
    fiber: &FiberView,
    log: bool,
    buffer: &mut String,
    out: &mut K,
) -> Result<(), ReportRefusal>
    ensures { Puts (K.taken out.old) (K.taken out.new) (K.fault_count out.old) (K.fault_count out.new)
        (joined (viewed_lines (text_names program.now) log number fiber.now)) result }
{
    let name = text_name(program, fiber.text);
    put_state(number, name, fiber.state, buffer, out)?;
    put_says(&fiber.entries, buffer, out)?;
    put_log(program, &fiber.entries, log, buffer, out)
}

/// Writes how the fiber with this number stands; the text that it runs has this name.
fn put_state<K: Sink>(
    number: usize,
    name: &str,
    state: FiberState,
    buffer: &mut String,
    out: &mut K,
) -> Result<(), ReportRefusal>
    ensures { Puts (K.taken out.old) (K.taken out.new) (K.fault_count out.old) (K.fault_count out.new)
        (fiber_line name.now number state) result }
{
    match state {
        FiberState::Live => put_line(format_args!("fiber {number} {name} live\n"), buffer, out),
        FiberState::Suspended(trigger) => {
            put_line(
                format_args!("fiber {number} {name} suspended t{trigger}\n"),
                buffer,
                out,
            )
        }
        FiberState::Ended(outcome) => {
            put_line(
                format_args!("fiber {number} {name} {outcome}\n"),
                buffer,
                out,
            )
        }
    }
}

/// Writes a line for each value that is said by the entries, in order.
fn put_says<K: Sink>(
    entries: &FiberLog,
    buffer: &mut String,
    out: &mut K,
) -> Result<(), ReportRefusal>
    ensures { Puts (K.taken out.old) (K.taken out.new) (K.fault_count out.old) (K.fault_count out.new)
        (joined (says_of entries.now.entries)) result }
{
    for entry in entries {
        put_said(entry.call, buffer, out)?;
    }
    Ok(())
}

/// Writes a line where the call says a value. Most reports have more of these lines than of all others, so
/// they do without formatting.
fn put_said<K: Sink>(call: Call, buffer: &mut String, out: &mut K) -> Result<(), ReportRefusal>
    ensures { Puts (K.taken out.old) (K.taken out.new) (K.fault_count out.old) (K.fault_count out.new)
        (joined (said_lines call)) result }
{
    match call {
        Call::Say(value) => {
            make_said(value, buffer)?;
            put_all(out, buffer.as_bytes())
        }
        _ => Ok(()),
    }
}

/// Makes the line of a value that was said, in place of what stood in the buffer.
fn make_said(value: Value, buffer: &mut String) -> Result<(), Memory>
    ensures { OnOk result (string_bytes buffer.new ≡ said_line value) }
{
    let mut digits = itoa::Buffer::new();
    buffer.clear();
    buffer.push_str("  say ")?;
    buffer.push_str(digits.format(value))?;
    buffer.push_str("\n")?;
    Ok(())
}

/// Writes the fiber's log, where that is asked for.
fn put_log<K: Sink>(
    program: &Program,
    entries: &FiberLog,
    log: bool,
    buffer: &mut String,
    out: &mut K,
) -> Result<(), ReportRefusal>
    ensures { Puts (K.taken out.old) (K.taken out.new) (K.fault_count out.old) (K.fault_count out.new)
        (joined (log_lines (text_names program.now) log entries.now.entries)) result }
{
    if log {
        put_entries(program, entries.iter(), Place::Log, buffer, out)
    } else {
        Ok(())
    }
}
