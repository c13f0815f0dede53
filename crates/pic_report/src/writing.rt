//! Writes a report, line by line.
ghost use Rattle.pic_report.specs.Output.{Puts};
ghost use Rattle.pic_report.specs.Report.{clock_line, joined, main_line, run_line, text_names};
ghost use Rattle.pic_report.specs.View.{traced_lines, view_text};

use crate::comps::put_comps;
use crate::entry_lines::{Place, put_entries};
use crate::fibers::put_fibers;
use crate::output::{put_all, put_line};
use crate::refusal::ReportRefusal;
use crate::view::RunView;
use entry_log::EntryLog;
use pic_base::Outcome;
use pic_io::Sink;
use pic_machine::FiberState;
use script_tree::Program;
use std::alloc::Global;

/// Writes the report of a run of the program: each line in one piece, and then what of it was not
/// taken. One line at a time is made, all in one buffer, so no copy of the whole text is kept.
pub fn write_report<K: Sink>(
    alloc: Global,
    program: &Program,
    view: &RunView,
    out: &mut K,
) -> Result<(), ReportRefusal>
    ensures { Puts (K.taken out.old) (K.taken out.new) (K.fault_count out.old) (K.fault_count out.new)
        (view_text program.now view.entry.now) result }
{
    put_all(out, "picos report 1\n".as_bytes())?;
    let mut buffer = String::new(alloc);
    put_traced(program, &view.trace, &mut buffer, out)?;
    put_fibers(program, view.fibers.as_slice(), view.log, &mut buffer, out)?;
    put_comps(alloc, program, view, &mut buffer, out)?;
    put_clock(view.now, &mut buffer, out)?;
    put_end(view.main_state(), view.suspended_count(), &mut buffer, out)
}

/// Writes the trace, where there is one.
fn put_traced<K: Sink>(
    program: &Program,
    trace: &Option<EntryLog>,
    buffer: &mut String,
    out: &mut K,
) -> Result<(), ReportRefusal>
    ensures { Puts (K.taken out.old) (K.taken out.new) (K.fault_count out.old) (K.fault_count out.new)
        (joined (traced_lines (text_names program.now) trace.now)) result }
{
    match trace {
        Some(entries) => put_entries(program, entries.iter(), Place::Trace, buffer, out),
        None => Ok(()),
    }
}

/// Writes the time that the clock shows.
fn put_clock<K: Sink>(now: u32, buffer: &mut String, out: &mut K) -> Result<(), ReportRefusal>
    ensures { Puts (K.taken out.old) (K.taken out.new) (K.fault_count out.old) (K.fault_count out.new)
        (clock_line now) result }
{
    put_line(format_args!("clock {now}\n"), buffer, out)
}

/// Writes how the run ended: how many fibers are suspended, or where none is, how main ended, which
/// stands so.
fn put_end<K: Sink>(
    main: Option<FiberState>,
    suspended: usize,
    buffer: &mut String,
    out: &mut K,
) -> Result<(), ReportRefusal>
    ensures { Puts (K.taken out.old) (K.taken out.new) (K.fault_count out.old) (K.fault_count out.new)
        (run_line main suspended) result }
{
    if suspended == 0 {
        return put_main_end(main, buffer, out);
    }
    put_line(format_args!("run stuck {suspended}\n"), buffer, out)
}

/// Writes how main ended, which stands so.
fn put_main_end<K: Sink>(
    main: Option<FiberState>,
    buffer: &mut String,
    out: &mut K,
) -> Result<(), ReportRefusal>
    ensures { Puts (K.taken out.old) (K.taken out.new) (K.fault_count out.old) (K.fault_count out.new)
        (main_line main) result }
{
    match main {
        Some(FiberState::Ended(Outcome::Cancelled(code))) => {
            put_line(format_args!("run raised {code}\n"), buffer, out)
        }
        _ => put_all(out, "run done\n".as_bytes()),
    }
}
