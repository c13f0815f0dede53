//! The lines of computations.
ghost use Rattle.std.specs.Prelude.{◌≡◌, ◌+◌, IfOk, length};
ghost use Rattle.pic_machine.specs.Completing.{outcome_by};
ghost use Rattle.pic_report.specs.Names.{read_names};
ghost use Rattle.pic_report.specs.Output.{Puts};
ghost use Rattle.pic_report.specs.Report.{comp_line, comp_name, comp_names, joined};
ghost use Rattle.pic_report.specs.View.{all_entries, told_lines};

use crate::completions::completions_of;
use crate::output::put_line;
use crate::refusal::ReportRefusal;
use crate::view::RunView;
use fiber_body::Counted;
use pic_base::Memory;
use pic_io::Sink;
use pic_machine::Completion;
use script_tree::Program;
use std::alloc::Global;

/// Writes a line for the root and each declared computation, in order.
pub(crate) fn put_comps<K: Sink>(
    alloc: Global,
    program: &Program,
    view: &RunView,
    buffer: &mut String,
    out: &mut K,
) -> Result<(), ReportRefusal>
    ensures { Puts (K.taken out.old) (K.taken out.new) (K.fault_count out.old) (K.fault_count out.new)
        (joined (told_lines (comp_names program.now) (all_entries view.entry.now) 0 (length (comp_names program.now) + 1)))
        result }
{
    let names = comp_names(alloc, program)?;
    let found = completions_of(alloc, view, names.len() + 1)?;
    for (number, by) in found.iter().enumerate() {
        put_comp(names.as_slice(), number, *by, buffer, out)?;
    }
    Ok(())
}

/// The names of the declared computations, in order.
fn comp_names(alloc: Global, program: &Program) -> Result<Vec<&str>, Memory>
    ensures { IfOk result (λ names. read_names names.items ≡ comp_names program.now) }
{
    let mut names = Vec::new(alloc);
    for decl in &program.decls {
        if Counted::Comps.counts(decl.kind) {
            names.push(decl.name.as_str())?;
        }
    }
    Ok(names)
}

/// Writes the line of a computation that was completed so, or not at all.
fn put_comp<K: Sink>(
    names: &[&str],
    number: usize,
    by: Option<Completion>,
    buffer: &mut String,
    out: &mut K,
) -> Result<(), ReportRefusal>
    ensures { Puts (K.taken out.old) (K.taken out.new) (K.fault_count out.old) (K.fault_count out.new)
        (comp_line (read_names names.now) number by (outcome_by by)) result }
{
    let name = comp_name(names, number);
    match by {
        None => put_line(format_args!("comp {number} {name} running\n"), buffer, out),
        Some(Completion { fiber, outcome }) => {
            put_line(
                format_args!("comp {number} {name} {outcome} by {fiber}\n"),
                buffer,
                out,
            )
        }
    }
}

/// The root, the name that the script declares, or `-`.
fn comp_name<'a>(names: &[&'a str], number: usize) -> &'a str
    ensures { result.now ≡ comp_name (read_names names.now) number }
{
    if number == 0 {
        return "root";
    }
    match names.get(number - 1) {
        Some(name) => *name,
        None => "-",
    }
}
