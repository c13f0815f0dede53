//! What is told of a run that is over.
ghost use Rattle.std.specs.Prelude.{◌≡◌, IfOk};
ghost use Rattle.std.specs.Arc.{arc_value};
ghost use Rattle.pic_run.specs.Over.{IsOver, IsReportOf};
ghost use Rattle.pic_run.specs.Status.{main_status, status_of};

use crate::status::Status;
use fiber_body::Body;
use pic_base::{Memory, Outcome};
use pic_machine::FiberState;
use pic_report::{RunView, view_of};
use port_plain::PlainPort;
use script_tree::Program;
use std::alloc::Global;
use std::sync::Arc;

/// What a report of a run of the program is made from, and the status of the run.
#[derive(Drop)]
pub(crate) struct Report {
    pub(crate) program: Arc<Program>,
    pub(crate) view: RunView,
    pub(crate) status: Status,
}

/// The report of a run of the program that is over, with its trace and the fibers' logs where they are
/// asked for.
pub(crate) fn report_of(
    alloc: Global,
    program: Arc<Program>,
    port: PlainPort<Body>,
    trace: bool,
    log: bool,
) -> Result<Report, Memory>
    requires { IsOver (arc_value program) port }
    ensures { IfOk result (IsReportOf (arc_value program) port.front trace log) }
{
    let Ok((closed, history)) = port.close_with_history() else {
        return Err(Memory);
    };
    let trace = trace.then_some(history);
    let view = view_of(alloc, closed, trace, log)?;
    let status = status_of(view.main_state(), view.suspended_count());
    Ok(Report {
        program,
        view,
        status,
    })
}

/// The status of a run, by how main stands and how many fibers are suspended.
fn status_of(main: Option<FiberState>, suspended: usize) -> Status
    ensures { result ≡ status_of main suspended }
{
    if suspended == 0 {
        main_status(main)
    } else {
        Status::Stuck
    }
}

/// The status of a run in which no fiber is suspended, by how main stands.
fn main_status(main: Option<FiberState>) -> Status
    ensures { result ≡ main_status main }
{
    match main {
        Some(FiberState::Ended(Outcome::Cancelled(_))) => Status::Raised,
        _ => Status::Done,
    }
}
