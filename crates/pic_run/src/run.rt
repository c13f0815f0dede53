//! Runs a program from its start until nothing is left to do.
ghost use Rattle.std.specs.Prelude.{IsTrue, IfOk};
ghost use Rattle.std.specs.Arc.{arc_value};
ghost use Rattle.fiber_poll.specs.Built.{is_built};
ghost use Rattle.pic_run.specs.Over.{IsOpened, IsOver};

use crate::limits::LIMITS;
use fiber_body::{Body, start_of};
use fiber_poll::ScriptPoller;
use mux_one::run_fifo;
use pic_base::Memory;
use port_plain::PlainPort;
use script_tree::Program;
use std::alloc::Global;
use std::sync::Arc;

/// Runs main, and each fiber that is made, until each one has ended or is suspended for good.
pub(crate) fn run_program(alloc: Global, program: &Arc<Program>) -> Result<PlainPort<Body>, Memory>
    requires { IsTrue (is_built (arc_value program.now)) }
    ensures { IfOk result (IsOver (arc_value program.now)) }
{
    let port = open(alloc, program)?;
    let poller = ScriptPoller::new(alloc, program.clone()?)?;
    run_fifo(alloc, &poller, port)
}

/// The machine before the first entry: main is to run the main text.
fn open(alloc: Global, program: &Arc<Program>) -> Result<PlainPort<Body>, Memory>
    ensures { IfOk result (IsOpened (arc_value program.now)) }
{
    let start = start_of(program, LIMITS);
    let main = Body::new(alloc, program, start.text, 0, 0)?;
    let clock = Body::clock(alloc)?;
    PlainPort::open(alloc, &start, main, clock)
}
