//! What of a run a report is made from.
ghost use Rattle.std.specs.Prelude.{◌≡◌, Bool, List, Option, IfOk};
ghost use Rattle.pic_machine.specs.Happened.{Happened};
ghost use Rattle.pic_machine.specs.History.{Origin};
ghost use Rattle.script_tree.specs.Tree.{Tree};
ghost use Rattle.pic_report.specs.Lines.{fate, left_by};
ghost use Rattle.pic_report.specs.Report.{is_suspended, report, suspended_count};
ghost use Rattle.pic_report.specs.View.{BeginsRunning, IsLeftOf, IsTraceOf, IsViewOf, main_state, states_of, view_text};
ghost use Rattle.pic_report.specs.Taken.{IsTakenFrom, AreTakenFrom};

use entry_log::{EntryLog, FiberLog};
use fiber_body::Body;
use pic_base::{Action, Memory};
use pic_machine::{ArmReply, Call, Closed, Entry, FiberState, Reply};
use std::alloc::Global;

/// What a report tells of a fiber: the text that it runs, a place among the program's texts, how it
/// stands, and its visible entries.
#[derive(Drop)]
pub struct FiberView {
    pub text: u32,
    pub state: FiberState,
    pub entries: FiberLog,
}

/// What a report tells of a run: the fibers in order from 1, the clock's entries and the time that it
/// shows; each entry of the run, where the report is to have the trace; and whether it is to have what
/// each fiber did.
#[derive(Drop)]
pub struct RunView {
    pub fibers: Vec<FiberView>,
    pub clock_entries: FiberLog,
    pub now: u32,
    pub trace: Option<EntryLog>,
    pub log: bool,
}

impl RunView {
    /// How main stands, the first fiber; none where there is no fiber.
    pub fn main_state(&self) -> Option<FiberState>
        ensures { result ≡ main_state self.entry.now.fibers.items }
    {
        match self.fibers.as_slice() {
            [main, ..] => Some(main.state),
            [] => None,
        }
    }

    /// How many fibers are suspended.
    pub fn suspended_count(&self) -> usize
        ensures { result ≡ suspended_count (states_of self.entry.now.fibers.items) }
    {
        let mut count = 0;
        for fiber in &self.fibers {
            if is_suspended(fiber.state) {
                count += 1;
            }
        }
        count
    }
}

/// Whether a fiber that stands so is suspended.
fn is_suspended(state: FiberState) -> bool
    ensures { result ≡ is_suspended state }
{
    matches!(state, FiberState::Suspended(_))
}

/// What a report tells of a run, of which this is left.
pub fn view_of(
    alloc: Global,
    closed: Closed<Body>,
    trace: Option<EntryLog>,
    log: bool,
) -> Result<RunView, Memory>
    ensures view { IfOk result (λ view. (origin : Origin) (share : Option Tree)
        (history : List Happened) (traced : Bool)
        → IsLeftOf origin share history closed → IsTraceOf history traced trace
        → IsViewOf origin history traced log view) }
    // So the view's text is the history's report.
    ensures text { IfOk result (λ view. (script : Tree) (origin : Origin) (share : Option Tree)
        (history : List Happened) (traced : Bool)
        → BeginsRunning script origin
        → IsLeftOf origin share history closed → IsTraceOf history traced trace
        → view_text script view ≡ report script origin history traced log) }
{
    let Closed { bodies, clock, now } = closed;
    Ok(RunView {
        fibers: views_of(alloc, bodies)?,
        clock_entries: clock.into_entries(),
        now,
        trace,
        log,
    })
}

/// What is told of each fiber, in order.
fn views_of(alloc: Global, bodies: Vec<Body>) -> Result<Vec<FiberView>, Memory>
    ensures { IfOk result (λ views. AreTakenFrom bodies.items views.items) }
{
    let mut views = Vec::new(alloc);
    for body in bodies {
        views.push(fiber_view(body))?;
    }
    Ok(views)
}

/// What is told of the fiber that had this body.
fn fiber_view(body: Body) -> FiberView
    ensures { IsTakenFrom body result }
{
    let text = body.text();
    let entries = body.into_entries();
    FiberView {
        text,
        state: fate(&entries),
        entries,
    }
}

/// How a fiber stands that did this: its end, or the arming of a trigger at which it is suspended, is
/// the last that it does.
fn fate(entries: &FiberLog) -> FiberState
    ensures { result ≡ fate entries.now.entries }
{
    match entries.last() {
        Some(entry) => left_by(entry),
        None => FiberState::Live,
    }
}

/// How a fiber stands whose last entry this is.
fn left_by(entry: Entry) -> FiberState
    ensures { result ≡ left_by entry.call entry.reply }
{
    match (entry.call, entry.reply) {
        (Call::End(outcome), _) => FiberState::Ended(outcome),
        (
            Call::Arm {
                trigger,
                action: Action::Resume(_),
            },
            Reply::Armed(ArmReply::Set),
        ) => FiberState::Suspended(trigger),
        _ => FiberState::Live,
    }
}
