//! The texts of entries on triggers and places, and of fibers that are suspended.
use super::{note, push, put_to};
use crate::{FiberView, RunView};
use entry_log::{EntryLog, FiberLog};
use pic_base::{Action, Memory, Outcome};
use pic_machine::{ArmReply, AttachReply, Call, FiberState, Reply, SignalReply, TrigState};
use std::alloc::Global;
use std::test::Fail;

/// The call that arms trigger 0 with the resumption of fiber 2.
const ARM: Call = Call::Arm {
    trigger: 0,
    action: Action::Resume(2),
};

/// A run of these fibers, of which only main may have a log.
fn run_of(
    alloc: Global,
    states: &[FiberState],
    main: FiberLog,
    trace: Option<EntryLog>,
) -> Result<RunView, Memory> {
    let log = trace.is_none();
    let mut fibers = Vec::new(alloc);
    let mut entries = main;
    for state in states {
        fibers.push(FiberView {
            text: 1,
            state: *state,
            entries,
        })?;
        entries = FiberLog::new(alloc, 2);
    }
    Ok(RunView {
        fibers,
        clock_entries: FiberLog::new(alloc, 0),
        now: 0,
        trace,
        log,
    })
}

/// What is written of the run, if all of it is.
fn text_of(alloc: Global, view: &RunView) -> Result<Vec<u8>, Fail> {
    let (whole, taken) = put_to(alloc, view, usize::MAX, 0)?;
    if whole {
        Ok(taken)
    } else {
        Ok(Vec::new(alloc))
    }
}

/// Main's entries, with each reply that a report can show.
fn each_reply(alloc: Global) -> Result<FiberLog, Memory> {
    let mut main = FiberLog::new(alloc, 1);
    note(&mut main, Call::NewTrigger, Reply::Full)?;
    note(&mut main, Call::NewPlace, Reply::Full)?;
    note_looks(&mut main)?;
    note(&mut main, ARM, Reply::Armed(ArmReply::Set))?;
    note(&mut main, ARM, Reply::Armed(ArmReply::Signalled))?;
    note(&mut main, ARM, Reply::Armed(ArmReply::Taken))?;
    note_signals(&mut main)?;
    note_attachments(&mut main)?;
    Ok(main)
}

fn note_looks(main: &mut FiberLog) -> Result<(), Memory> {
    let awaiting = TrigState::Awaiting(Action::Resume(2));
    note(main, Call::Look(3), Reply::Seen(TrigState::Initial))?;
    note(main, Call::Look(3), Reply::Seen(awaiting))?;
    note(main, Call::Look(3), Reply::Seen(TrigState::Signalled))
}

fn note_signals(main: &mut FiberLog) -> Result<(), Memory> {
    let acted = SignalReply::Acted(Action::Resume(2));
    note(main, Call::Signal(4), Reply::Signalled(SignalReply::Plain))?;
    note(main, Call::Signal(4), Reply::Signalled(acted))?;
    note(
        main,
        Call::Signal(4),
        Reply::Signalled(SignalReply::Already),
    )
}

fn note_attachments(main: &mut FiberLog) -> Result<(), Memory> {
    let attach = Call::Attach {
        place: 5,
        comp: 6,
        trigger: 7,
    };
    let returned = AttachReply::Completed(Outcome::Returned(8));
    let cancelled = AttachReply::Completed(Outcome::Cancelled(9));
    note(main, attach, Reply::Attached(AttachReply::Attached))?;
    note(main, attach, Reply::Attached(returned))?;
    note(main, attach, Reply::Attached(cancelled))
}

/// The report of a run in which main has these entries, and is suspended at trigger 4.
const REPLIES: &[u8] =
    b"picos report 1\nfiber 1 main suspended t4\n  log new_trigger full\n  log new_place full\n  log look t3 initial\n  log look t3 awaiting\n  log look t3 signalled\n  log arm t0 resume 2 set\n  log arm t0 resume 2 signalled\n  log arm t0 resume 2 taken\n  log signal t4 plain\n  log signal t4 resume 2\n  log signal t4 already\n  log attach a5 c6 t7 attached\n  log attach a5 c6 t7 returned 8\n  log attach a5 c6 t7 cancelled 9\ncomp 0 root running\ncomp 1 a running\nclock 0\nrun stuck 1\n";

#[test]
fn each_reply_has_a_text(rt: HostRuntime) -> Result<(), Fail> {
    let main = each_reply(rt.alloc())?;
    let view = run_of(rt.alloc(), &[FiberState::Suspended(4)], main, None)?;
    let taken = text_of(rt.alloc(), &view)?;
    assert_eq!(rt; taken.as_slice(), REPLIES);
    Ok(())
}

/// The report of a run with a trace, in which main has ended and two of four fibers are suspended.
const STUCK: &[u8] =
    b"picos report 1\ntrace 2 new_trigger t8\ntrace 2 new_place a9\ntrace 2 arm t0 resume 2 set\nfiber 1 main cancelled 9\nfiber 2 main suspended t0\nfiber 3 main returned 5\nfiber 4 main suspended t8\ncomp 0 root running\ncomp 1 a running\nclock 0\nrun stuck 2\n";

#[test]
fn a_run_is_stuck_where_fibers_are_suspended(rt: HostRuntime) -> Result<(), Fail> {
    let alloc = rt.alloc();
    let mut trace = EntryLog::new(alloc);
    push(&mut trace, 2, Call::NewTrigger, Reply::Made(8))?;
    push(&mut trace, 2, Call::NewPlace, Reply::Made(9))?;
    push(&mut trace, 2, ARM, Reply::Armed(ArmReply::Set))?;
    let states = [
        FiberState::Ended(Outcome::Cancelled(9)),
        FiberState::Suspended(0),
        FiberState::Ended(Outcome::Returned(5)),
        FiberState::Suspended(8),
    ];
    let view = run_of(alloc, &states, FiberLog::new(alloc, 1), Some(trace))?;
    let taken = text_of(alloc, &view)?;
    assert_eq!(rt; taken.as_slice(), STUCK);
    assert_eq!(rt; view.suspended_count(), 2);
    Ok(())
}
