//! The texts of entries that no script of ours leaves behind, and a sink that fails.
ghost use Rattle.std.specs.Prelude.{◌<◌};

use super::*;
use entry_log::{EntryLog, FiberLog};
use pic_base::{Memory, Outcome};
use pic_io::MemSink;
use pic_machine::{Call, CompleteReply, Entry, FiberState, Reply};
use script_tree::parse;
use std::alloc::Global;
use std::test::Fail;

mod triggers;

/// A script with a trigger, of which no report has a line, a computation and two texts.
const SCRIPT: &[u8] = b"picos 1\ntrigger t\ncomp a\nfiber f\nend\nmain\nend\n";

fn note(log: &mut FiberLog, call: Call, reply: Reply) -> Result<(), Memory> {
    log.reserve()?;
    log.note(call, reply);
    Ok(())
}

fn push(log: &mut EntryLog, fiber: u32, call: Call, reply: Reply) -> Result<(), Memory> {
    log.reserve()?;
    log.push_reserved(Entry { fiber, call, reply });
    Ok(())
}

/// A run of two fibers in which each kind of entry stands.
fn view(alloc: Global, log: bool) -> Result<RunView, Fail> {
    let five = Outcome::Returned(5);
    let six = Outcome::Cancelled(6);
    let complete = Call::Complete {
        comp: 1,
        outcome: five,
    };
    let fork = Call::Fork { text: 0, value: 7 };
    let lost = Reply::Completed(CompleteReply::Lost(six));
    let mut main = FiberLog::new(alloc, 1);
    note(&mut main, Call::Peek(1), Reply::Peeked(None))?;
    note(&mut main, fork, Reply::Made(2))?;
    note(&mut main, fork, Reply::Full)?;
    note(&mut main, Call::Yield, Reply::Plain)?;
    note(&mut main, complete, lost)?;
    note(&mut main, Call::Peek(1), Reply::Peeked(Some(six)))?;
    note(&mut main, Call::End(five), Reply::Plain)?;
    let cancel = Call::Complete {
        comp: 1,
        outcome: six,
    };
    let won = Reply::Completed(CompleteReply::Won);
    let mut child = FiberLog::new(alloc, 2);
    note(&mut child, Call::Say(7), Reply::Plain)?;
    note(&mut child, cancel, won)?;
    note(&mut child, Call::End(six), Reply::Plain)?;
    let mut trace = EntryLog::new(alloc);
    push(&mut trace, 1, Call::Turn, Reply::Plain)?;
    push(&mut trace, 2, Call::Say(7), Reply::Plain)?;
    let mut fibers = Vec::new(alloc);
    fibers.push(FiberView {
        text: 1,
        state: FiberState::Ended(five),
        entries: main,
    })?;
    fibers.push(FiberView {
        text: 0,
        state: FiberState::Ended(six),
        entries: child,
    })?;
    Ok(RunView {
        fibers,
        clock_entries: FiberLog::new(alloc, 0),
        now: 0,
        trace: if log { Some(trace) } else { None },
        log,
    })
}

/// The report of the view with its trace and logs.
const WHOLE: &[u8] =
    b"picos report 1\ntrace 1 turn\ntrace 2 say 7\nfiber 1 main returned 5\n  log peek c1 running\n  log fork 2 f 7\n  log fork full f 7\n  log yield\n  log complete c1 returned 5 lost cancelled 6\n  log peek c1 cancelled 6\n  log end returned 5\nfiber 2 f cancelled 6\n  say 7\n  log say 7\n  log complete c1 cancelled 6 won\n  log end cancelled 6\ncomp 0 root running\ncomp 1 a cancelled 6 by 2\nclock 0\nrun done\n";

/// The report of the same view without them.
const SHORT: &[u8] =
    b"picos report 1\nfiber 1 main returned 5\nfiber 2 f cancelled 6\n  say 7\ncomp 0 root running\ncomp 1 a cancelled 6 by 2\nclock 0\nrun done\n";

/// What a sink holds after the report of the view, if it takes so many bytes a call and fails at this
/// call (none at 0), and whether the report was written whole.
fn put_to(alloc: Global, view: &RunView, most: usize, failing: u64) -> Result<(bool, Vec<u8>), Fail>
    requires { 0 < most }
{
    let mut calls = Vec::new(alloc);
    calls.push(failing)?;
    let mut out = MemSink {
        bytes: Vec::new(alloc),
        failing: calls,
        most,
        calls: 0,
        failed: 0,
    };
    let Ok(program) = parse(alloc, SCRIPT) else {
        return Ok((false, out.bytes));
    };
    let written = write_report(alloc, &program, view, &mut out);
    Ok((written.is_ok(), out.bytes))
}

#[test]
fn texts(rt: HostRuntime) -> Result<(), Fail> {
    let traced = view(rt.alloc(), true)?;
    let (whole, taken) = put_to(rt.alloc(), &traced, usize::MAX, 0)?;
    assert!(rt; whole);
    assert_eq!(rt; taken.as_slice(), WHOLE);
    let short = view(rt.alloc(), false)?;
    let (whole, taken) = put_to(rt.alloc(), &short, usize::MAX, 0)?;
    assert!(rt; whole);
    assert_eq!(rt; taken.as_slice(), SHORT);
    Ok(())
}

#[test]
fn a_sink_fails(rt: HostRuntime) -> Result<(), Fail> {
    // Each line is one piece.
    let view = view(rt.alloc(), true)?;
    let (whole, taken) = put_to(rt.alloc(), &view, usize::MAX, 4)?;
    assert!(rt; !whole);
    assert_eq!(rt;
        taken.as_slice(),
        b"picos report 1\ntrace 1 turn\ntrace 2 say 7\n".as_slice()
    );

    // A sink that takes two bytes a call, and at last fails within a line: eight calls take the first
    // one, whose last byte comes alone.
    let (whole, taken) = put_to(rt.alloc(), &view, 2, 12)?;
    assert!(rt; !whole);
    assert_eq!(rt; taken.as_slice(), b"picos report 1\ntrace ".as_slice());
    Ok(())
}
