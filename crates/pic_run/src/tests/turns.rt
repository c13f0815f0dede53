//! The order of turns, and fibers without room.
use super::*;
use crate::run::run_program;
use fiber_poll::built;
use pic_base::{FiberNo, Outcome};
use pic_machine::Call;
use script_tree::parse;
use std::sync::Arc;

/// A script whose main makes one fiber more than there may be, and the report of its run.
fn too_many_fibers(alloc: Global) -> Result<(String, String), Fail> {
    let mut script = String::from_str(alloc, "picos 1\nfiber n\nend\nmain\n")?;
    for _ in 0..LIMITS.fibers {
        script.push_str("spawn n 0\n")?;
    }
    script.push_str("end\n")?;
    let mut report = String::from_str(alloc, "picos report 1\nfiber 1 main cancelled 3\n")?;
    for number in 2..LIMITS.fibers + 1 {
        let line = format!(in alloc; "fiber {number} n returned 0\n")?;
        report.push_str(line.as_str())?;
    }
    report.push_str("comp 0 root running\nclock 0\nrun raised 3\n")?;
    Ok((script, report))
}

#[test]
fn main_is_cancelled(rt: HostRuntime) -> Result<(), Fail> {
    let (script, report) = too_many_fibers(rt.alloc())?;
    let (script, report) = (script.as_str(), report.as_str());
    expect_answer(
        &rt,
        rt.alloc(),
        &["run", "a", "b"],
        script,
        Status::Raised,
        report,
    )
}

/// The fibers and calls of a run of this script, in the order of happening; none where it isn't run.
fn calls_of(alloc: Global, script: &str) -> Result<Vec<(FiberNo, Call)>, Fail> {
    let mut calls = Vec::new(alloc);
    if script.len() > MOST_BYTES {
        return Ok(calls);
    }
    let Ok(program) = parse(alloc, script.as_bytes()) else {
        return Ok(calls);
    };
    if !built(&program) {
        return Ok(calls);
    }
    let program = Arc::new(alloc, program)?;
    let Ok(port) = run_program(alloc, &program) else {
        return Ok(calls);
    };
    for entry in port.history() {
        calls.push((entry.fiber, entry.call))?;
    }
    Ok(calls)
}

#[test]
fn the_longest_ready_goes_first(rt: HostRuntime) -> Result<(), Fail> {
    let alloc = rt.alloc();
    let calls = calls_of(alloc, TURNS)?;
    let ends = Call::End(Outcome::Returned(0));
    let expected: [(FiberNo, Call); 18] = [
        (1, Call::Turn),
        (1, Call::Fork { text: 0, value: 0 }),
        (1, Call::Yield),
        (2, Call::Turn),
        (2, Call::Say(1)),
        (2, Call::Yield),
        (1, Call::Turn),
        (1, Call::Fork { text: 1, value: 0 }),
        (1, Call::Say(4)),
        (1, Call::Yield),
        (2, Call::Turn),
        (2, Call::Say(2)),
        (2, ends),
        (3, Call::Turn),
        (3, Call::Say(3)),
        (3, ends),
        (1, Call::Turn),
        (1, ends),
    ];
    assert_eq!(rt; calls.as_slice(), expected.as_slice());
    Ok(())
}

#[test]
fn three_fibers_take_turns(rt: HostRuntime) -> Result<(), Fail> {
    let alloc = rt.alloc();
    let script = "picos 1
fiber y
say r0
yield
say r0
end
main
spawn y 1
spawn y 2
spawn y 3
end
";
    let mut turns = Vec::new(alloc);
    for (fiber, call) in calls_of(alloc, script)? {
        if call == Call::Turn {
            turns.push(fiber)?;
        }
    }
    assert_eq!(rt; turns.as_slice(), [1, 2, 3, 4, 2, 3, 4].as_slice());
    Ok(())
}
