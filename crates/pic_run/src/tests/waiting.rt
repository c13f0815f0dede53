//! Scripts whose fibers wait for triggers, and attach them.
use super::*;

/// The fiber is suspended before main signals its trigger, and goes on then.
#[test]
fn a_signal_resumes_who_waits(rt: HostRuntime) -> Result<(), Fail> {
    let script = "picos 1
trigger t
fiber f
await t
say 1
end
main
spawn f 0
yield
signal t
end
";
    let report = "picos report 1
fiber 1 main returned 0
  log fork 2 f 0
  log yield
  log signal t0 resume 2
  log end returned 0
fiber 2 f returned 0
  say 1
  log look t0 initial
  log attach a0 c0 t0 attached
  log arm t0 resume 2 set
  log peek c0 running
  log say 1
  log end returned 0
comp 0 root running
clock 0
run done
";
    expect_logged(&rt, rt.alloc(), script, Status::Done, report)
}

/// Nobody is suspended where the trigger was signalled before.
#[test]
fn a_signalled_trigger_is_no_wait(rt: HostRuntime) -> Result<(), Fail> {
    let script = "picos 1\ntrigger t\nmain\nsignal t\nawait t\nsay 1\nend\n";
    let report = "picos report 1
fiber 1 main returned 0
  say 1
  log signal t0 plain
  log look t0 signalled
  log say 1
  log end returned 0
comp 0 root running
clock 0
run done
";
    expect_logged(&rt, rt.alloc(), script, Status::Done, report)
}

/// Main finds the fiber's trigger awaited, which raises 5; the fiber waits for good.
#[test]
fn an_awaited_trigger_raises(rt: HostRuntime) -> Result<(), Fail> {
    let script = "picos 1
trigger t
fiber f
await t
end
main
spawn f 0
yield
await t
say 1
end
";
    let report = "picos report 1
fiber 1 main cancelled 5
  log fork 2 f 0
  log yield
  log look t0 awaiting
  log end cancelled 5
fiber 2 f suspended t0
  log look t0 initial
  log attach a0 c0 t0 attached
  log arm t0 resume 2 set
comp 0 root running
clock 0
run stuck 1
";
    expect_logged(&rt, rt.alloc(), script, Status::Stuck, report)
}

/// The fiber's current computation is cancelled while it waits: it is woken, and told. Main, whose computation
/// that is too, is told as it attaches.
#[test]
fn a_cancelled_wait_raises_the_code(rt: HostRuntime) -> Result<(), Fail> {
    let script = "picos 1
trigger t
trigger u
fiber f
try
await t
catch r1
say r1
end
end
main
spawn f 0
yield
cancel r1 root 9
await u
say 1
end
";
    let report = "picos report 1
fiber 1 main cancelled 9
  log fork 2 f 0
  log yield
  log complete c0 cancelled 9 won
  log signal t0 resume 2
  log look t1 initial
  log attach a1 c0 t1 cancelled 9
  log end cancelled 9
fiber 2 f returned 0
  say 9
  log look t0 initial
  log attach a0 c0 t0 attached
  log arm t0 resume 2 set
  log peek c0 cancelled 9
  log say 9
  log end returned 0
comp 0 root cancelled 9 by 1
clock 0
run raised 9
";
    expect_logged(&rt, rt.alloc(), script, Status::Raised, report)
}

/// A computation that returned cancels nobody: who waits under it is woken, and goes on.
#[test]
fn a_returned_computation_wakes_and_raises_nothing(rt: HostRuntime) -> Result<(), Fail> {
    let script = "picos 1
trigger t
fiber f
await t
say 1
end
main
spawn f 0
yield
return r1 root 3
end
";
    let report = "picos report 1
fiber 1 main returned 0
  log fork 2 f 0
  log yield
  log complete c0 returned 3 won
  log signal t0 resume 2
  log end returned 0
fiber 2 f returned 0
  say 1
  log look t0 initial
  log attach a0 c0 t0 attached
  log arm t0 resume 2 set
  log peek c0 returned 3
  log say 1
  log end returned 0
comp 0 root returned 3 by 1
clock 0
run done
";
    expect_logged(&rt, rt.alloc(), script, Status::Done, report)
}

/// Two triggers are attached to one computation: whoever completes it signals both, the last one first, before
/// anything else. A third is late, and a signalled one isn't attached.
#[test]
fn what_is_attached_is_signalled_by_who_completes(rt: HostRuntime) -> Result<(), Fail> {
    let script = "picos 1
trigger t
comp c
trigger u
trigger v
main
attach r1 c t
say r1
attach r1 c u
say r1
return r2 c 6
attach r1 c v
say r1
attach r1 root t
say r1
end
";
    let report = "picos report 1
fiber 1 main returned 0
  say 1
  say 1
  say 0
  say 0
  log look t0 initial
  log attach a0 c1 t0 attached
  log say 1
  log look t1 initial
  log attach a1 c1 t1 attached
  log say 1
  log complete c1 returned 6 won
  log signal t1 plain
  log signal t0 plain
  log look t2 initial
  log attach a2 c1 t2 returned 6
  log say 0
  log look t0 signalled
  log say 0
  log end returned 0
comp 0 root running
comp 1 c returned 6 by 1
clock 0
run done
";
    expect_logged(&rt, rt.alloc(), script, Status::Done, report)
}

/// The line says how many fibers are suspended, whatever main did.
#[test]
fn a_run_that_is_stuck_counts_who_waits(rt: HostRuntime) -> Result<(), Fail> {
    let script = "picos 1
trigger t
trigger u
fiber f
await t
signal u
end
main
spawn f 0
await u
signal t
end
";
    let report = "picos report 1
fiber 1 main suspended t1
fiber 2 f suspended t0
comp 0 root running
clock 0
run stuck 2
";
    let words = ["run", "a", "b"];
    expect_answer(&rt, rt.alloc(), &words, script, Status::Stuck, report)
}

/// A place is made in front of each attachment; that shows in the trace alone.
#[test]
fn places_stand_in_the_trace(rt: HostRuntime) -> Result<(), Fail> {
    let script = "picos 1\ntrigger t\ncomp c\nmain\nattach r0 c t\nend\n";
    let report = "picos report 1
trace 1 turn
trace 1 look t0 initial
trace 1 new_place a0
trace 1 attach a0 c1 t0 attached
trace 1 end returned 1
fiber 1 main returned 1
comp 0 root running
comp 1 c running
clock 0
run done
";
    let words = ["run", "a", "b", "--trace"];
    expect_answer(&rt, rt.alloc(), &words, script, Status::Done, report)
}
