//! Scripts whose fibers wait for computations.
use super::*;

/// Main waits until the fiber has completed the computation, and gets its value; the second wait is none.
#[test]
fn a_wait_gives_the_value(rt: HostRuntime) -> Result<(), Fail> {
    let script = "picos 1
comp c
fiber f
return r1 c 7
end
main
spawn f 0
wait r2 c
say r2
wait r3 c
say r3
end
";
    let report = "picos report 1
fiber 1 main returned 0
  say 7
  say 7
  log fork 2 f 0
  log peek c1 running
  log attach a1 c1 t0 attached
  log attach a0 c0 t0 attached
  log arm t0 resume 1 set
  log peek c0 running
  log peek c1 returned 7
  log say 7
  log peek c1 returned 7
  log say 7
  log end returned 0
fiber 2 f returned 0
  log complete c1 returned 7 won
  log signal t0 resume 1
  log end returned 0
comp 0 root running
comp 1 c returned 7 by 2
clock 0
run done
";
    expect_logged(&rt, rt.alloc(), script, Status::Done, report)
}

/// The code of the computation that main waits for is raised.
#[test]
fn a_wait_for_a_cancelled_computation_raises_its_code(rt: HostRuntime) -> Result<(), Fail> {
    let script = "picos 1
comp c
fiber f
cancel r1 c 8
end
main
spawn f 0
try
wait r2 c
catch r3
say r3
end
end
";
    let report = "picos report 1
fiber 1 main returned 0
  say 8
  log fork 2 f 0
  log peek c1 running
  log attach a1 c1 t0 attached
  log attach a0 c0 t0 attached
  log arm t0 resume 1 set
  log peek c0 running
  log peek c1 cancelled 8
  log say 8
  log end returned 0
fiber 2 f returned 0
  log complete c1 cancelled 8 won
  log signal t0 resume 1
  log end returned 0
comp 0 root running
comp 1 c cancelled 8 by 2
clock 0
run done
";
    expect_logged(&rt, rt.alloc(), script, Status::Done, report)
}

/// The fiber's current computation is cancelled while it waits for another one. It is told, and signals its own
/// trigger, which stays attached to the other one: whoever completes that wakes nobody.
#[test]
fn a_wait_is_told_of_a_cancellation(rt: HostRuntime) -> Result<(), Fail> {
    let script = "picos 1
comp c
fiber f
try
wait r2 c
catch r3
say r3
end
end
main
spawn f 0
yield
cancel r1 root 9
yield
return r1 c 1
say r1
end
";
    let report = "picos report 1
fiber 1 main returned 0
  say 1
  log fork 2 f 0
  log yield
  log complete c0 cancelled 9 won
  log signal t0 resume 2
  log yield
  log complete c1 returned 1 won
  log signal t0 already
  log say 1
  log end returned 0
fiber 2 f returned 0
  say 9
  log peek c1 running
  log attach a1 c1 t0 attached
  log attach a0 c0 t0 attached
  log arm t0 resume 2 set
  log peek c0 cancelled 9
  log signal t0 already
  log say 9
  log end returned 0
comp 0 root cancelled 9 by 1
comp 1 c returned 1 by 1
clock 0
run done
";
    expect_logged(&rt, rt.alloc(), script, Status::Done, report)
}

/// Main waits for the root, its own computation, and the fiber for one that nobody completes.
#[test]
fn waits_for_what_nobody_completes_are_stuck(rt: HostRuntime) -> Result<(), Fail> {
    let script = "picos 1
comp c
fiber f
wait r1 c
end
main
spawn f 0
wait r1 root
end
";
    let report = "picos report 1
fiber 1 main suspended t0
  log fork 2 f 0
  log peek c0 running
  log attach a1 c0 t0 attached
  log attach a0 c0 t0 attached
  log arm t0 resume 1 set
fiber 2 f suspended t1
  log peek c1 running
  log attach a3 c1 t1 attached
  log attach a2 c0 t1 attached
  log arm t1 resume 2 set
comp 0 root running
comp 1 c running
clock 0
run stuck 2
";
    expect_logged(&rt, rt.alloc(), script, Status::Stuck, report)
}
