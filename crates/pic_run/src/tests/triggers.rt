//! Scripts that declare triggers and signal them.
use super::*;

/// Triggers and computations are declared in turn, so that their numbers are not their places. Each of two
/// fibers signals both triggers, one of them by `detach`.
const SCRIPT: &str = "picos 1
trigger start
comp job
trigger stop
comp spare
fiber helper
signal start
detach job stop
yield
signal stop
return r1 spare 5
end
main
spawn helper 0
signal start
signal start
yield
detach root stop
peek r1 r2 job
say r1
end
";

/// The first signal of a trigger is plain, whoever makes it, and each later one finds it signalled.
const TRACE: &str = "trace 1 turn
trace 1 fork 2 helper 0
trace 1 signal t0 plain
trace 1 signal t0 already
trace 1 yield
trace 2 turn
trace 2 signal t0 already
trace 2 signal t1 plain
trace 2 yield
trace 1 turn
trace 1 signal t1 already
trace 1 peek c1 running
trace 1 say 0
trace 1 end returned 0
trace 2 turn
trace 2 signal t1 already
trace 2 complete c2 returned 5 won
trace 2 end returned 0
";

/// Triggers have no lines; computations have the names of their own declarations.
const REST: &str = "fiber 1 main returned 0
  say 0
fiber 2 helper returned 0
comp 0 root running
comp 1 job running
comp 2 spare returned 5 by 2
clock 0
run done
";

#[test]
fn two_fibers_signal_the_same_triggers(rt: HostRuntime) -> Result<(), Fail> {
    let text = format!(in rt.alloc(); "picos report 1\n{TRACE}{REST}")?;
    let words = ["run", "a", "b", "--trace"];
    expect_answer(&rt, rt.alloc(), &words, SCRIPT, Status::Done, text.as_str())
}

#[test]
fn a_script_of_triggers_alone(rt: HostRuntime) -> Result<(), Fail> {
    let script = "picos 1\ntrigger a\ntrigger b\nmain\nsignal b\nend\n";
    let report = "picos report 1
fiber 1 main returned 0
  log signal t1 plain
  log end returned 0
comp 0 root running
clock 0
run done
";
    let words = ["run", "a", "b", "--log"];
    expect_answer(&rt, rt.alloc(), &words, script, Status::Done, report)
}

#[test]
fn what_signal_and_detach_refuse(rt: HostRuntime) -> Result<(), Fail> {
    let table = [
        // A name that isn't declared, and a computation where a trigger is wanted.
        ("signal s", "refused line 5 cause 4\n"),
        ("signal c", "refused line 5 cause 6\n"),
        ("detach c s", "refused line 5 cause 4\n"),
        ("detach t t", "refused line 5 cause 6\n"),
        ("detach t", "refused line 5 cause 6\n"),
        ("detach c", "refused line 5 cause 2\n"),
        // No run serves promise registers yet.
        ("detach p0 t", "refused line 0 cause 0\n"),
    ];
    for (statement, text) in table {
        let script = format!(in rt.alloc();
            "picos 1\ncomp c\ntrigger t\nmain\n{statement}\nend\n"
        )?;
        let words = ["run", "a", "b"];
        expect_answer(
            &rt,
            rt.alloc(),
            &words,
            script.as_str(),
            Status::Refused,
            text,
        )?;
    }
    Ok(())
}
