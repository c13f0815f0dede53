//! Reports with a trace and with logs.
use super::*;

/// Two fibers; each kind of entry stands in the run, but for a fork without room.
const SCRIPT: &str = "picos 1
comp a
fiber f
say r0
cancel r1 a 6
yield
say 9
end
main
peek r1 r2 a
spawn f 7
yield
return r3 a 5
peek r1 r2 a
say r2
end
";

const TRACE: &str = "trace 1 turn
trace 1 peek c1 running
trace 1 fork 2 f 7
trace 1 yield
trace 2 turn
trace 2 say 7
trace 2 complete c1 cancelled 6 won
trace 2 yield
trace 1 turn
trace 1 complete c1 returned 5 lost cancelled 6
trace 1 peek c1 cancelled 6
trace 1 say 6
trace 1 end returned 0
trace 2 turn
trace 2 say 9
trace 2 end returned 7
";

const FIBERS: &str = "fiber 1 main returned 0
  say 6
fiber 2 f returned 7
  say 7
  say 9
";

const LOGGED_FIBERS: &str = "fiber 1 main returned 0
  say 6
  log peek c1 running
  log fork 2 f 7
  log yield
  log complete c1 returned 5 lost cancelled 6
  log peek c1 cancelled 6
  log say 6
  log end returned 0
fiber 2 f returned 7
  say 7
  say 9
  log say 7
  log complete c1 cancelled 6 won
  log yield
  log say 9
  log end returned 7
";

const LAST: &str = "comp 0 root running
comp 1 a cancelled 6 by 2
clock 0
run done
";

#[test]
fn traces_and_logs(rt: HostRuntime) -> Result<(), Fail> {
    let table: [(&[&str], &str, &str); 5] = [
        (&["run", "a", "b"], "", FIBERS),
        (&["run", "a", "b", "--log"], "", LOGGED_FIBERS),
        (&["run", "a", "b", "--trace"], TRACE, FIBERS),
        (&["run", "a", "b", "--log", "--trace"], TRACE, LOGGED_FIBERS),
        (&["run", "a", "b", "--trace", "--log"], TRACE, LOGGED_FIBERS),
    ];
    for (texts, trace, fibers) in table {
        let text = format!(in rt.alloc(); "picos report 1\n{trace}{fibers}{LAST}")?;
        expect_answer(&rt, rt.alloc(), texts, SCRIPT, Status::Done, text.as_str())?;
    }
    Ok(())
}
