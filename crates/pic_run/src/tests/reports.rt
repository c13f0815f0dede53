//! Reports of runs, and the answers to `check` and `show`.
use super::*;

#[test]
fn reports(rt: HostRuntime) -> Result<(), Fail> {
    // Each script with its report.
    let table = [
        (FIRST, FIRST_REPORT),
        // Each fiber has the name of its text and its own says.
        (
            TURNS,
            "picos report 1
fiber 1 main returned 0
  say 4
fiber 2 a returned 0
  say 1
  say 2
fiber 3 b returned 0
  say 3
comp 0 root running
clock 0
run done
",
        ),
        (
            "picos 1
comp a
main
return r1 a 5
return r2 a 6
cancel r3 a 7
say r1
say r2
say r3
peek r4 r5 a
say r5
end
",
            "picos report 1
fiber 1 main returned 0
  say 1
  say 0
  say 0
  say 5
comp 0 root running
comp 1 a returned 5 by 1
clock 0
run done
",
        ),
        (
            "picos 1
main
set r0 7
cancel r1 root 9
peek r2 r3 root
say r2
say r3
end
",
            "picos report 1
fiber 1 main returned 7
  say 2
  say 9
comp 0 root cancelled 9 by 1
clock 0
run done
",
        ),
        // A text that no fiber runs.
        (
            "picos 1
fiber f
say 1
end
main
end
",
            FIRST_REPORT,
        ),
        // Blanks, comments and a last line without an end don't matter.
        (
            "\n# first\npicos\t1\r\n main # the text\n\nend",
            FIRST_REPORT,
        ),
    ];
    for (script, text) in table {
        expect_answer(
            &rt,
            rt.alloc(),
            &["run", "a", "b"],
            script,
            Status::Done,
            text,
        )?;
    }
    Ok(())
}

#[test]
fn refuses(rt: HostRuntime) -> Result<(), Fail> {
    let table = [
        // The first fault is told with its line and cause.
        (
            "picos 1\nmain\nset r16 1\nsay\nend\n",
            "refused line 3 cause 8\n",
        ),
        // Scripts that no run serves yet.
        (
            "picos 1\nfiber f\nterminate\nend\nmain\nend\n",
            "refused line 0 cause 0\n",
        ),
        (
            "picos 1\nmain\npeek r1 r2 p0\nend\n",
            "refused line 0 cause 0\n",
        ),
    ];
    for (script, text) in table {
        expect_answer(
            &rt,
            rt.alloc(),
            &["run", "a", "b"],
            script,
            Status::Refused,
            text,
        )?;
    }
    Ok(())
}

#[test]
fn checks_and_shows(rt: HostRuntime) -> Result<(), Fail> {
    let loose = "picos 1\n#c\nmain\n set  r1   5\nend";
    let choice = "picos 1\nmain\nselect r1 r2\non always 7\nend\nend\n";
    let other = "picos 1\nmain\nset r1 5\nsay r1 r2\nend\n";
    let shown = "picos 1\nmain\n  set r1 5\nend\n";
    let unserved = "refused line 0 cause 0\n";
    let wrong_word = "refused line 4 cause 2\n";
    let table: [(&[&str], &str, Status, &str); 7] = [
        (&["check", "a"], loose, Status::Done, "ok\n"),
        (&["show", "a"], loose, Status::Done, shown),
        (&["check", "a"], choice, Status::Done, "ok\n"),
        (&["run", "a", "b"], choice, Status::Refused, unserved),
        (&["check", "a"], other, Status::Refused, wrong_word),
        (&["show", "a"], other, Status::Refused, wrong_word),
        (
            &["show", "a"],
            "picos 2\n",
            Status::Refused,
            "refused line 1 cause 1\n",
        ),
    ];
    for (texts, script, status, text) in table {
        expect_answer(&rt, rt.alloc(), texts, script, status, text)?;
    }
    Ok(())
}

#[test]
fn answers_bytes(rt: HostRuntime) -> Result<(), Fail> {
    let alloc = rt.alloc();
    let words = words_of(alloc, &["run", "a", "b"])?;
    let Ok(request) = request_of(words.as_slice()) else {
        assert!(rt; false, "the words are a request");
        return Ok(());
    };
    let mut sink = MemSink::new(alloc);
    assert!(rt; FIRST.len() <= MOST_BYTES);
    let ended = answer_script(alloc, &request, FIRST.as_bytes(), &mut sink);
    assert_eq!(rt; ended, Status::Done);
    assert_eq!(rt; sink.bytes.as_slice(), FIRST_REPORT.as_bytes());
    Ok(())
}
