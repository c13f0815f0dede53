//! Worked scripts with their reports, faults of files and sinks, words, and the order of turns.
ghost use Rattle.std.specs.Prelude.{◌<◌};

use super::*;
use pic_io::{Gathered, MemFiles, MemSink};
use std::alloc::Global;
use std::process::Abort;
use std::test::Fail;

mod faults;
mod flags;
mod following;
mod reports;
mod triggers;
mod turns;
mod waiting;
mod words;

const FIRST: &str = "picos 1
main
end
";

const FIRST_REPORT: &str = "picos report 1
fiber 1 main returned 0
comp 0 root running
clock 0
run done
";

/// Main makes fibers of two texts, and all of them take turns.
const TURNS: &str = "picos 1
fiber a
say 1
yield
say 2
end
fiber b
say 3
end
main
spawn a 0
yield
spawn b 0
say 4
yield
end
";

/// The words of a command line.
fn words_of(alloc: Global, texts: &[&str]) -> Result<Vec<String>, Fail> {
    let mut words = Vec::new(alloc);
    for text in texts {
        words.push(String::from_str(alloc, text)?)?;
    }
    Ok(words)
}

/// A file `a` of this content.
fn file_a(alloc: Global, content: &str) -> Result<MemFiles, Fail> {
    let mut files = MemFiles::new(alloc);
    files.add("a", content.as_bytes())?;
    Ok(files)
}

/// A sink that takes so many bytes a put, and whose put of this number fails (none at 0).
fn sink_of(alloc: Global, most: usize, failing: u64) -> Result<MemSink, Fail>
    requires { 0 < most }
{
    let mut out = MemSink::new(alloc);
    out.failing.push(failing)?;
    out.most = most;
    Ok(out)
}

/// Asserts what a call with these words answers and writes where `a` has this content, and that it
/// reads that file and no other, once.
fn expect_answer(
    rt: &impl Abort,
    alloc: Global,
    texts: &[&str],
    content: &str,
    status: Status,
    text: &str,
) -> Result<(), Fail> {
    let words = words_of(alloc, texts)?;
    let mut files = file_a(alloc, content)?;
    let mut out = Gathered::new(alloc, MemSink::new(alloc));
    let ended = run_to_end(alloc, words.as_slice(), &mut files, &mut out);
    assert_eq!(rt; ended, status);
    assert_eq!(rt; out.inner.bytes.as_slice(), text.as_bytes());
    assert_eq!(rt; files.calls, 1);
    assert_eq!(rt; files.reads.len(), 1);
    Ok(())
}

/// Runs the script with logs, and expects this status and report.
fn expect_logged(
    rt: &impl Abort,
    alloc: Global,
    script: &str,
    status: Status,
    report: &str,
) -> Result<(), Fail> {
    let words = ["run", "a", "b", "--log"];
    expect_answer(rt, alloc, &words, script, status, report)
}
