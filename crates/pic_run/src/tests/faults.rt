//! Faults of the files and of the sink.
use super::*;
use pic_io::Files;

#[test]
fn faults_of_the_files(rt: HostRuntime) -> Result<(), Fail> {
    let alloc = rt.alloc();
    let words = words_of(alloc, &["run", "a", "b"])?;
    let long = vec![in alloc; b'#'; MOST_BYTES + 1]?;
    let mut unreadable = file_a(alloc, FIRST)?;
    unreadable.failing.push(1)?;
    let mut too_long = MemFiles::new(alloc);
    too_long.add("a", long.as_slice())?;
    // Without a file, with one that can't be read, and with one that has a byte too many.
    let table = [
        (MemFiles::new(alloc), Status::ReadFault, "read fault\n"),
        (unreadable, Status::ReadFault, "read fault\n"),
        (too_long, Status::TooLarge, "too large\n"),
    ];
    for (mut files, status, text) in table {
        let mut out = Gathered::new(alloc, MemSink::new(alloc));
        let ended = run_to_end(alloc, words.as_slice(), &mut files, &mut out);
        assert_eq!(rt; ended, status);
        assert_eq!(rt; out.inner.bytes.as_slice(), text.as_bytes());
        assert_eq!(rt; files.calls, 1);
        if status == Status::ReadFault {
            assert_eq!(rt; files.failed_name(), Some("a"));
        }
    }
    Ok(())
}

#[test]
fn faults_of_the_sink(rt: HostRuntime) -> Result<(), Fail> {
    let alloc = rt.alloc();
    let words = words_of(alloc, &["run", "a", "b"])?;
    // A script, how many bytes a put takes, which put fails, and then the answer and what was taken.
    let table: [(&str, usize, u64, Status, &str); 4] = [
        (FIRST, usize::MAX, 2, Status::WriteFault, "picos report 1\n"),
        ("main\n", usize::MAX, 1, Status::WriteFault, ""),
        // A sink that takes a byte a put, and at last fails within a line.
        (FIRST, 1, 0, Status::Done, FIRST_REPORT),
        (FIRST, 1, 6, Status::WriteFault, "picos"),
    ];
    for (script, most, failing, status, taken) in table {
        assert!(rt; most > 0);
        let mut files = file_a(alloc, script)?;
        let mut out = sink_of(alloc, most, failing)?;
        let ended = run_one_call(alloc, words.as_slice(), &mut files, &mut out);
        assert_eq!(rt; ended, status);
        assert_eq!(rt; out.bytes.as_slice(), taken.as_bytes());
    }
    Ok(())
}

#[test]
fn faults_at_the_end(rt: HostRuntime) -> Result<(), Fail> {
    let alloc = rt.alloc();
    let words = words_of(alloc, &["run", "a", "b"])?;
    // How many bytes a put takes, which put fails, and then the answer, what was taken, and how many
    // puts there were. All of the report is put at once.
    let table: [(usize, u64, Status, &str, u64); 4] = [
        (usize::MAX, 0, Status::Done, FIRST_REPORT, 1),
        (usize::MAX, 1, Status::WriteFault, "", 1),
        (5, 2, Status::WriteFault, "picos", 2),
        (100, 0, Status::Done, FIRST_REPORT, 1),
    ];
    for (most, failing, status, taken, puts) in table {
        assert!(rt; most > 0);
        let mut files = file_a(alloc, FIRST)?;
        let mut out = Gathered::new(alloc, sink_of(alloc, most, failing)?);
        let ended = run_to_end(alloc, words.as_slice(), &mut files, &mut out);
        assert_eq!(rt; ended, status);
        assert_eq!(rt; out.inner.bytes.as_slice(), taken.as_bytes());
        assert_eq!(rt; out.inner.calls, puts);
    }
    Ok(())
}
