//! Words that are no request.
use super::*;

#[test]
fn words_without_a_request(rt: HostRuntime) -> Result<(), Fail> {
    let alloc = rt.alloc();
    let table: [&[&str]; 13] = [
        &[],
        &["run", "a"],
        &["check"],
        &["check", "a", "b"],
        &["show", "-a"],
        &["shows", "a"],
        &["run", "a", "-b"],
        &["walk", "a", "b"],
        &["run", "a", "b", "c"],
        &["run", "a", "b", "--log", "--log"],
        &["run", "a", "b", "--trace", "--log", "--trace"],
        &["run", "--log", "a", "b"],
        &["check", "a", "--log"],
    ];
    for texts in table {
        let words = words_of(alloc, texts)?;
        let mut files = file_a(alloc, FIRST)?;
        let mut out = Gathered::new(alloc, MemSink::new(alloc));
        let ended = run_to_end(alloc, words.as_slice(), &mut files, &mut out);
        assert_eq!(rt; ended, Status::Usage);
        assert_eq!(rt; out.inner.bytes.as_slice(), b"usage\n".as_slice());
        assert_eq!(rt; files.calls, 0);
        assert!(rt; files.reads.is_empty());
    }
    Ok(())
}
