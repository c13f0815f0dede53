use super::{read, refused};
use std::test::Fail;

#[test]
fn each_cause_has_its_script(rt: HostRuntime) {
    let table = [
        ("", 1, 1),
        ("picos 9\nmain\nend\n", 1, 1),
        ("\n\n", 3, 1),
        ("picos 1\nmain\njump\nend\n", 3, 2),
        ("picos 1\nmain\nsay 007\nend\n", 3, 2),
        ("picos 1\nmain\nbreak\nend\n", 3, 2),
        ("picos 1\nmain\ntry\nend\nend\n", 4, 2),
        ("picos 1\nmain", 3, 3),
        ("picos 1\nmain\nsignal t\nend\n", 3, 4),
        ("picos 1\ncomp a\nmutex a\nmain\nend\n", 3, 5),
        ("picos 1\nsem root 5000000000\n", 2, 5),
        ("picos 1\ncomp a\nmain\nlock a\nend\n", 4, 6),
        ("picos 1\nmain\nunder main\nend\nend\n", 3, 6),
        ("picos 1\nmain\nsay 4294967296\nend\n", 3, 7),
        ("picos 1\nmain\nset r16 0\nend\n", 3, 8),
        ("picos 1\nmain\nput 16 0\nend\n", 3, 8),
        ("picos 1\nmain\nwait r1 p8\nend\n", 3, 8),
        ("picos 1\ncomp a\n", 3, 11),
        ("picos 1\nmain\nend\nend\n", 4, 12),
        ("picos 1\n\u{7f}\nmain\nend\n", 2, 13),
    ];
    for (text, line, cause) in table {
        let found = read(rt.alloc(), text.as_bytes()).err();
        assert_eq!(rt; found, Some(refused(line, cause)), "{text}");
    }
}

#[test]
fn names_are_known_where_they_should_be(rt: HostRuntime) {
    let table = [
        ("fiber f\nspawn f 0\nend\nmain\nwait r1 root\nend\n", None),
        ("fiber f\nspawn g 0\nend\nfiber g\nend\n", Some((3, 4))),
        ("main\nwait r1 c\nend\n", Some((3, 4))),
        ("fiber main\n", Some((2, 5))),
        ("trigger root\n", Some((2, 5))),
        ("comp f\nfiber f\n", Some((3, 5))),
        ("fiber f\nend\nfiber f\n", Some((4, 5))),
        ("main\nspawn main 0\nend\n", Some((3, 6))),
        ("main\nspawn root 0\nend\n", Some((3, 6))),
        ("main\nwait r1 main\nend\n", Some((3, 6))),
        ("fiber f\nwait r1 f\nend\n", Some((3, 6))),
        ("stream q\nmain\nfill r1 q 5\nend\n", Some((4, 6))),
        ("latch l 1\nmain\npoison r1 l 5\nend\n", Some((4, 6))),
    ];
    for (text, fault) in table {
        let wanted = fault.map(|(line, cause)| refused(line, cause));
        let script = format!(in rt.alloc(); "picos 1\n{text}");
        let found = script.map(|script| read(rt.alloc(), script.as_bytes()).err());
        assert_eq!(rt; found, Ok(wanted), "{text}");
    }
}

#[test]
fn the_first_fault_is_told(rt: HostRuntime) {
    let table = [
        // Bytes come before lines, and lines before their words.
        ("picos 2\nmain\n\u{7f}\n", 3, 13),
        ("picos 1\nmain\nsignal t\njump\nend\n", 3, 4),
        // Words come from left to right.
        ("picos 1\nmain\nset r16 4294967296\nend\n", 3, 8),
        ("picos 1\nmain\nput 4294967296 r16\nend\n", 3, 7),
        ("picos 1\nmain\nattach r1 c t\nend\n", 3, 4),
        ("picos 1\ncomp c\nmain\nattach r1 c c\nend\n", 4, 6),
        // One word too many comes last, one too few after those that are there.
        ("picos 1\nmain\nsignal t 5\nend\n", 3, 4),
        ("picos 1\nmain\nyield 5\nend\n", 3, 2),
        ("picos 1\nmain\nset r16\nend\n", 3, 8),
        ("picos 1\nmain\nset r15\nend\n", 3, 2),
        // Where a form can't stand, its other words don't count.
        ("picos 1\nmain\ncomp main\nend\n", 3, 2),
        ("picos 1\nsay 4294967296\n", 2, 2),
        ("picos 1\nmain\nend\n\n#c\nsay 01\n", 6, 12),
    ];
    for (text, line, cause) in table {
        let found = read(rt.alloc(), text.as_bytes()).err();
        assert_eq!(rt; found, Some(refused(line, cause)), "{text}");
    }
}

#[test]
fn some_bytes_may_stand_nowhere(rt: HostRuntime) -> Result<(), Fail> {
    for front in ["picos 1\nmain\n", "picos 1\nmain\n# a comment "] {
        for byte in [0, 8, 11, 31, 127, 128, 255] {
            let mut text = Vec::from_slice(rt.alloc(), front.as_bytes())?;
            text.push(byte)?;
            text.extend_from_slice(b"\nend\n")?;
            let found = read(rt.alloc(), &text).err();
            assert_eq!(rt; found, Some(refused(3, 13)), "{byte} in {front}");
        }
    }
    Ok(())
}

#[test]
fn the_longest_text_may_be_one_line(rt: HostRuntime) -> Result<(), Fail> {
    let text = vec![in rt.alloc(); b'#'; 16_777_216]?;
    assert_eq!(rt; read(rt.alloc(), &text).err(), Some(refused(1, 14)));
    Ok(())
}
