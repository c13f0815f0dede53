use super::{count_lines, read, refused, shown};
use std::alloc::{AllocError, Global};
use std::fmt::Write;
use std::process::Abort;
use std::test::Fail;

/// Scripts that have a line over and over, numbered at each `@`, and then as often one that ends
/// what it opened.
#[derive(Clone, Copy)]
struct Limit {
    name: &'static str,
    front: &'static str,
    line: &'static str,
    ending: &'static str,
    back: &'static str,
    /// How often the line may stand.
    most: u16,
    /// The line and the cause of the fault where it stands once more.
    over: (u32, u8),
}

/// Writes a line with a number.
fn write_numbered(line: &str, number: u32, out: &mut String) -> Result<(), AllocError> {
    for character in line.chars() {
        if character == '@' {
            write!(out, "{number}")?;
        } else {
            out.push(character)?;
        }
    }
    Ok(())
}

impl Limit {
    /// The script that has the line so often.
    fn script(self, alloc: Global, times: u32) -> Result<String, AllocError> {
        let mut text = String::from_str(alloc, self.front)?;
        for number in 0..times {
            write_numbered(self.line, number, &mut text)?;
        }
        for number in 0..times {
            write_numbered(self.ending, number, &mut text)?;
        }
        text.push_str(self.back)?;
        Ok(text)
    }
}

/// Such scripts are shown with as many lines as they have.
fn check_limit(rt: &impl Abort, alloc: Global, limit: Limit) -> Result<(), Fail> {
    let name = limit.name;
    let most = u32::from(limit.most);
    for times in [most.saturating_sub(1), most] {
        let script = limit.script(alloc, times)?;
        let found = shown(alloc, script.as_bytes())?;
        let lines = count_lines(script.as_bytes());
        assert_eq!(rt; count_lines(found.as_bytes()), lines, "{name}");
    }
    let over = limit.script(alloc, most + 1)?;
    let found = read(alloc, over.as_bytes()).err();
    assert_eq!(rt; found, Some(refused(limit.over.0, limit.over.1)), "{name}");
    Ok(())
}

const DECLARATIONS: [Limit; 5] = [
    Limit {
        name: "triggers",
        front: "picos 1\n",
        line: "trigger t@\n",
        ending: "",
        back: "main\nend\n",
        most: 256,
        over: (258, 9),
    },
    Limit {
        name: "computations",
        front: "picos 1\ntrigger t\n",
        line: "comp c@\n",
        ending: "",
        back: "main\nend\n",
        most: 256,
        over: (259, 9),
    },
    Limit {
        name: "other things, together",
        front: "picos 1\ntrigger t\ncomp c\nsem s 1\nlatch l 1\ncond k\nivar i\nstream q\n",
        line: "mutex m@\n",
        ending: "",
        back: "main\nend\n",
        most: 59,
        over: (68, 9),
    },
    Limit {
        name: "texts of fibers",
        front: "picos 1\n",
        line: "fiber f@\nend\n",
        ending: "",
        back: "main\nend\n",
        most: 64,
        over: (130, 9),
    },
    Limit {
        name: "bytes of a name",
        front: "picos 1\ncomp ",
        line: "a",
        ending: "",
        back: "\nmain\nend\n",
        most: 24,
        over: (2, 2),
    },
];

const STATEMENTS: [Limit; 5] = [
    Limit {
        name: "statements",
        front: "picos 1\nmain\n",
        line: "yield\n",
        ending: "",
        back: "end\n",
        most: 10_000,
        over: (10_003, 9),
    },
    Limit {
        name: "statements and blocks of all texts",
        front: "picos 1\nfiber f\nyield\nend\nmain\nloop\nend\nselect r1 r2\nchoose\nend\nend\n",
        line: "yield\n",
        ending: "",
        back: "end\n",
        most: 9_997,
        over: (10_009, 9),
    },
    Limit {
        name: "events of a select",
        front: "picos 1\nmain\nselect r1 r2\n",
        line: "on always @\n",
        ending: "",
        back: "end\nend\n",
        most: 32,
        over: (36, 9),
    },
    Limit {
        name: "events of a select in its groups",
        front: "picos 1\nmain\nselect r1 r2\non always 1\nend\nselect r1 r2\nchoose\n",
        line: "wrap 1\non always @\nend\n",
        ending: "",
        back: "end\nend\nend\n",
        most: 32,
        over: (105, 9),
    },
    Limit {
        name: "bytes of a line",
        front: "picos 1\nmain\nyield#",
        line: "x",
        ending: "",
        back: "\nend\n",
        most: 194,
        over: (3, 14),
    },
];

const DEPTHS: [Limit; 4] = [
    Limit {
        name: "open blocks",
        front: "picos 1\nmain\n",
        line: "loop\n",
        ending: "end\n",
        back: "end\n",
        most: 32,
        over: (35, 10),
    },
    Limit {
        name: "open groups of events in a select",
        front: "picos 1\nmain\nselect r1 r2\n",
        line: "choose\n",
        ending: "end\n",
        back: "end\nend\n",
        most: 31,
        over: (35, 10),
    },
    Limit {
        name: "open bundles",
        front: "picos 1\nmain\n",
        line: "bundle\n",
        ending: "end\n",
        back: "end\n",
        most: 8,
        over: (11, 10),
    },
    Limit {
        name: "open bundles and flocks, together",
        front: "picos 1\nmain\nbundle\nloop\nbundle\nforbid\n",
        line: "flock\n",
        ending: "end\n",
        back: "end\nend\nend\nend\nend\n",
        most: 6,
        over: (13, 10),
    },
];

#[test]
fn declarations_are_limited(rt: HostRuntime) -> Result<(), Fail> {
    for limit in DECLARATIONS {
        check_limit(&rt, rt.alloc(), limit)?;
    }
    Ok(())
}

#[test]
fn statements_and_events_are_limited(rt: HostRuntime) -> Result<(), Fail> {
    for limit in STATEMENTS {
        check_limit(&rt, rt.alloc(), limit)?;
    }
    Ok(())
}

#[test]
fn depths_are_limited(rt: HostRuntime) -> Result<(), Fail> {
    for limit in DEPTHS {
        check_limit(&rt, rt.alloc(), limit)?;
    }
    Ok(())
}

#[test]
fn numbers_are_limited(rt: HostRuntime) -> Result<(), Fail> {
    let table = [
        ("say 4294967295", "say 4294967296", 7),
        ("put 1 4294967295", "put 1 4294967296", 7),
        ("after 4294967295 root 0", "after 4294967296 root 0", 7),
        ("say 0", "say 99999999999999999999999", 7),
        ("put 15 0", "put 4294967296 0", 7),
        ("put 15 0", "put 16 0", 8),
        ("get r1 15", "get r1 16", 8),
        ("set r15 0", "set r16 0", 8),
        ("say r15", "say r4294967296", 8),
        ("wait r1 p7", "wait r1 p8", 8),
        ("promise p7 f 0", "promise p8 f 0", 8),
    ];
    for (met, over, cause) in table {
        let script = format!(in rt.alloc(); "picos 1\nfiber f\nend\nmain\n  {met}\nend\n")?;
        assert_eq!(rt;
            shown(rt.alloc(), script.as_bytes())?.as_str(),
            script.as_str()
        );
        let script = format!(in rt.alloc(); "picos 1\nfiber f\nend\nmain\n  {over}\nend\n")?;
        let found = read(rt.alloc(), script.as_bytes()).err();
        assert_eq!(rt; found, Some(refused(5, cause)), "{over}");
    }
    Ok(())
}

#[test]
fn counts_are_limited(rt: HostRuntime) {
    let table = [
        ("picos 1\nsem s 4294967295\nmain\nend\n", None),
        ("picos 1\nlatch l 4294967295\nmain\nend\n", None),
        (
            "picos 1\nsem s 4294967296\nmain\nend\n",
            Some(refused(2, 7)),
        ),
        (
            "picos 1\nlatch l 4294967296\nmain\nend\n",
            Some(refused(2, 7)),
        ),
    ];
    for (text, wanted) in table {
        assert_eq!(rt; read(rt.alloc(), text.as_bytes()).err(), wanted, "{text}");
    }
}

/// A script where 10,000 statements stand, 32 of them open blocks, in front of a line.
fn full(alloc: Global, line: &str) -> Result<String, AllocError> {
    let mut text = String::from_str(alloc, "picos 1\nmain\n")?;
    for _ in 0..9_968 {
        text.push_str("yield\n")?;
    }
    for _ in 0..32 {
        text.push_str("loop\n")?;
    }
    text.push_str(line)?;
    Ok(text)
}

#[test]
fn words_come_before_depth_and_depth_before_number(rt: HostRuntime) -> Result<(), Fail> {
    let table = [
        ("yield", 9),
        ("loop", 10),
        ("select r1 r2", 10),
        ("loop 1", 2),
        ("under c", 4),
        ("protect root", 6),
        ("if 4294967296 eq 0", 7),
        ("select r16 r2", 8),
        ("yield 1", 2),
    ];
    for (line, cause) in table {
        let text = full(rt.alloc(), line)?;
        let found = read(rt.alloc(), text.as_bytes()).err();
        assert_eq!(rt; found, Some(refused(10_003, cause)), "{line}");
    }
    Ok(())
}
