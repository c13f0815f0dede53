use super::*;
use std::test::Fail;

fn token(start: u32, end: u32, line: u32) -> Token {
    Token { start, end, line }
}

#[test]
fn words_stand_where_they_stand(rt: HostRuntime) -> Result<(), Fail> {
    let text = b"picos 1\n#c\n\tmain#d e\r\n\n set  r1   5\nend";
    let found = tokens(rt.alloc(), text)?;
    let words = [
        token(0, 5, 1),
        token(6, 7, 1),
        token(12, 16, 3),
        token(24, 27, 5),
        token(29, 31, 5),
        token(34, 35, 5),
        token(36, 39, 6),
    ];
    assert_eq!(rt; found.words.as_slice(), words.as_slice());
    assert_eq!(rt; found.lines, 6);
    Ok(())
}

#[test]
fn lines_are_counted(rt: HostRuntime) -> Result<(), Fail> {
    let table = [
        (b"".as_slice(), 0),
        (b"\n", 1),
        (b" ", 1),
        (b"a", 1),
        (b"a\n", 1),
        (b"a\n\n", 2),
        (b"a\n#", 2),
    ];
    for (text, lines) in table {
        assert_eq!(rt; tokens(rt.alloc(), text)?.lines, lines);
    }
    Ok(())
}

#[test]
fn the_first_faulty_line_is_refused(rt: HostRuntime) -> Result<(), Fail> {
    let bad = |line, place| TokenRefusal::BadByte { line, place };
    let table = [
        (b"\x00".as_slice(), bad(1, 1)),
        (b"a\n b\x7f\x80\n", bad(2, 3)),
        (b"#\xff", bad(1, 2)),
        (b"a\n\x1fb\x0b\n\x0c", bad(2, 1)),
    ];
    for (text, refusal) in table {
        assert_eq!(rt; tokens(rt.alloc(), text).err(), Some(refusal));
    }
    Ok(())
}

#[test]
fn a_line_has_at_most_200_bytes(rt: HostRuntime) -> Result<(), Fail> {
    let mut text = vec![in rt.alloc(); b'#'; 200]?;
    assert_eq!(rt; tokens(rt.alloc(), text.as_slice())?.lines, 1);
    text.push(128)?;
    let long = TokenRefusal::LongLine { line: 1 };
    assert_eq!(rt; tokens(rt.alloc(), text.as_slice()).err(), Some(long));
    Ok(())
}
