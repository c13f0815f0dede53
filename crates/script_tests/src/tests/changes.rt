use super::{EVERY_FORM, count_lines, read, refused, shown};
use script_tree::{ParseRefusal, Refused};
use std::test::Fail;

/// Whether a text may be refused so: the causes that come at the end of a text have the number of
/// its lines plus one, the others that of one of its lines.
fn is_in_place(text: &[u8], refusal: ParseRefusal) -> bool {
    let lines = count_lines(text);
    let ParseRefusal::Refused(Refused { line, cause }) = refusal else {
        return false;
    };
    match cause {
        3 | 11 => line as usize == lines.saturating_add(1),
        1 | 2 | 4..=10 | 12..=14 => line > 0 && line as usize <= lines,
        _ => false,
    }
}

#[test]
fn each_front_of_a_script_is_refused(rt: HostRuntime) -> Result<(), Fail> {
    let text = EVERY_FORM.as_bytes();
    assert_eq!(rt; read(rt.alloc(), b"").err(), Some(refused(1, 1)));
    for end in 1..text.len() {
        let front = &text[..end];
        match shown(rt.alloc(), front) {
            Ok(found) => {
                assert_eq!(rt; end + 1, text.len());
                assert_eq!(rt; found.as_str(), EVERY_FORM);
            }
            Err(refusal) => {
                assert_ne!(rt; end + 1, text.len());
                assert!(rt; is_in_place(front, refusal), "{refusal:?} at {end}");
            }
        }
    }
    Ok(())
}

/// How a script is refused whose last line is this line of a canonical script, not its last one.
fn refusal_behind(line: &str, number: u32) -> ParseRefusal {
    let begins_text = line == "main" || line.starts_with("fiber ");
    if begins_text || line.starts_with(' ') {
        refused(number.saturating_add(1), 3)
    } else {
        refused(number.saturating_add(1), 11)
    }
}

#[test]
fn a_script_needs_each_of_its_lines(rt: HostRuntime) -> Result<(), Fail> {
    let mut front = String::new(rt.alloc());
    let mut number = 0u32;
    for line in EVERY_FORM.lines() {
        number = number.saturating_add(1);
        front.push_str(line)?;
        let open = read(rt.alloc(), front.as_bytes()).err();
        front.push_str("\n")?;
        let ended = read(rt.alloc(), front.as_bytes()).err();
        assert_eq!(rt; open, ended, "line {number}");
        if front.len() < EVERY_FORM.len() {
            assert_eq!(rt; ended, Some(refusal_behind(line, number)), "line {number}");
        } else {
            assert_eq!(rt; ended, None);
        }
    }
    assert_eq!(rt; front.as_str(), EVERY_FORM);
    Ok(())
}

/// A script with a comment, a name of each place and each kind of word.
const SHORT: &str = "picos 1
sem s 2 # a_b 1
fiber f
end
main
\tif r1 eq 40
  acquire s
  else
  spawn f 1
  end
end
";

/// What a script with one byte changed is, where a few rules tell.
enum Foreseen {
    Refused(u32, u8),
    /// The same program.
    Same,
    Untold,
}

fn is_blank(byte: u8) -> bool {
    byte == b'\t' || byte == b'\r' || byte == b' '
}

/// Whether words of scripts never have this byte. No blank and no `#` is one.
fn is_sign(byte: u8) -> bool {
    byte.is_ascii_graphic()
        && !(byte.is_ascii_lowercase() || byte.is_ascii_digit() || byte == b'_' || byte == b'#')
}

/// What `SHORT` is where a byte behind `front` is another one.
fn foresee(front: &[u8], old: u8, new: u8) -> Foreseen {
    let mut line = 1u32;
    let mut is_comment = false;
    for byte in front {
        if *byte == b'\n' {
            line = line.saturating_add(1);
            is_comment = false;
        } else if *byte == b'#' {
            is_comment = true;
        }
    }
    if !(new == b'\n' || is_blank(new) || new.is_ascii_graphic()) {
        return Foreseen::Refused(line, 13);
    }
    if new == old || (is_blank(old) && is_blank(new)) {
        return Foreseen::Same;
    }
    if is_comment && old != b'\n' && new != b'\n' {
        return Foreseen::Same;
    }
    if !is_comment && is_sign(new) {
        return Foreseen::Refused(line, if line == 1 { 1 } else { 2 });
    }
    Foreseen::Untold
}

#[test]
fn a_changed_byte_is_seen(rt: HostRuntime) -> Result<(), Fail> {
    let canonical = shown(rt.alloc(), SHORT.as_bytes())?;
    let mut text = Vec::from_slice(rt.alloc(), SHORT.as_bytes())?;
    for place in 0..text.len() {
        let old = text[place];
        for new in 0..=255 {
            text[place] = new;
            let found = shown(rt.alloc(), &text);
            match foresee(&text[..place], old, new) {
                Foreseen::Refused(line, cause) => {
                    assert_eq!(rt; found.err(), Some(refused(line, cause)), "{new} at {place}");
                }
                Foreseen::Same => {
                    assert_eq!(rt; found?.as_str(), canonical.as_str(), "{new} at {place}");
                }
                Foreseen::Untold => match found {
                    Ok(once) => {
                        let twice = shown(rt.alloc(), once.as_bytes())?;
                        assert_eq!(rt; twice.as_str(), once.as_str(), "{new} at {place}");
                    }
                    Err(refusal) => {
                        assert!(rt; is_in_place(&text, refusal), "{new} at {place}");
                    }
                },
            }
        }
        text[place] = old;
    }
    Ok(())
}
