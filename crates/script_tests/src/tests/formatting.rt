use super::{EVERY_FORM, read, shown};
use script_tree::{most, parse, show};
use std::alloc::{AllocError, Global};
use std::test::Fail;

#[test]
fn a_script_is_shown_in_its_canonical_text(rt: HostRuntime) -> Result<(), Fail> {
    let text = b"picos 1\n#c\nmain\n set  r1   5\nend";
    let program = parse(rt.alloc(), text)?;
    let shown = show(rt.alloc(), &program)?;
    assert_eq!(rt; shown.as_str(), "picos 1\nmain\n  set r1 5\nend\n");
    assert_eq!(rt; most(&program), 4294967295);
    Ok(())
}

#[test]
fn each_form_is_read_and_shown(rt: HostRuntime) -> Result<(), Fail> {
    let program = read(rt.alloc(), EVERY_FORM.as_bytes())?;
    assert_eq!(rt; show(rt.alloc(), &program)?.as_str(), EVERY_FORM);
    assert_eq!(rt; program.texts.len(), 2);
    assert_eq!(rt; program.decls.len(), 8);
    Ok(())
}

#[test]
fn an_empty_else_part_is_left_out(rt: HostRuntime) -> Result<(), Fail> {
    let table = [
        ("if r1 eq 0\nelse\nend\n", "  if r1 eq 0\n  end\n"),
        (
            "if r1 eq 0\nyield\nelse\n#c\n\nend\nsay 1\n",
            "  if r1 eq 0\n    yield\n  end\n  say 1\n",
        ),
        (
            "if r1 eq 0\nelse\nif 1 le 2\nelse\nend\nend\n",
            "  if r1 eq 0\n  else\n    if 1 le 2\n    end\n  end\n",
        ),
        (
            "if r1 eq 0\nloop\nend\nelse\nend\ntry\nyield\ncatch r1\nend\n",
            "  if r1 eq 0\n    loop\n    end\n  end\n  try\n    yield\n  catch r1\n  end\n",
        ),
    ];
    for (text, canonical) in table {
        let script = format!(in rt.alloc(); "picos 1\nmain\n{text}end\n")?;
        let wanted = format!(in rt.alloc(); "picos 1\nmain\n{canonical}end\n")?;
        let found = shown(rt.alloc(), script.as_bytes())?;
        assert_eq!(rt; found.as_str(), wanted.as_str());
        assert_eq!(rt;
            shown(rt.alloc(), found.as_bytes())?.as_str(),
            wanted.as_str()
        );
    }
    Ok(())
}

/// Blanks in place of one.
fn blanks(choice: u32) -> &'static [u8] {
    match choice {
        0 => b" ",
        1 => b"\t",
        2 => b" \r ",
        _ => b"\t\t   ",
    }
}

/// What may stand in place of a line end.
fn line_end(choice: u32) -> &'static [u8] {
    match choice {
        0 => b"\n",
        1 => b" # say 1\n\t",
        2 => b"\r\n\n \r\n",
        _ => b"#\n  # end\n\t\n ",
    }
}

/// A text with other blanks, with comments and with lines without words.
fn laid_out(alloc: Global, text: &[u8], seed: u32) -> Result<Vec<u8>, AllocError> {
    let mut dice = seed;
    let mut out = Vec::new(alloc);
    for byte in text {
        dice = dice.wrapping_mul(1_664_525).wrapping_add(1_013_904_223);
        match byte {
            b' ' => out.extend_from_slice(blanks(dice >> 30))?,
            b'\n' => out.extend_from_slice(line_end(dice >> 30))?,
            _ => out.push(*byte)?,
        }
    }
    Ok(out)
}

#[test]
fn the_layout_is_not_shown(rt: HostRuntime) -> Result<(), Fail> {
    for seed in 0..50 {
        let text = laid_out(rt.alloc(), EVERY_FORM.as_bytes(), seed)?;
        let found = shown(rt.alloc(), &text)?;
        assert_eq!(rt; found.as_str(), EVERY_FORM, "from {seed}");
    }
    Ok(())
}
