//! The canonical text of a whole program.
ghost use Rattle.std.specs.Prelude.{◌≡◌, ◌++◌, ◌∷◌, [], Ok, OnOk, IfOk, List, string_bytes, flat_map};
ghost use Rattle.script_tree.specs.Canon.{decl_text, text_line, text_text, texts_text, canon};
ghost use Rattle.script_tree.specs.Grammar.{grammar};

use crate::bracket::write_ending;
use crate::form::{DeclForm, Form};
use crate::layout::{line_of_name, line_of_name_and_number, line_of_none};
use crate::program::{Decl, Kind, Program, Text};
use crate::showing::{LEVELS, write_block};
use pic_base::Memory;
use std::alloc::Global;

/// Writes a declaration.
fn write_declaration(program: &Program, decl: &Decl, out: &mut String) -> Result<(), Memory>
    ensures { OnOk result (string_bytes out.new ≡ string_bytes out.old ++ decl_text program.now decl.now) }
{
    let name = &decl.name;
    match decl.kind {
        Kind::Trigger => line_of_name(program, Form::Declare(DeclForm::Trigger), name, out),
        Kind::Comp => line_of_name(program, Form::Declare(DeclForm::Comp), name, out),
        Kind::Mutex => line_of_name(program, Form::Declare(DeclForm::Mutex), name, out),
        Kind::Cond => line_of_name(program, Form::Declare(DeclForm::Cond), name, out),
        Kind::Sem(count) => {
            line_of_name_and_number(program, Form::Declare(DeclForm::Sem), name, count, out)
        }
        Kind::Latch(count) => {
            line_of_name_and_number(program, Form::Declare(DeclForm::Latch), name, count, out)
        }
        Kind::Ivar => line_of_name(program, Form::Declare(DeclForm::Ivar), name, out),
        Kind::Stream => line_of_name(program, Form::Declare(DeclForm::Stream), name, out),
    }
}

/// Writes the declarations.
fn write_declarations(program: &Program, out: &mut String) -> Result<(), Memory>
    ensures { OnOk result (string_bytes out.new ≡ string_bytes out.old ++ flat_map (decl_text program.now) program.now.decls) }
{
    for decl in &program.decls {
        write_declaration(program, decl, out)?;
    }
    Ok(())
}

/// Writes the first line of a text, in front of some others. The last one is the main text.
fn write_first_line(
    program: &Program,
    text: &Text,
    others: &[Text],
    out: &mut String,
) -> Result<(), Memory>
    ensures { OnOk result (string_bytes out.new ≡ string_bytes out.old ++ text_line program.now text.now others.now) }
{
    if others.is_empty() {
        line_of_none(program, 0, Form::Main, out)
    } else {
        line_of_name(program, Form::Fiber, &text.name, out)
    }
}

/// Writes a text with its block, in front of some others.
fn write_text(
    program: &Program,
    text: &Text,
    others: &[Text],
    out: &mut String,
) -> Result<(), Memory>
    ensures { OnOk result (string_bytes out.new ≡ string_bytes out.old ++ text_text program.now text.now others.now) }
{
    write_first_line(program, text, others, out)?;
    write_block(program, LEVELS, 1, text.block, out)?;
    write_ending(program, 0, out)?;
    Ok(())
}

/// Writes the texts.
fn write_texts(program: &Program, texts: &[Text], out: &mut String) -> Result<(), Memory>
    ensures { OnOk result (string_bytes out.new ≡ string_bytes out.old ++ texts_text program.now texts.now) }
{
    let mut rest = texts;
    while let Some((text, others)) = rest.split_first() {
        write_text(program, text, others, out)?;
        rest = others;
    }
    Ok(())
}

/// The canonical text of a program: no comments, no blank lines, two blanks of indent per open
/// block or text, single blanks, each line ended. It is read again as the same program. Want of
/// memory alone is refused.
pub fn show(alloc: Global, program: &Program) -> Result<String, Memory>
    ensures text { IfOk result (λ text. string_bytes text ≡ canon program.now) }
    ensures again { IfOk result (λ text. grammar (string_bytes text) ≡ Ok program.now) }
{
    let mut out = String::from_str(alloc, "picos 1\n")?;
    write_declarations(program, &mut out)?;
    write_texts(program, &program.texts, &mut out)?;
    Ok(out)
}
