//! Lines of the canonical text, for each number of parts that forms have.
ghost use Rattle.std.specs.Prelude.{◌≡◌, ◌*◌, ◌++◌, ◌∷◌, [], OnOk, replicate, string_bytes};
ghost use Rattle.script_tree.specs.Forms.{shapes};
ghost use Rattle.script_tree.specs.Parts.{a_new_name, a_number, name_part, number_part};
ghost use Rattle.script_tree.specs.Spelling.{joined, lead, line_text, part_word};

use crate::form::Form;
use crate::part::{Number, Part};
use crate::program::{Name, Program};
use crate::spelling::write_name;
use pic_base::Memory;

/// Writes two blanks for each block or text that is open.
fn write_indent(depth: u32, out: &mut String) -> Result<(), Memory>
    ensures { OnOk result (string_bytes out.new ≡ string_bytes out.old ++ replicate (2 * depth) 32) }
{
    for _level in 0..depth {
        out.push_str("  ")?;
    }
    Ok(())
}

/// Writes the words that tell a form.
fn write_lead(form: Form, out: &mut String) -> Result<(), Memory>
    ensures { OnOk result (string_bytes out.new ≡ string_bytes out.old ++ joined (lead form)) }
{
    if let Form::Event(_) = form {
        out.push_str("on ")?;
    }
    out.push_str(form.keyword())?;
    Ok(())
}

/// Writes a blank and the word of a part.
fn write_part<A: Part>(program: &Program, part: A, out: &mut String) -> Result<(), Memory>
    ensures { OnOk result (string_bytes out.new ≡ string_bytes out.old ++ 32 ∷ part_word program.now A.shape (A.part part)) }
{
    out.push_str(" ")?;
    part.write(program, out)?;
    Ok(())
}

/// Writes a line with no parts.
pub fn line_of_none(
    program: &Program,
    depth: u32,
    form: Form,
    out: &mut String,
) -> Result<(), Memory>
    requires { shapes form ≡ [] }
    ensures { OnOk result (string_bytes out.new ≡ string_bytes out.old ++ line_text program.now depth form []) }
{
    write_indent(depth, out)?;
    write_lead(form, out)?;
    out.push_str("\n")?;
    Ok(())
}

/// Writes a line with one part.
pub fn line_of_one<A: Part>(
    program: &Program,
    depth: u32,
    form: Form,
    part: A,
    out: &mut String,
) -> Result<(), Memory>
    requires { shapes form ≡ A.shape ∷ [] }
    ensures { OnOk result (string_bytes out.new ≡ string_bytes out.old ++ line_text program.now depth form (A.part part ∷ [])) }
{
    write_indent(depth, out)?;
    write_lead(form, out)?;
    write_part(program, part, out)?;
    out.push_str("\n")?;
    Ok(())
}

/// Writes a line with two parts.
pub fn line_of_two<A: Part, B: Part>(
    program: &Program,
    depth: u32,
    form: Form,
    parts: (A, B),
    out: &mut String,
) -> Result<(), Memory>
    requires { shapes form ≡ A.shape ∷ (B.shape ∷ []) }
    ensures { OnOk result (string_bytes out.new ≡ string_bytes out.old ++ line_text program.now depth form (A.part parts.0 ∷ (B.part parts.1 ∷ []))) }
{
    write_indent(depth, out)?;
    write_lead(form, out)?;
    write_part(program, parts.0, out)?;
    write_part(program, parts.1, out)?;
    out.push_str("\n")?;
    Ok(())
}

/// Writes a line with three parts.
pub fn line_of_three<A: Part, B: Part, C: Part>(
    program: &Program,
    depth: u32,
    form: Form,
    parts: (A, B, C),
    out: &mut String,
) -> Result<(), Memory>
    requires { shapes form ≡ A.shape ∷ (B.shape ∷ (C.shape ∷ [])) }
    ensures { OnOk result (string_bytes out.new ≡ string_bytes out.old ++ line_text program.now depth form (A.part parts.0 ∷ (B.part parts.1 ∷ (C.part parts.2 ∷ [])))) }
{
    write_indent(depth, out)?;
    write_lead(form, out)?;
    write_part(program, parts.0, out)?;
    write_part(program, parts.1, out)?;
    write_part(program, parts.2, out)?;
    out.push_str("\n")?;
    Ok(())
}

/// Writes a line, outside of all texts, with a name.
pub fn line_of_name(
    program: &Program,
    form: Form,
    name: &Name,
    out: &mut String,
) -> Result<(), Memory>
    requires { shapes form ≡ a_new_name ∷ [] }
    ensures { OnOk result (string_bytes out.new ≡ string_bytes out.old ++ line_text program.now 0 form (name_part name.now ∷ [])) }
{
    write_lead(form, out)?;
    out.push_str(" ")?;
    write_name(name, out)?;
    out.push_str("\n")?;
    Ok(())
}

/// Writes a line, outside of all texts, with a name and a number.
pub fn line_of_name_and_number(
    program: &Program,
    form: Form,
    name: &Name,
    number: u32,
    out: &mut String,
) -> Result<(), Memory>
    requires { shapes form ≡ a_new_name ∷ (a_number ∷ []) }
    ensures { OnOk result (string_bytes out.new ≡ string_bytes out.old ++ line_text program.now 0 form (name_part name.now ∷ (number_part number ∷ []))) }
{
    write_lead(form, out)?;
    out.push_str(" ")?;
    write_name(name, out)?;
    write_part(program, Number(number), out)?;
    out.push_str("\n")?;
    Ok(())
}
