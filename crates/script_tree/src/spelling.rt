//! How names are written.
ghost use Rattle.std.specs.Prelude.{◌≡◌, ◌++◌, OnOk, IsAscii, slice_get, string_bytes};
ghost use Rattle.script_tree.specs.Spelling.{decl_name, text_name};

use crate::program::{Name, Program};
use pic_base::Memory;

/// Writes ASCII.
fn write_ascii(bytes: &[u8], out: &mut String) -> Result<(), Memory>
    requires { IsAscii bytes.now }
    ensures { OnOk result (string_bytes out.new ≡ string_bytes out.old ++ bytes.now) }
{
    for byte in bytes {
        out.push(*byte as char)?;
    }
    Ok(())
}

/// Writes a name.
pub fn write_name(name: &Name, out: &mut String) -> Result<(), Memory>
    ensures { OnOk result (string_bytes out.new ≡ string_bytes out.old ++ name.now) }
{
    write_ascii(&name.bytes, out)
}

/// Writes the name of the declaration at a place.
pub fn write_decl(program: &Program, place: u32, out: &mut String) -> Result<(), Memory>
    ensures { OnOk result (string_bytes out.new ≡ string_bytes out.old ++ decl_name (slice_get program.now.decls place)) }
{
    match program.decls.get(place as usize) {
        Some(decl) => write_name(&decl.name, out),
        None => Ok(()),
    }
}

/// Writes the name of the text at a place.
pub fn write_text_name(program: &Program, place: u32, out: &mut String) -> Result<(), Memory>
    ensures { OnOk result (string_bytes out.new ≡ string_bytes out.old ++ text_name (slice_get program.now.texts place)) }
{
    match program.texts.get(place as usize) {
        Some(text) => write_name(&text.name, out),
        None => Ok(()),
    }
}
