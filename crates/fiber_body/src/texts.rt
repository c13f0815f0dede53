//! The texts of a program.
ghost use Rattle.std.specs.Prelude.{◌≡◌, ◌<◌, ◌≤◌, length};
ghost use Rattle.fiber_body.specs.Context.{block_at};
ghost use Rattle.fiber_body.specs.Texts.{EachFits, block_of, main_text};

use script_tree::{Program, Stmt};

/// The number of the main text, which is the last one.
pub(crate) fn main_text(program: &Program) -> u32
    requires some { 0 < length program.now.texts }
    requires few { length program.now.texts ≤ 65 }
    ensures { result ≡ main_text program.now }
{
    program.texts.len() as u32 - 1
}

/// The number of a text's block.
pub(crate) fn block_of(program: &Program, text: u32) -> u32
    requires { text < length program.now.texts }
    ensures { result ≡ block_of program.now text }
{
    program.texts[text as usize].block
}

/// The statements of a block; none where the program has no such block.
pub fn block_at(program: &Program, block: u32) -> &[Stmt]
    ensures is { result.now ≡ block_at program.now.blocks block }
    // No program has more statements than that.
    ensures few { length result.now ≤ 10000 }
    ensures fit { EachFits program.now block result.now }
{
    match program.blocks.get(block as usize) {
        Some(block) => block.stmts.as_slice(),
        None => &[],
    }
}
