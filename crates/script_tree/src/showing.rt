//! How statements and events are written with all that they hold.
ghost use Rattle.std.specs.Prelude.{◌≡◌, ◌+◌, ◌<◌, ◌≤◌, ◌++◌, ◌∷◌, [], OnOk, string_bytes, flat_map, slice_get};
ghost use Rattle.script_tree.specs.Canon.{opening, ending, around, part_text, else_text, stmt_text, block_text, events_text, event_text, group_text, levels_of_blocks};
ghost use Rattle.script_tree.specs.Parts.{number_part};
ghost use Rattle.script_tree.specs.Spelling.{line_text};
ghost use Rattle.script_tree.specs.declared.program.Stmt.TheVariants as stmt_is;
ghost use Rattle.script_tree.specs.declared.form.Form.TheVariants as form_is;

use crate::bracket::{write_ending, write_leaf, write_opening};
use crate::form::Form;
use crate::layout::{line_of_none, line_of_one};
use crate::opener::Opener;
use crate::part::Register;
use crate::plain::write_plain;
use crate::program::{EventTree, Operand, Program, Stmt, Test};
use pic_base::Memory;

/// How many groups or blocks deep a program is looked into. None is deeper.
pub const LEVELS: u32 = 34;

/// Writes a group of events around its members.
#[cycle(events)]
fn write_group(
    program: &Program,
    levels: u32,
    depth: u32,
    opener: Opener,
    members: &[u32],
    out: &mut String,
) -> Result<(), Memory>
    requires { depth + levels < 4294967294 }
    ensures { OnOk result (string_bytes out.new ≡ string_bytes out.old ++ group_text (events_text levels program.now (depth + 1)) program.now depth opener members.now) }
{
    write_opening(program, depth, opener, out)?;
    write_events(program, levels, depth + 1, members, out)?;
    write_ending(program, depth, out)?;
    Ok(())
}

/// Writes the event at a place.
#[cycle(events)]
fn write_event(
    program: &Program,
    levels: u32,
    depth: u32,
    place: u32,
    out: &mut String,
) -> Result<(), Memory>
    requires { depth + levels < 4294967294 }
    ensures { OnOk result (string_bytes out.new ≡ string_bytes out.old ++ event_text (events_text levels program.now (depth + 1)) program.now depth (slice_get program.now.events place)) }
{
    let Some(event) = program.events.get(place as usize) else {
        return Ok(());
    };
    match event {
        EventTree::Choose(members) => {
            write_group(program, levels, depth, Opener::Choose, &members.items, out)
        }
        EventTree::Wrap(operand, members) => {
            write_group(
                program,
                levels,
                depth,
                Opener::Wrap(*operand),
                &members.items,
                out,
            )
        }
        EventTree::Guard(left, test, right, members) => write_group(
            program,
            levels,
            depth,
            Opener::Guard(*left, *test, *right),
            &members.items,
            out,
        ),
        _ => write_leaf(program, depth, event, out),
    }
}

/// Writes the events at some places.
#[cycle(events)]
fn write_events(
    program: &Program,
    levels: u32,
    depth: u32,
    places: &[u32],
    out: &mut String,
) -> Result<(), Memory>
    requires { depth + levels < 4294967295 }
    ensures { OnOk result (string_bytes out.new ≡ string_bytes out.old ++ events_text levels program.now depth places.now) }
{
    if levels == 0 {
        return Ok(());
    }
    for place in places {
        write_event(program, levels - 1, depth, *place, out)?;
    }
    Ok(())
}

/// Writes a select around its events.
fn write_select(
    program: &Program,
    depth: u32,
    opener: Opener,
    events: &[u32],
    out: &mut String,
) -> Result<(), Memory>
    requires { depth < 4294967000 }
    ensures { OnOk result (string_bytes out.new ≡ string_bytes out.old ++ (opening program.now depth opener ++ (events_text levels_of_blocks program.now (depth + 1) events.now ++ ending program.now depth))) }
{
    write_opening(program, depth, opener, out)?;
    write_events(program, LEVELS, depth + 1, events, out)?;
    write_ending(program, depth, out)?;
    Ok(())
}

/// Writes the line that begins the second part of a block.
fn write_catch(program: &Program, depth: u32, register: u8, out: &mut String) -> Result<(), Memory>
    ensures { OnOk result (string_bytes out.new ≡ string_bytes out.old ++ line_text program.now depth form_is.Catch (number_part register ∷ [])) }
{
    line_of_one(program, depth, Form::Catch, Register(register), out)
}

/// Writes a block around its statements.
#[cycle(blocks)]
fn write_around(
    program: &Program,
    levels: u32,
    depth: u32,
    opener: Opener,
    place: u32,
    out: &mut String,
) -> Result<(), Memory>
    requires { depth + levels < 4294966999 }
    ensures { OnOk result (string_bytes out.new ≡ string_bytes out.old ++ around (block_text levels program.now (depth + 1)) program.now depth opener place) }
{
    write_opening(program, depth, opener, out)?;
    write_block(program, levels, depth + 1, place, out)?;
    write_ending(program, depth, out)?;
    Ok(())
}

/// Writes the `else` part of an `if`, if it has one.
#[cycle(blocks)]
fn write_else(
    program: &Program,
    levels: u32,
    depth: u32,
    other: Option<u32>,
    out: &mut String,
) -> Result<(), Memory>
    requires { depth + levels < 4294966999 }
    ensures { OnOk result (string_bytes out.new ≡ string_bytes out.old ++ else_text (block_text levels program.now (depth + 1)) program.now depth other) }
{
    match other {
        Some(place) => {
            line_of_none(program, depth, Form::Else, out)?;
            write_block(program, levels, depth + 1, place, out)?;
            Ok(())
        }
        None => Ok(()),
    }
}

/// Writes an `if` with its parts.
#[cycle(blocks)]
fn write_if(
    program: &Program,
    levels: u32,
    depth: u32,
    test: (Operand, Test, Operand),
    places: (u32, Option<u32>),
    out: &mut String,
) -> Result<(), Memory>
    requires { depth + levels < 4294966999 }
    ensures { OnOk result (string_bytes out.new ≡ string_bytes out.old ++ stmt_text (block_text levels program.now (depth + 1)) program.now depth (stmt_is.If test.0 test.1 test.2 places.0 places.1)) }
{
    write_opening(program, depth, Opener::Then(test.0, test.1, test.2), out)?;
    write_block(program, levels, depth + 1, places.0, out)?;
    write_else(program, levels, depth, places.1, out)?;
    write_ending(program, depth, out)?;
    Ok(())
}

/// Writes the handler of a `try`.
#[cycle(blocks)]
fn write_handler(
    program: &Program,
    levels: u32,
    depth: u32,
    register: u8,
    handler: u32,
    out: &mut String,
) -> Result<(), Memory>
    requires { depth + levels < 4294966999 }
    ensures { OnOk result (string_bytes out.new ≡ string_bytes out.old ++ part_text (block_text levels program.now (depth + 1)) program.now depth form_is.Catch (number_part register ∷ []) handler) }
{
    write_catch(program, depth, register, out)?;
    write_block(program, levels, depth + 1, handler, out)?;
    Ok(())
}

/// Writes a `try` with its parts.
#[cycle(blocks)]
fn write_try(
    program: &Program,
    levels: u32,
    depth: u32,
    body: u32,
    handler: (u8, u32),
    out: &mut String,
) -> Result<(), Memory>
    requires { depth + levels < 4294966999 }
    ensures { OnOk result (string_bytes out.new ≡ string_bytes out.old ++ stmt_text (block_text levels program.now (depth + 1)) program.now depth (stmt_is.Try body handler.0 handler.1)) }
{
    write_opening(program, depth, Opener::Try, out)?;
    write_block(program, levels, depth + 1, body, out)?;
    write_handler(program, levels, depth, handler.0, handler.1, out)?;
    write_ending(program, depth, out)?;
    Ok(())
}

/// Writes a statement with all that it holds.
#[cycle(blocks)]
fn write_stmt(
    program: &Program,
    levels: u32,
    depth: u32,
    stmt: &Stmt,
    out: &mut String,
) -> Result<(), Memory>
    requires { depth + levels < 4294966999 }
    ensures { OnOk result (string_bytes out.new ≡ string_bytes out.old ++ stmt_text (block_text levels program.now (depth + 1)) program.now depth stmt.now) }
{
    match stmt {
        Stmt::If {
            left,
            test,
            right,
            then,
            other,
        } => write_if(
            program,
            levels,
            depth,
            (*left, *test, *right),
            (*then, *other),
            out,
        ),
        Stmt::Try {
            body,
            register,
            handler,
        } => write_try(program, levels, depth, *body, (*register, *handler), out),
        Stmt::Loop(place) => write_around(program, levels, depth, Opener::Loop, *place, out),
        Stmt::Forbid(place) => write_around(program, levels, depth, Opener::Forbid, *place, out),
        Stmt::Permit(place) => write_around(program, levels, depth, Opener::Permit, *place, out),
        Stmt::Under(comp, place) => {
            write_around(program, levels, depth, Opener::Under(*comp), *place, out)
        }
        Stmt::Link(from, into, place) => {
            write_around(
                program,
                levels,
                depth,
                Opener::Link(*from, *into),
                *place,
                out,
            )
        }
        Stmt::Protect(mutex, place) => {
            write_around(program, levels, depth, Opener::Protect(*mutex), *place, out)
        }
        Stmt::Bundle(place) => write_around(program, levels, depth, Opener::Bundle, *place, out),
        Stmt::Flock(place) => write_around(program, levels, depth, Opener::Flock, *place, out),
        Stmt::Select {
            number,
            value,
            events,
        } => write_select(
            program,
            depth,
            Opener::Select(*number, *value),
            &events.items,
            out,
        ),
        _ => write_plain(program, depth, stmt, out),
    }
}

/// Writes statements with all that they hold.
#[cycle(blocks)]
fn write_stmts(
    program: &Program,
    levels: u32,
    depth: u32,
    stmts: &[Stmt],
    out: &mut String,
) -> Result<(), Memory>
    requires { depth + levels < 4294966999 }
    ensures { OnOk result (string_bytes out.new ≡ string_bytes out.old ++ flat_map (stmt_text (block_text levels program.now (depth + 1)) program.now depth) stmts.now) }
{
    for stmt in stmts {
        write_stmt(program, levels, depth, stmt, out)?;
    }
    Ok(())
}

/// Writes the statements of the block at a place.
#[cycle(blocks)]
pub fn write_block(
    program: &Program,
    levels: u32,
    depth: u32,
    place: u32,
    out: &mut String,
) -> Result<(), Memory>
    requires { depth + levels < 4294967000 }
    ensures { OnOk result (string_bytes out.new ≡ string_bytes out.old ++ block_text levels program.now depth place) }
{
    if levels == 0 {
        return Ok(());
    }
    match program.blocks.get(place as usize) {
        Some(block) => write_stmts(program, levels - 1, depth, &block.stmts, out),
        None => Ok(()),
    }
}
