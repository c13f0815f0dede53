//! How the lines that begin and end blocks, selects and groups of events are written, and those of
//! single events.
ghost use Rattle.std.specs.Prelude.{◌≡◌, ◌++◌, OnOk, string_bytes};
ghost use Rattle.script_tree.specs.Canon.{opening, ending, form_line};
ghost use Rattle.script_tree.specs.Lines.{tree_form, event_parts};

use crate::form::{BlockForm, EventForm, Form, GroupForm};
use crate::layout::{line_of_none, line_of_one, line_of_three, line_of_two};
use crate::named::{Ivar, Latch, Mutex, Stream};
use crate::opener::Opener;
use crate::part::Register;
use crate::program::{EventTree, Program};
use pic_base::Memory;

/// Writes the line that opens a block, a select or a group of events.
pub fn write_opening(
    program: &Program,
    depth: u32,
    opener: Opener,
    out: &mut String,
) -> Result<(), Memory>
    ensures { OnOk result (string_bytes out.new ≡ string_bytes out.old ++ opening program.now depth opener) }
{
    match opener {
        Opener::Then(first, second, third) => line_of_three(
            program,
            depth,
            Form::Block(BlockForm::If),
            (first, second, third),
            out,
        ),
        Opener::Loop => line_of_none(program, depth, Form::Block(BlockForm::Loop), out),
        Opener::Try => line_of_none(program, depth, Form::Block(BlockForm::Try), out),
        Opener::Forbid => line_of_none(program, depth, Form::Block(BlockForm::Forbid), out),
        Opener::Permit => line_of_none(program, depth, Form::Block(BlockForm::Permit), out),
        Opener::Under(first) => line_of_one(
            program,
            depth,
            Form::Block(BlockForm::Under),
            first,
            out,
        ),
        Opener::Link(first, second) => line_of_two(
            program,
            depth,
            Form::Block(BlockForm::Link),
            (first, second),
            out,
        ),
        Opener::Protect(first) => line_of_one(
            program,
            depth,
            Form::Block(BlockForm::Protect),
            Mutex(first),
            out,
        ),
        Opener::Bundle => line_of_none(program, depth, Form::Block(BlockForm::Bundle), out),
        Opener::Flock => line_of_none(program, depth, Form::Block(BlockForm::Flock), out),
        Opener::Select(first, second) => line_of_two(
            program,
            depth,
            Form::Block(BlockForm::Select),
            (Register(first), Register(second)),
            out,
        ),
        Opener::Choose => line_of_none(program, depth, Form::Group(GroupForm::Choose), out),
        Opener::Wrap(first) => line_of_one(
            program,
            depth,
            Form::Group(GroupForm::Wrap),
            first,
            out,
        ),
        Opener::Guard(first, second, third) => line_of_three(
            program,
            depth,
            Form::Group(GroupForm::Guard),
            (first, second, third),
            out,
        ),
        _ => Ok(()),
    }
}

/// Writes the line that ends what is open.
pub fn write_ending(program: &Program, depth: u32, out: &mut String) -> Result<(), Memory>
    ensures { OnOk result (string_bytes out.new ≡ string_bytes out.old ++ ending program.now depth) }
{
    line_of_none(program, depth, Form::End, out)
}

/// Writes the line of an event that holds no others.
pub fn write_leaf(
    program: &Program,
    depth: u32,
    event: &EventTree,
    out: &mut String,
) -> Result<(), Memory>
    ensures { OnOk result (string_bytes out.new ≡ string_bytes out.old ++ form_line program.now depth (tree_form event.now) (event_parts event.now)) }
{
    match event {
        EventTree::OnIvar(first) => line_of_one(
            program,
            depth,
            Form::Event(EventForm::Ivar),
            Ivar(*first),
            out,
        ),
        EventTree::OnLatch(first) => line_of_one(
            program,
            depth,
            Form::Event(EventForm::Latch),
            Latch(*first),
            out,
        ),
        EventTree::OnStream(first, second) => line_of_two(
            program,
            depth,
            Form::Event(EventForm::Stream),
            (Stream(*first), Register(*second)),
            out,
        ),
        EventTree::OnDone(first) => line_of_one(
            program,
            depth,
            Form::Event(EventForm::Done),
            *first,
            out,
        ),
        EventTree::OnAlways(first) => line_of_one(
            program,
            depth,
            Form::Event(EventForm::Always),
            *first,
            out,
        ),
        _ => Ok(()),
    }
}
