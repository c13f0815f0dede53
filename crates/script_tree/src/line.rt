//! Lines that were read: one call for every form, and the declarations.
ghost use Rattle.std.specs.Prelude.{IfOk};
ghost use Rattle.script_tree.specs.Lines.{line_form, line_parts};
ghost use Rattle.script_tree.specs.Slices.{words_of};
ghost use Rattle.script_tree.specs.Stand.{IsFree, IsRead};
ghost use Rattle.script_tree.specs.declared.form.Form.TheVariants as form_is;

use crate::behind::{name_and_number, none, one, one_name};
use crate::cause::Cause;
use crate::form::{DeclForm, Form};
use crate::names::Names;
use crate::new_name::NewName;
use crate::opener::Opener;
use crate::opening::{block_of, event_of, group_of};
use crate::part::Register;
use crate::program::{EventTree, Kind, Stmt};
use crate::statement::{basic_of, comp_of, fiber_of, object_of};

/// A line that was read. Blocks and groups of events are named by what they open.
#[derive(Drop)]
pub enum Line<'a> {
    Declare(Kind, NewName<'a>),
    Fiber(NewName<'a>),
    Main,
    End,
    Else,
    Catch(u8),
    Plain(Stmt),
    Open(Opener),
    Leaf(EventTree),
}

/// Reads the words behind the one that tells a declaration.
fn declaration_of<'a>(names: &Names, form: DeclForm, words: &[&'a [u8]]) -> Result<Line<'a>, Cause>
    ensures free { IfOk result (λ l. IsFree names.now l) }
    ensures read { IsRead line_form line_parts (form_is.Declare form) names.now (words_of words.now) result }
{
    match form {
        DeclForm::Trigger => Ok(Line::Declare(Kind::Trigger, one_name(names, words)?)),
        DeclForm::Comp => Ok(Line::Declare(Kind::Comp, one_name(names, words)?)),
        DeclForm::Mutex => Ok(Line::Declare(Kind::Mutex, one_name(names, words)?)),
        DeclForm::Cond => Ok(Line::Declare(Kind::Cond, one_name(names, words)?)),
        DeclForm::Sem => {
            let (name, count) = name_and_number(names, words)?;
            Ok(Line::Declare(Kind::Sem(count), name))
        }
        DeclForm::Latch => {
            let (name, count) = name_and_number(names, words)?;
            Ok(Line::Declare(Kind::Latch(count), name))
        }
        DeclForm::Ivar => Ok(Line::Declare(Kind::Ivar, one_name(names, words)?)),
        DeclForm::Stream => Ok(Line::Declare(Kind::Stream, one_name(names, words)?)),
    }
}

/// Reads the words of a line behind the word that tells its form.
pub fn line_of<'a>(names: &Names, form: Form, words: &[&'a [u8]]) -> Result<Line<'a>, Cause>
    ensures free { IfOk result (λ l. IsFree names.now l) }
    ensures read { IsRead line_form line_parts form names.now (words_of words.now) result }
{
    match form {
        Form::Declare(form) => declaration_of(names, form, words),
        Form::Fiber => Ok(Line::Fiber(one_name(names, words)?)),
        Form::Main => {
            none(names, words)?;
            Ok(Line::Main)
        }
        Form::End => {
            none(names, words)?;
            Ok(Line::End)
        }
        Form::Else => {
            none(names, words)?;
            Ok(Line::Else)
        }
        Form::Catch => {
            let register = one::<Register>(names, words)?;
            Ok(Line::Catch(register.0))
        }
        Form::Basic(form) => Ok(Line::Plain(basic_of(names, form, words)?)),
        Form::Comp(form) => Ok(Line::Plain(comp_of(names, form, words)?)),
        Form::Object(form) => Ok(Line::Plain(object_of(names, form, words)?)),
        Form::Fork(form) => Ok(Line::Plain(fiber_of(names, form, words)?)),
        Form::Block(form) => Ok(Line::Open(block_of(names, form, words)?)),
        Form::Event(form) => Ok(Line::Leaf(event_of(names, form, words)?)),
        Form::Group(form) => Ok(Line::Open(group_of(names, form, words)?)),
    }
}
