//! Reads the lines of blocks, selects, groups of events and single events.
ghost use Rattle.script_tree.specs.Slices.{words_of};
ghost use Rattle.script_tree.specs.declared.form.Form.TheVariants as form_is;
ghost use Rattle.script_tree.specs.Lines.{opener_form, opener_parts, tree_form, event_parts};
ghost use Rattle.script_tree.specs.Stand.{IsRead};

use crate::behind::{none, one, three, two};
use crate::cause::Cause;
use crate::form::{BlockForm, EventForm, GroupForm};
use crate::named::{Ivar, Latch, Mutex, Stream};
use crate::names::Names;
use crate::opener::Opener;
use crate::part::Register;
use crate::program::{CompRef, EventTree, Operand, Test};

/// Reads the words behind the one that tells a block.
pub fn block_of(names: &Names, form: BlockForm, words: &[&[u8]]) -> Result<Opener, Cause>
    ensures { IsRead opener_form opener_parts (form_is.Block form) names.now (words_of words.now) result }
{
    match form {
        BlockForm::If => {
            let (first, second, third) = three::<Operand, Test, Operand>(names, words)?;
            Ok(Opener::Then(first, second, third))
        }
        BlockForm::Loop => {
            none(names, words)?;
            Ok(Opener::Loop)
        }
        BlockForm::Try => {
            none(names, words)?;
            Ok(Opener::Try)
        }
        BlockForm::Forbid => {
            none(names, words)?;
            Ok(Opener::Forbid)
        }
        BlockForm::Permit => {
            none(names, words)?;
            Ok(Opener::Permit)
        }
        BlockForm::Under => {
            let part = one::<CompRef>(names, words)?;
            Ok(Opener::Under(part))
        }
        BlockForm::Link => {
            let (first, second) = two::<CompRef, CompRef>(names, words)?;
            Ok(Opener::Link(first, second))
        }
        BlockForm::Protect => {
            let part = one::<Mutex>(names, words)?;
            Ok(Opener::Protect(part.0))
        }
        BlockForm::Bundle => {
            none(names, words)?;
            Ok(Opener::Bundle)
        }
        BlockForm::Flock => {
            none(names, words)?;
            Ok(Opener::Flock)
        }
        BlockForm::Select => {
            let (first, second) = two::<Register, Register>(names, words)?;
            Ok(Opener::Select(first.0, second.0))
        }
    }
}

/// Reads the words behind the one that tells a group of events.
pub fn group_of(names: &Names, form: GroupForm, words: &[&[u8]]) -> Result<Opener, Cause>
    ensures { IsRead opener_form opener_parts (form_is.Group form) names.now (words_of words.now) result }
{
    match form {
        GroupForm::Choose => {
            none(names, words)?;
            Ok(Opener::Choose)
        }
        GroupForm::Wrap => {
            let part = one::<Operand>(names, words)?;
            Ok(Opener::Wrap(part))
        }
        GroupForm::Guard => {
            let (first, second, third) = three::<Operand, Test, Operand>(names, words)?;
            Ok(Opener::Guard(first, second, third))
        }
    }
}

/// Reads the words behind the one that tells an event.
pub fn event_of(names: &Names, form: EventForm, words: &[&[u8]]) -> Result<EventTree, Cause>
    ensures { IsRead tree_form event_parts (form_is.Event form) names.now (words_of words.now) result }
{
    match form {
        EventForm::Ivar => {
            let part = one::<Ivar>(names, words)?;
            Ok(EventTree::OnIvar(part.0))
        }
        EventForm::Latch => {
            let part = one::<Latch>(names, words)?;
            Ok(EventTree::OnLatch(part.0))
        }
        EventForm::Stream => {
            let (first, second) = two::<Stream, Register>(names, words)?;
            Ok(EventTree::OnStream(first.0, second.0))
        }
        EventForm::Done => {
            let part = one::<CompRef>(names, words)?;
            Ok(EventTree::OnDone(part))
        }
        EventForm::Always => {
            let part = one::<Operand>(names, words)?;
            Ok(EventTree::OnAlways(part))
        }
    }
}
