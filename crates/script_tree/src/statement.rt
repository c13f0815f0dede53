//! Reads the lines of statements that hold no others.
ghost use Rattle.script_tree.specs.Slices.{words_of};
ghost use Rattle.script_tree.specs.declared.form.Form.TheVariants as form_is;
ghost use Rattle.script_tree.specs.Lines.{stmt_form, stmt_parts};
ghost use Rattle.script_tree.specs.Stand.{IsRead};

use crate::behind::{none, one, three, two};
use crate::cause::Cause;
use crate::form::{BasicForm, CompForm, FiberForm, ObjectForm};
use crate::named::{Cond, FiberText, Fillable, Ivar, Latch, Mutex, Sem, Stream, Trigger};
use crate::names::Names;
use crate::part::{Key, PromiseRegister, Register};
use crate::program::{CompRef, Operand, Stmt};

/// Reads the words behind the one that tells a basic statement.
pub fn basic_of(names: &Names, form: BasicForm, words: &[&[u8]]) -> Result<Stmt, Cause>
    ensures { IsRead stmt_form stmt_parts (form_is.Basic form) names.now (words_of words.now) result }
{
    match form {
        BasicForm::Set => {
            let (first, second) = two::<Register, Operand>(names, words)?;
            Ok(Stmt::Set(first.0, second))
        }
        BasicForm::Add => {
            let (first, second) = two::<Register, Operand>(names, words)?;
            Ok(Stmt::Add(first.0, second))
        }
        BasicForm::Sub => {
            let (first, second) = two::<Register, Operand>(names, words)?;
            Ok(Stmt::Sub(first.0, second))
        }
        BasicForm::Mul => {
            let (first, second) = two::<Register, Operand>(names, words)?;
            Ok(Stmt::Mul(first.0, second))
        }
        BasicForm::Words => {
            let (first, second) = two::<Register, Operand>(names, words)?;
            Ok(Stmt::Words(first.0, second))
        }
        BasicForm::Len => {
            let (first, second) = two::<Register, Operand>(names, words)?;
            Ok(Stmt::Len(first.0, second))
        }
        BasicForm::Put => {
            let (first, second) = two::<Key, Operand>(names, words)?;
            Ok(Stmt::Put(first.0, second))
        }
        BasicForm::Get => {
            let (first, second) = two::<Register, Key>(names, words)?;
            Ok(Stmt::Get(first.0, second.0))
        }
        BasicForm::Say => {
            let part = one::<Operand>(names, words)?;
            Ok(Stmt::Say(part))
        }
        BasicForm::Raise => {
            let part = one::<Operand>(names, words)?;
            Ok(Stmt::Raise(part))
        }
        BasicForm::Break => {
            none(names, words)?;
            Ok(Stmt::Break)
        }
        BasicForm::Yield => {
            none(names, words)?;
            Ok(Stmt::Yield)
        }
        BasicForm::Check => {
            none(names, words)?;
            Ok(Stmt::Check)
        }
    }
}

/// Reads the words behind the one that tells a statement on computations.
pub fn comp_of(names: &Names, form: CompForm, words: &[&[u8]]) -> Result<Stmt, Cause>
    ensures { IsRead stmt_form stmt_parts (form_is.Comp form) names.now (words_of words.now) result }
{
    match form {
        CompForm::Signal => {
            let part = one::<Trigger>(names, words)?;
            Ok(Stmt::Signal(part.0))
        }
        CompForm::Await => {
            let part = one::<Trigger>(names, words)?;
            Ok(Stmt::Await(part.0))
        }
        CompForm::Attach => {
            let (first, second, third) = three::<Register, CompRef, Trigger>(names, words)?;
            Ok(Stmt::Attach(first.0, second, third.0))
        }
        CompForm::Detach => {
            let (first, second) = two::<CompRef, Trigger>(names, words)?;
            Ok(Stmt::Detach(first, second.0))
        }
        CompForm::Return => {
            let (first, second, third) = three::<Register, CompRef, Operand>(names, words)?;
            Ok(Stmt::Return(first.0, second, third))
        }
        CompForm::Cancel => {
            let (first, second, third) = three::<Register, CompRef, Operand>(names, words)?;
            Ok(Stmt::Cancel(first.0, second, third))
        }
        CompForm::Peek => {
            let (first, second, third) = three::<Register, Register, CompRef>(names, words)?;
            Ok(Stmt::Peek(first.0, second.0, third))
        }
        CompForm::Wait => {
            let (first, second) = two::<Register, CompRef>(names, words)?;
            Ok(Stmt::Wait(first.0, second))
        }
        CompForm::After => {
            let (first, second, third) = three::<Operand, CompRef, Operand>(names, words)?;
            Ok(Stmt::After(first, second, third))
        }
    }
}

/// Reads the words behind the one that tells a statement on objects.
pub fn object_of(names: &Names, form: ObjectForm, words: &[&[u8]]) -> Result<Stmt, Cause>
    ensures { IsRead stmt_form stmt_parts (form_is.Object form) names.now (words_of words.now) result }
{
    match form {
        ObjectForm::Lock => {
            let part = one::<Mutex>(names, words)?;
            Ok(Stmt::Lock(part.0))
        }
        ObjectForm::TryLock => {
            let (first, second) = two::<Register, Mutex>(names, words)?;
            Ok(Stmt::TryLock(first.0, second.0))
        }
        ObjectForm::Unlock => {
            let part = one::<Mutex>(names, words)?;
            Ok(Stmt::Unlock(part.0))
        }
        ObjectForm::WaitCond => {
            let (first, second) = two::<Cond, Mutex>(names, words)?;
            Ok(Stmt::WaitCond(first.0, second.0))
        }
        ObjectForm::Notify => {
            let part = one::<Cond>(names, words)?;
            Ok(Stmt::Notify(part.0))
        }
        ObjectForm::Broadcast => {
            let part = one::<Cond>(names, words)?;
            Ok(Stmt::Broadcast(part.0))
        }
        ObjectForm::Acquire => {
            let part = one::<Sem>(names, words)?;
            Ok(Stmt::Acquire(part.0))
        }
        ObjectForm::TryAcquire => {
            let (first, second) = two::<Register, Sem>(names, words)?;
            Ok(Stmt::TryAcquire(first.0, second.0))
        }
        ObjectForm::Release => {
            let part = one::<Sem>(names, words)?;
            Ok(Stmt::Release(part.0))
        }
        ObjectForm::Decr => {
            let part = one::<Latch>(names, words)?;
            Ok(Stmt::Decr(part.0))
        }
        ObjectForm::Incr => {
            let (first, second) = two::<Register, Latch>(names, words)?;
            Ok(Stmt::Incr(first.0, second.0))
        }
        ObjectForm::AwaitLatch => {
            let part = one::<Latch>(names, words)?;
            Ok(Stmt::AwaitLatch(part.0))
        }
        ObjectForm::Fill => {
            let (first, second, third) = three::<Register, Ivar, Operand>(names, words)?;
            Ok(Stmt::Fill(first.0, second.0, third))
        }
        ObjectForm::Poison => {
            let (first, second, third) = three::<Register, Fillable, Operand>(names, words)?;
            Ok(Stmt::Poison(first.0, second.0, third))
        }
        ObjectForm::Read => {
            let (first, second) = two::<Register, Ivar>(names, words)?;
            Ok(Stmt::Read(first.0, second.0))
        }
        ObjectForm::Push => {
            let (first, second) = two::<Stream, Operand>(names, words)?;
            Ok(Stmt::Push(first.0, second))
        }
        ObjectForm::Tap => {
            let (first, second) = two::<Register, Stream>(names, words)?;
            Ok(Stmt::Tap(first.0, second.0))
        }
        ObjectForm::Next => {
            let (first, second, third) = three::<Register, Register, Stream>(names, words)?;
            Ok(Stmt::Next(first.0, second.0, third.0))
        }
        ObjectForm::Line => {
            let part = one::<Register>(names, words)?;
            Ok(Stmt::Line(part.0))
        }
    }
}

/// Reads the words behind the one that tells a statement on fibers.
pub fn fiber_of(names: &Names, form: FiberForm, words: &[&[u8]]) -> Result<Stmt, Cause>
    ensures { IsRead stmt_form stmt_parts (form_is.Fork form) names.now (words_of words.now) result }
{
    match form {
        FiberForm::Spawn => {
            let (first, second) = two::<FiberText, Operand>(names, words)?;
            Ok(Stmt::Spawn(first.0, second))
        }
        FiberForm::Fork => {
            let (first, second) = two::<FiberText, Operand>(names, words)?;
            Ok(Stmt::Fork(first.0, second))
        }
        FiberForm::Promise => {
            let (first, second, third) = three::<PromiseRegister, FiberText, Operand>(
                names, words,
            )?;
            Ok(Stmt::Promise(first.0, second.0, third))
        }
        FiberForm::Terminate => {
            none(names, words)?;
            Ok(Stmt::Terminate)
        }
        FiberForm::Error => {
            let part = one::<Operand>(names, words)?;
            Ok(Stmt::Error(part))
        }
    }
}
