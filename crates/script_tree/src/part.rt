//! What can stand at a place of a line form: how it is read, and how it is written. Here are the
//! parts that are told by their own shape; `named` has those that name a declared thing or a text.
ghost use Rattle.std.specs.Prelude.{◌≡◌, ◌++◌, OnOk, string_bytes};
ghost use Rattle.script_tree.specs.Spelling.{part_word};
ghost use Rattle.script_tree.specs.Parts.{Part as PartRead, Shape, told, word_read, comp_named as comp_named_in, a_register, a_value, a_number, a_key, a_promise, a_comp, a_test, number_part, operand_part, comp_part, test_part};

use crate::cause::Cause;
use crate::class::{Class, class_of};
use crate::names::Names;
use crate::program::{CompRef, Operand, Program, Test};
use crate::spelling::write_decl;
use crate::thing::{Sort, Thing};
use pic_base::Memory;
use std::fmt::Write;

/// How many keys the storage has.
const KEYS: u32 = 16;

/// What can be read at one place of a line form.
pub trait Part: Copy {
    ghost shape: { Shape };

    ghost part: { Self → PartRead };

    /// Reads a word where this is wanted.
    fn read(names: &Names, word: &[u8]) -> Result<Self, Cause>
        ensures { told (λ x. part x) result ≡ word_read names.now shape word.now };

    /// Writes its word.
    fn write(self, program: &Program, out: &mut String) -> Result<(), Memory>
        ensures { OnOk result (string_bytes out.new ≡ string_bytes out.old ++ part_word program.now shape (part self)) };
}

/// A register.
#[derive(Clone, Copy)]
pub struct Register(pub u8);

/// A number.
#[derive(Clone, Copy)]
pub struct Number(pub u32);

/// A key of the storage.
#[derive(Clone, Copy)]
pub struct Key(pub u8);

/// A promise register.
#[derive(Clone, Copy)]
pub struct PromiseRegister(pub u8);

/// What a name stands for, where a computation is wanted.
fn comp_named(thing: Option<Thing>) -> Result<CompRef, Cause>
    ensures { told (λ x. comp_part x) result ≡ comp_named_in thing }
{
    match thing {
        None => Err(Cause::Unknown),
        Some(Thing::Root) => Ok(CompRef::Root),
        Some(Thing::Main) => Err(Cause::OtherKind),
        Some(Thing::Named(sort, place)) => {
            if sort.is(Sort::Comp) {
                Ok(CompRef::Named(place))
            } else {
                Err(Cause::OtherKind)
            }
        }
    }
}

impl Part for Register {
    ghost shape = { a_register };

    ghost part = { λ x. number_part x.0 };

    fn read(_names: &Names, word: &[u8]) -> Result<Self, Cause> {
        match class_of(word) {
            Class::Register(number) => Ok(Register(number)),
            Class::LargeRegister => Err(Cause::LargeRegister),
            _ => Err(Cause::Word),
        }
    }

    fn write(self, _program: &Program, out: &mut String) -> Result<(), Memory> {
        write!(out, "r{}", self.0)?;
        Ok(())
    }
}

impl Part for Operand {
    ghost shape = { a_value };

    ghost part = { λ x. operand_part x };

    fn read(_names: &Names, word: &[u8]) -> Result<Self, Cause> {
        match class_of(word) {
            Class::Register(number) => Ok(Operand::Reg(number)),
            Class::LargeRegister => Err(Cause::LargeRegister),
            Class::Number(number) => Ok(Operand::Num(number)),
            Class::LargeNumber => Err(Cause::LargeNumber),
            _ => Err(Cause::Word),
        }
    }

    fn write(self, _program: &Program, out: &mut String) -> Result<(), Memory> {
        match self {
            Operand::Reg(number) => write!(out, "r{number}")?,
            Operand::Num(number) => write!(out, "{number}")?,
        }
        Ok(())
    }
}

impl Part for Number {
    ghost shape = { a_number };

    ghost part = { λ x. number_part x.0 };

    fn read(_names: &Names, word: &[u8]) -> Result<Self, Cause> {
        match class_of(word) {
            Class::Number(number) => Ok(Number(number)),
            Class::LargeNumber => Err(Cause::LargeNumber),
            _ => Err(Cause::Word),
        }
    }

    fn write(self, _program: &Program, out: &mut String) -> Result<(), Memory> {
        write!(out, "{}", self.0)?;
        Ok(())
    }
}

impl Part for Key {
    ghost shape = { a_key };

    ghost part = { λ x. number_part x.0 };

    fn read(_names: &Names, word: &[u8]) -> Result<Self, Cause> {
        match class_of(word) {
            Class::Number(number) if number < KEYS => Ok(Key(number as u8)),
            Class::Number(_) => Err(Cause::LargeRegister),
            Class::LargeNumber => Err(Cause::LargeNumber),
            _ => Err(Cause::Word),
        }
    }

    fn write(self, _program: &Program, out: &mut String) -> Result<(), Memory> {
        write!(out, "{}", self.0)?;
        Ok(())
    }
}

impl Part for PromiseRegister {
    ghost shape = { a_promise };

    ghost part = { λ x. number_part x.0 };

    fn read(_names: &Names, word: &[u8]) -> Result<Self, Cause> {
        match class_of(word) {
            Class::Promise(number) => Ok(PromiseRegister(number)),
            Class::LargePromise => Err(Cause::LargeRegister),
            _ => Err(Cause::Word),
        }
    }

    fn write(self, _program: &Program, out: &mut String) -> Result<(), Memory> {
        write!(out, "p{}", self.0)?;
        Ok(())
    }
}

impl Part for CompRef {
    ghost shape = { a_comp };

    ghost part = { λ x. comp_part x };

    fn read(names: &Names, word: &[u8]) -> Result<Self, Cause> {
        match class_of(word) {
            Class::Promise(number) => Ok(CompRef::Promise(number)),
            Class::LargePromise => Err(Cause::LargeRegister),
            Class::Name => comp_named(names.get(word)),
            _ => Err(Cause::Word),
        }
    }

    fn write(self, program: &Program, out: &mut String) -> Result<(), Memory> {
        match self {
            CompRef::Root => Ok(out.push_str("root")?),
            CompRef::Named(place) => write_decl(program, place, out),
            CompRef::Promise(number) => PromiseRegister(number).write(program, out),
        }
    }
}

impl Part for Test {
    ghost shape = { a_test };

    ghost part = { λ x. test_part x };

    fn read(_names: &Names, word: &[u8]) -> Result<Self, Cause> {
        match word {
            b"eq" => Ok(Test::Eq),
            b"ne" => Ok(Test::Ne),
            b"lt" => Ok(Test::Lt),
            b"le" => Ok(Test::Le),
            b"gt" => Ok(Test::Gt),
            b"ge" => Ok(Test::Ge),
            _ => Err(Cause::Word),
        }
    }

    fn write(self, _program: &Program, out: &mut String) -> Result<(), Memory> {
        let word = match self {
            Test::Eq => "eq",
            Test::Ne => "ne",
            Test::Lt => "lt",
            Test::Le => "le",
            Test::Gt => "gt",
            Test::Ge => "ge",
        };
        out.push_str(word)?;
        Ok(())
    }
}
