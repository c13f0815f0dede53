//! The parts of a line form that name a declared thing or the text of a fiber.
ghost use Rattle.std.specs.Prelude.{◌≡◌, ◌==◌, ◌||◌};
ghost use Rattle.script_tree.specs.Names.{sort_number};
ghost use Rattle.script_tree.specs.Parts.{told, word_read, place_named as place_named_in, a_fillable, a_place, number_part};
ghost use Rattle.script_tree.specs.declared.thing.Sort.TheVariants as sort;

use crate::cause::Cause;
use crate::class::{Class, class_of};
use crate::names::Names;
use crate::part::Part;
use crate::program::Program;
use crate::spelling::{write_decl, write_text_name};
use crate::thing::{Sort, Thing};
use pic_base::Memory;

/// The place of a declared ivar or stream.
#[derive(Clone, Copy)]
pub struct Fillable(pub u32);

/// The place of a declared trigger.
#[derive(Clone, Copy)]
pub struct Trigger(pub u32);

/// The place of a declared mutex.
#[derive(Clone, Copy)]
pub struct Mutex(pub u32);

/// The place of a declared condition.
#[derive(Clone, Copy)]
pub struct Cond(pub u32);

/// The place of a declared semaphore.
#[derive(Clone, Copy)]
pub struct Sem(pub u32);

/// The place of a declared latch.
#[derive(Clone, Copy)]
pub struct Latch(pub u32);

/// The place of a declared ivar.
#[derive(Clone, Copy)]
pub struct Ivar(pub u32);

/// The place of a declared stream.
#[derive(Clone, Copy)]
pub struct Stream(pub u32);

/// The place of the text of a fiber.
#[derive(Clone, Copy)]
pub struct FiberText(pub u32);

/// What a name stands for, where an ivar or a stream is wanted.
fn fillable_named(thing: Option<Thing>) -> Result<Fillable, Cause>
    ensures { told (λ x. number_part x.0) result ≡ place_named_in (λ s. (s == 6) || (s == 7)) thing }
{
    match thing {
        None => Err(Cause::Unknown),
        Some(Thing::Root) => Err(Cause::OtherKind),
        Some(Thing::Main) => Err(Cause::OtherKind),
        Some(Thing::Named(sort, place)) => {
            if sort.is(Sort::Ivar) || sort.is(Sort::Stream) {
                Ok(Fillable(place))
            } else {
                Err(Cause::OtherKind)
            }
        }
    }
}

/// What a name stands for, where a thing of this sort is wanted.
fn place_named(thing: Option<Thing>, wanted: Sort) -> Result<u32, Cause>
    ensures { told (λ x. number_part x) result ≡ place_named_in (λ t. t == sort_number wanted) thing }
{
    match thing {
        None => Err(Cause::Unknown),
        Some(Thing::Root) => Err(Cause::OtherKind),
        Some(Thing::Main) => Err(Cause::OtherKind),
        Some(Thing::Named(sort, place)) => {
            if sort.is(wanted) {
                Ok(place)
            } else {
                Err(Cause::OtherKind)
            }
        }
    }
}

/// Reads the name of a thing of this sort.
fn place_of(names: &Names, word: &[u8], wanted: Sort) -> Result<u32, Cause>
    ensures { told (λ x. number_part x) result ≡ word_read names.now (a_place wanted) word.now }
{
    match class_of(word) {
        Class::Name => place_named(names.get(word), wanted),
        _ => Err(Cause::Word),
    }
}

impl Part for Fillable {
    ghost shape = { a_fillable };

    ghost part = { λ x. number_part x.0 };

    fn read(names: &Names, word: &[u8]) -> Result<Self, Cause> {
        match class_of(word) {
            Class::Name => fillable_named(names.get(word)),
            _ => Err(Cause::Word),
        }
    }

    fn write(self, program: &Program, out: &mut String) -> Result<(), Memory> {
        write_decl(program, self.0, out)
    }
}

impl Part for Trigger {
    ghost shape = { a_place sort.Trigger };

    ghost part = { λ x. number_part x.0 };

    fn read(names: &Names, word: &[u8]) -> Result<Self, Cause> {
        Ok(Trigger(place_of(names, word, Sort::Trigger)?))
    }

    fn write(self, program: &Program, out: &mut String) -> Result<(), Memory> {
        write_decl(program, self.0, out)
    }
}

impl Part for Mutex {
    ghost shape = { a_place sort.Mutex };

    ghost part = { λ x. number_part x.0 };

    fn read(names: &Names, word: &[u8]) -> Result<Self, Cause> {
        Ok(Mutex(place_of(names, word, Sort::Mutex)?))
    }

    fn write(self, program: &Program, out: &mut String) -> Result<(), Memory> {
        write_decl(program, self.0, out)
    }
}

impl Part for Cond {
    ghost shape = { a_place sort.Cond };

    ghost part = { λ x. number_part x.0 };

    fn read(names: &Names, word: &[u8]) -> Result<Self, Cause> {
        Ok(Cond(place_of(names, word, Sort::Cond)?))
    }

    fn write(self, program: &Program, out: &mut String) -> Result<(), Memory> {
        write_decl(program, self.0, out)
    }
}

impl Part for Sem {
    ghost shape = { a_place sort.Sem };

    ghost part = { λ x. number_part x.0 };

    fn read(names: &Names, word: &[u8]) -> Result<Self, Cause> {
        Ok(Sem(place_of(names, word, Sort::Sem)?))
    }

    fn write(self, program: &Program, out: &mut String) -> Result<(), Memory> {
        write_decl(program, self.0, out)
    }
}

impl Part for Latch {
    ghost shape = { a_place sort.Latch };

    ghost part = { λ x. number_part x.0 };

    fn read(names: &Names, word: &[u8]) -> Result<Self, Cause> {
        Ok(Latch(place_of(names, word, Sort::Latch)?))
    }

    fn write(self, program: &Program, out: &mut String) -> Result<(), Memory> {
        write_decl(program, self.0, out)
    }
}

impl Part for Ivar {
    ghost shape = { a_place sort.Ivar };

    ghost part = { λ x. number_part x.0 };

    fn read(names: &Names, word: &[u8]) -> Result<Self, Cause> {
        Ok(Ivar(place_of(names, word, Sort::Ivar)?))
    }

    fn write(self, program: &Program, out: &mut String) -> Result<(), Memory> {
        write_decl(program, self.0, out)
    }
}

impl Part for Stream {
    ghost shape = { a_place sort.Stream };

    ghost part = { λ x. number_part x.0 };

    fn read(names: &Names, word: &[u8]) -> Result<Self, Cause> {
        Ok(Stream(place_of(names, word, Sort::Stream)?))
    }

    fn write(self, program: &Program, out: &mut String) -> Result<(), Memory> {
        write_decl(program, self.0, out)
    }
}

impl Part for FiberText {
    ghost shape = { a_place sort.Text };

    ghost part = { λ x. number_part x.0 };

    fn read(names: &Names, word: &[u8]) -> Result<Self, Cause> {
        Ok(FiberText(place_of(names, word, Sort::Text)?))
    }

    fn write(self, program: &Program, out: &mut String) -> Result<(), Memory> {
        write_text_name(program, self.0, out)
    }
}
