//! The numbers of the things that a program declares.
ghost use Rattle.std.specs.Prelude.{◌≡◌, ◌≤◌, ◌==◌, IfOk, length, slice_get};
ghost use Rattle.script_tree.specs.Names.{sort_number, sort_of};
ghost use Rattle.fiber_body.specs.Context.{behind_decl, comp_in, count_of, numbering, numbers_of};
ghost use Rattle.fiber_body.specs.Counted.{sort_counted};

use pic_base::{CompNo, Memory, TriggerNo};
use script_tree::{CompRef, Decl, Kind, Program};
use std::alloc::Global;
use std::marker::Model;

/// The numbers of the triggers and the computations that a program declares, each at the place of its
/// declaration. Beside another declaration stands the number of the next one of the sort. They are counted
/// once for a program.
#[derive(Drop)]
pub struct Numbers {
    triggers: Vec<TriggerNo>,
    comps: Vec<CompNo>,
}

impl Model for Numbers {
    ghost use Rattle.fiber_body.specs.Context.{Numbering};

    ghost Value = { Numbering };

    ghost view = { λ n. record { triggers = n.triggers.items; comps = n.comps.items } };
}

impl Numbers {
    /// The numbers of the program's triggers and computations.
    pub fn of(alloc: Global, program: &Program) -> Result<Numbers, Memory>
        ensures { IfOk result (λ numbers. numbers ≡ numbering program.now.decls) }
    {
        Ok(Numbers {
            triggers: numbers_of(alloc, &program.decls, Counted::Triggers, 0)?,
            comps: numbers_of(alloc, &program.decls, Counted::Comps, 1)?,
        })
    }

    /// The number of a trigger. None where nothing is declared at its place.
    pub fn trigger(&self, place: u32) -> Option<TriggerNo>
        ensures { result ≡ slice_get self.now.triggers place }
    {
        self.triggers.get(place as usize).copied()
    }

    /// The number of a computation. None where nothing is declared at its place, and of a promise register,
    /// in which nothing stands yet.
    pub fn comp(&self, comp: CompRef) -> Option<CompNo>
        ensures { result ≡ comp_in self.now.comps comp }
    {
        match comp {
            CompRef::Root => Some(0),
            CompRef::Named(place) => self.comps.get(place as usize).copied(),
            CompRef::Promise(_) => None,
        }
    }
}

/// A sort of things that are numbered by themselves.
#[derive(Clone, Copy)]
pub enum Counted {
    Triggers,
    Comps,
}

impl Counted {
    /// Whether a declaration of this kind is one of the sort.
    pub fn counts(self, kind: Kind) -> bool
        ensures { result ≡ (sort_number (sort_of kind) == sort_number (sort_counted self)) }
    {
        match self {
            Counted::Triggers => matches!(kind, Kind::Trigger),
            Counted::Comps => matches!(kind, Kind::Comp),
        }
    }

    /// The next number behind a declaration of this kind that has this one.
    fn behind(self, number: u32, kind: Kind) -> u32
        requires { number ≤ 1000 }
        ensures { result ≡ behind_decl (sort_counted self) number kind }
    {
        if self.counts(kind) {
            number + 1
        } else {
            number
        }
    }
}

/// Beside each declaration the number of what is declared there, where it is one of the sort, or else of the
/// next one. The first one has the number `first`.
fn numbers_of(
    alloc: Global,
    decls: &[Decl],
    counted: Counted,
    first: u32,
) -> Result<Vec<u32>, Memory>
    requires few { length decls.now ≤ 576 }
    requires first { first ≤ 1 }
    ensures { IfOk result (λ numbers. numbers.items ≡ numbers_of (sort_counted counted) first decls.now) }
{
    let mut numbers = Vec::new(alloc);
    let mut next = first;
    for decl in decls {
        numbers.push(next)?;
        next = counted.behind(next, decl.kind);
    }
    Ok(numbers)
}

/// How many things of the sort are declared.
pub(crate) fn count_of(decls: &[Decl], counted: Counted) -> u32
    requires few { length decls.now ≤ 576 }
    ensures { result ≡ count_of (sort_counted counted) decls.now }
{
    let mut count = 0;
    for decl in decls {
        count = counted.behind(count, decl.kind);
    }
    count
}
