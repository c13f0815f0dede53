//! What names stand for.
ghost use Rattle.std.specs.Prelude.{◌≡◌, ◌==◌};
ghost use Rattle.script_tree.specs.Names.{sort_of as sort_of_in, sort_number};

use crate::program::Kind;

/// What names stand for, without the counts that some of them begin with.
#[derive(Clone, Copy)]
pub enum Sort {
    Trigger,
    Comp,
    Mutex,
    Cond,
    Sem,
    Latch,
    Ivar,
    Stream,
    Text,
}

/// What a name stands for: a declared thing by its place in `decls`, or a text by its place in
/// `texts`.
#[derive(Clone, Copy)]
pub enum Thing {
    Root,
    Main,
    Named(Sort, u32),
}

impl Sort {
    fn number(self) -> u8
        ensures { result ≡ sort_number self }
    {
        match self {
            Sort::Trigger => 0,
            Sort::Comp => 1,
            Sort::Mutex => 2,
            Sort::Cond => 3,
            Sort::Sem => 4,
            Sort::Latch => 5,
            Sort::Ivar => 6,
            Sort::Stream => 7,
            Sort::Text => 8,
        }
    }

    pub fn is(self, other: Sort) -> bool
        ensures { result ≡ (sort_number self == sort_number other) }
    {
        self.number() == other.number()
    }
}

/// The sort of what a declaration makes.
pub fn sort_of(kind: Kind) -> Sort
    ensures { result ≡ sort_of_in kind }
{
    match kind {
        Kind::Trigger => Sort::Trigger,
        Kind::Comp => Sort::Comp,
        Kind::Mutex => Sort::Mutex,
        Kind::Cond => Sort::Cond,
        Kind::Sem(_) => Sort::Sem,
        Kind::Latch(_) => Sort::Latch,
        Kind::Ivar => Sort::Ivar,
        Kind::Stream => Sort::Stream,
    }
}
