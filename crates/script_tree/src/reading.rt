//! What was read of a script so far.
use crate::counts::Counts;
use crate::level::Level;
use crate::names::Names;
use crate::open::Open;
use crate::opener::Opener;
use crate::program::{Block, Decl, EventTree, Text};
use pic_base::Memory;
use std::alloc::Global;

/// What was read of a script so far. An open block or event has an empty one in its place.
#[derive(Drop)]
pub struct Reading {
    pub names: Names,
    pub decls: Vec<Decl>,
    pub texts: Vec<Text>,
    pub blocks: Vec<Block>,
    pub events: Vec<EventTree>,
    pub counts: Counts,
    /// The innermost of what is open.
    pub top: Open,
    /// What is around it, the file first.
    pub outer: Vec<Open>,
}

/// What a whole script was read to.
#[derive(Drop)]
pub struct Parts {
    pub decls: Vec<Decl>,
    pub texts: Vec<Text>,
    pub blocks: Vec<Block>,
    pub events: Vec<EventTree>,
}

impl Reading {
    ghost use Rattle.std.specs.Prelude.{◌≡◌, IfOk};
    ghost use Rattle.script_tree.specs.Reading.{start};
    ghost use Rattle.script_tree.specs.Stand.{state_of};

    /// Nothing was read.
    pub fn new(alloc: Global) -> Result<Reading, Memory>
        ensures { IfOk result (λ r. state_of r ≡ start) }
    {
        let names = Names::new(alloc)?;
        Ok(Reading {
            names,
            decls: Vec::new(alloc),
            texts: Vec::new(alloc),
            blocks: Vec::new(alloc),
            events: Vec::new(alloc),
            counts: Counts {
                triggers: 0,
                comps: 0,
                objects: 0,
                statements: 0,
                leaves: 0,
            },
            top: Open::new(alloc, Opener::Head, 0, Level::outermost()),
            outer: Vec::new(alloc),
        })
    }
}
