//! What is open while a script is read, with what it holds so far.
ghost use Rattle.std.specs.Prelude.{◌≡◌, []};
ghost use Rattle.script_tree.specs.Stand.{frame_of};

use crate::level::Level;
use crate::opener::Opener;
use crate::program::Stmt;
use std::alloc::Global;

/// Something open: the file, a text, a block or a group of events.
#[derive(Drop)]
pub struct Open {
    pub what: Opener,
    /// The place of its block, or of its event.
    pub place: u32,
    pub level: Level,
    /// The statements that it holds so far.
    pub stmts: Vec<Stmt>,
    /// The places of the events that it holds so far.
    pub events: Vec<u32>,
}

impl Open {
    pub fn new(alloc: Global, what: Opener, place: u32, level: Level) -> Open
        ensures { frame_of result ≡ record { what = what; place = place; level = level; stmts = []; events = [] } }
    {
        Open {
            what,
            place,
            level,
            stmts: Vec::new(alloc),
            events: Vec::new(alloc),
        }
    }
}
