//! What each line does to what was read so far.
ghost use Rattle.std.specs.Prelude.{◌≡◌, ◌+◌, ◌<◌, ◌++◌, ◌∷◌, [], false, None, OnOk, IsAscii, length, codes};
ghost use Rattle.script_tree.specs.Names.{thing_of};
ghost use Rattle.script_tree.specs.Reading.{counted, declared, text_begun, fiber_begun, block_opened, select_opened, group_opened, opened, stated, leaf_added, part_begun, else_begun, after, is_full, is_kind_full, is_deep, is_line_deep};
ghost use Rattle.script_tree.specs.declared.line.Line.TheVariants as line_is;
ghost use Rattle.script_tree.specs.Stand.{state_of, frame_of, IsSmall, IsFree};

use crate::closing::fill;
use crate::counts::Counts;
use crate::level::Level;
use crate::line::Line;
use crate::new_name::NewName;
use crate::open::Open;
use crate::opener::Opener;
use crate::program::{Block, Decl, EventTree, Kind, Name, Places, Stmt, Text};
use crate::reading::Reading;
use crate::thing::{Sort, Thing, sort_of};
use pic_base::Memory;
use std::alloc::Global;
use std::mem;

impl Counts {
    fn add(&mut self, kind: Kind)
        requires { is_kind_full self.old kind ≡ false }
        ensures { self.new ≡ counted self.old kind }
    {
        match kind {
            Kind::Trigger => self.triggers += 1,
            Kind::Comp => self.comps += 1,
            _ => self.objects += 1,
        }
    }
}

impl Reading {
    /// Makes the name of a declaration known.
    fn declare(&mut self, alloc: Global, kind: Kind, name: &[u8]) -> Result<(), Memory>
        requires small { length self.old.decls.items < 4294967295 }
        requires free { thing_of self.old.names name.now ≡ None }
        requires room { is_kind_full self.old.counts kind ≡ false }
        requires ascii { IsAscii name.now }
        ensures { OnOk result (state_of self.new ≡ declared (state_of self.old) kind name.now) }
    {
        let place = self.decls.len() as u32;
        self.names.add(name, Thing::Named(sort_of(kind), place))?;
        let name = Name {
            bytes: Vec::from_slice(alloc, name)?,
        };
        self.decls.push(Decl { name, kind })?;
        self.counts.add(kind);
        Ok(())
    }

    /// Puts something into what is open.
    fn enter(&mut self, inner: Open) -> Result<(), Memory>
        ensures { OnOk result (state_of self.new ≡ record (state_of self.old) { top = frame_of inner; outer = frame_of self.old.top ∷ (state_of self.old).outer }) }
    {
        let around = mem::replace(&mut self.top, inner);
        self.outer.push(around)?;
        Ok(())
    }

    /// Begins a text, with a block of its own.
    fn begin_text(&mut self, alloc: Global, what: Opener, name: &[u8]) -> Result<(), Memory>
        requires small { length self.old.blocks.items < 4294967295 }
        requires ascii { IsAscii name.now }
        ensures { OnOk result (state_of self.new ≡ text_begun (state_of self.old) what name.now) }
    {
        let block = self.blocks.len() as u32;
        let name = Name {
            bytes: Vec::from_slice(alloc, name)?,
        };
        self.texts.push(Text { name, block })?;
        self.blocks.push(Block {
            stmts: Vec::new(alloc),
        })?;
        self.enter(Open::new(alloc, what, block, Level::outermost()))
    }

    /// Begins the text of a fiber, whose name is known from its first line on.
    fn begin_fiber(&mut self, alloc: Global, name: &[u8]) -> Result<(), Memory>
        requires texts { length self.old.texts.items < 4294967295 }
        requires blocks { length self.old.blocks.items < 4294967295 }
        requires free { thing_of self.old.names name.now ≡ None }
        requires ascii { IsAscii name.now }
        ensures { OnOk result (state_of self.new ≡ fiber_begun (state_of self.old) name.now) }
    {
        let place = self.texts.len() as u32;
        self.names.add(name, Thing::Named(Sort::Text, place))?;
        self.begin_text(alloc, Opener::Text, name)
    }

    fn open_block(&mut self, alloc: Global, what: Opener) -> Result<(), Memory>
        requires small { length self.old.blocks.items < 4294967295 }
        requires statements { self.old.counts.statements < 10000 }
        requires deep { is_deep self.old.top.level what ≡ false }
        ensures { OnOk result (state_of self.new ≡ block_opened (state_of self.old) what) }
    {
        let block = self.blocks.len() as u32;
        self.blocks.push(Block {
            stmts: Vec::new(alloc),
        })?;
        self.counts.statements += 1;
        let level = self.top.level.inside(what);
        self.enter(Open::new(alloc, what, block, level))
    }

    fn open_select(&mut self, alloc: Global, what: Opener) -> Result<(), Memory>
        requires statements { self.old.counts.statements < 10000 }
        requires deep { is_deep self.old.top.level what ≡ false }
        ensures { OnOk result (state_of self.new ≡ select_opened (state_of self.old) what) }
    {
        self.counts.statements += 1;
        self.counts.leaves = 0;
        let level = self.top.level.inside(what);
        self.enter(Open::new(alloc, what, 0, level))
    }

    fn open_group(&mut self, alloc: Global, what: Opener) -> Result<(), Memory>
        requires small { length self.old.events.items < 4294967295 }
        requires deep { is_deep self.old.top.level what ≡ false }
        ensures { OnOk result (state_of self.new ≡ group_opened (state_of self.old) what) }
    {
        let event = self.events.len() as u32;
        let none = Places {
            items: Vec::new(alloc),
        };
        self.events.push(EventTree::Choose(none))?;
        let level = self.top.level.inside(what);
        self.enter(Open::new(alloc, what, event, level))
    }

    /// Adds a statement to what is open.
    fn add_stmt(&mut self, stmt: Stmt) -> Result<(), Memory>
        requires statements { self.old.counts.statements < 10000 }
        ensures { OnOk result (state_of self.new ≡ stated (state_of self.old) stmt) }
    {
        self.counts.statements += 1;
        self.top.stmts.push(stmt)?;
        Ok(())
    }

    /// Adds an event to what is open.
    fn add_leaf(&mut self, event: EventTree) -> Result<(), Memory>
        requires small { length self.old.events.items < 4294967295 }
        requires leaves { self.old.counts.leaves < 32 }
        ensures { OnOk result (state_of self.new ≡ leaf_added (state_of self.old) event) }
    {
        let place = self.events.len() as u32;
        self.events.push(event)?;
        self.counts.leaves += 1;
        self.top.events.push(place)?;
        Ok(())
    }

    /// Begins the second part of an `if` or a `try`, with a block of its own.
    fn begin_part(&mut self, alloc: Global, what: Opener) -> Result<(), Memory>
        requires small { length self.old.blocks.items < 4294967295 }
        ensures { OnOk result (state_of self.new ≡ part_begun (state_of self.old) what) }
    {
        let stmts = mem::replace(&mut self.top.stmts, Vec::new(alloc));
        fill(&mut self.blocks, self.top.place, stmts);
        self.top.what = what;
        self.top.place = self.blocks.len() as u32;
        self.blocks.push(Block {
            stmts: Vec::new(alloc),
        })?;
        Ok(())
    }

    /// Opens a block, a select or a group of events.
    fn open(&mut self, alloc: Global, what: Opener) -> Result<(), Memory>
        requires blocks { length self.old.blocks.items < 4294967295 }
        requires events { length self.old.events.items < 4294967295 }
        requires deep { is_deep self.old.top.level what ≡ false }
        requires full { is_full (state_of self.old) (line_is.Open what) ≡ false }
        ensures { OnOk result (state_of self.new ≡ opened (state_of self.old) what) }
    {
        match what {
            Opener::Select(..) => self.open_select(alloc, what),
            Opener::Choose => self.open_group(alloc, what),
            Opener::Wrap(_) => self.open_group(alloc, what),
            Opener::Guard(..) => self.open_group(alloc, what),
            _ => self.open_block(alloc, what),
        }
    }

    /// Begins the `else` part of what is open.
    fn begin_else(&mut self, alloc: Global) -> Result<(), Memory>
        requires { length self.old.blocks.items < 4294967295 }
        ensures { OnOk result (state_of self.new ≡ else_begun (state_of self.old) self.old.top.what) }
    {
        let place = self.top.place;
        match self.top.what {
            Opener::Then(left, test, right) => {
                self.begin_part(alloc, Opener::Otherwise(left, test, right, place))
            }
            _ => Ok(()),
        }
    }

    /// Takes a line that may stand there, within the limits.
    pub fn take(&mut self, alloc: Global, line: Line) -> Result<(), Memory>
        requires small { IsSmall (state_of self.old) }
        requires deep { is_line_deep self.old.top.level line ≡ false }
        requires full { is_full (state_of self.old) line ≡ false }
        requires free { IsFree self.old.names line }
        ensures { OnOk result (state_of self.new ≡ after (state_of self.old) line.entry) }
    {
        match line {
            Line::Declare(kind, name) => self.declare(alloc, kind, name.bytes),
            Line::Fiber(name) => self.begin_fiber(alloc, name.bytes),
            Line::Main => self.begin_text(alloc, Opener::Main, b"main"),
            Line::End => self.close(),
            Line::Else => self.begin_else(alloc),
            Line::Catch(register) => {
                let body = self.top.place;
                self.begin_part(alloc, Opener::Catch(body, register))
            }
            Line::Plain(stmt) => self.add_stmt(stmt),
            Line::Open(what) => self.open(alloc, what),
            Line::Leaf(event) => self.add_leaf(event),
        }
    }
}
