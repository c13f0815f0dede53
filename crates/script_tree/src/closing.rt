//! What the end of something open does to what was read so far.
ghost use Rattle.std.specs.Prelude.{◌≡◌, ◌∷◌, [], None, Some, OnOk, IfSome, IfNone, slice_set};
ghost use Rattle.script_tree.specs.Reading.{State, with_event, block_closed, else_closed, select_closed, group_closed, text_closed, closed};
ghost use Rattle.script_tree.specs.declared.program.EventTree.TheVariants as event_is;
ghost use Rattle.script_tree.specs.Stand.{state_of, frame_of};

use crate::open::Open;
use crate::opener::Opener;
use crate::program::{Block, EventTree, Operand, Places, Stmt, Test};
use crate::reading::Reading;
use pic_base::Memory;
use std::mem;

/// Fills the block at a place.
pub fn fill(blocks: &mut Vec<Block>, place: u32, stmts: Vec<Stmt>)
    ensures { blocks.new.items ≡ slice_set blocks.old.items place stmts.items }
{
    if let Some(block) = blocks.get_mut(place as usize) {
        *block = Block { stmts };
    }
}

/// Fills the event at a place.
fn fill_event(events: &mut Vec<EventTree>, place: u32, event: EventTree)
    ensures { events.new.items ≡ slice_set events.old.items place event }
{
    if let Some(old) = events.get_mut(place as usize) {
        *old = event;
    }
}

impl Reading {
    /// Leaves what is open for what is around it, and hands it out.
    fn leave(&mut self) -> Option<Open>
        ensures none { IfNone result ((state_of self.new ≡ state_of self.old) × ((state_of self.old).outer ≡ [])) }
        ensures some { IfSome result (λ inner. (frame_of inner ≡ frame_of self.old.top) × (state_of self.old ≡ record (state_of self.new) { top = frame_of inner; outer = frame_of self.new.top ∷ (state_of self.new).outer })) }
    {
        let around = self.outer.pop()?;
        Some(mem::replace(&mut self.top, around))
    }

    /// Ends a block: the statement that holds it stands in what is around it.
    fn close_block(&mut self, stmt: Stmt) -> Result<(), Memory>
        ensures { OnOk result (state_of self.new ≡ block_closed (state_of self.old) stmt) }
    {
        if let Some(inner) = self.leave() {
            let Open { place, stmts, .. } = inner;
            fill(&mut self.blocks, place, stmts);
            self.top.stmts.push(stmt)?;
        }
        Ok(())
    }

    /// Ends the `else` part of an `if`. An empty one is as none: its block, the last one, goes.
    fn close_else(
        &mut self,
        left: Operand,
        test: Test,
        right: Operand,
        then: u32,
    ) -> Result<(), Memory>
        ensures { OnOk result (state_of self.new ≡ else_closed (state_of self.old) left test right then self.old.top.stmts.items) }
    {
        let place = self.top.place;
        if !self.top.stmts.is_empty() {
            return self.close_block(Stmt::If {
                left,
                test,
                right,
                then,
                other: Some(place),
            });
        }
        if let Some(_inner) = self.leave() {
            self.blocks.pop();
            self.top.stmts.push(Stmt::If {
                left,
                test,
                right,
                then,
                other: None,
            })?;
        }
        Ok(())
    }

    fn close_select(&mut self, number: u8, value: u8) -> Result<(), Memory>
        ensures { OnOk result (state_of self.new ≡ select_closed (state_of self.old) number value) }
    {
        if let Some(inner) = self.leave() {
            let events = Places {
                items: inner.events,
            };
            self.top.stmts.push(Stmt::Select {
                number,
                value,
                events,
            })?;
        }
        Ok(())
    }

    /// Ends a text: the file goes on as `behind`.
    fn close_text(&mut self, behind: Opener)
        ensures { state_of self.new ≡ text_closed (state_of self.old) behind }
    {
        if let Some(inner) = self.leave() {
            let Open { place, stmts, .. } = inner;
            fill(&mut self.blocks, place, stmts);
            self.top.what = behind;
        }
    }

    /// Leaves a group of events, and hands out its place and its members.
    fn leave_group(&mut self) -> Option<(u32, Places)>
        ensures none { IfNone result ((state_of self.new ≡ state_of self.old) × ((state_of self.old).outer ≡ [])) }
        ensures some { IfSome result (λ p. (p.0 ≡ self.old.top.place) × (p.1 ≡ self.old.top.events.items) × (state_of self.old ≡ record (state_of self.new) { top = frame_of self.old.top; outer = frame_of self.new.top ∷ (state_of self.new).outer })) }
    {
        let inner = self.leave()?;
        let members = Places {
            items: inner.events,
        };
        Some((inner.place, members))
    }

    /// Puts an event into its place, and into what is open.
    fn add_group(&mut self, place: u32, event: EventTree) -> Result<(), Memory>
        ensures { OnOk result (state_of self.new ≡ record (state_of self.old) { events = slice_set self.old.events.items place event; top = with_event (frame_of self.old.top) place }) }
    {
        fill_event(&mut self.events, place, event);
        self.top.events.push(place)?;
        Ok(())
    }

    fn close_choose(&mut self) -> Result<(), Memory>
        ensures { OnOk result (state_of self.new ≡ group_closed (state_of self.old) (event_is.Choose self.old.top.events.items)) }
    {
        let Some((place, members)) = self.leave_group() else {
            return Ok(());
        };
        self.add_group(place, EventTree::Choose(members))
    }

    fn close_wrap(&mut self, operand: Operand) -> Result<(), Memory>
        ensures { OnOk result (state_of self.new ≡ group_closed (state_of self.old) (event_is.Wrap operand self.old.top.events.items)) }
    {
        let Some((place, members)) = self.leave_group() else {
            return Ok(());
        };
        self.add_group(place, EventTree::Wrap(operand, members))
    }

    fn close_guard(&mut self, left: Operand, test: Test, right: Operand) -> Result<(), Memory>
        ensures { OnOk result (state_of self.new ≡ group_closed (state_of self.old) (event_is.Guard left test right self.old.top.events.items)) }
    {
        let Some((place, members)) = self.leave_group() else {
            return Ok(());
        };
        self.add_group(place, EventTree::Guard(left, test, right, members))
    }

    /// Ends what is open.
    pub fn close(&mut self) -> Result<(), Memory>
        ensures { OnOk result (state_of self.new ≡ closed (state_of self.old) self.old.top.what) }
    {
        let place = self.top.place;
        match self.top.what {
            Opener::Text => {
                self.close_text(Opener::Between);
                Ok(())
            }
            Opener::Main => {
                self.close_text(Opener::Over);
                Ok(())
            }
            Opener::Then(left, test, right) => self.close_block(Stmt::If {
                left,
                test,
                right,
                then: place,
                other: None,
            }),
            Opener::Otherwise(left, test, right, then) => {
                self.close_else(left, test, right, then)
            }
            Opener::Loop => self.close_block(Stmt::Loop(place)),
            Opener::Catch(body, register) => self.close_block(Stmt::Try {
                body,
                register,
                handler: place,
            }),
            Opener::Forbid => self.close_block(Stmt::Forbid(place)),
            Opener::Permit => self.close_block(Stmt::Permit(place)),
            Opener::Under(comp) => self.close_block(Stmt::Under(comp, place)),
            Opener::Link(from, into) => self.close_block(Stmt::Link(from, into, place)),
            Opener::Protect(mutex) => self.close_block(Stmt::Protect(mutex, place)),
            Opener::Bundle => self.close_block(Stmt::Bundle(place)),
            Opener::Flock => self.close_block(Stmt::Flock(place)),
            Opener::Select(number, value) => self.close_select(number, value),
            Opener::Choose => self.close_choose(),
            Opener::Wrap(operand) => self.close_wrap(operand),
            Opener::Guard(left, test, right) => self.close_guard(left, test, right),
            _ => Ok(()),
        }
    }
}
