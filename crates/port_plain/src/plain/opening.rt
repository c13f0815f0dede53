//! How a port begins, and what it leaves.
ghost use Rattle.std.specs.Prelude.{◌≡◌, ◌≤◌, ◌∷◌, ℕ, [], Some, None, IfErr, IfOk, map, slice_get, vec_len, vec_capacity};
ghost use Rattle.pic_machine.specs.State.{CanStart};
ghost use Rattle.pic_machine.specs.Laws.{Lawful};
ghost use Rattle.pic_machine.specs.Log.{entries};
ghost use Rattle.pic_machine.specs.Closing.{IsLeft};
ghost use Rattle.port_plain.specs.Closing.{OwesAsLeft};
ghost use Rattle.port_plain.specs.Shown.{IsClock, IsMain, origin_in, sight_of};

use super::PlainPort;
use entry_log::EntryLog;
use pic_base::Memory;
use pic_machine::{Carried, Closed, Start, World};
use std::alloc::Global;
use std::snapshot::Snapshot;

impl<B: Carried> PlainPort<B> {
    /// The port before the first entry, with the bodies of main and of the clock at home. Main's birth
    /// is as it was given; its number is set to 1, and room is made for an entry of the clock.
    pub fn open(alloc: Global, start: &Start, main: B, clock: B) -> Result<PlainPort<B>, Memory>
        requires start { CanStart start.now }
        requires main { IsMain B.seen B.fits start.now main }
        requires clock { IsClock B.seen B.fits clock }
        ensures { IfOk result (λ port.
            port ≡ record { start = start.now; main = main; front = []; out = None }) }
    {
        let of_main = Snapshot::of(&main);
        let (mut main, mut clock) = (main, clock);
        main.number(1);
        clock.reserve()?;
        let mut bodies = Vec::with_capacity(alloc, 1)?;
        bodies.push(Some(main))?;
        Ok(PlainPort {
            alloc,
            start: *start,
            main: of_main,
            world: World::start(alloc, start)?,
            history: EntryLog::new(alloc),
            births: Vec::new(alloc),
            bodies,
            clock,
            out: None,
        })
    }

    /// The bodies of all fibers, in order of their numbers, and the clock's.
    pub fn close(self) -> Result<Closed<B>, PlainPort<B>>
        requires { self.out ≡ None }
        ensures left { IfOk result (IsLeft B.seen B.fits
            (origin_in B.seen self) (B.seen self.main).share self.front) }
        ensures owes { IfOk result (OwesAsLeft B.seen (sight_of B.seen self)) }
        ensures laws { IfOk result (λ _. Lawful (origin_in B.seen self) self.front) }
        ensures err { IfErr result (λ port. port ≡ self) }
    {
        let (closed, _) = self.close_with_history()?;
        Ok(closed)
    }

    /// The same, and beside it the entries of all that happened, which aren't copied.
    pub fn close_with_history(self) -> Result<(Closed<B>, EntryLog), PlainPort<B>>
        requires { self.out ≡ None }
        ensures left { IfOk result (λ left. IsLeft B.seen B.fits
            (origin_in B.seen self) (B.seen self.main).share self.front left.0) }
        ensures owes { IfOk result (λ left. OwesAsLeft B.seen (sight_of B.seen self) left.0) }
        ensures laws { IfOk result (λ _. Lawful (origin_in B.seen self) self.front) }
        ensures history { IfOk result (λ left. left.1.entries ≡ entries self.front) }
        ensures err { IfErr result (λ port. port ≡ self) }
    {
        let mut bodies = Vec::new(self.alloc);
        if bodies.reserve(self.bodies.len()).is_err() {
            return Err(self);
        }
        let PlainPort {
            history,
            bodies: places,
            clock,
            ..
        } = self;
        let closed = Closed {
            bodies: all_there(places, bodies),
            clock,
            now: 0,
        };
        Ok((closed, history))
    }
}

/// The bodies of places none of which is empty. There is room for them.
fn all_there<B: Carried>(places: Vec<Option<B>>, room: Vec<B>) -> Vec<B>
    requires none { (place : ℕ) → slice_get places.items place ≡ Some None → ⊥ }
    requires empty { room.items ≡ [] }
    requires room { vec_len places ≤ vec_capacity room }
    ensures { map Some result.items ≡ places.items }
{
    let mut bodies = room;
    for place in places {
        match place {
            Some(body) => bodies.push_reserved(body),
            None => unreachable!("each body is there"),
        }
    }
    bodies
}
