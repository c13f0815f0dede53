//! Runs in the FIFO order, of bodies that yield so many times and then end, and meanwhile fork, wait for
//! one trigger and signal it.
ghost use Rattle.std.specs.Prelude.{◌≡◌, ◌≢◌, ◌+◌, ◌≤◌, ◌<◌, ℕ, [], List, Option, Some, None, Err, IsTrue, length};
ghost use Rattle.std.proofs.Common.{◌∙◌, sym, arith, refl};
ghost use Rattle.pic_base.specs.Steps.{most_steps};
ghost use Rattle.pic_machine.specs.Log.{log, visible};
ghost use Rattle.pic_machine.specs.Order.{readied_by, yields};
ghost use Rattle.pic_machine.specs.Sight.{Holds, fiber_of};
ghost use Rattle.pic_machine.specs.Turning.{Adds, Polled, Went};
ghost use Rattle.pic_machine.specs.Lending.{Calm, Rose};
ghost use Rattle.pic_machine.proofs.Owns.{yields_own_below};

use super::run_fifo;
use entry_log::EntryLog;
use pic_base::{Action, FiberNo, Limits, Memory, Outcome};
use pic_machine::{
    ArmReply, Birth, Call, Carried, Duties, Entry, FiberState, ParkRefusal, Poller, Port,
    PortFault, ReadyLine, Reply, SignalReply, Start, Turn,
};
use port_plain::PlainPort;
use std::alloc::Global;
use std::process::Abort;
use std::snapshot::Snapshot;
use std::test::Fail;

/// What a fiber does in a turn before that ends.
#[derive(Clone, Copy)]
enum Deed {
    Nothing,
    /// It forks a child.
    Fork,
    /// It waits for trigger 0.
    Wait,
    /// It signals trigger 0.
    Signal,
}

/// It has so many turns left that end by a yield or by its end; and beside each such number stands what it
/// does while so many are left.
#[derive(Drop)]
struct Patient {
    birth: Birth,
    number: Option<FiberNo>,
    noted: EntryLog,
    owed: Snapshot<Duties>,
    left: u32,
    deeds: [Deed; 4],
}

impl Carried for Patient {
    type Share = ();

    ghost seen = { λ body. record {
      birth = body.birth;
      number = body.number;
      noted = body.noted.entries;
      room = body.noted.room;
      owes = body.owed.value;
      share = tt;
    } };

    ghost same_rest = { λ old new. new.left ≡ old.left };

    ghost fits = { λ body log. (body.noted.entries ≡ visible log)
        × (body.number ≢ Some 0 → yields log + body.left ≤ most_steps) };

    fn birth(&self) -> Birth {
        self.birth
    }

    fn fiber(&self) -> FiberNo {
        match self.number {
            Some(fiber) => fiber,
            None => unreachable!("the body has a number"),
        }
    }

    fn number(&mut self, fiber: FiberNo) {
        self.number = Some(fiber);
    }

    fn reserve(&mut self) -> Result<(), Memory> {
        self.noted.reserve()
    }

    fn note(&mut self, call: Call, reply: Reply) {
        let fiber = self.fiber();
        self.noted.push_reserved(Entry { fiber, call, reply });
    }

    fn owe(&mut self, duties: Snapshot<Duties>) {
        self.owed = duties;
    }

    ghost shows = { λ body log fits. fits.0 };

    ghost clock = { λ body log number noted. (noted, λ other. absurd (other number)) };

    ghost fits_same = { λ old new log fits rest same. (same.noted ∙ fits.0, λ other. rw rest (fits.1 (λ zero_is. other (same.number ∙ zero_is)))) };

    ghost fits_fresh = { λ old new fits number rest birth noted share. (noted ∙ fits.0, λ other. rw rest (fits.1 (λ zero_is. let none : None ≡ Some 0 = sym number ∙ zero_is in cc))) };

    ghost rest_same = { λ body. refl };

    ghost rest_after = { λ a b c one other. other ∙ one };
}

/// Runs such bodies.
#[derive(Drop)]
struct Patiently {
    alloc: Global,
}

impl<P: Port<Body = Patient>> Poller<P> for Patiently {
    ghost polls = { λ poller port.
        (0 < length port.origin.world.comps) × (0 < length port.origin.world.triggers) };

    fn poll<R: ReadyLine>(&self, port: &mut P, line: &mut R, body: Patient) -> Turn<Patient> {
        let mut body = body;
        // A body without turns has ended, and nobody polls it.
        if body.left == 0 {
            return Turn::Memory(body);
        }
        if !make_ready(port, &mut body) {
            return Turn::Memory(body);
        }
        match body.deed() {
            Deed::Nothing => stop(port, line, body),
            Deed::Fork => fork_and_stop(self.alloc, port, line, body),
            Deed::Signal => signal_and_stop(port, line, body),
            Deed::Wait => wait_or_stop(port, line, body),
        }
    }

    ghost polls_later = { λ poller old new polls origin share. rw origin polls };

    ghost few = { λ poller body log number fits. omega (arith, fits.1 number, yields_own_below log) };
}

/// Makes room for an entry. A fiber that owes something isn't ready to make one of its own, but none does,
/// since no such fiber completes a computation.
fn make_ready<P: Port<Body = Patient>>(port: &mut P, body: &mut Patient) -> bool
    requires holds { Holds (P.sight port.old) (⟦<Patient as Carried>⟧.seen body.old) }
    requires fits { ⟦<Patient as Carried>⟧.fits body.old
        (log (P.sight port.old).front (fiber_of (⟦<Patient as Carried>⟧.seen body.old))) }
    ensures went { (line : Option (List ℕ)) → Went (P.sight port.old) (P.sight port.new)
        (⟦<Patient as Carried>⟧.seen body.old) (⟦<Patient as Carried>⟧.seen body.new) line line }
    ensures fits { ⟦<Patient as Carried>⟧.fits body.new
        (log (P.sight port.new).front (fiber_of (⟦<Patient as Carried>⟧.seen body.old))) }
    ensures left { body.new.left ≡ body.old.left }
    ensures calm { Calm (P.sight port.old) (P.sight port.new) }
    ensures owes { IsTrue result → (⟦<Patient as Carried>⟧.seen body.new).owes ≡ [] }
    ensures room { IsTrue result → 0 < body.new.noted.room }
{
    if port.walk_next(body).is_some() {
        return false;
    }
    body.reserve().is_ok()
}

/// Forks a child, if there is room for one, and ends the turn.
fn fork_and_stop<P: Port<Body = Patient>, R: ReadyLine>(
    alloc: Global,
    port: &mut P,
    line: &mut R,
    body: Patient,
) -> Turn<Patient>
    requires holds { Holds (P.sight port.old) (⟦<Patient as Carried>⟧.seen body) }
    requires fiber { fiber_of (⟦<Patient as Carried>⟧.seen body) ≢ 0 }
    requires fits { ⟦<Patient as Carried>⟧.fits body
        (log (P.sight port.old).front (fiber_of (⟦<Patient as Carried>⟧.seen body))) }
    requires left { 0 < body.left }
    requires owes { (⟦<Patient as Carried>⟧.seen body).owes ≡ [] }
    requires room { 0 < body.noted.room }
    requires comps { 0 < length (P.sight port.old).origin.world.comps }
    ensures { Polled result ⟦<Patient as Carried>⟧.seen ⟦<Patient as Carried>⟧.fits
        (P.sight port.old) (P.sight port.new)
        (⟦<Patient as Carried>⟧.seen body) (R.told line.old) (R.told line.new) }
{
    let mut body = body;
    match fork_child(alloc, port, line, &mut body) {
        Ok(()) => stop(port, line, body),
        Err(PortFault::Again) => Turn::Again(body),
        Err(_) => Turn::Memory(body),
    }
}

/// Forks a child, which waits, if there is room for one.
fn fork_child<P: Port<Body = Patient>, R: ReadyLine>(
    alloc: Global,
    port: &mut P,
    line: &mut R,
    body: &mut Patient,
) -> Result<(), PortFault>
    requires holds { Holds (P.sight port.old) (⟦<Patient as Carried>⟧.seen body.old) }
    requires fiber { fiber_of (⟦<Patient as Carried>⟧.seen body.old) ≢ 0 }
    requires fits { ⟦<Patient as Carried>⟧.fits body.old
        (log (P.sight port.old).front (fiber_of (⟦<Patient as Carried>⟧.seen body.old))) }
    requires owes { (⟦<Patient as Carried>⟧.seen body.old).owes ≡ [] }
    requires room { 0 < body.old.noted.room }
    requires comps { 0 < length (P.sight port.old).origin.world.comps }
    ensures went { Went (P.sight port.old) (P.sight port.new)
        (⟦<Patient as Carried>⟧.seen body.old) (⟦<Patient as Carried>⟧.seen body.new)
        (R.told line.old) (R.told line.new) }
    ensures fits { ⟦<Patient as Carried>⟧.fits body.new
        (log (P.sight port.new).front (fiber_of (⟦<Patient as Carried>⟧.seen body.old))) }
    ensures left { body.new.left ≡ body.old.left }
    ensures again { result ≡ Err PortFault.Again
        → Rose (P.sight port.old).contention (P.sight port.new).contention }
    ensures calm { result ≢ Err PortFault.Again → Calm (P.sight port.old) (P.sight port.new) }
{
    let child = Patient::new(alloc, 4, 1, [Deed::Wait; 4]);
    match port.fork(body, 4, 0, child) {
        Ok(number) => {
            line.add(number);
            Ok(())
        }
        Err((_, PortFault::Full)) => Ok(()),
        Err((_, PortFault::Again)) => Err(PortFault::Again),
        Err((_, PortFault::Memory)) => Err(PortFault::Memory),
    }
}

/// Signals the trigger, and ends the turn.
fn signal_and_stop<P: Port<Body = Patient>, R: ReadyLine>(
    port: &mut P,
    line: &mut R,
    body: Patient,
) -> Turn<Patient>
    requires holds { Holds (P.sight port.old) (⟦<Patient as Carried>⟧.seen body) }
    requires fiber { fiber_of (⟦<Patient as Carried>⟧.seen body) ≢ 0 }
    requires fits { ⟦<Patient as Carried>⟧.fits body
        (log (P.sight port.old).front (fiber_of (⟦<Patient as Carried>⟧.seen body))) }
    requires left { 0 < body.left }
    requires owes { (⟦<Patient as Carried>⟧.seen body).owes ≡ [] }
    requires room { 0 < body.noted.room }
    requires triggers { 0 < length (P.sight port.old).origin.world.triggers }
    ensures { Polled result ⟦<Patient as Carried>⟧.seen ⟦<Patient as Carried>⟧.fits
        (P.sight port.old) (P.sight port.new)
        (⟦<Patient as Carried>⟧.seen body) (R.told line.old) (R.told line.new) }
{
    let mut body = body;
    match signal(port, line, &mut body) {
        Ok(()) => stop(port, line, body),
        Err(PortFault::Again) => Turn::Again(body),
        Err(_) => Turn::Memory(body),
    }
}

/// Signals the trigger, and tells the line of the fiber that waited for it.
fn signal<P: Port<Body = Patient>, R: ReadyLine>(
    port: &mut P,
    line: &mut R,
    body: &mut Patient,
) -> Result<(), PortFault>
    requires holds { Holds (P.sight port.old) (⟦<Patient as Carried>⟧.seen body.old) }
    requires fiber { fiber_of (⟦<Patient as Carried>⟧.seen body.old) ≢ 0 }
    requires fits { ⟦<Patient as Carried>⟧.fits body.old
        (log (P.sight port.old).front (fiber_of (⟦<Patient as Carried>⟧.seen body.old))) }
    requires owes { (⟦<Patient as Carried>⟧.seen body.old).owes ≡ [] }
    requires room { 0 < body.old.noted.room }
    requires triggers { 0 < length (P.sight port.old).origin.world.triggers }
    ensures went { Went (P.sight port.old) (P.sight port.new)
        (⟦<Patient as Carried>⟧.seen body.old) (⟦<Patient as Carried>⟧.seen body.new)
        (R.told line.old) (R.told line.new) }
    ensures fits { ⟦<Patient as Carried>⟧.fits body.new
        (log (P.sight port.new).front (fiber_of (⟦<Patient as Carried>⟧.seen body.old))) }
    ensures left { body.new.left ≡ body.old.left }
    ensures again { result ≡ Err PortFault.Again
        → Rose (P.sight port.old).contention (P.sight port.new).contention }
    ensures calm { result ≢ Err PortFault.Again → Calm (P.sight port.old) (P.sight port.new) }
{
    match port.signal(body, 0) {
        Ok(how) => {
            tell(line, how);
            Ok(())
        }
        Err(fault) => Err(fault),
    }
}

/// Waits for the trigger; where it is signalled or awaited already, ends the turn.
fn wait_or_stop<P: Port<Body = Patient>, R: ReadyLine>(
    port: &mut P,
    line: &mut R,
    body: Patient,
) -> Turn<Patient>
    requires holds { Holds (P.sight port.old) (⟦<Patient as Carried>⟧.seen body) }
    requires fiber { fiber_of (⟦<Patient as Carried>⟧.seen body) ≢ 0 }
    requires fits { ⟦<Patient as Carried>⟧.fits body
        (log (P.sight port.old).front (fiber_of (⟦<Patient as Carried>⟧.seen body))) }
    requires left { 0 < body.left }
    requires owes { (⟦<Patient as Carried>⟧.seen body).owes ≡ [] }
    requires room { 0 < body.noted.room }
    requires triggers { 0 < length (P.sight port.old).origin.world.triggers }
    ensures { Polled result ⟦<Patient as Carried>⟧.seen ⟦<Patient as Carried>⟧.fits
        (P.sight port.old) (P.sight port.new)
        (⟦<Patient as Carried>⟧.seen body) (R.told line.old) (R.told line.new) }
{
    match port.park(0, body) {
        Ok(()) => Turn::Parked,
        Err((back, ParkRefusal::Signalled)) => stop(port, line, back),
        Err((back, ParkRefusal::Taken)) => stop(port, line, back),
        Err((back, ParkRefusal::Again)) => Turn::Again(back),
        Err((back, ParkRefusal::Memory)) => Turn::Memory(back),
    }
}

/// Ends the turn, by a yield or by the fiber's end.
fn stop<P: Port<Body = Patient>, R: ReadyLine>(
    port: &mut P,
    line: &mut R,
    body: Patient,
) -> Turn<Patient>
    requires holds { Holds (P.sight port.old) (⟦<Patient as Carried>⟧.seen body) }
    requires fiber { fiber_of (⟦<Patient as Carried>⟧.seen body) ≢ 0 }
    requires fits { ⟦<Patient as Carried>⟧.fits body
        (log (P.sight port.old).front (fiber_of (⟦<Patient as Carried>⟧.seen body))) }
    requires left { 0 < body.left }
    ensures { Polled result ⟦<Patient as Carried>⟧.seen ⟦<Patient as Carried>⟧.fits
        (P.sight port.old) (P.sight port.new)
        (⟦<Patient as Carried>⟧.seen body) (R.told line.old) (R.told line.new) }
{
    let mut body = body;
    if !make_ready(port, &mut body) {
        return Turn::Memory(body);
    }
    stop_with_room(port, line, body)
}

/// The same of a body that is ready.
fn stop_with_room<P: Port<Body = Patient>, R: ReadyLine>(
    port: &mut P,
    line: &mut R,
    body: Patient,
) -> Turn<Patient>
    requires holds { Holds (P.sight port.old) (⟦<Patient as Carried>⟧.seen body) }
    requires fiber { fiber_of (⟦<Patient as Carried>⟧.seen body) ≢ 0 }
    requires fits { ⟦<Patient as Carried>⟧.fits body
        (log (P.sight port.old).front (fiber_of (⟦<Patient as Carried>⟧.seen body))) }
    requires left { 0 < body.left }
    requires owes { (⟦<Patient as Carried>⟧.seen body).owes ≡ [] }
    requires room { 0 < body.noted.room }
    ensures { Polled result ⟦<Patient as Carried>⟧.seen ⟦<Patient as Carried>⟧.fits
        (P.sight port.old) (P.sight port.new)
        (⟦<Patient as Carried>⟧.seen body) (R.told line.old) (R.told line.new) }
{
    let mut body = body;
    body.left -= 1;
    if body.left == 0 {
        return match port.end(body, Outcome::Returned(0)) {
            Ok(()) => Turn::Ended,
            Err((back, fault)) => refused(back, fault),
        };
    }
    let fiber = body.fiber();
    match port.lay(body, true) {
        Ok(()) => {
            line.add(fiber);
            Turn::Yielded
        }
        Err((back, fault)) => refused(back, fault),
    }
}

/// The body whose turn could not end, with the turn that it had taken.
fn refused(body: Patient, fault: PortFault) -> Turn<Patient>
    requires few { body.left < most_steps }
    ensures again { fault ≡ PortFault.Again → result ≡ Turn.Again (record body { left = body.left + 1 }) }
    ensures memory { fault ≢ PortFault.Again → result ≡ Turn.Memory (record body { left = body.left + 1 }) }
{
    let mut body = body;
    body.left += 1;
    match fault {
        PortFault::Again => Turn::Again(body),
        PortFault::Full => Turn::Memory(body),
        PortFault::Memory => Turn::Memory(body),
    }
}

/// Tells the line of the fiber that a signal resumed.
fn tell<R: ReadyLine>(line: &mut R, how: SignalReply)
    ensures { (f : ℕ) → Adds (R.told line.old) (R.told line.new)
        (readied_by f (Call.Signal 0) (Reply.Signalled how)) }
{
    match how {
        SignalReply::Acted(Action::Resume(fiber)) => line.add(fiber),
        _ => {}
    }
}

impl Patient {
    fn new(alloc: Global, text: u32, left: u32, deeds: [Deed; 4]) -> Patient
        ensures birth { result.birth ≡ record { text = text; value = 0; current = 0 } }
        ensures number { result.number ≡ None }
        ensures noted { result.noted.entries ≡ [] }
        ensures owed { result.owed.value ≡ [] }
        ensures left { result.left ≡ left }
    {
        Patient {
            birth: Birth {
                text,
                value: 0,
                current: 0,
            },
            number: None,
            noted: EntryLog::new(alloc),
            owed: Snapshot::of(&Duties::none(alloc)),
            left,
            deeds,
        }
    }

    /// What it does in this turn.
    fn deed(&self) -> Deed {
        match self.deeds.get(self.left as usize) {
            Some(deed) => *deed,
            None => Deed::Nothing,
        }
    }
}

fn start() -> Start
    ensures { result ≡ record {
      triggers = 1;
      comps = 1;
      text = 3;
      limits = record { fibers = 2; triggers = 1; places = 0; comps = 1 };
    } }
{
    Start {
        triggers: 1,
        comps: 1,
        text: 3,
        limits: Limits {
            fibers: 2,
            triggers: 1,
            places: 0,
            comps: 1,
        },
    }
}

/// What is left of a run of main, which has so many turns and does this in them.
fn run_main(alloc: Global, left: u32, deeds: [Deed; 4]) -> Result<PlainPort<Patient>, Fail>
    requires { left ≤ 200000 }
{
    let main = Patient::new(alloc, 3, left, deeds);
    let mut clock = Patient::new(alloc, 0, 0, [Deed::Nothing; 4]);
    clock.number(0);
    let port = PlainPort::open(alloc, &start(), main, clock)?;
    let poller = Patiently { alloc };
    Ok(run_fifo(alloc, &poller, port)?)
}

/// Asserts that these are the fibers and the calls of the run.
fn expect_calls(rt: &impl Abort, done: &PlainPort<Patient>, expected: &[(FiberNo, Call)]) {
    assert_eq!(rt; done.history().len(), expected.len());
    for (entry, (fiber, call)) in done.history().iter().zip(expected) {
        assert_eq!(rt; entry.fiber, *fiber);
        assert_eq!(rt; entry.call, *call);
    }
}

const ENDED: Call = Call::End(Outcome::Returned(0));

const FORK: Call = Call::Fork { text: 4, value: 0 };

/// The child's wait.
const WAIT: Call = Call::Arm {
    trigger: 0,
    action: Action::Resume(2),
};

#[test]
fn a_fiber_that_waits_goes_on_behind_the_signal(rt: HostRuntime) -> Result<(), Fail> {
    let deeds = [Deed::Nothing, Deed::Nothing, Deed::Signal, Deed::Fork];
    let done = run_main(rt.alloc(), 3, deeds)?;
    let expected = [
        (1, Call::Turn),
        (1, FORK),
        (1, Call::Yield),
        (2, Call::Turn),
        (2, WAIT),
        (1, Call::Turn),
        (1, Call::Signal(0)),
        (1, Call::Yield),
        (2, Call::Turn),
        (2, WAIT),
        (2, ENDED),
        (1, Call::Turn),
        (1, ENDED),
    ];
    expect_calls(&rt, &done, &expected);
    assert_eq!(rt;
        done.world().fibers(),
        [FiberState::Ended(Outcome::Returned(0)); 2].as_slice()
    );
    Ok(())
}

#[test]
fn a_fiber_waits_for_good(rt: HostRuntime) -> Result<(), Fail> {
    let deeds = [Deed::Nothing, Deed::Nothing, Deed::Fork, Deed::Nothing];
    let done = run_main(rt.alloc(), 2, deeds)?;
    let expected = [
        (1, Call::Turn),
        (1, FORK),
        (1, Call::Yield),
        (2, Call::Turn),
        (2, WAIT),
        (1, Call::Turn),
        (1, ENDED),
    ];
    expect_calls(&rt, &done, &expected);
    assert_eq!(rt;
        done.world().fibers(),
        [
            FiberState::Ended(Outcome::Returned(0)),
            FiberState::Suspended(0),
        ]
        .as_slice()
    );
    Ok(())
}
