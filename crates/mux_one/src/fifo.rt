ghost use Rattle.std.specs.Prelude.{◌≡◌, ◌≢◌, ⊤, ◌+◌, ◌≤◌, ◌∷◌, None, [], false, IfOk, OnOk};
ghost use Rattle.pic_machine.specs.Final.{IsFinal};
ghost use Rattle.pic_machine.specs.History.{IsLegal, event, world};
ghost use Rattle.pic_machine.specs.Lending.{Began};
ghost use Rattle.pic_machine.specs.Log.{log};
ghost use Rattle.pic_machine.specs.Order.{IsInFifoOrder, turns_over};
ghost use Rattle.pic_machine.specs.Sight.{Holds, fiber_of};
ghost use Rattle.pic_machine.specs.Step.{IsLive};
ghost use Rattle.pic_machine.specs.Turning.{Stopped};
ghost use Rattle.mux_one.specs.UnderWay.{IsUnderWay, told_by};
ghost use Rattle.port_plain.specs.Shown.{origin_in, sight_of};

use crate::line::Line;
use pic_base::{FiberNo, Memory};
use pic_machine::{Call, Carried, ClaimRefusal, Idle, Poller, Port, PortFault, Reply, Turn};
use port_plain::PlainPort;
use std::alloc::Global;

/// Runs the fibers until each one has ended, or waits for a trigger that nobody is left to signal: each
/// turn is that of the fiber which has been ready longest. The port is as its `open` gave it.
pub fn run_fifo<B: Carried, Q: Poller<PlainPort<B>>>(
    alloc: Global,
    poller: &Q,
    port: PlainPort<B>,
) -> Result<PlainPort<B>, Memory>
    requires polls { Q.polls poller.now (sight_of B.seen port) }
    requires fresh { port.front ≡ [] }
    requires out { port.out ≡ None }
    ensures origin { IfOk result (λ done. origin_in B.seen done ≡ origin_in B.seen port) }
    ensures share { IfOk result (λ done. (B.seen done.main).share ≡ (B.seen port.main).share) }
    ensures legal { IfOk result (λ done. IsLegal (origin_in B.seen done) done.front) }
    ensures ordered { IfOk result (λ done. IsInFifoOrder done.front) }
    ensures over { IfOk result (λ done. IsFinal (world (origin_in B.seen done) done.front)) }
    ensures out { IfOk result (λ done. done.out ≡ None) }
{
    let mut port = port;
    // Main alone is ready. The world tells how many fibers there are, and that the port began at a start
    // that a machine can have, on which all turns rest.
    let mut line = Line::starting(alloc, port.world().fibers().len())?;
    while let Some(fiber) = line.take() {
        run_turn(poller, &mut port, &mut line, fiber)?;
    }
    finish(port)
}

/// Runs the next turn of a fiber that was first of the line.
fn run_turn<B: Carried, Q: Poller<PlainPort<B>>>(
    poller: &Q,
    port: &mut PlainPort<B>,
    line: &mut Line,
    fiber: FiberNo,
) -> Result<(), Memory>
    requires polls { Q.polls poller.now (sight_of B.seen port.old) }
    requires whole { line.old.lost ≡ false }
    requires under_way { IsUnderWay (sight_of B.seen port.old) (fiber ∷ line.old.queue.items) }
    ensures origin { OnOk result (origin_in B.seen port.new ≡ origin_in B.seen port.old) }
    ensures share { OnOk result ((B.seen port.new.main).share ≡ (B.seen port.old.main).share) }
    ensures whole { OnOk result (line.new.lost ≡ false) }
    ensures under_way { OnOk result (IsUnderWay (sight_of B.seen port.new) line.new.queue.items) }
    ensures further { OnOk result (turns_over port.new.front ≡ turns_over port.old.front + 1) }
{
    let body = claim(port, fiber)?;
    poll(poller, port, line, body)?;
    if line.is_lost() {
        return Err(Memory);
    }
    Ok(())
}

/// Begins a turn of a live fiber.
fn claim<B: Carried>(port: &mut PlainPort<B>, fiber: FiberNo) -> Result<B, Memory>
    requires out { port.old.out ≡ None }
    requires range { (1 ≤ fiber) × (fiber ≤ port.old.start.limits.fibers) }
    requires live { IsLive (world (origin_in B.seen port.old) port.old.front) fiber }
    ensures made { OnOk result (Began (sight_of B.seen port.old) (sight_of B.seen port.new)
        (event fiber Call.Turn Reply.Plain)) }
    ensures body { IfOk result (λ body. Holds (sight_of B.seen port.new) (B.seen body)
        × (fiber_of (B.seen body) ≡ fiber)
        × B.fits body (log port.new.front fiber)) }
{
    match port.claim(fiber) {
        Ok(body) => Ok(body),
        Err(ClaimRefusal::NotReady) => unreachable!("the fiber is live"),
        Err(ClaimRefusal::Again) => unreachable!("the port is alone"),
        Err(ClaimRefusal::Memory) => Err(Memory),
    }
}

/// Polls a body whose turn has begun, until the turn is over.
fn poll<B: Carried, Q: Poller<PlainPort<B>>>(
    poller: &Q,
    port: &mut PlainPort<B>,
    line: &mut Line,
    body: B,
) -> Result<(), Memory>
    requires polls { Q.polls poller.now (sight_of B.seen port.old) }
    requires holds { Holds (sight_of B.seen port.old) (B.seen body) }
    requires fiber { fiber_of (B.seen body) ≢ 0 }
    requires fits { B.fits body (log port.old.front (fiber_of (B.seen body))) }
    ensures { OnOk result (Stopped (sight_of B.seen port.old) (sight_of B.seen port.new)
        (fiber_of (B.seen body)) (told_by line.old.lost line.old.queue.items)
        (told_by line.new.lost line.new.queue.items) (λ h. ⊤)) }
{
    match poller.poll(port, line, body) {
        Turn::Ended => Ok(()),
        Turn::Yielded => Ok(()),
        Turn::Parked => Ok(()),
        Turn::Again(_) => unreachable!("the port is alone"),
        Turn::Memory(_) => Err(Memory),
    }
}

/// The port, which says that all is over.
fn finish<B: Carried>(port: PlainPort<B>) -> Result<PlainPort<B>, Memory>
    requires under_way { IsUnderWay (sight_of B.seen port) [] }
    ensures origin { IfOk result (λ done. origin_in B.seen done ≡ origin_in B.seen port) }
    ensures share { IfOk result (λ done. (B.seen done.main).share ≡ (B.seen port.main).share) }
    ensures front { IfOk result (λ done. done.front ≡ port.front) }
    ensures legal { IfOk result (λ done. IsLegal (origin_in B.seen done) done.front) }
    ensures over { IfOk result (λ done. IsFinal (world (origin_in B.seen done) done.front)) }
    ensures out { IfOk result (λ done. done.out ≡ None) }
{
    let mut port = port;
    match port.idle() {
        Ok(Idle::Over) => Ok(port),
        Ok(Idle::Busy) => unreachable!("nobody is live"),
        Err(PortFault::Memory) => Err(Memory),
        Err(_) => unreachable!("the port is alone"),
    }
}
