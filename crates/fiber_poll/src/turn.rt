//! The part of a turn before its last call: statements, one by one.
ghost use Rattle.std.specs.Prelude.{◌≡◌, ◌<◌, ◌≤◌, ℕ, [], Some, IfErr, IfOk, OnOk};
ghost use Rattle.pic_machine.specs.Lending.{Calm, Faulted};
ghost use Rattle.fiber_poll.specs.Moving.{IsAt, IsWaiting};
ghost use Rattle.fiber_poll.specs.Polls.{IsPortOf};
ghost use Rattle.fiber_poll.specs.UnderWay.{CanRun, IsLast, IsOn, IsStep, IsUp, weight_in};

use crate::blocks::leave;
use crate::owed::discharge;
use crate::poller::ScriptPoller;
use crate::silent::{run_silently, stmt_at};
use crate::spot::{Last, Spot};
use crate::stmts::{begin_calls, enter_block};
use crate::within::go_on;
use fiber_body::{Body, Exit, Standing, block_at};
use pic_base::Memory;
use pic_machine::{Port, PortFault, ReadyLine};
use script_tree::Stmt;

/// Runs a turn up to its last call, and tells which one that is. What the fiber owes comes first: a turn that
/// was broken off may have left some of it.
pub(crate) fn run_turn<P: Port<Body = Body>, R: ReadyLine>(
    poller: &ScriptPoller,
    port: &mut P,
    line: &mut R,
    body: &mut Body,
) -> Result<Last, PortFault>
    requires port_of { IsPortOf poller.now (P.sight port.old) }
    requires up { IsUp (P.sight port.old) body.old }
    ensures on { IsOn (P.sight port.old) (P.sight port.new) body.old body.new (R.told line.old) (R.told line.new) }
    ensures last { IfOk result (λ last. IsLast body.new last
        × (weight_in (P.sight port.new) body.new ≤ weight_in (P.sight port.old) body.old)) }
    ensures free { OnOk result (body.new.owes ≡ []) }
    ensures calm { OnOk result (Calm (P.sight port.old) (P.sight port.new)) }
    ensures gave_up { IfErr result (λ fault. Faulted fault (P.sight port.old) (P.sight port.new)) }
{
    discharge(port, line, body)?;
    run_on(poller, port, line, body)
}

/// Runs statements until the turn is to end, and tells by which last call.
fn run_on<P: Port<Body = Body>, R: ReadyLine>(
    poller: &ScriptPoller,
    port: &mut P,
    line: &mut R,
    body: &mut Body,
) -> Result<Last, PortFault>
    requires port_of { IsPortOf poller.now (P.sight port.old) }
    requires up { IsUp (P.sight port.old) body.old }
    requires free { body.old.owes ≡ [] }
    ensures on { IsOn (P.sight port.old) (P.sight port.new) body.old body.new (R.told line.old) (R.told line.new) }
    ensures last { IfOk result (λ last. IsLast body.new last
        × (weight_in (P.sight port.new) body.new ≤ weight_in (P.sight port.old) body.old)) }
    ensures free { OnOk result (body.new.owes ≡ []) }
    ensures calm { OnOk result (Calm (P.sight port.old) (P.sight port.new)) }
    ensures gave_up { IfErr result (λ fault. Faulted fault (P.sight port.old) (P.sight port.new)) }
{
    loop {
        match body.standing() {
            Standing::Ending(outcome) => return Ok(Last::End(outcome)),
            Standing::Ended => unreachable!("the fiber is live"),
            Standing::Out(exit) => leave(body, exit),
            Standing::Within { block, place, way } => {
                if let Some(last) = go_on(port, line, body, Spot { block, place }, way)? {
                    return Ok(last);
                }
            }
            Standing::At { block, place } => {
                if let Some(last) = run_from(poller, port, line, body, block, place)? {
                    return Ok(last);
                }
            }
        }
    }
}

/// Runs statements from this place on up to one that doesn't come to its end at once, and begins that.
/// Where it is the turn's last call that is next, it tells which one.
#[inline(always)]
fn run_from<P: Port<Body = Body>, R: ReadyLine>(
    poller: &ScriptPoller,
    port: &mut P,
    line: &mut R,
    body: &mut Body,
    block: u32,
    place: u32,
) -> Result<Option<Last>, PortFault>
    requires port_of { IsPortOf poller.now (P.sight port.old) }
    requires up { IsUp (P.sight port.old) body.old }
    requires free { body.old.owes ≡ [] }
    requires at { body.old.standing ≡ Standing.At block place }
    ensures on { IsOn (P.sight port.old) (P.sight port.new) body.old body.new (R.told line.old) (R.told line.new) }
    ensures step { IfOk result (λ last. IsStep (P.sight port.old) (P.sight port.new) body.old body.new last) }
    ensures free { OnOk result (body.new.owes ≡ []) }
    ensures calm { OnOk result (Calm (P.sight port.old) (P.sight port.new)) }
    ensures gave_up { IfErr result (λ fault. Faulted fault (P.sight port.old) (P.sight port.new)) }
{
    let Ok(found) = run_silently(&poller.program, body, block, place) else {
        return Err(PortFault::Memory);
    };
    let Some(spot) = found else {
        return Ok(None);
    };
    let stmts = block_at(&poller.program, spot.block);
    let Some(stmt) = stmt_at(stmts, spot.place) else {
        body.stand(Standing::Out(Exit::Next), body.steps());
        return Ok(None);
    };
    begin(poller, port, line, body, spot, stmt)
}

/// Begins a statement that doesn't come to its end at once, where it has a step.
fn begin<P: Port<Body = Body>, R: ReadyLine>(
    poller: &ScriptPoller,
    port: &mut P,
    line: &mut R,
    body: &mut Body,
    spot: Spot,
    stmt: &Stmt,
) -> Result<Option<Last>, PortFault>
    requires port_of { IsPortOf poller.now (P.sight port.old) }
    requires up { IsUp (P.sight port.old) body.old }
    requires free { body.old.owes ≡ [] }
    requires at { IsAt body.old spot stmt.now }
    requires waits { 0 < body.old.context.steps → IsWaiting body.old.context stmt.now }
    requires can { CanRun poller.now stmt.now }
    ensures on { IsOn (P.sight port.old) (P.sight port.new) body.old body.new (R.told line.old) (R.told line.new) }
    ensures step { IfOk result (λ last. IsStep (P.sight port.old) (P.sight port.new) body.old body.new last) }
    ensures free { OnOk result (body.new.owes ≡ []) }
    ensures calm { OnOk result (Calm (P.sight port.old) (P.sight port.new)) }
    ensures gave_up { IfErr result (λ fault. Faulted fault (P.sight port.old) (P.sight port.new)) }
{
    if body.steps() == 0 {
        body.stand(Standing::Out(Exit::Spent), 0);
        return Ok(None);
    }
    if let Stmt::Yield = stmt {
        return Ok(Some(Last::Yield(spot)));
    }
    match enter_block(poller, body, spot, stmt) {
        Ok(true) => Ok(None),
        Ok(false) => {
            begin_calls(poller, port, line, body, spot, stmt)?;
            Ok(None)
        }
        Err(Memory) => Err(PortFault::Memory),
    }
}
