//! Statements that don't come to their end at once: those with a block, and those with a call.
ghost use Rattle.std.specs.Prelude.{◌≡◌, ◌≢◌, ◌<◌, [], None, IfErr, IfOk, OnErr, OnOk};
ghost use Rattle.std.specs.Bool.{OnFalse, OnTrue};
ghost use Rattle.pic_machine.specs.Lending.{Calm, Faulted};
ghost use Rattle.fiber_body.specs.Statements.{first, result as result_of};
ghost use Rattle.fiber_body.specs.Phases.{calls};
ghost use Rattle.fiber_body.specs.Context.{numbering};
ghost use Rattle.fiber_poll.specs.Moving.{Goes, HasCall, IsBefore, IsWaiting, weight};
ghost use Rattle.fiber_poll.specs.Polls.{IsPortOf};
ghost use Rattle.fiber_poll.specs.UnderWay.{CanRun, IsOn, IsUp};
ghost use Rattle.fiber_body.specs.Texts.{script_in};

use crate::blocks::{enter, enter_under};
use crate::calls::{call_of, take};
use crate::follow::begin_wait;
use crate::looking::{begin_attach, begin_await};
use crate::making::make;
use crate::owed::{brings_duties, discharge};
use crate::poller::ScriptPoller;
use crate::spot::Spot;
use crate::under::{told, with_current};
use fiber_body::{Body, Frame};
use pic_base::Memory;
use pic_machine::{Carried, Port, PortFault, ReadyLine};
use script_tree::Stmt;

/// Enters the block of a loop, that of a statement with a handler, or one that is run under something else.
/// Answers false, and changes nothing, where the statement has no block.
pub(crate) fn enter_block(
    poller: &ScriptPoller,
    body: &mut Body,
    spot: Spot,
    stmt: &Stmt,
) -> Result<bool, Memory>
    requires program { script_in body.old.program ≡ poller.now }
    requires before { IsBefore body.old spot stmt.now }
    requires waits { IsWaiting body.old.context stmt.now }
    requires can { CanRun poller.now stmt.now }
    ensures goes { IfOk result (λ has. OnTrue has (Goes body.old body.new)) }
    ensures lighter { IfOk result (λ has. OnTrue has (weight body.new < weight body.old)) }
    ensures none { IfOk result (λ has. OnFalse has (body.new ≡ body.old)) }
    ensures calls { IfOk result (λ has. OnFalse has (HasCall body.old.context stmt.now)) }
    ensures kept { OnErr result (body.new ≡ body.old) }
{
    match stmt {
        Stmt::Loop(block) => enter(body, spot, Some(Frame::Repeats { block: *block }), *block)?,
        Stmt::Try {
            body: block,
            register,
            handler,
        } => {
            let exit = Frame::Catches {
                register: *register,
                handler: *handler,
            };
            enter(body, spot, Some(exit), *block)?
        }
        Stmt::Forbid(block) => enter_under(body, spot, told(body, false), *block)?,
        Stmt::Permit(block) => enter_under(body, spot, told(body, true), *block)?,
        Stmt::Under(comp, block) => {
            let under = with_current(poller, body, *comp);
            enter_under(body, spot, under, *block)?
        }
        _ => return Ok(false),
    }
    Ok(true)
}

/// Begins a statement that has a call, or several, and is no yield.
pub(crate) fn begin_calls<P: Port<Body = Body>, R: ReadyLine>(
    poller: &ScriptPoller,
    port: &mut P,
    line: &mut R,
    body: &mut Body,
    spot: Spot,
    stmt: &Stmt,
) -> Result<(), PortFault>
    requires port_of { IsPortOf poller.now (P.sight port.old) }
    requires up { IsUp (P.sight port.old) body.old }
    requires free { body.old.owes ≡ [] }
    requires before { IsBefore body.old spot stmt.now }
    requires not_done { result_of body.old.context.registers body.old.context.cells stmt.now ≡ None }
    requires calls { HasCall body.old.context stmt.now }
    requires no_yield { stmt.now ≢ Stmt.Yield }
    requires can { CanRun poller.now stmt.now }
    ensures on { IsOn (P.sight port.old) (P.sight port.new) body.old body.new (R.told line.old) (R.told line.new) }
    ensures lighter { OnOk result (weight body.new < weight body.old) }
    ensures free { OnOk result (body.new.owes ≡ []) }
    ensures calm { OnOk result (Calm (P.sight port.old) (P.sight port.new)) }
    ensures gave_up { IfErr result (λ fault. Faulted fault (P.sight port.old) (P.sight port.new)) }
{
    match stmt {
        Stmt::Await(trigger) => begin_await(poller, port, body, spot, *trigger),
        Stmt::Attach(register, comp, trigger) => {
            begin_attach(poller, port, body, spot, *register, *comp, *trigger)
        }
        Stmt::Wait(register, comp) => {
            begin_wait(poller, body, spot, *register, *comp);
            Ok(())
        }
        _ => call(poller, port, line, body, spot, stmt),
    }
}

/// Makes the call of a statement, which is no yield, ends the statement by its reply, and fulfils what the
/// fiber owes then.
fn call<P: Port<Body = Body>, R: ReadyLine>(
    poller: &ScriptPoller,
    port: &mut P,
    line: &mut R,
    body: &mut Body,
    spot: Spot,
    stmt: &Stmt,
) -> Result<(), PortFault>
    requires port_of { IsPortOf poller.now (P.sight port.old) }
    requires up { IsUp (P.sight port.old) body.old }
    requires free { body.old.owes ≡ [] }
    requires before { IsBefore body.old spot stmt.now }
    requires not_done { result_of body.old.context.registers body.old.context.cells stmt.now ≡ None }
    requires calls { first (numbering poller.now.decls) body.old.context stmt.now ≡ calls stmt.now }
    requires no_yield { stmt.now ≢ Stmt.Yield }
    requires can { CanRun poller.now stmt.now }
    ensures on { IsOn (P.sight port.old) (P.sight port.new) body.old body.new (R.told line.old) (R.told line.new) }
    ensures lighter { OnOk result (weight body.new < weight body.old) }
    ensures free { OnOk result (body.new.owes ≡ []) }
    ensures calm { OnOk result (Calm (P.sight port.old) (P.sight port.new)) }
    ensures gave_up { IfErr result (λ fault. Faulted fault (P.sight port.old) (P.sight port.new)) }
{
    let may_owe = ask(poller, port, line, body, spot, stmt)?;
    if may_owe {
        discharge(port, line, body)?;
    }
    Ok(())
}

/// Makes the call and ends the statement by its reply. Answers whether the fiber may owe something then.
fn ask<P: Port<Body = Body>, R: ReadyLine>(
    poller: &ScriptPoller,
    port: &mut P,
    line: &mut R,
    body: &mut Body,
    spot: Spot,
    stmt: &Stmt,
) -> Result<bool, PortFault>
    requires port_of { IsPortOf poller.now (P.sight port.old) }
    requires up { IsUp (P.sight port.old) body.old }
    requires free { body.old.owes ≡ [] }
    requires before { IsBefore body.old spot stmt.now }
    requires not_done { result_of body.old.context.registers body.old.context.cells stmt.now ≡ None }
    requires calls { first (numbering poller.now.decls) body.old.context stmt.now ≡ calls stmt.now }
    requires no_yield { stmt.now ≢ Stmt.Yield }
    requires can { CanRun poller.now stmt.now }
    ensures on { IsOn (P.sight port.old) (P.sight port.new) body.old body.new (R.told line.old) (R.told line.new) }
    ensures lighter { OnOk result (weight body.new < weight body.old) }
    ensures free { IfOk result (λ may_owe. OnFalse may_owe (body.new.owes ≡ [])) }
    ensures calm { OnOk result (Calm (P.sight port.old) (P.sight port.new)) }
    ensures gave_up { IfErr result (λ fault. Faulted fault (P.sight port.old) (P.sight port.new)) }
{
    let Some(call) = call_of(&poller.numbers, body, stmt) else {
        unreachable!("the statement is built");
    };
    if body.reserve().is_err() {
        return Err(PortFault::Memory);
    }
    let reply = make(poller, port, line, body, call)?;
    take(body, spot, stmt, reply);
    Ok(brings_duties(call))
}
