//! Calls of the port, for a statement that goes on in the same turn.
ghost use Rattle.std.specs.Prelude.{◌≡◌, ◌<◌, [], IfErr, IfOk, OnErr, OnOk};
ghost use Rattle.pic_machine.specs.Lending.{Calm, Faulted};
ghost use Rattle.script_tree.specs.WellFormed.{IsFiberText};
ghost use Rattle.pic_machine.specs.Sight.{CanMake};
ghost use Rattle.fiber_body.specs.Shown.{carry_of};
ghost use Rattle.fiber_poll.specs.Polls.{IsPortOf};
ghost use Rattle.fiber_poll.specs.UnderWay.{CanAsk, IsMade, IsOn, IsUp};

use crate::poller::ScriptPoller;
use fiber_body::Body;
use pic_base::{Action, TriggerNo, Value};
use pic_machine::{Call, Port, PortFault, ReadyLine, Reply, SignalReply};

/// Makes the call, for whose entry there is room, and answers its reply.
pub(crate) fn make<P: Port<Body = Body>, R: ReadyLine>(
    poller: &ScriptPoller,
    port: &mut P,
    line: &mut R,
    body: &mut Body,
    call: Call,
) -> Result<Reply, PortFault>
    requires port_of { IsPortOf poller.now (P.sight port.old) }
    requires up { IsUp (P.sight port.old) body.old }
    requires free { body.old.owes ≡ [] }
    requires room { 0 < body.old.room }
    requires can { CanAsk poller.now body.old.birth call }
    ensures made { IfOk result (λ reply. IsMade (P.sight port.old) (P.sight port.new) body.old body.new (R.told line.old) (R.told line.new) call reply) }
    ensures refused { OnErr result (IsOn (P.sight port.old) (P.sight port.new) body.old body.new (R.told line.old) (R.told line.new)) }
    ensures gave_up { IfErr result (λ fault. Faulted fault (P.sight port.old) (P.sight port.new)) }
{
    match call {
        Call::Say(value) => {
            port.say(body, value)?;
            Ok(Reply::Plain)
        }
        Call::Peek(comp) => Ok(Reply::Peeked(port.peek(body, comp)?)),
        Call::Complete { comp, outcome } => Ok(Reply::Completed(port.complete(
            body, comp, outcome,
        )?)),
        Call::Signal(trigger) => Ok(Reply::Signalled(signal(port, line, body, trigger)?)),
        Call::Fork { text, value } => fork(poller, port, line, body, text, value),
        _ => unreachable!("no statement asks for another call behind which its turn goes on"),
    }
}

/// Signals the trigger, and adds the fiber that is resumed to the line, if one is.
fn signal<P: Port<Body = Body>, R: ReadyLine>(
    port: &mut P,
    line: &mut R,
    body: &mut Body,
    trigger: TriggerNo,
) -> Result<SignalReply, PortFault>
    requires up { IsUp (P.sight port.old) body.old }
    requires can { CanMake (P.sight port.old) (carry_of body.old) (Call.Signal trigger) }
    requires free { body.old.owes ≡ [] }
    ensures made { IfOk result (λ how. IsMade (P.sight port.old) (P.sight port.new) body.old body.new (R.told line.old) (R.told line.new) (Call.Signal trigger) (Reply.Signalled how)) }
    ensures refused { OnErr result (IsOn (P.sight port.old) (P.sight port.new) body.old body.new (R.told line.old) (R.told line.new)) }
    ensures gave_up { IfErr result (λ fault. Faulted fault (P.sight port.old) (P.sight port.new)) }
{
    let how = port.signal(body, trigger)?;
    if let SignalReply::Acted(Action::Resume(fiber)) = how {
        line.add(fiber);
    }
    Ok(how)
}

/// Makes a fiber that runs the text and is handed the value, with the current computation of this one.
fn fork<P: Port<Body = Body>, R: ReadyLine>(
    poller: &ScriptPoller,
    port: &mut P,
    line: &mut R,
    body: &mut Body,
    text: u32,
    value: Value,
) -> Result<Reply, PortFault>
    requires port_of { IsPortOf poller.now (P.sight port.old) }
    requires up { IsUp (P.sight port.old) body.old }
    requires free { body.old.owes ≡ [] }
    requires room { 0 < body.old.room }
    requires text { IsFiberText poller.now text }
    ensures made { IfOk result (λ reply. IsMade (P.sight port.old) (P.sight port.new) body.old body.new (R.told line.old) (R.told line.new) (Call.Fork text value) reply) }
    ensures refused { OnErr result (IsOn (P.sight port.old) (P.sight port.new) body.old body.new (R.told line.old) (R.told line.new)) }
    ensures gave_up { IfErr result (λ fault. Faulted fault (P.sight port.old) (P.sight port.new)) }
{
    let Ok(child) = Body::new(poller.alloc, &poller.program, text, value, body.current()) else {
        return Err(PortFault::Memory);
    };
    match port.fork(body, text, value, child) {
        Ok(number) => {
            line.add(number);
            Ok(Reply::Made(number))
        }
        Err((_, PortFault::Full)) => Ok(Reply::Full),
        Err((_, PortFault::Again)) => Err(PortFault::Again),
        Err((_, PortFault::Memory)) => Err(PortFault::Memory),
    }
}
