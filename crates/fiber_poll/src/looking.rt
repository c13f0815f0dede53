//! The beginnings of statements that look at a trigger first: `await` and `attach`.
ghost use Rattle.std.specs.Prelude.{◌≡◌, ◌<◌, ◌+◌, ◌^◌, ℕ, [], IfErr, List, OnOk, Option};
ghost use Rattle.pic_machine.specs.Lending.{Calm, Faulted};
ghost use Rattle.fiber_poll.specs.Moving.{IsBefore, first_of_wait, seen_by_wait, weight};
ghost use Rattle.fiber_poll.specs.Polls.{IsPortOf};
ghost use Rattle.fiber_poll.specs.UnderWay.{CanRun, IsOn, IsUp};

use crate::poller::ScriptPoller;
use crate::spot::Spot;
use crate::within::READY;
use fiber_await::look;
use fiber_body::{Body, Exit, Standing, UnderWay};
use pic_base::{TriggerNo, Value};
use pic_machine::{Parts, Port, PortFault, TrigState};
use script_tree::{CompRef, Stmt};

/// The code that is raised where the trigger is another's.
pub(crate) const TAKEN_ALREADY: Value = 5;

/// Begins a wait for the trigger that is declared at this place.
pub(crate) fn begin_await<P: Port<Body = Body>>(
    poller: &ScriptPoller,
    port: &mut P,
    body: &mut Body,
    spot: Spot,
    trigger: u32,
) -> Result<(), PortFault>
    requires port_of { IsPortOf poller.now (P.sight port.old) }
    requires up { IsUp (P.sight port.old) body.old }
    requires free { body.old.owes ≡ [] }
    requires before { IsBefore body.old spot (Stmt.Await trigger) }
    requires can { CanRun poller.now (Stmt.Await trigger) }
    ensures on { (told : Option (List ℕ)) → IsOn (P.sight port.old) (P.sight port.new) body.old body.new told told }
    ensures lighter { OnOk result (weight body.new < weight body.old) }
    ensures free { OnOk result (body.new.owes ≡ []) }
    ensures calm { OnOk result (Calm (P.sight port.old) (P.sight port.new)) }
    ensures gave_up { IfErr result (λ fault. Faulted fault (P.sight port.old) (P.sight port.new)) }
{
    let Some(trigger) = poller.numbers.trigger(trigger) else {
        unreachable!("the trigger is declared");
    };
    let under = body.waits_under();
    let state = look(port, body, trigger)?;
    let standing = seen_by_wait(spot, under.permitted, trigger, state);
    body.stand(standing, body.steps() - 1);
    Ok(())
}

/// Where a wait goes on once its trigger was seen so: a place is made for its attachment, where the fiber is
/// permitted to be told of a cancellation.
fn seen_by_wait(spot: Spot, permitted: bool, trigger: TriggerNo, state: TrigState) -> Standing
    requires { spot.place + 1 < 2 ^ 32 }
    ensures { result ≡ seen_by_wait spot permitted trigger state }
{
    match state {
        TrigState::Initial => spot.within(first_of_wait(permitted, trigger)),
        TrigState::Signalled => spot.behind(Exit::Next),
        TrigState::Awaiting(_) => spot.behind(Exit::Raised(TAKEN_ALREADY)),
    }
}

fn first_of_wait(permitted: bool, trigger: TriggerNo) -> UnderWay
    ensures { result ≡ first_of_wait permitted trigger }
{
    if permitted {
        return UnderWay::Places(trigger);
    }
    UnderWay::Awaits(Parts {
        trigger: Some(trigger),
        place: None,
        second: None,
        at: READY,
    })
}

/// Begins to attach the trigger that is declared at this place to the computation. Where the trigger is
/// signalled the answer is known.
pub(crate) fn begin_attach<P: Port<Body = Body>>(
    poller: &ScriptPoller,
    port: &mut P,
    body: &mut Body,
    spot: Spot,
    register: u8,
    comp: CompRef,
    trigger: u32,
) -> Result<(), PortFault>
    requires port_of { IsPortOf poller.now (P.sight port.old) }
    requires up { IsUp (P.sight port.old) body.old }
    requires free { body.old.owes ≡ [] }
    requires before { IsBefore body.old spot (Stmt.Attach register comp trigger) }
    requires can { CanRun poller.now (Stmt.Attach register comp trigger) }
    ensures on { (told : Option (List ℕ)) → IsOn (P.sight port.old) (P.sight port.new) body.old body.new told told }
    ensures lighter { OnOk result (weight body.new < weight body.old) }
    ensures free { OnOk result (body.new.owes ≡ []) }
    ensures calm { OnOk result (Calm (P.sight port.old) (P.sight port.new)) }
    ensures gave_up { IfErr result (λ fault. Faulted fault (P.sight port.old) (P.sight port.new)) }
{
    let Some(comp) = poller.numbers.comp(comp) else {
        unreachable!("the computation is declared");
    };
    let Some(trigger) = poller.numbers.trigger(trigger) else {
        unreachable!("the trigger is declared");
    };
    let state = look(port, body, trigger)?;
    let steps = body.steps() - 1;
    if let TrigState::Signalled = state {
        body.set_register(register, 0);
        body.stand(spot.behind(Exit::Next), steps);
        return Ok(());
    }
    let way = UnderWay::Attaches {
        register,
        comp,
        trigger,
        place: None,
    };
    body.stand(spot.within(way), steps);
    Ok(())
}
