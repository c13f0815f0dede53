//! The last call of a turn, by which the port gets the body back. The port keeps the body as it stands behind
//! that call; where the call is refused, the body is set back.
ghost use Rattle.std.specs.Prelude.{◌≡◌, ◌≢◌, ◌<◌, ℕ, [], IfErr, IfOk, List, OnOk, Option};
ghost use Rattle.pic_machine.specs.Lending.{Calm};
ghost use Rattle.script_tree.specs.Tree.{Tree};
ghost use Rattle.pic_machine.specs.Turning.{Polled};
ghost use Rattle.fiber_body.specs.Fits.{Fits};
ghost use Rattle.fiber_body.specs.Shown.{carry_of, stood as stood_at};
ghost use Rattle.fiber_poll.specs.Moving.{IsBefore, arms_at, behind_arming, weight};
ghost use Rattle.fiber_poll.specs.Polls.{IsPortOf};
ghost use Rattle.fiber_poll.specs.UnderWay.{IsHandedBack, IsLast, IsOn, IsUp};

use crate::looking::TAKEN_ALREADY;
use crate::spot::{Last, Spot};
use fiber_await::armed;
use fiber_body::{Body, Exit, Standing, UnderWay};
use pic_base::{Outcome, TriggerNo};
use pic_machine::{Carried, ParkRefusal, Port, PortFault, ReadyLine, Turn};
use script_tree::Stmt;

/// Ends the turn by the yield at this place.
pub(crate) fn yield_turn<P: Port<Body = Body>, R: ReadyLine>(
    port: &mut P,
    line: &mut R,
    body: Body,
    spot: Spot,
) -> Turn<Body>
    requires up { IsUp (P.sight port.old) body }
    requires free { body.owes ≡ [] }
    requires before { IsBefore body spot Stmt.Yield }
    ensures { Polled result carry_of Fits (P.sight port.old) (P.sight port.new) (carry_of body) (R.told line.old) (R.told line.new) }
{
    let mut body = body;
    if body.reserve().is_err() {
        return Turn::Memory(body);
    }
    let fiber = body.fiber();
    let steps = body.steps();
    body.stand(spot.behind(Exit::Next), steps - 1);
    match port.lay(body, true) {
        Ok(()) => {
            line.add(fiber);
            Turn::Yielded
        }
        Err((body, fault)) => {
            let mut body = body;
            let before = Standing::At {
                block: spot.block,
                place: spot.place,
            };
            body.stand(before, steps);
            handed_back(body, fault)
        }
    }
}

/// Suspends the body's fiber until the trigger is signalled for which the statement at this place waits, which
/// stands there. Where the fiber goes on at once, it answers the body, which stands behind the arming then.
pub(crate) fn park_turn<P: Port<Body = Body>>(
    port: &mut P,
    body: Body,
    spot: Spot,
    way: UnderWay,
) -> Result<Body, Turn<Body>>
    requires port_of { (script : Tree) × IsPortOf script (P.sight port.old) }
    requires up { IsUp (P.sight port.old) body }
    requires free { body.owes ≡ [] }
    requires parks { IsLast body (Last.Park spot way) }
    ensures on { IfOk result (λ awake. (told : Option (List ℕ)) → IsOn (P.sight port.old) (P.sight port.new) body awake told told) }
    ensures lighter { IfOk result (λ awake. weight awake < weight body) }
    ensures free { IfOk result (λ awake. awake.owes ≡ []) }
    ensures calm { OnOk result (Calm (P.sight port.old) (P.sight port.new)) }
    ensures over { IfErr result (λ turn. (told : Option (List ℕ)) → Polled turn carry_of Fits (P.sight port.old) (P.sight port.new) (carry_of body) told told) }
{
    let Some(trigger) = arms_at(way) else {
        unreachable!("the wait has a trigger");
    };
    let mut body = body;
    if body.reserve().is_err() {
        return Err(Turn::Memory(body));
    }
    let steps = body.steps();
    body.stand(spot.within(behind_arming(way, trigger)), steps);
    match port.park(trigger, body) {
        Ok(()) => Err(Turn::Parked),
        Err((body, ParkRefusal::Signalled)) => Ok(body),
        Err((body, ParkRefusal::Taken)) => {
            Ok(stood(body, spot.behind(Exit::Raised(TAKEN_ALREADY)), steps))
        }
        Err((body, ParkRefusal::Again)) => Err(Turn::Again(stood(body, spot.within(way), steps))),
        Err((body, ParkRefusal::Memory)) => Err(Turn::Memory(stood(body, spot.within(way), steps))),
    }
}

/// The trigger that is to be armed next, where the fiber waits for one.
fn arms_at(way: UnderWay) -> Option<TriggerNo>
    ensures { result ≡ arms_at way }
{
    match way {
        UnderWay::Awaits(parts) => parts.trigger,
        UnderWay::Follows { parts, .. } => parts.trigger,
        _ => None,
    }
}

/// Where the fiber goes on once this trigger was armed.
fn behind_arming(way: UnderWay, trigger: TriggerNo) -> UnderWay
    ensures { result ≡ behind_arming way trigger }
{
    match way {
        UnderWay::Awaits(_) => UnderWay::Awake(trigger),
        UnderWay::Follows {
            register,
            comp,
            parts,
        } => UnderWay::Follows {
            register,
            comp,
            parts: armed(parts),
        },
        other => other,
    }
}

/// The body where it stands there, with so many steps left.
fn stood(body: Body, standing: Standing, steps: u32) -> Body
    ensures { result ≡ stood_at body standing steps }
{
    let mut body = body;
    body.stand(standing, steps);
    body
}

/// Ends the body's fiber, which has left its text.
pub(crate) fn end_turn<P: Port<Body = Body>>(
    port: &mut P,
    body: Body,
    outcome: Outcome,
) -> Turn<Body>
    requires up { IsUp (P.sight port.old) body }
    requires free { body.owes ≡ [] }
    requires ending { body.standing ≡ Standing.Ending outcome }
    ensures { (told : Option (List ℕ)) → Polled result carry_of Fits (P.sight port.old) (P.sight port.new) (carry_of body) told told }
{
    let mut body = body;
    if body.reserve().is_err() {
        return Turn::Memory(body);
    }
    let steps = body.steps();
    body.stand(Standing::Ended, steps);
    match port.end(body, outcome) {
        Ok(()) => Turn::Ended,
        Err((body, fault)) => {
            let mut body = body;
            body.stand(Standing::Ending(outcome), steps);
            handed_back(body, fault)
        }
    }
}

/// Hands the body back with its turn under way.
pub(crate) fn handed_back(body: Body, fault: PortFault) -> Turn<Body>
    requires { fault ≢ PortFault.Full }
    ensures { IsHandedBack fault body result }
{
    match fault {
        PortFault::Again => Turn::Again(body),
        PortFault::Memory => Turn::Memory(body),
        PortFault::Full => unreachable!("a turn is not broken off by a limit"),
    }
}
