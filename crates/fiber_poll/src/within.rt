//! Statements that are under way, from one of their calls to the next one.
ghost use Rattle.std.specs.Prelude.{◌≡◌, ◌<◌, ◌+◌, ◌^◌, ◌∷◌, ℕ, [], IfErr, IfOk, List, OnOk, Option};
ghost use Rattle.std.specs.Option.{IfSome};
ghost use Rattle.pic_machine.specs.History.{NumbersFit, event};
ghost use Rattle.pic_machine.specs.Lending.{Calm, Faulted};
ghost use Rattle.pic_machine.specs.Sight.{fiber_of};
ghost use Rattle.fiber_await.specs.Doing.{Did, IsFree};
ghost use Rattle.fiber_await.specs.Refusing.{Refused};
ghost use Rattle.script_tree.specs.Tree.{Tree};
ghost use Rattle.fiber_body.specs.Shown.{IsSameRest, carry_of};
ghost use Rattle.fiber_poll.specs.Moving.{exit_of, placed, placed_for_attachment, placed_for_wait, weight};
ghost use Rattle.fiber_poll.specs.Polls.{IsPortOf};
ghost use Rattle.fiber_poll.specs.UnderWay.{IsOn, IsStep, IsUp};

use crate::calls::LIMIT_MET;
use crate::follow::follow;
use crate::spot::{Last, Spot};
use crate::values::attached;
use fiber_await::{Ahead, attach, new_place, suspend, unsuspend};
use fiber_body::{Body, Exit, Standing, UnderWay};
use pic_base::{CompNo, PlaceNo, TriggerNo};
use pic_machine::{Call, Parts, Port, PortFault, ReadyLine};

/// The stage of the parts of a wait that has all it needs.
pub(crate) const READY: u8 = 2;

/// Goes on with the statement at this place, which is under way. Where the trigger for which it waits is to be
/// armed next, it says so.
pub(crate) fn go_on<P: Port<Body = Body>, R: ReadyLine>(
    port: &mut P,
    line: &mut R,
    body: &mut Body,
    spot: Spot,
    way: UnderWay,
) -> Result<Option<Last>, PortFault>
    requires port_of { (script : Tree) × IsPortOf script (P.sight port.old) }
    requires up { IsUp (P.sight port.old) body.old }
    requires free { body.old.owes ≡ [] }
    requires within { body.old.standing ≡ Standing.Within spot.block spot.place way }
    ensures on { IsOn (P.sight port.old) (P.sight port.new) body.old body.new (R.told line.old) (R.told line.new) }
    ensures step { IfOk result (λ last. IsStep (P.sight port.old) (P.sight port.new) body.old body.new last) }
    ensures free { OnOk result (body.new.owes ≡ []) }
    ensures calm { OnOk result (Calm (P.sight port.old) (P.sight port.new)) }
    ensures gave_up { IfErr result (λ fault. Faulted fault (P.sight port.old) (P.sight port.new)) }
{
    match way {
        UnderWay::Places(trigger) => place_wait(port, body, spot, trigger)?,
        UnderWay::Awaits(parts) => return wait(port, body, spot, parts),
        UnderWay::Awake(trigger) => wake(port, body, spot, trigger)?,
        UnderWay::Attaches {
            register,
            comp,
            trigger,
            place: None,
        } => place_attachment(port, body, spot, register, comp, trigger)?,
        UnderWay::Attaches {
            register,
            comp,
            trigger,
            place: Some(place),
        } => attach_at(port, body, spot, register, comp, trigger, place)?,
        UnderWay::Follows {
            register,
            comp,
            parts,
        } => return follow(port, line, body, spot, register, comp, parts),
    }
    Ok(None)
}

/// Makes a place, where a limit of the machine allows one more.
fn make_place<P: Port<Body = Body>>(
    port: &mut P,
    body: &mut Body,
) -> Result<Option<PlaceNo>, PortFault>
    requires { IsFree (P.sight port.old) (carry_of body.old) }
    ensures did { IfOk result (λ place. Did (P.sight port.old) (P.sight port.new) (carry_of body.old) (carry_of body.new)
        (event (fiber_of (carry_of body.old)) Call.NewPlace (placed place) ∷ [])) }
    ensures free { IfOk result (λ place. IfSome place (λ made. (comp trigger : ℕ) → NumbersFit (P.sight port.new).origin (P.sight port.new).front
        (fiber_of (carry_of body.old)) (Call.Attach made comp trigger))) }
    ensures calm { OnOk result (Calm (P.sight port.old) (P.sight port.new)) }
    ensures refused { IfErr result (λ fault. Refused fault (P.sight port.old) (P.sight port.new) (carry_of body.old) (carry_of body.new)) }
    ensures rest { IsSameRest body.old body.new }
{
    match new_place(port, body) {
        Ok(place) => Ok(Some(place)),
        Err(PortFault::Full) => Ok(None),
        Err(PortFault::Again) => Err(PortFault::Again),
        Err(PortFault::Memory) => Err(PortFault::Memory),
    }
}

/// Makes the place for a wait.
fn place_wait<P: Port<Body = Body>>(
    port: &mut P,
    body: &mut Body,
    spot: Spot,
    trigger: TriggerNo,
) -> Result<(), PortFault>
    requires port_of { (script : Tree) × IsPortOf script (P.sight port.old) }
    requires up { IsUp (P.sight port.old) body.old }
    requires free { body.old.owes ≡ [] }
    requires within { body.old.standing ≡ Standing.Within spot.block spot.place (UnderWay.Places trigger) }
    ensures on { (told : Option (List ℕ)) → IsOn (P.sight port.old) (P.sight port.new) body.old body.new told told }
    ensures lighter { OnOk result (weight body.new < weight body.old) }
    ensures free { OnOk result (body.new.owes ≡ []) }
    ensures calm { OnOk result (Calm (P.sight port.old) (P.sight port.new)) }
    ensures gave_up { IfErr result (λ fault. Faulted fault (P.sight port.old) (P.sight port.new)) }
{
    let place = make_place(port, body)?;
    body.stand(placed_for_wait(spot, trigger, place), body.steps());
    Ok(())
}

/// Where a wait goes on once its place was made, if it was.
fn placed_for_wait(spot: Spot, trigger: TriggerNo, place: Option<PlaceNo>) -> Standing
    requires { spot.place + 1 < 2 ^ 32 }
    ensures { result ≡ placed_for_wait spot trigger place }
{
    match place {
        Some(_) => spot.within(UnderWay::Awaits(Parts {
            trigger: Some(trigger),
            place,
            second: None,
            at: READY,
        })),
        None => spot.behind(Exit::Raised(LIMIT_MET)),
    }
}

/// Makes the first half of a wait, up to the arming of its trigger.
fn wait<P: Port<Body = Body>>(
    port: &mut P,
    body: &mut Body,
    spot: Spot,
    parts: Parts,
) -> Result<Option<Last>, PortFault>
    requires port_of { (script : Tree) × IsPortOf script (P.sight port.old) }
    requires up { IsUp (P.sight port.old) body.old }
    requires free { body.old.owes ≡ [] }
    requires within { body.old.standing ≡ Standing.Within spot.block spot.place (UnderWay.Awaits parts) }
    ensures on { (told : Option (List ℕ)) → IsOn (P.sight port.old) (P.sight port.new) body.old body.new told told }
    ensures step { IfOk result (λ last. IsStep (P.sight port.old) (P.sight port.new) body.old body.new last) }
    ensures free { OnOk result (body.new.owes ≡ []) }
    ensures calm { OnOk result (Calm (P.sight port.old) (P.sight port.new)) }
    ensures gave_up { IfErr result (λ fault. Faulted fault (P.sight port.old) (P.sight port.new)) }
{
    let mut parts = parts;
    let under = body.waits_under();
    match suspend(port, body, &under, &mut parts)? {
        Ahead::Go => {
            let way = UnderWay::Awaits(parts);
            body.stand(spot.within(way), body.steps());
            Ok(Some(Last::Park(spot, way)))
        }
        Ahead::Cancelled(code) => {
            body.stand(spot.behind(Exit::Raised(code)), body.steps());
            Ok(None)
        }
    }
}

/// Makes the second half of a wait, behind the arming of its trigger.
fn wake<P: Port<Body = Body>>(
    port: &mut P,
    body: &mut Body,
    spot: Spot,
    trigger: TriggerNo,
) -> Result<(), PortFault>
    requires port_of { (script : Tree) × IsPortOf script (P.sight port.old) }
    requires up { IsUp (P.sight port.old) body.old }
    requires free { body.old.owes ≡ [] }
    requires within { body.old.standing ≡ Standing.Within spot.block spot.place (UnderWay.Awake trigger) }
    ensures on { (told : Option (List ℕ)) → IsOn (P.sight port.old) (P.sight port.new) body.old body.new told told }
    ensures lighter { OnOk result (weight body.new < weight body.old) }
    ensures free { OnOk result (body.new.owes ≡ []) }
    ensures calm { OnOk result (Calm (P.sight port.old) (P.sight port.new)) }
    ensures gave_up { IfErr result (λ fault. Faulted fault (P.sight port.old) (P.sight port.new)) }
{
    let under = body.waits_under();
    let ahead = unsuspend(port, body, &under)?;
    body.stand(spot.behind(exit_of(ahead)), body.steps());
    Ok(())
}

/// How a wait ends.
fn exit_of(ahead: Ahead) -> Exit
    ensures { result ≡ exit_of ahead }
{
    match ahead {
        Ahead::Go => Exit::Next,
        Ahead::Cancelled(code) => Exit::Raised(code),
    }
}

/// Makes the place for an attachment.
fn place_attachment<P: Port<Body = Body>>(
    port: &mut P,
    body: &mut Body,
    spot: Spot,
    register: u8,
    comp: CompNo,
    trigger: TriggerNo,
) -> Result<(), PortFault>
    requires port_of { (script : Tree) × IsPortOf script (P.sight port.old) }
    requires up { IsUp (P.sight port.old) body.old }
    requires free { body.old.owes ≡ [] }
    requires within { body.old.standing ≡ Standing.Within spot.block spot.place (UnderWay.Attaches register comp trigger Option.None) }
    ensures on { (told : Option (List ℕ)) → IsOn (P.sight port.old) (P.sight port.new) body.old body.new told told }
    ensures lighter { OnOk result (weight body.new < weight body.old) }
    ensures free { OnOk result (body.new.owes ≡ []) }
    ensures calm { OnOk result (Calm (P.sight port.old) (P.sight port.new)) }
    ensures gave_up { IfErr result (λ fault. Faulted fault (P.sight port.old) (P.sight port.new)) }
{
    let place = make_place(port, body)?;
    let standing = placed_for_attachment(spot, register, comp, trigger, place);
    body.stand(standing, body.steps());
    Ok(())
}

/// Where an attachment goes on once its place was made, if it was.
fn placed_for_attachment(
    spot: Spot,
    register: u8,
    comp: CompNo,
    trigger: TriggerNo,
    place: Option<PlaceNo>,
) -> Standing
    requires { spot.place + 1 < 2 ^ 32 }
    ensures { result ≡ placed_for_attachment spot register comp trigger place }
{
    match place {
        Some(_) => spot.within(UnderWay::Attaches {
            register,
            comp,
            trigger,
            place,
        }),
        None => spot.behind(Exit::Raised(LIMIT_MET)),
    }
}

/// Attaches the trigger at the place that was made.
fn attach_at<P: Port<Body = Body>>(
    port: &mut P,
    body: &mut Body,
    spot: Spot,
    register: u8,
    comp: CompNo,
    trigger: TriggerNo,
    place: PlaceNo,
) -> Result<(), PortFault>
    requires port_of { (script : Tree) × IsPortOf script (P.sight port.old) }
    requires up { IsUp (P.sight port.old) body.old }
    requires free { body.old.owes ≡ [] }
    requires within { body.old.standing ≡ Standing.Within spot.block spot.place (UnderWay.Attaches register comp trigger (Option.Some place)) }
    ensures on { (told : Option (List ℕ)) → IsOn (P.sight port.old) (P.sight port.new) body.old body.new told told }
    ensures lighter { OnOk result (weight body.new < weight body.old) }
    ensures free { OnOk result (body.new.owes ≡ []) }
    ensures calm { OnOk result (Calm (P.sight port.old) (P.sight port.new)) }
    ensures gave_up { IfErr result (λ fault. Faulted fault (P.sight port.old) (P.sight port.new)) }
{
    let how = attach(port, body, place, comp, trigger)?;
    body.set_register(register, attached(how));
    body.stand(spot.behind(Exit::Next), body.steps());
    Ok(())
}
