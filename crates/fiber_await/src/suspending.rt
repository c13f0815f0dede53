//! The two halves of a wait, around the arming by which a port suspends the fiber.
ghost use Rattle.std.specs.Prelude.{◌≡◌, ◌≢◌, ◌⊎◌, ℕ, IfErr, IfSome, None, Ok, OnErr, OnOk};
ghost use Rattle.pic_machine.specs.History.{MayMake};
ghost use Rattle.pic_machine.specs.Lending.{Calm};
ghost use Rattle.pic_machine.specs.Sight.{fiber_of};
ghost use Rattle.pic_machine.specs.Waits.{arming, awake, waiting, waiting_at};
ghost use Rattle.fiber_await.specs.Doing.{IsFree, Ran};
ghost use Rattle.fiber_await.specs.Refusing.{Refused};
ghost use Rattle.fiber_await.specs.Phases.{attach_tells, peek_tells, suspended_at, trigger_of, unsuspended_at};

use crate::ahead::Ahead;
use crate::calls::{attach, peek};
use crate::stage::ATTACHED;
use pic_base::Outcome;
use pic_machine::{AttachReply, Call, Parts, Port, PortFault, Standing};

/// The first half of a wait for the trigger of the parts: attaches it to the fiber's current computation,
/// where a place was made for that. Where it says `Go`, the trigger is to be armed next.
pub fn suspend<P: Port>(
    port: &mut P,
    body: &mut P::Body,
    s: &Standing,
    parts: &mut Parts,
) -> Result<Ahead, PortFault>
    requires free { IsFree (P.sight port.old) (P.Body.seen body.old) }
    requires at { (parts.old.at ≡ 2) ⊎ (parts.old.at ≡ 3) }
    requires trigger { parts.old.trigger ≢ None }
    requires may { IfSome parts.old.place (λ place. parts.old.at ≡ 2
        → MayMake (P.sight port.old).origin (P.sight port.old).front (fiber_of (P.Body.seen body.old))
        (Call.Attach place s.now.current (trigger_of parts.old))) }
    ensures ran { Ran (waiting s.now (fiber_of (P.Body.seen body.old)) (trigger_of parts.old))
        (P.sight port.old) (P.sight port.new) (P.Body.seen body.old) (P.Body.seen body.new)
        (waiting_at s.now parts.old.at parts.old) (suspended_at s.now result parts.new) }
    ensures go { result ≡ Ok Ahead.Go → waiting_at s.now parts.new.at parts.new ≡ arming }
    ensures parts { parts.new ≡ record parts.old { at = parts.new.at } }
    ensures calm { OnOk result (Calm (P.sight port.old) (P.sight port.new)) }
    ensures at { (parts.new.at ≡ 2) ⊎ (parts.new.at ≡ 3) }
    ensures kept { OnErr result (parts.new ≡ parts.old) }
    ensures refused { IfErr result (λ fault. Refused fault (P.sight port.old) (P.sight port.new)
        (P.Body.seen body.old) (P.Body.seen body.new)) }
    ensures rest { P.Body.same_rest body.old body.new }
{
    if parts.at == ATTACHED {
        return Ok(Ahead::Go);
    }
    let Some(place) = parts.place else {
        return Ok(Ahead::Go);
    };
    let Some(trigger) = parts.trigger else {
        unreachable!("the trigger is made")
    };
    match told_by_attach(attach(port, body, place, s.current, trigger)?) {
        Ahead::Go => {
            parts.at = ATTACHED;
            Ok(Ahead::Go)
        }
        Ahead::Cancelled(code) => Ok(Ahead::Cancelled(code)),
    }
}

/// The second half, once the trigger was armed and the fiber goes on: looks whether its current
/// computation was cancelled, where the fiber is to be told.
pub fn unsuspend<P: Port>(
    port: &mut P,
    body: &mut P::Body,
    s: &Standing,
) -> Result<Ahead, PortFault>
    requires free { IsFree (P.sight port.old) (P.Body.seen body.old) }
    requires may { MayMake (P.sight port.old).origin (P.sight port.old).front
        (fiber_of (P.Body.seen body.old)) (Call.Peek s.now.current) }
    ensures ran { (trigger : ℕ) → Ran (waiting s.now (fiber_of (P.Body.seen body.old)) trigger)
        (P.sight port.old) (P.sight port.new) (P.Body.seen body.old) (P.Body.seen body.new)
        (awake s.now) (unsuspended_at s.now result) }
    ensures calm { OnOk result (Calm (P.sight port.old) (P.sight port.new)) }
    ensures refused { IfErr result (λ fault. Refused fault (P.sight port.old) (P.sight port.new)
        (P.Body.seen body.old) (P.Body.seen body.new)) }
    ensures rest { P.Body.same_rest body.old body.new }
{
    if !s.permitted {
        return Ok(Ahead::Go);
    }
    Ok(told_by_peek(peek(port, body, s.current)?))
}

/// What the reply to an attachment tells of the computation.
fn told_by_attach(how: AttachReply) -> Ahead
    ensures { result ≡ attach_tells how }
{
    match how {
        AttachReply::Completed(Outcome::Cancelled(code)) => Ahead::Cancelled(code),
        _ => Ahead::Go,
    }
}

/// What a look at a computation tells.
fn told_by_peek(seen: Option<Outcome>) -> Ahead
    ensures { result ≡ peek_tells seen }
{
    match seen {
        Some(Outcome::Cancelled(code)) => Ahead::Cancelled(code),
        _ => Ahead::Go,
    }
}
