//! Making ready to wait.
ghost use Rattle.std.specs.Prelude.{◌≡◌, ◌<◌, ◌⊎◌, IfErr, OnOk};
ghost use Rattle.pic_machine.specs.Lending.{Calm};
ghost use Rattle.pic_machine.specs.Waits.{making, making_at};
ghost use Rattle.fiber_await.specs.Doing.{IsFree, Ran};
ghost use Rattle.fiber_await.specs.Phases.{HasTrigger, MakesOwn};
ghost use Rattle.fiber_await.specs.Refusing.{GaveUp};

use crate::calls::{new_place, new_trigger};
use crate::stage::{ALL, LIMIT, NOTHING, TRIGGER};
use pic_machine::{Parts, Port, PortFault, Standing};

/// Makes what a wait needs: a trigger, and a place for its attachment where the fiber is to be told of a
/// cancellation. It goes on from where the parts say that it is; `Full` where a limit of the machine was
/// met, as an entry and the parts say.
pub fn make_ready<P: Port>(
    port: &mut P,
    body: &mut P::Body,
    s: &Standing,
    parts: &mut Parts,
) -> Result<(), PortFault>
    requires free { IsFree (P.sight port.old) (P.Body.seen body.old) }
    requires at { parts.old.at < 3 }
    requires trigger { HasTrigger parts.old }
    ensures ran { Ran (making s.now) (P.sight port.old) (P.sight port.new)
        (P.Body.seen body.old) (P.Body.seen body.new)
        (making_at parts.old.at parts.old) (making_at parts.new.at parts.new) }
    ensures ready { OnOk result (parts.new.at ≡ 2) }
    ensures trigger { HasTrigger parts.new }
    ensures own { MakesOwn (P.sight port.old) (P.sight port.new) (P.Body.seen body.old) (P.Body.seen body.new) parts.old parts.new }
    ensures at { parts.new.at < 4 }
    ensures second { parts.new.second ≡ parts.old.second }
    ensures calm { OnOk result (Calm (P.sight port.old) (P.sight port.new)) }
    ensures gave_up { IfErr result (λ fault. GaveUp fault parts.new.at (P.sight port.old) (P.sight port.new)) }
    ensures rest { P.Body.same_rest body.old body.new }
{
    make_trigger(port, body, s, parts)?;
    make_place(port, body, s, parts)
}

/// Makes the trigger, where none is made.
fn make_trigger<P: Port>(
    port: &mut P,
    body: &mut P::Body,
    s: &Standing,
    parts: &mut Parts,
) -> Result<(), PortFault>
    requires free { IsFree (P.sight port.old) (P.Body.seen body.old) }
    requires at { parts.old.at < 3 }
    requires trigger { HasTrigger parts.old }
    ensures ran { Ran (making s.now) (P.sight port.old) (P.sight port.new)
        (P.Body.seen body.old) (P.Body.seen body.new)
        (making_at parts.old.at parts.old) (making_at parts.new.at parts.new) }
    ensures made { OnOk result ((parts.new.at ≡ 1) ⊎ (parts.new.at ≡ 2)) }
    ensures trigger { HasTrigger parts.new }
    ensures own { MakesOwn (P.sight port.old) (P.sight port.new) (P.Body.seen body.old) (P.Body.seen body.new) parts.old parts.new }
    ensures at { parts.new.at < 4 }
    ensures second { parts.new.second ≡ parts.old.second }
    ensures calm { OnOk result (Calm (P.sight port.old) (P.sight port.new)) }
    ensures gave_up { IfErr result (λ fault. GaveUp fault parts.new.at (P.sight port.old) (P.sight port.new)) }
    ensures rest { P.Body.same_rest body.old body.new }
{
    if parts.at != NOTHING {
        return Ok(());
    }
    match new_trigger(port, body) {
        Ok(trigger) => {
            parts.trigger = Some(trigger);
            parts.place = None;
            if s.permitted {
                parts.at = TRIGGER;
                return Ok(());
            }
            parts.at = ALL;
            Ok(())
        }
        Err(PortFault::Full) => {
            parts.at = LIMIT;
            Err(PortFault::Full)
        }
        Err(PortFault::Again) => Err(PortFault::Again),
        Err(PortFault::Memory) => Err(PortFault::Memory),
    }
}

/// Makes the place, where one is wanted still.
fn make_place<P: Port>(
    port: &mut P,
    body: &mut P::Body,
    s: &Standing,
    parts: &mut Parts,
) -> Result<(), PortFault>
    requires free { IsFree (P.sight port.old) (P.Body.seen body.old) }
    requires at { (parts.old.at ≡ 1) ⊎ (parts.old.at ≡ 2) }
    requires trigger { HasTrigger parts.old }
    ensures ran { Ran (making s.now) (P.sight port.old) (P.sight port.new)
        (P.Body.seen body.old) (P.Body.seen body.new)
        (making_at parts.old.at parts.old) (making_at parts.new.at parts.new) }
    ensures ready { OnOk result (parts.new.at ≡ 2) }
    ensures trigger { HasTrigger parts.new }
    ensures own { MakesOwn (P.sight port.old) (P.sight port.new) (P.Body.seen body.old) (P.Body.seen body.new) parts.old parts.new }
    ensures at { parts.new.at < 4 }
    ensures second { parts.new.second ≡ parts.old.second }
    ensures calm { OnOk result (Calm (P.sight port.old) (P.sight port.new)) }
    ensures gave_up { IfErr result (λ fault. GaveUp fault parts.new.at (P.sight port.old) (P.sight port.new)) }
    ensures rest { P.Body.same_rest body.old body.new }
{
    if parts.at == ALL {
        return Ok(());
    }
    match new_place(port, body) {
        Ok(place) => {
            parts.place = Some(place);
            parts.at = ALL;
            Ok(())
        }
        Err(PortFault::Full) => {
            parts.at = LIMIT;
            Err(PortFault::Full)
        }
        Err(PortFault::Again) => Err(PortFault::Again),
        Err(PortFault::Memory) => Err(PortFault::Memory),
    }
}
