//! Waiting for a computation.
ghost use Rattle.std.specs.Prelude.{◌≡◌, ◌≢◌, ◌<◌, ◌≤◌, ◌⊎◌, ℕ, IfErr, Ok, OnOk};
ghost use Rattle.std.specs.Bool.{OnFalse, OnTrue};
ghost use Rattle.pic_machine.specs.Following.{IsFollowing, following, following_at};
ghost use Rattle.pic_machine.specs.Lending.{Calm, Faulted};
ghost use Rattle.pic_machine.specs.Log.{log, own};
ghost use Rattle.pic_machine.specs.Sight.{fiber_of};
ghost use Rattle.fiber_await.specs.Doing.{IsFree, Ran, RanTelling};
ghost use Rattle.fiber_await.specs.Phases.{FollowGaveUp, Owns, Stands, Unless, done_or_at, followed_at};

use crate::ahead::{Ahead, CompAhead};
use crate::calls::{attach, new_place, peek, signal};
use crate::owed::tell;
use crate::ready::make_ready;
use crate::stage::{
    ARMING, AWAKE, FULL, LOOKING, MAKING, ONE_PLACE, PLACING, SLEEPY, TOLD, WAITING, WOKEN,
};
use crate::suspending::{suspend, unsuspend};
use pic_base::{CompNo, Outcome};
use pic_machine::{AttachReply, Parts, Port, PortFault, ReadyLine, Standing};

/// Waits until the computation is completed, as far as can be done in one turn. It begins with parts of
/// which nothing is made, and goes on from where the parts say that it is, also behind a refusal. Where it
/// says `Park`, the trigger of the parts is to be armed next, with `armed` parts for what comes behind.
/// `Full` where a limit of the machine was met, as an entry and the parts say, which ends the wait.
pub fn await_comp<P: Port, R: ReadyLine>(
    port: &mut P,
    line: &mut R,
    body: &mut P::Body,
    s: &Standing,
    comp: CompNo,
    parts: &mut Parts,
) -> Result<CompAhead, PortFault>
    requires free { IsFree (P.sight port.old) (P.Body.seen body.old) }
    requires comp { Stands (P.sight port.old) comp }
    requires current { Stands (P.sight port.old) s.now.current }
    requires following { IsFollowing (fiber_of (P.Body.seen body.old))
        (own (log (P.sight port.old).front (fiber_of (P.Body.seen body.old)))) parts.old }
    ensures ran { RanTelling (following s.now (fiber_of (P.Body.seen body.old)) comp)
        (P.sight port.old) (P.sight port.new) (P.Body.seen body.old) (P.Body.seen body.new)
        (R.told line.old) (R.told line.new)
        (following_at s.now parts.old.at parts.old) (followed_at s.now result parts.new) }
    ensures park { result ≡ Ok CompAhead.Park → parts.new.at ≡ 7 }
    ensures own { result ≡ Ok CompAhead.Park → IsFollowing (fiber_of (P.Body.seen body.new))
        (own (log (P.sight port.new).front (fiber_of (P.Body.seen body.new)))) parts.new }
    ensures calm { OnOk result (Calm (P.sight port.old) (P.sight port.new)) }
    ensures gave_up { IfErr result (λ fault. FollowGaveUp fault (P.sight port.old) (P.sight port.new) parts.new
        (IsFollowing (fiber_of (P.Body.seen body.new))
        (own (log (P.sight port.new).front (fiber_of (P.Body.seen body.new)))) parts.new)) }
    ensures rest { P.Body.same_rest body.old body.new }
{
    wake(port, body, s, parts)?;
    if let Some(outcome) = look_at(port, body, comp, parts)? {
        return Ok(CompAhead::Done(outcome));
    }
    get_ready(port, body, s, parts)?;
    if let Some(outcome) = attach_to(port, body, comp, parts)? {
        return Ok(CompAhead::Done(outcome));
    }
    fall_asleep(port, body, s, parts)?;
    if parts.at == ARMING {
        return Ok(CompAhead::Park);
    }
    give_up(port, line, body, parts)
}

/// The parts of a wait whose trigger is armed.
pub fn armed(parts: Parts) -> Parts
    ensures { result ≡ record parts { at = 9 } }
{
    Parts { at: AWAKE, ..parts }
}

/// Once the trigger was armed: learns whether the fiber is told of a cancellation.
fn wake<P: Port>(
    port: &mut P,
    body: &mut P::Body,
    s: &Standing,
    parts: &mut Parts,
) -> Result<(), PortFault>
    requires free { IsFree (P.sight port.old) (P.Body.seen body.old) }
    requires current { Stands (P.sight port.old) s.now.current }
    requires at { parts.old.at < 11 }
    requires going { parts.old.at ≢ 4 }
    requires own { Owns (P.sight port.old) (P.Body.seen body.old) parts.old }
    ensures ran { (comp : ℕ) → Ran (following s.now (fiber_of (P.Body.seen body.old)) comp)
        (P.sight port.old) (P.sight port.new) (P.Body.seen body.old) (P.Body.seen body.new)
        (following_at s.now parts.old.at parts.old) (following_at s.now parts.new.at parts.new) }
    ensures own { Owns (P.sight port.new) (P.Body.seen body.new) parts.new }
    ensures at { parts.new.at < 11 }
    ensures going { parts.new.at ≢ 4 }
    ensures woken { OnOk result (parts.new.at ≢ 9) }
    ensures calm { OnOk result (Calm (P.sight port.old) (P.sight port.new)) }
    ensures gave_up { IfErr result (λ fault. Faulted fault (P.sight port.old) (P.sight port.new)) }
    ensures rest { P.Body.same_rest body.old body.new }
{
    if parts.at != AWAKE {
        return Ok(());
    }
    match unsuspend(port, body, s)? {
        Ahead::Go => parts.at = WOKEN,
        Ahead::Cancelled(code) => {
            parts.second = Some(code);
            parts.at = TOLD;
        }
    }
    Ok(())
}

/// Looks at the computation, where that is next, and tells how it was completed, if it was.
fn look_at<P: Port>(
    port: &mut P,
    body: &mut P::Body,
    comp: CompNo,
    parts: &mut Parts,
) -> Result<Option<Outcome>, PortFault>
    requires free { IsFree (P.sight port.old) (P.Body.seen body.old) }
    requires comp { Stands (P.sight port.old) comp }
    requires at { parts.old.at < 11 }
    requires going { parts.old.at ≢ 4 }
    requires woken { parts.old.at ≢ 9 }
    requires own { Owns (P.sight port.old) (P.Body.seen body.old) parts.old }
    ensures ran { (s : Standing) → Ran (following s (fiber_of (P.Body.seen body.old)) comp)
        (P.sight port.old) (P.sight port.new) (P.Body.seen body.old) (P.Body.seen body.new)
        (following_at s parts.old.at parts.old) (done_or_at s result parts.new) }
    ensures own { Unless result (Owns (P.sight port.new) (P.Body.seen body.new) parts.new) }
    ensures at { parts.new.at < 11 }
    ensures going { parts.new.at ≢ 4 }
    ensures on { OnOk result (Unless result ((0 < parts.new.at) × (parts.new.at < 9))) }
    ensures calm { OnOk result (Calm (P.sight port.old) (P.sight port.new)) }
    ensures gave_up { IfErr result (λ fault. Faulted fault (P.sight port.old) (P.sight port.new)) }
    ensures rest { P.Body.same_rest body.old body.new }
{
    if !is_to_look(parts.at) {
        return Ok(None);
    }
    match peek(port, body, comp)? {
        Some(outcome) => Ok(Some(outcome)),
        None => {
            parts.at = MAKING;
            Ok(None)
        }
    }
}

/// Whether a wait that is so far looks at the computation next.
fn is_to_look(at: u8) -> bool
    ensures yes { OnTrue result ((at ≡ 0) ⊎ (at ≡ 10)) }
    ensures no { OnFalse result ((at ≢ 0) × (at ≢ 10)) }
{
    at == LOOKING || at == WOKEN
}

/// Makes the trigger and both places, where that is next.
fn get_ready<P: Port>(
    port: &mut P,
    body: &mut P::Body,
    s: &Standing,
    parts: &mut Parts,
) -> Result<(), PortFault>
    requires free { IsFree (P.sight port.old) (P.Body.seen body.old) }
    requires at { (0 < parts.old.at) × (parts.old.at < 9) }
    requires going { parts.old.at ≢ 4 }
    requires own { Owns (P.sight port.old) (P.Body.seen body.old) parts.old }
    ensures ran { (comp : ℕ) → Ran (following s.now (fiber_of (P.Body.seen body.old)) comp)
        (P.sight port.old) (P.sight port.new) (P.Body.seen body.old) (P.Body.seen body.new)
        (following_at s.now parts.old.at parts.old) (following_at s.now parts.new.at parts.new) }
    ensures own { Owns (P.sight port.new) (P.Body.seen body.new) parts.new }
    ensures at { parts.new.at < 9 }
    ensures ready { OnOk result (4 < parts.new.at) }
    ensures calm { OnOk result (Calm (P.sight port.old) (P.sight port.new)) }
    ensures gave_up { IfErr result (λ fault. FollowGaveUp fault (P.sight port.old) (P.sight port.new) parts.new
        (parts.new.at ≢ 4)) }
    ensures rest { P.Body.same_rest body.old body.new }
{
    if parts.at > ONE_PLACE {
        return Ok(());
    }
    make_first(port, body, s, parts)?;
    make_second(port, body, parts)
}

/// Makes the trigger and the place of a wait for it.
fn make_first<P: Port>(
    port: &mut P,
    body: &mut P::Body,
    s: &Standing,
    parts: &mut Parts,
) -> Result<(), PortFault>
    requires free { IsFree (P.sight port.old) (P.Body.seen body.old) }
    requires at { (0 < parts.old.at) × (parts.old.at < 4) }
    requires own { Owns (P.sight port.old) (P.Body.seen body.old) parts.old }
    ensures ran { (comp : ℕ) → Ran (following s.now (fiber_of (P.Body.seen body.old)) comp)
        (P.sight port.old) (P.sight port.new) (P.Body.seen body.old) (P.Body.seen body.new)
        (following_at s.now parts.old.at parts.old) (following_at s.now parts.new.at parts.new) }
    ensures own { Owns (P.sight port.new) (P.Body.seen body.new) parts.new }
    ensures at { parts.new.at < 5 }
    ensures ready { OnOk result (parts.new.at ≡ 3) }
    ensures calm { OnOk result (Calm (P.sight port.old) (P.sight port.new)) }
    ensures gave_up { IfErr result (λ fault. FollowGaveUp fault (P.sight port.old) (P.sight port.new) parts.new
        (parts.new.at ≢ 4)) }
    ensures rest { P.Body.same_rest body.old body.new }
{
    let mut making = Parts {
        at: parts.at - MAKING,
        ..*parts
    };
    let ready = make_ready(port, body, s, &mut making);
    *parts = Parts {
        at: making.at + MAKING,
        ..making
    };
    ready
}

/// Makes the second place, at which the computation gets the trigger.
fn make_second<P: Port>(
    port: &mut P,
    body: &mut P::Body,
    parts: &mut Parts,
) -> Result<(), PortFault>
    requires free { IsFree (P.sight port.old) (P.Body.seen body.old) }
    requires at { parts.old.at ≡ 3 }
    requires own { Owns (P.sight port.old) (P.Body.seen body.old) parts.old }
    ensures ran { (s : Standing) → (comp : ℕ) → Ran (following s (fiber_of (P.Body.seen body.old)) comp)
        (P.sight port.old) (P.sight port.new) (P.Body.seen body.old) (P.Body.seen body.new)
        (following_at s parts.old.at parts.old) (following_at s parts.new.at parts.new) }
    ensures own { Owns (P.sight port.new) (P.Body.seen body.new) parts.new }
    ensures at { parts.new.at < 6 }
    ensures ready { OnOk result (parts.new.at ≡ 5) }
    ensures calm { OnOk result (Calm (P.sight port.old) (P.sight port.new)) }
    ensures gave_up { IfErr result (λ fault. FollowGaveUp fault (P.sight port.old) (P.sight port.new) parts.new
        (parts.new.at ≢ 4)) }
    ensures rest { P.Body.same_rest body.old body.new }
{
    match new_place(port, body) {
        Ok(place) => {
            parts.second = Some(place);
            parts.at = PLACING;
            Ok(())
        }
        Err(PortFault::Full) => {
            parts.at = FULL;
            Err(PortFault::Full)
        }
        Err(PortFault::Again) => Err(PortFault::Again),
        Err(PortFault::Memory) => Err(PortFault::Memory),
    }
}

/// Attaches the trigger to the computation, where that is next, and tells how that was completed, if it was.
fn attach_to<P: Port>(
    port: &mut P,
    body: &mut P::Body,
    comp: CompNo,
    parts: &mut Parts,
) -> Result<Option<Outcome>, PortFault>
    requires free { IsFree (P.sight port.old) (P.Body.seen body.old) }
    requires comp { Stands (P.sight port.old) comp }
    requires at { (4 < parts.old.at) × (parts.old.at < 9) }
    requires own { Owns (P.sight port.old) (P.Body.seen body.old) parts.old }
    ensures ran { (s : Standing) → Ran (following s (fiber_of (P.Body.seen body.old)) comp)
        (P.sight port.old) (P.sight port.new) (P.Body.seen body.old) (P.Body.seen body.new)
        (following_at s parts.old.at parts.old) (done_or_at s result parts.new) }
    ensures own { Unless result (Owns (P.sight port.new) (P.Body.seen body.new) parts.new) }
    ensures at { (4 < parts.new.at) × (parts.new.at < 9) }
    ensures on { OnOk result (Unless result (5 < parts.new.at)) }
    ensures calm { OnOk result (Calm (P.sight port.old) (P.sight port.new)) }
    ensures gave_up { IfErr result (λ fault. Faulted fault (P.sight port.old) (P.sight port.new)) }
    ensures rest { P.Body.same_rest body.old body.new }
{
    if parts.at != PLACING {
        return Ok(None);
    }
    let (Some(trigger), Some(place)) = (parts.trigger, parts.second) else {
        unreachable!("both are made")
    };
    match attach(port, body, place, comp, trigger)? {
        AttachReply::Attached => {
            parts.at = SLEEPY;
            Ok(None)
        }
        AttachReply::Completed(outcome) => Ok(Some(outcome)),
    }
}

/// Makes the first half of the wait for the trigger, up to its arming, unless the fiber was told.
fn fall_asleep<P: Port>(
    port: &mut P,
    body: &mut P::Body,
    s: &Standing,
    parts: &mut Parts,
) -> Result<(), PortFault>
    requires free { IsFree (P.sight port.old) (P.Body.seen body.old) }
    requires current { Stands (P.sight port.old) s.now.current }
    requires at { (5 < parts.old.at) × (parts.old.at < 9) }
    requires own { Owns (P.sight port.old) (P.Body.seen body.old) parts.old }
    ensures ran { (comp : ℕ) → Ran (following s.now (fiber_of (P.Body.seen body.old)) comp)
        (P.sight port.old) (P.sight port.new) (P.Body.seen body.old) (P.Body.seen body.new)
        (following_at s.now parts.old.at parts.old) (following_at s.now parts.new.at parts.new) }
    ensures own { Owns (P.sight port.new) (P.Body.seen body.new) parts.new }
    ensures at { (5 < parts.new.at) × (parts.new.at < 9) }
    ensures on { OnOk result (6 < parts.new.at) }
    ensures calm { OnOk result (Calm (P.sight port.old) (P.sight port.new)) }
    ensures gave_up { IfErr result (λ fault. Faulted fault (P.sight port.old) (P.sight port.new)) }
    ensures rest { P.Body.same_rest body.old body.new }
{
    if parts.at == TOLD {
        return Ok(());
    }
    let mut waiting = Parts {
        at: parts.at - WAITING,
        ..*parts
    };
    match suspend(port, body, s, &mut waiting)? {
        Ahead::Go => parts.at = ARMING,
        Ahead::Cancelled(code) => {
            parts.second = Some(code);
            parts.at = TOLD;
        }
    }
    Ok(())
}

/// Signals the trigger of a fiber that was told, so that what is attached wakes nobody later.
fn give_up<P: Port, R: ReadyLine>(
    port: &mut P,
    line: &mut R,
    body: &mut P::Body,
    parts: &Parts,
) -> Result<CompAhead, PortFault>
    requires free { IsFree (P.sight port.old) (P.Body.seen body.old) }
    requires at { parts.now.at ≡ 8 }
    requires own { Owns (P.sight port.old) (P.Body.seen body.old) parts.now }
    ensures ran { (s : Standing) → (comp : ℕ) → RanTelling (following s (fiber_of (P.Body.seen body.old)) comp)
        (P.sight port.old) (P.sight port.new) (P.Body.seen body.old) (P.Body.seen body.new)
        (R.told line.old) (R.told line.new)
        (following_at s parts.now.at parts.now) (followed_at s result parts.now) }
    ensures over { OnOk result (result ≢ Ok CompAhead.Park) }
    ensures own { Owns (P.sight port.new) (P.Body.seen body.new) parts.now }
    ensures calm { OnOk result (Calm (P.sight port.old) (P.sight port.new)) }
    ensures gave_up { IfErr result (λ fault. Faulted fault (P.sight port.old) (P.sight port.new)) }
    ensures rest { P.Body.same_rest body.old body.new }
{
    let (Some(trigger), Some(code)) = (parts.trigger, parts.second) else {
        unreachable!("both are kept")
    };
    let how = signal(port, body, trigger)?;
    tell(line, how);
    Ok(CompAhead::Cancelled(code))
}
