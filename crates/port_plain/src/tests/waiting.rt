//! Triggers, places and attachments, and fibers that wait.
use super::entry;
use super::home::{In, main_out};
use super::out::{Out, Parked};
use pic_base::{Action, Duty, Memory, Outcome};
use pic_machine::{AttachReply, Call, CompleteReply, Reply, SignalReply, TrigState};
use std::process::Abort;
use std::test::Fail;

#[test]
fn triggers_are_made_up_to_the_limit(rt: HostRuntime) -> Result<(), Fail> {
    let mut main = main_out(rt.alloc())?;
    make_triggers(&rt, &mut main)
}

/// Triggers 0 and 1 stand, and there may be one more.
fn make_triggers(rt: &impl Abort, main: &mut Out) -> Result<(), Fail> {
    let trigger = main.new_trigger()?;
    assert_eq!(rt; trigger, Some(2));
    assert_eq!(rt;
        main.port.history().last(),
        Some(entry(1, Call::NewTrigger, Reply::Made(2)))
    );
    assert_eq!(rt; main.body.noted().last(), None);
    let trigger = main.new_trigger()?;
    assert_eq!(rt; trigger, None);
    let full = Some(entry(1, Call::NewTrigger, Reply::Full));
    assert_eq!(rt; main.port.history().last(), full);
    assert_eq!(rt; main.body.noted().last(), full);
    Ok(())
}

#[test]
fn places_are_made_up_to_the_limit(rt: HostRuntime) -> Result<(), Fail> {
    let mut main = main_out(rt.alloc())?;
    make_places(&rt, &mut main)
}

/// There may be three places.
fn make_places(rt: &impl Abort, main: &mut Out) -> Result<(), Fail> {
    let first = main.new_place()?;
    assert_eq!(rt; first, Some(0));
    let second = main.new_place()?;
    assert_eq!(rt; second, Some(1));
    let third = main.new_place()?;
    assert_eq!(rt; third, Some(2));
    assert_eq!(rt;
        main.port.history().last(),
        Some(entry(1, Call::NewPlace, Reply::Made(2)))
    );
    let fourth = main.new_place()?;
    assert_eq!(rt; fourth, None);
    let full = Some(entry(1, Call::NewPlace, Reply::Full));
    assert_eq!(rt; main.port.history().last(), full);
    assert_eq!(rt; main.body.noted().len(), 1);
    assert_eq!(rt; main.body.noted().last(), full);
    Ok(())
}

#[test]
fn a_suspended_fiber_goes_on_once_its_trigger_is_signalled(rt: HostRuntime) -> Result<(), Fail> {
    let mut main = main_out(rt.alloc())?;
    let _ = main.fork(rt.alloc())?;
    let Parked::Asleep(home) = main.park(0)? else {
        return Err(Memory.into());
    };
    let Err(home) = home.claim(1)? else {
        return Err(Memory.into());
    };
    let Ok(child) = home.claim(2)? else {
        return Err(Memory.into());
    };
    let home = resume_main(&rt, child)?;
    let Ok(main) = home.claim(1)? else {
        return Err(Memory.into());
    };
    let Parked::Signalled(main) = main.park(0)? else {
        return Err(Memory.into());
    };
    assert_eq!(rt; main.body.noted().len(), 3);
    Ok(())
}

/// The child finds that main waits for trigger 0, and signals that trigger.
fn resume_main(rt: &impl Abort, child: Out) -> Result<In, Fail> {
    let mut child = child;
    let state = child.look(0)?;
    assert_eq!(rt; state, TrigState::Awaiting(Action::Resume(1)));
    let Parked::Taken(mut child) = child.park(0)? else {
        return Err(Memory.into());
    };
    signal_all(rt, &mut child)?;
    Ok(child.lay()?)
}

/// Main waits for trigger 0, and nobody for trigger 1.
fn signal_all(rt: &impl Abort, child: &mut Out) -> Result<(), Fail> {
    let how = child.signal(0)?;
    assert_eq!(rt; how, SignalReply::Acted(Action::Resume(1)));
    let how = child.signal(0)?;
    assert_eq!(rt; how, SignalReply::Already);
    let how = child.signal(1)?;
    assert_eq!(rt; how, SignalReply::Plain);
    let state = child.look(0)?;
    assert_eq!(rt; state, TrigState::Signalled);
    Ok(())
}

#[test]
fn a_completion_owes_a_signal_to_all_that_is_attached(rt: HostRuntime) -> Result<(), Fail> {
    let mut main = main_out(rt.alloc())?;
    complete_root(&rt, &mut main)?;
    pay_signals(&rt, &mut main)?;
    complete_late(&rt, &mut main)
}

/// Both triggers are attached to the root.
fn complete_root(rt: &impl Abort, main: &mut Out) -> Result<(), Fail> {
    let state = main.look(0)?;
    assert_eq!(rt; state, TrigState::Initial);
    let how = main.attach(0)?;
    assert_eq!(rt; how, AttachReply::Attached);
    let how = main.attach(1)?;
    assert_eq!(rt; how, AttachReply::Attached);
    let how = main.complete(Outcome::Returned(9))?;
    assert_eq!(rt; how, CompleteReply::Won);
    Ok(())
}

/// The one that was attached last is owed first.
fn pay_signals(rt: &impl Abort, main: &mut Out) -> Result<(), Fail> {
    assert_eq!(rt; main.first(), Some(Duty::Signal(1)));
    let how = main.pay(1)?;
    assert_eq!(rt; how, SignalReply::Plain);
    assert_eq!(rt; main.first(), Some(Duty::Signal(0)));
    let how = main.pay(0)?;
    assert_eq!(rt; how, SignalReply::Plain);
    assert_eq!(rt; main.first(), None);
    Ok(())
}

/// The root's outcome stands.
fn complete_late(rt: &impl Abort, main: &mut Out) -> Result<(), Fail> {
    let how = main.complete(Outcome::Cancelled(3))?;
    assert_eq!(rt; how, CompleteReply::Lost(Outcome::Returned(9)));
    let how = main.attach(0)?;
    assert_eq!(rt; how, AttachReply::Completed(Outcome::Returned(9)));
    assert_eq!(rt; main.first(), None);
    Ok(())
}
