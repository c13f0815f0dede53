use super::*;
use pic_base::{Action, Duty, Limits, Outcome};
use std::test::Fail;

/// A start with two triggers and two computations, where one more fiber, one more trigger and two places
/// may be made.
const START: Start = Start {
    triggers: 2,
    comps: 2,
    text: 0,
    limits: Limits {
        fibers: 2,
        triggers: 3,
        places: 2,
        comps: 2,
    },
};

#[test]
fn a_computation_is_completed_once(rt: HostRuntime) -> Result<(), Fail> {
    let start = START;
    let mut world = World::start(rt.alloc(), &start)?;
    let won = Call::Complete {
        comp: 1,
        outcome: Outcome::Returned(5),
    };
    let lost = Call::Complete {
        comp: 1,
        outcome: Outcome::Cancelled(7),
    };
    assert_eq!(rt; world.apply(1, Call::Peek(1))?, Reply::Peeked(None));
    assert_eq!(rt; world.apply(1, won)?, Reply::Completed(CompleteReply::Won));
    assert_eq!(rt;
        world.apply(1, lost)?,
        Reply::Completed(CompleteReply::Lost(Outcome::Returned(5)))
    );
    assert_eq!(rt;
        world.apply(1, Call::Peek(1))?,
        Reply::Peeked(Some(Outcome::Returned(5)))
    );
    assert_eq!(rt;
        world.apply(1, Call::End(Outcome::Returned(0)))?,
        Reply::Plain
    );
    Ok(())
}

#[test]
fn fibers_are_made_up_to_the_limit(rt: HostRuntime) -> Result<(), Fail> {
    let start = START;
    let mut world = World::start(rt.alloc(), &start)?;
    let fork = Call::Fork { text: 1, value: 7 };
    assert_eq!(rt; world.apply(1, fork)?, Reply::Made(2));
    assert_eq!(rt; world.apply(1, fork)?, Reply::Full);
    assert_eq!(rt; world.apply(2, fork)?, Reply::Full);
    assert_eq!(rt; world.apply(1, Call::Yield)?, Reply::Plain);
    assert_eq!(rt; world.is_live(0), false);
    assert_eq!(rt; world.is_live(1), true);
    assert_eq!(rt; world.is_live(2), true);
    assert_eq!(rt; world.is_live(3), false);
    Ok(())
}

#[test]
fn a_world_is_final_once_all_have_ended(rt: HostRuntime) -> Result<(), Fail> {
    let start = START;
    let mut world = World::start(rt.alloc(), &start)?;
    let end = Call::End(Outcome::Returned(0));
    assert_eq!(rt;
        world.apply(1, Call::Fork { text: 1, value: 7 })?,
        Reply::Made(2)
    );
    assert_eq!(rt; world.apply(1, end)?, Reply::Plain);
    assert_eq!(rt; world.is_final(), false);
    assert_eq!(rt; world.apply(2, end)?, Reply::Plain);
    assert_eq!(rt; world.is_final(), true);
    Ok(())
}

#[test]
fn triggers_and_places_are_made_up_to_the_limit(rt: HostRuntime) -> Result<(), Fail> {
    let start = START;
    let mut world = World::start(rt.alloc(), &start)?;
    assert_eq!(rt; world.apply(1, Call::NewTrigger)?, Reply::Made(2));
    assert_eq!(rt; world.apply(1, Call::NewTrigger)?, Reply::Full);
    assert_eq!(rt;
        world.apply(1, Call::Look(2))?,
        Reply::Seen(TrigState::Initial)
    );
    assert_eq!(rt; world.apply(1, Call::NewPlace)?, Reply::Made(0));
    assert_eq!(rt; world.apply(1, Call::NewPlace)?, Reply::Made(1));
    assert_eq!(rt; world.apply(1, Call::NewPlace)?, Reply::Full);
    Ok(())
}

#[test]
fn a_signal_resumes_who_waits(rt: HostRuntime) -> Result<(), Fail> {
    let start = START;
    let mut world = World::start(rt.alloc(), &start)?;
    let resume = Action::Resume(1);
    let arm = Call::Arm {
        trigger: 0,
        action: resume,
    };
    assert_eq!(rt;
        world.apply(1, Call::Fork { text: 1, value: 7 })?,
        Reply::Made(2)
    );
    assert_eq!(rt; world.apply(1, arm)?, Reply::Armed(ArmReply::Set));
    assert_eq!(rt; world.is_live(1), false);
    assert_eq!(rt;
        world.apply(2, Call::Look(0))?,
        Reply::Seen(TrigState::Awaiting(resume))
    );
    assert_eq!(rt;
        world.apply(2, Call::Signal(0))?,
        Reply::Signalled(SignalReply::Acted(resume))
    );
    assert_eq!(rt; world.is_live(1), true);
    assert_eq!(rt; world.apply(1, arm)?, Reply::Armed(ArmReply::Signalled));
    assert_eq!(rt; world.is_live(1), true);
    Ok(())
}

#[test]
fn a_trigger_has_one_who_awaits_it(rt: HostRuntime) -> Result<(), Fail> {
    let start = START;
    let mut world = World::start(rt.alloc(), &start)?;
    let first = Call::Arm {
        trigger: 0,
        action: Action::Resume(1),
    };
    let second = Call::Arm {
        trigger: 0,
        action: Action::Resume(2),
    };
    assert_eq!(rt;
        world.apply(1, Call::Fork { text: 1, value: 7 })?,
        Reply::Made(2)
    );
    assert_eq!(rt; world.apply(1, first)?, Reply::Armed(ArmReply::Set));
    assert_eq!(rt; world.apply(2, second)?, Reply::Armed(ArmReply::Taken));
    assert_eq!(rt; world.is_live(2), true);
    Ok(())
}

#[test]
fn a_trigger_is_signalled_once(rt: HostRuntime) -> Result<(), Fail> {
    let start = START;
    let mut world = World::start(rt.alloc(), &start)?;
    assert_eq!(rt;
        world.apply(1, Call::Signal(1))?,
        Reply::Signalled(SignalReply::Plain)
    );
    assert_eq!(rt;
        world.apply(1, Call::Signal(1))?,
        Reply::Signalled(SignalReply::Already)
    );
    assert_eq!(rt;
        world.apply(1, Call::Look(1))?,
        Reply::Seen(TrigState::Signalled)
    );
    Ok(())
}

#[test]
fn nothing_is_attached_to_a_completed_computation(rt: HostRuntime) -> Result<(), Fail> {
    let start = START;
    let mut world = World::start(rt.alloc(), &start)?;
    let attach = Call::Attach {
        place: 0,
        comp: 1,
        trigger: 0,
    };
    let complete = Call::Complete {
        comp: 1,
        outcome: Outcome::Cancelled(7),
    };
    assert_eq!(rt; world.apply(1, Call::NewPlace)?, Reply::Made(0));
    assert_eq!(rt;
        world.apply(1, complete)?,
        Reply::Completed(CompleteReply::Won)
    );
    assert_eq!(rt; world.owed(1).first(), None);
    assert_eq!(rt;
        world.apply(1, attach)?,
        Reply::Attached(AttachReply::Completed(Outcome::Cancelled(7)))
    );
    Ok(())
}

#[test]
fn a_completion_owes_the_signals_the_last_attached_first(rt: HostRuntime) -> Result<(), Fail> {
    let start = START;
    let mut world = World::start(rt.alloc(), &start)?;
    let first = Call::Attach {
        place: 0,
        comp: 1,
        trigger: 0,
    };
    let second = Call::Attach {
        place: 1,
        comp: 1,
        trigger: 1,
    };
    let complete = Call::Complete {
        comp: 1,
        outcome: Outcome::Returned(5),
    };
    let attached = Reply::Attached(AttachReply::Attached);
    let signalled = Reply::Signalled(SignalReply::Plain);
    assert_eq!(rt; world.apply(1, Call::NewPlace)?, Reply::Made(0));
    assert_eq!(rt; world.apply(1, Call::NewPlace)?, Reply::Made(1));
    assert_eq!(rt; world.apply(1, first)?, attached);
    assert_eq!(rt; world.apply(1, second)?, attached);
    assert_eq!(rt;
        world.apply(1, complete)?,
        Reply::Completed(CompleteReply::Won)
    );
    assert_eq!(rt; world.is_final(), false);
    assert_eq!(rt; world.owed(1).first(), Some(Duty::Signal(1)));
    assert_eq!(rt; world.apply(1, Call::Signal(1))?, signalled);
    assert_eq!(rt; world.owed(1).first(), Some(Duty::Signal(0)));
    assert_eq!(rt; world.apply(1, Call::Signal(0))?, signalled);
    assert_eq!(rt; world.owed(1).first(), None);
    Ok(())
}
