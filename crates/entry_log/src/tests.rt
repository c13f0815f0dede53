use super::*;
use crate::kind::Kind;
use pic_base::Outcome::{Cancelled, Returned};
use pic_base::{Action, CompNo, FiberNo, Memory, Outcome, PlaceNo, TriggerNo, Value};
use pic_machine::{
    ArmReply, AttachReply, Call, CompleteReply, Entry, Reply, SignalReply, TrigState,
};
use std::mem::size_of;
use std::test::Fail;

/// An entry of each kind and of each call and reply, with the greatest numbers among others, and at the end
/// some that no machine makes.
fn entries() -> [Entry; 35] {
    let most = u32::MAX;
    [
        entry(1, Call::Turn, Reply::Plain),
        entry(most, Call::Yield, Reply::Plain),
        entry(2, complete(3, Returned(most)), won()),
        entry(3, complete(most, Cancelled(7)), lost(Returned(9))),
        entry(3, complete(5, Returned(6)), lost(Cancelled(most))),
        entry(4, complete(6, Cancelled(most)), won()),
        entry(3, complete(7, Returned(8)), lost(Returned(most))),
        entry(5, complete(1, Cancelled(2)), lost(Cancelled(3))),
        entry(1, Call::Peek(4), Reply::Peeked(None)),
        entry(2, Call::Peek(most), saw(Returned(1))),
        entry(2, Call::Peek(6), saw(Cancelled(most))),
        entry(1, fork(5, most), Reply::Made(2)),
        entry(1, fork(most, 8), Reply::Full),
        entry(4, Call::Say(most), Reply::Plain),
        entry(2, Call::End(Returned(most)), Reply::Plain),
        entry(3, Call::End(Cancelled(0)), Reply::Plain),
        entry(1, Call::NewTrigger, Reply::Made(most)),
        entry(most, Call::NewTrigger, Reply::Full),
        entry(2, Call::NewPlace, Reply::Made(0)),
        entry(1, Call::Look(most), Reply::Seen(TrigState::Initial)),
        entry(2, Call::Look(3), Reply::Seen(awaiting(most))),
        entry(3, Call::Look(0), Reply::Seen(TrigState::Signalled)),
        entry(1, arm(most, 1), Reply::Armed(ArmReply::Set)),
        entry(2, arm(4, most), Reply::Armed(ArmReply::Signalled)),
        entry(3, arm(5, 3), Reply::Armed(ArmReply::Taken)),
        entry(0, Call::Signal(most), Reply::Signalled(SignalReply::Plain)),
        entry(1, Call::Signal(6), acted(most)),
        entry(2, Call::Signal(7), Reply::Signalled(SignalReply::Already)),
        entry(
            1,
            attach(most, 8, 9),
            Reply::Attached(AttachReply::Attached),
        ),
        entry(2, attach(8, most, 9), found(Returned(most))),
        entry(3, attach(8, 9, most), found(Cancelled(7))),
        entry(5, Call::Yield, Reply::Made(4)),
        entry(6, fork(1, 2), Reply::Peeked(None)),
        entry(7, Call::Say(3), lost(Returned(4))),
        entry(8, complete(9, Returned(1)), saw(Returned(2))),
    ]
}

fn entry(fiber: FiberNo, call: Call, reply: Reply) -> Entry {
    Entry { fiber, call, reply }
}

fn complete(comp: CompNo, outcome: Outcome) -> Call {
    Call::Complete { comp, outcome }
}

fn fork(text: u32, value: Value) -> Call {
    Call::Fork { text, value }
}

fn arm(trigger: TriggerNo, fiber: FiberNo) -> Call {
    Call::Arm {
        trigger,
        action: Action::Resume(fiber),
    }
}

fn attach(place: PlaceNo, comp: CompNo, trigger: TriggerNo) -> Call {
    Call::Attach {
        place,
        comp,
        trigger,
    }
}

fn awaiting(fiber: FiberNo) -> TrigState {
    TrigState::Awaiting(Action::Resume(fiber))
}

fn acted(fiber: FiberNo) -> Reply {
    Reply::Signalled(SignalReply::Acted(Action::Resume(fiber)))
}

fn found(outcome: Outcome) -> Reply {
    Reply::Attached(AttachReply::Completed(outcome))
}

fn won() -> Reply {
    Reply::Completed(CompleteReply::Won)
}

fn lost(outcome: Outcome) -> Reply {
    Reply::Completed(CompleteReply::Lost(outcome))
}

fn saw(outcome: Outcome) -> Reply {
    Reply::Peeked(Some(outcome))
}

fn push(log: &mut EntryLog, entry: Entry) -> Result<(), Memory> {
    log.reserve()?;
    log.push_reserved(entry);
    Ok(())
}

fn note(log: &mut FiberLog, call: Call, reply: Reply) -> Result<(), Memory> {
    log.reserve()?;
    log.note(call, reply);
    Ok(())
}

#[test]
fn each_kind_of_entry_is_read_back(rt: HostRuntime) -> Result<(), Fail> {
    let entries = entries();
    let mut log = EntryLog::new(rt.alloc());
    assert!(rt; log.is_empty());
    assert_eq!(rt; log.last(), None);
    for entry in entries {
        push(&mut log, entry)?;
        assert_eq!(rt; log.last(), Some(entry));
    }
    assert_eq!(rt; log.len(), entries.len());
    let mut expected = entries.iter();
    for entry in &log {
        assert_eq!(rt; Some(entry), expected.next().copied());
    }
    assert_eq!(rt; expected.next(), None);
    Ok(())
}

#[test]
fn each_kind_of_entry_is_taken_away(rt: HostRuntime) -> Result<(), Fail> {
    let entries = entries();
    let mut log = EntryLog::new(rt.alloc());
    log.unnote();
    for entry in entries {
        push(&mut log, entry)?;
        for other in entries {
            push(&mut log, other)?;
            log.unnote();
            assert_eq!(rt; log.last(), Some(entry));
        }
    }
    for entry in entries.iter().rev() {
        assert_eq!(rt; log.last(), Some(*entry));
        log.unnote();
    }
    assert!(rt; log.is_empty());
    assert!(rt; log.iter().next().is_none());
    Ok(())
}

#[test]
fn a_fibers_log_has_its_number_in_each_entry(rt: HostRuntime) -> Result<(), Fail> {
    let entries = entries();
    let mut log = FiberLog::new(rt.alloc(), 0);
    assert!(rt; log.is_empty());
    assert_eq!(rt; log.last(), None);
    log.set_fiber(9);
    assert_eq!(rt; log.fiber(), 9);
    for Entry { call, reply, .. } in entries {
        note(&mut log, call, reply)?;
        note(&mut log, Call::Say(1), Reply::Plain)?;
        log.unnote();
        assert_eq!(rt; log.last(), Some(entry(9, call, reply)));
    }
    assert_eq!(rt; log.len(), entries.len());
    let mut expected = entries.iter();
    for noted in &log {
        let wanted = expected
            .next()
            .map(|other| entry(9, other.call, other.reply));
        assert_eq!(rt; Some(noted), wanted);
    }
    assert_eq!(rt; expected.next(), None);
    Ok(())
}

#[test]
fn many_entries_are_read_back(rt: HostRuntime) -> Result<(), Fail> {
    let entries = entries();
    let mut log = EntryLog::new(rt.alloc());
    for round in 0..2_000_u32 {
        for entry in entries {
            push(
                &mut log,
                Entry {
                    fiber: round,
                    ..entry
                },
            )?;
        }
    }
    assert_eq!(rt; log.len(), 2_000 * entries.len());
    let mut expected = entries.iter().cycle();
    let mut place = 0_u32;
    for entry in log.iter() {
        let wanted = expected.next().map(|other| Entry {
            fiber: place / 35,
            ..*other
        });
        assert_eq!(rt; Some(entry), wanted);
        place = place.wrapping_add(1);
    }
    assert_eq!(rt; place, 70_000);
    Ok(())
}

#[test]
fn a_kind_is_one_byte(rt: HostRuntime) -> Result<(), Fail> {
    assert_eq!(rt; size_of::<Kind>(), 1);
    Ok(())
}
