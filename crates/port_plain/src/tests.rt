//! Runs on the port, with a body that is its entries alone.
use entry_log::EntryLog;
use pic_base::{FiberNo, Memory, Outcome};
use pic_machine::{Birth, Call, Carried, Entry, Port, Reply};
use std::alloc::Global;
use std::process::Abort;
use std::test::Fail;

mod bare;
mod home;
mod out;
mod waiting;

use home::{In, main_out};
use out::Out;

fn entry(fiber: FiberNo, call: Call, reply: Reply) -> Entry {
    Entry { fiber, call, reply }
}

#[test]
fn a_body_goes_out_and_comes_back(rt: HostRuntime) -> Result<(), Fail> {
    let home = In::open(rt.alloc())?;
    let (home, over) = home.is_over()?;
    assert!(rt; !over);
    let Err(home) = home.claim(2)? else {
        return Err(Memory.into());
    };
    let Ok(main) = home.claim(1)? else {
        return Err(Memory.into());
    };
    assert_eq!(rt; main.body.fiber(), 1);
    let In { port } = main.lay()?;
    assert_eq!(rt; port.history().len(), 1);
    assert_eq!(rt;
        port.history().last(),
        Some(entry(1, Call::Turn, Reply::Plain))
    );
    assert_eq!(rt; port.contended(), 0);
    let Ok(closed) = port.close() else {
        return Err(Memory.into());
    };
    assert_eq!(rt; closed.bodies.len(), 1);
    assert_eq!(rt; closed.clock.fiber(), 0);
    Ok(())
}

#[test]
fn a_child_is_made(rt: HostRuntime) -> Result<(), Fail> {
    let mut main = main_out(rt.alloc())?;
    make_child(&rt, rt.alloc(), &mut main)
}

/// Main makes fiber 2.
fn make_child(rt: &impl Abort, alloc: Global, main: &mut Out) -> Result<(), Fail> {
    let number = main.fork(alloc)?;
    assert_eq!(rt; number, 2);
    let fork = Call::Fork { text: 5, value: 7 };
    assert_eq!(rt;
        main.port.history().last(),
        Some(entry(1, fork, Reply::Made(2)))
    );
    assert_eq!(rt; main.port.births().len(), 1);
    assert_eq!(rt;
        main.port.births()[0],
        Birth {
            text: 5,
            value: 7,
            current: 0
        }
    );
    Ok(())
}

#[test]
fn main_and_its_child_end(rt: HostRuntime) -> Result<(), Fail> {
    let mut main = main_out(rt.alloc())?;
    let _ = main.fork(rt.alloc())?;
    let home = main.end(Outcome::Returned(7))?;
    let (home, over) = home.is_over()?;
    assert!(rt; !over);
    let Ok(child) = home.claim(2)? else {
        return Err(Memory.into());
    };
    let home = child.end(Outcome::Returned(7))?;
    let (In { port }, over) = home.is_over()?;
    assert!(rt; over);
    let Ok((closed, history)) = port.close_with_history() else {
        return Err(Memory.into());
    };
    assert_eq!(rt; closed.bodies.len(), 2);
    holds_all(&rt, &history)
}

/// What main and its child did, in order.
fn holds_all(rt: &impl Abort, history: &EntryLog) -> Result<(), Fail> {
    let ended = Call::End(Outcome::Returned(7));
    let expected = [
        entry(1, Call::Turn, Reply::Plain),
        entry(1, Call::Fork { text: 5, value: 7 }, Reply::Made(2)),
        entry(1, ended, Reply::Plain),
        entry(2, Call::Turn, Reply::Plain),
        entry(2, ended, Reply::Plain),
    ];
    assert_eq!(rt; history.len(), expected.len());
    for (entry, expected) in history.iter().zip(expected) {
        assert_eq!(rt; entry, expected);
    }
    Ok(())
}
