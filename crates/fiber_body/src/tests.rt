//! Bodies of a script's fibers.
ghost use Rattle.std.specs.Prelude.{◌≤◌, length};

use super::*;
use pic_base::{Limits, Outcome, Value};
use pic_machine::{Birth, Call, Carried, Entry, Reply};
use script_tree::{CompRef, Operand, Program, parse};
use std::sync::Arc;
use std::test::Fail;

const SCRIPT: &str =
    "picos 1\ntrigger t\ncomp x\ncomp y\nfiber n\nsay r0\nend\nmain\nset r1 7\nyield\nspawn n 5\nend\n";

#[test]
fn a_body_begins_at_its_texts_first_statement(rt: HostRuntime) -> Result<(), Fail> {
    let program = parse(rt.alloc(), SCRIPT.as_bytes())?;
    assert_eq!(rt; block_at(&program, 0).len(), 1);
    assert_eq!(rt; block_at(&program, 1).len(), 3);
    assert_eq!(rt; block_at(&program, 2).len(), 0);
    if program.texts.len() != 2 {
        return Err("the script has two texts".into());
    }
    let Ok(program) = Arc::new(rt.alloc(), program) else {
        return Err("no memory".into());
    };
    let body = Body::new(rt.alloc(), &program, 0, 5, 1)?;
    assert_eq!(rt;
        body.birth(),
        Birth {
            text: 0,
            value: 5,
            current: 1
        }
    );
    assert_eq!(rt; body.text(), 0);
    assert_eq!(rt; body.current(), 1);
    assert_eq!(rt; body.register(0), 5);
    assert_eq!(rt; body.register(15), 0);
    assert_eq!(rt; body.steps(), 200_000);
    assert_eq!(rt; body.standing(), Standing::At { block: 0, place: 0 });
    assert_eq!(rt; body.innermost(), None);
    assert_eq!(rt; body.entries().len(), 0);
    Ok(())
}

#[test]
fn a_body_keeps_what_it_is_told(rt: HostRuntime) -> Result<(), Fail> {
    let mut body = Body::clock(rt.alloc())?;
    body.reserve()?;
    body.note(Call::Say(7), Reply::Plain);
    body.set_register(3, 9);
    body.stand(Standing::Ending(Outcome::Cancelled(3)), 8);
    assert_eq!(rt; body.fiber(), 0);
    assert_eq!(rt;
        body.entries().last(),
        Some(Entry {
            fiber: 0,
            call: Call::Say(7),
            reply: Reply::Plain,
        })
    );
    assert_eq!(rt; body.register(3), 9);
    assert_eq!(rt; body.register(0), 0);
    assert_eq!(rt; body.value(Operand::Reg(3)), 9);
    assert_eq!(rt; body.value(Operand::Num(3)), 3);
    assert_eq!(rt; body.steps(), 8);
    assert_eq!(rt; body.standing(), Standing::Ending(Outcome::Cancelled(3)));
    assert_eq!(rt; body.into_entries().len(), 1);
    Ok(())
}

#[test]
fn the_innermost_frame_is_taken_away_first(rt: HostRuntime) -> Result<(), Fail> {
    let mut body = Body::clock(rt.alloc())?;
    assert_eq!(rt; body.pop_frame(), None);
    let rest = Frame::Rest { block: 0, place: 3 };
    let catches = Frame::Catches {
        register: 2,
        handler: 5,
    };
    body.push_frame(rest)?;
    body.push_frame(catches)?;
    assert_eq!(rt; body.innermost(), Some(catches));
    assert_eq!(rt; body.pop_frame(), Some(catches));
    body.push_frame(Frame::Repeats { block: 1 })?;
    assert_eq!(rt; body.pop_frame(), Some(Frame::Repeats { block: 1 }));
    assert_eq!(rt; body.pop_frame(), Some(rest));
    assert_eq!(rt; body.pop_frame(), None);
    Ok(())
}

#[test]
fn a_body_stands_under_something_else(rt: HostRuntime) -> Result<(), Fail> {
    let mut body = Body::clock(rt.alloc())?;
    let before = body.waits_under();
    assert_eq!(rt; before.current, 0);
    assert!(rt; before.permitted);
    body.push_frame(Frame::Restores(before))?;
    body.stand_under(pic_machine::Standing {
        current: before.current,
        permitted: false,
    });
    assert_eq!(rt; body.current(), 0);
    assert!(rt; !body.waits_under().permitted);
    assert_eq!(rt; body.pop_frame(), Some(Frame::Restores(before)));
    Ok(())
}

/// What the statement at this place of the block makes of the body.
fn changed(
    program: &Program,
    block: u32,
    place: usize,
    body: &mut Body,
) -> Result<Option<Exit>, Fail> {
    match block_at(program, block).get(place) {
        Some(stmt) => Ok(body.change(stmt)),
        None => Err("no such statement".into()),
    }
}

/// Each statement that changes registers and storage alone, or only leaves its block, below and beyond
/// its bounds, and each other one.
const CHANGES: &str = "picos 1\ncomp c\nfiber f\nend\nmain\n\
    set r1 7\nadd r1 5\nsub r1 2\nmul r1 3\nput 15 r1\nset r1 4294967294\nget r2 15\nget r2 14\nget r2 15\n\
    add r1 1\nadd r1 r2\nmul r1 2\nmul r1 1\nsub r2 31\nsub r2 30\nraise r1\nraise 9\n\
    say 1\nyield\ncheck\nreturn r1 c 3\ncancel r1 c 3\npeek r1 r2 c\nspawn f 3\n\
    if r2 eq 0\nset r1 0\nend\nloop\nbreak\nend\ntry\nset r1 0\ncatch r1\nend\nend\n";

#[test]
fn statements_change_registers_and_storage(rt: HostRuntime) -> Result<(), Fail> {
    let program = parse(rt.alloc(), CHANGES.as_bytes())?;
    let mut body = Body::clock(rt.alloc())?;
    let next = Some(Exit::Next);
    let overflow = Some(Exit::Raised(2));
    // how each statement of main ends, and the registers r1 and r2 behind it
    let table: [(Option<Exit>, Value, Value); 27] = [
        (next, 7, 0),
        (next, 12, 0),
        (next, 10, 0),
        (next, 30, 0),
        (next, 30, 0),
        (next, 4_294_967_294, 0),
        (next, 4_294_967_294, 30),
        (next, 4_294_967_294, 0),
        (next, 4_294_967_294, 30),
        (next, 4_294_967_295, 30),
        (overflow, 4_294_967_295, 30),
        (overflow, 4_294_967_295, 30),
        (next, 4_294_967_295, 30),
        (overflow, 4_294_967_295, 30),
        (next, 4_294_967_295, 0),
        (Some(Exit::Raised(4_294_967_295)), 4_294_967_295, 0),
        (Some(Exit::Raised(9)), 4_294_967_295, 0),
        (None, 4_294_967_295, 0),
        (None, 4_294_967_295, 0),
        (None, 4_294_967_295, 0),
        (None, 4_294_967_295, 0),
        (None, 4_294_967_295, 0),
        (None, 4_294_967_295, 0),
        (None, 4_294_967_295, 0),
        (None, 4_294_967_295, 0),
        (None, 4_294_967_295, 0),
        (None, 4_294_967_295, 0),
    ];
    for (place, wanted) in table.into_iter().enumerate() {
        let exit = changed(&program, 1, place, &mut body)?;
        assert_eq!(rt;
            (exit, body.register(1), body.register(2)),
            wanted,
            "at {place}"
        );
    }
    // a break stands in the block of a loop, the second of the inner ones
    assert_eq!(rt; changed(&program, 3, 0, &mut body)?, Some(Exit::Broke));
    assert_eq!(rt; body.steps(), 200_000);
    assert_eq!(rt; body.standing(), Standing::At { block: 0, place: 0 });
    assert_eq!(rt; body.entries().len(), 0);
    Ok(())
}

#[test]
fn a_start_has_what_is_declared_and_the_root(rt: HostRuntime) -> Result<(), Fail> {
    let program = parse(rt.alloc(), SCRIPT.as_bytes())?;
    let limits = Limits {
        triggers: 4,
        places: 4,
        fibers: 4,
        comps: 9,
    };
    let start = start_of(&program, limits);
    assert_eq!(rt; start.triggers, 1);
    assert_eq!(rt; start.comps, 3);
    assert_eq!(rt; start.text, 1);
    assert_eq!(rt; start.limits, limits);
    Ok(())
}

#[test]
fn each_sort_is_numbered_in_its_order(rt: HostRuntime) -> Result<(), Fail> {
    let text =
        b"picos 1\ntrigger t\ncomp x\nmutex m\nsem s 3\ncomp y\ncomp z\ntrigger u\nmain\nend\n";
    let program = parse(rt.alloc(), text)?;
    let numbers = Numbers::of(rt.alloc(), &program)?;
    assert_eq!(rt; numbers.comp(CompRef::Root), Some(0));
    assert_eq!(rt; numbers.comp(CompRef::Named(1)), Some(1));
    assert_eq!(rt; numbers.comp(CompRef::Named(4)), Some(2));
    assert_eq!(rt; numbers.comp(CompRef::Named(5)), Some(3));
    assert_eq!(rt; numbers.comp(CompRef::Named(7)), None);
    assert_eq!(rt; numbers.comp(CompRef::Promise(0)), None);
    assert_eq!(rt; numbers.trigger(0), Some(0));
    assert_eq!(rt; numbers.trigger(6), Some(1));
    assert_eq!(rt; numbers.trigger(7), None);
    let none = Numbers::of(rt.alloc(), &parse(rt.alloc(), b"picos 1\nmain\nend\n")?)?;
    assert_eq!(rt; none.comp(CompRef::Root), Some(0));
    assert_eq!(rt; none.comp(CompRef::Named(0)), None);
    assert_eq!(rt; none.trigger(0), None);
    Ok(())
}
