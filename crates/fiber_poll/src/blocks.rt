//! Blocks: entering them, and what is to be done where one has ended.
ghost use Rattle.std.specs.Prelude.{◌≡◌, ◌<◌, ◌+◌, ◌^◌, slice_get, OnErr, OnOk};
ghost use Rattle.std.specs.Option.{IfSome, option_to_list};
ghost use Rattle.fiber_body.specs.Shown.{IsFrame, MayBeCurrent};
ghost use Rattle.fiber_body.specs.Tables.{outcome_of};
ghost use Rattle.fiber_poll.specs.Moving.{Goes, branched, entered, entered_under, passed, round_of, weight};

use crate::spot::Spot;
use fiber_body::{Body, Exit, Frame, Standing};
use pic_base::{Memory, Outcome, Value};
use pic_machine::Standing as Under;

/// The code with which a fiber is cancelled that has no step left.
const NO_STEP: Value = 1;

/// Lets the body stand at the beginning of a block, for which a step is spent: around it is the rest of the
/// block at hand, and within that the exit of the new one, where there is something to do. Where a frame
/// wants memory that isn't there, the body stays as it is.
pub(crate) fn enter(
    body: &mut Body,
    spot: Spot,
    exit: Option<Frame>,
    block: u32,
) -> Result<(), Memory>
    requires steps { 0 < body.old.context.steps }
    requires within { spot.place + 1 < 2 ^ 32 }
    requires frame { IfSome exit (IsFrame body.old.program body.old.birth) }
    ensures entered { OnOk result (body.new ≡ entered body.old spot (option_to_list exit) block) }
    ensures kept { OnErr result (body.new ≡ body.old) }
{
    body.push_frame(Frame::Rest {
        block: spot.block,
        place: spot.place + 1,
    })?;
    if let Some(frame) = exit {
        if body.push_frame(frame).is_err() {
            body.pop_frame();
            return Err(Memory);
        }
    }
    body.stand(Standing::At { block, place: 0 }, body.steps() - 1);
    Ok(())
}

/// Lets the body stand at the beginning of a block, for which a step is spent, and behind which the block at
/// hand goes on. Where the statement is the last of that one, no frame is needed.
pub(crate) fn take_branch(body: &mut Body, spot: Spot, block: u32, last: bool) -> Result<(), Memory>
    requires steps { 0 < body.old.context.steps }
    requires within { spot.place + 1 < 2 ^ 32 }
    ensures entered { OnOk result (body.new ≡ branched body.old spot block last) }
    ensures kept { OnErr result (body.new ≡ body.old) }
{
    if !last {
        return enter(body, spot, None, block);
    }
    body.stand(Standing::At { block, place: 0 }, body.steps() - 1);
    Ok(())
}

/// The same, where the block is run under this, and its exit restores what was.
pub(crate) fn enter_under(
    body: &mut Body,
    spot: Spot,
    under: Under,
    block: u32,
) -> Result<(), Memory>
    requires steps { 0 < body.old.context.steps }
    requires within { spot.place + 1 < 2 ^ 32 }
    requires may { MayBeCurrent body.old.program body.old.birth under.current }
    ensures entered { OnOk result (body.new ≡ entered_under body.old spot under block) }
    ensures kept { OnErr result (body.new ≡ body.old) }
{
    let before = body.waits_under();
    enter(body, spot, Some(Frame::Restores(before)), block)?;
    body.stand_under(under);
    Ok(())
}

/// Goes on where the innermost block has ended so, with what is around it.
pub(crate) fn leave(body: &mut Body, exit: Exit)
    requires { body.old.standing ≡ Standing.Out exit }
    ensures goes { Goes body.old body.new }
    ensures lighter { weight body.new < weight body.old }
{
    let steps = body.steps();
    if let Some(block) = round_of(body, exit) {
        return body.stand(Standing::At { block, place: 0 }, steps - 1);
    }
    let Some(frame) = body.pop_frame() else {
        let outcome = outcome_of(body, exit);
        return body.stand(Standing::Ending(outcome), steps);
    };
    pass(body, frame, exit);
}

/// The block that runs again, where the innermost block has ended so: the body of a loop, which has a step
/// for it.
fn round_of(body: &Body, exit: Exit) -> Option<u32>
    ensures { result ≡ round_of (slice_get body.now.frames 0) exit body.now.context.steps }
{
    let Some(Frame::Repeats { block }) = body.innermost() else {
        return None;
    };
    let Exit::Next = exit else {
        return None;
    };
    if body.steps() > 0 { Some(block) } else { None }
}

/// The outcome of a fiber whose text has ended so.
fn outcome_of(body: &Body, exit: Exit) -> Outcome
    ensures { result ≡ outcome_of exit body.now.context }
{
    match exit {
        Exit::Raised(code) => Outcome::Cancelled(code),
        Exit::Spent => Outcome::Cancelled(NO_STEP),
        Exit::Next | Exit::Broke => Outcome::Returned(body.register(0)),
    }
}

/// Lets the body stand behind a frame that was taken away, where what was in it has ended so: a loop doesn't
/// go round any more.
fn pass(body: &mut Body, frame: Frame, exit: Exit)
    requires { IsFrame body.old.program body.old.birth frame }
    ensures { body.new ≡ passed body.old frame exit }
{
    let standing = match (frame, exit) {
        (Frame::Rest { block, place }, Exit::Next) => Standing::At { block, place },
        (Frame::Repeats { .. }, Exit::Next) => Standing::Out(Exit::Spent),
        (Frame::Repeats { .. }, Exit::Broke) => Standing::Out(Exit::Next),
        (Frame::Catches { register, handler }, Exit::Raised(code)) => {
            body.set_register(register, code);
            Standing::At {
                block: handler,
                place: 0,
            }
        }
        (Frame::Restores(under), exit) => {
            body.stand_under(under);
            Standing::Out(exit)
        }
        (_, exit) => Standing::Out(exit),
    };
    body.stand(standing, body.steps());
}
