//! Statements that come to their end without a call, through the blocks that tests choose and around loops.
ghost use Rattle.std.specs.Prelude.{◌≡◌, ◌≤◌, ◌<◌, ℕ, None, Some, Ok, IfOk, IfSome, false, length, slice_get};
ghost use Rattle.std.specs.Bool.{OnFalse, OnTrue};
ghost use Rattle.script_tree.specs.Tree.{Tree};
ghost use Rattle.script_tree.specs.WellFormed.{IsValue, StmtFits};
ghost use Rattle.fiber_body.specs.Context.{block_at};
ghost use Rattle.fiber_body.specs.Shown.{stood};
ghost use Rattle.fiber_body.specs.Texts.{EachFits, script_in};
ghost use Rattle.fiber_poll.specs.Moving.{Goes, IsAtOnce, IsLeft, IsTold, WentOn, chosen, weight};

use crate::blocks::take_branch;
use crate::spot::{AtOnce, Spot};
use crate::values::holds;
use fiber_body::{Body, Exit, Frame, Standing, block_at};
use pic_base::Memory;
use script_tree::{Operand, Program, Stmt, Test};

/// Runs the statements from this place on, as long as each comes to its end at once and has a step: into the
/// blocks that tests choose, on behind them, and around loops. Answers the place of what is left to do, or
/// None where a statement has ended its block otherwise. The steps and the place are kept apart until
/// then, so most statements cost little.
pub(crate) fn run_silently(
    program: &Program,
    body: &mut Body,
    block: u32,
    place: u32,
) -> Result<Option<Spot>, Memory>
    requires program { script_in body.old.program ≡ program.now }
    requires at { body.old.standing ≡ Standing.At block place }
    ensures goes { Goes body.old body.new }
    ensures no_heavier { weight body.new ≤ weight body.old }
    ensures lighter { result ≡ Ok None → weight body.new < weight body.old }
    ensures left { IfOk result (λ left. IfSome left (λ spot. IsLeft program.now body.new spot)) }
{
    let mut spot = Spot { block, place };
    let mut stmts = block_at(program, block);
    let mut steps = body.steps();
    while steps > 0 {
        let Some(stmt) = stmt_at(stmts, spot.place) else {
            let Some((next, left)) = go_on(body, spot, steps) else {
                break;
            };
            stmts = stmts_of(program, stmts, spot.block, next.block);
            spot = next;
            steps = left;
            continue;
        };
        let exit = match at_once(body, stmt) {
            AtOnce::Ends(exit) => exit,
            AtOnce::Chooses(inner) => {
                let last = stmt_at(stmts, spot.place + 1).is_none();
                body.stand(spot.here(), steps);
                take_branch(body, spot, inner, last)?;
                spot = Spot {
                    block: inner,
                    place: 0,
                };
                stmts = block_at(program, inner);
                steps -= 1;
                continue;
            }
            AtOnce::Waits => break,
        };
        steps -= 1;
        let Exit::Next = exit else {
            body.stand(Standing::Out(exit), steps);
            return Ok(None);
        };
        spot.place += 1;
    }
    body.stand(spot.here(), steps);
    Ok(Some(spot))
}

/// Where the body goes on, and with how many steps, once its block has come to its end with so many left:
/// behind the block, or with the loop's next round, for which there is a step. Answers None, and then
/// nothing has changed, where there is more to do at the exit.
#[inline(always)]
fn go_on(body: &mut Body, spot: Spot, steps: u32) -> Option<(Spot, u32)>
    requires steps { 0 < steps }
    requires over { slice_get (block_at (script_in body.old.program).blocks spot.block) spot.place ≡ None }
    ensures went { IfSome result (λ next. WentOn (stood body.old (Standing.At spot.block spot.place) steps)
        (stood body.new (Standing.At next.0.block next.0.place) next.1)) }
    ensures kept { result ≡ None → body.new ≡ body.old }
{
    match body.innermost()? {
        Frame::Rest { block, place } => {
            body.pop_frame();
            Some((Spot { block, place }, steps))
        }
        Frame::Repeats { block } => Some((Spot { block, place: 0 }, steps - 1)),
        Frame::Catches { .. } | Frame::Restores(_) => None,
    }
}

/// The statements of a block, where these are those of the present one: most rounds stay in one block.
#[inline(always)]
fn stmts_of<'a>(program: &'a Program, stmts: &'a [Stmt], present: u32, block: u32) -> &'a [Stmt]
    requires are { stmts.now ≡ block_at program.now.blocks present }
    requires few { length stmts.now ≤ 10000 }
    requires fit { EachFits program.now present stmts.now }
    ensures is { result.now ≡ block_at program.now.blocks block }
    ensures few { length result.now ≤ 10000 }
    ensures fit { EachFits program.now block result.now }
{
    if block == present {
        stmts
    } else {
        block_at(program, block)
    }
}

/// The statement at this place of a block; none at the block's end.
pub(crate) fn stmt_at(stmts: &[Stmt], place: u32) -> Option<&Stmt>
    ensures some { IfSome result (λ stmt. slice_get stmts.now place ≡ Some stmt.now) }
    ensures none { result ≡ None → slice_get stmts.now place ≡ None }
{
    stmts.get(place as usize)
}

/// Makes a statement that comes to its end at once, and answers what comes of it. A test that chooses a
/// block changes nothing.
fn at_once(body: &mut Body, stmt: &Stmt) -> AtOnce
    requires { (tree : Tree) × (holder : ℕ) × StmtFits tree holder stmt.now }
    ensures { IsAtOnce body.old body.new stmt.now result }
{
    if let Some(exit) = body.change(stmt) {
        return AtOnce::Ends(exit);
    }
    let Stmt::If {
        left,
        test,
        right,
        then,
        other,
    } = stmt
    else {
        return if is_untold_check(body, stmt) {
            AtOnce::Ends(Exit::Next)
        } else {
            AtOnce::Waits
        };
    };
    match choose(body, *left, *test, *right, *then, *other) {
        Some(block) => AtOnce::Chooses(block),
        None => AtOnce::Ends(Exit::Next),
    }
}

/// Whether the statement is a check of a fiber that isn't told of a cancellation.
fn is_untold_check(body: &Body, stmt: &Stmt) -> bool
    ensures untold { OnTrue result ((stmt.now ≡ Stmt.Check) × (body.now.context.permitted ≡ false)) }
    ensures told { OnFalse result (IsTold body.now.context.permitted stmt.now) }
{
    match stmt {
        Stmt::Check => !body.waits_under().permitted,
        _ => false,
    }
}

/// The block that a test chooses, if there is one.
fn choose(
    body: &Body,
    left: Operand,
    test: Test,
    right: Operand,
    then: u32,
    other: Option<u32>,
) -> Option<u32>
    requires left { IsValue left }
    requires right { IsValue right }
    ensures { result ≡ chosen body.now.context left test right then other }
{
    if holds(test, body.value(left), body.value(right)) {
        Some(then)
    } else {
        other
    }
}
