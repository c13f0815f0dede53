//! The calls of the port that statements ask for: which one, and what its reply makes of the statement.
ghost use Rattle.std.specs.Prelude.{◌≡◌, ◌<◌, ◌+◌, ◌^◌, ℕ};
ghost use Rattle.script_tree.specs.Tree.{Tree};
ghost use Rattle.script_tree.specs.WellFormed.{StmtFits};
ghost use Rattle.fiber_body.specs.Context.{stepped};
ghost use Rattle.fiber_body.specs.Shown.{MayBeCurrent};
ghost use Rattle.fiber_body.specs.Statements.{call_of, replied};
ghost use Rattle.fiber_poll.specs.Moving.{taken};

use crate::spot::Spot;
use crate::values::{outcome_number, state_number, won};
use fiber_body::{Body, Exit, Numbers};
use pic_base::{Outcome, Value};
use pic_machine::{Call, Reply};
use script_tree::Stmt;

/// The code that is raised where a limit of the machine is met.
pub(crate) const LIMIT_MET: Value = 3;

/// The call that the statement asks for, if it asks for one.
pub(crate) fn call_of(numbers: &Numbers, body: &Body, stmt: &Stmt) -> Option<Call>
    requires { (tree : Tree) × (holder : ℕ) × StmtFits tree holder stmt.now }
    ensures is { result ≡ call_of numbers.now (stepped body.now.context) stmt.now }
    // A check peeks at what may be current.
    ensures may { stmt.now ≡ Stmt.Check → MayBeCurrent body.now.program body.now.birth body.now.context.current }
{
    match stmt {
        Stmt::Say(operand) => Some(Call::Say(body.value(*operand))),
        Stmt::Yield => Some(Call::Yield),
        Stmt::Return(_, comp, operand) => {
            let comp = numbers.comp(*comp)?;
            let outcome = Outcome::Returned(body.value(*operand));
            Some(Call::Complete { comp, outcome })
        }
        Stmt::Cancel(_, comp, operand) => {
            let comp = numbers.comp(*comp)?;
            let outcome = Outcome::Cancelled(body.value(*operand));
            Some(Call::Complete { comp, outcome })
        }
        Stmt::Peek(_, _, comp) => Some(Call::Peek(numbers.comp(*comp)?)),
        Stmt::Check => Some(Call::Peek(body.current())),
        Stmt::Signal(trigger) | Stmt::Detach(_, trigger) => {
            Some(Call::Signal(numbers.trigger(*trigger)?))
        }
        Stmt::Spawn(text, operand) => Some(Call::Fork {
            text: *text,
            value: body.value(*operand),
        }),
        _ => None,
    }
}

/// Ends the statement at this place by the reply to its call.
pub(crate) fn take(body: &mut Body, spot: Spot, stmt: &Stmt, reply: Reply)
    requires steps { 0 < body.old.context.steps }
    requires within { spot.place + 1 < 2 ^ 32 }
    requires fits { (tree : Tree) × (holder : ℕ) × StmtFits tree holder stmt.now }
    ensures { body.new ≡ taken body.old spot (replied (stepped body.old.context) stmt.now reply) }
{
    let mut exit = Exit::Next;
    match stmt {
        Stmt::Return(register, ..) | Stmt::Cancel(register, ..) => {
            if let Reply::Completed(how) = reply {
                body.set_register(*register, won(how));
            }
        }
        Stmt::Peek(state, value, _) => {
            if let Reply::Peeked(seen) = reply {
                body.set_register(*state, state_number(seen));
                body.set_register(*value, outcome_number(seen));
            }
        }
        Stmt::Check => {
            if let Reply::Peeked(Some(Outcome::Cancelled(code))) = reply {
                exit = Exit::Raised(code);
            }
        }
        Stmt::Spawn(..) => {
            if let Reply::Full = reply {
                exit = Exit::Raised(LIMIT_MET);
            }
        }
        _ => {}
    }
    body.stand(spot.behind(exit), body.steps() - 1);
}
