ghost use Rattle.std.specs.Prelude.{◌≡◌, IfOk};
ghost use Rattle.std.specs.Arc.{arc_value};
ghost use Rattle.fiber_poll.specs.Laws.{port_later};
ghost use Rattle.fiber_poll.specs.Polls.{IsPortOf};
ghost use Rattle.fiber_poll.specs.Yields.{few_yields};

use crate::last::{end_turn, handed_back, park_turn, yield_turn};
use crate::spot::Last;
use crate::turn::run_turn;
use fiber_body::{Body, Numbers};
use pic_base::Memory;
use pic_machine::{Poller, Port, ReadyLine, Turn};
use script_tree::Program;
use std::alloc::Global;
use std::marker::Model;
use std::sync::Arc;

/// Runs the fibers of one program, as which contracts see it. The numbers of what the program declares are
/// counted once.
#[derive(Drop)]
pub struct ScriptPoller {
    pub(crate) program: Arc<Program>,
    pub(crate) numbers: Numbers,
    pub(crate) alloc: Global,
}

impl Model for ScriptPoller {
    ghost use Rattle.std.specs.Prelude.{◌≡◌};
    ghost use Rattle.std.specs.Arc.{arc_value};
    ghost use Rattle.script_tree.specs.Tree.{Tree};
    ghost use Rattle.fiber_body.specs.Context.{numbering};

    ghost Value = { Tree };

    ghost view = { λ p. arc_value p.program };

    ghost invariant = { λ p. p.numbers ≡ numbering (arc_value p.program).decls };
}

impl ScriptPoller {
    /// A poller for the fibers of the program, which makes the bodies of fibers that they fork.
    pub fn new(alloc: Global, program: Arc<Program>) -> Result<ScriptPoller, Memory>
        ensures { IfOk result (λ poller. poller ≡ arc_value program) }
    {
        let numbers = Numbers::of(alloc, &program)?;
        Ok(ScriptPoller {
            program,
            numbers,
            alloc,
        })
    }
}

impl<P: Port<Body = Body>> Poller<P> for ScriptPoller {
    ghost polls = { λ poller port. IsPortOf poller port };

    fn poll<R: ReadyLine>(&self, port: &mut P, line: &mut R, body: Body) -> Turn<Body> {
        let mut body = body;
        loop {
            match run_turn(self, port, line, &mut body) {
                Ok(Last::Yield(spot)) => return yield_turn(port, line, body, spot),
                Ok(Last::End(outcome)) => return end_turn(port, body, outcome),
                Ok(Last::Park(spot, way)) => match park_turn(port, body, spot, way) {
                    Ok(awake) => body = awake,
                    Err(turn) => return turn,
                },
                Err(fault) => return handed_back(body, fault),
            }
        }
    }

    ghost polls_later = { λ poller old new polls origin share. port_later poller old new polls origin share };

    ghost few = { λ poller body log number fits. few_yields body log number fits };
}
