//! Under what blocks are run.
ghost use Rattle.std.specs.Prelude.{◌≡◌, IsTrue, Some};
ghost use Rattle.script_tree.specs.WellFormed.{IsComp};
ghost use Rattle.fiber_body.specs.Context.{comp_in, numbering, under};
ghost use Rattle.fiber_body.specs.Shown.{MayBeCurrent};
ghost use Rattle.fiber_body.specs.Texts.{script_in};
ghost use Rattle.fiber_poll.specs.Built.{is_built_comp};

use crate::poller::ScriptPoller;
use fiber_body::Body;
use pic_machine::Standing as Under;
use script_tree::CompRef;

/// Under what the fiber stands, but that it is told of a cancellation or isn't.
pub(crate) fn told(body: &Body, is_told: bool) -> Under
    ensures is { result ≡ record (under body.now.context) { permitted = is_told } }
    ensures may { MayBeCurrent body.now.program body.now.birth result.current }
{
    Under {
        current: body.current(),
        permitted: is_told,
    }
}

/// The same, but with this current computation.
pub(crate) fn with_current(poller: &ScriptPoller, body: &Body, comp: CompRef) -> Under
    requires program { script_in body.now.program ≡ poller.now }
    requires declared { IsComp poller.now comp }
    requires built { IsTrue (is_built_comp comp) }
    ensures number { comp_in (numbering poller.now.decls).comps comp ≡ Some result.current }
    ensures told { result.permitted ≡ body.now.context.permitted }
    ensures may { MayBeCurrent body.now.program body.now.birth result.current }
{
    let Some(current) = poller.numbers.comp(comp) else {
        unreachable!("the computation is declared");
    };
    Under {
        current,
        permitted: body.waits_under().permitted,
    }
}
