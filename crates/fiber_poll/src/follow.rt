//! Waits for computations.
ghost use Rattle.std.specs.Prelude.{◌≡◌, ◌<◌, ◌+◌, ◌-◌, ◌^◌, [], IfErr, IfOk, IfSome, OnOk};
ghost use Rattle.pic_machine.specs.Lending.{Calm, Faulted};
ghost use Rattle.script_tree.specs.Tree.{Tree};
ghost use Rattle.fiber_body.specs.Context.{comp_in, numbering};
ghost use Rattle.fiber_body.specs.Shown.{stood};
ghost use Rattle.fiber_poll.specs.Moving.{unmade};
ghost use Rattle.fiber_poll.specs.Polls.{IsPortOf};
ghost use Rattle.fiber_poll.specs.UnderWay.{CanRun, HasGivenUp, IsArrived, IsOn, IsStep, IsUp};

use crate::calls::LIMIT_MET;
use crate::poller::ScriptPoller;
use crate::spot::{Last, Spot};
use fiber_await::{CompAhead, await_comp};
use fiber_body::{Body, Exit, Standing, UnderWay};
use pic_base::{CompNo, Outcome};
use pic_machine::{Parts, Port, PortFault, ReadyLine};
use script_tree::{CompRef, Stmt};

/// Lets the body stand within a wait for the computation that is named so, of which nothing is made yet. The
/// register is to get the computation's value.
pub(crate) fn begin_wait(
    poller: &ScriptPoller,
    body: &mut Body,
    spot: Spot,
    register: u8,
    comp: CompRef,
)
    requires steps { 0 < body.old.context.steps }
    requires can { CanRun poller.now (Stmt.Wait register comp) }
    ensures { IfSome (comp_in (numbering poller.now.decls).comps comp) (λ number. body.new ≡ stood body.old
        (Standing.Within spot.block spot.place (UnderWay.Follows register number unmade)) (body.old.context.steps - 1)) }
{
    let Some(comp) = poller.numbers.comp(comp) else {
        unreachable!("the computation is declared");
    };
    let parts = Parts {
        trigger: None,
        place: None,
        second: None,
        at: 0,
    };
    let way = UnderWay::Follows {
        register,
        comp,
        parts,
    };
    body.stand(spot.within(way), body.steps() - 1);
}

/// Goes on with a wait for a computation up to its end, or up to where its trigger is to be armed, which it
/// says then.
pub(crate) fn follow<P: Port<Body = Body>, R: ReadyLine>(
    port: &mut P,
    line: &mut R,
    body: &mut Body,
    spot: Spot,
    register: u8,
    comp: CompNo,
    parts: Parts,
) -> Result<Option<Last>, PortFault>
    requires port_of { (script : Tree) × IsPortOf script (P.sight port.old) }
    requires up { IsUp (P.sight port.old) body.old }
    requires free { body.old.owes ≡ [] }
    requires within { body.old.standing ≡ Standing.Within spot.block spot.place (UnderWay.Follows register comp parts) }
    ensures on { IsOn (P.sight port.old) (P.sight port.new) body.old body.new (R.told line.old) (R.told line.new) }
    ensures step { IfOk result (λ last. IsStep (P.sight port.old) (P.sight port.new) body.old body.new last) }
    ensures free { OnOk result (body.new.owes ≡ []) }
    ensures calm { OnOk result (Calm (P.sight port.old) (P.sight port.new)) }
    ensures gave_up { IfErr result (λ fault. Faulted fault (P.sight port.old) (P.sight port.new)) }
{
    let mut parts = parts;
    let under = body.waits_under();
    let ahead = await_comp(port, line, body, &under, comp, &mut parts);
    let way = UnderWay::Follows {
        register,
        comp,
        parts,
    };
    match ahead {
        Ok(ahead) => Ok(arrive(body, spot, register, way, ahead)),
        Err(fault) => give_up(body, spot, way, fault),
    }
}

/// Lets the body stand where the wait has come to, and tells whether its trigger is to be armed next.
fn arrive(
    body: &mut Body,
    spot: Spot,
    register: u8,
    way: UnderWay,
    ahead: CompAhead,
) -> Option<Last>
    requires within { spot.place + 1 < 2 ^ 32 }
    requires register { register < 16 }
    ensures { IsArrived body.old body.new spot register way ahead result }
{
    let steps = body.steps();
    let standing = match ahead {
        CompAhead::Park => {
            body.stand(spot.within(way), steps);
            return Some(Last::Park(spot, way));
        }
        CompAhead::Done(Outcome::Returned(value)) => {
            body.set_register(register, value);
            spot.behind(Exit::Next)
        }
        CompAhead::Done(Outcome::Cancelled(code)) => spot.behind(Exit::Raised(code)),
        CompAhead::Cancelled(code) => spot.behind(Exit::Raised(code)),
    };
    body.stand(standing, steps);
    None
}

/// Lets the body stand where the wait gave up: where a limit was met it is over, else it goes on later.
fn give_up(
    body: &mut Body,
    spot: Spot,
    way: UnderWay,
    fault: PortFault,
) -> Result<Option<Last>, PortFault>
    requires { spot.place + 1 < 2 ^ 32 }
    ensures { HasGivenUp body.old body.new spot way fault result }
{
    let steps = body.steps();
    match fault {
        PortFault::Full => {
            body.stand(spot.behind(Exit::Raised(LIMIT_MET)), steps);
            Ok(None)
        }
        fault => {
            body.stand(spot.within(way), steps);
            Err(fault)
        }
    }
}
