//! What a fiber owes, which its turn fulfils before all else.
ghost use Rattle.std.specs.Prelude.{◌≡◌, [], IfErr, OnOk};
ghost use Rattle.std.specs.Bool.{OnFalse};
ghost use Rattle.pic_machine.specs.Duty.{BringsNone};
ghost use Rattle.pic_machine.specs.Lending.{Calm, Faulted};
ghost use Rattle.fiber_body.specs.Shown.{IsSameRest};
ghost use Rattle.fiber_poll.specs.UnderWay.{IsOn, IsUp};

use fiber_body::Body;
use pic_machine::{Call, Port, PortFault, ReadyLine};

/// Fulfils all that the body's fiber owes.
pub(crate) fn discharge<P: Port<Body = Body>, R: ReadyLine>(
    port: &mut P,
    line: &mut R,
    body: &mut Body,
) -> Result<(), PortFault>
    requires up { IsUp (P.sight port.old) body.old }
    ensures on { IsOn (P.sight port.old) (P.sight port.new) body.old body.new (R.told line.old) (R.told line.new) }
    ensures rest { IsSameRest body.old body.new }
    ensures free { OnOk result (body.new.owes ≡ []) }
    ensures calm { OnOk result (Calm (P.sight port.old) (P.sight port.new)) }
    ensures gave_up { IfErr result (λ fault. Faulted fault (P.sight port.old) (P.sight port.new)) }
{
    fiber_await::discharge(port, line, body)
}

/// Whether a fiber may owe something behind the call that owed nothing before it.
pub(crate) fn brings_duties(call: Call) -> bool
    ensures { OnFalse result (BringsNone call) }
{
    matches!(call, Call::Complete { .. })
}
