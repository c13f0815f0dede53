//! Fulfilling what a fiber owes.
ghost use Rattle.std.specs.Prelude.{◌≡◌, ◌+◌, [], Some, IfErr, OnOk, length, slice_get};
ghost use Rattle.pic_machine.specs.Lending.{Calm, Faulted};
ghost use Rattle.pic_machine.specs.Log.{log, own};
ghost use Rattle.pic_machine.specs.Sight.{Holds, fiber_of};
ghost use Rattle.pic_machine.specs.Turning.{Adds};
ghost use Rattle.fiber_await.specs.Discharging.{Discharged, resumed_by};

use crate::calls::signal;
use pic_base::{Action, Duty};
use pic_machine::{Port, PortFault, ReadyLine, SignalReply};

/// Fulfils all that the body's fiber owes, in order, and adds each fiber that this makes ready to the
/// line. Where it gives up, what is fulfilled stays so, and it goes on there when it is called again.
pub fn discharge<P: Port, R: ReadyLine>(
    port: &mut P,
    line: &mut R,
    body: &mut P::Body,
) -> Result<(), PortFault>
    requires { Holds (P.sight port.old) (P.Body.seen body.old) }
    ensures discharged { Discharged (P.sight port.old) (P.sight port.new)
        (P.Body.seen body.old) (P.Body.seen body.new) (R.told line.old) (R.told line.new) }
    ensures own { own (log (P.sight port.new).front (fiber_of (P.Body.seen body.old)))
        ≡ own (log (P.sight port.old).front (fiber_of (P.Body.seen body.old))) }
    ensures owes { OnOk result ((P.Body.seen body.new).owes ≡ []) }
    ensures calm { OnOk result (Calm (P.sight port.old) (P.sight port.new)) }
    ensures gave_up { IfErr result (λ fault. Faulted fault (P.sight port.old) (P.sight port.new)) }
    ensures rest { P.Body.same_rest body.old body.new }
{
    while let Some(duty) = port.walk_next(body) {
        fulfil(port, line, body, duty)?;
    }
    Ok(())
}

/// Fulfils the first duty.
fn fulfil<P: Port, R: ReadyLine>(
    port: &mut P,
    line: &mut R,
    body: &mut P::Body,
    duty: Duty,
) -> Result<(), PortFault>
    requires holds { Holds (P.sight port.old) (P.Body.seen body.old) }
    requires first { Some duty ≡ slice_get (P.Body.seen body.old).owes 0 }
    ensures discharged { Discharged (P.sight port.old) (P.sight port.new)
        (P.Body.seen body.old) (P.Body.seen body.new) (R.told line.old) (R.told line.new) }
    ensures fewer { OnOk result (length (P.Body.seen body.old).owes ≡ length (P.Body.seen body.new).owes + 1) }
    ensures calm { OnOk result (Calm (P.sight port.old) (P.sight port.new)) }
    ensures gave_up { IfErr result (λ fault. Faulted fault (P.sight port.old) (P.sight port.new)) }
    ensures rest { P.Body.same_rest body.old body.new }
{
    let Duty::Signal(trigger) = duty else {
        unreachable!("nothing brings another duty")
    };
    let how = signal(port, body, trigger)?;
    tell(line, how);
    Ok(())
}

/// Adds the fiber that a signal made ready to the line, if it made one.
pub(crate) fn tell<R: ReadyLine>(line: &mut R, how: SignalReply)
    ensures { Adds (R.told line.old) (R.told line.new) (resumed_by how) }
{
    if let SignalReply::Acted(Action::Resume(fiber)) = how {
        line.add(fiber);
    }
}
