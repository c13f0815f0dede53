ghost use Rattle.std.specs.Prelude.{◌≡◌, ◌≢◌, ◌≤◌, ℕ, [], ◌∷◌, List, Option, None, OnOk, IfOk, IfErr, slice_get};
ghost use Rattle.std.specs.Bool.{OnFalse, OnTrue};
ghost use Rattle.pic_machine.specs.Final.{IsFinal};
ghost use Rattle.pic_machine.specs.History.{event, forked, world};
ghost use Rattle.pic_machine.specs.Log.{log};
ghost use Rattle.pic_machine.specs.State.{IsStart};
ghost use Rattle.pic_machine.specs.Sight.{CanMake, Holds, IsChild, IsSame, Sight, fiber_of};

use crate::body::Carried;
use crate::entry::{ArmReply, AttachReply, Call, CompleteReply, Reply, SignalReply};
use crate::state::TrigState;
use pic_base::{Action, CompNo, Duty, FiberNo, Outcome, PlaceNo, TriggerNo, Value};

/// Why a call of a port gave up.
#[derive(Clone, Copy, Debug, PartialEq, Eq)]
pub enum PortFault {
    /// No further thing of the kind may be made.
    Full,
    /// Another port was in the way; the call may be made again.
    Again,
    /// Memory was wanted and there was none.
    Memory,
}

/// Why a fiber's body wasn't claimed.
#[derive(Clone, Copy, Debug, PartialEq, Eq)]
pub enum ClaimRefusal {
    /// The fiber isn't ready.
    NotReady,
    Again,
    Memory,
}

/// Why a fiber wasn't suspended at a trigger.
#[derive(Clone, Copy, Debug, PartialEq, Eq)]
pub enum ParkRefusal {
    /// The trigger is signalled.
    Signalled,
    /// Somebody awaits it already.
    Taken,
    Again,
    Memory,
}

/// What a port without a ready fiber found.
#[derive(Clone, Copy, Debug, PartialEq, Eq)]
pub enum Idle {
    /// A fiber is live, or something is owed.
    Busy,
    /// Nothing is left to do.
    Over,
}

/// Where the numbers of fibers that became ready go. Contracts see it as the list of them, until it
/// tells nothing any more.
pub trait ReadyLine {
    ghost use Rattle.pic_machine.specs.Turning.{Adds};

    ghost told: { Self → Option (List ℕ) };

    /// Puts a fiber at the end.
    fn add(&mut self, fiber: FiberNo)
        ensures { Adds (told self.old) (told self.new) (fiber ∷ []) };
}

/// A way into one history of the machine. A port has the bodies of the fibers, and makes their
/// entries; it has one body out at most. Contracts see it as a `Sight` of `specs/Sight.antt`: the
/// front of the history that it has seen, and what stands beside that.
///
/// A call with a body that is out makes one entry, after any that were made on other ports, and notes
/// it in the body; or it is refused, and the body is as before.
pub trait Port: Drop {
    ghost use Rattle.pic_machine.specs.Lending.{Answered, Began, Called, Calm, Faulted, FitsWith, Kept, Laid, Lent, Made, NotClaimed, NotParked, Refuses, RefusesMaking, Spared};

    type Body: Carried;

    ghost sight: { Self → Sight Self.Body.Share };

    // What this port found says that the fiber wasn't ready, or that a fiber was live or owed.
    ghost missed: { Self → ℕ → Type 0 };

    ghost busy: { Self → Type 0 };

    /// How often a call was refused since another port was in the way.
    fn contended(&self) -> u64
        ensures { result ≡ (sight self.now).contention };

    /// Says a value, for the report.
    fn say(&mut self, body: &mut Self::Body, value: Value) -> Result<(), PortFault>
        requires { CanMake (sight self.old) (Self.Body.seen body.old) (Call.Say value) }
        ensures made { OnOk result (Called (sight self.old) (sight self.new)
            (Self.Body.seen body.old) (Self.Body.seen body.new) (Call.Say value) Reply.Plain) }
        ensures none { IfErr result (λ fault. Refuses fault (sight self.old) (sight self.new)
            (Self.Body.seen body.old) (Self.Body.seen body.new)) }
        ensures rest { Self.Body.same_rest body.old body.new };

    /// Makes a trigger.
    fn new_trigger(&mut self, body: &mut Self::Body) -> Result<TriggerNo, PortFault>
        requires { CanMake (sight self.old) (Self.Body.seen body.old) Call.NewTrigger }
        ensures made { IfOk result (λ trigger. Called (sight self.old) (sight self.new)
            (Self.Body.seen body.old) (Self.Body.seen body.new) Call.NewTrigger (Reply.Made trigger)) }
        ensures none { IfErr result (λ fault. RefusesMaking fault (sight self.old) (sight self.new)
            (Self.Body.seen body.old) (Self.Body.seen body.new) Call.NewTrigger) }
        ensures rest { Self.Body.same_rest body.old body.new };

    /// Makes a place, which one attachment can take.
    fn new_place(&mut self, body: &mut Self::Body) -> Result<PlaceNo, PortFault>
        requires { CanMake (sight self.old) (Self.Body.seen body.old) Call.NewPlace }
        ensures made { IfOk result (λ place. Called (sight self.old) (sight self.new)
            (Self.Body.seen body.old) (Self.Body.seen body.new) Call.NewPlace (Reply.Made place)) }
        ensures none { IfErr result (λ fault. RefusesMaking fault (sight self.old) (sight self.new)
            (Self.Body.seen body.old) (Self.Body.seen body.new) Call.NewPlace) }
        ensures rest { Self.Body.same_rest body.old body.new };

    /// Looks at a trigger.
    fn look(&mut self, body: &mut Self::Body, trigger: TriggerNo) -> Result<TrigState, PortFault>
        requires { CanMake (sight self.old) (Self.Body.seen body.old) (Call.Look trigger) }
        ensures made { IfOk result (λ state. Answered (sight self.old) (sight self.new)
            (Self.Body.seen body.old) (Self.Body.seen body.new) (Call.Look trigger) (Reply.Seen state)) }
        ensures none { IfErr result (λ fault. Refuses fault (sight self.old) (sight self.new)
            (Self.Body.seen body.old) (Self.Body.seen body.new)) }
        ensures rest { Self.Body.same_rest body.old body.new };

    /// Signals a trigger, and makes the fiber ready that is suspended at it.
    fn signal(
        &mut self,
        body: &mut Self::Body,
        trigger: TriggerNo,
    ) -> Result<SignalReply, PortFault>
        requires { CanMake (sight self.old) (Self.Body.seen body.old) (Call.Signal trigger) }
        ensures made { IfOk result (λ how. Answered (sight self.old) (sight self.new)
            (Self.Body.seen body.old) (Self.Body.seen body.new)
            (Call.Signal trigger) (Reply.Signalled how)) }
        ensures none { IfErr result (λ fault. Refuses fault (sight self.old) (sight self.new)
            (Self.Body.seen body.old) (Self.Body.seen body.new)) }
        ensures rest { Self.Body.same_rest body.old body.new };

    /// Attaches a trigger to a computation, where that is running.
    fn attach(
        &mut self,
        body: &mut Self::Body,
        place: PlaceNo,
        comp: CompNo,
        trigger: TriggerNo,
    ) -> Result<AttachReply, PortFault>
        requires { CanMake (sight self.old) (Self.Body.seen body.old) (Call.Attach place comp trigger) }
        ensures made { IfOk result (λ how. Called (sight self.old) (sight self.new)
            (Self.Body.seen body.old) (Self.Body.seen body.new)
            (Call.Attach place comp trigger) (Reply.Attached how)) }
        ensures none { IfErr result (λ fault. Refuses fault (sight self.old) (sight self.new)
            (Self.Body.seen body.old) (Self.Body.seen body.new)) }
        ensures rest { Self.Body.same_rest body.old body.new };

    /// The first of what the body's fiber owes, by no entry.
    fn walk_next(&mut self, body: &mut Self::Body) -> Option<Duty>
        requires { Holds (sight self.old) (Self.Body.seen body.old) }
        ensures first { result ≡ slice_get (Self.Body.seen body.old).owes 0 }
        ensures spared { Spared (sight self.old) (sight self.new)
            (Self.Body.seen body.old) (Self.Body.seen body.new) }
        ensures calm { Calm (sight self.old) (sight self.new) }
        ensures rest { Self.Body.same_rest body.old body.new };

    /// Looks at a computation.
    fn peek(&mut self, body: &mut Self::Body, comp: CompNo) -> Result<Option<Outcome>, PortFault>
        requires { CanMake (sight self.old) (Self.Body.seen body.old) (Call.Peek comp) }
        ensures made { IfOk result (λ seen. Answered (sight self.old) (sight self.new)
            (Self.Body.seen body.old) (Self.Body.seen body.new) (Call.Peek comp) (Reply.Peeked seen)) }
        ensures none { IfErr result (λ fault. Refuses fault (sight self.old) (sight self.new)
            (Self.Body.seen body.old) (Self.Body.seen body.new)) }
        ensures rest { Self.Body.same_rest body.old body.new };

    /// Completes a computation, if nobody has yet.
    fn complete(
        &mut self,
        body: &mut Self::Body,
        comp: CompNo,
        outcome: Outcome,
    ) -> Result<CompleteReply, PortFault>
        requires { CanMake (sight self.old) (Self.Body.seen body.old) (Call.Complete comp outcome) }
        ensures made { IfOk result (λ how. Answered (sight self.old) (sight self.new)
            (Self.Body.seen body.old) (Self.Body.seen body.new)
            (Call.Complete comp outcome) (Reply.Completed how)) }
        ensures none { IfErr result (λ fault. Refuses fault (sight self.old) (sight self.new)
            (Self.Body.seen body.old) (Self.Body.seen body.new)) }
        ensures rest { Self.Body.same_rest body.old body.new };

    /// Makes a fiber of the child's body, gives it its number, and makes it ready. A refusal hands the
    /// child back.
    fn fork(
        &mut self,
        body: &mut Self::Body,
        text: u32,
        value: Value,
        child: Self::Body,
    ) -> Result<FiberNo, (Self::Body, PortFault)>
        requires can { CanMake (sight self.old) (Self.Body.seen body.old) (Call.Fork text value) }
        requires child { IsChild (sight self.old) (Self.Body.seen child) text value }
        requires fresh { Self.Body.fits child [] }
        ensures made { IfOk result (λ number. Lent (sight self.old) (sight self.new)
            (Self.Body.seen body.old) (Self.Body.seen body.new)
            (forked (fiber_of (Self.Body.seen body.old)) number (Self.Body.seen child).birth)) }
        ensures none { IfErr result (λ refused. RefusesMaking refused.1 (sight self.old) (sight self.new)
            (Self.Body.seen body.old) (Self.Body.seen body.new) (Call.Fork text value)) }
        ensures back { IfErr result (λ refused.
            IsSame (Self.Body.seen child) (Self.Body.seen refused.0)
            × ((Self.Body.seen refused.0).owes ≡ [])
            × Self.Body.same_rest child refused.0) }
        ensures rest { Self.Body.same_rest body.old body.new };

    /// Takes the body of a ready fiber out, and begins a turn of it.
    fn claim(&mut self, fiber: FiberNo) -> Result<Self::Body, ClaimRefusal>
        requires out { (sight self.old).out ≡ None }
        requires range { (1 ≤ fiber) × (fiber ≤ (sight self.old).origin.world.limits.fibers) }
        ensures made { OnOk result (Began (sight self.old) (sight self.new)
            (event fiber Call.Turn Reply.Plain)) }
        ensures body { IfOk result (λ body. Holds (sight self.new) (Self.Body.seen body)
            × (fiber_of (Self.Body.seen body) ≡ fiber)
            × Self.Body.fits body (log (sight self.new).front fiber)) }
        ensures none { IfErr result (λ refused. Kept (sight self.old) (sight self.new)
            × NotClaimed refused (sight self.old) (sight self.new) (missed self.new fiber)) };

    /// Takes a body back whose fiber goes on in a later turn: with `yielded` by the entry that ends
    /// its turn, and else without an entry.
    fn lay(&mut self, body: Self::Body, yielded: bool) -> Result<(), (Self::Body, PortFault)>
        requires holds { Holds (sight self.old) (Self.Body.seen body) }
        requires fiber { fiber_of (Self.Body.seen body) ≢ 0 }
        requires can { OnTrue yielded
            (CanMake (sight self.old) (Self.Body.seen body) Call.Yield) }
        requires after { OnTrue yielded
            (FitsWith Self.Body.seen Self.Body.same_rest Self.Body.fits body
            (log (sight self.old).front (fiber_of (Self.Body.seen body)))
            (event (fiber_of (Self.Body.seen body)) Call.Yield Reply.Plain)) }
        requires fits { OnFalse yielded
            (Self.Body.fits body (log (sight self.old).front (fiber_of (Self.Body.seen body)))) }
        ensures yielded { OnOk result (OnTrue yielded (Made (sight self.old) (sight self.new)
            (event (fiber_of (Self.Body.seen body)) Call.Yield Reply.Plain))) }
        ensures laid { OnOk result (OnFalse yielded
            (Laid (sight self.old) (sight self.new) (fiber_of (Self.Body.seen body)))) }
        ensures out { OnOk result ((sight self.new).out ≡ None) }
        ensures none { IfErr result (λ refused. Refuses refused.1 (sight self.old) (sight self.new)
            (Self.Body.seen body) (Self.Body.seen refused.0)
            × Self.Body.same_rest body refused.0) };

    /// Arms a trigger with the resumption of the body's fiber, which is suspended at it from then on. Where
    /// the trigger is signalled or awaited already, the fiber goes on, and the body is handed back.
    fn park(
        &mut self,
        trigger: TriggerNo,
        body: Self::Body,
    ) -> Result<(), (Self::Body, ParkRefusal)>
        requires can { CanMake (sight self.old) (Self.Body.seen body)
            (Call.Arm trigger (Action.Resume (fiber_of (Self.Body.seen body)))) }
        requires after { FitsWith Self.Body.seen Self.Body.same_rest Self.Body.fits body
            (log (sight self.old).front (fiber_of (Self.Body.seen body)))
            (event (fiber_of (Self.Body.seen body))
            (Call.Arm trigger (Action.Resume (fiber_of (Self.Body.seen body))))
            (Reply.Armed ArmReply.Set)) }
        ensures made { OnOk result (Made (sight self.old) (sight self.new)
            (event (fiber_of (Self.Body.seen body))
            (Call.Arm trigger (Action.Resume (fiber_of (Self.Body.seen body))))
            (Reply.Armed ArmReply.Set))) }
        ensures out { OnOk result ((sight self.new).out ≡ None) }
        ensures none { IfErr result (λ refused. NotParked refused.1 (sight self.old) (sight self.new)
            (Self.Body.seen body) (Self.Body.seen refused.0)
            (Call.Arm trigger (Action.Resume (fiber_of (Self.Body.seen body))))
            × Self.Body.same_rest body refused.0) };

    /// Ends the body's fiber, and keeps the body for the report.
    fn end(&mut self, body: Self::Body, outcome: Outcome) -> Result<(), (Self::Body, PortFault)>
        requires can { CanMake (sight self.old) (Self.Body.seen body) (Call.End outcome) }
        requires after { FitsWith Self.Body.seen Self.Body.same_rest Self.Body.fits body
            (log (sight self.old).front (fiber_of (Self.Body.seen body)))
            (event (fiber_of (Self.Body.seen body)) (Call.End outcome) Reply.Plain) }
        ensures made { OnOk result (Made (sight self.old) (sight self.new)
            (event (fiber_of (Self.Body.seen body)) (Call.End outcome) Reply.Plain)) }
        ensures out { OnOk result ((sight self.new).out ≡ None) }
        ensures none { IfErr result (λ refused. Refuses refused.1 (sight self.old) (sight self.new)
            (Self.Body.seen body) (Self.Body.seen refused.0)
            × Self.Body.same_rest body refused.0) };

    /// Looks whether anything is left to do.
    fn idle(&mut self) -> Result<Idle, PortFault>
        requires { (sight self.old).out ≡ None }
        ensures busy { result ≡ Ok Idle.Busy → Kept (sight self.old) (sight self.new)
            × Calm (sight self.old) (sight self.new) × busy self.new }
        ensures over { result ≡ Ok Idle.Over → Kept (sight self.old) (sight self.new)
            × Calm (sight self.old) (sight self.new)
            × IsFinal (world (sight self.new).origin (sight self.new).front) }
        ensures none { IfErr result (λ fault. Kept (sight self.old) (sight self.new)
            × Faulted fault (sight self.old) (sight self.new)) };

    // Its history begins as a world starts.
    ghost starts: { (port : Self) → IsStart (sight port).origin.world };
}
