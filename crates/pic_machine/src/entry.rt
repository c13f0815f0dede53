use crate::state::TrigState;
use pic_base::{Action, CompNo, FiberNo, Outcome, PlaceNo, TriggerNo, Value};

/// What a fiber asks of the machine.
#[derive(Clone, Copy, Debug, PartialEq, Eq)]
pub enum Call {
    /// Begins a turn of the fiber.
    Turn,
    /// Ends the turn; the fiber goes on in a later one (Picos: `Fiber.yield`).
    Yield,
    /// Makes a trigger (Picos: `Trigger.create`).
    NewTrigger,
    /// Makes a place, which one attachment can take.
    NewPlace,
    /// Looks at a trigger (Picos: `Trigger.is_signaled`).
    Look(TriggerNo),
    /// Arms a trigger that nobody awaits: its signal then does this. With the caller's resumption the
    /// caller is suspended until then (Picos: `Trigger.on_signal`, `Trigger.await`).
    Arm {
        trigger: TriggerNo,
        action: Action,
    },
    /// Signals a trigger (Picos: `Trigger.signal`).
    Signal(TriggerNo),
    /// Attaches a trigger to a computation, whose completion then signals it (Picos:
    /// `Computation.try_attach`).
    Attach {
        place: PlaceNo,
        comp: CompNo,
        trigger: TriggerNo,
    },
    /// Completes a computation, if nobody has yet (Picos: `Computation.try_return`,
    /// `Computation.try_cancel`).
    Complete {
        comp: CompNo,
        outcome: Outcome,
    },
    /// Looks at a computation (Picos: `Computation.peek`).
    Peek(CompNo),
    /// Makes a fiber, which runs this text and is handed this value (Picos: `Fiber.spawn`).
    Fork {
        text: u32,
        value: Value,
    },
    /// Says a value, for the report.
    Say(Value),
    /// Ends the fiber.
    End(Outcome),
}

/// Whether a call armed a trigger.
#[derive(Clone, Copy, Debug, PartialEq, Eq)]
pub enum ArmReply {
    Set,
    /// It was signalled already.
    Signalled,
    /// Somebody awaits it already.
    Taken,
}

/// What a signal met.
#[derive(Clone, Copy, Debug, PartialEq, Eq)]
pub enum SignalReply {
    /// Nobody awaited the trigger.
    Plain,
    /// This was done on behalf of whoever awaited it.
    Acted(Action),
    /// It was signalled already.
    Already,
}

/// Whether a call attached a trigger to a computation.
#[derive(Clone, Copy, Debug, PartialEq, Eq)]
pub enum AttachReply {
    Attached,
    /// The computation has this outcome already.
    Completed(Outcome),
}

/// Whether a call completed a computation.
#[derive(Clone, Copy, Debug, PartialEq, Eq)]
pub enum CompleteReply {
    /// This call completed it: true for one call alone.
    Won,
    /// It had this outcome already.
    Lost(Outcome),
}

/// What the machine answers.
#[derive(Clone, Copy, Debug, PartialEq, Eq)]
pub enum Reply {
    Plain,
    /// No further thing of the kind may be made.
    Full,
    /// The number of the thing that was made.
    Made(u32),
    /// How the trigger stands that was looked at.
    Seen(TrigState),
    Armed(ArmReply),
    Signalled(SignalReply),
    Attached(AttachReply),
    Completed(CompleteReply),
    /// The outcome of the computation that was peeked at, none where it is running.
    Peeked(Option<Outcome>),
}

/// One event of the machine: the fiber that called, its call and the reply that it got.
#[derive(Clone, Copy, Debug, PartialEq, Eq)]
pub struct Entry {
    pub fiber: FiberNo,
    pub call: Call,
    pub reply: Reply,
}
