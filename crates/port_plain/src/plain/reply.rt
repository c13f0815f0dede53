//! What replies tell.
ghost use Rattle.std.specs.Prelude.{◌≡◌, Option};
ghost use Rattle.port_plain.specs.Shown.{made_of};

use pic_base::Outcome;
use pic_machine::{ArmReply, AttachReply, CompleteReply, Reply, SignalReply, TrigState};

/// The number of what was made.
pub(crate) fn made(reply: Reply) -> Option<u32>
    ensures { result ≡ made_of reply }
{
    match reply {
        Reply::Made(number) => Some(number),
        _ => None,
    }
}

/// How a trigger stands that was looked at.
pub(crate) fn seen(reply: Reply) -> TrigState
    requires { (state : TrigState) × (reply ≡ Reply.Seen state) }
    ensures { reply ≡ Reply.Seen result }
{
    match reply {
        Reply::Seen(state) => state,
        _ => unreachable!("a look is told how the trigger stands"),
    }
}

/// Whether a trigger was armed.
pub(crate) fn armed(reply: Reply) -> ArmReply
    requires { (how : ArmReply) × (reply ≡ Reply.Armed how) }
    ensures { reply ≡ Reply.Armed result }
{
    match reply {
        Reply::Armed(how) => how,
        _ => unreachable!("whoever arms a trigger is told how it went"),
    }
}

/// What a signal met.
pub(crate) fn signalled(reply: Reply) -> SignalReply
    requires { (how : SignalReply) × (reply ≡ Reply.Signalled how) }
    ensures { reply ≡ Reply.Signalled result }
{
    match reply {
        Reply::Signalled(how) => how,
        _ => unreachable!("a signal is told what it met"),
    }
}

/// Whether a trigger was attached.
pub(crate) fn attached(reply: Reply) -> AttachReply
    requires { (how : AttachReply) × (reply ≡ Reply.Attached how) }
    ensures { reply ≡ Reply.Attached result }
{
    match reply {
        Reply::Attached(how) => how,
        _ => unreachable!("an attachment is told how it went"),
    }
}

/// The outcome of a computation that was peeked at.
pub(crate) fn peeked(reply: Reply) -> Option<Outcome>
    requires { (seen : Option Outcome) × (reply ≡ Reply.Peeked seen) }
    ensures { reply ≡ Reply.Peeked result }
{
    match reply {
        Reply::Peeked(seen) => seen,
        _ => unreachable!("a peek is told the outcome"),
    }
}

/// How a completion went.
pub(crate) fn completed(reply: Reply) -> CompleteReply
    requires { (how : CompleteReply) × (reply ≡ Reply.Completed how) }
    ensures { reply ≡ Reply.Completed result }
{
    match reply {
        Reply::Completed(how) => how,
        _ => unreachable!("a completion is told how it went"),
    }
}
