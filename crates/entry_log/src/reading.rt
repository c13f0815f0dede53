//! Deeds from kinds and numbers.
ghost use Rattle.std.specs.Prelude.{◌≡◌, ◌≤◌, length};
ghost use Rattle.entry_log.specs.Packing.{width};
ghost use Rattle.entry_log.specs.Reading.{call_of, deed_of, reply_of};

use crate::kind::{Deed, Kind};
use pic_base::Outcome;
use pic_machine::{Call, CompleteReply, Reply};

/// The deed of this kind with these numbers, or that is kept whole.
#[inline(always)]
pub(crate) fn read(kind: Kind, numbers: &[u32], kept: &[Deed]) -> Deed
    requires { width kind ≤ length numbers.now }
    ensures { result ≡ deed_of kind numbers.now kept.now }
{
    match kept.first() {
        Some(deed) => *deed,
        None => Deed {
            call: call_of(kind, numbers),
            reply: reply_of(kind, numbers),
        },
    }
}

/// The call of a deed of this kind with these numbers. Of one that is kept whole there is none to be read.
#[inline(always)]
fn call_of(kind: Kind, numbers: &[u32]) -> Call
    requires { width kind ≤ length numbers.now }
    ensures { result ≡ call_of kind numbers.now }
{
    match kind {
        Kind::Turn | Kind::Whole => Call::Turn,
        Kind::Yield => Call::Yield,
        Kind::Say => Call::Say(numbers[0]),
        Kind::PeekedRunning | Kind::PeekedReturned | Kind::PeekedCancelled => {
            Call::Peek(numbers[0])
        }
        Kind::ReturnWon | Kind::ReturnLostReturned | Kind::ReturnLostCancelled => {
            Call::Complete {
                comp: numbers[0],
                outcome: Outcome::Returned(numbers[1]),
            }
        }
        Kind::CancelWon | Kind::CancelLostReturned | Kind::CancelLostCancelled => {
            Call::Complete {
                comp: numbers[0],
                outcome: Outcome::Cancelled(numbers[1]),
            }
        }
    }
}

/// The reply of a deed of this kind with these numbers. Of one that is kept whole there is none to be read.
#[inline(always)]
fn reply_of(kind: Kind, numbers: &[u32]) -> Reply
    requires { width kind ≤ length numbers.now }
    ensures { result ≡ reply_of kind numbers.now }
{
    match kind {
        Kind::Turn | Kind::Yield | Kind::Say | Kind::Whole => Reply::Plain,
        Kind::PeekedRunning => Reply::Peeked(None),
        Kind::PeekedReturned => Reply::Peeked(Some(Outcome::Returned(numbers[1]))),
        Kind::PeekedCancelled => Reply::Peeked(Some(Outcome::Cancelled(numbers[1]))),
        Kind::ReturnWon | Kind::CancelWon => Reply::Completed(CompleteReply::Won),
        Kind::ReturnLostReturned | Kind::CancelLostReturned => {
            Reply::Completed(CompleteReply::Lost(Outcome::Returned(numbers[2])))
        }
        Kind::ReturnLostCancelled | Kind::CancelLostCancelled => {
            Reply::Completed(CompleteReply::Lost(Outcome::Cancelled(numbers[2])))
        }
    }
}
