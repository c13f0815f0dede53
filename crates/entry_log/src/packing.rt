//! Deeds as kinds and numbers, or whole.
ghost use Rattle.std.specs.Prelude.{◌≡◌, ◌+◌, ◌<◌, ◌≤◌, ◌++◌, length, vec_len, vec_capacity};
ghost use Rattle.entry_log.specs.Packing.{complete_kind, complete_numbers, kind_of, numbers_of, peek_kind, peek_numbers, whole_of, wholes, width};

use crate::kind::{Deed, Kind};
use crate::outcomes::{by_outcome, number_of};
use pic_base::{CompNo, Outcome};
use pic_machine::{Call, CompleteReply, Reply};

/// Puts a deed behind the others, its numbers into the one list or itself into the other, and answers
/// its kind.
#[inline(always)]
pub(crate) fn put(call: Call, reply: Reply, numbers: &mut Vec<u32>, kept: &mut Vec<Deed>) -> Kind
    requires numbers { vec_len numbers.old + 3 ≤ vec_capacity numbers.old }
    requires kept { vec_len kept.old < vec_capacity kept.old }
    ensures kind { result ≡ kind_of call reply }

    ensures numbers { numbers.new.items ≡ numbers.old.items ++ numbers_of call reply }
    ensures numbers_few { vec_len numbers.new ≤ vec_len numbers.old + 3 }
    ensures numbers_capacity { vec_capacity numbers.new ≡ vec_capacity numbers.old }

    ensures kept { kept.new.items ≡ kept.old.items ++ whole_of call reply }
    ensures kept_few { vec_len kept.new ≤ vec_len kept.old + 1 }
    ensures kept_capacity { vec_capacity kept.new ≡ vec_capacity kept.old }
{
    match (call, reply) {
        (Call::Turn, Reply::Plain) => Kind::Turn,
        (Call::Yield, Reply::Plain) => Kind::Yield,
        (Call::Say(value), Reply::Plain) => {
            numbers.push_reserved(value);
            Kind::Say
        }
        (Call::Peek(comp), Reply::Peeked(seen)) => put_peek(comp, seen, numbers),
        (Call::Complete { comp, outcome }, Reply::Completed(how)) => {
            put_complete(comp, outcome, how, numbers)
        }
        _ => {
            kept.push_reserved(Deed { call, reply });
            Kind::Whole
        }
    }
}

/// Puts the numbers of a look at a computation behind the others, and answers its kind.
#[inline(always)]
fn put_peek(comp: CompNo, seen: Option<Outcome>, numbers: &mut Vec<u32>) -> Kind
    requires { vec_len numbers.old + 2 ≤ vec_capacity numbers.old }
    ensures kind { result ≡ peek_kind seen }
    ensures numbers { numbers.new.items ≡ numbers.old.items ++ peek_numbers comp seen }
    ensures few { vec_len numbers.new ≤ vec_len numbers.old + 2 }
    ensures capacity { vec_capacity numbers.new ≡ vec_capacity numbers.old }
{
    numbers.push_reserved(comp);
    match seen {
        None => Kind::PeekedRunning,
        Some(outcome) => {
            numbers.push_reserved(number_of(outcome));
            by_outcome(outcome, Kind::PeekedReturned, Kind::PeekedCancelled)
        }
    }
}

/// Puts the numbers of a completion behind the others, and answers its kind.
#[inline(always)]
fn put_complete(comp: CompNo, outcome: Outcome, how: CompleteReply, numbers: &mut Vec<u32>) -> Kind
    requires { vec_len numbers.old + 3 ≤ vec_capacity numbers.old }
    ensures kind { result ≡ complete_kind outcome how }
    ensures numbers { numbers.new.items ≡ numbers.old.items ++ complete_numbers comp outcome how }
    ensures few { vec_len numbers.new ≤ vec_len numbers.old + 3 }
    ensures capacity { vec_capacity numbers.new ≡ vec_capacity numbers.old }
{
    numbers.push_reserved(comp);
    numbers.push_reserved(number_of(outcome));
    match how {
        CompleteReply::Won => by_outcome(outcome, Kind::ReturnWon, Kind::CancelWon),
        CompleteReply::Lost(standing) => {
            numbers.push_reserved(number_of(standing));
            by_outcome(
                outcome,
                by_outcome(
                    standing,
                    Kind::ReturnLostReturned,
                    Kind::ReturnLostCancelled,
                ),
                by_outcome(
                    standing,
                    Kind::CancelLostReturned,
                    Kind::CancelLostCancelled,
                ),
            )
        }
    }
}

/// How many numbers a deed of this kind has.
#[inline(always)]
pub(crate) fn width(kind: Kind) -> usize
    ensures { result ≡ width kind }
{
    match kind {
        Kind::Turn | Kind::Yield | Kind::Whole => 0,
        Kind::Say | Kind::PeekedRunning => 1,
        Kind::PeekedReturned | Kind::PeekedCancelled | Kind::ReturnWon | Kind::CancelWon => 2,
        Kind::ReturnLostReturned
        | Kind::ReturnLostCancelled
        | Kind::CancelLostReturned
        | Kind::CancelLostCancelled => 3,
    }
}

/// How many deeds are kept whole for one of this kind.
#[inline(always)]
pub(crate) fn wholes(kind: Kind) -> usize
    ensures { result ≡ wholes kind }
{
    match kind {
        Kind::Whole => 1,
        _ => 0,
    }
}
