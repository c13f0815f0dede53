//! What the texts of entries tell of replies. A word for each kind of reply prints `-` for a reply of
//! another kind, which no entry has.
ghost use Rattle.std.specs.Prelude.{Some};

use pic_base::Action;
use pic_machine::{ArmReply, AttachReply, CompleteReply, Reply, SignalReply, TrigState};
use std::fmt;

/// Prints the number of the thing that was made, behind the sign of its kind, or that none could be
/// made.
#[derive(Drop)]
pub(crate) struct MadeWords {
    pub(crate) sign: &'static str,
    pub(crate) reply: Reply,
}

impl fmt::Display for MadeWords {
    ghost use Rattle.pic_report.specs.EntryText.{made_words};

    ghost output = { λ shown. Some (made_words shown.sign.now shown.reply) };

    fn fmt<W: fmt::Write>(&self, f: &mut fmt::Formatter<W>) -> fmt::Result {
        let sign = self.sign;
        match self.reply {
            Reply::Made(number) => write!(f, "{sign}{number}"),
            Reply::Full => f.write_str("full"),
            _ => f.write_str("-"),
        }
    }
}

/// Prints how the trigger stood that was looked at.
#[derive(Drop)]
pub(crate) struct SeenWords {
    pub(crate) reply: Reply,
}

impl fmt::Display for SeenWords {
    ghost use Rattle.pic_report.specs.EntryText.{seen_words};

    ghost output = { λ shown. Some (seen_words shown.reply) };

    fn fmt<W: fmt::Write>(&self, f: &mut fmt::Formatter<W>) -> fmt::Result {
        match self.reply {
            Reply::Seen(TrigState::Initial) => f.write_str("initial"),
            Reply::Seen(TrigState::Awaiting(_)) => f.write_str("awaiting"),
            Reply::Seen(TrigState::Signalled) => f.write_str("signalled"),
            _ => f.write_str("-"),
        }
    }
}

/// Prints whether the call armed the trigger, and if not, why.
#[derive(Drop)]
pub(crate) struct ArmedWords {
    pub(crate) reply: Reply,
}

impl fmt::Display for ArmedWords {
    ghost use Rattle.pic_report.specs.EntryText.{armed_words};

    ghost output = { λ shown. Some (armed_words shown.reply) };

    fn fmt<W: fmt::Write>(&self, f: &mut fmt::Formatter<W>) -> fmt::Result {
        match self.reply {
            Reply::Armed(ArmReply::Set) => f.write_str("set"),
            Reply::Armed(ArmReply::Signalled) => f.write_str("signalled"),
            Reply::Armed(ArmReply::Taken) => f.write_str("taken"),
            _ => f.write_str("-"),
        }
    }
}

/// Prints what the signal met: nobody, what it did on behalf of whoever awaited the trigger, or that
/// it came too late.
#[derive(Drop)]
pub(crate) struct SignalledWords {
    pub(crate) reply: Reply,
}

impl fmt::Display for SignalledWords {
    ghost use Rattle.pic_report.specs.EntryText.{signalled_words};

    ghost output = { λ shown. Some (signalled_words shown.reply) };

    fn fmt<W: fmt::Write>(&self, f: &mut fmt::Formatter<W>) -> fmt::Result {
        match self.reply {
            Reply::Signalled(SignalReply::Plain) => f.write_str("plain"),
            Reply::Signalled(SignalReply::Acted(action)) => {
                let told = ActionText { action };
                write!(f, "{told}")
            }
            Reply::Signalled(SignalReply::Already) => f.write_str("already"),
            _ => f.write_str("-"),
        }
    }
}

/// Prints what a signal does on behalf of whoever armed the trigger.
#[derive(Drop)]
pub(crate) struct ActionText {
    pub(crate) action: Action,
}

impl fmt::Display for ActionText {
    ghost use Rattle.pic_report.specs.EntryText.{action_text};

    ghost output = { λ shown. Some (action_text shown.action) };

    fn fmt<W: fmt::Write>(&self, f: &mut fmt::Formatter<W>) -> fmt::Result {
        match self.action {
            Action::Resume(fiber) => write!(f, "resume {fiber}"),
        }
    }
}

/// Prints whether the call attached the trigger, and the outcome that stood if not.
#[derive(Drop)]
pub(crate) struct AttachedWords {
    pub(crate) reply: Reply,
}

impl fmt::Display for AttachedWords {
    ghost use Rattle.pic_report.specs.EntryText.{attached_words};

    ghost output = { λ shown. Some (attached_words shown.reply) };

    fn fmt<W: fmt::Write>(&self, f: &mut fmt::Formatter<W>) -> fmt::Result {
        match self.reply {
            Reply::Attached(AttachReply::Attached) => f.write_str("attached"),
            Reply::Attached(AttachReply::Completed(outcome)) => write!(f, "{outcome}"),
            _ => f.write_str("-"),
        }
    }
}

/// Prints whether the call completed the computation, and the outcome that stood if not.
#[derive(Drop)]
pub(crate) struct CompletedWords {
    pub(crate) reply: Reply,
}

impl fmt::Display for CompletedWords {
    ghost use Rattle.pic_report.specs.EntryText.{completed_words};

    ghost output = { λ shown. Some (completed_words shown.reply) };

    fn fmt<W: fmt::Write>(&self, f: &mut fmt::Formatter<W>) -> fmt::Result {
        match self.reply {
            Reply::Completed(CompleteReply::Won) => f.write_str("won"),
            Reply::Completed(CompleteReply::Lost(standing)) => write!(f, "lost {standing}"),
            _ => f.write_str("-"),
        }
    }
}

/// Prints how the computation stood that was looked at.
#[derive(Drop)]
pub(crate) struct PeekedWords {
    pub(crate) reply: Reply,
}

impl fmt::Display for PeekedWords {
    ghost use Rattle.pic_report.specs.EntryText.{peeked_words};

    ghost output = { λ shown. Some (peeked_words shown.reply) };

    fn fmt<W: fmt::Write>(&self, f: &mut fmt::Formatter<W>) -> fmt::Result {
        match self.reply {
            Reply::Peeked(None) => f.write_str("running"),
            Reply::Peeked(Some(outcome)) => write!(f, "{outcome}"),
            _ => f.write_str("-"),
        }
    }
}
