//! The texts of entries.
ghost use Rattle.std.specs.Prelude.{◌≡◌};
ghost use Rattle.pic_report.specs.EntryText.{text_name};
ghost use Rattle.pic_report.specs.Report.{text_names};

use crate::reply_words::{
    ActionText, ArmedWords, AttachedWords, CompletedWords, MadeWords, PeekedWords, SeenWords,
    SignalledWords,
};
use pic_machine::{Call, Entry};
use script_tree::Program;
use std::fmt;

/// Prints as the text of an entry of a run of the program.
#[derive(Drop)]
pub(crate) struct EntryText<'a> {
    pub(crate) program: &'a Program,
    pub(crate) entry: Entry,
}

impl fmt::Display for EntryText<'_> {
    ghost use Rattle.std.specs.Prelude.{Some};
    ghost use Rattle.pic_report.specs.EntryText.{entry_text};

    ghost output = { λ shown.
        Some (entry_text (text_names shown.program.now) shown.entry.call shown.entry.reply) };

    fn fmt<W: fmt::Write>(&self, f: &mut fmt::Formatter<W>) -> fmt::Result {
        let reply = self.entry.reply;
        match self.entry.call {
            Call::Turn => f.write_str("turn"),
            Call::Yield => f.write_str("yield"),
            Call::NewTrigger => {
                let told = MadeWords { sign: "t", reply };
                write!(f, "new_trigger {told}")
            }
            Call::NewPlace => {
                let told = MadeWords { sign: "a", reply };
                write!(f, "new_place {told}")
            }
            Call::Look(trigger) => {
                let told = SeenWords { reply };
                write!(f, "look t{trigger} {told}")
            }
            Call::Arm { trigger, action } => {
                let action = ActionText { action };
                let told = ArmedWords { reply };
                write!(f, "arm t{trigger} {action} {told}")
            }
            Call::Signal(trigger) => {
                let told = SignalledWords { reply };
                write!(f, "signal t{trigger} {told}")
            }
            Call::Attach {
                place,
                comp,
                trigger,
            } => {
                let told = AttachedWords { reply };
                write!(f, "attach a{place} c{comp} t{trigger} {told}")
            }
            Call::Complete { comp, outcome } => {
                let told = CompletedWords { reply };
                write!(f, "complete c{comp} {outcome} {told}")
            }
            Call::Peek(comp) => {
                let told = PeekedWords { reply };
                write!(f, "peek c{comp} {told}")
            }
            Call::Fork { text, value } => {
                let told = MadeWords { sign: "", reply };
                let name = text_name(self.program, text);
                write!(f, "fork {told} {name} {value}")
            }
            Call::Say(value) => write!(f, "say {value}"),
            Call::End(outcome) => write!(f, "end {outcome}"),
        }
    }
}

/// The name of the text with this number, or `-`.
pub(crate) fn text_name(program: &Program, text: u32) -> &str
    ensures { result.now ≡ text_name (text_names program.now) text }
{
    match program.texts.get(text as usize) {
        Some(text) => text.name.as_str(),
        None => "-",
    }
}
