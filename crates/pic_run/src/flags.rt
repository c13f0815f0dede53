//! The flags of a run.
ghost use Rattle.std.specs.Prelude.{◌≡◌, Some, map, string_bytes};
ghost use Rattle.pic_run.specs.Request.{no_flags, with_flag, with_flags};

/// Whether the report is to have what each fiber did, and each entry of the run.
#[derive(Clone, Copy, Debug, PartialEq, Eq)]
pub(crate) struct Flags {
    pub(crate) log: bool,
    pub(crate) trace: bool,
}

/// The flags that the words set, each at most once; none where a word is no flag.
pub(crate) fn flags_of(words: &[String]) -> Option<Flags>
    ensures { result ≡ with_flags (Some no_flags) (map string_bytes words.now) }
{
    let mut flags = Flags {
        log: false,
        trace: false,
    };
    for word in words {
        flags = with_flag(flags, word.as_str())?;
    }
    Some(flags)
}

/// The flags with the one that the word sets.
fn with_flag(flags: Flags, word: &str) -> Option<Flags>
    ensures { result ≡ with_flag flags word.now }
{
    if word == "--log" && !flags.log {
        return Some(Flags { log: true, ..flags });
    }
    if word == "--trace" && !flags.trace {
        return Some(Flags {
            trace: true,
            ..flags
        });
    }
    None
}
