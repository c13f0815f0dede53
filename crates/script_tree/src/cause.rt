//! Why a script is refused, and the number that tells it.
ghost use Rattle.std.specs.Prelude.{◌≡◌};

/// Why a script is refused.
#[derive(Clone, Copy, PartialEq, Eq)]
pub enum Cause {
    /// The first line with words isn't `picos 1`, or there is none.
    Header,
    /// A word that can't stand there, a word missing at the line's end, or one too many.
    Word,
    /// The file ends inside a text.
    TextOpen,
    /// A name that isn't known, where a known one is wanted.
    Unknown,
    /// A declared name that is already taken.
    Taken,
    /// A known name of another kind than wanted.
    OtherKind,
    /// A number above 4294967295.
    LargeNumber,
    /// A register or key above 15, or a promise register above 7.
    LargeRegister,
    /// More of a kind than a script may have.
    TooMany,
    /// A block inside too many open ones.
    TooDeep,
    /// The file ends outside a text, and no main text was there.
    NoMain,
    /// Words after the main text.
    AfterMain,
    /// A byte that may not stand.
    BadByte,
    /// A line too long.
    LongLine,
}

impl Cause {
    ghost use Rattle.script_tree.specs.Cause.{number_of};

    /// The number that a refusal shows.
    pub fn number(self) -> u8
        ensures { result ≡ number_of self }
    {
        match self {
            Cause::Header => 1,
            Cause::Word => 2,
            Cause::TextOpen => 3,
            Cause::Unknown => 4,
            Cause::Taken => 5,
            Cause::OtherKind => 6,
            Cause::LargeNumber => 7,
            Cause::LargeRegister => 8,
            Cause::TooMany => 9,
            Cause::TooDeep => 10,
            Cause::NoMain => 11,
            Cause::AfterMain => 12,
            Cause::BadByte => 13,
            Cause::LongLine => 14,
        }
    }
}
