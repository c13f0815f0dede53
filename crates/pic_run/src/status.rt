ghost use Rattle.std.specs.Prelude.{◌≡◌};
ghost use Rattle.pic_run.specs.Status.{status_number};

/// How a call of the program ended.
#[derive(Clone, Copy, Debug, PartialEq, Eq)]
pub enum Status {
    /// What was asked for was done; of a run: its world is final, no fiber is suspended, and main returned.
    Done,
    /// A run: its world is final, no fiber is suspended, and main was cancelled.
    Raised,
    /// A run: its world is final, and a fiber is suspended.
    Stuck,
    /// The words are no request.
    Usage,
    /// The script is outside the grammar.
    Refused,
    /// A file couldn't be read.
    ReadFault,
    /// The sink didn't take the text that was due.
    WriteFault,
    /// Memory was wanted and there was none.
    OutOfMemory,
    /// A file has more bytes than a script or an input may have.
    TooLarge,
}

impl Status {
    /// The exit status that the program ends with.
    pub fn number(self) -> u8
        ensures { result ≡ status_number self }
    {
        match self {
            Status::Done => 0,
            Status::Raised => 1,
            Status::Stuck => 2,
            Status::Usage => 3,
            Status::Refused => 4,
            Status::ReadFault => 5,
            Status::WriteFault => 6,
            Status::OutOfMemory => 7,
            Status::TooLarge => 8,
        }
    }
}
