/// A word of a text: the bytes from `start` up to `end`, which isn't part of it, both counted from
/// 0, and the line that it stands on, from 1.
#[derive(Clone, Copy, Debug, PartialEq, Eq)]
pub struct Token {
    pub start: u32,
    pub end: u32,
    pub line: u32,
}

/// The words of a text in their order, and how many lines the text has.
#[derive(Debug, Drop)]
pub struct Tokens {
    pub words: Vec<Token>,
    pub lines: u32,
}

/// Why a text has no words. Lines and places are counted from 1.
#[derive(Clone, Copy, Debug, PartialEq, Eq)]
pub enum TokenRefusal {
    /// The line has more than 200 bytes without its end.
    LongLine { line: u32 },
    /// The byte at this place of the line is neither a blank nor printable ASCII.
    BadByte { line: u32, place: u32 },
    /// Memory was wanted and there was none.
    Memory,
}
