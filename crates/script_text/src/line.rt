ghost use Rattle.std.specs.Prelude.{◌≡◌, ◌<◌, ◌≤◌, ◌≢◌, not, [], MatchResult, Some, None, length, position};
ghost use Rattle.std.specs.List.{before_first, after_first, position_or_len};
ghost use Rattle.script_text.specs.Faults.{line_fault};
ghost use Rattle.script_text.specs.Lines.{is_line_end, may_stand as may_stand_in};

use crate::token::TokenRefusal;
use memchr::memchr;

/// The byte that ends a line.
pub const LINE_END: u8 = b'\n';

/// How many bytes a line may have, without its end.
pub const LINE_LIMIT: usize = 200;

/// How many bytes the first line of a text has, without its end.
pub fn line_len(text: &[u8]) -> usize
    ensures end { result ≡ position_or_len is_line_end text.now }
    ensures within { result ≤ length text.now }
{
    match memchr(LINE_END, text) {
        Some(place) => place,
        None => text.len(),
    }
}

/// The first line of a text, without its end, and what stands below it.
pub fn split_line(text: &[u8]) -> (&[u8], &[u8])
    requires { 0 < length text.now }
    ensures line { result.0.now ≡ before_first is_line_end text.now }
    ensures below { result.1.now ≡ after_first is_line_end text.now }
{
    let len = line_len(text);
    let below = text.len().min(len.saturating_add(1));
    (&text[..len], &text[below..])
}

/// Whether a byte may stand in a line: a tab, a carriage return, or printable ASCII.
pub fn may_stand(byte: u8) -> bool
    ensures { result ≡ may_stand_in byte }
{
    byte == 9 || byte == 13 || (byte >= 32 && byte <= 126)
}

/// The place, from 0, of the first byte that may not stand in a line.
fn bad_place(line: &[u8]) -> Option<usize>
    ensures { result ≡ position (λ b. not (may_stand_in b)) line.now }
{
    line.iter().position(|byte| !may_stand(*byte))
}

/// Refuses a line that is too long, or else the first byte of it that may not stand.
pub fn check_line(line: &[u8], number: u32) -> Result<(), TokenRefusal>
    ensures { MatchResult result (λ _. line_fault number line.now ≡ None) (λ e. line_fault number line.now ≡ Some e) }
{
    if line.len() > LINE_LIMIT {
        return Err(TokenRefusal::LongLine { line: number });
    }
    match bad_place(line) {
        Some(place) => Err(TokenRefusal::BadByte {
            line: number,
            place: place as u32 + 1,
        }),
        None => Ok(()),
    }
}
