//! Looks for the first fault of a text. Nearly all texts have none, and that is seen by two walks
//! that are quick for their bytes: one that tests many bytes at a time, and one that leaps from line
//! to line. Only where they do not see it the lines are looked at one after the other.
ghost use Rattle.std.specs.Prelude.{◌≡◌, ◌<◌, ◌≤◌, true, None, Some, length, slice_index, IsTrue, IfSome, MatchResult};
ghost use Rattle.script_text.specs.Faults.{first_fault};
ghost use Rattle.script_text.specs.Lines.{is_line_end, lines};
ghost use Rattle.script_text.specs.Scan.{AreShort, all_fit as all_fit_in, fits as fits_in};

use crate::line::{LINE_END, LINE_LIMIT, check_line, may_stand, split_line};
use crate::token::TokenRefusal;
use memchr::memrchr;

/// Whether a byte may stand in a text: it ends a line, or may stand in one.
fn fits(byte: u8) -> bool
    ensures { result ≡ fits_in byte }
{
    byte == LINE_END || may_stand(byte)
}

/// Whether all bytes may stand in a text. The loop has no way out, so that it is compiled to tests
/// of many bytes at a time.
fn all_fit(text: &[u8]) -> bool
    ensures { result ≡ all_fit_in text.now }
{
    let mut all = true;
    for byte in text {
        all &= fits(*byte);
    }
    all
}

/// The place of the last line end among the bytes that a line may have, with its end.
fn last_line_end(text: &[u8]) -> Option<usize>
    requires { 200 < length text.now }
    ensures { IfSome result (λ k. (k ≤ 200) × (k < length text.now) × (is_line_end (slice_index text.now k) ≡ true)) }
{
    memrchr(LINE_END, &text[..LINE_LIMIT + 1])
}

/// Whether no line is too long: wherever a line begins, an end stands among the bytes that a line
/// may have. It goes on from the last such end, so that most lines are leapt over.
fn lines_fit(text: &[u8]) -> bool
    ensures { IsTrue result → AreShort (lines text.now) }
{
    let mut rest = text;
    while rest.len() > LINE_LIMIT {
        match last_line_end(rest) {
            Some(place) => rest = &rest[place + 1..],
            None => return false,
        }
    }
    true
}

/// Refuses the first line that has a fault.
fn check_lines(text: &[u8]) -> Result<(), TokenRefusal>
    requires { length text.now ≤ 16777216 }
    ensures { MatchResult result (λ _. first_fault text.now ≡ None) (λ e. first_fault text.now ≡ Some e) }
{
    let mut number = 0;
    let mut rest = text;
    while !rest.is_empty() {
        let (line, below) = split_line(rest);
        number += 1;
        check_line(line, number)?;
        rest = below;
    }
    Ok(())
}

/// Refuses a text with a fault, by its first one.
pub fn check_text(text: &[u8]) -> Result<(), TokenRefusal>
    requires { length text.now ≤ 16777216 }
    ensures { MatchResult result (λ _. first_fault text.now ≡ None) (λ e. first_fault text.now ≡ Some e) }
{
    if all_fit(text) && lines_fit(text) {
        return Ok(());
    }
    check_lines(text)
}
