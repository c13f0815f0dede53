ghost use Rattle.std.specs.Prelude.{◌≡◌, ◌≢◌, ◌≤◌, ◌↔◌, ℕ, None, Some, length, IfOk, OnOk, IfErr};
ghost use Rattle.script_text.specs.Faults.{first_fault};
ghost use Rattle.script_text.specs.Lines.{lines, rows};
ghost use Rattle.script_text.specs.Scan.{spans};
ghost use Rattle.script_text.specs.Spans.{AreApart, Covers, IsWordByte, rows_of};

use crate::fault::check_text;
use crate::token::{TokenRefusal, Tokens};
use crate::word::words_of;
use std::alloc::Global;

/// The words of a text that has no fault.
fn scan(alloc: Global, text: &[u8]) -> Result<Tokens, TokenRefusal>
    requires { length text.now ≤ 16777216 }
    ensures words { IfOk result (λ t. t.words.items ≡ spans 1 0 (lines text.now)) }
    ensures count { IfOk result (λ t. t.lines ≡ length (lines text.now)) }
    ensures faultless { OnOk result (first_fault text.now ≡ None) }
    ensures refused { IfErr result (λ e. e ≢ TokenRefusal.Memory → first_fault text.now ≡ Some e) }
{
    check_text(text)?;
    match words_of(alloc, text) {
        Ok(found) => Ok(found),
        Err(_e) => Err(TokenRefusal::Memory),
    }
}

/// The words of a text of at most 16,777,216 bytes: the longest runs of bytes that are neither
/// blank, line end nor comment.
///
/// The first line that is longer than 200 bytes, or has a byte that may not stand in a script, is
/// refused; of one line, its length is refused before its bytes. Want of memory may come at any
/// time.
pub fn tokens(alloc: Global, text: &[u8]) -> Result<Tokens, TokenRefusal>
    requires { length text.now ≤ 16777216 }

    // The spans are in order and apart, and cover exactly the bytes of words.
    ensures apart { IfOk result (λ t. AreApart 0 (length text.now) t.words.items) }
    ensures cover { IfOk result (λ t. (k : ℕ) → Covers t.words.items k ↔ IsWordByte text.now k) }

    // Line by line, their texts are the words of the text's lines.
    ensures rows { IfOk result (λ t. rows_of text.now t.words.items ≡ rows text.now) }
    ensures count { IfOk result (λ t. t.lines ≡ length (lines text.now)) }

    // A refusal names the first fault, and a text with a fault is refused.
    ensures faultless { OnOk result (first_fault text.now ≡ None) }
    ensures refused { IfErr result (λ e. e ≢ TokenRefusal.Memory → first_fault text.now ≡ Some e) }
{
    scan(alloc, text)
}
