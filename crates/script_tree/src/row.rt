//! The lines of a text that have words, one after the other.
ghost use Rattle.std.specs.Prelude.{◌≡◌, ◌<◌, ◌≤◌, ◌∷◌, ℕ, length, drop, IfOk};
ghost use Rattle.script_text.specs.Spans.{bytes_of, rows_of};
ghost use Rattle.script_tree.specs.Slices.{words_of};
ghost use Rattle.script_tree.specs.Within.{AreWithin};

use script_text::Token;
use std::alloc::AllocError;

/// The bytes of a word.
fn word_of(text: &[u8], token: Token) -> &[u8]
    requires order { token.start ≤ token.end }
    requires within { token.end ≤ length text.now }
    ensures { result.now ≡ bytes_of text.now token }
{
    &text[token.start as usize..token.end as usize]
}

/// Collects the words of the line of the first token. Answers how many they are, and the number of
/// the line.
pub fn collect<'a>(
    text: &'a [u8],
    tokens: &[Token],
    words: &mut Vec<&'a [u8]>,
) -> Result<(usize, u32), AllocError>
    requires some { 0 < length tokens.now }
    requires within { AreWithin text.now tokens.now }
    ensures count { IfOk result (λ r. (0 < r.0) × (r.0 ≤ length tokens.now)) }
    ensures row { IfOk result (λ r. rows_of text.now tokens.now ≡ record { number = r.1; words = words_of words.new.items } ∷ rows_of text.now (drop r.0 tokens.now)) }
{
    words.clear();
    let number = tokens[0].line;
    let mut count = 0;
    for token in tokens {
        if token.line != number {
            return Ok((count, number));
        }
        words.push(word_of(text, *token))?;
        count += 1;
    }
    Ok((count, number))
}
