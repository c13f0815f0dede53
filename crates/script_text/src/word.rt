ghost use Rattle.std.specs.Prelude.{◌≡◌, ◌+◌, ◌<◌, ◌≤◌, ℕ, length, take, drop, IfOk, IfSome};
ghost use Rattle.std.specs.List.{prefix_len};
ghost use Rattle.script_text.specs.Lines.{lines};
ghost use Rattle.script_text.specs.Scan.{IsPassed, IsSpace, class as class_in, is_open as is_open_in, is_space as is_space_in, is_word_byte, line_ends, spans};

use crate::line::{LINE_END, line_len};
use crate::token::{Token, Tokens};
use std::alloc::{AllocError, Global};

/// How many bytes are tested at a time for being blank.
const BLOCK: usize = 16;

/// What a byte does where no comment is open.
#[derive(Clone, Copy)]
pub enum Class {
    LineEnd,
    Blank,
    Comment,
    Word,
}

fn class_of(byte: u8) -> Class
    ensures { result ≡ class_in byte }
{
    match byte {
        LINE_END => Class::LineEnd,
        b'\t' | b'\r' | b' ' => Class::Blank,
        b'#' => Class::Comment,
        _ => Class::Word,
    }
}

fn is_of_word(byte: u8) -> bool
    ensures { result ≡ is_word_byte byte }
{
    !is_space(byte) && byte != b'#'
}

/// How many bytes of a word stand at the front.
fn word_len(text: &[u8]) -> usize
    ensures len { result ≡ prefix_len is_word_byte text.now }
    ensures within { result ≤ length text.now }
{
    for (place, byte) in text.iter().enumerate() {
        if !is_of_word(*byte) {
            return place;
        }
    }
    text.len()
}

/// Whether a byte is a blank or a line end. The tests are all made, so that they can be made of many
/// bytes at a time.
fn is_space(byte: u8) -> bool
    ensures { result ≡ is_space_in byte }
{
    (byte == LINE_END) | (byte == b'\t') | (byte == b'\r') | (byte == b' ')
}

/// How many line ends a block has, if it has nothing but them and blanks.
fn line_ends_of(block: &[u8; BLOCK]) -> Option<u8>
    ensures { IfSome result (λ n. IsSpace block.now × (n ≡ line_ends block.now)) }
{
    let mut all = true;
    let mut ends = 0;
    for byte in block {
        all &= is_space(*byte);
        ends += (*byte == LINE_END) as u8;
    }
    if all { Some(ends) } else { None }
}

/// How many bytes of blocks of blanks and line ends stand at the front, and how many line ends they
/// have. A text may have millions of lines that are blank.
fn space_len(text: &[u8]) -> (usize, u32)
    requires { length text.now ≤ 16777216 }
    ensures within { result.0 ≤ length text.now }
    ensures few { result.1 ≤ result.0 }
    ensures space { IsSpace (take result.0 text.now) }
    ensures ends { result.1 ≡ line_ends (take result.0 text.now) }
{
    let mut len = 0;
    let mut ends = 0;
    while let Some(block) = text[len..].first_chunk::<BLOCK>() {
        let Some(more) = line_ends_of(block) else {
            return (len, ends);
        };
        len += BLOCK;
        ends += more as u32;
    }
    (len, ends)
}

/// Passes over a byte at `place`, and over what belongs to it of the bytes below: the rest of a word,
/// which is added, of a comment, or some lines that are blank. Answers how many bytes of those below
/// it has, and how many line ends.
fn pass(
    words: &mut Vec<Token>,
    byte: u8,
    below: &[u8],
    place: u32,
    number: u32,
) -> Result<(usize, u32), AllocError>
    requires { place + length below.now < 16777216 }
    ensures { IfOk result (λ r. IsPassed byte below.now number place words.old.items words.new.items r.0 r.1) }
{
    match class_of(byte) {
        Class::LineEnd => {
            let (len, ends) = space_len(below);
            Ok((len, ends + 1))
        }
        Class::Blank => Ok((0, 0)),
        Class::Comment => Ok((line_len(below), 0)),
        Class::Word => {
            let len = word_len(below);
            words.push(Token {
                start: place,
                end: place + 1 + len as u32,
                line: number,
            })?;
            Ok((len, 0))
        }
    }
}

/// Whether a text has a last line without an end.
fn is_open(text: &[u8]) -> bool
    ensures { result ≡ is_open_in text.now }
{
    match text.last() {
        Some(byte) => *byte != LINE_END,
        None => false,
    }
}

/// How many lines a text has whose last byte is followed by line `number`.
fn line_count(text: &[u8], number: u32) -> u32
    requires { number ≡ 1 + line_ends text.now }
    ensures { result ≡ length (lines text.now) }
{
    if is_open(text) {
        return number;
    }
    number - 1
}

/// The words of a text, and how many lines it has.
pub fn words_of(alloc: Global, text: &[u8]) -> Result<Tokens, AllocError>
    requires { length text.now ≤ 16777216 }
    ensures words { IfOk result (λ t. t.words.items ≡ spans 1 0 (lines text.now)) }
    ensures count { IfOk result (λ t. t.lines ≡ length (lines text.now)) }
{
    let mut words = Vec::new(alloc);
    let mut rest = text;
    let mut place = 0;
    let mut number = 1;
    while let Some((byte, below)) = rest.split_first() {
        let (bytes, ends) = pass(&mut words, *byte, below, place, number)?;
        rest = &below[bytes..];
        place += 1 + bytes as u32;
        number += ends;
    }
    let lines = line_count(text, number);
    Ok(Tokens { words, lines })
}
