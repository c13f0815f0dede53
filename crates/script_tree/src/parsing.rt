//! From the bytes of a text to its program, or to its first fault.
ghost use Rattle.std.specs.Prelude.{◌≡◌, ◌+◌, ◌≤◌, Ok, IfOk, IfErr, length};
ghost use Rattle.script_text.specs.Spans.{rows_of};
ghost use Rattle.script_tree.specs.Grammar.{is_header as is_header_in, file_read, rows_read, script_read, grammar, refused as refused_in, fault_refused};
ghost use Rattle.script_tree.specs.Slices.{words_of};
ghost use Rattle.script_tree.specs.Reading.{start};
ghost use Rattle.script_tree.specs.Denial.{Denies};
ghost use Rattle.script_tree.specs.Stand.{state_of, tree_of_parts, refusal_for, refusal_for_words};
ghost use Rattle.script_tree.specs.Told.{EachFormIsTold};
ghost use Rattle.script_tree.specs.WellFormed.{IsWellFormed};
ghost use Rattle.script_tree.specs.Within.{AreWithin};

use crate::cause::Cause;
use crate::fault::Fault;
use crate::program::Program;
use crate::reading::{Parts, Reading};
use crate::refusal::{ParseRefusal, Refused};
use crate::row::collect;
use script_text::{Token, TokenRefusal, tokens};
use std::alloc::Global;

fn refused(line: u32, cause: Cause) -> Refused
    ensures { result ≡ refused_in line cause }
{
    Refused {
        line,
        cause: cause.number(),
    }
}

/// Whether these are the words of a script's first line.
fn is_header(words: &[&[u8]]) -> bool
    ensures { result ≡ is_header_in (words_of words.now) }
{
    match words {
        [name, version] => *name == b"picos".as_slice() && *version == b"1".as_slice(),
        _ => false,
    }
}

impl Reading {
    /// Ends the reading at the end of the file, which counts as the line `end`.
    fn finish(self, end: u32) -> Result<Parts, ParseRefusal>
        ensures program { IfOk result (λ p. file_read (state_of self) end self.top.what ≡ Ok (tree_of_parts p)) }
        ensures refused { IfErr result (λ e. Denies e (file_read (state_of self) end self.top.what)) }
    {
        if self.top.what.is_over() {
            return Ok(Parts {
                decls: self.decls,
                texts: self.texts,
                blocks: self.blocks,
                events: self.events,
            });
        }
        if self.top.what.is_file() {
            return Err(ParseRefusal::Refused(refused(end, Cause::NoMain)));
        }
        Err(ParseRefusal::Refused(refused(end, Cause::TextOpen)))
    }
}

/// What is answered for a fault of a line.
fn refusal_of(number: u32, fault: Fault) -> ParseRefusal
    ensures { result ≡ refusal_for number fault }
{
    match fault {
        Fault::Cause(cause) => ParseRefusal::Refused(refused(number, cause)),
        Fault::Memory => ParseRefusal::Memory,
    }
}

/// What is answered for a line that no script may have.
fn refusal_of_words(refusal: TokenRefusal) -> ParseRefusal
    ensures { result ≡ refusal_for_words refusal }
{
    match refusal {
        TokenRefusal::LongLine { line } => ParseRefusal::Refused(refused(line, Cause::LongLine)),
        TokenRefusal::BadByte { line, .. } => ParseRefusal::Refused(refused(line, Cause::BadByte)),
        TokenRefusal::Memory => ParseRefusal::Memory,
    }
}

/// Reads the lines below the first one.
fn read_lines(alloc: Global, text: &[u8], tokens: &[Token], end: u32) -> Result<Parts, ParseRefusal>
    requires within { AreWithin text.now tokens.now }
    requires few { length tokens.now ≤ 16777217 }
    ensures program { IfOk result (λ p. rows_read start (rows_of text.now tokens.now) end ≡ Ok (tree_of_parts p)) }
    ensures refused { IfErr result (λ e. Denies e (rows_read start (rows_of text.now tokens.now) end)) }
{
    let mut words = Vec::new(alloc);
    let mut reading = Reading::new(alloc)?;
    let mut rest = tokens;
    while !rest.is_empty() {
        let (count, number) = collect(text, rest, &mut words)?;
        if let Err(fault) = reading.step(alloc, &words) {
            return Err(refusal_of(number, fault));
        }
        rest = &rest[count..];
    }
    reading.finish(end)
}

/// Reads a script whose words are these, where the file ends with the line `end`.
fn read_script(
    alloc: Global,
    text: &[u8],
    tokens: &[Token],
    end: u32,
) -> Result<Parts, ParseRefusal>
    requires within { AreWithin text.now tokens.now }
    requires few { length tokens.now ≤ 16777217 }
    ensures program { IfOk result (λ p. script_read (rows_of text.now tokens.now) end ≡ Ok (tree_of_parts p)) }
    ensures refused { IfErr result (λ e. Denies e (script_read (rows_of text.now tokens.now) end)) }
{
    if tokens.is_empty() {
        return Err(ParseRefusal::Refused(refused(end, Cause::Header)));
    }
    let mut words = Vec::new(alloc);
    let (count, number) = collect(text, tokens, &mut words)?;
    if !is_header(&words) {
        return Err(ParseRefusal::Refused(refused(number, Cause::Header)));
    }
    read_lines(alloc, text, &tokens[count..], end)
}

/// Reads a script of at most 16,777,216 bytes.
///
/// A text that is no script is refused with its first fault: first all lines are read as words,
/// then the lines in order, and the words of a line from left to right. Want of memory may come at
/// any time. Each program that is read is well-formed, so no one above needs to test it again. Each
/// form that a line can have is read: the words that tell it tell no other.
#[tactic(auto, using(crate::proofs::Leads::all_told))]
pub fn parse(alloc: Global, text: &[u8]) -> Result<Program, ParseRefusal>
    requires { length text.now ≤ 16777216 }
    ensures program { IfOk result (λ p. grammar text.now ≡ Ok p) }
    ensures formed { IfOk result (λ p. IsWellFormed p) }
    ensures refused { IfErr result (λ e. Denies e (grammar text.now)) }
    ensures told { EachFormIsTold }
{
    match tokens(alloc, text) {
        Ok(found) => match read_script(alloc, text, &found.words, found.lines + 1) {
            Ok(parts) => Ok(Program {
                decls: parts.decls,
                texts: parts.texts,
                blocks: parts.blocks,
                events: parts.events,
            }),
            Err(refusal) => Err(refusal),
        },
        Err(refusal) => Err(refusal_of_words(refusal)),
    }
}
