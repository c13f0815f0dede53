//! Which lines may stand where the reading stands.
ghost use Rattle.std.specs.Prelude.{◌≡◌, ◌≢◌, ℕ, Some, None, Ok, Err, OnOk, IfOk, IfErr, MatchResult};
ghost use Rattle.script_tree.specs.Grammar.{line_read, step};
ghost use Rattle.script_tree.specs.Reading.{is_full as is_full_in, is_kind_full, is_line_deep, limit_broken};
ghost use Rattle.script_tree.specs.Slices.{words_of};
ghost use Rattle.script_tree.specs.Stand.{state_of, IsFree, IsSmall, Refuses};

use crate::cause::Cause;
use crate::counts::Counts;
use crate::fault::Fault;
use crate::line::{Line, line_of};
use crate::opener::Opener;
use crate::program::Kind;
use crate::reading::Reading;
use crate::telling::form_of;
use std::alloc::Global;

/// How many triggers, and how many computations, a script may declare.
const TRIGGER_LIMIT: u32 = 256;

/// How many other things a script may declare.
const OBJECT_LIMIT: u32 = 64;

/// How many texts a script may have besides the main text.
const TEXT_LIMIT: usize = 64;

/// How many statements a script may have.
const STATEMENT_LIMIT: u32 = 10_000;

/// How many events a select may have.
const LEAF_LIMIT: u32 = 32;

impl Counts {
    /// Whether no further thing of a kind may be declared.
    fn is_full(self, kind: Kind) -> bool
        ensures { result ≡ is_kind_full self kind }
    {
        match kind {
            Kind::Trigger => self.triggers >= TRIGGER_LIMIT,
            Kind::Comp => self.comps >= TRIGGER_LIMIT,
            _ => self.objects >= OBJECT_LIMIT,
        }
    }
}

impl Reading {
    /// Reads the words of a line, as far as its place and its words go.
    fn read_line<'a>(&self, words: &[&'a [u8]]) -> Result<Line<'a>, Cause>
        ensures free { IfOk result (λ l. IsFree self.now.names l) }
        ensures read { result ≡ line_read (state_of self.now) self.now.top.what (words_of words.now) }
    {
        if self.top.what.is_over() {
            return Err(Cause::AfterMain);
        }
        let Some((form, rest)) = form_of(words) else {
            return Err(Cause::Word);
        };
        if !self.top.what.fits(self.top.level.breaks, form) {
            return Err(Cause::Word);
        }
        line_of(&self.names, form, rest)
    }

    /// Whether a line is one block too deep.
    fn is_too_deep(&self, line: &Line) -> bool
        ensures { result ≡ is_line_deep self.now.top.level line.now }
    {
        match line {
            Line::Open(what) => self.top.level.is_too_deep(*what),
            _ => false,
        }
    }

    /// Whether a script has no room for a line.
    fn is_full(&self, line: &Line) -> bool
        ensures { result ≡ is_full_in (state_of self.now) line.now }
    {
        match line {
            Line::Declare(kind, _) => self.counts.is_full(*kind),
            Line::Fiber(_) => self.texts.len() >= TEXT_LIMIT,
            Line::Plain(_) => self.counts.statements >= STATEMENT_LIMIT,
            Line::Open(what) => !what.is_group() && self.counts.statements >= STATEMENT_LIMIT,
            Line::Leaf(_) => self.counts.leaves >= LEAF_LIMIT,
            _ => false,
        }
    }

    /// Reads one line, and takes it.
    pub fn step(&mut self, alloc: Global, words: &[&[u8]]) -> Result<(), Fault>
        requires { IsSmall (state_of self.old) }
        ensures ok { OnOk result (step (state_of self.old) (words_of words.now) ≡ Ok (state_of self.new)) }
        ensures refused { IfErr result (λ e. Refuses e (step (state_of self.old) (words_of words.now))) }
    {
        let line = self.read_line(words)?;
        if self.is_too_deep(&line) {
            return Err(Fault::Cause(Cause::TooDeep));
        }
        if self.is_full(&line) {
            return Err(Fault::Cause(Cause::TooMany));
        }
        self.take(alloc, line)?;
        Ok(())
    }
}
