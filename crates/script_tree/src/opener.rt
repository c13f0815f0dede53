//! What lines open, and which forms may stand in it.
ghost use Rattle.std.specs.Prelude.{◌≡◌, ◌||◌};
ghost use Rattle.script_tree.specs.Reading.{is_head as is_head_in, is_between as is_between_in, is_over as is_over_in, is_then as is_then_in, is_try as is_try_in, holds_events as holds_events_in, holds_statements as holds_statements_in, is_bundle as is_bundle_in, is_group as is_group_in, breaks_in, bundle_count, fits as fits_in};

use crate::form::{BasicForm, Form};
use crate::program::{CompRef, Operand, Test};

/// What is open where a line stands: the file itself, a text, a block or a group of events, with
/// what is needed at its end. Places are those of blocks that it has already.
#[derive(Clone, Copy)]
pub enum Opener {
    /// The file, before its first text.
    Head,
    /// The file, behind the text of a fiber.
    Between,
    /// The file, behind the main text.
    Over,
    Text,
    Main,
    Then(Operand, Test, Operand),
    Otherwise(Operand, Test, Operand, u32),
    Loop,
    Try,
    Catch(u32, u8),
    Forbid,
    Permit,
    Under(CompRef),
    Link(CompRef, CompRef),
    Protect(u32),
    Bundle,
    Flock,
    Select(u8, u8),
    Choose,
    Wrap(Operand),
    Guard(Operand, Test, Operand),
}

impl Opener {
    fn is_head(self) -> bool
        ensures { result ≡ is_head_in self }
    {
        matches!(self, Opener::Head)
    }

    fn is_between(self) -> bool
        ensures { result ≡ is_between_in self }
    {
        matches!(self, Opener::Between)
    }

    /// Whether it is the file behind the main text.
    pub fn is_over(self) -> bool
        ensures { result ≡ is_over_in self }
    {
        matches!(self, Opener::Over)
    }

    /// Whether it is the file, and the main text hasn't come yet.
    pub fn is_file(self) -> bool
        ensures { result ≡ (is_head_in self || is_between_in self) }
    {
        self.is_head() || self.is_between()
    }

    fn is_then(self) -> bool
        ensures { result ≡ is_then_in self }
    {
        matches!(self, Opener::Then(..))
    }

    fn is_try(self) -> bool
        ensures { result ≡ is_try_in self }
    {
        matches!(self, Opener::Try)
    }

    /// Whether it holds events: a select or a group of events.
    fn holds_events(self) -> bool
        ensures { result ≡ holds_events_in self }
    {
        match self {
            Opener::Select(..) => true,
            Opener::Choose => true,
            Opener::Wrap(_) => true,
            Opener::Guard(..) => true,
            _ => false,
        }
    }

    /// Whether it holds statements: a text or a block.
    fn holds_statements(self) -> bool
        ensures { result ≡ holds_statements_in self }
    {
        match self {
            Opener::Head => false,
            Opener::Between => false,
            Opener::Over => false,
            Opener::Select(..) => false,
            Opener::Choose => false,
            Opener::Wrap(_) => false,
            Opener::Guard(..) => false,
            _ => true,
        }
    }

    /// Whether it is one of those of which at most 8 may be open.
    pub fn is_bundle(self) -> bool
        ensures { result ≡ is_bundle_in self }
    {
        match self {
            Opener::Bundle => true,
            Opener::Flock => true,
            _ => false,
        }
    }

    /// Whether it is a group of events, which is no statement.
    pub fn is_group(self) -> bool
        ensures { result ≡ is_group_in self }
    {
        match self {
            Opener::Choose => true,
            Opener::Wrap(_) => true,
            Opener::Guard(..) => true,
            _ => false,
        }
    }

    /// Whether a `break` may stand in it, where `around` says so of what is around it.
    pub fn breaks_in(self, around: bool) -> bool
        ensures { result ≡ breaks_in self around }
    {
        match self {
            Opener::Loop => true,
            Opener::Then(..) => around,
            Opener::Try => around,
            _ => false,
        }
    }

    /// How many bundles it is.
    pub fn bundle_count(self) -> u32
        ensures { result ≡ bundle_count self }
    {
        match self {
            Opener::Bundle => 1,
            Opener::Flock => 1,
            _ => 0,
        }
    }

    /// Whether a line of a form may stand in it, where `breaks` says whether a `break` may.
    pub fn fits(self, breaks: bool, form: Form) -> bool
        ensures { result ≡ fits_in self breaks form }
    {
        match form {
            Form::Declare(_) => self.is_head(),
            Form::Fiber => self.is_head() || self.is_between(),
            Form::Main => self.is_head() || self.is_between(),
            Form::End => self.holds_events() || (self.holds_statements() && !self.is_try()),
            Form::Else => self.is_then(),
            Form::Catch => self.is_try(),
            Form::Basic(BasicForm::Break) => self.holds_statements() && breaks,
            Form::Basic(_) => self.holds_statements(),
            Form::Comp(_) => self.holds_statements(),
            Form::Object(_) => self.holds_statements(),
            Form::Fork(_) => self.holds_statements(),
            Form::Block(_) => self.holds_statements(),
            Form::Event(_) => self.holds_events(),
            Form::Group(_) => self.holds_events(),
        }
    }
}
