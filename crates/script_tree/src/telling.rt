//! Which form the first words of a line tell.
ghost use Rattle.std.specs.Prelude.{◌≡◌, bytes_eq};
ghost use Rattle.script_tree.specs.Forms.{keyword, first_form, form_of as form_of_in, event_of as event_of_in};
ghost use Rattle.script_tree.specs.Slices.{words_of, seen_of};

use crate::form::{EVENTS, FORMS, Form};

impl Form {
    fn is_told_by(self, word: &[u8]) -> bool
        ensures { result ≡ bytes_eq (keyword self) word.now }
    {
        self.keyword().as_bytes() == word
    }
}

/// The first of these forms that the word tells.
fn form_in(forms: &[Form], word: &[u8]) -> Option<Form>
    ensures { result ≡ first_form forms.now word.now }
{
    for form in forms {
        if form.is_told_by(word) {
            return Some(*form);
        }
    }
    None
}

/// The event that the words behind `on` tell, and the words behind that one.
fn event_of<'a, 'b>(words: &'b [&'a [u8]]) -> Option<(Form, &'b [&'a [u8]])>
    ensures { seen_of result ≡ event_of_in (words_of words.now) }
{
    let (word, rest) = words.split_first()?;
    let form = form_in(&EVENTS, word)?;
    Some((form, rest))
}

/// The form that the words of a line tell, and the words behind those that tell it.
pub fn form_of<'a, 'b>(words: &'b [&'a [u8]]) -> Option<(Form, &'b [&'a [u8]])>
    ensures { seen_of result ≡ form_of_in (words_of words.now) }
{
    let (word, rest) = words.split_first()?;
    if *word == b"on".as_slice() {
        return event_of(rest);
    }
    let form = form_in(&FORMS, word)?;
    Some((form, rest))
}
