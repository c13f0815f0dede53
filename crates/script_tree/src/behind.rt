//! Reads the words behind the one that tells a line's form, for each number of parts that forms
//! have. The first wrong word from the left decides what is refused.
ghost use Rattle.std.specs.Prelude.{◌≡◌, ◌∷◌, [], ℕ, List, Ok, Err, None, IfOk, MatchResult};
ghost use Rattle.script_tree.specs.Names.{thing_of};
ghost use Rattle.script_tree.specs.Parts.{Shape, told, word_read, words_read, a_new_name, a_number, name_part, number_part};
ghost use Rattle.script_tree.specs.Slices.{words_of};

use crate::cause::Cause;
use crate::class::{Class, class_of};
use crate::names::Names;
use crate::new_name::NewName;
use crate::part::{Number, Part};

/// Reads the first word, and hands out the others.
fn first<'a, 'b, A: Part>(
    names: &Names,
    words: &'b [&'a [u8]],
) -> Result<(A, &'b [&'a [u8]]), Cause>
    ensures { MatchResult result
        (λ p. (w : List ℕ) × (words_of words.now ≡ w ∷ words_of p.1.now) × (word_read names.now A.shape w ≡ Ok (A.part p.0)))
        (λ c. (ss : List Shape) → words_read names.now (A.shape ∷ ss) (words_of words.now) ≡ Err c) }
{
    match words.split_first() {
        Some((word, rest)) => {
            let part = A::read(names, word)?;
            Ok((part, rest))
        }
        None => Err(Cause::Word),
    }
}

/// A line with no word behind.
pub fn none(_names: &Names, words: &[&[u8]]) -> Result<(), Cause>
    ensures { told (λ _. []) result ≡ words_read _names.now [] (words_of words.now) }
{
    if words.is_empty() {
        Ok(())
    } else {
        Err(Cause::Word)
    }
}

/// A line with one word behind.
pub fn one<A: Part>(names: &Names, words: &[&[u8]]) -> Result<A, Cause>
    ensures { told (λ a. A.part a ∷ []) result ≡ words_read names.now (A.shape ∷ []) (words_of words.now) }
{
    let (part, rest) = first::<A>(names, words)?;
    none(names, rest)?;
    Ok(part)
}

/// A line with two words behind.
pub fn two<A: Part, B: Part>(names: &Names, words: &[&[u8]]) -> Result<(A, B), Cause>
    ensures { told (λ p. A.part p.0 ∷ (B.part p.1 ∷ [])) result ≡ words_read names.now (A.shape ∷ (B.shape ∷ [])) (words_of words.now) }
{
    let (part, rest) = first::<A>(names, words)?;
    let other = one::<B>(names, rest)?;
    Ok((part, other))
}

/// A line with three words behind.
pub fn three<A: Part, B: Part, C: Part>(names: &Names, words: &[&[u8]]) -> Result<(A, B, C), Cause>
    ensures { told (λ p. A.part p.0 ∷ (B.part p.1 ∷ (C.part p.2 ∷ []))) result ≡ words_read names.now (A.shape ∷ (B.shape ∷ (C.shape ∷ []))) (words_of words.now) }
{
    let (part, rest) = first::<A>(names, words)?;
    let (second, third) = two::<B, C>(names, rest)?;
    Ok((part, second, third))
}

/// A word that is to become a name.
fn new_name<'a>(names: &Names, word: &'a [u8]) -> Result<NewName<'a>, Cause>
    ensures free { IfOk result (λ n. thing_of names.now n ≡ None) }
    ensures read { told (λ n. name_part n) result ≡ word_read names.now a_new_name word.now }
{
    match class_of(word) {
        Class::Name => match names.get(word) {
            None => Ok(NewName { bytes: word }),
            Some(_) => Err(Cause::Taken),
        },
        _ => Err(Cause::Word),
    }
}

/// The first word as a new name, and the others.
fn first_name<'a, 'b>(
    names: &Names,
    words: &'b [&'a [u8]],
) -> Result<(NewName<'a>, &'b [&'a [u8]]), Cause>
    ensures free { IfOk result (λ p. thing_of names.now p.0 ≡ None) }
    ensures read { MatchResult result
        (λ p. (w : List ℕ) × (words_of words.now ≡ w ∷ words_of p.1.now) × (word_read names.now a_new_name w ≡ Ok (name_part p.0)))
        (λ c. (ss : List Shape) → words_read names.now (a_new_name ∷ ss) (words_of words.now) ≡ Err c) }
{
    match words.split_first() {
        Some((word, rest)) => {
            let name = new_name(names, word)?;
            Ok((name, rest))
        }
        None => Err(Cause::Word),
    }
}

/// A line with one word behind, a new name.
pub fn one_name<'a>(names: &Names, words: &[&'a [u8]]) -> Result<NewName<'a>, Cause>
    ensures free { IfOk result (λ n. thing_of names.now n ≡ None) }
    ensures read { told (λ n. name_part n ∷ []) result ≡ words_read names.now (a_new_name ∷ []) (words_of words.now) }
{
    let (name, rest) = first_name(names, words)?;
    none(names, rest)?;
    Ok(name)
}

/// A line with two words behind, a new name and a number.
pub fn name_and_number<'a>(names: &Names, words: &[&'a [u8]]) -> Result<(NewName<'a>, u32), Cause>
    ensures free { IfOk result (λ p. thing_of names.now p.0 ≡ None) }
    ensures read { told (λ p. name_part p.0 ∷ (number_part p.1 ∷ [])) result ≡ words_read names.now (a_new_name ∷ (a_number ∷ [])) (words_of words.now) }
{
    let (name, rest) = first_name(names, words)?;
    let number = one::<Number>(names, rest)?;
    Ok((name, number.0))
}
