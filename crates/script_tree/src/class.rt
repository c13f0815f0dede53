//! What a word is by its bytes alone: a number, a register, a promise register or a name.
ghost use Rattle.std.specs.Prelude.{◌≡◌, ◌<◌, ◌^◌, true, length, SomeIff, drop, IsTrue};
ghost use Rattle.std.specs.Str.{all_ascii_digits};
ghost use Rattle.std.specs.Str.Parse.{digits_value};
ghost use Rattle.script_tree.specs.Words.{is_numeral as is_numeral_in, is_lettered as is_lettered_in, is_name_byte as is_name_byte_in, is_name as is_name_in, all_name_bytes, number_class as number_class_in, register_class, promise_class, lettered_class, class};

use std::str;

/// How many registers there are.
const REGISTERS: u32 = 16;

/// How many promise registers there are.
const PROMISE_REGISTERS: u32 = 8;

/// How many bytes a name may have.
const NAME_LENGTH: usize = 24;

/// What a word is, by its bytes alone.
#[derive(Clone, Copy)]
pub enum Class {
    Number(u32),
    /// A number above 4294967295.
    LargeNumber,
    Register(u8),
    /// A register above 15.
    LargeRegister,
    Promise(u8),
    /// A promise register above 7.
    LargePromise,
    Name,
    Other,
}

fn are_digits(word: &[u8]) -> bool
    ensures { result ≡ all_ascii_digits word.now }
{
    for byte in word {
        if !byte.is_ascii_digit() {
            return false;
        }
    }
    true
}

fn is_numeral(word: &[u8]) -> bool
    ensures { result ≡ is_numeral_in word.now }
{
    are_digits(word) && !word.is_empty() && !(word.len() > 1 && word[0] == b'0')
}

/// The number that a numeral writes, where it is at most 4294967295.
fn number_of(numeral: &[u8]) -> Option<u32>
    requires { IsTrue (is_numeral_in numeral.now) }
    ensures { SomeIff result (digits_value 10 numeral.now < 2 ^ 32) (digits_value 10 numeral.now) }
{
    match str::from_utf8(numeral) {
        Ok(text) => text.parse::<u32>().ok(),
        Err(_) => None,
    }
}

fn is_lettered(word: &[u8], letter: u8) -> bool
    ensures { result ≡ is_lettered_in letter word.now }
{
    match word.split_first() {
        Some((first, digits)) => *first == letter && !digits.is_empty() && are_digits(digits),
        None => false,
    }
}

fn is_name_byte(byte: u8) -> bool
    ensures { result ≡ is_name_byte_in byte }
{
    byte.is_ascii_lowercase() || byte.is_ascii_digit() || byte == b'_'
}

fn are_name_bytes(word: &[u8]) -> bool
    ensures { result ≡ all_name_bytes word.now }
{
    for byte in word {
        if !is_name_byte(*byte) {
            return false;
        }
    }
    true
}

fn is_name(word: &[u8]) -> bool
    ensures { result ≡ is_name_in word.now }
{
    match word.first() {
        Some(first) => first.is_ascii_lowercase()
            && word.len() <= NAME_LENGTH
            && are_name_bytes(word),
        None => false,
    }
}

fn number_class(numeral: &[u8]) -> Class
    requires { IsTrue (is_numeral_in numeral.now) }
    ensures { result ≡ number_class_in (digits_value 10 numeral.now) }
{
    match number_of(numeral) {
        Some(number) => Class::Number(number),
        None => Class::LargeNumber,
    }
}

/// What digits behind an `r` make.
fn register_of(digits: &[u8]) -> Class
    ensures { result ≡ lettered_class register_class digits.now }
{
    if !is_numeral(digits) {
        return Class::Other;
    }
    match number_of(digits) {
        Some(number) if number < REGISTERS => Class::Register(number as u8),
        _ => Class::LargeRegister,
    }
}

/// What digits behind a `p` make.
fn promise_of(digits: &[u8]) -> Class
    ensures { result ≡ lettered_class promise_class digits.now }
{
    if !is_numeral(digits) {
        return Class::Other;
    }
    match number_of(digits) {
        Some(number) if number < PROMISE_REGISTERS => Class::Promise(number as u8),
        _ => Class::LargePromise,
    }
}

/// The class of a word.
pub fn class_of(word: &[u8]) -> Class
    ensures { result ≡ class word.now }
{
    if is_numeral(word) {
        return number_class(word);
    }
    if is_lettered(word, b'r') {
        return register_of(&word[1..]);
    }
    if is_lettered(word, b'p') {
        return promise_of(&word[1..]);
    }
    if is_name(word) {
        Class::Name
    } else {
        Class::Other
    }
}
