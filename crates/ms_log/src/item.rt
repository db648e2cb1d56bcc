// The items of a line: numbers and literals, each behind a space.
ghost use Rattle.std.specs.Prelude.{◌≡◌, ◌≢◌, ◌≤◌, ◌<◌, ◌^◌, ◌++◌, ◌∷◌, ℕ, List, All, length, take_while, decimal, true, IfOk, MatchOption};
ghost use Rattle.ms_lits.specs.declared.lit.Lit.{Lit};
ghost use Rattle.ms_log.specs.NoteText.{number_text, literal_text, items_text, is_in_word, IsThing, IsLiteral};
ghost use Rattle.ms_log.specs.Reading.{IsWord, EndsWord, IsPositive, IsReadBack};
ghost use Rattle.std.specs.Char.{is_ascii_digit};
ghost use Rattle.std.specs.List.{list_all};
ghost use Rattle.std.specs.Str.Parse.{digits_value};

use ms_base::memory::OutOfMemory;
use ms_base::seq::Seq;
use ms_lits::{Lit, Lits, Numbers};
use std::alloc::Global;
use std::str;

/// The numbers of a line, which stand behind a space each, and nothing else.
pub(crate) fn read_numbers(alloc: Global, text: &[u8]) -> Result<Option<Numbers>, OutOfMemory>
    ensures { IfOk result (λ found. IsReadBack (items_text number_text) (All IsThing) text.now found) }
{
    let mut numbers = Seq::new(alloc);
    let mut rest = text;
    while !rest.is_empty() {
        let Some((word, after)) = next_word(rest) else {
            return Ok(None);
        };
        let Some(number) = read_number(word) else {
            return Ok(None);
        };
        numbers.push(number)?;
        rest = after;
    }
    Ok(Some(numbers))
}

/// The literals of a line, which stand behind a space each, and nothing else.
pub(crate) fn read_literals(alloc: Global, text: &[u8]) -> Result<Option<Lits>, OutOfMemory>
    ensures { IfOk result (λ found. IsReadBack (items_text literal_text) (All IsLiteral) text.now found) }
{
    let mut lits = Seq::new(alloc);
    let mut rest = text;
    while !rest.is_empty() {
        let Some((word, after)) = next_word(rest) else {
            return Ok(None);
        };
        let Some(lit) = read_literal(word) else {
            return Ok(None);
        };
        lits.push(lit)?;
        rest = after;
    }
    Ok(Some(lits))
}

/// The word behind the space at the front, and what follows it.
fn next_word(text: &[u8]) -> Option<(&[u8], &[u8])>
    ensures { MatchOption result
        ((word after : List ℕ) → EndsWord after → text.now ≢ 32 ∷ (word ++ after))
        (λ found. (text.now ≡ 32 ∷ (found.0.now ++ found.1.now)) × IsWord found.0.now × EndsWord found.1.now) }
{
    match text {
        [b' ', after @ ..] => Some(after.split_at(word_len(after))),
        _ => None,
    }
}

/// How many bytes stand before the first space.
pub(crate) fn word_len(text: &[u8]) -> usize
    ensures value { result ≡ length (take_while is_in_word text.now) }
    ensures within { result ≤ length text.now }
{
    text.iter().take_while(|byte| **byte != b' ').count()
}

/// A literal: a `-` stands before the number where the sign is false.
fn read_literal(word: &[u8]) -> Option<Lit>
    ensures { IsReadBack literal_text IsLiteral word.now result }
{
    match word {
        [b'-', digits @ ..] => Some(Lit {
            var: read_number(digits)?,
            truth: false,
        }),
        _ => Some(Lit {
            var: read_number(word)?,
            truth: true,
        }),
    }
}

/// The number of a thing from 0, which the word gives from 1.
fn read_number(word: &[u8]) -> Option<u32>
    ensures { IsReadBack number_text IsThing word.now result }
{
    let number = read_positive(word)?;
    u32::try_from(number - 1).ok()
}

/// The number above 0 that the word is in decimal, without a sign and without a leading zero.
fn read_positive(word: &[u8]) -> Option<u64>
    ensures { IsReadBack decimal IsPositive word.now result }
{
    match word {
        [b'1'..=b'9', ..] if are_digits(word) => value_of(word),
        _ => None,
    }
}

fn are_digits(word: &[u8]) -> bool
    ensures { result ≡ list_all is_ascii_digit word.now }
{
    word.iter().all(|byte| byte.is_ascii_digit())
}

/// What decimal digits stand for, where it is below 2^64.
fn value_of(digits: &[u8]) -> Option<u64>
    requires some { 0 < length digits.now }
    requires digits { list_all is_ascii_digit digits.now ≡ true }
    ensures { MatchOption result (2 ^ 64 ≤ digits_value 10 digits.now) (λ n. (n ≡ digits_value 10 digits.now) × (n < 2 ^ 64)) }
{
    str::from_utf8(digits).ok()?.parse().ok()
}
