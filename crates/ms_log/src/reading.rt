// Notes from lines of text.
ghost use Rattle.std.specs.Prelude.{◌≡◌, ◌≢◌, ◌++◌, ◌∷◌, [], ◌↔◌, ℕ, List, All, IsTrue, IfOk, IfSome, Some, MatchOption};
ghost use Rattle.ms_lits.specs.declared.note.Note.{Note};
ghost use Rattle.ms_log.specs.NoteText.{note_text, words_text, IsReadable, IsInLine, IsLiteral, HasFunction};
ghost use Rattle.ms_log.specs.Reading.{IsReadBack, HasNoColon, IsDeclared, IsAggregate, name_text, declared_text, start_text};

use crate::item::{read_literals, read_numbers, word_len};
use crate::kind::{Kind, kind_of};
use ms_base::memory::OutOfMemory;
use ms_base::seq::Bytes;
use ms_lits::{Lits, Note, Numbers};
use std::alloc::Global;

/// The note of a line, which ends with its line end: `None` exactly where it is the line of no readable note.
///
/// A note is readable where its texts aren't empty and have no line end, and where that of an aggregate begins with
/// the word `count` or `sum`. It fails only for want of memory.
pub fn read(alloc: Global, line: &[u8]) -> Result<Option<Note>, OutOfMemory>
    // What is read is the note of this line.
    ensures found { IfOk result (λ found. IfSome found (λ note. IsReadable note × (line.now ≡ note_text note))) }
    // Where the line is that of a note, that note is read.
    ensures only { IfOk result (λ found. (note : Note) → IsReadable note → line.now ≡ note_text note → found ≡ Some note) }
{
    match line {
        [words @ .., b'\n'] => read_words(alloc, words),
        _ => Ok(None),
    }
}

/// The note of a line without its line end.
fn read_words(alloc: Global, line: &[u8]) -> Result<Option<Note>, OutOfMemory>
    ensures { IfOk result (λ found. IsReadBack words_text IsReadable line.now found) }
{
    let Some((kind, rest)) = kind_of(line) else {
        return Ok(None);
    };
    match kind {
        Kind::Atom => Ok(read_name(alloc, rest)?.map(Note::Atom)),
        Kind::Body => Ok(read_literals(alloc, rest)?.map(Note::Body)),
        Kind::Tuple => Ok(read_declared(alloc, rest)?.map(|(terms, conditions)| Note::Tuple(
            terms, conditions,
        ))),
        Kind::Aggregate => Ok(read_aggregate(alloc, rest)?.map(|(guards, tuples)| Note::Aggregate(
            guards, tuples,
        ))),
        Kind::Start => Ok(read_start(alloc, rest)?.map(|(outside, lits)| Note::Start(
            outside, lits,
        ))),
        Kind::Theory => Ok(read_literals(alloc, rest)?.map(Note::Theory)),
        Kind::Kept => Ok(read_literals(alloc, rest)?.map(Note::Kept)),
        Kind::Temporary => Ok(read_literals(alloc, rest)?.map(Note::Temporary)),
        Kind::Answer => Ok(read_numbers(alloc, rest)?.map(Note::Answer)),
        Kind::Finish => Ok(read_name(alloc, rest)?.map(Note::Finish)),
    }
}

/// The text behind the space at the front.
fn read_name(alloc: Global, text: &[u8]) -> Result<Option<Bytes>, OutOfMemory>
    ensures { IfOk result (λ found. IsReadBack name_text IsInLine text.now found) }
{
    match text {
        [b' ', name @ ..] if is_in_line(name) => Ok(Some(Bytes::copied(alloc, name)?)),
        _ => Ok(None),
    }
}

fn is_in_line(text: &[u8]) -> bool
    ensures { IsTrue result ↔ IsInLine text.now }
{
    !text.is_empty() && !text.contains(&b'\n')
}

/// The text and the tuples of an aggregate.
fn read_aggregate(alloc: Global, text: &[u8]) -> Result<Option<(Bytes, Numbers)>, OutOfMemory>
    ensures { IfOk result (λ found. IsReadBack declared_text IsAggregate text.now found) }
{
    let Some((guards, tuples)) = read_declared(alloc, text)? else {
        return Ok(None);
    };
    if !begins_with_function(guards.as_slice()) {
        return Ok(None);
    }
    Ok(Some((guards, tuples)))
}

/// Whether the first word is the name of a function of aggregates.
fn begins_with_function(text: &[u8]) -> bool
    ensures { IsTrue result ↔ HasFunction text.now }
{
    matches!(&text[..word_len(text)], b"count" | b"sum")
}

/// A text, and the numbers behind its ` :`.
fn read_declared(alloc: Global, text: &[u8]) -> Result<Option<(Bytes, Numbers)>, OutOfMemory>
    ensures { IfOk result (λ found. IsReadBack declared_text IsDeclared text.now found) }
{
    let Some((front, back)) = split_at_last_colon(text) else {
        return Ok(None);
    };
    let Some(spaced) = before_space(front) else {
        return Ok(None);
    };
    let Some(name) = read_name(alloc, spaced)? else {
        return Ok(None);
    };
    let Some(numbers) = read_numbers(alloc, back)? else {
        return Ok(None);
    };
    Ok(Some((name, numbers)))
}

/// What stands before the space at the end.
fn before_space(text: &[u8]) -> Option<&[u8]>
    ensures { MatchOption result
        ((front : List ℕ) → text.now ≢ front ++ 32 ∷ [])
        (λ front. text.now ≡ front.now ++ 32 ∷ []) }
{
    let [front @ .., last] = text else {
        return None;
    };
    if *last != b' ' {
        return None;
    }
    Some(front)
}

/// What stands before the last colon, and behind it.
fn split_at_last_colon(text: &[u8]) -> Option<(&[u8], &[u8])>
    ensures { MatchOption result
        ((front back : List ℕ) → text.now ≢ front ++ 58 ∷ back)
        (λ found. (text.now ≡ found.0.now ++ 58 ∷ found.1.now) × HasNoColon found.1.now) }
{
    let mut front = text;
    while let [before @ .., byte] = front {
        if *byte == b':' {
            return Some((before, &text[front.len()..]));
        }
        front = before;
    }
    None
}

/// The literals that a solve begins with, behind a `0` where an atom outside the base is assumed true.
fn read_start(alloc: Global, text: &[u8]) -> Result<Option<(bool, Lits)>, OutOfMemory>
    ensures { IfOk result (λ found. IsReadBack start_text (λ start. All IsLiteral start.1) text.now found) }
{
    match text {
        [b' ', b'0', after @ ..] => Ok(read_literals(alloc, after)?.map(|lits| (true, lits))),
        _ => Ok(read_literals(alloc, text)?.map(|lits| (false, lits))),
    }
}
