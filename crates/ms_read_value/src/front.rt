// Finds the value at the front of tokens.
ghost use Rattle.std.specs.Prelude.{◌≡◌, ◌-◌, ◌≤◌, length, IfOk, IfSome};
ghost use Rattle.std.specs.Option.{option_map};
ghost use Rattle.ms_text.specs.Tokens.{LieWithin};
ghost use Rattle.ms_grammar.specs.Words.{words_of};
ghost use Rattle.ms_read_value.specs.Front.{front, front_named, arguments_front, read_on, left, counted};

use crate::groups::{Group, Groups, constant};
use crate::lexemes::{Lexeme, lexeme_at};
use crate::reader::{Place, Progress, Reader, begin};
use ms_base::memory::OutOfMemory;
use ms_base::seq::Bytes;
use ms_grammar::part::ValuePart;
use ms_text::token::{Token, TokenKind};
use std::alloc::Global;

/// The longest value at the front of the tokens, with the number of its tokens.
pub(crate) fn count_front(
    alloc: Global,
    text: &[u8],
    tokens: &[Token],
) -> Result<Option<(ValuePart, usize)>, OutOfMemory>
    requires { LieWithin (length text.now) tokens.now }
    ensures { IfOk result (λ found. found ≡ counted (words_of text.now tokens.now)) }
{
    match front(alloc, text, tokens)? {
        Some((part, left)) => Ok(Some((part, tokens.len() - left))),
        None => Ok(None),
    }
}

/// The longest value at the front of the tokens, with the number of the tokens behind it.
fn front(
    alloc: Global,
    text: &[u8],
    tokens: &[Token],
) -> Result<Option<(ValuePart, usize)>, OutOfMemory>
    requires { LieWithin (length text.now) tokens.now }
    ensures value { IfOk result (λ found. found ≡ left (front (words_of text.now tokens.now))) }
    ensures within { IfOk result (λ found. IfSome found (λ f. f.1 ≤ length tokens.now)) }
{
    let [first, after @ ..] = tokens else {
        return Ok(None);
    };
    match lexeme_at(alloc, text, *first)? {
        Lexeme::Name(name) => front_named(alloc, text, name, after),
        lexeme => read_on(
            alloc,
            text,
            begin(alloc, Groups::new(alloc), lexeme)?,
            after,
        ),
    }
}

/// The longest value that begins with a name, from what follows the name. Where the name's arguments don't
/// end or are too high, it is the name alone.
fn front_named(
    alloc: Global,
    text: &[u8],
    name: Bytes,
    after: &[Token],
) -> Result<Option<(ValuePart, usize)>, OutOfMemory>
    requires { LieWithin (length text.now) after.now }
    ensures value { IfOk result (λ found. found ≡ left (front_named name (words_of text.now after.now))) }
    ensures within { IfOk result (λ found. IfSome found (λ f. f.1 ≤ length after.now)) }
{
    match arguments_front(alloc, text, name.as_slice(), after)? {
        Some(found) => Ok(Some(found)),
        None => Ok(Some((constant(alloc, name), after.len()))),
    }
}

/// A name with its arguments, from what follows the name.
fn arguments_front(
    alloc: Global,
    text: &[u8],
    name: &[u8],
    after: &[Token],
) -> Result<Option<(ValuePart, usize)>, OutOfMemory>
    requires { LieWithin (length text.now) after.now }
    ensures value { IfOk result (λ found. found ≡ left (arguments_front name.now (words_of text.now after.now))) }
    ensures within { IfOk result (λ found. IfSome found (λ f. f.1 ≤ length after.now)) }
{
    match after {
        [bracket, inside @ ..] if bracket.kind == TokenKind::LeftParen => {
            let name = Bytes::copied(alloc, name)?;
            let groups = Groups::new(alloc).with(Group::new(alloc, Some(name)))?;
            let place = Place::First;
            read_on(
                alloc,
                text,
                Progress::Within(Reader { groups, place }),
                inside,
            )
        }
        _ => Ok(None),
    }
}

/// The value that ends where the reader first has a whole one, with the number of the tokens behind it.
fn read_on(
    alloc: Global,
    text: &[u8],
    mut progress: Progress,
    tokens: &[Token],
) -> Result<Option<(ValuePart, usize)>, OutOfMemory>
    requires { LieWithin (length text.now) tokens.now }
    ensures value { IfOk result (λ found. found ≡ left (read_on progress (words_of text.now tokens.now))) }
    ensures within { IfOk result (λ found. IfSome found (λ f. f.1 ≤ length tokens.now)) }
{
    let mut rest = tokens;
    loop {
        match progress {
            Progress::Done(part) => return Ok(Some((part, rest.len()))),
            Progress::Failed => return Ok(None),
            Progress::Within(reader) => {
                let Some((token, after)) = rest.split_first() else {
                    return Ok(None);
                };
                progress = reader.step(alloc, lexeme_at(alloc, text, *token)?)?;
                rest = after;
            }
        }
    }
}
