// The statements of a text, and the values in it.
#![tactic(auto)]

ghost use Rattle.std.specs.Prelude.{◌≡◌, ◌≤◌, length, IfOk};
ghost use Rattle.ms_text.specs.Tokens.{LieWithin};
ghost use Rattle.ms_parse.specs.Gives.{Gives};
ghost use Rattle.ms_parse.specs.ValuesAt.{IsLongestFrom, value_at};

mod counts;
mod directive;
mod piece;
mod program;
mod rule;
mod sign;
mod statement;
mod word;

use crate::piece::{line_of, split_piece};
use crate::statement::read_statement;
pub use ms_base::memory::OutOfMemory;
use ms_base::seq::Seq;
use ms_grammar::part::ValuePart;
pub use ms_grammar::statement::{Form, Statement, Statements};
pub use ms_grammar::value::Value;
use ms_lex::Tokens;
use ms_read_value::read_front;
use std::alloc::{AllocFailed, Global};

/// Why tokens are no statements.
#[derive(Clone, Copy, Debug, PartialEq, Eq)]
pub enum ParseFault {
    /// The line at which the first piece begins that is no statement.
    BadStatement { line: u64 },
    OutOfMemory,
}

impl From<OutOfMemory> for ParseFault {
    ghost use Rattle.ms_parse.specs.declared.ParseFault.TheVariants.{OutOfMemory};

    ghost from_gives = { λ _ fault. fault ≡ OutOfMemory };

    fn from(_: OutOfMemory) -> ParseFault {
        ParseFault::OutOfMemory
    }
}

impl<T: Drop> From<AllocFailed<T>> for ParseFault {
    ghost use Rattle.ms_parse.specs.declared.ParseFault.TheVariants.{OutOfMemory};

    ghost from_gives = { λ _ fault. fault ≡ OutOfMemory };

    fn from(_: AllocFailed<T>) -> ParseFault {
        ParseFault::OutOfMemory
    }
}

/// The statements of a text with these tokens, exactly by the grammar, or the line of the first piece that
/// is none.
pub fn parse(alloc: Global, text: &[u8], tokens: &Tokens) -> Result<Statements, ParseFault>
    requires { LieWithin (length text.now) tokens.now }
    ensures { Gives result text.now tokens.now }
{
    let mut statements = Seq::new(alloc);
    let mut rest = tokens.as_slice();
    while let Some((piece, after)) = split_piece(rest) {
        let Some(statement) = read_statement(alloc, text, piece)? else {
            return Err(ParseFault::BadStatement {
                line: line_of(piece),
            });
        };
        statements.push(statement)?;
        rest = after;
    }
    Ok(statements)
}

/// A value among the tokens of a text, and the place of the token after it.
#[derive(Debug, Drop)]
pub struct ValueAt {
    pub value: Value,
    pub next: usize,
}

/// The longest value that begins at a token of a text. None exactly where none begins there.
pub fn read_value(
    alloc: Global,
    text: &[u8],
    tokens: &Tokens,
    from: usize,
) -> Result<Option<ValueAt>, OutOfMemory>
    requires lie_within { LieWithin (length text.now) tokens.now }
    requires begins { from ≤ length tokens.now }
    ensures longest { IfOk result (IsLongestFrom text.now tokens.now from) }
{
    let (_, rest) = tokens.as_slice().split_at(from);
    match read_front(alloc, text, rest)? {
        Some((part, count)) => Ok(Some(value_at(part, from + count))),
        None => Ok(None),
    }
}

fn value_at(part: ValuePart, next: usize) -> ValueAt
    ensures { result ≡ value_at part next }
{
    ValueAt {
        value: part.value,
        next,
    }
}
