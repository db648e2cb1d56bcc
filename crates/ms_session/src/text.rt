ghost use Rattle.ms_session.specs.ReadText.{ReadsAs};

use ms_lex::{LexFault, lex};
use ms_parse::{ParseFault, Statements, parse};
use std::alloc::Global;

/// Why a text has no statements.
#[derive(Clone, Copy, Debug, PartialEq, Eq)]
pub enum TextFault {
    /// The line at which it leaves the grammar, counted from 1.
    Syntax { line: u64 },
    OutOfMemory,
}

/// The statements of a text, exactly by the grammar, or the line at which it leaves it.
pub fn read(alloc: Global, text: &[u8]) -> Result<Statements, TextFault>
    ensures { ReadsAs result text.now }
{
    let tokens = match lex(alloc, text) {
        Ok(tokens) => tokens,
        Err(LexFault::BadByte { line, .. }) => return Err(TextFault::Syntax { line }),
        Err(LexFault::OutOfMemory) => return Err(TextFault::OutOfMemory),
    };
    match parse(alloc, text, &tokens) {
        Ok(statements) => Ok(statements),
        Err(ParseFault::BadStatement { line }) => Err(TextFault::Syntax { line }),
        Err(ParseFault::OutOfMemory) => Err(TextFault::OutOfMemory),
    }
}
