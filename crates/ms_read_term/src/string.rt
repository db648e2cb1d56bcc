// Strings in double quotes.
ghost use Rattle.std.specs.Prelude.{◌≡◌, ◌≤◌, false, length, IfOk};
ghost use Rattle.ms_grammar.specs.Words.{escaped, unescaped, within_quotes};

use ms_base::memory::OutOfMemory;
use ms_base::seq::{Bytes, Seq};
use ms_text::token::Token;
use std::alloc::Global;

/// The bytes between the first and the last of a token.
pub(crate) fn within_quotes(text: &[u8], token: Token) -> &[u8]
    requires ordered { token.start ≤ token.end }
    requires within { token.end ≤ length text.now }
    ensures { result.now ≡ within_quotes text.now token }
{
    if token.end - token.start < 2 {
        return &[];
    }
    &text[token.start + 1..token.end - 1]
}

/// The bytes that stand for those between the quotes.
pub(crate) fn unescape(alloc: Global, quoted: &[u8]) -> Result<Bytes, OutOfMemory>
    ensures { IfOk result (λ bytes. bytes ≡ unescaped false quoted.now) }
{
    let mut bytes = Seq::new(alloc);
    let mut behind = false;
    for byte in quoted {
        if behind {
            bytes.push(escaped(*byte))?;
            behind = false;
        } else if *byte == b'\\' {
            behind = true;
        } else {
            bytes.push(*byte)?;
        }
    }
    Ok(bytes)
}

// The byte that stands for a byte behind a backslash.
fn escaped(byte: u8) -> u8
    ensures { result ≡ escaped byte }
{
    if byte == b'n' { b'\n' } else { byte }
}
