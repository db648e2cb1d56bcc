// What stands at the front of a text.
ghost use Rattle.std.specs.Prelude.{◌≡◌, ◌<◌, ◌≤◌, length, IfSome};
ghost use Rattle.ms_text.specs.Tokens.{first_token};

use crate::directive::directive_token;
use crate::name::name_token;
use crate::number::number_token;
use crate::sign::sign_token;
use crate::string::string_token;
use ms_text::token::TokenKind;

/// The longest token at the front, with its number of bytes.
pub(crate) fn first_token(text: &[u8]) -> Option<(TokenKind, usize)>
    ensures value { result ≡ first_token text.now }
    ensures within { IfSome result (λ found. (0 < found.1) × (found.1 ≤ length text.now)) }
{
    match text {
        [first, ..] if first.is_ascii_digit() => number_token(text),
        [b'"', after @ ..] => string_token(after),
        [b'#', after @ ..] => directive_token(after),
        [first, ..] if first.is_ascii_lowercase() || *first == b'_' => name_token(text),
        [first, after @ ..] => sign_token(*first, after),
        [] => None,
    }
}
