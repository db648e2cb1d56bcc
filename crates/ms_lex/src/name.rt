// Names, and the word `not`.
ghost use Rattle.std.specs.Prelude.{◌≡◌, ◌<◌, ◌≤◌, length, IfSome};
ghost use Rattle.std.specs.List.{prefix_len};
ghost use Rattle.ms_lex.specs.Names.{is_underscore, bare_len};
ghost use Rattle.ms_text.specs.Tokens.{name_len, name_kind, name_token};

use crate::bytes::word_len;
use ms_text::token::TokenKind;

/// A name, or the word `not`.
pub(crate) fn name_token(text: &[u8]) -> Option<(TokenKind, usize)>
    ensures value { result ≡ name_token text.now (name_len text.now) }
    ensures within { IfSome result (λ found. (0 < found.1) × (found.1 ≤ length text.now)) }
{
    let len = name_len(text)?;
    Some((name_kind(&text[..len]), len))
}

fn name_kind(name: &[u8]) -> TokenKind
    ensures { result ≡ name_kind name.now }
{
    if name == b"not".as_slice() {
        TokenKind::Not
    } else {
        TokenKind::Name
    }
}

/// How long the name at the front is.
fn name_len(text: &[u8]) -> Option<usize>
    ensures value { result ≡ name_len text.now }
    ensures within { IfSome result (λ n. (0 < n) × (n ≤ length text.now)) }
{
    let underscores = underscores_len(text);
    let bare = bare_len(&text[underscores..])?;
    Some(underscores + bare)
}

/// How many underscores stand at the front.
fn underscores_len(text: &[u8]) -> usize
    ensures value { result ≡ prefix_len is_underscore text.now }
    ensures within { result ≤ length text.now }
{
    text.iter().take_while(|byte| **byte == b'_').count()
}

/// How long a name without underscores in front is: one of a to z, and word bytes.
fn bare_len(text: &[u8]) -> Option<usize>
    ensures value { result ≡ bare_len text.now }
    ensures within { IfSome result (λ n. (0 < n) × (n ≤ length text.now)) }
{
    match text {
        [first, after @ ..] if first.is_ascii_lowercase() => Some(1 + word_len(after)),
        _ => None,
    }
}
