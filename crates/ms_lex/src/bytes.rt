// Bytes by their classes, and how many of a class stand at the front of a text.
ghost use Rattle.std.specs.Prelude.{◌≡◌, ◌+◌, ◌^◌, ◌<◌, ◌≤◌, length, take_while};
ghost use Rattle.ms_text.specs.Tokens.{is_blank, is_word, is_in_line, line_after};

/// Whether a byte is a tab, a line end, a carriage return or a space.
pub(crate) fn is_blank(byte: u8) -> bool
    ensures { result ≡ is_blank byte }
{
    matches!(byte, b'\t' | b'\n' | b'\r' | b' ')
}

/// The line of what follows a byte of this line.
pub(crate) fn line_after(byte: u8, line: u64) -> u64
    requires { line + 1 < 2 ^ 64 }
    ensures { result ≡ line_after byte line }
{
    if byte == b'\n' { line + 1 } else { line }
}

/// How many bytes stand before the first line end, or in the whole text where it has none.
pub fn line_len(text: &[u8]) -> usize
    ensures value { result ≡ length (take_while is_in_line text.now) }
    ensures within { result ≤ length text.now }
{
    text.iter().take_while(|byte| **byte != b'\n').count()
}

/// How many letters, digits, underscores and apostrophes stand at the front.
pub fn word_len(text: &[u8]) -> usize
    ensures value { result ≡ length (take_while is_word text.now) }
    ensures within { result ≤ length text.now }
{
    text.iter().take_while(|byte| is_word(**byte)).count()
}

fn is_word(byte: u8) -> bool
    ensures { result ≡ is_word byte }
{
    byte.is_ascii_alphanumeric() || byte == b'_' || byte == b'\''
}
