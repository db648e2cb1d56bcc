// The words at the front of a line.
ghost use Rattle.std.specs.Prelude.{◌≡◌, ◌≢◌, ◌++◌, ℕ, List, MatchOption};
ghost use Rattle.ms_log.specs.Reading.{kind_text};

/// What a line says.
#[derive(Clone, Copy, Debug, PartialEq, Eq)]
pub(crate) enum Kind {
    Atom,
    Body,
    Tuple,
    Aggregate,
    Start,
    Theory,
    Kept,
    Temporary,
    Answer,
    Finish,
}

/// The kind of a line, and what stands behind the words that say it.
pub(crate) fn kind_of(line: &[u8]) -> Option<(Kind, &[u8])>
    ensures { MatchOption result
        ((kind : Kind) (rest : List ℕ) → line.now ≢ kind_text kind ++ rest)
        (λ found. line.now ≡ kind_text found.0 ++ found.1.now) }
{
    match line {
        [b'v', b' ', b'a', rest @ ..] => Some((Kind::Atom, rest)),
        [b'v', b' ', b'b', rest @ ..] => Some((Kind::Body, rest)),
        [b'v', b' ', b't', rest @ ..] => Some((Kind::Tuple, rest)),
        [b'v', b' ', b'g', rest @ ..] => Some((Kind::Aggregate, rest)),
        [b's', rest @ ..] => Some((Kind::Start, rest)),
        [b'x', rest @ ..] => Some((Kind::Theory, rest)),
        [b'k', rest @ ..] => Some((Kind::Kept, rest)),
        [b't', rest @ ..] => Some((Kind::Temporary, rest)),
        [b'm', rest @ ..] => Some((Kind::Answer, rest)),
        [b'e', rest @ ..] => Some((Kind::Finish, rest)),
        _ => None,
    }
}
