use ms_base::seq::Seq;

/// What a token is.
#[derive(Clone, Copy, Debug, PartialEq, Eq)]
pub enum TokenKind {
    /// A name other than `not`.
    Name,
    /// The word `not`.
    Not,
    /// A number in decimal digits.
    Number,
    /// A string in double quotes.
    Text,
    /// `#program`
    Program,
    /// `#external`
    External,
    /// `#const`
    Const,
    /// `#show`
    Show,
    /// `#include`
    Include,
    /// `#count`
    Count,
    /// `#sum`
    Sum,
    /// `.`
    Dot,
    /// `..`
    DotDot,
    /// `,`
    Comma,
    /// `;`
    Semicolon,
    /// `:`
    Colon,
    /// `:-`
    If,
    /// `(`
    LeftParen,
    /// `)`
    RightParen,
    /// `{`
    LeftBrace,
    /// `}`
    RightBrace,
    /// `+`
    Plus,
    /// `-`
    Minus,
    /// `*`
    Star,
    /// `/`
    Slash,
    /// `\`
    Backslash,
    /// `|`
    Bar,
    /// `=`
    Equal,
    /// `==`
    EqualEqual,
    /// `!=`
    NotEqual,
    /// `<>`
    LessGreater,
    /// `<`
    Less,
    /// `<=`
    LessEqual,
    /// `>`
    Greater,
    /// `>=`
    GreaterEqual,
}

/// A token: its bytes stand from `start` to before `end`, the first of them in the line `line`,
/// counted from 1.
#[derive(Clone, Copy, Debug, PartialEq, Eq)]
pub struct Token {
    pub kind: TokenKind,
    pub start: usize,
    pub end: usize,
    pub line: u64,
}

pub type Tokens = Seq<Token>;

/// The first byte that begins no token: its place, and its line, counted from 1.
#[derive(Clone, Copy, Debug, PartialEq, Eq)]
pub struct BadByte {
    pub at: usize,
    pub line: u64,
}
