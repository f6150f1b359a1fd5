//! Tokens of a call's text.
use crate::sequence::Sequence;
use crate::text::Str;

/// A symbol of the grammar.
#[derive(Clone, Copy, Debug, PartialEq, Eq)]
pub enum Symbol {
    /// `(`
    OpenRound,
    /// `)`
    CloseRound,
    /// `[`
    OpenSquare,
    /// `]`
    CloseSquare,
    /// `{`
    OpenCurly,
    /// `}`
    CloseCurly,
    /// `,`
    Comma,
    /// `/`
    Slash,
    /// `//`
    SlashSlash,
    /// `@`
    At,
    /// `.`
    Dot,
    /// `..`
    DotDot,
    /// `::`
    ColonColon,
    /// `:=`
    Assign,
    /// `=`
    Equal,
    /// `!=`
    NotEqual,
    /// `<`
    Less,
    /// `<=`
    LessOrEqual,
    /// `>`
    Greater,
    /// `>=`
    GreaterOrEqual,
    /// `+`
    Plus,
    /// `-`
    Minus,
    /// `*`
    Star,
    /// `|`
    Bar,
    /// `$`
    Dollar,
}

/// A token of a call's text.
#[derive(Debug, Drop)]
pub enum Token {
    /// A name of one part, or of two with one colon between.
    Name(Str),
    /// The text of a string, its references replaced.
    Text(Str),
    /// 0 to 9223372036854775807.
    Int(i64),
    Symbol(Symbol),
}

/// The tokens of a call's text.
pub type TokenList = Sequence<Token>;
