//! Symbols.
ghost use Rattle.std.specs.Prelude.{◌≡◌, option_map, codes};
ghost use Rattle.xq_ast.specs.Tokens as spec;
ghost use Rattle.xq_ast.specs.declared.token.Token.TheVariants as token;
ghost use Rattle.xq_parse.specs.Reads.{Reads};
ghost use Rattle.xq_parse.specs.Pieces.{piece_of};
ghost use Rattle.xq_parse.specs.Spellings as spellings;

use crate::answer::ParseEnd;
use crate::comment::behind_comment;
use crate::front::behind;
use crate::piece::Piece;
use xq_ast::{Symbol, Token};

fn spelling(symbol: Symbol) -> &'static str
    ensures { result.now ≡ spellings.spelling symbol }
{
    match symbol {
        Symbol::OpenRound => "(",
        Symbol::CloseRound => ")",
        Symbol::OpenSquare => "[",
        Symbol::CloseSquare => "]",
        Symbol::OpenCurly => "{",
        Symbol::CloseCurly => "}",
        Symbol::Comma => ",",
        Symbol::Slash => "/",
        Symbol::SlashSlash => "//",
        Symbol::At => "@",
        Symbol::Dot => ".",
        Symbol::DotDot => "..",
        Symbol::ColonColon => "::",
        Symbol::Assign => ":=",
        Symbol::Equal => "=",
        Symbol::NotEqual => "!=",
        Symbol::Less => "<",
        Symbol::LessOrEqual => "<=",
        Symbol::Greater => ">",
        Symbol::GreaterOrEqual => ">=",
        Symbol::Plus => "+",
        Symbol::Minus => "-",
        Symbol::Star => "*",
        Symbol::Bar => "|",
        Symbol::Dollar => "$",
    }
}

/// All symbols; where one begins another, the longer stands first.
const SYMBOLS: [Symbol; 25] = [
    Symbol::SlashSlash,
    Symbol::DotDot,
    Symbol::ColonColon,
    Symbol::Assign,
    Symbol::NotEqual,
    Symbol::LessOrEqual,
    Symbol::GreaterOrEqual,
    Symbol::OpenRound,
    Symbol::CloseRound,
    Symbol::OpenSquare,
    Symbol::CloseSquare,
    Symbol::OpenCurly,
    Symbol::CloseCurly,
    Symbol::Comma,
    Symbol::Slash,
    Symbol::At,
    Symbol::Dot,
    Symbol::Equal,
    Symbol::Less,
    Symbol::Greater,
    Symbol::Plus,
    Symbol::Minus,
    Symbol::Star,
    Symbol::Bar,
    Symbol::Dollar,
];

/// A symbol and the bytes behind it.
#[derive(Drop)]
struct Found<'a> {
    symbol: Symbol,
    rest: &'a [u8],
}

/// The first of these symbols with which the bytes begin.
fn symbol_among<'a>(symbols: &[Symbol], bytes: &'a [u8]) -> Option<Found<'a>>
    ensures { spec.first_row (spellings.rows symbols.now) bytes.now ≡ option_map (λ f. (f.symbol, f.rest.now)) result }
{
    for symbol in symbols {
        if let Some(rest) = behind(bytes, spelling(*symbol).as_bytes()) {
            return Some(Found {
                symbol: *symbol,
                rest,
            });
        }
    }
    None
}

/// The comment or the symbol that begins here.
pub(crate) fn mark_piece(bytes: &[u8]) -> Result<Piece<'_>, ParseEnd>
    ensures { Reads piece_of result (spec.comment_or_symbol (spec.behind (codes "(:") bytes.now) bytes.now) }
{
    if let Some(inside) = behind(bytes, b"(:") {
        return match behind_comment(inside) {
            Some(rest) => Ok(Piece { token: None, rest }),
            None => Err(ParseEnd::XPST0003),
        };
    }
    match symbol_among(&SYMBOLS, bytes) {
        Some(found) => Ok(Piece {
            token: Some(Token::Symbol(found.symbol)),
            rest: found.rest,
        }),
        None => Err(ParseEnd::XPST0003),
    }
}
