//! Looking ahead: what stands behind a token or two, where the tokens begin with them.
ghost use Rattle.std.specs.Prelude.{◌≡◌, option_map};
ghost use Rattle.xq_ast.specs.Readings as spec;

use xq_ast::{Symbol, Token};

pub(crate) fn comma(tokens: &[Token]) -> Option<&[Token]>
    ensures { spec.comma tokens.now ≡ option_map (λ rest. rest.now) result }
{
    match tokens {
        [Token::Symbol(Symbol::Comma), rest @ ..] => Some(rest),
        _ => None,
    }
}

pub(crate) fn close_round(tokens: &[Token]) -> Option<&[Token]>
    ensures { spec.close_round tokens.now ≡ option_map (λ rest. rest.now) result }
{
    match tokens {
        [Token::Symbol(Symbol::CloseRound), rest @ ..] => Some(rest),
        _ => None,
    }
}

pub(crate) fn close_square(tokens: &[Token]) -> Option<&[Token]>
    ensures { spec.close_square tokens.now ≡ option_map (λ rest. rest.now) result }
{
    match tokens {
        [Token::Symbol(Symbol::CloseSquare), rest @ ..] => Some(rest),
        _ => None,
    }
}

pub(crate) fn close_curly(tokens: &[Token]) -> Option<&[Token]>
    ensures { spec.close_curly tokens.now ≡ option_map (λ rest. rest.now) result }
{
    match tokens {
        [Token::Symbol(Symbol::CloseCurly), rest @ ..] => Some(rest),
        _ => None,
    }
}

pub(crate) fn open_square(tokens: &[Token]) -> Option<&[Token]>
    ensures { spec.open_square tokens.now ≡ option_map (λ rest. rest.now) result }
{
    match tokens {
        [Token::Symbol(Symbol::OpenSquare), rest @ ..] => Some(rest),
        _ => None,
    }
}

pub(crate) fn assign(tokens: &[Token]) -> Option<&[Token]>
    ensures { spec.assign tokens.now ≡ option_map (λ rest. rest.now) result }
{
    match tokens {
        [Token::Symbol(Symbol::Assign), rest @ ..] => Some(rest),
        _ => None,
    }
}

/// Behind this word.
pub(crate) fn word<'a>(word: &str, tokens: &'a [Token]) -> Option<&'a [Token]>
    ensures { spec.word word.now tokens.now ≡ option_map (λ rest. rest.now) result }
{
    match tokens {
        [Token::Name(name), rest @ ..] if name.as_str() == word => Some(rest),
        _ => None,
    }
}

/// Behind these two words.
pub(crate) fn two_words<'a>(first: &str, second: &str, tokens: &'a [Token]) -> Option<&'a [Token]>
    ensures { spec.two_words first.now second.now tokens.now ≡ option_map (λ rest. rest.now) result }
{
    match tokens {
        [Token::Name(one), Token::Name(other), rest @ ..]
            if one.as_str() == first && other.as_str() == second => { Some(rest) }
        _ => None,
    }
}

/// Behind `|` or the word `union`.
pub(crate) fn union_op(tokens: &[Token]) -> Option<&[Token]>
    ensures { spec.union_op tokens.now ≡ option_map (λ rest. rest.now) result }
{
    match tokens {
        [Token::Symbol(Symbol::Bar), rest @ ..] => Some(rest),
        [Token::Name(name), rest @ ..] if name.as_str() == "union" => Some(rest),
        _ => None,
    }
}
