//! How deep brackets nest.
ghost use Rattle.std.specs.Prelude.{◌≡◌, ◌≤◌, nat_le};
ghost use Rattle.xq_ast.specs.Parsed as spec;
ghost use Rattle.xq_ast.specs.declared.limits.TheConstants.{BRACKETS_MAX};

use xq_ast::{BRACKETS_MAX, NESTING_WORDS_MAX, Symbol, Token};

/// The brackets that are open behind a token, of `open` before it.
fn open_behind(opened: usize, token: &Token) -> usize
    requires { opened ≤ BRACKETS_MAX }
    ensures { result ≡ spec.open_behind opened token.now }
{
    match token {
        Token::Symbol(Symbol::OpenRound | Symbol::OpenSquare | Symbol::OpenCurly) => opened + 1,
        Token::Symbol(Symbol::CloseRound | Symbol::CloseSquare | Symbol::CloseCurly) => {
            opened.saturating_sub(1)
        }
        _ => opened,
    }
}

/// Whether no more brackets are open at once than may be.
fn are_brackets_few(tokens: &[Token]) -> bool
    ensures { result ≡ nat_le (spec.most_open 0 tokens.now) BRACKETS_MAX }
{
    let mut opened = 0;
    for token in tokens {
        opened = open_behind(opened, token);
        if opened > BRACKETS_MAX {
            return false;
        }
    }
    true
}

fn is_nesting_word(token: &Token) -> bool
    ensures { result ≡ spec.is_nesting_word token.now }
{
    match token {
        Token::Name(name) => name.as_str() == "return" || name.as_str() == "else",
        _ => false,
    }
}

/// Whether brackets and the words that nest are no more than may be.
pub(crate) fn is_nested_well(tokens: &[Token]) -> bool
    ensures { result ≡ spec.is_nested_well tokens.now }
{
    are_brackets_few(tokens)
        && tokens.iter().filter(|token| is_nesting_word(token)).count() <= NESTING_WORDS_MAX
}
