//! What FLWOR expressions are made of that holds no expression.
ghost use Rattle.std.specs.Prelude.{◌≡◌, option_map, IfOk};
ghost use Rattle.xq_ast.specs.Readings as spec;
ghost use Rattle.xq_parse.specs.Operands.{clause_word_of};
ghost use Rattle.xq_parse.specs.Reads.{Finds};

use crate::cursor::Parser;
use xq_ast::{NoMemory, Str, Symbol, Token};

/// The word of a clause that binds variables.
#[derive(Clone, Copy)]
pub(crate) enum ClauseWord {
    For,
    Let,
}

impl<'a> Parser<'a> {
    /// Takes `for` or `let`, where one comes next.
    pub(crate) fn clause_word(&mut self) -> Option<ClauseWord>
        ensures { Finds (option_map clause_word_of result) self.old self.new (spec.clause_word self.old) }
    {
        match self.left() {
            [Token::Name(name), rest @ ..] if name.as_str() == "for" => {
                self.goes_on(rest);
                Some(ClauseWord::For)
            }
            [Token::Name(name), rest @ ..] if name.as_str() == "let" => {
                self.goes_on(rest);
                Some(ClauseWord::Let)
            }
            _ => None,
        }
    }

    /// `[at $Name]`
    pub(crate) fn place(&mut self) -> Result<Option<Str>, NoMemory>
        ensures { IfOk result (λ place. spec.place self.old ≡ (place, self.new)) }
    {
        match self.left() {
            [
                Token::Name(word),
                Token::Symbol(Symbol::Dollar),
                Token::Name(name),
                rest @ ..,
            ] if word.as_str() == "at" => {
                self.goes_on(rest);
                Ok(Some(name.copy()?))
            }
            _ => Ok(None),
        }
    }

    /// `[ascending | descending]`, and whether it was `descending`.
    pub(crate) fn direction(&mut self) -> bool
        ensures { spec.direction self.old ≡ (result, self.new) }
    {
        match self.left() {
            [Token::Name(name), rest @ ..] if name.as_str() == "ascending" => {
                self.goes_on(rest);
                false
            }
            [Token::Name(name), rest @ ..] if name.as_str() == "descending" => {
                self.goes_on(rest);
                true
            }
            _ => false,
        }
    }
}
