//! The tokens of a call that are left to be read.
ghost use Rattle.std.specs.Prelude.{◌≡◌, option_map};
ghost use Rattle.xq_ast.specs.Readings as spec;
ghost use Rattle.xq_parse.specs.Reads.{Reads, Takes};

use crate::answer::ParseEnd;
use std::alloc::Global;
use std::marker::Model;
use xq_ast::{Str, Symbol, Token};

/// A reader of tokens from the left, which contracts see as the tokens that are left. Each row of
/// the grammar is a method that takes its tokens. Where one fails, nothing is said of what is left.
#[derive(Drop)]
pub(crate) struct Parser<'a> {
    alloc: Global,
    left: &'a [Token],
}

impl<'a> Model for Parser<'a> {
    ghost use Rattle.std.specs.Prelude.{List};
    ghost use Rattle.xq_ast.specs.declared.token.Token.{Token as TokenValue};

    ghost Value = { List TokenValue };

    ghost view = { λ p. p.left.now };
}

impl<'a> Parser<'a> {
    pub(crate) fn new(alloc: Global, tokens: &'a [Token]) -> Parser<'a>
        ensures { result ≡ tokens.now }
    {
        Parser {
            alloc,
            left: tokens,
        }
    }

    /// Where trees take their memory.
    pub(crate) fn alloc(&self) -> Global {
        self.alloc
    }

    /// The tokens that are left.
    pub(crate) fn left(&self) -> &'a [Token]
        ensures { result.now ≡ self.now }
    {
        self.left
    }

    /// Goes on behind what was looked at.
    pub(crate) fn goes_on(&mut self, rest: &'a [Token])
        ensures { self.new ≡ rest.now }
    {
        self.left = rest;
    }

    /// Takes what was looked for, where it stands, and says whether it does.
    pub(crate) fn takes(&mut self, behind: Option<&'a [Token]>) -> bool
        ensures { Takes result self.old self.new (option_map (λ rest. rest.now) behind.entry) }
    {
        match behind {
            Some(rest) => {
                self.goes_on(rest);
                true
            }
            None => false,
        }
    }

    /// Takes what was looked for, which has to stand.
    pub(crate) fn expect(&mut self, behind: Option<&'a [Token]>) -> Result<(), ParseEnd>
        ensures { Reads (λ u. self.new) result (option_map (λ rest. rest.now) behind.entry) }
    {
        match behind {
            Some(rest) => {
                self.goes_on(rest);
                Ok(())
            }
            None => Err(ParseEnd::XPST0003),
        }
    }

    /// Takes a name, which has to come next.
    pub(crate) fn name(&mut self) -> Result<Str, ParseEnd>
        ensures { Reads (λ name. (name, self.new)) result (spec.a_name self.old) }
    {
        match self.left() {
            [Token::Name(name), rest @ ..] => {
                self.goes_on(rest);
                Ok(name.copy()?)
            }
            _ => Err(ParseEnd::XPST0003),
        }
    }

    /// Takes a variable, which has to come next.
    pub(crate) fn variable(&mut self) -> Result<Str, ParseEnd>
        ensures { Reads (λ name. (name, self.new)) result (spec.variable self.old) }
    {
        match self.left() {
            [Token::Symbol(Symbol::Dollar), Token::Name(name), rest @ ..] => {
                self.goes_on(rest);
                Ok(name.copy()?)
            }
            _ => Err(ParseEnd::XPST0003),
        }
    }
}
