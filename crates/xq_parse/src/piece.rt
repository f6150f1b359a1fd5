//! A text as its tokens.
ghost use Rattle.std.specs.Prelude.{◌≡◌, ◌++◌, [], map, OnOk, IsUtf8};
ghost use Rattle.xq_ast.specs.Tokens as spec;
ghost use Rattle.xq_parse.specs.Reads.{Reads};
ghost use Rattle.xq_parse.specs.Pieces.{piece_of};

use crate::answer::ParseEnd;
use crate::characters::{begins_part, is_digit, is_quote, is_space};
use crate::integer::integer_piece;
use crate::name::name_piece;
use crate::string::string_piece;
use crate::symbol::mark_piece;
use std::alloc::Global;
use xq_ast::{NoMemory, Sequence, Token, TokenList};

/// A token, or none where a space or a comment parts tokens, and the bytes behind it.
#[derive(Drop)]
pub(crate) struct Piece<'a> {
    pub(crate) token: Option<Token>,
    pub(crate) rest: &'a [u8],
}

/// What the bytes begin with.
fn first_piece(alloc: Global, bytes: &[u8]) -> Result<Piece<'_>, ParseEnd>
    requires { IsUtf8 bytes.now }
    ensures { Reads piece_of result (spec.piece bytes.now) }
{
    let [first, rest @ ..] = bytes else {
        return Err(ParseEnd::XPST0003);
    };
    if is_space(*first) {
        return Ok(Piece { token: None, rest });
    }
    if is_quote(*first) {
        return string_piece(alloc, *first, rest);
    }
    if is_digit(*first) {
        return integer_piece(bytes);
    }
    if begins_part(*first) {
        return name_piece(alloc, bytes);
    }
    mark_piece(bytes)
}

/// The tokens of a text, and how many bytes each of them has in its own spelling.
#[derive(Drop)]
pub(crate) struct SpelledTokens {
    pub(crate) tokens: TokenList,
    pub(crate) lengths: Sequence<usize>,
}

impl SpelledTokens {
    /// Adds a piece that is spelled with so many bytes, where it is a token.
    fn add(&mut self, token: Option<Token>, length: usize) -> Result<(), NoMemory>
        ensures tokens { OnOk result (self.new.tokens ≡ self.old.tokens ++ map (λ s. s.token) (spec.with_piece token length [])) }
        ensures lengths { OnOk result (self.new.lengths ≡ self.old.lengths ++ map (λ s. s.bytes) (spec.with_piece token length [])) }
    {
        match token {
            Some(token) => {
                self.tokens.push(token)?;
                self.lengths.push(length)
            }
            None => Ok(()),
        }
    }
}

/// The tokens of a text.
pub(crate) fn tokens(alloc: Global, text: &str) -> Result<SpelledTokens, ParseEnd>
    ensures tokens { Reads (λ t. t.tokens) result (spec.tokens text.now) }
    ensures lengths { Reads (λ t. t.lengths) result (spec.token_lengths text.now) }
{
    let mut all = SpelledTokens {
        tokens: TokenList::new(alloc),
        lengths: Sequence::new(alloc),
    };
    let mut rest = text.as_bytes();
    'pieces: while !rest.is_empty() {
        let piece = first_piece(alloc, rest)?;
        all.add(piece.token, rest.len() - piece.rest.len())?;
        rest = piece.rest;
    }
    Ok(all)
}
