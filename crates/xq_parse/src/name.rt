//! Names.
ghost use Rattle.std.specs.Prelude.{◌≡◌, ◌≤◌, ◌++◌, ℕ, List, take, drop, length, IfOk, IsUtf8, true};
ghost use Rattle.xq_ast.specs.Tokens as spec;
ghost use Rattle.xq_ast.specs.Names.{begins_part};
ghost use Rattle.xq_ast.specs.declared.token.Token.TheVariants as token;
ghost use Rattle.xq_parse.specs.Reads.{Reads};
ghost use Rattle.xq_parse.specs.Pieces.{piece_of};

use crate::answer::ParseEnd;
use crate::front::{part_begins, part_len};
use crate::piece::Piece;
use std::alloc::Global;
use std::str;
use xq_ast::{NoMemory, Str, Token};

/// The text of some bytes.
pub(crate) fn text_of(alloc: Global, bytes: &[u8]) -> Result<Str, NoMemory>
    requires { IsUtf8 bytes.now }
    ensures { IfOk result (λ s. s ≡ bytes.now) }
{
    match str::from_utf8(bytes) {
        Ok(text) => Str::of(alloc, text),
        Err(_) => unreachable!(),
    }
}

/// How many bytes a second part takes, with its colon.
fn second_len(rest: &[u8]) -> usize
    ensures second { (first : List ℕ) → spec.with_second first rest.now (spec.second_part rest.now) ≡ (first ++ take result rest.now, drop result rest.now) }
    ensures within { result ≤ length rest.now }
{
    match rest {
        [b':', second @ ..] => {
            if part_begins(second) {
                1 + part_len(second)
            } else {
                0
            }
        }
        _ => 0,
    }
}

/// How many bytes the name takes that begins here.
fn name_len(bytes: &[u8]) -> usize
    ensures name { spec.name bytes.now ≡ (take result bytes.now, drop result bytes.now) }
    ensures within { result ≤ length bytes.now }
{
    let first = part_len(bytes);
    first + second_len(&bytes[first..])
}

/// The name that begins here.
pub(crate) fn name_piece(alloc: Global, bytes: &[u8]) -> Result<Piece<'_>, ParseEnd>
    requires utf8 { IsUtf8 bytes.now }
    requires begins { spec.begins begins_part bytes.now ≡ true }
    ensures { Reads piece_of result (spec.a_token token.Name (spec.name bytes.now)) }
{
    let (name, rest) = bytes.split_at(name_len(bytes));
    Ok(Piece {
        token: Some(Token::Name(text_of(alloc, name)?)),
        rest,
    })
}
