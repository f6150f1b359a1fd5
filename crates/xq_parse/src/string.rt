//! Strings.
ghost use Rattle.std.specs.Prelude.{◌≡◌, ◌<◌, ◌∷◌, [], length, IsUtf8};
ghost use Rattle.xq_ast.specs.Tokens as spec;
ghost use Rattle.xq_parse.specs.Reads.{Reads};
ghost use Rattle.xq_parse.specs.Pieces.{piece_of, part_of, string_token};

use crate::answer::ParseEnd;
use crate::front::behind;
use crate::name::text_of;
use crate::piece::Piece;
use std::alloc::Global;
use xq_ast::{Sequence, Token};

/// How a string goes on.
#[derive(Drop)]
pub(crate) enum StringPart<'a> {
    /// With a byte of its text.
    Holds { byte: u8, rest: &'a [u8] },
    /// With its closing quote.
    Ends { rest: &'a [u8] },
    /// With an ampersand that begins no reference, or with the end of all bytes.
    Fault,
}

/// The character that a reference stands for, behind its ampersand.
fn reference(bytes: &[u8]) -> StringPart<'_>
    ensures { part_of result ≡ spec.behind_ampersand (spec.first_row spec.references bytes.now) }
{
    if let Some(rest) = behind(bytes, b"amp;") {
        StringPart::Holds { byte: b'&', rest }
    } else if let Some(rest) = behind(bytes, b"lt;") {
        StringPart::Holds { byte: b'<', rest }
    } else if let Some(rest) = behind(bytes, b"gt;") {
        StringPart::Holds { byte: b'>', rest }
    } else if let Some(rest) = behind(bytes, b"quot;") {
        StringPart::Holds { byte: b'"', rest }
    } else if let Some(rest) = behind(bytes, b"apos;") {
        StringPart::Holds { byte: b'\'', rest }
    } else {
        StringPart::Fault
    }
}

/// Behind a quote: a second one stands for itself, else the string ends.
fn behind_quote(quote: u8, bytes: &[u8]) -> StringPart<'_>
    ensures { part_of result ≡ spec.behind_quote (spec.behind (quote ∷ []) bytes.now) quote bytes.now }
{
    match bytes {
        [second, rest @ ..] if *second == quote => StringPart::Holds { byte: quote, rest },
        _ => StringPart::Ends { rest: bytes },
    }
}

fn string_part(quote: u8, bytes: &[u8]) -> StringPart<'_>
    ensures { part_of result ≡ spec.string_part quote bytes.now }
{
    let [first, rest @ ..] = bytes else {
        return StringPart::Fault;
    };
    if *first == quote {
        behind_quote(quote, rest)
    } else if *first == b'&' {
        reference(rest)
    } else {
        StringPart::Holds { byte: *first, rest }
    }
}

/// The text of a string and the bytes behind its closing quote.
#[derive(Drop)]
struct StringText<'a> {
    bytes: Sequence<u8>,
    rest: &'a [u8],
}

fn string(alloc: Global, quote: u8, bytes: &[u8]) -> Result<StringText<'_>, ParseEnd>
    requires { quote < 128 }
    ensures { Reads (λ s. (s.bytes, s.rest.now)) result (spec.string (length bytes.now) quote bytes.now) }
{
    let mut text = Sequence::new(alloc);
    let mut rest = bytes;
    'parts: loop {
        match string_part(quote, rest) {
            StringPart::Holds { byte, rest: after } => {
                text.push(byte)?;
                rest = after;
            }
            StringPart::Ends { rest } => return Ok(StringText { bytes: text, rest }),
            StringPart::Fault => return Err(ParseEnd::XPST0003),
        }
    }
}

/// The string whose opening quote stands before these bytes.
pub(crate) fn string_piece(alloc: Global, quote: u8, bytes: &[u8]) -> Result<Piece<'_>, ParseEnd>
    requires ascii { quote < 128 }
    requires utf8 { IsUtf8 bytes.now }
    ensures { Reads piece_of result (string_token quote bytes.now) }
{
    let text = string(alloc, quote, bytes)?;
    Ok(Piece {
        token: Some(Token::Text(text_of(alloc, text.bytes.as_slice())?)),
        rest: text.rest,
    })
}
