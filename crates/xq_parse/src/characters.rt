//! Classes of characters.
ghost use Rattle.std.specs.Prelude.{◌≡◌};
ghost use Rattle.xq_ast.specs.Tokens as spec;
ghost use Rattle.xq_ast.specs.Names as names;

use xq_ast::{begins_name, continues_name};

pub(crate) fn is_space(b: u8) -> bool
    ensures { result ≡ spec.is_space b }
{
    b == b' ' || b == b'\t' || b == b'\n' || b == b'\r'
}

pub(crate) fn is_quote(b: u8) -> bool
    ensures { result ≡ spec.is_quote b }
{
    b == b'\'' || b == b'"'
}

pub(crate) fn is_digit(b: u8) -> bool
    ensures { result ≡ names.is_digit b }
{
    b.is_ascii_digit()
}

/// Whether a part of a name begins so: as a name does, but with no colon.
pub(crate) fn begins_part(b: u8) -> bool
    ensures { result ≡ names.begins_part b }
{
    begins_name(b) && b != b':'
}

/// Whether a part of a name goes on so: as a name does, but with no colon.
pub(crate) fn continues_part(b: u8) -> bool
    ensures { result ≡ names.continues_part b }
{
    continues_name(b) && b != b':'
}
