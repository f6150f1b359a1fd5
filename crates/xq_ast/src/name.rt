//! Names of elements, attributes and instructions, names of documents, and the bytes that they have.
ghost use Rattle.std.specs.Prelude.{◌≡◌, nat_le};
ghost use Rattle.std.specs.List.{list_all};
ghost use Rattle.xq_ast.specs.Names as spec;

use crate::limits::{DOCUMENT_NAME_BYTES_MAX, NAME_BYTES_MAX};

/// Whether a name may begin with this byte. A byte from 128 on is a part of a character beyond ASCII.
pub fn begins_name(b: u8) -> bool
    ensures { result ≡ spec.begins_name b }
{
    b.is_ascii_alphabetic() || b == b'_' || b == b':' || b >= 128
}

/// Whether a name may go on with this byte.
pub fn continues_name(b: u8) -> bool
    ensures { result ≡ spec.continues_name b }
{
    begins_name(b) || b.is_ascii_digit() || b == b'-' || b == b'.'
}

fn continue_name(bytes: &[u8]) -> bool
    ensures { result ≡ list_all spec.continues_name bytes.now }
{
    bytes.iter().all(|b| continues_name(*b))
}

fn is_name_of(bytes: &[u8]) -> bool
    ensures { result ≡ spec.is_name bytes.now }
{
    match bytes {
        [] => false,
        [first, rest @ ..] => {
            begins_name(*first) && (continue_name(rest) && bytes.len() <= NAME_BYTES_MAX)
        }
    }
}

/// Whether a text is a name of an element, an attribute or an instruction. Takes no memory.
pub fn is_name(text: &str) -> bool
    ensures { result ≡ spec.is_name text.now }
{
    is_name_of(text.as_bytes())
}

// Whether no character is below U+0020.
fn is_printed(bytes: &[u8]) -> bool
    ensures { result ≡ list_all (nat_le 32) bytes.now }
{
    bytes.iter().all(|b| 32 <= *b)
}

fn is_document_name_of(bytes: &[u8]) -> bool
    ensures { result ≡ spec.is_document_name bytes.now }
{
    1 <= bytes.len() && (bytes.len() <= DOCUMENT_NAME_BYTES_MAX && is_printed(bytes))
}

/// Whether a text is a name of a document. Takes no memory.
pub fn is_document_name(text: &str) -> bool
    ensures { result ≡ spec.is_document_name text.now }
{
    is_document_name_of(text.as_bytes())
}
