//! What bytes begin with.
ghost use Rattle.std.specs.Prelude.{◌≡◌, ◌≤◌, length, option_map};
ghost use Rattle.std.specs.List.{prefix_len};
ghost use Rattle.xq_ast.specs.Tokens as spec;
ghost use Rattle.xq_ast.specs.Names as names;

use crate::characters::{begins_part, continues_part, is_digit};

/// How many bytes from the first on continue a part of a name.
#[tactic(auto, using(crate::proofs::Fronts::prefix_len_le))]
pub(crate) fn part_len(bytes: &[u8]) -> usize
    ensures count { result ≡ prefix_len names.continues_part bytes.now }
    ensures within { result ≤ length bytes.now }
{
    bytes.iter().take_while(|b| continues_part(**b)).count()
}

/// How many bytes from the first on are digits.
#[tactic(auto, using(crate::proofs::Fronts::prefix_len_le))]
pub(crate) fn digits_len(bytes: &[u8]) -> usize
    ensures count { result ≡ prefix_len names.is_digit bytes.now }
    ensures within { result ≤ length bytes.now }
{
    bytes.iter().take_while(|b| is_digit(**b)).count()
}

/// Whether the first byte is there and begins a part of a name.
pub(crate) fn part_begins(bytes: &[u8]) -> bool
    ensures { result ≡ spec.begins names.begins_part bytes.now }
{
    match bytes {
        [] => false,
        [first, ..] => begins_part(*first),
    }
}

/// Whether the first byte is there and continues a part of a name.
pub(crate) fn part_continues(bytes: &[u8]) -> bool
    ensures { result ≡ spec.begins names.continues_part bytes.now }
{
    match bytes {
        [] => false,
        [first, ..] => continues_part(*first),
    }
}

/// What stands behind a word, where the bytes begin with it.
pub(crate) fn behind<'a>(bytes: &'a [u8], word: &[u8]) -> Option<&'a [u8]>
    ensures { spec.behind word.now bytes.now ≡ option_map (λ rest. rest.now) result }
{
    bytes.strip_prefix(word)
}
