//! Integers.
ghost use Rattle.std.specs.Prelude.{◌≡◌, ◌<◌, ◌≤◌, fold, MatchOption};
ghost use Rattle.xq_ast.specs.Tokens as spec;
ghost use Rattle.xq_ast.specs.declared.limits.TheConstants.{INTEGER_MAX};
ghost use Rattle.xq_parse.specs.Reads.{Reads};
ghost use Rattle.xq_parse.specs.Pieces.{piece_of, integer_token};

use crate::answer::ParseEnd;
use crate::front::{digits_len, part_continues};
use crate::piece::Piece;
use xq_ast::{INTEGER_MAX, Token};

/// The number that these digits spell, where it is no greater than the greatest integer.
fn value_of(digits: &[u8]) -> Option<u64>
    ensures { MatchOption result (INTEGER_MAX < fold spec.digit_more 0 digits.now) (λ n. (n ≡ fold spec.digit_more 0 digits.now) × (n ≤ INTEGER_MAX)) }
{
    let mut value: u64 = 0;
    for digit in digits {
        let more = 10 * u128::from(value) + u128::from(digit.saturating_sub(b'0'));
        if more > u128::from(INTEGER_MAX) {
            return None;
        }
        value = more as u64;
    }
    Some(value)
}

/// The integer that begins here.
pub(crate) fn integer_piece(bytes: &[u8]) -> Result<Piece<'_>, ParseEnd>
    ensures { Reads piece_of result (integer_token bytes.now) }
{
    let (digits, rest) = bytes.split_at(digits_len(bytes));
    match value_of(digits) {
        Some(value) if !part_continues(rest) => Ok(Piece {
            token: Some(Token::Int(value as i64)),
            rest,
        }),
        _ => Err(ParseEnd::XPST0003),
    }
}
