//! Fields at the front of bytes, each with what stands behind it.
ghost use Rattle.std.specs.Prelude.{◌≡◌, ◌≤◌, ◌∷◌, [], Ok, Err, length, IfOk};
ghost use Rattle.redo_log.specs.Reading.{check, number_at, byte_at, bytes_at, number_in};
ghost use Rattle.redo_log.specs.Gives.{Gives};

use crate::fault::ReadEnd;

/// What is right, or the place of what is wrong.
pub fn check(is_right: bool, left: usize) -> Result<(), ReadEnd>
    ensures { Gives (λ _. tt) result (check is_right left) }
{
    if is_right {
        Ok(())
    } else {
        Err(ReadEnd::Wrong(left))
    }
}

/// A number of eight bytes, the highest first.
#[tactic(auto, unfolding(crate::specs::Reading::number_in))]
pub fn number_at(bytes: &[u8]) -> Result<(u64, &[u8]), ReadEnd>
    ensures gives { Gives (λ x. (x.0, x.1.now)) result (number_at bytes.now) }
    ensures shorter { IfOk result (λ x. length x.1.now ≤ length bytes.now) }
{
    if bytes.len() < 8 {
        return Err(ReadEnd::Wrong(bytes.len()));
    }
    let (front, rest) = bytes.split_at(8);
    let number = u64::from_be_bytes([
        front[0], front[1], front[2], front[3], front[4], front[5], front[6], front[7],
    ]);
    Ok((number, rest))
}

/// One byte.
pub fn byte_at(bytes: &[u8]) -> Result<(u8, &[u8]), ReadEnd>
    ensures gives { Gives (λ x. (x.0, x.1.now)) result (byte_at bytes.now) }
    ensures shorter { IfOk result (λ x. length x.1.now ≤ length bytes.now) }
{
    match bytes {
        [] => Err(ReadEnd::Wrong(0)),
        [first, rest @ ..] => Ok((*first, rest)),
    }
}

/// So many bytes.
pub fn bytes_at(count: usize, bytes: &[u8]) -> Result<(&[u8], &[u8]), ReadEnd>
    ensures gives { Gives (λ x. (x.0.now, x.1.now)) result (bytes_at count bytes.now) }
    ensures count { IfOk result (λ x. length x.0.now ≡ count) }
    ensures shorter { IfOk result (λ x. length x.1.now ≤ length bytes.now) }
{
    if bytes.len() < count {
        return Err(ReadEnd::Wrong(bytes.len()));
    }
    Ok(bytes.split_at(count))
}
