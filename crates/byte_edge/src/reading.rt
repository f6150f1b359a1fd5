// Reading a source to its end.
ghost use Rattle.std.specs.Prelude.{◌≡◌, ◌<◌, ◌≤◌, length, IfOk, OnOk, IfSome, IsErrOf, vec_len};
ghost use Rattle.std.specs.Io.KnownBytes.{prepend_known, IsAtEnd};
ghost use Rattle.byte_edge.specs.Took.{HasReadCause, Took};

use crate::source::Source;
use std::alloc::{AllocError, Global};
use thiserror::Error;

// The bytes that one call of a source is asked for.
const CHUNK: usize = 65536;

/// Why not all bytes of a source were read.
#[derive(Clone, Copy, Debug, PartialEq, Eq, Error)]
pub enum ReadEnd {
    #[error("the source failed")]
    ReadFault,
    #[error("the source has more bytes than the limit")]
    TooLarge,
    #[error("out of memory")]
    NoMemory,
}

/// All bytes of a source to its end, of which there may be `limit`. It takes one byte more at most.
pub fn read_all<R: Source>(alloc: Global, from: &mut R, limit: usize) -> Result<Vec<u8>, ReadEnd>
    ensures all { IfOk result (λ v. R.rest from.old ≡ prepend_known v.items (R.rest from.new)) }
    ensures end { OnOk result (IsAtEnd (R.rest from.new)) }
    ensures within { IfOk result (λ v. vec_len v ≤ limit) }
    // Too large exactly where more than `limit` bytes were taken.
    ensures took { Took limit (R.rest from.old) (R.rest from.new) result }
    ensures too_large { IsErrOf result ReadEnd.TooLarge → IfSome (R.rest from.old) (λ bytes. limit < length bytes) }
    ensures cause { HasReadCause (R.faults from.old) (R.faults from.new) result }
{
    let Ok(mut chunk) = zeros(alloc, CHUNK) else {
        return Err(ReadEnd::NoMemory);
    };
    read_by(alloc, from, &mut chunk, limit)
}

// Reads to the end, by a buffer.
fn read_by<R: Source>(
    alloc: Global,
    from: &mut R,
    chunk: &mut [u8],
    limit: usize,
) -> Result<Vec<u8>, ReadEnd>
    requires { 0 < length chunk.old }
    ensures all { IfOk result (λ v. R.rest from.old ≡ prepend_known v.items (R.rest from.new)) }
    ensures end { OnOk result (IsAtEnd (R.rest from.new)) }
    ensures within { IfOk result (λ v. vec_len v ≤ limit) }
    ensures took { Took limit (R.rest from.old) (R.rest from.new) result }
    ensures too_large { IsErrOf result ReadEnd.TooLarge → IfSome (R.rest from.old) (λ bytes. limit < length bytes) }
    ensures cause { HasReadCause (R.faults from.old) (R.faults from.new) result }
{
    let mut bytes = Vec::new(alloc);
    'pieces: loop {
        let room = limit - bytes.len();
        let wanted = chunk.len().min(room.saturating_add(1));
        let Ok(count) = from.take(&mut chunk[..wanted]) else {
            return Err(ReadEnd::ReadFault);
        };
        if count == 0 {
            return Ok(bytes);
        }
        if count > room {
            return Err(ReadEnd::TooLarge);
        }
        if bytes.extend_from_slice(&chunk[..count]).is_err() {
            return Err(ReadEnd::NoMemory);
        }
    }
}

fn zeros(alloc: Global, len: usize) -> Result<Vec<u8>, AllocError>
    ensures { IfOk result (λ v. vec_len v ≡ len) }
{
    vec![in alloc; 0; len]
}
