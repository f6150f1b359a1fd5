// Parts of lines, sent to a sink one after another.
ghost use Rattle.std.specs.Prelude.{◌∷◌, []};
ghost use Rattle.std.specs.Fmt.{decimal};
ghost use Rattle.script_text.specs.JournalText.{doubled};
ghost use Rattle.script_text.specs.Pieces.{piece_text, pieces_text};
ghost use Rattle.byte_edge.specs.Sending.{Sends, stage};

use byte_edge::{Pending, Sink, WriteFault, send_byte, send_bytes};
use itoa::Buffer;

/// A part of a line.
#[derive(Drop)]
pub(crate) enum Piece<'a> {
    Words(&'a str),
    /// A number in decimal.
    Number(u64),
    /// A text with each of its quotes twice.
    Doubled(&'a str),
}

fn send_number<W: Sink>(to: &mut W, pending: &mut Pending, number: u64) -> Result<(), WriteFault>
    ensures { Sends result (decimal number)
        (stage (W.written to.old) (W.faults to.old) pending.old)
        (stage (W.written to.new) (W.faults to.new) pending.new) }
{
    let mut buffer = Buffer::new();
    send_bytes(to, pending, buffer.format(number).as_bytes())
}

// A byte, and a quote twice.
fn send_quotable<W: Sink>(to: &mut W, pending: &mut Pending, byte: u8) -> Result<(), WriteFault>
    ensures { Sends result (doubled (byte ∷ []))
        (stage (W.written to.old) (W.faults to.old) pending.old)
        (stage (W.written to.new) (W.faults to.new) pending.new) }
{
    if byte == b'\'' {
        return send_bytes(to, pending, b"''");
    }
    send_byte(to, pending, byte)
}

fn send_doubled<W: Sink>(to: &mut W, pending: &mut Pending, bytes: &[u8]) -> Result<(), WriteFault>
    ensures { Sends result (doubled bytes.now)
        (stage (W.written to.old) (W.faults to.old) pending.old)
        (stage (W.written to.new) (W.faults to.new) pending.new) }
{
    for byte in bytes {
        send_quotable(to, pending, *byte)?;
    }
    Ok(())
}

fn send_piece<W: Sink>(
    to: &mut W,
    pending: &mut Pending,
    piece: &Piece<'_>,
) -> Result<(), WriteFault>
    ensures { Sends result (piece_text piece.now)
        (stage (W.written to.old) (W.faults to.old) pending.old)
        (stage (W.written to.new) (W.faults to.new) pending.new) }
{
    match piece {
        Piece::Words(words) => send_bytes(to, pending, words.as_bytes()),
        Piece::Number(number) => send_number(to, pending, *number),
        Piece::Doubled(words) => send_doubled(to, pending, words.as_bytes()),
    }
}

/// Sends parts, one after another.
pub(crate) fn send_pieces<W: Sink>(
    to: &mut W,
    pending: &mut Pending,
    pieces: &[Piece<'_>],
) -> Result<(), WriteFault>
    ensures { Sends result (pieces_text pieces.now)
        (stage (W.written to.old) (W.faults to.old) pending.old)
        (stage (W.written to.new) (W.faults to.new) pending.new) }
{
    for piece in pieces {
        send_piece(to, pending, piece)?;
    }
    Ok(())
}
