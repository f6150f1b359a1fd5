// Journals as text, to a sink.
ghost use Rattle.std.specs.Prelude.{◌≡◌, ◌∷◌, [], ◌++◌, codes, OnOk};
ghost use Rattle.std.specs.Fmt.{decimal};
ghost use Rattle.std.specs.Io.KnownBytes.{append_known};
ghost use Rattle.byte_edge.specs.Faults.{HasCause};
ghost use Rattle.byte_edge.specs.Took.{AppendedPrefix};
ghost use Rattle.xq_ast.specs.CodeText.{code_text};
ghost use Rattle.xml_model.specs.Pyx.{text_of};
ghost use Rattle.session_core.specs.declared.history.event.Event.TheVariants as events;
ghost use Rattle.session_core.specs.declared.history.event.Says.TheVariants as answers;
ghost use Rattle.script_text.specs.JournalText as spec;
ghost use Rattle.script_text.specs.JournalText.{answer_lines, event_lines};
ghost use Rattle.script_text.specs.Pieces.{others_text};
ghost use Rattle.byte_edge.specs.Sending.{Sends, stage};

use crate::journals::pieces::{Piece, send_pieces};
use byte_edge::{Pending, Sink, WriteFault, flush, send_byte, send_bytes};
use session_core::{BeginKind, Event, Journal, Says};
use xq_ast::{Code, LockMode, Need, NeedList, Str, StrList};

fn word_of_mode(mode: LockMode) -> &'static str
    ensures { result.now ≡ spec.mode_text mode }
{
    match mode {
        LockMode::S => "S",
        LockMode::X => "X",
    }
}

// A name between quotes and its mode.
fn send_need<'a, W: Sink>(
    to: &mut W,
    pending: &mut Pending,
    before: &'a str,
    need: &'a Need,
) -> Result<(), WriteFault>
    ensures { Sends result (before.now ++ spec.need_text need.now)
        (stage (W.written to.old) (W.faults to.old) pending.old)
        (stage (W.written to.new) (W.faults to.new) pending.new) }
{
    send_pieces(
        to,
        pending,
        &[
            Piece::Words(before),
            Piece::Words("'"),
            Piece::Doubled(need.name.as_str()),
            Piece::Words("' "),
            Piece::Words(word_of_mode(need.mode)),
        ],
    )
}

fn send_began<W: Sink>(
    to: &mut W,
    pending: &mut Pending,
    session: u32,
    kind: BeginKind,
) -> Result<(), WriteFault>
    ensures { Sends result (text_of (event_lines (events.Began session kind)))
        (stage (W.written to.old) (W.faults to.old) pending.old)
        (stage (W.written to.new) (W.faults to.new) pending.new) }
{
    let session = Piece::Number(u64::from(session));
    match kind {
        BeginKind::Updating => send_pieces(
            to,
            pending,
            &[session, Piece::Words(" began update\n")],
        ),
        BeginKind::Reading(commit) => send_pieces(
            to,
            pending,
            &[
                session,
                Piece::Words(" began read "),
                Piece::Number(commit),
                Piece::Words("\n"),
            ],
        ),
    }
}

// Needs after a first one.
fn send_others<W: Sink>(to: &mut W, pending: &mut Pending, needs: &[Need]) -> Result<(), WriteFault>
    ensures { Sends result (others_text needs.now)
        (stage (W.written to.old) (W.faults to.old) pending.old)
        (stage (W.written to.new) (W.faults to.new) pending.new) }
{
    for need in needs {
        send_need(to, pending, ", ", need)?;
    }
    Ok(())
}

fn send_needs<W: Sink>(
    to: &mut W,
    pending: &mut Pending,
    needs: &NeedList,
) -> Result<(), WriteFault>
    ensures { Sends result (spec.needs_text needs.now)
        (stage (W.written to.old) (W.faults to.old) pending.old)
        (stage (W.written to.new) (W.faults to.new) pending.new) }
{
    match needs.as_slice() {
        [] => Ok(()),
        [first, others @ ..] => {
            send_need(to, pending, "", first)?;
            send_others(to, pending, others)
        }
    }
}

fn send_granted<W: Sink>(
    to: &mut W,
    pending: &mut Pending,
    session: u32,
    needs: &NeedList,
) -> Result<(), WriteFault>
    ensures { Sends result (text_of (event_lines (events.Granted session needs.now)))
        (stage (W.written to.old) (W.faults to.old) pending.old)
        (stage (W.written to.new) (W.faults to.new) pending.new) }
{
    send_pieces(
        to,
        pending,
        &[Piece::Number(u64::from(session)), Piece::Words(" granted ")],
    )?;
    send_needs(to, pending, needs)?;
    send_byte(to, pending, b'\n')
}

fn send_refused<W: Sink>(
    to: &mut W,
    pending: &mut Pending,
    session: u32,
    name: &Str,
    holder: u32,
) -> Result<(), WriteFault>
    ensures { Sends result (text_of (event_lines (events.Refused session name.now holder [])))
        (stage (W.written to.old) (W.faults to.old) pending.old)
        (stage (W.written to.new) (W.faults to.new) pending.new) }
{
    send_pieces(
        to,
        pending,
        &[
            Piece::Number(u64::from(session)),
            Piece::Words(" refused '"),
            Piece::Doubled(name.as_str()),
            Piece::Words("' by "),
            Piece::Number(u64::from(holder)),
            Piece::Words("\n"),
        ],
    )
}

// A session's number, a space and some words.
fn send_words<W: Sink>(
    to: &mut W,
    pending: &mut Pending,
    session: u32,
    words: &str,
) -> Result<(), WriteFault>
    ensures { Sends result (text_of (spec.line_of session words.now ∷ []))
        (stage (W.written to.old) (W.faults to.old) pending.old)
        (stage (W.written to.new) (W.faults to.new) pending.new) }
{
    send_pieces(
        to,
        pending,
        &[
            Piece::Number(u64::from(session)),
            Piece::Words(" "),
            Piece::Words(words),
            Piece::Words("\n"),
        ],
    )
}

// A session's number, a space, some words, a space and a number.
fn send_numbered<W: Sink>(
    to: &mut W,
    pending: &mut Pending,
    session: u32,
    words: &str,
    number: u64,
) -> Result<(), WriteFault>
    ensures { Sends result (text_of (spec.line_of session (words.now ++ codes " " ++ decimal number) ∷ []))
        (stage (W.written to.old) (W.faults to.old) pending.old)
        (stage (W.written to.new) (W.faults to.new) pending.new) }
{
    send_pieces(
        to,
        pending,
        &[
            Piece::Number(u64::from(session)),
            Piece::Words(" "),
            Piece::Words(words),
            Piece::Words(" "),
            Piece::Number(number),
            Piece::Words("\n"),
        ],
    )
}

fn send_settled<W: Sink>(
    to: &mut W,
    pending: &mut Pending,
    by: u32,
    session: u32,
    stands: bool,
) -> Result<(), WriteFault>
    ensures { Sends result (text_of (event_lines (events.Settled by session stands)))
        (stage (W.written to.old) (W.faults to.old) pending.old)
        (stage (W.written to.new) (W.faults to.new) pending.new) }
{
    let found = if stands { " yes\n" } else { " no\n" };
    send_pieces(
        to,
        pending,
        &[
            Piece::Number(u64::from(by)),
            Piece::Words(" settled "),
            Piece::Number(u64::from(session)),
            Piece::Words(found),
        ],
    )
}

#[tactic(auto, using(xq_ast::proofs::Words::word_of_the_rest))]
fn send_code<W: Sink>(to: &mut W, pending: &mut Pending, code: &Code) -> Result<(), WriteFault>
    ensures { Sends result (code_text code.now)
        (stage (W.written to.old) (W.faults to.old) pending.old)
        (stage (W.written to.new) (W.faults to.new) pending.new) }
{
    match code {
        Code::Pyx { why, line } => send_pieces(
            to,
            pending,
            &[
                Piece::Words("Pyx "),
                Piece::Words(why.name()),
                Piece::Words(" "),
                Piece::Number(*line),
            ],
        ),
        Code::Spent { kind, number } => send_pieces(
            to,
            pending,
            &[
                Piece::Words("Spent "),
                Piece::Words(kind.name()),
                Piece::Words(" "),
                Piece::Number(*number),
            ],
        ),
        Code::Damaged {
            commit,
            ordinal,
            page,
        } => send_pieces(
            to,
            pending,
            &[
                Piece::Words("Damaged "),
                Piece::Number(*commit),
                Piece::Words(" "),
                Piece::Number(*ordinal),
                Piece::Words(" "),
                Piece::Number(*page),
            ],
        ),
        word => send_bytes(to, pending, word.word().as_bytes()),
    }
}

fn send_error<W: Sink>(
    to: &mut W,
    pending: &mut Pending,
    session: u32,
    code: &Code,
) -> Result<(), WriteFault>
    ensures { Sends result (text_of (answer_lines session (answers.Error code.now)))
        (stage (W.written to.old) (W.faults to.old) pending.old)
        (stage (W.written to.new) (W.faults to.new) pending.new) }
{
    send_pieces(
        to,
        pending,
        &[Piece::Number(u64::from(session)), Piece::Words(" error ")],
    )?;
    send_code(to, pending, code)?;
    send_byte(to, pending, b'\n')
}

fn send_line<W: Sink>(to: &mut W, pending: &mut Pending, line: &Str) -> Result<(), WriteFault>
    ensures { Sends result (text_of (line.now ∷ []))
        (stage (W.written to.old) (W.faults to.old) pending.old)
        (stage (W.written to.new) (W.faults to.new) pending.new) }
{
    send_bytes(to, pending, line.as_bytes())?;
    send_byte(to, pending, b'\n')
}

fn send_lines<W: Sink>(to: &mut W, pending: &mut Pending, lines: &StrList) -> Result<(), WriteFault>
    ensures { Sends result (text_of lines.now)
        (stage (W.written to.old) (W.faults to.old) pending.old)
        (stage (W.written to.new) (W.faults to.new) pending.new) }
{
    for line in lines.as_slice() {
        send_line(to, pending, line)?;
    }
    Ok(())
}

fn send_answer<W: Sink>(
    to: &mut W,
    pending: &mut Pending,
    session: u32,
    lines: &StrList,
) -> Result<(), WriteFault>
    ensures { Sends result (text_of (answer_lines session (answers.Lines lines.now)))
        (stage (W.written to.old) (W.faults to.old) pending.old)
        (stage (W.written to.new) (W.faults to.new) pending.new) }
{
    send_numbered(to, pending, session, "answer", lines.len() as u64)?;
    send_lines(to, pending, lines)
}

fn send_says<W: Sink>(
    to: &mut W,
    pending: &mut Pending,
    session: u32,
    says: &Says,
) -> Result<(), WriteFault>
    ensures { Sends result (text_of (answer_lines session says.now))
        (stage (W.written to.old) (W.faults to.old) pending.old)
        (stage (W.written to.new) (W.faults to.new) pending.new) }
{
    match says {
        Says::Done => send_words(to, pending, session, "done"),
        Says::Lines(lines) => send_answer(to, pending, session, lines),
        Says::Error(code) => send_error(to, pending, session, code),
        Says::Began(_)
        | Says::LockHeld(..)
        | Says::Committed(_)
        | Says::Ended
        | Says::RolledBack
        | Says::Doubt(_) => Ok(()),
    }
}

fn send_event<W: Sink>(to: &mut W, pending: &mut Pending, event: &Event) -> Result<(), WriteFault>
    ensures { Sends result (text_of (event_lines event.now))
        (stage (W.written to.old) (W.faults to.old) pending.old)
        (stage (W.written to.new) (W.faults to.new) pending.new) }
{
    match event {
        Event::Began(session, kind) => send_began(to, pending, *session, *kind),
        Event::Granted(session, needs) => send_granted(to, pending, *session, needs),
        Event::Refused(session, name, holder, _) => send_refused(
            to, pending, *session, name, *holder,
        ),
        Event::Answered(session, reply) => send_says(to, pending, *session, &reply.says),
        Event::Committed(session, commit) => {
            send_numbered(to, pending, *session, "committed", *commit)
        }
        Event::Ended(session) => send_words(to, pending, *session, "ended"),
        Event::RolledBack(session) => send_words(to, pending, *session, "rolled back"),
        Event::Doubt(session, commit, _) => send_numbered(to, pending, *session, "doubt", *commit),
        Event::Settled(by, session, stands) => send_settled(to, pending, *by, *session, *stands),
        Event::Left(session) => send_words(to, pending, *session, "left"),
    }
}

fn send_events<W: Sink>(
    to: &mut W,
    pending: &mut Pending,
    journal: &Journal,
) -> Result<(), WriteFault>
    ensures { Sends result (spec.text journal.now)
        (stage (W.written to.old) (W.faults to.old) pending.old)
        (stage (W.written to.new) (W.faults to.new) pending.new) }
{
    for event in journal.as_slice() {
        send_event(to, pending, event)?;
    }
    Ok(())
}

/// Writes a journal's text. An answer that has no line there, as one that a program never prints,
/// is left out. After a fault a prefix of the text was appended. Takes no memory.
pub fn write_journal<W: Sink>(journal: &Journal, to: &mut W) -> Result<(), WriteFault>
    ensures all { OnOk result (W.written to.new ≡ append_known (W.written to.old) (spec.text journal.now)) }
    ensures prefix { AppendedPrefix (spec.text journal.now) (W.written to.old) (W.written to.new) }
    ensures cause { HasCause (W.faults to.old) (W.faults to.new) result }
{
    let mut pending = Pending::new();
    send_events(to, &mut pending, journal)?;
    flush(to, &mut pending)
}
