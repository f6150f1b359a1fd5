// Journals, read from their text.
ghost use Rattle.std.specs.Prelude.{◌≡◌, ◌≢◌, [], List, map, IfOk, IfSome, IsNone, MatchOption};
ghost use Rattle.session_core.specs.declared.history.event.Event.{Event};
ghost use Rattle.script_text.specs.JournalRead.{IsToldBy, TellNothing, Tells};
ghost use Rattle.script_text.specs.JournalRows.{IsWhole, answer_event};
ghost use Rattle.script_text.specs.JournalSteps.{ReadsBehind, ReadsEvent, ReadsRow};
ghost use Rattle.script_text.specs.JournalText as spec;
ghost use Rattle.script_text.specs.JournalText.{ArePrinted};

use crate::journals::parts::{cut_line, read_lines, read_needs, read_quoted, stands_of};
use crate::journals::rows::{LineStart, Row, behind, line_start, session_of};
use session_core::{BeginKind, Event, Journal, Reply, Says};
use std::alloc::Global;
use xq_ast::{Code, Mark, NoMemory, Sequence, Str, cut, number_of};

const NO_MARK: Mark = Mark {
    before: 0,
    after: 0,
};

fn answered(session: u32, says: Says) -> Event
    ensures { result ≡ answer_event session says }
{
    Event::Answered(session, Reply { call: None, says })
}

// The event, where its words end the line.
fn whole(rest: &str, event: Event) -> Option<Event>
    ensures { MatchOption result (rest.now ≢ []) (λ e. IsWhole rest.now event e) }
{
    if rest.is_empty() { Some(event) } else { None }
}

fn read_began(session: u32, rest: &str) -> Option<Event>
    ensures { ReadsRow result Row.BeganRead session rest.now }
{
    let commit = number_of(rest)?;
    Some(Event::Began(session, BeginKind::Reading(commit)))
}

fn read_committed(session: u32, rest: &str) -> Option<Event>
    ensures { ReadsRow result Row.Committed session rest.now }
{
    let commit = number_of(rest)?;
    Some(Event::Committed(session, commit))
}

fn read_doubt(session: u32, rest: &str) -> Option<Event>
    ensures { ReadsRow result Row.Doubt session rest.now }
{
    let commit = number_of(rest)?;
    Some(Event::Doubt(session, commit, NO_MARK))
}

fn read_settled(session: u32, rest: &str) -> Option<Event>
    ensures { ReadsRow result Row.Settled session rest.now }
{
    let (digits, word) = cut(rest)?;
    let other = session_of(digits)?;
    let stands = stands_of(word)?;
    Some(Event::Settled(session, other, stands))
}

fn read_granted(alloc: Global, session: u32, rest: &str) -> Result<Option<Event>, NoMemory>
    ensures { IfOk result (λ event. ReadsRow event Row.Granted session rest.now) }
{
    match read_needs(alloc, rest)? {
        Some(needs) => Ok(Some(Event::Granted(session, needs))),
        None => Ok(None),
    }
}

fn read_refused(alloc: Global, session: u32, rest: &str) -> Result<Option<Event>, NoMemory>
    ensures { IfOk result (λ event. ReadsRow event Row.Refused session rest.now) }
{
    let Some(found) = read_quoted(alloc, rest)? else {
        return Ok(None);
    };
    let Some(digits) = behind(found.rest, " by ") else {
        return Ok(None);
    };
    match session_of(digits) {
        Some(holder) => Ok(Some(Event::Refused(session, found.name, holder, Sequence::new(alloc)))),
        None => Ok(None),
    }
}

fn read_error(alloc: Global, session: u32, rest: &str) -> Result<Option<Event>, NoMemory>
    ensures { IfOk result (λ event. ReadsRow event Row.Error session rest.now) }
{
    match Code::of_text(&Str::of(alloc, rest)?) {
        Some(code) => Ok(Some(answered(session, Says::Error(code)))),
        None => Ok(None),
    }
}

// An event that is one line.
fn read_row(alloc: Global, row: Row, session: u32, rest: &str) -> Result<Option<Event>, NoMemory>
    requires { row ≢ Row.Answer }
    ensures { IfOk result (λ event. ReadsRow event row session rest.now) }
{
    match row {
        Row::BeganUpdate => Ok(whole(rest, Event::Began(session, BeginKind::Updating))),
        Row::BeganRead => Ok(read_began(session, rest)),
        Row::Granted => read_granted(alloc, session, rest),
        Row::Refused => read_refused(alloc, session, rest),
        Row::Done => Ok(whole(rest, answered(session, Says::Done))),
        Row::Answer => Ok(None),
        Row::Error => read_error(alloc, session, rest),
        Row::Committed => Ok(read_committed(session, rest)),
        Row::Ended => Ok(whole(rest, Event::Ended(session))),
        Row::RolledBack => Ok(whole(rest, Event::RolledBack(session))),
        Row::Doubt => Ok(read_doubt(session, rest)),
        Row::Settled => Ok(read_settled(session, rest)),
        Row::Left => Ok(whole(rest, Event::Left(session))),
    }
}

/// An event, and what stands after its text.
#[derive(Drop)]
struct EventText<'a> {
    event: Event,
    rest: &'a str,
}

// An answer with its lines, which stand after its first line.
fn read_answer<'a>(
    alloc: Global,
    session: u32,
    count: &str,
    behind: &'a str,
) -> Result<Option<EventText<'a>>, NoMemory>
    ensures { IfOk result (λ found. ReadsBehind found Row.Answer session count.now behind.now) }
{
    let Some(count) = number_of(count) else {
        return Ok(None);
    };
    match read_lines(alloc, count, behind)? {
        Some(found) => Ok(Some(EventText {
            event: answered(session, Says::Lines(found.lines)),
            rest: found.rest,
        })),
        None => Ok(None),
    }
}

// An event by how its first line begins, and by what stands after that line.
fn read_behind<'a>(
    alloc: Global,
    start: &LineStart<'_>,
    behind: &'a str,
) -> Result<Option<EventText<'a>>, NoMemory>
    ensures { IfOk result (λ found. ReadsBehind found start.now.row start.now.session start.now.rest.now behind.now) }
{
    if start.row == Row::Answer {
        return read_answer(alloc, start.session, start.rest, behind);
    }
    match read_row(alloc, start.row, start.session, start.rest)? {
        Some(event) => Ok(Some(EventText {
            event,
            rest: behind,
        })),
        None => Ok(None),
    }
}

// The first event of a text.
fn read_event(alloc: Global, text: &str) -> Result<Option<EventText<'_>>, NoMemory>
    ensures { IfOk result (λ found. ReadsEvent found text.now) }
{
    let Some((line, behind)) = cut_line(text) else {
        return Ok(None);
    };
    match line_start(line) {
        Some(start) => read_behind(alloc, &start, behind),
        None => Ok(None),
    }
}

fn read_events(alloc: Global, text: &str) -> Result<Option<Journal>, NoMemory>
    ensures { IfOk result (λ read. Tells text.now read) }
{
    let mut journal: Journal = Sequence::new(alloc);
    let mut rest = text;
    while !rest.is_empty() {
        let Some(next) = read_event(alloc, rest)? else {
            return Ok(None);
        };
        journal.push(next.event)?;
        rest = next.rest;
    }
    Ok(Some(journal))
}

/// The journal that the bytes are the text of. None exactly where they are the text of no journal
/// as programs print them. An answer has no call in it, a refusal no needs, and a mark goes from
/// 0 to 0.
pub fn read_journal(alloc: Global, bytes: &[u8]) -> Result<Option<Journal>, NoMemory>
    ensures found { IfOk result (λ read. IfSome read (λ journal. IsToldBy bytes.now journal)) }
    ensures none { IfOk result (λ read. IsNone read → TellNothing bytes.now) }
    ensures again { (journal : List Event) → ArePrinted journal → spec.text journal ≡ bytes.now → IfOk result (λ read. read ≡ Some (map spec.told journal)) }
{
    match str::from_utf8(bytes) {
        Ok(text) => read_events(alloc, text),
        Err(_) => Ok(None),
    }
}
