// What has been read of a script, and the next line.
ghost use Rattle.std.specs.Prelude.{◌≡◌, ◌<◌, [], ◌∷◌, ◌++◌, Option, None, option_to_list, IfOk, OnOk};
ghost use Rattle.xml_model.specs.Pyx.{split_lines, behind_space};
ghost use Rattle.script_text.specs.Scripts as spec;
ghost use Rattle.script_text.specs.ScriptEnds.{Stops, Takes};

use crate::limits::{CALLS_MAX, SESSIONS_MAX};
use crate::scripts::fault::{RefusedScript, ScriptFault, ScriptRefusal, Stop};
use crate::scripts::kinds::{LineKind, first_word, has_end, is_end, kind_of, opens_load};
use crate::scripts::numbers::push_numbers;
use crate::scripts::session_calls::{CallTextList, CallTextListList, NumberList};
use std::alloc::Global;
use std::marker::Model;
use std::mem;
use xq_ast::{CallText, NoMemory, Sequence, Str};

/// What has been read.
#[derive(Drop)]
pub(crate) struct Reading {
    /// The sessions before the one that has begun last.
    pub ended: CallTextListList,
    /// The calls of that one, but for its last call.
    pub calls: CallTextList,
    pub last: Option<CallText>,
    /// How many sessions have begun.
    pub begun: u64,
    pub order: NumberList,
    /// Whether the next line is one of a LOAD.
    pub in_load: bool,
    /// How many calls all sessions have.
    pub count: u64,
    pub lines: u64,
}

impl Model for Reading {
    ghost use Rattle.script_text.specs.Scripts as spec;

    ghost Value = { spec.Reading };

    ghost view = { λ r. record { ended = r.ended; calls = r.calls; last = r.last; begun = r.begun; order = r.order; in_load = r.in_load; count = r.count; lines = r.lines } };
}

pub(crate) fn nothing_read(alloc: Global) -> Reading
    ensures { result ≡ spec.start }
{
    Reading {
        ended: Sequence::new(alloc),
        calls: Sequence::new(alloc),
        last: None,
        begun: 0,
        order: Sequence::new(alloc),
        in_load: false,
        count: 0,
        lines: 0,
    }
}

// Puts the last call after the others.
fn push_last(reading: &mut Reading) -> Result<(), NoMemory>
    ensures { OnOk result (reading.new ≡ record reading.old { calls = reading.old.calls ++ option_to_list reading.old.last; last = None }) }
{
    if let Some(call) = reading.last.take() {
        reading.calls.push(call)?;
    }
    Ok(())
}

/// Ends the session that has begun last, if there is one.
pub(crate) fn end_session(alloc: Global, reading: &mut Reading) -> Result<(), NoMemory>
    ensures { OnOk result (reading.new ≡ record reading.old { ended = spec.sessions_of reading.old; calls = []; last = None }) }
{
    push_last(reading)?;
    let calls = mem::replace(&mut reading.calls, Sequence::new(alloc));
    if reading.begun != 0 {
        reading.ended.push(calls)?;
    }
    Ok(())
}

fn take_session(alloc: Global, reading: &mut Reading) -> Result<(), Stop>
    ensures { Stops result reading.new (spec.read_kind 0 LineKind.Session [] [] reading.old) }
{
    if reading.begun >= SESSIONS_MAX {
        return Err(Stop::Refused(ScriptRefusal::TooManySessions));
    }
    end_session(alloc, reading)?;
    reading.begun += 1;
    Ok(())
}

fn take_continuation(reading: &mut Reading, line: &str) -> Result<(), Stop>
    ensures { Stops result reading.new (spec.with_continuation line.now reading.old.last reading.old) }
{
    let Some(mut call) = reading.last.take() else {
        return Err(Stop::Refused(ScriptRefusal::BadScript));
    };
    if opens_load(call.text.as_bytes()) {
        return Err(Stop::Refused(ScriptRefusal::BadScript));
    }
    call.text.push_str("\n")?;
    call.text.push_str(line)?;
    reading.last = Some(call);
    Ok(())
}

fn take_order(reading: &mut Reading, sessions: u64, line: &str) -> Result<(), Stop>
    ensures { Stops result reading.new (spec.with_numbers (spec.numbers sessions (spec.split_words (behind_space line.now))) reading.old) }
{
    push_numbers(&mut reading.order, sessions, first_word(line).behind)
}

// Adds a call.
fn push_call(alloc: Global, reading: &mut Reading, line: &str) -> Result<(), NoMemory>
    requires { reading.old.count < CALLS_MAX }
    ensures { OnOk result (reading.new ≡ spec.with_call line.now reading.old) }
{
    push_last(reading)?;
    reading.last = Some(CallText {
        text: Str::of(alloc, line)?,
        pyx: Sequence::new(alloc),
    });
    reading.count += 1;
    reading.in_load = opens_load(line.as_bytes());
    Ok(())
}

fn take_call(alloc: Global, reading: &mut Reading, line: &str, behind: &[u8]) -> Result<(), Stop>
    ensures { Stops result reading.new (spec.read_kind 0 LineKind.Call line.now (split_lines behind.now) reading.old) }
{
    if reading.begun == 0 {
        return Err(Stop::Refused(ScriptRefusal::BadScript));
    }
    if reading.count >= CALLS_MAX {
        return Err(Stop::Refused(ScriptRefusal::TooManyCalls));
    }
    if opens_load(line.as_bytes()) && !has_end(behind) {
        return Err(Stop::Refused(ScriptRefusal::LoadOpen));
    }
    Ok(push_call(alloc, reading, line)?)
}

// A line of a LOAD.
fn take_loaded(alloc: Global, reading: &mut Reading, line: &str) -> Result<(), NoMemory>
    ensures { OnOk result (reading.new ≡ spec.loaded line.now reading.old) }
{
    if is_end(line.as_bytes()) {
        reading.in_load = false;
        return Ok(());
    }
    if let Some(mut call) = reading.last.take() {
        call.pyx.push(Str::of(alloc, line)?)?;
        reading.last = Some(call);
    }
    Ok(())
}

fn take_kind(
    alloc: Global,
    reading: &mut Reading,
    sessions: u64,
    line: &str,
    behind: &[u8],
) -> Result<(), Stop>
    ensures { Stops result reading.new (spec.read_kind sessions (spec.kind_of line.now) line.now (split_lines behind.now) reading.old) }
{
    match kind_of(line) {
        LineKind::Skipped => Ok(()),
        LineKind::Continuation => take_continuation(reading, line),
        LineKind::Session => take_session(alloc, reading),
        LineKind::Order => take_order(reading, sessions, line),
        LineKind::Call => take_call(alloc, reading, line, behind),
    }
}

// A line, before its refusal has a number.
#[tactic(auto, using(crate::proofs::ScriptLines::text_is_text))]
fn take_text(
    alloc: Global,
    reading: &mut Reading,
    sessions: u64,
    line: &[u8],
    behind: &[u8],
) -> Result<(), Stop>
    ensures { Stops result reading.new (spec.read_line sessions line.now (split_lines behind.now) reading.old) }
{
    let Ok(text) = str::from_utf8(line) else {
        return Err(Stop::Refused(ScriptRefusal::NotUtf8));
    };
    if reading.in_load {
        return Ok(take_loaded(alloc, reading, text)?);
    }
    take_kind(alloc, reading, sessions, text, behind)
}

/// Takes the next line, with the number of sessions of the whole script and what stands after the line.
pub(crate) fn take_line(
    alloc: Global,
    reading: &mut Reading,
    sessions: u64,
    line: &[u8],
    behind: &[u8],
) -> Result<(), ScriptFault>
    ensures { Takes result reading.new (spec.step sessions line.now (split_lines behind.now) reading.old) }
{
    let number = reading.lines.saturating_add(1);
    reading.lines = number;
    match take_text(alloc, reading, sessions, line, behind) {
        Ok(()) => Ok(()),
        Err(Stop::Refused(why)) => Err(ScriptFault::Refused(RefusedScript { line: number, why })),
        Err(Stop::NoMemory) => Err(ScriptFault::NoMemory),
    }
}
