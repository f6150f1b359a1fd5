// The commands, and how they end.
ghost use Rattle.std.specs.Prelude.{◌≡◌, ◌≤◌, ◌↔◌, ◌⊎◌, None, Some, IfOk, length, []};
ghost use Rattle.script_text.specs.declared.limits.TheConstants.{SESSIONS_MAX};
ghost use Rattle.std.specs.Io.KnownBytes.{append_known};
ghost use Rattle.byte_edge.specs.Took.{AppendedPrefix};
ghost use Rattle.script_text.specs.JournalText.{text};
ghost use Rattle.session_core.specs.History.Legal.{SoFar};
ghost use Rattle.xdb_top.specs.Tool as spec;
ghost use Rattle.xdb_top.specs.Tool.{IsAnswered, DoesCommand, HasFaultCause, HasJournal, IsCanonical, IsPlayedText, LacksForDocument, LacksForPlay, is_read_fault, is_write_fault, words_of, command_of as command_by};
ghost use Rattle.xdb_top.specs.Parts as parts;
ghost use Rattle.xdb_top.specs.Parts.{IsRead, fault_of};
ghost use Rattle.xdb_top.specs.Input.{spelled, spelled_script};
ghost use Rattle.xdb_top.specs.Played.{start};

use crate::command::{Command, command_of};
use crate::fault::{INPUT_BYTES_MAX, InputFault, InputRefusal, TopFault};
use crate::input::{InputEnd, read_input};
use crate::play::{Played, play};
use byte_edge::{ReadEnd, Sink, Source, read_all};
use pyx_text::write_doc;
use script_text::{RefusedScript, Script, ScriptFault, read_script, write_journal};
use session_core::Journal;
use std::alloc::Global;
use xml_model::Doc;
use xq_ast::Sequence;

/// How the tool ended.
#[derive(Debug, Drop)]
pub struct TopEnd {
    /// The exit status: 0 exactly where there is no fault.
    pub status: u8,
    pub fault: Option<TopFault>,
    /// What happened in the sessions that were run. Empty for a command that runs none.
    pub journal: Journal,
}

fn status_of(fault: Option<TopFault>) -> u8
    ensures { result ≡ spec.status_of fault }
{
    match fault {
        None => 0,
        Some(TopFault::BadWords) => 1,
        Some(TopFault::BadInput { .. }) => 2,
        Some(TopFault::TooLarge) => 2,
        Some(TopFault::ReadFault) => 4,
        Some(TopFault::WriteFault) => 5,
        Some(TopFault::NoMemory) => 6,
    }
}

/// The end with this fault, or with none, and this journal.
fn ended(fault: Option<TopFault>, journal: Journal) -> TopEnd
    ensures { result ≡ record { status = spec.status_of fault; fault = fault; journal = journal } }
{
    TopEnd {
        status: status_of(fault),
        fault,
        journal,
    }
}

/// The end with this fault, or with none, where no session was run.
pub fn end_of(alloc: Global, fault: Option<TopFault>) -> TopEnd
    ensures { result ≡ record { status = spec.status_of fault; fault = fault; journal = [] } }
{
    ended(fault, Sequence::new(alloc))
}

fn of_read(end: ReadEnd) -> TopFault
    ensures { result ≡ parts.of_read end }
{
    match end {
        ReadEnd::ReadFault => TopFault::ReadFault,
        ReadEnd::TooLarge => TopFault::TooLarge,
        ReadEnd::NoMemory => TopFault::NoMemory,
    }
}

fn of_input(end: InputEnd) -> TopFault
    ensures { result ≡ parts.of_input end }
{
    match end {
        InputEnd::Fault(InputFault { line, why }) => TopFault::BadInput { line, why },
        InputEnd::NoMemory => TopFault::NoMemory,
    }
}

fn of_script(fault: ScriptFault) -> TopFault
    ensures { result ≡ parts.of_script fault }
{
    match fault {
        ScriptFault::Refused(RefusedScript { line, why }) => TopFault::BadInput {
            line,
            why: InputRefusal::Script(why),
        },
        ScriptFault::NoMemory => TopFault::NoMemory,
    }
}

/// The document that the source's bytes spell.
fn read_doc<R: Source>(alloc: Global, from: &mut R) -> Result<Doc, TopFault>
    ensures read { IsRead spelled (R.rest from.old) (R.rest from.new) result }
    ensures cause { HasFaultCause (is_read_fault (fault_of result)) (R.faults from.old) (R.faults from.new) }
{
    let bytes = match read_all(alloc, from, INPUT_BYTES_MAX) {
        Ok(bytes) => bytes,
        Err(end) => return Err(of_read(end)),
    };
    match read_input(alloc, &bytes) {
        Ok(doc) => Ok(doc),
        Err(end) => Err(of_input(end)),
    }
}

/// The script that the source's bytes spell.
fn read_calls<R: Source>(alloc: Global, from: &mut R) -> Result<Script, TopFault>
    ensures read { IsRead spelled_script (R.rest from.old) (R.rest from.new) result }
    ensures few { IfOk result (λ script. length script.sessions ≤ SESSIONS_MAX) }
    ensures cause { HasFaultCause (is_read_fault (fault_of result)) (R.faults from.old) (R.faults from.new) }
{
    let bytes = match read_all(alloc, from, INPUT_BYTES_MAX) {
        Ok(bytes) => bytes,
        Err(end) => return Err(of_read(end)),
    };
    match read_script(alloc, &bytes) {
        Ok(script) => Ok(script),
        Err(fault) => Err(of_script(fault)),
    }
}

/// Reads a document and writes its canonical text.
#[tactic(auto, using(crate::proofs::Answers::answer_laws))]
fn run_pyx<R: Source, W: Sink>(alloc: Global, from: &mut R, to: &mut W) -> Option<TopFault>
    ensures read_fault { HasFaultCause (is_read_fault result) (R.faults from.old) (R.faults from.new) }
    ensures write_fault { HasFaultCause (is_write_fault result) (W.faults to.old) (W.faults to.new) }
    ensures answer { IsAnswered spelled IsCanonical LacksForDocument (R.rest from.old) (R.rest from.new) (W.written to.old) (W.written to.new) result }
{
    let doc = match read_doc(alloc, from) {
        Ok(doc) => doc,
        Err(fault) => return Some(fault),
    };
    match write_doc(&doc, to) {
        Ok(()) => None,
        Err(_) => Some(TopFault::WriteFault),
    }
}

/// How `play` ended.
#[derive(Drop)]
struct PlayEnd {
    fault: Option<TopFault>,
    journal: Journal,
}

/// Writes a journal's text.
fn write_events<W: Sink>(journal: &Journal, to: &mut W) -> Option<TopFault>
    ensures done { result ≡ None → W.written to.new ≡ append_known (W.written to.old) (text journal.now) }
    ensures fault { (result ≡ None) ⊎ (result ≡ Some TopFault.WriteFault) }
    ensures prefix { AppendedPrefix (text journal.now) (W.written to.old) (W.written to.new) }
    ensures cause { HasFaultCause (is_write_fault result) (W.faults to.old) (W.faults to.new) }
{
    if write_journal(journal, to).is_err() {
        return Some(TopFault::WriteFault);
    }
    None
}

/// Reads a script, plays it, and writes the journal.
fn run_play<R: Source, W: Sink>(alloc: Global, from: &mut R, to: &mut W) -> PlayEnd
    ensures read_fault { HasFaultCause (is_read_fault result.fault) (R.faults from.old) (R.faults from.new) }
    ensures write_fault { HasFaultCause (is_write_fault result.fault) (W.faults to.old) (W.faults to.new) }
    ensures answer { IsAnswered spelled_script (IsPlayedText result.journal) (LacksForPlay result.journal) (R.rest from.old) (R.rest from.new) (W.written to.old) (W.written to.new) result.fault }
    ensures journal { HasJournal result.fault result.journal }
    ensures so_far { SoFar start result.journal }
{
    let script = match read_calls(alloc, from) {
        Ok(script) => script,
        Err(fault) => {
            return PlayEnd {
                fault: Some(fault),
                journal: Sequence::new(alloc),
            };
        }
    };
    let Played { journal, is_whole } = play(alloc, &script);
    let fault = if is_whole {
        write_events(&journal, to)
    } else {
        Some(TopFault::NoMemory)
    };
    PlayEnd { fault, journal }
}

/// Does what the words say, over this source and this sink. The order of refusals is: words, reading, input, the
/// work, writing. Nothing is written with a status other than 0, but with 5 a prefix. The journal of `play` is whole with
/// 0 and 5, and with 6 it is empty or has the first of the calls.
pub fn tool<R: Source, W: Sink>(alloc: Global, words: &[String], from: &mut R, to: &mut W) -> TopEnd
    ensures status { result.status ≡ spec.status_of result.fault }
    // BadWords exactly where the words are no command, ReadFault and WriteFault exactly where source and sink failed.
    ensures words { (result.fault ≡ Some TopFault.BadWords) ↔ (command_by (words_of words.now) ≡ None) }
    ensures read_fault { HasFaultCause (is_read_fault result.fault) (R.faults from.old) (R.faults from.new) }
    ensures write_fault { HasFaultCause (is_write_fault result.fault) (W.faults to.old) (W.faults to.new) }
    // What was taken, what it spells, what was written, and what the journal is: of the whole script, or of a part of it.
    ensures answer { DoesCommand (command_by (words_of words.now)) (R.rest from.old) (R.rest from.new) (W.written to.old) (W.written to.new) result.fault result.journal }
{
    match command_of(words) {
        None => end_of(alloc, Some(TopFault::BadWords)),
        Some(Command::Pyx) => {
            let fault = run_pyx(alloc, from, to);
            end_of(alloc, fault)
        }
        Some(Command::Play) => {
            let PlayEnd { fault, journal } = run_play(alloc, from, to);
            ended(fault, journal)
        }
    }
}
