// Scripts, read from their bytes.
ghost use Rattle.std.specs.Prelude.{◌≡◌, ◌≤◌, Result, IfOk, length};
ghost use Rattle.script_text.specs.declared.limits.TheConstants.{SESSIONS_MAX};
ghost use Rattle.xml_model.specs.Pyx.{split_lines};
ghost use Rattle.script_text.specs.Scripts as spec;
ghost use Rattle.script_text.specs.ScriptEnds.{Gives};

use crate::scripts::fault::ScriptFault;
use crate::scripts::kinds::{count_sessions, first_line};
use crate::scripts::reading::{Reading, end_session, nothing_read, take_line};
use crate::scripts::session_calls::Script;
use std::alloc::Global;

fn read_lines(alloc: Global, sessions: u64, bytes: &[u8]) -> Result<Reading, ScriptFault>
    ensures { Gives result (spec.after sessions (split_lines bytes.now) spec.start) }
{
    let mut reading = nothing_read(alloc);
    let mut rest = bytes;
    while let Some(first) = first_line(rest) {
        take_line(alloc, &mut reading, sessions, first.line, first.rest)?;
        rest = first.rest;
    }
    Ok(reading)
}

fn read_bytes(alloc: Global, bytes: &[u8]) -> Result<Script, ScriptFault>
    ensures { Gives result (spec.script (split_lines bytes.now)) }
{
    let mut reading = read_lines(alloc, count_sessions(bytes), bytes)?;
    end_session(alloc, &mut reading)?;
    Ok(Script {
        sessions: reading.ended,
        order: reading.order,
    })
}

/// The script that the bytes spell, or the first refusal. It has 64 sessions at most.
pub fn read_script(alloc: Global, bytes: &[u8]) -> Result<Script, ScriptFault>
    ensures script { Gives result (spec.script (split_lines bytes.now)) }
    ensures few { IfOk result (λ script. length script.sessions ≤ SESSIONS_MAX) }
{
    match read_bytes(alloc, bytes) {
        Ok(script) => Ok(script),
        Err(fault) => Err(fault),
    }
}
