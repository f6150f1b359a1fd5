//! Scripts that are played on one thread over documents in memory.
ghost use Rattle.std.specs.Prelude.{◌≡◌, ◌<◌, ◌+◌, ◌∷◌, ◌++◌, ◌^◌, [], length, replicate, slice_get, Some, IsTrue, IfOk, OnOk, OnErr};
ghost use Rattle.session_core.specs.Keeping.Kept.{past};
ghost use Rattle.xdb_top.specs.Played.{start, IsPlayed, IsWholePlay, IsPartPlay};
ghost use Rattle.xdb_top.specs.Playing.{IsSeated, IsPlaying, HasPlayed, HasHadTurn, HasBrokenOff, AreNewSeats, start_kept, IsPlayedWhole};
ghost use Rattle.xdb_top.specs.Turns.{IsAtRest, one_by_one};

use crate::typed::typed;
use script_text::{CallTextListList, Script};
use session_core::{Core, Journal};
use session_run::Session;
use std::alloc::Global;
use xml_model::DocMap;
use xq_ast::{NoMemory, Sequence};

/// A session with the number of calls that it has made.
#[derive(Drop)]
pub(crate) struct Seat {
    pub session: Session,
    pub made: usize,
}

/// How scripts were played.
#[derive(Drop)]
pub(crate) struct Played {
    pub journal: Journal,
    /// Whether all calls were made. If not, there was no memory to close one.
    pub is_whole: bool,
}

/// The session makes its next call, if it has one left. Its end comes directly after its last call.
fn play_seat(
    core: &mut Core,
    seat: &mut Seat,
    sessions: &CallTextListList,
    index: usize,
) -> Result<(), NoMemory>
    requires index { index < length sessions.now }
    requires played { IsPlayed core.old.base sessions.now (past core.old) }
    requires at_rest { IsAtRest (past core.old) }
    requires seated { IsSeated (index + 1) seat.old core.old }
    ensures turn { OnOk result (HasHadTurn sessions.now (index + 1) core.old core.new seat.new) }
    ensures off { OnErr result (HasBrokenOff sessions.now ((index + 1) ∷ []) core.old core.new) }
    ensures base { core.new.base ≡ core.old.base }
{
    let calls = &sessions.as_slice()[index];
    let Some(call) = calls.as_slice().get(seat.made) else {
        return Ok(());
    };
    seat.session.call_on(core, call)?;
    seat.made += 1;
    if seat.made == calls.len() {
        seat.session.leave_on(core);
    }
    Ok(())
}

/// The session with this number, from 1, has its turn; a number without a session is passed over.
fn play_turn(
    core: &mut Core,
    seats: &mut [Seat],
    sessions: &CallTextListList,
    number: u64,
) -> Result<(), NoMemory>
    requires { IsPlaying sessions.now core.old seats.old }
    ensures played { OnOk result (HasPlayed sessions.now (number ∷ []) core.old core.new seats.new) }
    ensures off { OnErr result (HasBrokenOff sessions.now (number ∷ []) core.old core.new) }
    ensures base { core.new.base ≡ start }
{
    if number == 0 || number > seats.len() as u64 {
        return Ok(());
    }
    let index = (number - 1) as usize;
    play_seat(core, &mut seats[index], sessions, index)
}

/// The sessions that an order names have their turns.
fn play_order(
    core: &mut Core,
    seats: &mut [Seat],
    sessions: &CallTextListList,
    order: &[u64],
) -> Result<(), NoMemory>
    requires { IsPlaying sessions.now core.old seats.old }
    ensures played { OnOk result (HasPlayed sessions.now order.now core.old core.new seats.new) }
    ensures off { OnErr result (HasBrokenOff sessions.now order.now core.old core.new) }
    ensures base { core.new.base ≡ start }
{
    for number in order {
        play_turn(core, seats, sessions, *number)?;
    }
    Ok(())
}

/// One session has so many turns.
fn play_turns(
    core: &mut Core,
    seats: &mut [Seat],
    sessions: &CallTextListList,
    number: u64,
    count: usize,
) -> Result<(), NoMemory>
    requires { IsPlaying sessions.now core.old seats.old }
    ensures played { OnOk result (HasPlayed sessions.now (replicate count number) core.old core.new seats.new) }
    ensures off { OnErr result (HasBrokenOff sessions.now (replicate count number) core.old core.new) }
    ensures base { core.new.base ≡ start }
{
    for _turn in 0..count {
        play_turn(core, seats, sessions, number)?;
    }
    Ok(())
}

/// Each session has as many turns as it has calls, one session after another.
fn play_rest(
    core: &mut Core,
    seats: &mut [Seat],
    sessions: &CallTextListList,
) -> Result<(), NoMemory>
    requires { IsPlaying sessions.now core.old seats.old }
    ensures played { OnOk result (HasPlayed sessions.now (one_by_one 1 sessions.now) core.old core.new seats.new) }
    ensures off { OnErr result (HasBrokenOff sessions.now (one_by_one 1 sessions.now) core.old core.new) }
    ensures base { core.new.base ≡ start }
{
    for index in 0..sessions.len() {
        let count = sessions.as_slice()[index].len();
        play_turns(core, seats, sessions, index as u64 + 1, count)?;
    }
    Ok(())
}

/// A seat for each of so many sessions, which have made no call.
fn seats_for(alloc: Global, count: u32) -> Result<Vec<Seat>, NoMemory>
    ensures { IfOk result (λ seats. AreNewSeats count seats.items) }
{
    let mut seats = Vec::new(alloc);
    for index in 0..count {
        seats.push(Seat {
            session: Session::of(alloc, index + 1),
            made: 0,
        })?;
    }
    Ok(seats)
}

/// The calls of a script are made: those of its order, and then those that are left.
fn play_all(core: &mut Core, seats: &mut [Seat], script: &Script) -> Result<(), NoMemory>
    requires { IsPlaying script.now.sessions core.old seats.old }
    ensures played { OnOk result (HasPlayed script.now.sessions (script.now.order ++ one_by_one 1 script.now.sessions) core.old core.new seats.new) }
    ensures off { OnErr result (HasBrokenOff script.now.sessions (script.now.order ++ one_by_one 1 script.now.sessions) core.old core.new) }
    ensures base { core.new.base ≡ start }
{
    play_order(core, seats, &script.sessions, script.order.as_slice())?;
    play_rest(core, seats, &script.sessions)?;
    Ok(())
}

/// The calls of a script are made over an empty journal.
fn play_on(alloc: Global, core: &mut Core, script: &Script) -> Result<(), NoMemory>
    requires few { length script.now.sessions < 2 ^ 32 }
    requires empty { core.old ≡ start_kept }
    ensures played { OnOk result (IsPlayedWhole script.now core.new) }
    ensures off { OnErr result (HasBrokenOff script.now.sessions (script.now.order ++ one_by_one 1 script.now.sessions) start_kept core.new) }
    ensures base { core.new.base ≡ start }
{
    let mut seats = seats_for(alloc, script.sessions.len() as u32)?;
    play_all(core, &mut seats, script)?;
    Ok(())
}

/// Plays a script over documents in memory, of which there are none at first. Whatever comes of it, the journal is of a
/// part of the script.
pub(crate) fn play(alloc: Global, script: &Script) -> Played
    requires { length script.now.sessions < 2 ^ 32 }
    ensures whole { IsTrue result.is_whole → IsWholePlay start script.now result.journal }
    ensures part { IsPartPlay start script.now result.journal }
{
    let Ok(mut core) = Core::new(alloc, 0, 1, DocMap::new(alloc)) else {
        return Played {
            journal: Sequence::new(alloc),
            is_whole: false,
        };
    };
    let is_whole = play_on(alloc, &mut core, script).is_ok();
    let journal = core.close();
    typed(&journal);
    Played { journal, is_whole }
}
