//! Statements in a transaction: their locks, their answers and their changes.
ghost use Rattle.std.specs.Prelude.{◌≡◌, Some, None, IsTrue, IfOk, OnOk, OnErr};
ghost use Rattle.xml_model.specs.Needs.{needs as needs_of};
ghost use Rattle.xml_model.specs.Statement.{is_statement};
ghost use Rattle.session_core.specs.History.Locks.{AreGranted};
ghost use Rattle.session_core.specs.Keeping.Kept.{past, Follows};
ghost use Rattle.session_core.specs.declared.history.event.Says.{Says};
ghost use Rattle.session_run.specs.Answers.{answered};
ghost use Rattle.session_core.specs.History.Refusals.{refused_in, work_of};
ghost use Rattle.session_core.specs.History.States.{state as state_of, in_doubt, is_open, is_reading};
ghost use Rattle.session_core.specs.History.Transactions.{newest};
ghost use Rattle.session_run.specs.Called.{AddsClosing, ClosesRead, LeavesRead};
ghost use Rattle.session_run.specs.Outcomes.{EndsWith};
ghost use Rattle.session_run.specs.Calls.{HasPlainLines};
ghost use Rattle.session_run.specs.Effects.{AreValidChanges, IsEffect};
ghost use Rattle.xq_ast.specs.GoodNames.{has_good_names};
ghost use Rattle.session_run.specs.Tied.{IsTied, IsReady};

use crate::answering::{answer, answer_unchanged};
use crate::changes::put_all;
use crate::outcome::Outcome;
use crate::statement::{Effect, effect_of};
use doc_locks::AskEnd;
use session_core::{Core, Says, State};
use std::alloc::Global;
use xml_model::{DocChanges, needs};
use xq_ast::{Call, Code, NoMemory};

fn read(
    alloc: Global,
    core: &mut Core,
    session: u32,
    changes: &DocChanges,
    call: Call,
) -> Result<Outcome, NoMemory>
    requires ready { IsReady session changes.now.changes core.old }
    requires reading { IsTrue (is_reading (state_of session (past core.old))) }
    requires statement { IsTrue (is_statement call) }
    requires named { IsTrue (has_good_names call) }
    requires passes { refused_in (state_of session (past core.old)) (work_of call) ≡ None }
    ensures closed { OnOk result (AddsClosing session call core.old core.new) }
    ensures ready { OnOk result (IsReady session changes.now.changes core.new) }
    ensures outcome { IfOk result (λ outcome. EndsWith outcome core.new) }
    ensures err { OnErr result (core.new ≡ core.old) }
{
    match effect_of(alloc, core.forest(session), changes, &call) {
        Ok(effect) => answer(core, session, Some(call), effect.says),
        Err(_) => answer_unchanged(core, session, call, Says::Error(Code::NoMemory)),
    }
}

// Answers a statement, and keeps its changes.
fn keep(
    core: &mut Core,
    session: u32,
    changes: &mut DocChanges,
    call: Call,
    effect: Effect,
) -> Result<Outcome, NoMemory>
    requires effect { IsEffect call changes.old.changes (newest core.old.base (past core.old)) effect }
    requires plain { HasPlainLines effect.says }
    requires valid { AreValidChanges effect.changes }
    requires tied { IsTied core.old.base session changes.old.changes (past core.old) }
    requires settled { in_doubt (past core.old) ≡ None }
    requires updating { state_of session (past core.old) ≡ State.Updating }
    requires granted { AreGranted session (needs_of call) (past core.old) }
    requires follows { (says : Says) → Follows (answered session (Some call) says) (past core.old) }
    requires statement { IsTrue (is_statement call) }
    requires passes { refused_in State.Updating (work_of call) ≡ None }
    ensures closed { OnOk result (AddsClosing session call core.old core.new) }
    ensures ready { OnOk result (IsReady session changes.new.changes core.new) }
    ensures outcome { IfOk result (λ outcome. EndsWith outcome core.new) }
    ensures err { OnErr result (core.new ≡ core.old) }
    ensures same { OnErr result (changes.new.changes ≡ changes.old.changes) }
{
    let Effect {
        says,
        changes: more,
    } = effect;
    if changes.reserve(more.len()).is_err() {
        return answer_unchanged(core, session, call, Says::Error(Code::NoMemory));
    }
    let outcome = answer(core, session, Some(call), says)?;
    put_all(changes, more);
    Ok(outcome)
}

// Closes a statement whose locks were granted, or that needs none, by the documents that it sees.
fn close_by_documents(
    alloc: Global,
    core: &mut Core,
    session: u32,
    changes: &mut DocChanges,
    call: Call,
) -> Result<Outcome, NoMemory>
    requires tied { IsTied core.old.base session changes.old.changes (past core.old) }
    requires settled { in_doubt (past core.old) ≡ None }
    requires updating { state_of session (past core.old) ≡ State.Updating }
    requires granted { AreGranted session (needs_of call) (past core.old) }
    requires follows { (says : Says) → Follows (answered session (Some call) says) (past core.old) }
    requires statement { IsTrue (is_statement call) }
    requires named { IsTrue (has_good_names call) }
    requires passes { refused_in State.Updating (work_of call) ≡ None }
    ensures closed { OnOk result (AddsClosing session call core.old core.new) }
    ensures ready { OnOk result (IsReady session changes.new.changes core.new) }
    ensures outcome { IfOk result (λ outcome. EndsWith outcome core.new) }
    ensures err { OnErr result (core.new ≡ core.old) }
    ensures same { OnErr result (changes.new.changes ≡ changes.old.changes) }
{
    match effect_of(alloc, core.forest(session), changes, &call) {
        Ok(effect) => keep(core, session, changes, call, effect),
        Err(_) => answer_unchanged(core, session, call, Says::Error(Code::NoMemory)),
    }
}

// Asks for the locks of a statement, if it needs some, and runs it where they are granted.
fn update(
    alloc: Global,
    core: &mut Core,
    session: u32,
    changes: &mut DocChanges,
    call: Call,
) -> Result<Outcome, NoMemory>
    requires ready { IsReady session changes.old.changes core.old }
    requires updating { state_of session (past core.old) ≡ State.Updating }
    requires statement { IsTrue (is_statement call) }
    requires named { IsTrue (has_good_names call) }
    requires passes { refused_in State.Updating (work_of call) ≡ None }
    ensures closed { OnOk result (ClosesRead session call core.old core.new) }
    ensures ready { OnOk result (IsReady session changes.new.changes core.new) }
    ensures outcome { IfOk result (λ outcome. EndsWith outcome core.new) }
    ensures err { OnErr result (LeavesRead session call core.old core.new) }
    ensures same { OnErr result (changes.new.changes ≡ changes.old.changes) }
{
    let Ok(needed) = needs(alloc, &call) else {
        return answer_unchanged(core, session, call, Says::Error(Code::NoMemory));
    };
    if needed.is_empty() {
        return close_by_documents(alloc, core, session, changes, call);
    }
    match core.ask(session, &needed) {
        Ok(()) => close_by_documents(alloc, core, session, changes, call),
        Err(AskEnd::Held { name, holder }) => Ok(Outcome::LockHeld(name, holder)),
        Err(AskEnd::NoMemory) => {
            answer_unchanged(core, session, call, Says::Error(Code::NoMemory))
        }
    }
}

/// Closes a statement that the state lets pass, by the kind of its transaction.
pub(crate) fn close_by_transaction(
    alloc: Global,
    core: &mut Core,
    session: u32,
    changes: &mut DocChanges,
    call: Call,
) -> Result<Outcome, NoMemory>
    requires ready { IsReady session changes.old.changes core.old }
    requires inside { IsTrue (is_open (state_of session (past core.old))) }
    requires statement { IsTrue (is_statement call) }
    requires named { IsTrue (has_good_names call) }
    requires passes { refused_in (state_of session (past core.old)) (work_of call) ≡ None }
    ensures closed { OnOk result (ClosesRead session call core.old core.new) }
    ensures ready { OnOk result (IsReady session changes.new.changes core.new) }
    ensures outcome { IfOk result (λ outcome. EndsWith outcome core.new) }
    ensures err { OnErr result (LeavesRead session call core.old core.new) }
    ensures same { OnErr result (changes.new.changes ≡ changes.old.changes) }
{
    if core.state(session) == State::Updating {
        update(alloc, core, session, changes, call)
    } else {
        read(alloc, core, session, changes, call)
    }
}
