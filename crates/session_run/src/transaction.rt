//! Calls that begin and end a transaction.
ghost use Rattle.std.specs.Prelude.{◌≡◌, None, IsTrue, IfOk, OnOk, OnErr};
ghost use Rattle.session_core.specs.Keeping.Kept.{with_event, past};
ghost use Rattle.session_core.specs.History.Settling.{HasCommitLeft};
ghost use Rattle.session_core.specs.History.Transactions.{next_number};
ghost use Rattle.session_core.specs.History.States.{state as state_of, in_doubt, is_open};
ghost use Rattle.session_run.specs.Called.{AddsClosing};
ghost use Rattle.session_run.specs.Outcomes.{EndsWith};
ghost use Rattle.session_run.specs.Tied.{IsBetweenCalls, IsReady, StaysReady};
ghost use Rattle.session_core.specs.declared.history.event.Event.TheVariants as events;

use crate::answering::answer_unchanged;
use crate::outcome::Outcome;
use session_core::{BeginKind, Core, Says, State};
use xml_model::DocChanges;
use xq_ast::{Call, Code, NoMemory, SpentKind};

/// BEGIN: an updating transaction.
pub(crate) fn begin(core: &mut Core, session: u32) -> Result<Outcome, NoMemory>
    requires idle { state_of session (past core.old) ≡ State.Idle }
    requires between { IsBetweenCalls session (past core.old) }
    requires settled { in_doubt (past core.old) ≡ None }
    ensures closed { OnOk result (AddsClosing session Call.Begin core.old core.new) }
    ensures ready { OnOk result (StaysReady session core.old core.new) }
    ensures outcome { IfOk result (λ outcome. EndsWith outcome core.new) }
    ensures err { OnErr result (core.new ≡ core.old) }
{
    match core.begin_update(session) {
        Ok(()) => Ok(Outcome::Began(BeginKind::Updating)),
        Err(_) => answer_unchanged(core, session, Call::Begin, Says::Error(Code::NoMemory)),
    }
}

/// BEGIN READ-ONLY.
pub(crate) fn begin_read(core: &mut Core, session: u32) -> Result<Outcome, NoMemory>
    requires idle { state_of session (past core.old) ≡ State.Idle }
    requires between { IsBetweenCalls session (past core.old) }
    requires settled { in_doubt (past core.old) ≡ None }
    ensures closed { OnOk result (AddsClosing session Call.BeginRead core.old core.new) }
    ensures ready { OnOk result (StaysReady session core.old core.new) }
    ensures outcome { IfOk result (λ outcome. EndsWith outcome core.new) }
    ensures err { OnErr result (core.new ≡ core.old) }
{
    match core.begin_read(session) {
        Ok(number) => Ok(Outcome::Began(BeginKind::Reading(number))),
        Err(_) => answer_unchanged(core, session, Call::BeginRead, Says::Error(Code::NoMemory)),
    }
}

// Commits the newest documents with the changes laid over them.
fn commit_changes(core: &mut Core, session: u32, changes: &DocChanges) -> Result<Outcome, NoMemory>
    requires ready { IsReady session changes.now.changes core.old }
    requires updating { state_of session (past core.old) ≡ State.Updating }
    requires left { HasCommitLeft core.old.base.numbers (past core.old) }
    ensures ok { OnOk result (core.new ≡ with_event (events.Committed session (next_number core.old.base.numbers (past core.old))) core.old) }
    ensures outcome { IfOk result (λ outcome. EndsWith outcome core.new) }
    ensures err { OnErr result (core.new ≡ core.old) }
{
    let docs = core.forest(session).with_changes(changes)?;
    let number = core.commit(session, docs)?;
    Ok(Outcome::Committed(number))
}

fn commit(core: &mut Core, session: u32, changes: &mut DocChanges) -> Result<Outcome, NoMemory>
    requires ready { IsReady session changes.old.changes core.old }
    requires updating { state_of session (past core.old) ≡ State.Updating }
    ensures closed { OnOk result (AddsClosing session Call.Commit core.old core.new) }
    ensures ready { OnOk result (IsReady session changes.new.changes core.new) }
    ensures outcome { IfOk result (λ outcome. EndsWith outcome core.new) }
    ensures err { OnErr result (core.new ≡ core.old) }
    ensures same { OnErr result (changes.new.changes ≡ changes.old.changes) }
{
    if core.newest() == u64::MAX {
        let spent = Code::Spent {
            kind: SpentKind::Commit,
            number: u64::MAX,
        };
        return answer_unchanged(core, session, Call::Commit, Says::Error(spent));
    }
    match commit_changes(core, session, changes) {
        Ok(outcome) => {
            changes.clear();
            Ok(outcome)
        }
        Err(_) => answer_unchanged(core, session, Call::Commit, Says::Error(Code::NoMemory)),
    }
}

/// Ends the transaction by COMMIT.
pub(crate) fn finish(
    core: &mut Core,
    session: u32,
    changes: &mut DocChanges,
) -> Result<Outcome, NoMemory>
    requires ready { IsReady session changes.old.changes core.old }
    requires inside { IsTrue (is_open (state_of session (past core.old))) }
    ensures closed { OnOk result (AddsClosing session Call.Commit core.old core.new) }
    ensures ready { OnOk result (IsReady session changes.new.changes core.new) }
    ensures outcome { IfOk result (λ outcome. EndsWith outcome core.new) }
    ensures err { OnErr result (core.new ≡ core.old) }
    ensures same { OnErr result (changes.new.changes ≡ changes.old.changes) }
{
    if core.state(session) == State::Updating {
        return commit(core, session, changes);
    }
    core.end_read(session);
    Ok(Outcome::Ended)
}
