//! A call, by its text and its session's state.
ghost use Rattle.std.specs.Prelude.{◌≡◌, ◌≢◌, None, IsTrue, IfOk, OnOk, OnErr};
ghost use Rattle.xq_ast.specs.GoodNames.{has_good_names};
ghost use Rattle.session_core.specs.Keeping.Kept.{past};
ghost use Rattle.session_core.specs.History.Refusals.{refused_in, work_of};
ghost use Rattle.session_core.specs.declared.history.event.State.TheVariants as states;
ghost use Rattle.session_core.specs.History.States.{state as state_of};
ghost use Rattle.session_run.specs.Called.{ClosesRead, IsCalled, IsUnclosed, LeavesRead};
ghost use Rattle.session_run.specs.Outcomes.{EndsWith};
ghost use Rattle.session_run.specs.Tied.{IsReady};

use crate::answering::{answer, answer_unchanged};
use crate::locking::close_by_transaction;
use crate::outcome::Outcome;
use crate::table::refusal;
use crate::transaction::{begin, begin_read, finish};
use session_core::{Core, Says};
use std::alloc::Global;
use xml_model::DocChanges;
use xq_ast::{Call, CallText, NoMemory};
use xq_parse::parse_call;

// Closes a call that the state lets pass, by what it begins, ends or runs.
fn close_by_kind(
    alloc: Global,
    core: &mut Core,
    session: u32,
    changes: &mut DocChanges,
    call: Call,
) -> Result<Outcome, NoMemory>
    requires ready { IsReady session changes.old.changes core.old }
    requires named { IsTrue (has_good_names call) }
    requires certain { state_of session (past core.old) ≢ states.InDoubt }
    requires passes { refused_in (state_of session (past core.old)) (work_of call) ≡ None }
    ensures closed { OnOk result (ClosesRead session call core.old core.new) }
    ensures ready { OnOk result (IsReady session changes.new.changes core.new) }
    ensures outcome { IfOk result (λ outcome. EndsWith outcome core.new) }
    ensures err { OnErr result (LeavesRead session call core.old core.new) }
    ensures same { OnErr result (changes.new.changes ≡ changes.old.changes) }
{
    match call {
        Call::Begin => begin(core, session),
        Call::BeginRead => begin_read(core, session),
        Call::Commit => finish(core, session, changes),
        Call::Rollback => {
            core.roll_back(session);
            changes.clear();
            Ok(Outcome::RolledBack)
        }
        Call::Checkpoint => answer_unchanged(core, session, Call::Checkpoint, Says::Done),
        statement => close_by_transaction(alloc, core, session, changes, statement),
    }
}

/// Closes a call by the session's state, which refuses it or lets it pass.
pub(crate) fn close_by_state(
    alloc: Global,
    core: &mut Core,
    session: u32,
    changes: &mut DocChanges,
    call: Call,
) -> Result<Outcome, NoMemory>
    requires ready { IsReady session changes.old.changes core.old }
    requires named { IsTrue (has_good_names call) }
    requires certain { state_of session (past core.old) ≢ states.InDoubt }
    ensures closed { OnOk result (ClosesRead session call core.old core.new) }
    ensures ready { OnOk result (IsReady session changes.new.changes core.new) }
    ensures outcome { IfOk result (λ outcome. EndsWith outcome core.new) }
    ensures err { OnErr result (LeavesRead session call core.old core.new) }
    ensures same { OnErr result (changes.new.changes ≡ changes.old.changes) }
{
    if let Some(code) = refusal(core.state(session), &call) {
        return answer_unchanged(core, session, call, Says::Error(code));
    }
    close_by_kind(alloc, core, session, changes, call)
}

/// Closes a call by its text, which is a call or is refused.
pub(crate) fn close_by_text(
    alloc: Global,
    core: &mut Core,
    session: u32,
    changes: &mut DocChanges,
    text: &CallText,
) -> Result<Outcome, NoMemory>
    requires ready { IsReady session changes.old.changes core.old }
    ensures closed { OnOk result (IsCalled session text.now core.old core.new) }
    ensures ready { OnOk result (IsReady session changes.new.changes core.new) }
    ensures outcome { IfOk result (λ outcome. EndsWith outcome core.new) }
    ensures err { OnErr result (IsUnclosed session text.now core.old core.new) }
    ensures same { OnErr result (changes.new.changes ≡ changes.old.changes) }
{
    // Hands out that the journal is legal: where no commit is in doubt, this session is not.
    core.legal();
    match parse_call(alloc, text) {
        Ok(call) => close_by_state(alloc, core, session, changes, call),
        Err(end) => answer(core, session, None, Says::Error(end.code())),
    }
}
