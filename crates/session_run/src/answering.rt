//! Answers.
ghost use Rattle.std.specs.Prelude.{◌≡◌, [], Some, None, IfOk, OnOk, OnErr};
ghost use Rattle.session_run.specs.Calls.{IsAnswerInMemory};
ghost use Rattle.session_core.specs.Keeping.Kept.{with_event, past, Follows};
ghost use Rattle.session_core.specs.History.States.{in_doubt};
ghost use Rattle.session_core.specs.History.Transactions.{ran_by};
ghost use Rattle.session_run.specs.Answers.{answered};
ghost use Rattle.session_run.specs.Called.{AddsClosing};
ghost use Rattle.session_run.specs.Outcomes.{EndsWith};
ghost use Rattle.session_run.specs.Tied.{StaysReady};

use crate::outcome::{Outcome, outcome_of};
use session_core::{Core, Reply, Says};
use xq_ast::{Call, NoMemory};

/// Adds a right answer.
pub(crate) fn answer(
    core: &mut Core,
    session: u32,
    call: Option<Call>,
    says: Says,
) -> Result<Outcome, NoMemory>
    requires right { IsAnswerInMemory core.old.base session (past core.old) call says }
    requires follows { Follows (answered session call says) (past core.old) }
    ensures ok { OnOk result (core.new ≡ with_event (answered session call says) core.old) }
    ensures outcome { IfOk result (λ outcome. EndsWith outcome core.new) }
    ensures err { OnErr result (core.new ≡ core.old) }
{
    // Hands out that the journal is legal before the answer: a right one keeps it so, as `post` asks.
    core.legal();
    let outcome = outcome_of(&says);
    core.post(session, Reply { call, says })?;
    Ok(outcome)
}

/// Answers a call that changes nothing.
pub(crate) fn answer_unchanged(
    core: &mut Core,
    session: u32,
    call: Call,
    says: Says,
) -> Result<Outcome, NoMemory>
    requires right { IsAnswerInMemory core.old.base session (past core.old) (Some call) says }
    requires follows { Follows (answered session (Some call) says) (past core.old) }
    requires unchanged { ran_by (Some call) says ≡ [] }
    requires settled { in_doubt (past core.old) ≡ None }
    ensures closed { OnOk result (AddsClosing session call core.old core.new) }
    ensures ready { OnOk result (StaysReady session core.old core.new) }
    ensures outcome { IfOk result (λ outcome. EndsWith outcome core.new) }
    ensures err { OnErr result (core.new ≡ core.old) }
{
    answer(core, session, Some(call), says)
}
