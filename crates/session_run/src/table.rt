//! The table of states and calls.
ghost use Rattle.std.specs.Prelude.{◌≡◌};
ghost use Rattle.session_core.specs.History.Refusals.{refused_in, work_of};

use session_core::State;
use xq_ast::{Call, Code};

fn refusal_in_idle(call: &Call) -> Option<Code>
    ensures { result ≡ refused_in State.Idle (work_of call.now) }
{
    match call {
        Call::Begin | Call::BeginRead | Call::Checkpoint => None,
        Call::Commit
        | Call::Rollback
        | Call::ShowDocuments
        | Call::Create { .. }
        | Call::Drop { .. }
        | Call::Load { .. }
        | Call::Export { .. }
        | Call::Update { .. }
        | Call::Query { .. } => Some(Code::NoTransaction),
    }
}

fn refusal_in_updating(call: &Call) -> Option<Code>
    ensures { result ≡ refused_in State.Updating (work_of call.now) }
{
    match call {
        Call::Begin | Call::BeginRead | Call::Checkpoint => Some(Code::InTransaction),
        Call::ShowDocuments => Some(Code::Updating),
        Call::Commit
        | Call::Rollback
        | Call::Create { .. }
        | Call::Drop { .. }
        | Call::Load { .. }
        | Call::Export { .. }
        | Call::Update { .. }
        | Call::Query { .. } => None,
    }
}

fn refusal_in_reading(call: &Call, number: u64) -> Option<Code>
    ensures { result ≡ refused_in (State.Reading number) (work_of call.now) }
{
    match call {
        Call::Begin | Call::BeginRead | Call::Checkpoint => Some(Code::InTransaction),
        Call::Create { .. } | Call::Drop { .. } | Call::Load { .. } | Call::Update { .. } => {
            Some(Code::ReadOnly)
        }
        Call::Commit
        | Call::Rollback
        | Call::ShowDocuments
        | Call::Export { .. }
        | Call::Query { .. } => None,
    }
}

/// Why the state refuses the call, if it does. Takes no memory.
pub(crate) fn refusal(state: State, call: &Call) -> Option<Code>
    ensures { result ≡ refused_in state (work_of call.now) }
{
    match state {
        State::Idle => refusal_in_idle(call),
        State::Updating => refusal_in_updating(call),
        State::Reading(number) => refusal_in_reading(call, number),
        State::InDoubt => None,
    }
}
