//! How a call was closed.
ghost use Rattle.std.specs.Prelude.{◌≡◌, Some, IsTrue};
ghost use Rattle.session_run.specs.Outcomes as spec;

use session_core::{BeginKind, Says};
use xq_ast::{Code, Str};

/// How a call was closed: what its closing event says. An answer's lines stand in the journal alone.
#[derive(Debug, Drop)]
pub enum Outcome {
    Done,
    /// Lines, which the journal's last event holds.
    Lines,
    Error(Code),
    Began(BeginKind),
    /// A document's name and the session that holds a lock on it.
    LockHeld(Str, u32),
    /// The commit's number.
    Committed(u64),
    /// A read-only transaction has ended by COMMIT.
    Ended,
    RolledBack,
}

/// What an answer says, without its lines. Takes no memory.
pub(crate) fn outcome_of(says: &Says) -> Outcome
    requires { IsTrue (spec.is_answer says.now) }
    ensures { spec.answer_outcome says.now ≡ Some result }
{
    match says {
        Says::Done => Outcome::Done,
        Says::Lines(_) => Outcome::Lines,
        Says::Error(code) => Outcome::Error(*code),
        Says::Began(_)
        | Says::LockHeld(..)
        | Says::Committed(_)
        | Says::Ended
        | Says::RolledBack
        | Says::Doubt(_) => unreachable!(),
    }
}
