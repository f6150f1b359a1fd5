// Why a script is refused.
use thiserror::Error;
use xq_ast::NoMemory;

/// Why a script is refused.
#[derive(Clone, Copy, Debug, PartialEq, Eq)]
pub enum ScriptRefusal {
    /// A byte is no UTF-8.
    NotUtf8,
    /// The line stands where it may not, or is no order.
    BadScript,
    /// 64 sessions have begun already.
    TooManySessions,
    /// The sessions have 1,048,576 calls already.
    TooManyCalls,
    /// No line `.` ends the lines of a LOAD.
    LoadOpen,
}

/// The line of a script that is refused, counted from 1, and why.
#[derive(Clone, Copy, Debug, PartialEq, Eq)]
pub struct RefusedScript {
    pub line: u64,
    pub why: ScriptRefusal,
}

/// Why a text gave no script.
#[derive(Clone, Copy, Debug, PartialEq, Eq, Error)]
pub enum ScriptFault {
    /// The first refusal.
    #[error("{} {:?}", .0.line, .0.why)]
    Refused(RefusedScript),
    /// There was no memory.
    #[error("NoMemory")]
    NoMemory,
}

impl From<NoMemory> for ScriptFault {
    ghost use Rattle.std.specs.Prelude.{◌≡◌};
    ghost use Rattle.script_text.specs.declared.scripts.fault.ScriptFault.TheVariants.{NoMemory};

    ghost from_gives = { λ _ e. e ≡ NoMemory };

    fn from(_: NoMemory) -> ScriptFault {
        ScriptFault::NoMemory
    }
}

/// Why a line was not taken.
#[derive(Clone, Copy, Debug, PartialEq, Eq)]
pub(crate) enum Stop {
    Refused(ScriptRefusal),
    NoMemory,
}

impl From<NoMemory> for Stop {
    ghost use Rattle.std.specs.Prelude.{◌≡◌};
    ghost use Rattle.script_text.specs.declared.scripts.fault.Stop.TheVariants.{NoMemory};

    ghost from_gives = { λ _ e. e ≡ NoMemory };

    fn from(_: NoMemory) -> Stop {
        Stop::NoMemory
    }
}
