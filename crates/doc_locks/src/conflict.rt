//! When two locks conflict, and which of two modes is the stronger.
ghost use Rattle.std.specs.Prelude.{◌≡◌};
ghost use Rattle.xq_ast.specs.Modes.{conflicts, stronger};

use xq_ast::LockMode;

/// Whether a lock that another session holds on a name, if it does, conflicts with one in this mode.
pub fn is_conflict(held: Option<LockMode>, mode: LockMode) -> bool
    ensures { result ≡ conflicts held mode }
{
    match held {
        None => false,
        Some(LockMode::X) => true,
        Some(LockMode::S) => mode == LockMode::X,
    }
}

/// The stronger of the mode that is held, if any, and one that is granted.
pub fn stronger_mode(held: Option<LockMode>, mode: LockMode) -> LockMode
    ensures { result ≡ stronger mode held }
{
    match held {
        Some(LockMode::X) => LockMode::X,
        Some(LockMode::S) => mode,
        None => mode,
    }
}
