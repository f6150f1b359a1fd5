//! Why a reader does not take a line.
ghost use Rattle.std.specs.Prelude.{◌≡◌};

use thiserror::Error;
use xml_model::RefusedLine;

/// Why a reader did not take a line, or has no document.
#[derive(Clone, Copy, Debug, PartialEq, Eq, Error)]
pub enum PyxFault {
    /// The lines spell no document: the first refusal, and the number of its line.
    #[error("{} {:?}", .0.line, .0.why)]
    Refused(RefusedLine),
    /// There was no memory. The line counts as not given.
    #[error("NoMemory")]
    NoMemory,
}

impl From<xq_ast::NoMemory> for PyxFault {
    ghost use Rattle.std.specs.Prelude.{◌≡◌};
    ghost use Rattle.pyx_text.specs.declared.fault.PyxFault.TheVariants.{NoMemory};

    ghost from_gives = { λ _ e. e ≡ NoMemory };

    fn from(_: xq_ast::NoMemory) -> PyxFault {
        PyxFault::NoMemory
    }
}

impl From<std::alloc::AllocError> for PyxFault {
    ghost use Rattle.std.specs.Prelude.{◌≡◌};
    ghost use Rattle.pyx_text.specs.declared.fault.PyxFault.TheVariants.{NoMemory};

    ghost from_gives = { λ _ e. e ≡ NoMemory };

    fn from(_: std::alloc::AllocError) -> PyxFault {
        PyxFault::NoMemory
    }
}
