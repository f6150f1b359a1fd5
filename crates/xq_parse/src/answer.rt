//! Why a text is refused.
ghost use Rattle.std.specs.Prelude.{◌≡◌};
ghost use Rattle.xq_parse.specs.Answers.{code_of};

use std::alloc::AllocError;
use thiserror::Error;
use xq_ast::{Code, NoMemory};

/// Why a text is refused, in the order of the tests.
#[derive(Clone, Copy, Debug, PartialEq, Eq, Error)]
pub enum ParseEnd {
    /// The text has more than 65,536 bytes.
    #[error("TooLong")]
    TooLong,
    /// The text does not split into tokens, or no call has these tokens.
    #[error("XPST0003")]
    XPST0003,
    /// More than 64 brackets are open at once, or more than 64 words `return` and `else` stand.
    /// It is tested before whether a call has the tokens.
    #[error("NestedTooDeep")]
    NestedTooDeep,
    /// A document's name is empty, longer than 255 bytes or has a character below U+0020; or a
    /// name in a constructor or in `rename` is longer than 255 bytes.
    #[error("BadName")]
    BadName,
    /// No function has this name with this number of arguments.
    #[error("XPST0017")]
    XPST0017,
    /// A variable is not bound where it stands.
    #[error("XPST0008")]
    XPST0008,
    /// There was no memory.
    #[error("NoMemory")]
    NoMemory,
}

impl From<NoMemory> for ParseEnd {
    ghost use Rattle.std.specs.Prelude.{◌≡◌};
    ghost use Rattle.xq_parse.specs.declared.answer.ParseEnd.TheVariants.{NoMemory};

    ghost from_gives = { λ _ e. e ≡ NoMemory };

    fn from(_: NoMemory) -> ParseEnd {
        ParseEnd::NoMemory
    }
}

impl From<AllocError> for ParseEnd {
    ghost use Rattle.std.specs.Prelude.{◌≡◌};
    ghost use Rattle.xq_parse.specs.declared.answer.ParseEnd.TheVariants.{NoMemory};

    ghost from_gives = { λ _ e. e ≡ NoMemory };

    fn from(_: AllocError) -> ParseEnd {
        ParseEnd::NoMemory
    }
}

impl ParseEnd {
    /// The code that answers a call whose text is refused so.
    pub fn code(&self) -> Code
        ensures { result ≡ code_of self.now }
    {
        match self {
            ParseEnd::TooLong => Code::TooLong,
            ParseEnd::XPST0003 => Code::XPST0003,
            ParseEnd::NestedTooDeep => Code::NestedTooDeep,
            ParseEnd::BadName => Code::BadName,
            ParseEnd::XPST0017 => Code::XPST0017,
            ParseEnd::XPST0008 => Code::XPST0008,
            ParseEnd::NoMemory => Code::NoMemory,
        }
    }
}
