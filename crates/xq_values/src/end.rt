//! How a call that takes memory ends without its answer.
use std::alloc::AllocError;
use xq_ast::NoMemory;

/// A code of the language, or want of memory.
#[derive(Clone, Copy, Debug, PartialEq, Eq, Drop)]
pub enum ValueEnd {
    Code(xq_ast::Code),
    NoMemory,
}

impl From<NoMemory> for ValueEnd {
    ghost use Rattle.std.specs.Prelude.{◌≡◌};
    ghost use Rattle.xq_values.specs.declared.end.ValueEnd.TheVariants.{NoMemory};

    ghost from_gives = { λ _ e. e ≡ NoMemory };

    fn from(_: NoMemory) -> ValueEnd {
        ValueEnd::NoMemory
    }
}

impl From<AllocError> for ValueEnd {
    ghost use Rattle.std.specs.Prelude.{◌≡◌};
    ghost use Rattle.xq_values.specs.declared.end.ValueEnd.TheVariants.{NoMemory};

    ghost from_gives = { λ _ e. e ≡ NoMemory };

    fn from(_: AllocError) -> ValueEnd {
        ValueEnd::NoMemory
    }
}

impl From<xq_ast::Code> for ValueEnd {
    ghost use Rattle.std.specs.Prelude.{◌≡◌};
    ghost use Rattle.xq_values.specs.declared.end.ValueEnd.TheVariants.{Code};

    ghost from_gives = { λ c e. e ≡ Code c };

    fn from(code: xq_ast::Code) -> ValueEnd {
        ValueEnd::Code(code)
    }
}
