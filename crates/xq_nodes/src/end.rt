//! How evaluation ends without its answer.
use std::alloc::AllocError;
use xml_model::NavEnd;
use xq_ast::NoMemory;
use xq_values::ValueEnd;

/// A code of the language, a fault of the `Nav`, or want of memory.
#[derive(Clone, Copy, Debug, PartialEq, Eq, Drop)]
pub enum EvalEnd<F> {
    Code(xq_ast::Code),
    Nav(F),
    NoMemory,
}

impl<F> From<NavEnd<F>> for EvalEnd<F> {
    ghost use Rattle.std.specs.Prelude.{◌≡◌};
    ghost use Rattle.xq_nodes.specs.Ends.{end_of_nav};

    ghost from_gives = { λ end e. e ≡ end_of_nav end };

    fn from(end: NavEnd<F>) -> EvalEnd<F> {
        match end {
            NavEnd::Nav(fault) => EvalEnd::Nav(fault),
            NavEnd::NoMemory => EvalEnd::NoMemory,
        }
    }
}

impl<F> From<ValueEnd> for EvalEnd<F> {
    ghost use Rattle.std.specs.Prelude.{◌≡◌};
    ghost use Rattle.xq_nodes.specs.Ends.{end_of_value};

    ghost from_gives = { λ end e. e ≡ end_of_value end };

    fn from(end: ValueEnd) -> EvalEnd<F> {
        match end {
            ValueEnd::Code(code) => EvalEnd::Code(code),
            ValueEnd::NoMemory => EvalEnd::NoMemory,
        }
    }
}

impl<F> From<xq_ast::Code> for EvalEnd<F> {
    ghost use Rattle.std.specs.Prelude.{◌≡◌};
    ghost use Rattle.xq_nodes.specs.declared.end.EvalEnd.TheVariants.{Code};

    ghost from_gives = { λ c e. e ≡ Code c };

    fn from(code: xq_ast::Code) -> EvalEnd<F> {
        EvalEnd::Code(code)
    }
}

impl<F> From<NoMemory> for EvalEnd<F> {
    ghost use Rattle.std.specs.Prelude.{◌≡◌};
    ghost use Rattle.xq_nodes.specs.declared.end.EvalEnd.TheVariants.{NoMemory};

    ghost from_gives = { λ _ e. e ≡ NoMemory };

    fn from(_: NoMemory) -> EvalEnd<F> {
        EvalEnd::NoMemory
    }
}

impl<F> From<AllocError> for EvalEnd<F> {
    ghost use Rattle.std.specs.Prelude.{◌≡◌};
    ghost use Rattle.xq_nodes.specs.declared.end.EvalEnd.TheVariants.{NoMemory};

    ghost from_gives = { λ _ e. e ≡ NoMemory };

    fn from(_: AllocError) -> EvalEnd<F> {
        EvalEnd::NoMemory
    }
}
