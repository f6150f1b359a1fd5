//! Syntax trees of queries.
use crate::step::{Axis, Test};
use crate::text::Str;
use sqlite_items::{Boxed, Items};

/// A list of expressions.
pub type ExprList = Items<Expr>;

/// A list of bindings.
pub type BindList = Items<Bind>;

/// A list of keys, the first one the most important.
pub type SortKeyList = Items<SortKey>;

/// What follows the first operand of a sum.
pub type SumPartList = Items<SumPart>;

/// What follows the first operand of a product.
pub type ProductPartList = Items<ProductPart>;

/// The steps of a path after its start.
pub type StepList = Items<Step>;

/// The signs before an operand, the outermost first.
pub type SignList = crate::sequence::Sequence<Sign>;

/// An operator of a comparison.
#[derive(Clone, Copy, Debug, PartialEq, Eq)]
pub enum CompareOp {
    Eq,
    Ne,
    Lt,
    Le,
    Gt,
    Ge,
}

/// An operator of a product.
#[derive(Clone, Copy, Debug, PartialEq, Eq)]
pub enum ProductOp {
    Times,
    Idiv,
    Mod,
}

/// A sign before an operand.
#[derive(Clone, Copy, Debug, PartialEq, Eq)]
pub enum Sign {
    Plus,
    Minus,
}

/// An expression. Operands of one operator are one flat list, and a row of the grammar with
/// one part and nothing else is that part itself.
#[cycle(ast)]
#[derive(Debug, Drop)]
pub enum Expr {
    /// A string.
    Text {
        /// Its characters, all references replaced.
        value: Str,
    },
    /// An integer.
    Int {
        /// 0 to 9223372036854775807.
        value: i64,
    },
    /// What a variable is bound to.
    Var {
        /// The variable's name, without the `$`.
        name: Str,
    },
    /// The context item, written `.`.
    Context,
    /// Expressions between commas, whose items follow one another.
    Seq {
        /// None, or two at least. No parts is `()`.
        parts: ExprList,
    },
    /// `for` and `let`, then `where`, `order by` and `return`.
    Flwor {
        /// One at least, the outermost first.
        binds: BindList,
        /// What stands after `where`.
        filter: Option<Boxed<Expr>>,
        /// What stands after `order by`. No keys leave the order as it is.
        keys: SortKeyList,
        /// What stands after `return`.
        result: Boxed<Expr>,
    },
    /// `if (test) then yes else no`
    If {
        test: Boxed<Expr>,
        yes: Boxed<Expr>,
        no: Boxed<Expr>,
    },
    /// Operands of `or`.
    Or {
        /// Two at least.
        parts: ExprList,
    },
    /// Operands of `and`.
    And {
        /// Two at least.
        parts: ExprList,
    },
    /// A comparison of two values, true where some pair of their items compares so.
    Compare {
        left: Boxed<Expr>,
        op: CompareOp,
        right: Boxed<Expr>,
    },
    /// `low to high`: the integers from the one to the other.
    Range {
        low: Boxed<Expr>,
        high: Boxed<Expr>,
    },
    /// Operands of `+` and `-`.
    Sum {
        first: Boxed<Expr>,
        /// One at least.
        rest: SumPartList,
    },
    /// Operands of `*`, `idiv` and `mod`.
    Product {
        first: Boxed<Expr>,
        /// One at least.
        rest: ProductPartList,
    },
    /// Operands of `|` or `union`: their nodes in document order, each once.
    Union {
        /// Two at least.
        parts: ExprList,
    },
    /// An operand with signs before it.
    Signed {
        /// One at least.
        signs: SignList,
        inner: Boxed<Expr>,
    },
    /// A path. A step that stands alone is one without further steps.
    Path {
        start: Start,
        /// The steps after the first `/` or `//`.
        rest: StepList,
    },
    /// A primary expression with predicates.
    Filter {
        inner: Boxed<Expr>,
        /// One at least, in the order in which they are applied.
        preds: ExprList,
    },
    /// A call of a function.
    Fun {
        /// The function's name without the prefix `fn:`.
        name: Str,
        args: ExprList,
    },
    /// The document of this name.
    Doc {
        name: Str,
    },
    /// A new element. No content is none at all.
    Element {
        name: Str,
        content: Option<Boxed<Expr>>,
    },
    /// A new attribute. No content is an empty value.
    Attribute {
        name: Str,
        content: Option<Boxed<Expr>>,
    },
    /// A new text.
    TextNode {
        content: Option<Boxed<Expr>>,
    },
}

/// A binding of a FLWOR expression.
#[cycle(ast)]
#[derive(Debug, Drop)]
pub enum Bind {
    /// The name stands for each item in turn, and `at` for its position from 1.
    For {
        name: Str,
        at: Option<Str>,
        source: Expr,
    },
    /// The name stands for the whole value.
    Let {
        name: Str,
        value: Expr,
    },
}

/// A key of `order by`.
#[cycle(ast)]
#[derive(Debug, Drop)]
pub struct SortKey {
    pub expr: Expr,
    pub descending: bool,
}

/// An operand that is added, or subtracted where `minus`.
#[cycle(ast)]
#[derive(Debug, Drop)]
pub struct SumPart {
    pub minus: bool,
    pub expr: Expr,
}

/// An operator of a product and its right operand.
#[cycle(ast)]
#[derive(Debug, Drop)]
pub struct ProductPart {
    pub op: ProductOp,
    pub expr: Expr,
}

/// What a path begins with.
#[cycle(ast)]
#[derive(Debug, Drop)]
pub enum Start {
    /// With the items of an expression.
    Value { inner: Boxed<Expr> },
    /// With a step from the context item.
    First { step: Step },
}

/// A step of a path. `deep` says that `//` stands before it, and is false for a first step.
#[cycle(ast)]
#[derive(Debug, Drop)]
pub struct Step {
    pub deep: bool,
    /// The way that it goes.
    pub axis: Axis,
    /// Which nodes of the axis it takes.
    pub test: Test,
    /// The predicates, in the order in which they are applied.
    pub preds: ExprList,
}
