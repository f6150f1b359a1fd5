//! Passes over a call that test each expression wherever it stands.
ghost use Rattle.std.specs.Prelude.{◌≡◌, ◌&&◌, map};
ghost use Rattle.std.specs.Option.{option_map};
ghost use Rattle.xq_ast.specs.Everywhere as spec;
ghost use Rattle.xq_parse.specs.Passes.{tests_of};

use crate::functions::is_function;
use xq_ast::{
    Bind, BindList, Boxed, Expr, ExprList, ProductPartList, SortKeyList, Start, StepList, Str,
    SumPartList, is_name,
};

/// What is tested.
#[derive(Clone, Copy, Debug, PartialEq, Eq)]
pub(crate) enum Pass {
    /// The names of new nodes are names.
    Names,
    /// The functions are known, and take so many arguments.
    Functions,
}

impl Pass {
    fn made(self, name: &Str) -> bool
        ensures { result ≡ (tests_of self).made name.now }
    {
        match self {
            Pass::Names => is_name(name.as_str()),
            Pass::Functions => true,
        }
    }

    fn called(self, name: &Str, arguments: usize) -> bool
        ensures { result ≡ (tests_of self).called name.now arguments }
    {
        match self {
            Pass::Names => true,
            Pass::Functions => is_function(name.as_str(), arguments),
        }
    }

    #[cycle(everywhere)]
    fn exprs(self, exprs: &ExprList) -> bool
        ensures { result ≡ spec.all_true (map (spec.everywhere (tests_of self)) exprs.now) }
    {
        for expr in exprs.as_slice() {
            if !self.passes(expr) {
                return false;
            }
        }
        true
    }

    #[cycle(everywhere)]
    fn content(self, expr: &Option<Boxed<Expr>>) -> bool
        ensures { result ≡ spec.if_there (option_map (spec.everywhere (tests_of self)) expr.now) }
    {
        match expr {
            None => true,
            Some(expr) => self.passes(expr.get()),
        }
    }

    #[cycle(everywhere)]
    fn binds(self, binds: &BindList) -> bool
        ensures { result ≡ spec.all_true (map (spec.bind_everywhere (tests_of self)) binds.now) }
    {
        for bind in binds.as_slice() {
            if !self.bind(bind) {
                return false;
            }
        }
        true
    }

    #[cycle(everywhere)]
    fn bind(self, bind: &Bind) -> bool
        ensures { result ≡ spec.bind_everywhere (tests_of self) bind.now }
    {
        match bind {
            Bind::For { source, .. } => self.passes(source),
            Bind::Let { value, .. } => self.passes(value),
        }
    }

    #[cycle(everywhere)]
    fn keys(self, keys: &SortKeyList) -> bool
        ensures { result ≡ spec.all_true (map (spec.key_everywhere (tests_of self)) keys.now) }
    {
        for key in keys.as_slice() {
            if !self.passes(&key.expr) {
                return false;
            }
        }
        true
    }

    #[cycle(everywhere)]
    fn sum_parts(self, parts: &SumPartList) -> bool
        ensures { result ≡ spec.all_true (map (spec.sum_everywhere (tests_of self)) parts.now) }
    {
        for part in parts.as_slice() {
            if !self.passes(&part.expr) {
                return false;
            }
        }
        true
    }

    #[cycle(everywhere)]
    fn product_parts(self, parts: &ProductPartList) -> bool
        ensures { result ≡ spec.all_true (map (spec.product_everywhere (tests_of self)) parts.now) }
    {
        for part in parts.as_slice() {
            if !self.passes(&part.expr) {
                return false;
            }
        }
        true
    }

    #[cycle(everywhere)]
    fn steps(self, steps: &StepList) -> bool
        ensures { result ≡ spec.all_true (map (spec.step_everywhere (tests_of self)) steps.now) }
    {
        for step in steps.as_slice() {
            if !self.exprs(&step.preds) {
                return false;
            }
        }
        true
    }

    #[cycle(everywhere)]
    fn start(self, start: &Start) -> bool
        ensures { result ≡ spec.start_everywhere (tests_of self) start.now }
    {
        match start {
            Start::Value { inner } => self.passes(inner.get()),
            Start::First { step } => self.exprs(&step.preds),
        }
    }

    /// Whether all of an expression passes.
    #[cycle(everywhere)]
    pub(crate) fn passes(self, expr: &Expr) -> bool
        ensures { result ≡ spec.everywhere (tests_of self) expr.now }
    {
        match expr {
            Expr::Text { .. } => true,
            Expr::Int { .. } => true,
            Expr::Var { .. } => true,
            Expr::Context => true,
            Expr::Seq { parts } => self.exprs(parts),
            Expr::Flwor {
                binds,
                filter,
                keys,
                result,
            } => {
                self.binds(binds)
                    && (self.content(filter) && (self.keys(keys) && self.passes(result.get())))
            }
            Expr::If { test, yes, no } => {
                self.passes(test.get()) && (self.passes(yes.get()) && self.passes(no.get()))
            }
            Expr::Or { parts } => self.exprs(parts),
            Expr::And { parts } => self.exprs(parts),
            Expr::Compare { left, right, .. } => {
                self.passes(left.get()) && self.passes(right.get())
            }
            Expr::Range { low, high } => self.passes(low.get()) && self.passes(high.get()),
            Expr::Sum { first, rest } => self.passes(first.get()) && self.sum_parts(rest),
            Expr::Product { first, rest } => self.passes(first.get()) && self.product_parts(rest),
            Expr::Union { parts } => self.exprs(parts),
            Expr::Signed { inner, .. } => self.passes(inner.get()),
            Expr::Path { start, rest } => self.start(start) && self.steps(rest),
            Expr::Filter { inner, preds } => self.passes(inner.get()) && self.exprs(preds),
            Expr::Fun { name, args } => self.called(name, args.len()) && self.exprs(args),
            Expr::Doc { .. } => true,
            Expr::Element { name, content } => self.made(name) && self.content(content),
            Expr::Attribute { name, content } => self.made(name) && self.content(content),
            Expr::TextNode { content } => self.content(content),
        }
    }

    /// Whether all of two expressions passes.
    pub(crate) fn both_pass(self, first: &Expr, second: &Expr) -> bool
        ensures { result ≡ (spec.everywhere (tests_of self) first.now && spec.everywhere (tests_of self) second.now) }
    {
        self.passes(first) && self.passes(second)
    }
}
