//! Where an expression is evaluated, and the evaluation of each kind of expression.
ghost use Rattle.std.specs.Prelude.{map};
ghost use Rattle.std.specs.FinMap as forests;
ghost use Rattle.xq_values.specs.Seen.{made_seen};
ghost use Rattle.xq_nodes.specs.Answers.{Leaves};
ghost use Rattle.xq_eval.specs.Scopes.{in_scope};
ghost use Rattle.xq_eval.specs.Meanings.{means, value_means};
ghost use Rattle.xq_eval.specs.Scopes.{items_seen};

use crate::found::Found;
use crate::values;
use std::alloc::Global;
use xml_model::{ITEMS_MAX, Nav};
use xq_ast::{Code, Expr};
use xq_functions::Focus;
use xq_nodes::EvalEnd;
use xq_values::{MadeList, Variable};

/// Where an expression is evaluated: over which documents, with which variables, the innermost
/// last, and with which context.
#[derive(Drop)]
pub(crate) struct Scope<'a, N> {
    pub(crate) alloc: Global,
    pub(crate) nav: &'a N,
    pub(crate) variables: &'a [Variable],
    pub(crate) focus: Option<&'a Focus>,
}

impl<'a, N: Nav> Scope<'a, N> {
    /// The value of an expression.
    #[cycle(eval)]
    pub(crate) fn eval(&self, expr: &Expr, made: &mut MadeList) -> Result<Found, EvalEnd<N::Fault>>
        ensures { Leaves (N.honest self.now.nav.now) (N.passes self.now.nav.now) (items_seen (N.place self.now.nav.now)) result (made_seen made.new)
            (in_scope (N.place self.now.nav.now) self.now (means (forests.get (N.forest self.now.nav.now)) expr.now) (made_seen made.old)) }
    {
        let found = self.value(expr, made)?;
        Ok(values::counted(found)?)
    }

    // The value of an expression, before its items are counted.
    #[cycle(eval)]
    fn value(&self, expr: &Expr, made: &mut MadeList) -> Result<Found, EvalEnd<N::Fault>>
        ensures { Leaves (N.honest self.now.nav.now) (N.passes self.now.nav.now) (items_seen (N.place self.now.nav.now)) result (made_seen made.new)
            (in_scope (N.place self.now.nav.now) self.now (value_means (forests.get (N.forest self.now.nav.now)) expr.now) (made_seen made.old)) }
    {
        match expr {
            Expr::Text { value } => Ok(values::text(self.alloc, value)?),
            Expr::Int { value } => Ok(values::integer(self.alloc, value)?),
            Expr::Var { name } => Ok(values::variable(self.alloc, self.variables, name)?),
            Expr::Context => Ok(values::context(self.alloc, self.focus)?),
            Expr::Seq { parts } => self.sequence(parts.as_slice(), made),
            Expr::Flwor {
                binds,
                filter,
                keys,
                result,
            } => self.flwor(
                binds.as_slice(),
                filter,
                keys.as_slice(),
                result.get(),
                made,
            ),
            Expr::If { test, yes, no } => self.choice(test.get(), yes.get(), no.get(), made),
            Expr::Or { parts } => self.or(parts.as_slice(), made),
            Expr::And { parts } => self.and(parts.as_slice(), made),
            Expr::Compare { left, op, right } => self.compare(left.get(), *op, right.get(), made),
            Expr::Range { low, high } => self.range(low.get(), high.get(), made),
            Expr::Sum { first, rest } => self.sum(first.get(), rest.as_slice(), made),
            Expr::Product { first, rest } => self.product(first.get(), rest.as_slice(), made),
            Expr::Union { parts } => self.union(parts.as_slice(), made),
            Expr::Signed { signs, inner } => self.signed(signs.as_slice(), inner.get(), made),
            Expr::Path { start, rest } => self.path(start, rest.as_slice(), made),
            Expr::Filter { inner, preds } => self.filter(inner.get(), preds.as_slice(), made),
            Expr::Fun { name, args } => self.function(name, args.as_slice(), made),
            Expr::Doc { name } => values::document(self.alloc, self.nav, name),
            Expr::Element { name, content } => self.element(name, content, made),
            Expr::Attribute { name, content } => self.attribute(name, content, made),
            Expr::TextNode { content } => self.text_node(content, made),
        }
    }
}
