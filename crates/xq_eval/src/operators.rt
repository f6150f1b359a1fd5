//! Operators and calls of functions.
ghost use Rattle.std.specs.Prelude.{map};
ghost use Rattle.std.specs.FinMap as forests;
ghost use Rattle.xq_values.specs.Seen.{made_seen};
ghost use Rattle.xq_nodes.specs.Answers.{Leaves};
ghost use Rattle.xq_eval.specs.Scopes.{in_scope};
ghost use Rattle.xml_model.specs.Evaluation as spec;
ghost use Rattle.xq_ast.specs.declared.tree.Bind.TheOpen.{Expr-F};
ghost use Rattle.xq_functions.specs.Operands.{sum_seen, product_seen};
ghost use Rattle.xq_eval.specs.Meanings.{means, sum_means, product_means};
ghost use Rattle.xq_eval.specs.Scopes.{items_seen};

use crate::found::Found;
use crate::scope::Scope;
use crate::values::truth_value;
use xml_model::Nav;
use xq_ast::{CompareOp, Expr, ProductPart, Sequence, Sign, Str, SumPart};
use xq_functions::{
    ProductValue, SumValue, call_function, compared, multiplied, node_items, ranged, signed_value,
    summed, united_all,
};
use xq_nodes::EvalEnd;
use xq_values::MadeList;

impl<'a, N: Nav> Scope<'a, N> {
    /// A comparison.
    #[cycle(eval)]
    pub(crate) fn compare(
        &self,
        left: &Expr,
        op: CompareOp,
        right: &Expr,
        made: &mut MadeList,
    ) -> Result<Found, EvalEnd<N::Fault>>
        ensures { Leaves (N.honest self.now.nav.now) (N.passes self.now.nav.now) (items_seen (N.place self.now.nav.now)) result (made_seen made.new)
            (in_scope (N.place self.now.nav.now) self.now (spec.value_of (forests.get (N.forest self.now.nav.now)) (Expr-F.Compare (means (forests.get (N.forest self.now.nav.now)) left.now) op (means (forests.get (N.forest self.now.nav.now)) right.now))) (made_seen made.old)) }
    {
        let a = self.eval(left, made)?;
        let b = self.eval(right, made)?;
        let is_true = compared(
            self.alloc,
            self.nav,
            made.as_slice(),
            op,
            a.as_slice(),
            b.as_slice(),
        )?;
        Ok(truth_value(self.alloc, is_true)?)
    }

    /// The integers from one to another.
    #[cycle(eval)]
    pub(crate) fn range(
        &self,
        low: &Expr,
        high: &Expr,
        made: &mut MadeList,
    ) -> Result<Found, EvalEnd<N::Fault>>
        ensures { Leaves (N.honest self.now.nav.now) (N.passes self.now.nav.now) (items_seen (N.place self.now.nav.now)) result (made_seen made.new)
            (in_scope (N.place self.now.nav.now) self.now (spec.value_of (forests.get (N.forest self.now.nav.now)) (Expr-F.Range (means (forests.get (N.forest self.now.nav.now)) low.now) (means (forests.get (N.forest self.now.nav.now)) high.now))) (made_seen made.old)) }
    {
        let a = self.eval(low, made)?;
        let b = self.eval(high, made)?;
        let all = ranged(
            self.alloc,
            self.nav,
            made.as_slice(),
            a.as_slice(),
            b.as_slice(),
        )?;
        Ok(Found::owned(all))
    }

    // Operators of a sum, with the values of their right operands.
    #[cycle(eval)]
    fn sum_parts(
        &self,
        rest: &[SumPart],
        made: &mut MadeList,
    ) -> Result<Sequence<SumValue>, EvalEnd<N::Fault>>
        ensures { Leaves (N.honest self.now.nav.now) (N.passes self.now.nav.now) (map (sum_seen (N.place self.now.nav.now))) result (made_seen made.new)
            (in_scope (N.place self.now.nav.now) self.now (spec.parts (map (sum_means (forests.get (N.forest self.now.nav.now))) rest.now)) (made_seen made.old)) }
    {
        let mut all = Sequence::new(self.alloc);
        for part in rest {
            let found = self.eval(&part.expr, made)?;
            let items = found.into_items(self.alloc)?;
            all.push(SumValue {
                minus: part.minus,
                items,
            })?;
        }
        Ok(all)
    }

    // Operators of a product, with the values of their right operands.
    #[cycle(eval)]
    fn product_parts(
        &self,
        rest: &[ProductPart],
        made: &mut MadeList,
    ) -> Result<Sequence<ProductValue>, EvalEnd<N::Fault>>
        ensures { Leaves (N.honest self.now.nav.now) (N.passes self.now.nav.now) (map (product_seen (N.place self.now.nav.now))) result (made_seen made.new)
            (in_scope (N.place self.now.nav.now) self.now (spec.parts (map (product_means (forests.get (N.forest self.now.nav.now))) rest.now)) (made_seen made.old)) }
    {
        let mut all = Sequence::new(self.alloc);
        for part in rest {
            let found = self.eval(&part.expr, made)?;
            let items = found.into_items(self.alloc)?;
            all.push(ProductValue { op: part.op, items })?;
        }
        Ok(all)
    }

    /// Operands of `+` and `-`.
    #[cycle(eval)]
    pub(crate) fn sum(
        &self,
        first: &Expr,
        rest: &[SumPart],
        made: &mut MadeList,
    ) -> Result<Found, EvalEnd<N::Fault>>
        ensures { Leaves (N.honest self.now.nav.now) (N.passes self.now.nav.now) (items_seen (N.place self.now.nav.now)) result (made_seen made.new)
            (in_scope (N.place self.now.nav.now) self.now (spec.value_of (forests.get (N.forest self.now.nav.now)) (Expr-F.Sum (means (forests.get (N.forest self.now.nav.now)) first.now) (map (sum_means (forests.get (N.forest self.now.nav.now))) rest.now))) (made_seen made.old)) }
    {
        let found = self.eval(first, made)?;
        let items = found.into_items(self.alloc)?;
        let parts = self.sum_parts(rest, made)?;
        let all = summed(
            self.alloc,
            self.nav,
            made.as_slice(),
            items,
            parts.as_slice(),
        )?;
        Ok(Found::owned(all))
    }

    /// Operands of `*`, `idiv` and `mod`.
    #[cycle(eval)]
    pub(crate) fn product(
        &self,
        first: &Expr,
        rest: &[ProductPart],
        made: &mut MadeList,
    ) -> Result<Found, EvalEnd<N::Fault>>
        ensures { Leaves (N.honest self.now.nav.now) (N.passes self.now.nav.now) (items_seen (N.place self.now.nav.now)) result (made_seen made.new)
            (in_scope (N.place self.now.nav.now) self.now (spec.value_of (forests.get (N.forest self.now.nav.now)) (Expr-F.Product (means (forests.get (N.forest self.now.nav.now)) first.now) (map (product_means (forests.get (N.forest self.now.nav.now))) rest.now))) (made_seen made.old)) }
    {
        let found = self.eval(first, made)?;
        let items = found.into_items(self.alloc)?;
        let parts = self.product_parts(rest, made)?;
        let all = multiplied(
            self.alloc,
            self.nav,
            made.as_slice(),
            items,
            parts.as_slice(),
        )?;
        Ok(Found::owned(all))
    }

    /// Operands of `|`.
    #[cycle(eval)]
    pub(crate) fn union(
        &self,
        parts: &[Expr],
        made: &mut MadeList,
    ) -> Result<Found, EvalEnd<N::Fault>>
        ensures { Leaves (N.honest self.now.nav.now) (N.passes self.now.nav.now) (items_seen (N.place self.now.nav.now)) result (made_seen made.new)
            (in_scope (N.place self.now.nav.now) self.now (spec.value_of (forests.get (N.forest self.now.nav.now)) (Expr-F.Union (map (means (forests.get (N.forest self.now.nav.now))) parts.now))) (made_seen made.old)) }
    {
        let lists = self.values(parts, made)?;
        let nodes = united_all(self.alloc, self.nav, lists.as_slice())?;
        Ok(Found::owned(node_items(self.alloc, nodes)?))
    }

    /// An operand with signs before it.
    #[cycle(eval)]
    pub(crate) fn signed(
        &self,
        signs: &[Sign],
        inner: &Expr,
        made: &mut MadeList,
    ) -> Result<Found, EvalEnd<N::Fault>>
        ensures { Leaves (N.honest self.now.nav.now) (N.passes self.now.nav.now) (items_seen (N.place self.now.nav.now)) result (made_seen made.new)
            (in_scope (N.place self.now.nav.now) self.now (spec.value_of (forests.get (N.forest self.now.nav.now)) (Expr-F.Signed signs.now (means (forests.get (N.forest self.now.nav.now)) inner.now))) (made_seen made.old)) }
    {
        let found = self.eval(inner, made)?;
        let items = found.into_items(self.alloc)?;
        let all = signed_value(self.alloc, self.nav, made.as_slice(), signs, items)?;
        Ok(Found::owned(all))
    }

    /// A call of a function.
    #[cycle(eval)]
    pub(crate) fn function(
        &self,
        name: &Str,
        args: &[Expr],
        made: &mut MadeList,
    ) -> Result<Found, EvalEnd<N::Fault>>
        ensures { Leaves (N.honest self.now.nav.now) (N.passes self.now.nav.now) (items_seen (N.place self.now.nav.now)) result (made_seen made.new)
            (in_scope (N.place self.now.nav.now) self.now (spec.value_of (forests.get (N.forest self.now.nav.now)) (Expr-F.Fun name.now (map (means (forests.get (N.forest self.now.nav.now))) args.now))) (made_seen made.old)) }
    {
        let lists = self.values(args, made)?;
        let all = call_function(
            self.alloc,
            self.nav,
            made.as_slice(),
            self.focus,
            name,
            lists.as_slice(),
        )?;
        Ok(Found::owned(all))
    }
}
