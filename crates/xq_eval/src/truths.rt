//! Lists of expressions, truth values and choices.
ghost use Rattle.std.specs.Prelude.{map};
ghost use Rattle.std.specs.FinMap as forests;
ghost use Rattle.xq_values.specs.Seen.{made_seen};
ghost use Rattle.xq_nodes.specs.Answers.{Leaves};
ghost use Rattle.xq_eval.specs.Scopes.{in_scope};
ghost use Rattle.xml_model.specs.Evaluation as spec;
ghost use Rattle.xq_ast.specs.declared.tree.Bind.TheOpen.{Expr-F};
ghost use Rattle.xq_eval.specs.Meanings.{means};
ghost use Rattle.xq_eval.specs.Scopes.{items_seen};

use crate::found::Found;
use crate::scope::Scope;
use crate::values::truth_value;
use xml_model::Nav;
use xq_ast::{Expr, Items, Sequence};
use xq_nodes::EvalEnd;
use xq_values::{MadeList, SharedItems, effective_boolean};

impl<'a, N: Nav> Scope<'a, N> {
    /// The items of expressions, one after another.
    #[cycle(eval)]
    pub(crate) fn sequence(
        &self,
        parts: &[Expr],
        made: &mut MadeList,
    ) -> Result<Found, EvalEnd<N::Fault>>
        ensures { Leaves (N.honest self.now.nav.now) (N.passes self.now.nav.now) (items_seen (N.place self.now.nav.now)) result (made_seen made.new)
            (in_scope (N.place self.now.nav.now) self.now (spec.one_after_another (map (means (forests.get (N.forest self.now.nav.now))) parts.now)) (made_seen made.old)) }
    {
        let mut all = Items::new(self.alloc);
        for part in parts {
            let more = self.eval(part, made)?;
            all.append(more.into_items(self.alloc)?)?;
        }
        Ok(Found::owned(all))
    }

    /// The value of each expression.
    #[cycle(eval)]
    pub(crate) fn values(
        &self,
        parts: &[Expr],
        made: &mut MadeList,
    ) -> Result<Sequence<SharedItems>, EvalEnd<N::Fault>>
        ensures { Leaves (N.honest self.now.nav.now) (N.passes self.now.nav.now) (map (items_seen (N.place self.now.nav.now))) result (made_seen made.new)
            (in_scope (N.place self.now.nav.now) self.now (spec.values (map (means (forests.get (N.forest self.now.nav.now))) parts.now)) (made_seen made.old)) }
    {
        let mut all = Sequence::new(self.alloc);
        for part in parts {
            let found = self.eval(part, made)?;
            all.push(found.into_shared(self.alloc)?)?;
        }
        Ok(all)
    }

    /// The effective boolean value of an expression.
    #[cycle(eval)]
    pub(crate) fn truth(&self, expr: &Expr, made: &mut MadeList) -> Result<bool, EvalEnd<N::Fault>>
        ensures { Leaves (N.honest self.now.nav.now) (N.passes self.now.nav.now) (λ b. b) result (made_seen made.new)
            (in_scope (N.place self.now.nav.now) self.now (spec.truth (means (forests.get (N.forest self.now.nav.now)) expr.now)) (made_seen made.old)) }
    {
        let found = self.eval(expr, made)?;
        Ok(effective_boolean(found.as_slice())?)
    }

    // Whether one of them is true; those behind it are not evaluated.
    #[cycle(eval)]
    fn any_of(&self, parts: &[Expr], made: &mut MadeList) -> Result<bool, EvalEnd<N::Fault>>
        ensures { Leaves (N.honest self.now.nav.now) (N.passes self.now.nav.now) (λ b. b) result (made_seen made.new)
            (in_scope (N.place self.now.nav.now) self.now (spec.any_of (map (means (forests.get (N.forest self.now.nav.now))) parts.now)) (made_seen made.old)) }
    {
        for part in parts {
            if self.truth(part, made)? {
                return Ok(true);
            }
        }
        Ok(false)
    }

    // Whether all of them are true; those behind one that is false are not evaluated.
    #[cycle(eval)]
    fn all_of(&self, parts: &[Expr], made: &mut MadeList) -> Result<bool, EvalEnd<N::Fault>>
        ensures { Leaves (N.honest self.now.nav.now) (N.passes self.now.nav.now) (λ b. b) result (made_seen made.new)
            (in_scope (N.place self.now.nav.now) self.now (spec.all_of (map (means (forests.get (N.forest self.now.nav.now))) parts.now)) (made_seen made.old)) }
    {
        for part in parts {
            if !self.truth(part, made)? {
                return Ok(false);
            }
        }
        Ok(true)
    }

    /// Operands of `or`.
    #[cycle(eval)]
    pub(crate) fn or(&self, parts: &[Expr], made: &mut MadeList) -> Result<Found, EvalEnd<N::Fault>>
        ensures { Leaves (N.honest self.now.nav.now) (N.passes self.now.nav.now) (items_seen (N.place self.now.nav.now)) result (made_seen made.new)
            (in_scope (N.place self.now.nav.now) self.now (spec.value_of (forests.get (N.forest self.now.nav.now)) (Expr-F.Or (map (means (forests.get (N.forest self.now.nav.now))) parts.now))) (made_seen made.old)) }
    {
        let is_true = self.any_of(parts, made)?;
        Ok(truth_value(self.alloc, is_true)?)
    }

    /// Operands of `and`.
    #[cycle(eval)]
    pub(crate) fn and(
        &self,
        parts: &[Expr],
        made: &mut MadeList,
    ) -> Result<Found, EvalEnd<N::Fault>>
        ensures { Leaves (N.honest self.now.nav.now) (N.passes self.now.nav.now) (items_seen (N.place self.now.nav.now)) result (made_seen made.new)
            (in_scope (N.place self.now.nav.now) self.now (spec.value_of (forests.get (N.forest self.now.nav.now)) (Expr-F.And (map (means (forests.get (N.forest self.now.nav.now))) parts.now))) (made_seen made.old)) }
    {
        let is_true = self.all_of(parts, made)?;
        Ok(truth_value(self.alloc, is_true)?)
    }

    /// A choice.
    #[cycle(eval)]
    pub(crate) fn choice(
        &self,
        test: &Expr,
        good: &Expr,
        other: &Expr,
        made: &mut MadeList,
    ) -> Result<Found, EvalEnd<N::Fault>>
        ensures { Leaves (N.honest self.now.nav.now) (N.passes self.now.nav.now) (items_seen (N.place self.now.nav.now)) result (made_seen made.new)
            (in_scope (N.place self.now.nav.now) self.now (spec.value_of (forests.get (N.forest self.now.nav.now)) (Expr-F.If (means (forests.get (N.forest self.now.nav.now)) test.now) (means (forests.get (N.forest self.now.nav.now)) good.now) (means (forests.get (N.forest self.now.nav.now)) other.now))) (made_seen made.old)) }
    {
        if self.truth(test, made)? {
            self.eval(good, made)
        } else {
            self.eval(other, made)
        }
    }
}
