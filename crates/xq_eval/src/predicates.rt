//! Predicates.
ghost use Rattle.std.specs.Prelude.{pos, option_map, ◌≡◌, ◌++◌, ◌∷◌, [], if◌then◌else◌, map, length, OnOk, IfOk};
ghost use Rattle.std.specs.Ordering.{int_eq};
ghost use Rattle.std.specs.FinMap as forests;
ghost use Rattle.xq_values.specs.Seen.{made_seen};
ghost use Rattle.xq_nodes.specs.Answers.{Leaves};
ghost use Rattle.xq_eval.specs.Scopes.{in_scope};
ghost use Rattle.xml_model.specs.Evaluation as spec;
ghost use Rattle.xml_model.specs.Nav.{Stored};
ghost use Rattle.xml_model.specs.declared.nav.Id.{Id};
ghost use Rattle.xq_ast.specs.declared.tree.Bind.TheOpen.{Expr-F};
ghost use Rattle.xq_eval.specs.Meanings.{means};
ghost use Rattle.xq_functions.specs.Focuses.{focus_seen};
ghost use Rattle.xq_eval.specs.Predicates.{holds_in, integer_alone};
ghost use Rattle.xq_eval.specs.Scopes.{items_seen};

use crate::found::Found;
use crate::scope::Scope;
use std::alloc::Global;
use xml_model::Nav;
use xq_ast::{Code, Expr, Items, NoMemory, Sequence};
use xq_functions::Focus;
use xq_nodes::EvalEnd;
use xq_values::{Item, MadeList, effective_boolean};

// Whether an integer is this position.
fn is_position(value: &i64, position: usize) -> bool
    ensures { result ≡ int_eq value.now (pos position) }
{
    *value >= 0 && *value as u64 == position as u64
}

// Whether an integer that stands alone is this position.
fn position_test(position: usize, value: &[Item]) -> Option<bool>
    ensures { (place : Id → Stored) → result ≡ option_map (λ n. int_eq n (pos position)) (integer_alone (items_seen place value.now)) }
{
    match value {
        [] => None,
        [Item::Int { value }] => Some(is_position(value, position)),
        [Item::Int { .. }, _, ..] => None,
        [Item::Node { .. }, ..] => None,
        [Item::Text { .. }, ..] => None,
        [Item::Truth { .. }, ..] => None,
    }
}

// Whether a predicate with this value holds at a position: an integer alone tests the position.
fn holds_at(position: usize, value: &[Item]) -> Result<bool, Code>
    ensures { (place : Id → Stored) → result ≡ spec.holds_at position (items_seen place value.now) }
{
    match position_test(position, value) {
        Some(is_there) => Ok(is_there),
        None => effective_boolean(value),
    }
}

// Adds a copy of an item, where it is kept.
fn keep(kept: &mut Sequence<Item>, is_kept: bool, item: &Item) -> Result<(), NoMemory>
    ensures { OnOk result (kept.new ≡ kept.old ++ (if is_kept then item.now ∷ [] else [])) }
{
    if is_kept {
        kept.push(item.copy()?)?;
    }
    Ok(())
}

// Copies of items.
fn item_copies(alloc: Global, items: &[Item]) -> Result<Sequence<Item>, NoMemory>
    ensures { IfOk result (λ all. all ≡ items.now) }
{
    let mut all = Sequence::new(alloc);
    for item in items {
        all.push(item.copy()?)?;
    }
    Ok(all)
}

impl<'a, N: Nav> Scope<'a, N> {
    // Whether a predicate holds of an item at a position.
    #[cycle(eval)]
    fn holds(
        &self,
        pred: &Expr,
        focus: &Focus,
        made: &mut MadeList,
    ) -> Result<bool, EvalEnd<N::Fault>>
        ensures { Leaves (N.honest self.now.nav.now) (N.passes self.now.nav.now) (λ b. b) result (made_seen made.new)
            (in_scope (N.place self.now.nav.now) self.now (holds_in (means (forests.get (N.forest self.now.nav.now)) pred.now) (focus_seen (N.place self.now.nav.now) focus.now)) (made_seen made.old)) }
    {
        let scope = Scope {
            alloc: self.alloc,
            nav: self.nav,
            variables: self.variables,
            focus: Some(focus),
        };
        let value = scope.eval(pred, made)?;
        Ok(holds_at(focus.position, value.as_slice())?)
    }

    // The items for which a predicate holds.
    #[cycle(eval)]
    fn kept(
        &self,
        pred: &Expr,
        items: &[Item],
        made: &mut MadeList,
    ) -> Result<Sequence<Item>, EvalEnd<N::Fault>>
        ensures { Leaves (N.honest self.now.nav.now) (N.passes self.now.nav.now) (items_seen (N.place self.now.nav.now)) result (made_seen made.new)
            (in_scope (N.place self.now.nav.now) self.now (λ env cx. spec.kept (λ item. item) (means (forests.get (N.forest self.now.nav.now)) pred.now) env (length items.now) 1 (items_seen (N.place self.now.nav.now) items.now)) (made_seen made.old)) }
    {
        let mut kept = Sequence::new(self.alloc);
        let size = items.len();
        for (i, item) in items.iter().enumerate() {
            let focus = Focus {
                item: item.copy()?,
                position: i + 1,
                size,
            };
            let is_kept = self.holds(pred, &focus, made)?;
            keep(&mut kept, is_kept, item)?;
        }
        Ok(kept)
    }

    /// The items for which one predicate after another holds.
    #[cycle(eval)]
    pub(crate) fn filtered(
        &self,
        preds: &[Expr],
        items: Sequence<Item>,
        made: &mut MadeList,
    ) -> Result<Sequence<Item>, EvalEnd<N::Fault>>
        ensures { Leaves (N.honest self.now.nav.now) (N.passes self.now.nav.now) (items_seen (N.place self.now.nav.now)) result (made_seen made.new)
            (in_scope (N.place self.now.nav.now) self.now (λ env cx. spec.filtered (λ item. item) (map (means (forests.get (N.forest self.now.nav.now))) preds.now) env (items_seen (N.place self.now.nav.now) items)) (made_seen made.old)) }
    {
        let mut left = items;
        for pred in preds {
            left = self.kept(pred, left.as_slice(), made)?;
        }
        Ok(left)
    }

    /// A value with predicates.
    #[cycle(eval)]
    pub(crate) fn filter(
        &self,
        inner: &Expr,
        preds: &[Expr],
        made: &mut MadeList,
    ) -> Result<Found, EvalEnd<N::Fault>>
        ensures { Leaves (N.honest self.now.nav.now) (N.passes self.now.nav.now) (items_seen (N.place self.now.nav.now)) result (made_seen made.new)
            (in_scope (N.place self.now.nav.now) self.now (spec.value_of (forests.get (N.forest self.now.nav.now)) (Expr-F.Filter (means (forests.get (N.forest self.now.nav.now)) inner.now) (map (means (forests.get (N.forest self.now.nav.now))) preds.now))) (made_seen made.old)) }
    {
        let found = self.eval(inner, made)?;
        let items = item_copies(self.alloc, found.as_slice())?;
        let left = self.filtered(preds, items, made)?;
        Ok(Found::owned(Items::from_vec(left.into_vec())))
    }
}
