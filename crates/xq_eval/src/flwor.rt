//! FLWOR expressions.
ghost use Rattle.std.specs.Prelude.{◌≡◌, [], ◌++◌, map, OnOk, IfOk};
ghost use Rattle.std.specs.FinMap as forests;
ghost use Rattle.xq_values.specs.Seen.{made_seen};
ghost use Rattle.xq_nodes.specs.Answers.{Leaves};
ghost use Rattle.xq_eval.specs.Scopes.{in_scope};
ghost use Rattle.std.specs.Option.{option_copied};
ghost use Rattle.xml_model.specs.Evaluation as spec;
ghost use Rattle.xml_model.specs.Tuples as tuples;
ghost use Rattle.xml_model.specs.Nav.{Stored};
ghost use Rattle.xml_model.specs.declared.nav.Id.{Id};
ghost use Rattle.xq_ast.specs.declared.tree.Bind.TheOpen.{Expr-F};
ghost use Rattle.xq_values.specs.Rows.{row_seen};
ghost use Rattle.xq_eval.specs.Meanings.{means, option_means, bind_means, key_means};
ghost use Rattle.xq_eval.specs.Scopes.{items_seen, variables_seen, context_seen};
ghost use Rattle.xq_eval.specs.TuplesSeen.{keyed_seen, tuples_seen};

use crate::bound::{of_items, of_value};
use crate::found::Found;
use crate::scope::Scope;
use crate::tuples::{
    Keyed, Tuples, add_key, bind_more, copies, no_keys, no_tuples, type_at, with_row,
};
use std::alloc::Global;
use xml_model::{KeyType, Nav};
use xq_ast::{Bind, Boxed, Expr, Items, NoMemory, Sequence, SortKey};
use xq_functions::key_of_items;
use xq_nodes::EvalEnd;
use xq_values::{
    Bindings, MadeList, Row, Variable, effective_boolean, joined_type, sorted, type_of,
};

// Which keys descend.
fn directions(alloc: Global, keys: &[SortKey]) -> Result<Sequence<bool>, NoMemory>
    ensures { IfOk result (λ all. all ≡ map (λ k. k.descending) keys.now) }
{
    let mut all = Sequence::new(alloc);
    for key in keys {
        all.push(key.descending)?;
    }
    Ok(all)
}

// The tuples in the order of their keys.
fn in_key_order(alloc: Global, found: Tuples, keys: &[SortKey]) -> Result<Sequence<Row>, NoMemory>
    ensures { (place : Id → Stored) → IfOk result (λ all. map (row_seen place) all
        ≡ tuples.rows_placed (map (λ k. k.descending) keys.now) (tuples_seen place found).rows []) }
{
    let descends = directions(alloc, keys)?;
    sorted(found.rows, descends.as_slice())
}

impl<'a, N: Nav> Scope<'a, N> {
    // What a binding binds.
    #[cycle(eval)]
    fn bind(
        &self,
        bind: &Bind,
        made: &mut MadeList,
    ) -> Result<Sequence<Bindings>, EvalEnd<N::Fault>>
        ensures { Leaves (N.honest self.now.nav.now) (N.passes self.now.nav.now) (map (variables_seen (N.place self.now.nav.now))) result (made_seen made.new)
            (in_scope (N.place self.now.nav.now) self.now (bind_means (forests.get (N.forest self.now.nav.now)) bind.now) (made_seen made.old)) }
    {
        match bind {
            Bind::For { name, at, source } => {
                let found = self.eval(source, made)?;
                Ok(of_items(self.alloc, name, at, found.as_slice())?)
            }
            Bind::Let { name, value } => {
                let found = self.eval(value, made)?;
                let items = found.into_shared(self.alloc)?;
                Ok(of_value(self.alloc, name, items)?)
            }
        }
    }

    // The keys of a tuple; the types are those of earlier tuples.
    #[cycle(eval)]
    fn keyed(
        &self,
        keys: &[SortKey],
        types: &[KeyType],
        made: &mut MadeList,
    ) -> Result<Keyed, EvalEnd<N::Fault>>
        ensures { Leaves (N.honest self.now.nav.now) (N.passes self.now.nav.now) (keyed_seen) result (made_seen made.new)
            (in_scope (N.place self.now.nav.now) self.now (λ env cx. tuples.keyed (forests.get (N.forest self.now.nav.now)) (map (key_means (forests.get (N.forest self.now.nav.now))) keys.now) env cx types.now tuples.no_keys) (made_seen made.old)) }
    {
        let mut all = no_keys(self.alloc);
        for (i, key) in keys.iter().enumerate() {
            let value = self.eval(&key.expr, made)?;
            let found = key_of_items(self.alloc, self.nav, made.as_slice(), value.as_slice())?;
            let key_type = joined_type(type_at(types, i), type_of(&found))?;
            add_key(&mut all, found, key_type)?;
        }
        Ok(all)
    }

    // Whether `where` lets a tuple stay.
    #[cycle(eval)]
    fn stays(
        &self,
        filter: &Option<Boxed<Expr>>,
        made: &mut MadeList,
    ) -> Result<bool, EvalEnd<N::Fault>>
        ensures { Leaves (N.honest self.now.nav.now) (N.passes self.now.nav.now) (λ b. b) result (made_seen made.new)
            (in_scope (N.place self.now.nav.now) self.now (tuples.stays (forests.get (N.forest self.now.nav.now)) (option_means (forests.get (N.forest self.now.nav.now)) filter.now)) (made_seen made.old)) }
    {
        match filter {
            None => Ok(true),
            Some(expr) => {
                let value = self.eval(expr.get(), made)?;
                Ok(effective_boolean(value.as_slice())?)
            }
        }
    }

    // The tuple of these variables, where it stays.
    #[cycle(eval)]
    fn tuple(
        &self,
        filter: &Option<Boxed<Expr>>,
        keys: &[SortKey],
        found: Tuples,
        made: &mut MadeList,
    ) -> Result<Tuples, EvalEnd<N::Fault>>
        ensures { Leaves (N.honest self.now.nav.now) (N.passes self.now.nav.now) (tuples_seen (N.place self.now.nav.now)) result (made_seen made.new)
            (in_scope (N.place self.now.nav.now) self.now (λ env cx. tuples.tuple (forests.get (N.forest self.now.nav.now)) (option_means (forests.get (N.forest self.now.nav.now)) filter.now) (map (key_means (forests.get (N.forest self.now.nav.now))) keys.now) env cx (tuples_seen (N.place self.now.nav.now) found)) (made_seen made.old)) }
    {
        if !self.stays(filter, made)? {
            return Ok(found);
        }
        let keyed = self.keyed(keys, found.types.as_slice(), made)?;
        Ok(with_row(found, copies(self.alloc, self.variables)?, keyed)?)
    }

    // The tuples of the bindings, after those that are there.
    #[cycle(eval)]
    fn tuples(
        &self,
        binds: &[Bind],
        filter: &Option<Boxed<Expr>>,
        keys: &[SortKey],
        env: &mut Bindings,
        found: Tuples,
        made: &mut MadeList,
    ) -> Result<Tuples, EvalEnd<N::Fault>>
        ensures gives { Leaves (N.honest self.now.nav.now) (N.passes self.now.nav.now) (tuples_seen (N.place self.now.nav.now)) result (made_seen made.new)
            (tuples.tuples (forests.get (N.forest self.now.nav.now)) (map (bind_means (forests.get (N.forest self.now.nav.now))) binds.now) (option_means (forests.get (N.forest self.now.nav.now)) filter.now) (map (key_means (forests.get (N.forest self.now.nav.now))) keys.now)
            (variables_seen (N.place self.now.nav.now) env.old) (context_seen (N.place self.now.nav.now) (option_copied self.now.focus)) (tuples_seen (N.place self.now.nav.now) found) (made_seen made.old)) }
        ensures same { OnOk result (env.new ≡ env.old) }
    {
        let scope = Scope {
            alloc: self.alloc,
            nav: self.nav,
            variables: env.as_slice(),
            focus: self.focus,
        };
        let [first, rest @ ..] = binds else {
            return scope.tuple(filter, keys, found, made);
        };
        let values = scope.bind(first, made)?;
        self.each(rest, filter, keys, env, values.as_slice(), found, made)
    }

    // The tuples with each of the values of a binding in turn.
    #[cycle(eval)]
    fn each(
        &self,
        binds: &[Bind],
        filter: &Option<Boxed<Expr>>,
        keys: &[SortKey],
        env: &mut Bindings,
        values: &[Bindings],
        found: Tuples,
        made: &mut MadeList,
    ) -> Result<Tuples, EvalEnd<N::Fault>>
        ensures gives { Leaves (N.honest self.now.nav.now) (N.passes self.now.nav.now) (tuples_seen (N.place self.now.nav.now)) result (made_seen made.new)
            (tuples.each (forests.get (N.forest self.now.nav.now)) (tuples.tuples (forests.get (N.forest self.now.nav.now)) (map (bind_means (forests.get (N.forest self.now.nav.now))) binds.now) (option_means (forests.get (N.forest self.now.nav.now)) filter.now) (map (key_means (forests.get (N.forest self.now.nav.now))) keys.now))
            (variables_seen (N.place self.now.nav.now) env.old) (context_seen (N.place self.now.nav.now) (option_copied self.now.focus)) (map (variables_seen (N.place self.now.nav.now)) values.now) (tuples_seen (N.place self.now.nav.now) found) (made_seen made.old)) }
        ensures same { OnOk result (env.new ≡ env.old) }
    {
        let mut found = found;
        for value in values {
            found = self.within(binds, filter, keys, env, value.as_slice(), found, made)?;
        }
        Ok(found)
    }

    // The tuples with some more variables.
    #[cycle(eval)]
    fn within(
        &self,
        binds: &[Bind],
        filter: &Option<Boxed<Expr>>,
        keys: &[SortKey],
        env: &mut Bindings,
        value: &[Variable],
        found: Tuples,
        made: &mut MadeList,
    ) -> Result<Tuples, EvalEnd<N::Fault>>
        ensures gives { Leaves (N.honest self.now.nav.now) (N.passes self.now.nav.now) (tuples_seen (N.place self.now.nav.now)) result (made_seen made.new)
            (tuples.tuples (forests.get (N.forest self.now.nav.now)) (map (bind_means (forests.get (N.forest self.now.nav.now))) binds.now) (option_means (forests.get (N.forest self.now.nav.now)) filter.now) (map (key_means (forests.get (N.forest self.now.nav.now))) keys.now)
            (variables_seen (N.place self.now.nav.now) env.old ++ variables_seen (N.place self.now.nav.now) value.now) (context_seen (N.place self.now.nav.now) (option_copied self.now.focus)) (tuples_seen (N.place self.now.nav.now) found) (made_seen made.old)) }
        ensures same { OnOk result (env.new ≡ env.old) }
    {
        let before = env.len();
        bind_more(env, value)?;
        let found = self.tuples(binds, filter, keys, env, found, made)?;
        env.truncate(before);
        Ok(found)
    }

    // What the tuples give, in their order.
    #[cycle(eval)]
    fn returned(
        &self,
        body: &Expr,
        rows: &[Row],
        made: &mut MadeList,
    ) -> Result<Found, EvalEnd<N::Fault>>
        ensures { Leaves (N.honest self.now.nav.now) (N.passes self.now.nav.now) (items_seen (N.place self.now.nav.now)) result (made_seen made.new)
            (in_scope (N.place self.now.nav.now) self.now (λ env cx. tuples.returned (means (forests.get (N.forest self.now.nav.now)) body.now) cx (map (row_seen (N.place self.now.nav.now)) rows.now)) (made_seen made.old)) }
    {
        let mut all = Items::new(self.alloc);
        for row in rows {
            let scope = Scope {
                alloc: self.alloc,
                nav: self.nav,
                variables: row.bindings.as_slice(),
                focus: self.focus,
            };
            let more = scope.eval(body, made)?;
            all.append(more.into_items(self.alloc)?)?;
        }
        Ok(Found::owned(all))
    }

    /// A FLWOR expression.
    #[cycle(eval)]
    pub(crate) fn flwor(
        &self,
        binds: &[Bind],
        filter: &Option<Boxed<Expr>>,
        keys: &[SortKey],
        body: &Expr,
        made: &mut MadeList,
    ) -> Result<Found, EvalEnd<N::Fault>>
        ensures { Leaves (N.honest self.now.nav.now) (N.passes self.now.nav.now) (items_seen (N.place self.now.nav.now)) result (made_seen made.new)
            (in_scope (N.place self.now.nav.now) self.now (spec.value_of (forests.get (N.forest self.now.nav.now)) (Expr-F.Flwor (map (bind_means (forests.get (N.forest self.now.nav.now))) binds.now) (option_means (forests.get (N.forest self.now.nav.now)) filter.now) (map (key_means (forests.get (N.forest self.now.nav.now))) keys.now) (means (forests.get (N.forest self.now.nav.now)) body.now))) (made_seen made.old)) }
    {
        let mut env = copies(self.alloc, self.variables)?;
        let start = no_tuples(self.alloc);
        let found = self.tuples(binds, filter, keys, &mut env, start, made)?;
        let rows = in_key_order(self.alloc, found, keys)?;
        self.returned(body, rows.as_slice(), made)
    }
}
