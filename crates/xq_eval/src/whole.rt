//! Evaluation of whole queries.
ghost use Rattle.std.specs.FinMap as forests;
ghost use Rattle.xml_model.specs.Evaluation as spec;
ghost use Rattle.xml_model.specs.Statement.{query_answer};
ghost use Rattle.xq_functions.specs.Says.{Says};
ghost use Rattle.xq_nodes.specs.Answers.{Looks};
ghost use Rattle.xq_eval.specs.Queries.{value_seen};

use crate::scope::Scope;
use std::alloc::Global;
use xml_model::Nav;
use xq_ast::{Expr, Items, StrList};
use xq_functions::item_lines;
use xq_nodes::EvalEnd;
use xq_values::{ItemList, MadeList};

/// What an expression gives: its items, and the trees that it constructed.
#[derive(Debug, Drop)]
pub struct Value {
    pub items: ItemList,
    pub made: MadeList,
}

/// What an expression means by itself: no variable is bound, and there is no context.
pub fn eval<N: Nav>(alloc: Global, nav: &N, expr: &Expr) -> Result<Value, EvalEnd<N::Fault>>
    ensures { Looks (N.honest nav.now) (N.passes nav.now) (value_seen (N.place nav.now)) result (spec.eval (N.forest nav.now) expr.now) }
{
    let mut made = Items::new(alloc);
    let scope = Scope {
        alloc,
        nav,
        variables: &[],
        focus: None,
    };
    let found = scope.eval(expr, &mut made)?;
    let items = found.into_items(alloc)?;
    Ok(Value { items, made })
}

/// What a query says: the lines of its items, or its code.
pub fn query<N: Nav>(alloc: Global, nav: &N, expr: &Expr) -> Result<StrList, EvalEnd<N::Fault>>
    ensures { Says (N.honest nav.now) (N.passes nav.now) result (query_answer (N.forest nav.now) expr.now) }
{
    let value = eval(alloc, nav, expr)?;
    item_lines(alloc, nav, value.made.as_slice(), value.items.as_slice())
}
