//! Queries over the documents that they name.
ghost use Rattle.std.specs.Prelude.{◌≡◌, IfOk, IsTrue};
ghost use Rattle.session_core.specs.History.Transactions.{says_of};
ghost use Rattle.session_run.specs.Calls.{HasPlainLines};
ghost use Rattle.session_run.specs.Effects.{AreValidChanges, IsEffect};
ghost use Rattle.xml_model.specs.Statement.{query_answer};
ghost use Rattle.xq_ast.specs.GoodNames.{are_good_in};

use crate::statement::{Effect, unchanged};
use session_core::Says;
use std::alloc::Global;
use xml_model::{DocChanges, DocMap, TreeNav, needs};
use xq_ast::{Call, Expr, NoMemory};
use xq_nodes::EvalEnd;

// What a query says of these documents.
fn answer_of(alloc: Global, docs: &DocMap, expr: &Expr) -> Result<Says, NoMemory>
    requires named { IsTrue (are_good_in expr.now) }
    ensures says { IfOk result (λ says. says ≡ says_of (query_answer docs.now expr.now)) }
    ensures plain { IfOk result HasPlainLines }
{
    let nav = TreeNav::of(docs)?;
    match xq_eval::query(alloc, &nav, expr) {
        Ok(lines) => Ok(Says::Lines(lines)),
        Err(EvalEnd::Code(code)) => Ok(Says::Error(code)),
        Err(EvalEnd::Nav(fault)) => match fault {},
        Err(EvalEnd::NoMemory) => Err(NoMemory),
    }
}

/// What a query says over these documents with the changes laid over them. It is handed the
/// documents that it names, and no others. It changes nothing.
pub(crate) fn query(
    alloc: Global,
    base: &DocMap,
    changes: &DocChanges,
    call: &Call,
    expr: &Expr,
) -> Result<Effect, NoMemory>
    requires call { call.now ≡ Call.Query expr.now }
    requires named { IsTrue (are_good_in expr.now) }
    ensures effect { IfOk result (IsEffect call.now changes.now.changes base.now) }
    ensures valid { IfOk result (λ effect. AreValidChanges effect.changes) }
    ensures plain { IfOk result (λ effect. HasPlainLines effect.says) }
{
    let needed = needs(alloc, call)?;
    let docs = base.needed(changes, &needed)?;
    Ok(unchanged(alloc, answer_of(alloc, &docs, expr)?))
}
