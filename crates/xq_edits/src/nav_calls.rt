//! The calls of a `Nav` that the tests of targets make, each of whose faults is an end of evaluation.
ghost use Rattle.std.specs.Prelude.{◌≡◌, ◌<◌, IfOk, IfErr, IfSome};
ghost use Rattle.std.specs.Option.{option_map};
ghost use Rattle.xml_model.specs.DocumentOrder.{node_cmp};
ghost use Rattle.xml_model.specs.Nav.{parent_of_node, stored_at, told_at};
ghost use Rattle.xq_edits.specs.Kinds.{is_of_documents};
ghost use Rattle.xq_nodes.specs.Answers.{IsFault};

use std::cmp::Ordering;
use xml_model::{Id, Nav};
use xq_ast::Kind;
use xq_nodes::EvalEnd;

pub(crate) fn parent_of<N: Nav>(nav: &N, n: Id) -> Result<Option<Id>, EvalEnd<N::Fault>>
    ensures gives { IfOk result (λ o. N.honest nav.now → option_map (N.place nav.now) o ≡ parent_of_node (N.forest nav.now) (N.place nav.now n)) }
    ensures rises { IfOk result (λ o. IfSome o (λ m. N.number nav.now n < N.number nav.now m)) }
    ensures fault { IfErr result (IsFault (N.passes nav.now)) }
{
    match nav.parent(n) {
        Ok(parent) => Ok(parent),
        Err(fault) => Err(EvalEnd::Nav(fault)),
    }
}

pub(crate) fn kind_of<N: Nav>(nav: &N, n: Id) -> Result<Kind, EvalEnd<N::Fault>>
    ensures gives { IfOk result (λ k. N.honest nav.now → k ≡ (told_at (stored_at (N.forest nav.now) (N.place nav.now n))).kind) }
    ensures fault { IfErr result (IsFault (N.passes nav.now)) }
{
    match nav.kind(n) {
        Ok(kind) => Ok(kind),
        Err(fault) => Err(EvalEnd::Nav(fault)),
    }
}

pub(crate) fn order_of<N: Nav>(nav: &N, a: Id, b: Id) -> Result<Ordering, EvalEnd<N::Fault>>
    ensures gives { IfOk result (λ o. N.honest nav.now → o ≡ node_cmp (N.place nav.now a) (N.place nav.now b)) }
    ensures fault { IfErr result (IsFault (N.passes nav.now)) }
{
    match nav.order(a, b) {
        Ok(order) => Ok(order),
        Err(fault) => Err(EvalEnd::Nav(fault)),
    }
}

pub(crate) fn is_document<N: Nav>(nav: &N, n: Id) -> Result<bool, EvalEnd<N::Fault>>
    ensures gives { IfOk result (λ is. N.honest nav.now → is ≡ is_of_documents (told_at (stored_at (N.forest nav.now) (N.place nav.now n))).kind) }
    ensures fault { IfErr result (IsFault (N.passes nav.now)) }
{
    Ok(kind_of(nav, n)? == Kind::Document)
}
