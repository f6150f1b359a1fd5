//! The calls of a `Nav`, each of whose faults is an end of evaluation.
ghost use Rattle.std.specs.Prelude.{◌≡◌, ◌<◌, IfOk, IfErr, IfSome};
ghost use Rattle.std.specs.Option.{option_map};
ghost use Rattle.xml_model.specs.DocumentOrder.{node_cmp};
ghost use Rattle.xml_model.specs.Nav.{first_of_node, next_of_node, parent_of_node, stored_at, told_at};
ghost use Rattle.xml_model.specs.NavFaults.{Passes};

use std::cmp::Ordering;
use xml_model::{Id, Nav, NavEnd};
use xq_ast::Kind;

pub(crate) fn first_of<N: Nav>(nav: &N, n: Id) -> Result<Option<Id>, NavEnd<N::Fault>>
    ensures gives { N.honest nav.now → IfOk result (λ o. option_map (N.place nav.now) o ≡ first_of_node (N.forest nav.now) (N.place nav.now n)) }
    ensures falls { IfOk result (λ o. IfSome o (λ m. N.number nav.now m < N.number nav.now n)) }
    ensures fault { IfErr result (Passes (N.passes nav.now)) }
{
    match nav.first(n) {
        Ok(first) => Ok(first),
        Err(fault) => Err(NavEnd::Nav(fault)),
    }
}

pub(crate) fn next_of<N: Nav>(nav: &N, n: Id) -> Result<Option<Id>, NavEnd<N::Fault>>
    ensures gives { N.honest nav.now → IfOk result (λ o. option_map (N.place nav.now) o ≡ next_of_node (N.forest nav.now) (N.place nav.now n)) }
    ensures falls { IfOk result (λ o. IfSome o (λ m. N.number nav.now m < N.number nav.now n)) }
    ensures fault { IfErr result (Passes (N.passes nav.now)) }
{
    match nav.next(n) {
        Ok(next) => Ok(next),
        Err(fault) => Err(NavEnd::Nav(fault)),
    }
}

pub(crate) fn parent_of<N: Nav>(nav: &N, n: Id) -> Result<Option<Id>, NavEnd<N::Fault>>
    ensures gives { N.honest nav.now → IfOk result (λ o. option_map (N.place nav.now) o ≡ parent_of_node (N.forest nav.now) (N.place nav.now n)) }
    ensures fault { IfErr result (Passes (N.passes nav.now)) }
{
    match nav.parent(n) {
        Ok(parent) => Ok(parent),
        Err(fault) => Err(NavEnd::Nav(fault)),
    }
}

pub(crate) fn kind_of<N: Nav>(nav: &N, n: Id) -> Result<Kind, NavEnd<N::Fault>>
    ensures gives { N.honest nav.now → IfOk result (λ k. k ≡ (told_at (stored_at (N.forest nav.now) (N.place nav.now n))).kind) }
    ensures fault { IfErr result (Passes (N.passes nav.now)) }
{
    match nav.kind(n) {
        Ok(kind) => Ok(kind),
        Err(fault) => Err(NavEnd::Nav(fault)),
    }
}

pub(crate) fn order_of<N: Nav>(nav: &N, a: Id, b: Id) -> Result<Ordering, NavEnd<N::Fault>>
    ensures gives { N.honest nav.now → IfOk result (λ o. o ≡ node_cmp (N.place nav.now a) (N.place nav.now b)) }
    ensures fault { IfErr result (Passes (N.passes nav.now)) }
{
    match nav.order(a, b) {
        Ok(order) => Ok(order),
        Err(fault) => Err(NavEnd::Nav(fault)),
    }
}
