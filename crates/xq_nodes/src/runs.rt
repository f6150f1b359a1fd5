//! Runs: lists of nodes that were joined, and what is known of their order.
ghost use Rattle.std.specs.Prelude.{◌≡◌, ◌&&◌, ◌<◌, ◌≤◌, ◌+◌, ◌++◌, [], ◌∷◌, true, IfOk, IfErr, OnOk, length, map, vec_len};
ghost use Rattle.xml_model.specs.DocumentOrder.{union};
ghost use Rattle.xml_model.specs.Nodes.{node_cmp};
ghost use Rattle.std.specs.declared.cmp.Ordering.TheVariants.{Less};
ghost use Rattle.xq_nodes.specs.Answers.{IsFault};
ghost use Rattle.xq_nodes.specs.Joins as spec;
ghost use Rattle.xq_values.specs.Seen.{node_seen};

use crate::end::EvalEnd;
use crate::joining::Run;
use crate::lists::{NodeIds, move_all, united_lists};
use crate::order::order_of_nodes;
use std::cmp::Ordering;
use std::collections::VecDeque;
use xml_model::Nav;
use xq_ast::NoMemory;
use xq_values::NodeId;

fn is_before<N: Nav>(nav: &N, a: &NodeId, b: &NodeId) -> Result<bool, EvalEnd<N::Fault>>
    ensures gives { IfOk result (λ is. N.honest nav.now → is ≡ true → node_cmp (node_seen (N.place nav.now) a.now) (node_seen (N.place nav.now) b.now) ≡ Less) }
    ensures fault { IfErr result (IsFault (N.passes nav.now)) }
{
    match order_of_nodes(nav, a, b)? {
        Ordering::Less => Ok(true),
        Ordering::Equal => Ok(false),
        Ordering::Greater => Ok(false),
    }
}

// Whether each node is before the next one.
pub(crate) fn rises<N: Nav>(nav: &N, nodes: &[NodeId]) -> Result<bool, EvalEnd<N::Fault>>
    ensures gives { IfOk result (λ is. N.honest nav.now → is ≡ true → spec.Rises node_cmp (map (node_seen (N.place nav.now)) nodes.now)) }
    ensures fault { IfErr result (IsFault (N.passes nav.now)) }
{
    let mut left = nodes;
    'rising: while let [x, rest @ ..] = left {
        let [y, ..] = rest else {
            return Ok(true);
        };
        if !is_before(nav, x, y)? {
            return Ok(false);
        }
        left = rest;
    }
    Ok(true)
}

fn ends_before<N: Nav>(nav: &N, a: &[NodeId], b: &[NodeId]) -> Result<bool, EvalEnd<N::Fault>>
    ensures gives { IfOk result (λ is. N.honest nav.now → is ≡ true → spec.EndsBefore (node_seen (N.place nav.now)) a.now b.now) }
    ensures fault { IfErr result (IsFault (N.passes nav.now)) }
{
    let Some(last) = a.last() else {
        return Ok(false);
    };
    let Some(first) = b.first() else {
        return Ok(false);
    };
    is_before(nav, last, first)
}

// Whether both are known to be in order and the second begins behind the end of the first.
fn goes_before<N: Nav>(nav: &N, a: &Run, b: &Run) -> Result<bool, EvalEnd<N::Fault>>
    ensures gives { IfOk result (λ is. N.honest nav.now → is ≡ true →
        (a.now.rises ≡ true) × (b.now.rises ≡ true) × spec.EndsBefore (node_seen (N.place nav.now)) a.now.nodes b.now.nodes) }
    ensures fault { IfErr result (IsFault (N.passes nav.now)) }
{
    if !a.rises {
        return Ok(false);
    }
    if !b.rises {
        return Ok(false);
    }
    ends_before(nav, a.nodes.as_slice(), b.nodes.as_slice())
}

fn appended(nodes: NodeIds, more: NodeIds) -> Result<NodeIds, NoMemory>
    ensures { IfOk result (λ all. all ≡ nodes ++ more) }
{
    let mut all = nodes;
    move_all(&mut all, VecDeque::from_vec(more.into_vec()))?;
    Ok(all)
}

fn both(a: bool, b: bool) -> bool
    ensures { result ≡ (a && b) }
{
    a && b
}

// Two runs as one, by a walk along both.
fn united_run<N: Nav>(nav: &N, a: Run, b: Run) -> Result<Run, EvalEnd<N::Fault>>
    ensures gives { IfOk result (λ run. N.honest nav.now → spec.nodes_of (node_seen (N.place nav.now)) run ≡ union node_cmp (spec.nodes_of (node_seen (N.place nav.now)) a) (spec.nodes_of (node_seen (N.place nav.now)) b)) }
    ensures marked { IfOk result (λ run. N.honest nav.now → spec.IsMarked (node_seen (N.place nav.now)) a → spec.IsMarked (node_seen (N.place nav.now)) b → spec.IsMarked (node_seen (N.place nav.now)) run) }
    ensures fault { IfErr result (IsFault (N.passes nav.now)) }
{
    let alloc = a.nodes.allocator();
    let rises = both(a.rises, b.rises);
    Ok(Run {
        nodes: united_lists(alloc, nav, a.nodes, b.nodes)?,
        rises,
    })
}

// Two runs as one.
fn joined_run<N: Nav>(nav: &N, a: Run, b: Run) -> Result<Run, EvalEnd<N::Fault>>
    ensures gives { IfOk result (λ run. N.honest nav.now → spec.IsMarked (node_seen (N.place nav.now)) a → spec.IsMarked (node_seen (N.place nav.now)) b →
        spec.nodes_of (node_seen (N.place nav.now)) run ≡ union node_cmp (spec.nodes_of (node_seen (N.place nav.now)) a) (spec.nodes_of (node_seen (N.place nav.now)) b)) }
    ensures marked { IfOk result (λ run. N.honest nav.now → spec.IsMarked (node_seen (N.place nav.now)) a → spec.IsMarked (node_seen (N.place nav.now)) b → spec.IsMarked (node_seen (N.place nav.now)) run) }
    ensures fault { IfErr result (IsFault (N.passes nav.now)) }
{
    if goes_before(nav, &a, &b)? {
        return Ok(Run {
            nodes: appended(a.nodes, b.nodes)?,
            rises: true,
        });
    }
    united_run(nav, a, b)
}

// Whether the last two runs are to be joined: the last is more than half as long as the one before
// it, or begins behind its end.
fn should_join<N: Nav>(nav: &N, runs: &[Run]) -> Result<bool, EvalEnd<N::Fault>>
    ensures two { IfOk result (λ is. is ≡ true → 2 ≤ length runs.now) }
    ensures fault { IfErr result (IsFault (N.passes nav.now)) }
{
    let [.., a, b] = runs else {
        return Ok(false);
    };
    if a.nodes.len() / 2 < b.nodes.len() {
        return Ok(true);
    }
    goes_before(nav, a, b)
}

pub(crate) fn push_run(runs: &mut Vec<Run>, run: Run) -> Result<(), NoMemory>
    ensures items { OnOk result (runs.new.items ≡ runs.old.items ++ run ∷ []) }
    ensures len { OnOk result (vec_len runs.new ≡ vec_len runs.old + 1) }
{
    runs.push(run)?;
    Ok(())
}

// Joins the last two runs.
pub(crate) fn join_last<N: Nav>(nav: &N, runs: &mut Vec<Run>) -> Result<(), EvalEnd<N::Fault>>
    requires { 2 ≤ vec_len runs.old }
    ensures gives { OnOk result (N.honest nav.now → spec.AreMarked (node_seen (N.place nav.now)) runs.old.items →
        spec.join_runs (node_seen (N.place nav.now)) runs.new.items ≡ spec.join_runs (node_seen (N.place nav.now)) runs.old.items) }
    ensures marked { OnOk result (N.honest nav.now → spec.AreMarked (node_seen (N.place nav.now)) runs.old.items → spec.AreMarked (node_seen (N.place nav.now)) runs.new.items) }
    ensures fewer { OnOk result (vec_len runs.new < vec_len runs.old) }
    ensures fault { IfErr result (IsFault (N.passes nav.now)) }
{
    let Some(b) = runs.pop() else {
        return Ok(());
    };
    let Some(a) = runs.pop() else {
        return Ok(());
    };
    let run = joined_run(nav, a, b)?;
    Ok(push_run(runs, run)?)
}

// Joins runs from the end as long as they are to be joined.
pub(crate) fn settle<N: Nav>(nav: &N, runs: &mut Vec<Run>) -> Result<(), EvalEnd<N::Fault>>
    ensures gives { OnOk result (N.honest nav.now → spec.AreMarked (node_seen (N.place nav.now)) runs.old.items →
        spec.join_runs (node_seen (N.place nav.now)) runs.new.items ≡ spec.join_runs (node_seen (N.place nav.now)) runs.old.items) }
    ensures marked { OnOk result (N.honest nav.now → spec.AreMarked (node_seen (N.place nav.now)) runs.old.items → spec.AreMarked (node_seen (N.place nav.now)) runs.new.items) }
    ensures fault { IfErr result (IsFault (N.passes nav.now)) }
{
    'settling: loop {
        if !should_join(nav, runs.as_slice())? {
            return Ok(());
        }
        join_last(nav, runs)?;
    }
}
