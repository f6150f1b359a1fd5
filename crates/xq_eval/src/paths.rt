//! Paths.
ghost use Rattle.std.specs.Prelude.{◌≡◌, [], map, IfOk};
ghost use Rattle.std.specs.FinMap as forests;
ghost use Rattle.xq_values.specs.Seen.{made_seen};
ghost use Rattle.xq_nodes.specs.Answers.{Leaves};
ghost use Rattle.xq_eval.specs.Scopes.{in_scope};
ghost use Rattle.xml_model.specs.Evaluation as spec;
ghost use Rattle.xml_model.specs.Items.{node};
ghost use Rattle.xml_model.specs.Nav.{Stored};
ghost use Rattle.xml_model.specs.declared.nav.Id.{Id};
ghost use Rattle.xq_ast.specs.declared.tree.Bind.TheOpen.{Expr-F};
ghost use Rattle.xq_nodes.specs.Answers.{Looks};
ghost use Rattle.xq_values.specs.Seen.{node_seen};
ghost use Rattle.xq_eval.specs.NodesAmong.{ids_among};
ghost use Rattle.xq_eval.specs.Paths as steps;
ghost use Rattle.xq_values.specs.declared.item.Item.TheVariants.{Node};
ghost use Rattle.xq_eval.specs.Meanings.{means, start_means, step_means};
ghost use Rattle.xq_eval.specs.Scopes.{items_seen, without_trees};

use crate::found::Found;
use crate::scope::Scope;
use crate::values::context_node;
use std::alloc::Global;
use xml_model::Nav;
use xq_ast::{Axis, Code, Expr, NoMemory, Sequence, Start, Step, Test};
use xq_functions::{node_items, nodes_or};
use xq_nodes::{EvalEnd, Joining, NodeIds, tested};
use xq_values::{Item, MadeList, MadeRoot, NodeId};

fn found_nodes(alloc: Global, nodes: NodeIds) -> Result<Found, NoMemory>
    ensures { (place : Id → Stored) → IfOk result (λ all. items_seen place all ≡ map node (map (node_seen place) nodes)) }
{
    Ok(Found::owned(node_items(alloc, nodes)?))
}

// Nodes as items.
fn entries(alloc: Global, nodes: &[NodeId]) -> Result<Sequence<Item>, NoMemory>
    ensures { IfOk result (λ items. items ≡ map Node nodes.now) }
{
    let mut items = Sequence::new(alloc);
    for id in nodes {
        items.push(Item::Node { id: id.copy()? })?;
    }
    Ok(items)
}

// The nodes among items.
fn nodes_among(alloc: Global, items: &[Item]) -> Result<NodeIds, NoMemory>
    ensures { IfOk result (λ nodes. nodes ≡ ids_among items.now) }
{
    let mut nodes = Sequence::new(alloc);
    for item in items {
        if let Item::Node { id } = item {
            nodes.push(id.copy()?)?;
        }
    }
    Ok(nodes)
}

// Where an axis leads from each of the nodes, tested, in document order, each once.
fn tested_each<N: Nav>(
    alloc: Global,
    nav: &N,
    made: &[MadeRoot],
    axis: Axis,
    test: &Test,
    nodes: &[NodeId],
) -> Result<NodeIds, EvalEnd<N::Fault>>
    ensures { Looks (N.honest nav.now) (N.passes nav.now) (map (node_seen (N.place nav.now))) result
        (without_trees (steps.tested_each (forests.get (N.forest nav.now)) axis test.now (map (node_seen (N.place nav.now)) nodes.now) (made_seen made.now))) }
{
    let mut joining = Joining::new(alloc);
    for n in nodes {
        let more = tested(alloc, nav, made, axis, test, n)?;
        joining.push(nav, more)?;
    }
    joining.finish(nav)
}

// Whether a step takes all children that pass its test.
fn takes_children(step: &Step) -> bool
    ensures { result ≡ steps.takes_children step.now }
{
    match step.axis {
        Axis::Child => step.preds.is_empty(),
        Axis::Descendant => false,
        Axis::DescendantOrSelf => false,
        Axis::Itself => false,
        Axis::Attribute => false,
        Axis::Parent => false,
    }
}

impl<'a, N: Nav> Scope<'a, N> {
    // Where a step leads from a node.
    #[cycle(eval)]
    fn from_node(
        &self,
        step: &Step,
        n: &NodeId,
        made: &mut MadeList,
    ) -> Result<NodeIds, EvalEnd<N::Fault>>
        ensures { Leaves (N.honest self.now.nav.now) (N.passes self.now.nav.now) (map (node_seen (N.place self.now.nav.now))) result (made_seen made.new)
            (in_scope (N.place self.now.nav.now) self.now (λ env cx. (step_means (forests.get (N.forest self.now.nav.now)) step.now).from_node env (node_seen (N.place self.now.nav.now) n.now)) (made_seen made.old)) }
    {
        let nodes = tested(
            self.alloc,
            self.nav,
            made.as_slice(),
            step.axis,
            &step.test,
            n,
        )?;
        if step.preds.is_empty() {
            return Ok(nodes);
        }
        let items = entries(self.alloc, nodes.as_slice())?;
        let left = self.filtered(step.preds.as_slice(), items, made)?;
        Ok(nodes_among(self.alloc, left.as_slice())?)
    }

    // Where a step leads from each of the nodes, in document order, each once.
    #[cycle(eval)]
    fn from_each(
        &self,
        step: &Step,
        nodes: &[NodeId],
        made: &mut MadeList,
    ) -> Result<NodeIds, EvalEnd<N::Fault>>
        ensures { Leaves (N.honest self.now.nav.now) (N.passes self.now.nav.now) (map (node_seen (N.place self.now.nav.now))) result (made_seen made.new)
            (in_scope (N.place self.now.nav.now) self.now (λ env cx. spec.from_each ((step_means (forests.get (N.forest self.now.nav.now)) step.now).from_node env) [] (map (node_seen (N.place self.now.nav.now)) nodes.now)) (made_seen made.old)) }
    {
        let mut joining = Joining::new(self.alloc);
        for n in nodes {
            let more = self.from_node(step, n, made)?;
            joining.push(self.nav, more)?;
        }
        Ok(joining.finish(self.nav)?)
    }

    // A step from nodes.
    #[cycle(eval)]
    fn stepped(
        &self,
        step: &Step,
        nodes: NodeIds,
        made: &mut MadeList,
    ) -> Result<NodeIds, EvalEnd<N::Fault>>
        ensures { Leaves (N.honest self.now.nav.now) (N.passes self.now.nav.now) (map (node_seen (N.place self.now.nav.now))) result (made_seen made.new)
            (in_scope (N.place self.now.nav.now) self.now (λ env cx. spec.stepped (forests.get (N.forest self.now.nav.now)) (step_means (forests.get (N.forest self.now.nav.now)) step.now) env (map (node_seen (N.place self.now.nav.now)) nodes)) (made_seen made.old)) }
    {
        if !step.deep {
            return self.from_each(step, nodes.as_slice(), made);
        }
        // The children of the nodes and of all below them are what stands below the nodes.
        if takes_children(step) {
            return tested_each(
                self.alloc,
                self.nav,
                made.as_slice(),
                Axis::Descendant,
                &step.test,
                nodes.as_slice(),
            );
        }
        let all = tested_each(
            self.alloc,
            self.nav,
            made.as_slice(),
            Axis::DescendantOrSelf,
            &Test::AnyNode,
            nodes.as_slice(),
        )?;
        self.from_each(step, all.as_slice(), made)
    }

    // Steps one after another, each from nodes.
    #[cycle(eval)]
    fn path_from(
        &self,
        steps: &[Step],
        found: Found,
        made: &mut MadeList,
    ) -> Result<Found, EvalEnd<N::Fault>>
        ensures { Leaves (N.honest self.now.nav.now) (N.passes self.now.nav.now) (items_seen (N.place self.now.nav.now)) result (made_seen made.new)
            (in_scope (N.place self.now.nav.now) self.now (λ env cx. spec.path_from (forests.get (N.forest self.now.nav.now)) (map (step_means (forests.get (N.forest self.now.nav.now))) steps.now) env (items_seen (N.place self.now.nav.now) found)) (made_seen made.old)) }
    {
        let mut found = found;
        for step in steps {
            let nodes = nodes_or(self.alloc, Code::XPTY0019, found.as_slice())?;
            let left = self.stepped(step, nodes, made)?;
            found = found_nodes(self.alloc, left)?;
        }
        Ok(found)
    }

    // A step from the context item.
    #[cycle(eval)]
    fn first_step(&self, step: &Step, made: &mut MadeList) -> Result<Found, EvalEnd<N::Fault>>
        ensures { Leaves (N.honest self.now.nav.now) (N.passes self.now.nav.now) (items_seen (N.place self.now.nav.now)) result (made_seen made.new)
            (in_scope (N.place self.now.nav.now) self.now (spec.first_step (forests.get (N.forest self.now.nav.now)) (step_means (forests.get (N.forest self.now.nav.now)) step.now)) (made_seen made.old)) }
    {
        let nodes = context_node(self.alloc, self.focus)?;
        let left = self.stepped(step, nodes, made)?;
        Ok(found_nodes(self.alloc, left)?)
    }

    // What a path begins with.
    #[cycle(eval)]
    fn start(&self, start: &Start, made: &mut MadeList) -> Result<Found, EvalEnd<N::Fault>>
        ensures { Leaves (N.honest self.now.nav.now) (N.passes self.now.nav.now) (items_seen (N.place self.now.nav.now)) result (made_seen made.new)
            (in_scope (N.place self.now.nav.now) self.now (start_means (forests.get (N.forest self.now.nav.now)) start.now) (made_seen made.old)) }
    {
        match start {
            Start::Value { inner } => self.eval(inner.get(), made),
            Start::First { step } => self.first_step(step, made),
        }
    }

    /// A path.
    #[cycle(eval)]
    pub(crate) fn path(
        &self,
        start: &Start,
        rest: &[Step],
        made: &mut MadeList,
    ) -> Result<Found, EvalEnd<N::Fault>>
        ensures { Leaves (N.honest self.now.nav.now) (N.passes self.now.nav.now) (items_seen (N.place self.now.nav.now)) result (made_seen made.new)
            (in_scope (N.place self.now.nav.now) self.now (spec.value_of (forests.get (N.forest self.now.nav.now)) (Expr-F.Path (start_means (forests.get (N.forest self.now.nav.now)) start.now) (map (step_means (forests.get (N.forest self.now.nav.now))) rest.now))) (made_seen made.old)) }
    {
        let found = self.start(start, made)?;
        self.path_from(rest, found, made)
    }
}
