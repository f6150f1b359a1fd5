//! Many lists of nodes joined in document order, as the results of one step from many nodes.
use crate::end::EvalEnd;
use crate::lists::NodeIds;
use crate::runs::{join_last, push_run, rises, settle};
use std::alloc::Global;
use xml_model::Nav;
use xq_ast::Sequence;

/// Nodes that were joined, and whether they are known to be in document order without duplicates.
#[derive(Debug, Drop)]
pub(crate) struct Run {
    pub(crate) nodes: NodeIds,
    pub(crate) rises: bool,
}

/// Lists of nodes that are being joined. Contracts see their union so far (`joined_seen`), and that
/// what is known of their order is right (`IsRight`).
///
/// Lists are kept in runs, each less than half as long as the one before it, so that joining takes
/// n log n steps for n nodes, and n where each list begins behind the end of the one before it.
#[derive(Debug, Drop)]
pub struct Joining {
    pub(crate) runs: Vec<Run>,
}

impl Joining {
    ghost use Rattle.std.specs.Prelude.{◌≡◌, [], IfOk, IfErr, OnOk, map};
    ghost use Rattle.xml_model.specs.DocumentOrder.{union};
    ghost use Rattle.xml_model.specs.Nodes.{node_cmp};
    ghost use Rattle.xml_model.specs.Nav.{Stored};
    ghost use Rattle.xml_model.specs.declared.nav.Id.{Id};
    ghost use Rattle.xq_nodes.specs.Answers.{IsFault};
    ghost use Rattle.xq_nodes.specs.Joins.{joined_seen, IsRight};
    ghost use Rattle.xq_values.specs.Seen.{node_seen};

    /// No lists. Takes no memory.
    pub fn new(alloc: Global) -> Joining
        ensures none { (place : Id → Stored) → joined_seen (node_seen place) result ≡ [] }
        ensures right { (place : Id → Stored) → IsRight (node_seen place) result }
    {
        Joining {
            runs: Vec::new(alloc),
        }
    }

    /// One more list. After an error the joining is to be dropped.
    pub fn push<N: Nav>(&mut self, nav: &N, more: NodeIds) -> Result<(), EvalEnd<N::Fault>>
        ensures joined { OnOk result (N.honest nav.now → IsRight (node_seen (N.place nav.now)) self.old →
            joined_seen (node_seen (N.place nav.now)) self.new ≡ union node_cmp (joined_seen (node_seen (N.place nav.now)) self.old) (map (node_seen (N.place nav.now)) more)) }
        ensures right { OnOk result (N.honest nav.now → IsRight (node_seen (N.place nav.now)) self.old → IsRight (node_seen (N.place nav.now)) self.new) }
        ensures fault { IfErr result (IsFault (N.passes nav.now)) }
    {
        if more.is_empty() {
            return Ok(());
        }
        let rises = rises(nav, more.as_slice())?;
        push_run(&mut self.runs, Run { nodes: more, rises })?;
        settle(nav, &mut self.runs)?;
        Ok(())
    }

    /// The union of all lists.
    pub fn finish<N: Nav>(self, nav: &N) -> Result<NodeIds, EvalEnd<N::Fault>>
        ensures joined { IfOk result (λ all. N.honest nav.now → IsRight (node_seen (N.place nav.now)) self → map (node_seen (N.place nav.now)) all ≡ joined_seen (node_seen (N.place nav.now)) self) }
        ensures fault { IfErr result (IsFault (N.passes nav.now)) }
    {
        let Joining { mut runs } = self;
        let alloc = *runs.allocator();
        'ending: while runs.len() >= 2 {
            join_last(nav, &mut runs)?;
        }
        match runs.pop() {
            Some(run) => Ok(run.nodes),
            None => Ok(Sequence::new(alloc)),
        }
    }
}
