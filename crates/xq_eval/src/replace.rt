//! What `replace` asks for: each target in turn is bound to the variable, and the expression that
//! gives its replacement is evaluated.
ghost use Rattle.std.specs.Prelude.{◌≡◌, [], ◌∷◌, ◌++◌, map, IfOk};
ghost use Rattle.std.specs.FinMap as forests;
ghost use Rattle.xml_model.specs.DocumentOrder.{node_cmp};
ghost use Rattle.xml_model.specs.Edits as spec;
ghost use Rattle.xq_edits.specs.Seen.{change_seen};
ghost use Rattle.xq_edits.specs.Turns.{AreOutermost, nodes_of};
ghost use Rattle.xq_eval.specs.Bound.{variable_of};
ghost use Rattle.xq_eval.specs.Meanings.{means};
ghost use Rattle.xq_nodes.specs.Answers.{Leaves};
ghost use Rattle.xq_nodes.specs.Joins.{Rises};
ghost use Rattle.xq_values.specs.Seen.{made_seen};

use crate::bound::{shared_name, with_item};
use crate::update::{content_in, targets_in};
use std::alloc::Global;
use xml_model::{EditKind, Id, Nav, SharedText};
use xq_ast::{Expr, NoMemory, Sequence, Str};
use xq_edits::{Change, ChangeList, may_replace, replacement};
use xq_nodes::EvalEnd;
use xq_values::{Bindings, Item, MadeList, NodeId};

// By what targets are replaced: by the value of the expression, with the variable bound to each.
#[derive(Drop)]
struct Replacing<'a, N> {
    alloc: Global,
    nav: &'a N,
    name: SharedText,
    by: &'a Expr,
}

impl<'a, N: Nav> Replacing<'a, N> {
    // The variable, bound to the target.
    fn bound(&self, target: Id) -> Result<Bindings, NoMemory>
        ensures { IfOk result (λ all. all ≡ variable_of self.now.name (Item.Node (NodeId.Stored target) ∷ []) ∷ []) }
    {
        let id = NodeId::Stored { id: target };
        let mut all = Sequence::new(self.alloc);
        all.push(with_item(self.alloc, &self.name, Item::Node { id })?)?;
        Ok(all)
    }

    // What is done to a target after these changes and before these targets.
    fn replaced(
        &self,
        done: &[Change],
        target: Id,
        more: &[Id],
        made: &mut MadeList,
    ) -> Result<EditKind, EvalEnd<N::Fault>>
        requires rising { N.honest self.now.nav.now → Rises node_cmp (nodes_of (map (change_seen (N.place self.now.nav.now)) done.now) ++ N.place self.now.nav.now target ∷ map (N.place self.now.nav.now) more.now) }
        requires apart { N.honest self.now.nav.now → AreOutermost [] (map (change_seen (N.place self.now.nav.now)) done.now) }
        ensures { Leaves (N.honest self.now.nav.now) (N.passes self.now.nav.now) (λ what. what) result (made_seen made.new)
            (spec.replaced (forests.get (N.forest self.now.nav.now)) self.now.name (means (forests.get (N.forest self.now.nav.now)) self.now.by.now) (map (change_seen (N.place self.now.nav.now)) done.now) (N.place self.now.nav.now target) (map (N.place self.now.nav.now) more.now) (made_seen made.old)) }
    {
        may_replace(self.nav, done, target)?;
        let variables = self.bound(target)?;
        let content = content_in(self.alloc, self.nav, variables.as_slice(), self.by, made)?;
        replacement(self.alloc, self.nav, done, target, content, more)
    }

    // What is done to each target.
    fn each(&self, targets: &[Id], made: &mut MadeList) -> Result<ChangeList, EvalEnd<N::Fault>>
        requires { N.honest self.now.nav.now → Rises node_cmp (map (N.place self.now.nav.now) targets.now) }
        ensures { Leaves (N.honest self.now.nav.now) (N.passes self.now.nav.now) (map (change_seen (N.place self.now.nav.now))) result (made_seen made.new)
            (spec.each (forests.get (N.forest self.now.nav.now)) (spec.replaced (forests.get (N.forest self.now.nav.now)) self.now.name (means (forests.get (N.forest self.now.nav.now)) self.now.by.now)) [] (map (N.place self.now.nav.now) targets.now) (made_seen made.old)) }
    {
        let mut done = Sequence::new(self.alloc);
        let mut rest = targets;
        while let [target, more @ ..] = rest {
            let what = self.replaced(done.as_slice(), *target, more, made)?;
            let node = *target;
            done.push(Change { node, what })?;
            rest = more;
        }
        Ok(done)
    }
}

/// What `replace $name in target with by` asks for.
pub(crate) fn replacement_of<N: Nav>(
    alloc: Global,
    nav: &N,
    name: &Str,
    target: &Expr,
    by: &Expr,
    made: &mut MadeList,
) -> Result<ChangeList, EvalEnd<N::Fault>>
    ensures { Leaves (N.honest nav.now) (N.passes nav.now) (map (change_seen (N.place nav.now))) result (made_seen made.new)
        (spec.replace (forests.get (N.forest nav.now)) name.now (means (forests.get (N.forest nav.now)) target.now) (means (forests.get (N.forest nav.now)) by.now) (made_seen made.old)) }
{
    let targets = targets_in(alloc, nav, target, made)?;
    let name = shared_name(alloc, name)?;
    let replacing = Replacing {
        alloc,
        nav,
        name,
        by,
    };
    replacing.each(targets.as_slice(), made)
}
