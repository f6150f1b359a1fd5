//! The edits that an update asks for.
ghost use Rattle.std.specs.Prelude.{◌≡◌, [], map, IfOk};
ghost use Rattle.std.specs.FinMap as forests;
ghost use Rattle.xml_model.specs.DocumentOrder.{node_cmp};
ghost use Rattle.xml_model.specs.Edits as spec;
ghost use Rattle.xq_edits.specs.Documents.{AreEditsOf, asked};
ghost use Rattle.xq_edits.specs.Finds.{Finds};
ghost use Rattle.xq_edits.specs.Seen.{change_seen, content_seen, put, removed};
ghost use Rattle.xq_eval.specs.Meanings.{means};
ghost use Rattle.xq_eval.specs.Scopes.{variables_seen};
ghost use Rattle.xq_eval.specs.Updates.{target_expr};
ghost use Rattle.xq_nodes.specs.Answers.{Leaves};
ghost use Rattle.xq_nodes.specs.Joins.{Rises};
ghost use Rattle.xq_values.specs.Seen.{made_seen};

use crate::replace::replacement_of;
use crate::scope::Scope;
use std::alloc::Global;
use xml_model::{DocEditsList, Nav};
use xq_ast::{Expr, Items, Str, Update};
use xq_edits::{
    ChangeList, NewContent, Removal, Side, by_document, insert_beside, insert_into, new_content,
    nodes_alone, remove, rename, targets_of,
};
use xq_nodes::{EvalEnd, IdList};
use xq_values::{MadeList, Variable};

/// The value of an expression as content, where these variables are bound.
pub(crate) fn content_in<'a, N: Nav>(
    alloc: Global,
    nav: &'a N,
    variables: &'a [Variable],
    expr: &Expr,
    made: &mut MadeList,
) -> Result<NewContent, EvalEnd<N::Fault>>
    ensures { Leaves (N.honest nav.now) (N.passes nav.now) content_seen result (made_seen made.new)
        (spec.content (forests.get (N.forest nav.now)) (means (forests.get (N.forest nav.now)) expr.now) (variables_seen (N.place nav.now) variables.now) (made_seen made.old)) }
{
    let scope = Scope {
        alloc,
        nav,
        variables,
        focus: None,
    };
    let found = scope.eval(expr, made)?;
    new_content(alloc, nav, made.as_slice(), found.as_slice())
}

/// The targets that an expression gives, in document order.
pub(crate) fn targets_in<N: Nav>(
    alloc: Global,
    nav: &N,
    expr: &Expr,
    made: &mut MadeList,
) -> Result<IdList, EvalEnd<N::Fault>>
    ensures leaves { Leaves (N.honest nav.now) (N.passes nav.now) (map (N.place nav.now)) result (made_seen made.new)
        (spec.targets (forests.get (N.forest nav.now)) (means (forests.get (N.forest nav.now)) expr.now) (made_seen made.old)) }
    ensures rising { N.honest nav.now → IfOk result (λ targets. Rises node_cmp (map (N.place nav.now) targets)) }
{
    let scope = Scope {
        alloc,
        nav,
        variables: &[],
        focus: None,
    };
    let found = scope.eval(expr, made)?;
    targets_of(alloc, nav, found.as_slice())
}

// What `insert source into target` asks for.
fn insertion_into<N: Nav>(
    alloc: Global,
    nav: &N,
    source: &Expr,
    target: &Expr,
    made: &mut MadeList,
) -> Result<ChangeList, EvalEnd<N::Fault>>
    ensures { Leaves (N.honest nav.now) (N.passes nav.now) (map (change_seen (N.place nav.now))) result (made_seen made.new)
        (spec.insert_into (forests.get (N.forest nav.now)) (means (forests.get (N.forest nav.now)) source.now) (means (forests.get (N.forest nav.now)) target.now) (made_seen made.old)) }
{
    let content = content_in(alloc, nav, &[], source, made)?;
    let targets = targets_in(alloc, nav, target, made)?;
    insert_into(alloc, nav, &content, targets.as_slice())
}

// What `insert source preceding target` asks for, and `insert source following target`.
fn insertion_beside<N: Nav>(
    alloc: Global,
    nav: &N,
    side: Side,
    source: &Expr,
    target: &Expr,
    made: &mut MadeList,
) -> Result<ChangeList, EvalEnd<N::Fault>>
    ensures { Leaves (N.honest nav.now) (N.passes nav.now) (map (change_seen (N.place nav.now))) result (made_seen made.new)
        (spec.insert_beside (forests.get (N.forest nav.now)) (put side) (means (forests.get (N.forest nav.now)) source.now) (means (forests.get (N.forest nav.now)) target.now) (made_seen made.old)) }
{
    let content = content_in(alloc, nav, &[], source, made)?;
    let targets = targets_in(alloc, nav, target, made)?;
    let kids = nodes_alone(content)?;
    insert_beside(alloc, nav, side, &kids, targets.as_slice())
}

// What `delete target` asks for, and `delete_undeep target`.
fn deletion<N: Nav>(
    alloc: Global,
    nav: &N,
    removal: Removal,
    target: &Expr,
    made: &mut MadeList,
) -> Result<ChangeList, EvalEnd<N::Fault>>
    ensures { Leaves (N.honest nav.now) (N.passes nav.now) (map (change_seen (N.place nav.now))) result (made_seen made.new)
        (spec.delete (forests.get (N.forest nav.now)) (removed removal) (means (forests.get (N.forest nav.now)) target.now) (made_seen made.old)) }
{
    let targets = targets_in(alloc, nav, target, made)?;
    remove(alloc, nav, removal, targets.as_slice())
}

// What `rename target on name` asks for.
fn renaming<N: Nav>(
    alloc: Global,
    nav: &N,
    name: &Str,
    target: &Expr,
    made: &mut MadeList,
) -> Result<ChangeList, EvalEnd<N::Fault>>
    ensures { Leaves (N.honest nav.now) (N.passes nav.now) (map (change_seen (N.place nav.now))) result (made_seen made.new)
        (spec.rename (forests.get (N.forest nav.now)) name.now (means (forests.get (N.forest nav.now)) target.now) (made_seen made.old)) }
{
    let targets = targets_in(alloc, nav, target, made)?;
    rename(alloc, nav, name, targets.as_slice())
}

// The changes that an update asks for, in document order.
fn changes<N: Nav>(
    alloc: Global,
    nav: &N,
    what: &Update,
    made: &mut MadeList,
) -> Result<ChangeList, EvalEnd<N::Fault>>
    ensures { Leaves (N.honest nav.now) (N.passes nav.now) (map (change_seen (N.place nav.now))) result (made_seen made.new)
        (spec.changes (forests.get (N.forest nav.now)) what.now (made_seen made.old)) }
{
    match what {
        Update::Into { source, target } => insertion_into(alloc, nav, source, target, made),
        Update::Preceding { source, target } => {
            insertion_beside(alloc, nav, Side::Before, source, target, made)
        }
        Update::Following { source, target } => {
            insertion_beside(alloc, nav, Side::After, source, target, made)
        }
        Update::Delete { target } => deletion(alloc, nav, Removal::Whole, target, made),
        Update::DeleteUndeep { target } => deletion(alloc, nav, Removal::Undeep, target, made),
        Update::Replace { name, target, by } => replacement_of(alloc, nav, name, target, by, made),
        Update::Rename { target, name } => renaming(alloc, nav, name, target, made),
    }
}

// The expression that gives the targets.
fn target_of(what: &Update) -> &Expr
    ensures { result.now ≡ target_expr what.now }
{
    match what {
        Update::Into { target, .. } => target,
        Update::Preceding { target, .. } => target,
        Update::Following { target, .. } => target,
        Update::Delete { target } => target,
        Update::DeleteUndeep { target } => target,
        Update::Replace { target, .. } => target,
        Update::Rename { target, .. } => target,
    }
}

/// The edits that an update asks for: one entry for each document with a target, in the order of
/// the names.
pub fn targets<N: Nav>(
    alloc: Global,
    nav: &N,
    what: &Update,
) -> Result<DocEditsList, EvalEnd<N::Fault>>
    ensures { Finds (N.honest nav.now) (N.passes nav.now) (AreEditsOf (N.place nav.now)) result (asked (N.forest nav.now) what.now) }
{
    let mut made = Items::new(alloc);
    let found = changes(alloc, nav, what, &mut made)?;
    let names = target_of(what).documents(alloc)?;
    by_document(alloc, nav, &names, found)
}
