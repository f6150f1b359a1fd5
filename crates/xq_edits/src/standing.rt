//! What stands at targets.
ghost use Rattle.std.specs.Prelude.{◌≡◌, ◌<◌, IfOk, IfErr, IfSome};
ghost use Rattle.std.specs.FinMap as forests;
ghost use Rattle.std.specs.Option.{option_map};
ghost use Rattle.xml_model.specs.Edits.{standing_at};
ghost use Rattle.xml_model.specs.Nav.{first_of_node, next_of_node, stored_at, told_at, told_of};
ghost use Rattle.xml_model.specs.Place.{attrs_of};
ghost use Rattle.xq_edits.specs.SharedNames.{attribute_name, share_name};
ghost use Rattle.xq_nodes.specs.Answers.{IsFault};

use xml_model::{Attr, Id, Nav, has_attribute};
use xq_ast::{Kind, Str};
use xq_nodes::EvalEnd;

/// The kind of what stands at a node. What stands nowhere is taken for a document.
#[tactic(auto, using(crate::proofs::TargetKinds::kind_there))]
pub(crate) fn kind_at<N: Nav>(nav: &N, n: Id) -> Result<Kind, EvalEnd<N::Fault>>
    ensures gives { IfOk result (λ k. N.honest nav.now → k ≡ (told_of (standing_at (forests.get (N.forest nav.now)) (N.place nav.now n))).kind) }
    ensures fault { IfErr result (IsFault (N.passes nav.now)) }
{
    match nav.kind(n) {
        Ok(kind) => Ok(kind),
        Err(fault) => Err(EvalEnd::Nav(fault)),
    }
}

fn first_of<N: Nav>(nav: &N, n: Id) -> Result<Option<Id>, EvalEnd<N::Fault>>
    ensures gives { IfOk result (λ o. N.honest nav.now → option_map (N.place nav.now) o ≡ first_of_node (N.forest nav.now) (N.place nav.now n)) }
    ensures falls { IfOk result (λ o. IfSome o (λ m. N.number nav.now m < N.number nav.now n)) }
    ensures fault { IfErr result (IsFault (N.passes nav.now)) }
{
    match nav.first(n) {
        Ok(first) => Ok(first),
        Err(fault) => Err(EvalEnd::Nav(fault)),
    }
}

fn next_of<N: Nav>(nav: &N, n: Id) -> Result<Option<Id>, EvalEnd<N::Fault>>
    ensures gives { IfOk result (λ o. N.honest nav.now → option_map (N.place nav.now) o ≡ next_of_node (N.forest nav.now) (N.place nav.now n)) }
    ensures falls { IfOk result (λ o. IfSome o (λ m. N.number nav.now m < N.number nav.now n)) }
    ensures fault { IfErr result (IsFault (N.passes nav.now)) }
{
    match nav.next(n) {
        Ok(next) => Ok(next),
        Err(fault) => Err(EvalEnd::Nav(fault)),
    }
}

fn name_of<N: Nav>(nav: &N, n: Id) -> Result<Str, EvalEnd<N::Fault>>
    ensures gives { IfOk result (λ name. N.honest nav.now → name ≡ (told_at (stored_at (N.forest nav.now) (N.place nav.now n))).name) }
    ensures fault { IfErr result (IsFault (N.passes nav.now)) }
{
    Ok(nav.name(n)?)
}

// The name of an attribute; other nodes have none.
fn attribute_name<N: Nav>(nav: &N, n: Id) -> Result<Option<Str>, EvalEnd<N::Fault>>
    ensures gives { IfOk result (λ name. N.honest nav.now → name ≡ attribute_name (stored_at (N.forest nav.now) (N.place nav.now n))) }
    ensures fault { IfErr result (IsFault (N.passes nav.now)) }
{
    match kind_at(nav, n)? {
        Kind::Attribute => Ok(Some(name_of(nav, n)?)),
        _ => Ok(None),
    }
}

/// Whether an attribute of what stands at a node has the name of one of these attributes. Looks at
/// its attributes and at what stands first after them.
pub(crate) fn shares_name<N: Nav>(nav: &N, attrs: &[Attr], n: Id) -> Result<bool, EvalEnd<N::Fault>>
    ensures gives { IfOk result (λ b. N.honest nav.now → b ≡ share_name (attrs_of (standing_at (forests.get (N.forest nav.now)) (N.place nav.now n))) attrs.now) }
    ensures fault { IfErr result (IsFault (N.passes nav.now)) }
{
    let mut at = first_of(nav, n)?;
    while let Some(m) = at {
        let Some(name) = attribute_name(nav, m)? else {
            return Ok(false);
        };
        if has_attribute(attrs, name.as_str()) {
            return Ok(true);
        }
        at = next_of(nav, m)?;
    }
    Ok(false)
}
