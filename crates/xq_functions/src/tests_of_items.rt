//! Functions that test the items of their argument.
ghost use Rattle.std.specs.Prelude.{◌≡◌, not, map};
ghost use Rattle.xml_model.specs.Atoms as atoms;
ghost use Rattle.xml_model.specs.FunctionAnswers as spec;
ghost use Rattle.xml_model.specs.Items.{◌>>?◌};
ghost use Rattle.xq_nodes.specs.Answers.{Looks};
ghost use Rattle.xq_values.specs.Seen.{item_seen};
ghost use Rattle.xq_functions.specs.Gives.{alone};

use xml_model::Nav;
use xq_ast::Code;
use xq_nodes::EvalEnd;
use xq_values::{Item, effective_boolean};

/// `empty`. The `Nav` is that of the items' nodes.
pub(crate) fn is_empty<N: Nav>(_nav: &N, items: &[Item]) -> bool
    ensures { result ≡ spec.is_empty (map (item_seen (N.place _nav.now)) items.now) }
{
    match items {
        [] => true,
        [_, ..] => false,
    }
}

// The effective boolean value of items, as a `Nav` sees them.
fn truth_of<N: Nav>(_nav: &N, items: &[Item]) -> Result<bool, Code>
    ensures { result ≡ atoms.effective_boolean (map (item_seen (N.place _nav.now)) items.now) }
{
    effective_boolean(items)
}

/// `not`
pub(crate) fn negated<N: Nav>(nav: &N, items: &[Item]) -> Result<Item, EvalEnd<N::Fault>>
    ensures { Looks (N.honest nav.now) (N.passes nav.now) (alone (N.place nav.now)) result
        (atoms.effective_boolean (map (item_seen (N.place nav.now)) items.now) >>? (λ b. spec.boolean_answer (not b))) }
{
    let value = truth_of(nav, items)?;
    Ok(Item::Truth { value: !value })
}
