//! Functions that answer an integer, but `string-length`.
ghost use Rattle.std.specs.Prelude.{◌≡◌, pos, map, length, IfOk};
ghost use Rattle.std.specs.FinMap as forests;
ghost use Rattle.std.specs.Option.{option_copied, option_map};
ghost use Rattle.xml_model.specs.Atoms.{sum_of};
ghost use Rattle.xml_model.specs.FunctionAnswers as spec;
ghost use Rattle.xml_model.specs.Items.{◌>>?◌};
ghost use Rattle.xml_model.specs.Nodes.{atomized};
ghost use Rattle.xq_nodes.specs.Answers.{Looks};
ghost use Rattle.xq_values.specs.Seen.{item_seen, made_seen};
ghost use Rattle.xq_functions.specs.Focuses.{focus_seen};
ghost use Rattle.xq_functions.specs.Gives.{alone};

use crate::atoms::atomized;
use crate::context::Focus;
use std::alloc::Global;
use xml_model::Nav;
use xq_ast::{Code, NoMemory};
use xq_nodes::EvalEnd;
use xq_values::{Item, MadeRoot, sum_of};

/// A number of items. Memory holds no list of more items than an integer counts, so a greater number is
/// taken for want of memory.
pub(crate) fn number_item(number: usize) -> Result<Item, NoMemory>
    ensures { IfOk result (λ item. item ≡ Item.Int (pos number)) }
{
    match i64::try_from(number) {
        Ok(value) => Ok(Item::Int { value }),
        Err(_) => Err(NoMemory),
    }
}

/// `count`
pub(crate) fn count<N: Nav>(nav: &N, items: &[Item]) -> Result<Item, EvalEnd<N::Fault>>
    ensures { Looks (N.honest nav.now) (N.passes nav.now) (alone (N.place nav.now)) result
        (spec.integer_answer (pos (length (map (item_seen (N.place nav.now)) items.now)))) }
{
    Ok(number_item(items.len())?)
}

/// `position`
pub(crate) fn position<N: Nav>(nav: &N, cx: Option<&Focus>) -> Result<Item, EvalEnd<N::Fault>>
    ensures { Looks (N.honest nav.now) (N.passes nav.now) (alone (N.place nav.now)) result
        (spec.of_focus (λ focus. focus.position) (option_map (focus_seen (N.place nav.now)) (option_copied cx.entry))) }
{
    match cx {
        None => Err(EvalEnd::Code(Code::XPDY0002)),
        Some(focus) => Ok(number_item(focus.position)?),
    }
}

/// `last`
pub(crate) fn last<N: Nav>(nav: &N, cx: Option<&Focus>) -> Result<Item, EvalEnd<N::Fault>>
    ensures { Looks (N.honest nav.now) (N.passes nav.now) (alone (N.place nav.now)) result
        (spec.of_focus (λ focus. focus.size) (option_map (focus_seen (N.place nav.now)) (option_copied cx.entry))) }
{
    match cx {
        None => Err(EvalEnd::Code(Code::XPDY0002)),
        Some(focus) => Ok(number_item(focus.size)?),
    }
}

/// `sum`
pub(crate) fn sum<N: Nav>(
    alloc: Global,
    nav: &N,
    made: &[MadeRoot],
    items: &[Item],
) -> Result<Item, EvalEnd<N::Fault>>
    ensures { Looks (N.honest nav.now) (N.passes nav.now) (alone (N.place nav.now)) result
        (sum_of (atomized (forests.get (N.forest nav.now)) (made_seen made.now) (map (item_seen (N.place nav.now)) items.now)) >>? spec.integer_answer) }
{
    let atoms = atomized(alloc, nav, made, items)?;
    let value = sum_of(atoms.as_slice())?;
    Ok(Item::Int { value })
}
