//! The function `name`.
ghost use Rattle.std.specs.Prelude.{◌∷◌, [], map};
ghost use Rattle.std.specs.FinMap as forests;
ghost use Rattle.std.specs.Option.{option_copied, option_map};
ghost use Rattle.xml_model.specs.FunctionAnswers as spec;
ghost use Rattle.xml_model.specs.Items.{◌>>?◌};
ghost use Rattle.xq_nodes.specs.Answers.{Looks};
ghost use Rattle.xq_values.specs.Seen.{item_seen, made_seen};
ghost use Rattle.xq_functions.specs.Focuses.{focus_seen};
ghost use Rattle.xq_functions.specs.Gives.{alone};

use crate::context::Focus;
use crate::strings::string_item;
use std::alloc::Global;
use xml_model::Nav;
use xq_ast::{Code, Str};
use xq_nodes::{EvalEnd, name_of};
use xq_values::{Item, MadeRoot, SharedItems};

// The name of an item that must be a node.
fn item_name<N: Nav>(
    alloc: Global,
    nav: &N,
    made: &[MadeRoot],
    item: &Item,
) -> Result<Str, EvalEnd<N::Fault>>
    ensures { Looks (N.honest nav.now) (N.passes nav.now) (λ s. s) result
        (spec.name_of_one (forests.get (N.forest nav.now)) (made_seen made.now) (item_seen (N.place nav.now) item.now ∷ [])) }
{
    match item {
        Item::Node { id } => name_of(alloc, nav, made, id),
        Item::Text { .. } => Err(EvalEnd::Code(Code::XPTY0004)),
        Item::Int { .. } => Err(EvalEnd::Code(Code::XPTY0004)),
        Item::Truth { .. } => Err(EvalEnd::Code(Code::XPTY0004)),
    }
}

// The name of one node at most.
fn name_of_one<N: Nav>(
    alloc: Global,
    nav: &N,
    made: &[MadeRoot],
    items: &[Item],
) -> Result<Str, EvalEnd<N::Fault>>
    ensures { Looks (N.honest nav.now) (N.passes nav.now) (λ s. s) result
        (spec.name_of_one (forests.get (N.forest nav.now)) (made_seen made.now) (map (item_seen (N.place nav.now)) items.now)) }
{
    match items {
        [] => Ok(Str::new(alloc)),
        [item] => item_name(alloc, nav, made, item),
        _ => Err(EvalEnd::Code(Code::XPTY0004)),
    }
}

// The name of the context item.
fn context_name<N: Nav>(
    alloc: Global,
    nav: &N,
    made: &[MadeRoot],
    cx: Option<&Focus>,
) -> Result<Str, EvalEnd<N::Fault>>
    ensures { Looks (N.honest nav.now) (N.passes nav.now) (λ s. s) result
        (spec.context_item (option_map (focus_seen (N.place nav.now)) (option_copied cx.entry))
        >>? spec.name_of_one (forests.get (N.forest nav.now)) (made_seen made.now)) }
{
    match cx {
        None => Err(EvalEnd::Code(Code::XPDY0002)),
        Some(focus) => item_name(alloc, nav, made, &focus.item),
    }
}

// The name of the argument, or without one of the context item.
fn name_or_context<N: Nav>(
    alloc: Global,
    nav: &N,
    made: &[MadeRoot],
    cx: Option<&Focus>,
    args: &[SharedItems],
) -> Result<Str, EvalEnd<N::Fault>>
    ensures { Looks (N.honest nav.now) (N.passes nav.now) (λ s. s) result
        (spec.or_context (option_map (focus_seen (N.place nav.now)) (option_copied cx.entry)) (map (map (item_seen (N.place nav.now))) args.now)
        >>? spec.name_of_one (forests.get (N.forest nav.now)) (made_seen made.now)) }
{
    match args {
        [] => context_name(alloc, nav, made, cx),
        [value, ..] => name_of_one(alloc, nav, made, value.as_slice()),
    }
}

/// `name`
pub(crate) fn name<N: Nav>(
    alloc: Global,
    nav: &N,
    made: &[MadeRoot],
    cx: Option<&Focus>,
    args: &[SharedItems],
) -> Result<Item, EvalEnd<N::Fault>>
    ensures { Looks (N.honest nav.now) (N.passes nav.now) (alone (N.place nav.now)) result
        (spec.or_context (option_map (focus_seen (N.place nav.now)) (option_copied cx.entry)) (map (map (item_seen (N.place nav.now))) args.now)
        >>? spec.name_of_one (forests.get (N.forest nav.now)) (made_seen made.now) >>? spec.string_answer) }
{
    let text = name_or_context(alloc, nav, made, cx, args)?;
    string_item(alloc, nav, text)
}
