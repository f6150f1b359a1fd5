//! Functions that answer a string, but for `name`.
ghost use Rattle.std.specs.Prelude.{Ok, map};
ghost use Rattle.std.specs.FinMap as forests;
ghost use Rattle.std.specs.List.{concat};
ghost use Rattle.std.specs.Option.{option_copied, option_map};
ghost use Rattle.xml_model.specs.Atoms as atoms;
ghost use Rattle.xml_model.specs.FunctionAnswers as spec;
ghost use Rattle.xml_model.specs.Items.{◌>>?◌};
ghost use Rattle.xml_model.specs.Nodes.{atomized, atomized_item};
ghost use Rattle.xq_nodes.specs.Answers.{Looks};
ghost use Rattle.xq_values.specs.Seen.{item_seen, made_seen};
ghost use Rattle.xq_functions.specs.Focuses.{focus_seen};
ghost use Rattle.xq_functions.specs.Gives.{alone};

use crate::atoms::{atom_of, atomized};
use crate::context::Focus;
use std::alloc::Global;
use xml_model::{Atom, Nav, SharedText};
use xq_ast::{Code, Items, Sequence, Str};
use xq_nodes::EvalEnd;
use xq_values::{Item, MadeRoot, SharedItems, atom_text, concat_arguments, limited_text};

/// A string that is not too long, as an item. The `Nav` is that of other items' nodes.
pub(crate) fn string_item<N: Nav>(
    alloc: Global,
    nav: &N,
    text: Str,
) -> Result<Item, EvalEnd<N::Fault>>
    ensures { Looks (N.honest nav.now) (N.passes nav.now) (alone (N.place nav.now)) result (spec.string_answer text) }
{
    let text = limited_text(text)?;
    Ok(Item::Text {
        text: SharedText::of(alloc, text)?,
    })
}

// The string of an item.
fn item_string<N: Nav>(
    alloc: Global,
    nav: &N,
    made: &[MadeRoot],
    item: &Item,
) -> Result<Str, EvalEnd<N::Fault>>
    ensures { Looks (N.honest nav.now) (N.passes nav.now) (λ s. s) result
        (Ok (atoms.atom_text (atomized_item (forests.get (N.forest nav.now)) (made_seen made.now) (item_seen (N.place nav.now) item.now)))) }
{
    let atom = atom_of(alloc, nav, made, item)?;
    Ok(atom_text(alloc, &atom)?)
}

// The string of one item at most.
fn string_of<N: Nav>(
    alloc: Global,
    nav: &N,
    made: &[MadeRoot],
    items: &[Item],
) -> Result<Str, EvalEnd<N::Fault>>
    ensures { Looks (N.honest nav.now) (N.passes nav.now) (λ s. s) result
        (spec.string_of (forests.get (N.forest nav.now)) (made_seen made.now) (map (item_seen (N.place nav.now)) items.now)) }
{
    match items {
        [] => Ok(Str::new(alloc)),
        [item] => item_string(alloc, nav, made, item),
        _ => Err(EvalEnd::Code(Code::XPTY0004)),
    }
}

/// The string of the context item.
pub(crate) fn context_string<N: Nav>(
    alloc: Global,
    nav: &N,
    made: &[MadeRoot],
    cx: Option<&Focus>,
) -> Result<Str, EvalEnd<N::Fault>>
    ensures { Looks (N.honest nav.now) (N.passes nav.now) (λ s. s) result
        (spec.context_item (option_map (focus_seen (N.place nav.now)) (option_copied cx.entry))
        >>? spec.string_of (forests.get (N.forest nav.now)) (made_seen made.now)) }
{
    match cx {
        None => Err(EvalEnd::Code(Code::XPDY0002)),
        Some(focus) => item_string(alloc, nav, made, &focus.item),
    }
}

// The string of the argument, or without one of the context item.
fn string_or_context<N: Nav>(
    alloc: Global,
    nav: &N,
    made: &[MadeRoot],
    cx: Option<&Focus>,
    args: &[SharedItems],
) -> Result<Str, EvalEnd<N::Fault>>
    ensures { Looks (N.honest nav.now) (N.passes nav.now) (λ s. s) result
        (spec.or_context (option_map (focus_seen (N.place nav.now)) (option_copied cx.entry)) (map (map (item_seen (N.place nav.now))) args.now)
        >>? spec.string_of (forests.get (N.forest nav.now)) (made_seen made.now)) }
{
    match args {
        [] => context_string(alloc, nav, made, cx),
        [value, ..] => string_of(alloc, nav, made, value.as_slice()),
    }
}

/// `string`
pub(crate) fn string<N: Nav>(
    alloc: Global,
    nav: &N,
    made: &[MadeRoot],
    cx: Option<&Focus>,
    args: &[SharedItems],
) -> Result<Item, EvalEnd<N::Fault>>
    ensures { Looks (N.honest nav.now) (N.passes nav.now) (alone (N.place nav.now)) result
        (spec.or_context (option_map (focus_seen (N.place nav.now)) (option_copied cx.entry)) (map (map (item_seen (N.place nav.now))) args.now)
        >>? spec.string_of (forests.get (N.forest nav.now)) (made_seen made.now) >>? spec.string_answer) }
{
    let text = string_or_context(alloc, nav, made, cx, args)?;
    string_item(alloc, nav, text)
}

// Each argument atomized.
fn atomized_all<N: Nav>(
    alloc: Global,
    nav: &N,
    made: &[MadeRoot],
    args: &[SharedItems],
) -> Result<Sequence<Items<Atom>>, EvalEnd<N::Fault>>
    ensures { Looks (N.honest nav.now) (N.passes nav.now) (λ all. all) result
        (Ok (map (atomized (forests.get (N.forest nav.now)) (made_seen made.now)) (map (map (item_seen (N.place nav.now))) args.now))) }
{
    let mut all = Sequence::new(alloc);
    for value in args {
        all.push(atomized(alloc, nav, made, value.as_slice())?)?;
    }
    Ok(all)
}

/// `concat`
pub(crate) fn concatenated<N: Nav>(
    alloc: Global,
    nav: &N,
    made: &[MadeRoot],
    args: &[SharedItems],
) -> Result<Item, EvalEnd<N::Fault>>
    ensures { Looks (N.honest nav.now) (N.passes nav.now) (alone (N.place nav.now)) result
        (spec.concat_arguments (map (atomized (forests.get (N.forest nav.now)) (made_seen made.now)) (map (map (item_seen (N.place nav.now))) args.now))
        >>? (λ texts. spec.string_answer (concat texts))) }
{
    let atoms = atomized_all(alloc, nav, made, args)?;
    let text = concat_arguments(alloc, atoms.as_slice())?;
    string_item(alloc, nav, text)
}
