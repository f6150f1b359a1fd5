//! The function `string-length`.
ghost use Rattle.std.specs.Prelude.{Ok, pos, map};
ghost use Rattle.std.specs.FinMap as forests;
ghost use Rattle.std.specs.Fmt as fmt;
ghost use Rattle.std.specs.Option.{option_copied, option_map};
ghost use Rattle.xml_model.specs.FunctionAnswers as spec;
ghost use Rattle.xml_model.specs.Items.{◌>>?◌};
ghost use Rattle.xml_model.specs.Nodes.{atomized};
ghost use Rattle.xq_nodes.specs.Answers.{Looks};
ghost use Rattle.xq_values.specs.Seen.{item_seen, made_seen};
ghost use Rattle.xq_functions.specs.Focuses.{focus_seen};
ghost use Rattle.xq_functions.specs.Gives.{alone};

use crate::atoms::atomized;
use crate::context::Focus;
use crate::numbers::number_item;
use crate::strings::context_string;
use std::alloc::Global;
use xml_model::Nav;
use xq_nodes::EvalEnd;
use xq_values::{Item, MadeRoot, SharedItems, char_count, string_argument};

// How many characters the string of an argument has.
fn argument_length<N: Nav>(
    alloc: Global,
    nav: &N,
    made: &[MadeRoot],
    items: &[Item],
) -> Result<usize, EvalEnd<N::Fault>>
    ensures { Looks (N.honest nav.now) (N.passes nav.now) (λ n. n) result
        (spec.string_argument (atomized (forests.get (N.forest nav.now)) (made_seen made.now) (map (item_seen (N.place nav.now)) items.now))
        >>? (λ text. Ok (fmt.char_count text))) }
{
    let atoms = atomized(alloc, nav, made, items)?;
    let text = string_argument(atoms.as_slice())?;
    Ok(char_count(text))
}

// How many characters the string of the context item has.
fn context_length<N: Nav>(
    alloc: Global,
    nav: &N,
    made: &[MadeRoot],
    cx: Option<&Focus>,
) -> Result<usize, EvalEnd<N::Fault>>
    ensures { Looks (N.honest nav.now) (N.passes nav.now) (λ n. n) result
        (spec.context_item (option_map (focus_seen (N.place nav.now)) (option_copied cx.entry))
        >>? spec.string_of (forests.get (N.forest nav.now)) (made_seen made.now)
        >>? (λ text. Ok (fmt.char_count text))) }
{
    let text = context_string(alloc, nav, made, cx)?;
    Ok(char_count(text.as_str()))
}

// What is measured.
fn measured<N: Nav>(
    alloc: Global,
    nav: &N,
    made: &[MadeRoot],
    cx: Option<&Focus>,
    args: &[SharedItems],
) -> Result<usize, EvalEnd<N::Fault>>
    ensures { Looks (N.honest nav.now) (N.passes nav.now) (λ n. n) result
        (spec.measured (forests.get (N.forest nav.now)) (made_seen made.now)
        (option_map (focus_seen (N.place nav.now)) (option_copied cx.entry)) (map (map (item_seen (N.place nav.now))) args.now)
        >>? (λ text. Ok (fmt.char_count text))) }
{
    match args {
        [] => context_length(alloc, nav, made, cx),
        [value, ..] => argument_length(alloc, nav, made, value.as_slice()),
    }
}

/// `string-length`
pub(crate) fn string_length<N: Nav>(
    alloc: Global,
    nav: &N,
    made: &[MadeRoot],
    cx: Option<&Focus>,
    args: &[SharedItems],
) -> Result<Item, EvalEnd<N::Fault>>
    ensures { Looks (N.honest nav.now) (N.passes nav.now) (alone (N.place nav.now)) result
        (spec.measured (forests.get (N.forest nav.now)) (made_seen made.now)
        (option_map (focus_seen (N.place nav.now)) (option_copied cx.entry)) (map (map (item_seen (N.place nav.now))) args.now)
        >>? (λ text. spec.integer_answer (pos (fmt.char_count text)))) }
{
    let count = measured(alloc, nav, made, cx, args)?;
    Ok(number_item(count)?)
}
