//! Calls of functions.
ghost use Rattle.std.specs.Prelude.{map};
ghost use Rattle.std.specs.FinMap as forests;
ghost use Rattle.std.specs.Option.{option_copied, option_map};
ghost use Rattle.xml_model.specs.FunctionAnswers as spec;
ghost use Rattle.xq_nodes.specs.Answers.{Looks};
ghost use Rattle.xq_values.specs.Seen.{item_seen, made_seen};
ghost use Rattle.xq_functions.specs.Focuses.{focus_seen};
ghost use Rattle.xq_functions.specs.FunctionNames.{name_of};
ghost use Rattle.xq_functions.specs.Gives.{alone};

use crate::arguments::{first_of, second_of};
use crate::context::Focus;
use crate::function::{Function, function_named};
use crate::lengths::string_length;
use crate::lists::one_item;
use crate::names::name;
use crate::numbers::{count, last, position, sum};
use crate::strings::{concatenated, string};
use crate::tests_of_items::{is_empty, negated};
use crate::text_tests::{TextTest, tested_texts};
use std::alloc::Global;
use xml_model::Nav;
use xq_ast::{Items, Str};
use xq_nodes::EvalEnd;
use xq_values::{Item, ItemList, MadeRoot, SharedItems};

// What a function answers of its arguments.
fn answer<N: Nav>(
    alloc: Global,
    nav: &N,
    made: &[MadeRoot],
    cx: Option<&Focus>,
    function: Function,
    args: &[SharedItems],
) -> Result<Item, EvalEnd<N::Fault>>
    ensures { Looks (N.honest nav.now) (N.passes nav.now) (alone (N.place nav.now)) result
        (spec.call_function (forests.get (N.forest nav.now)) (made_seen made.now)
        (option_map (focus_seen (N.place nav.now)) (option_copied cx.entry)) (name_of function) (map (map (item_seen (N.place nav.now))) args.now)) }
{
    match function {
        Function::Count => count(nav, first_of(nav, args)),
        Function::Empty => Ok(Item::Truth {
            value: is_empty(nav, first_of(nav, args)),
        }),
        Function::Exists => Ok(Item::Truth {
            value: !is_empty(nav, first_of(nav, args)),
        }),
        Function::Not => negated(nav, first_of(nav, args)),
        Function::True => Ok(Item::Truth { value: true }),
        Function::False => Ok(Item::Truth { value: false }),
        Function::Text => string(alloc, nav, made, cx, args),
        Function::Name => name(alloc, nav, made, cx, args),
        Function::Contains => {
            let wanted = second_of(nav, args);
            tested_texts(
                alloc,
                nav,
                made,
                TextTest::Within,
                first_of(nav, args),
                wanted,
            )
        }
        Function::StartsWith => {
            let wanted = second_of(nav, args);
            tested_texts(
                alloc,
                nav,
                made,
                TextTest::Begins,
                first_of(nav, args),
                wanted,
            )
        }
        Function::TextLength => string_length(alloc, nav, made, cx, args),
        Function::Concat => concatenated(alloc, nav, made, args),
        Function::Sum => sum(alloc, nav, made, first_of(nav, args)),
        Function::Position => position(nav, cx),
        Function::Last => last(nav, cx),
    }
}

/// What the function of this name answers of its arguments. A name of none, which the parser has
/// refused, answers nothing.
pub fn call_function<N: Nav>(
    alloc: Global,
    nav: &N,
    made: &[MadeRoot],
    cx: Option<&Focus>,
    name: &Str,
    args: &[SharedItems],
) -> Result<ItemList, EvalEnd<N::Fault>>
    ensures { Looks (N.honest nav.now) (N.passes nav.now) (map (item_seen (N.place nav.now))) result
        (spec.call_function (forests.get (N.forest nav.now)) (made_seen made.now)
        (option_map (focus_seen (N.place nav.now)) (option_copied cx.entry)) name.now (map (map (item_seen (N.place nav.now))) args.now)) }
{
    match function_named(name.as_str()) {
        None => Ok(Items::new(alloc)),
        Some(function) => {
            let item = answer(alloc, nav, made, cx, function, args)?;
            Ok(one_item(alloc, item)?)
        }
    }
}
