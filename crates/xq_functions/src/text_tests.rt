//! Functions that test a text for another one.
ghost use Rattle.std.specs.Prelude.{◌≡◌, map};
ghost use Rattle.std.specs.FinMap as forests;
ghost use Rattle.xml_model.specs.FunctionAnswers as spec;
ghost use Rattle.xml_model.specs.Nodes.{atomized};
ghost use Rattle.xq_nodes.specs.Answers.{Looks};
ghost use Rattle.xq_values.specs.Seen.{item_seen, made_seen};
ghost use Rattle.xq_functions.specs.Gives.{alone};
ghost use Rattle.xq_functions.specs.TextTests.{holds_of, test_flag};

use crate::atoms::atomized;
use std::alloc::Global;
use xml_model::{Atom, Nav};
use xq_ast::Code;
use xq_nodes::EvalEnd;
use xq_values::{Item, MadeRoot, begins_with, has_within, string_argument};

/// A test of two texts.
#[derive(Clone, Copy, Debug, PartialEq, Eq)]
pub(crate) enum TextTest {
    /// `contains`
    Within,
    /// `starts-with`
    Begins,
}

fn holds(test: TextTest, text: &str, wanted: &str) -> bool
    ensures { result ≡ holds_of test text.now wanted.now }
{
    match test {
        TextTest::Within => has_within(text, wanted),
        TextTest::Begins => begins_with(text, wanted),
    }
}

// A test of two arguments.
fn arguments_hold(test: TextTest, text: &[Atom], wanted: &[Atom]) -> Result<bool, Code>
    ensures { test_flag result ≡ spec.tested_texts (holds_of test) text.now wanted.now }
{
    let text = string_argument(text)?;
    let wanted = string_argument(wanted)?;
    Ok(holds(test, text, wanted))
}

/// `contains` and `starts-with`
pub(crate) fn tested_texts<N: Nav>(
    alloc: Global,
    nav: &N,
    made: &[MadeRoot],
    test: TextTest,
    text: &[Item],
    wanted: &[Item],
) -> Result<Item, EvalEnd<N::Fault>>
    ensures { let docs = forests.get (N.forest nav.now) in let seen = map (item_seen (N.place nav.now)) in
        Looks (N.honest nav.now) (N.passes nav.now) (alone (N.place nav.now)) result
        (spec.tested_texts (holds_of test) (atomized docs (made_seen made.now) (seen text.now)) (atomized docs (made_seen made.now) (seen wanted.now))) }
{
    let text = atomized(alloc, nav, made, text)?;
    let wanted = atomized(alloc, nav, made, wanted)?;
    let value = arguments_hold(test, text.as_slice(), wanted.as_slice())?;
    Ok(Item::Truth { value })
}
