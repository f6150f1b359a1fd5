// The numbers of an order.
ghost use Rattle.std.specs.Prelude.{◌≡◌, ◌∷◌, []};
ghost use Rattle.script_text.specs.Scripts as spec;
ghost use Rattle.script_text.specs.ScriptEnds.{Lists};

use crate::scripts::fault::{ScriptRefusal, Stop};
use crate::scripts::session_calls::NumberList;
use xq_ast::{cut, number_of};

// The number from 1 to `most` that is written so.
#[tactic(auto, using(crate::proofs::OrderNumbers::number_laws))]
fn number_named(most: u64, word: &str) -> Option<u64>
    ensures { result ≡ spec.number_named most word.now }
{
    let Some(number) = number_of(word) else {
        return None;
    };
    if number == 0 {
        return None;
    }
    if most < number {
        return None;
    }
    Some(number)
}

fn push_number(order: &mut NumberList, most: u64, word: &str) -> Result<(), Stop>
    ensures { Lists result order.old order.new (spec.numbers most (word.now ∷ [])) }
{
    match number_named(most, word) {
        Some(number) => Ok(order.push(number)?),
        None => Err(Stop::Refused(ScriptRefusal::BadScript)),
    }
}

/// Adds the numbers from 1 to `most` that stand between spaces.
pub(crate) fn push_numbers(order: &mut NumberList, most: u64, words: &str) -> Result<(), Stop>
    ensures { Lists result order.old order.new (spec.numbers most (spec.split_words words.now)) }
{
    let mut rest = words;
    while let Some((word, behind)) = cut(rest) {
        match push_number(order, most, word) {
            Ok(()) => rest = behind,
            Err(stop) => return Err(stop),
        }
    }
    push_number(order, most, rest)
}
