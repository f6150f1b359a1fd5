//! The call that a text spells.
ghost use Rattle.std.specs.Prelude.{◌≡◌, ◌≢◌, Result, Ok, Err, IfOk, IfErr};
ghost use Rattle.xq_ast.specs.Parsed.{Parsed};
ghost use Rattle.xq_ast.specs.Readings.{parsed, passed};
ghost use Rattle.xq_parse.specs.Answers.{code_of};
ghost use Rattle.xq_parse.specs.Reads.{Gives};

use crate::answer::ParseEnd;
use crate::functions::has_known_functions;
use crate::names::has_good_names;
use crate::nesting::is_nested_well;
use crate::piece::{SpelledTokens, tokens};
use crate::rows::call_of;
use crate::variables::has_bound_variables;
use std::alloc::Global;
use xq_ast::{CALL_BYTES_MAX, Call, CallText};

/// The call, where it passes the tests of names, functions and variables.
fn passed(alloc: Global, call: Call) -> Result<Call, ParseEnd>
    ensures { Gives result (passed call) }
{
    if !has_good_names(alloc, &call)? {
        return Err(ParseEnd::BadName);
    }
    if !has_known_functions(&call) {
        return Err(ParseEnd::XPST0017);
    }
    if !has_bound_variables(alloc, &call)? {
        return Err(ParseEnd::XPST0008);
    }
    Ok(call)
}

#[tactic(auto, unfolding(xq_ast::specs::Readings::parsed))]
fn read(alloc: Global, call: &CallText) -> Result<Call, ParseEnd>
    ensures { Gives result (parsed call.now) }
{
    if call.text.len() > CALL_BYTES_MAX {
        return Err(ParseEnd::TooLong);
    }
    let SpelledTokens { tokens, .. } = tokens(alloc, call.text.as_str())?;
    if !is_nested_well(tokens.as_slice()) {
        return Err(ParseEnd::NestedTooDeep);
    }
    let read = call_of(alloc, tokens.as_slice(), &call.pyx)?;
    passed(alloc, read)
}

/// The call that a text spells.
pub fn parse_call(alloc: Global, call: &CallText) -> Result<Call, ParseEnd>
    ensures found { IfOk result (λ read. Parsed call.now (Ok read)) }
    ensures refused { IfErr result (λ end. end ≢ ParseEnd.NoMemory → Parsed call.now (Err (code_of end))) }
{
    read(alloc, call)
}
