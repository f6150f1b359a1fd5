//! Whether the functions in a call are known, and take so many arguments.
ghost use Rattle.std.specs.Prelude.{◌≡◌};
ghost use Rattle.xq_ast.specs.Functions as spec;

use crate::everywhere::Pass;
use xq_ast::{Call, Update};

/// Whether a function of this name, without the prefix `fn:`, takes this number of arguments.
pub(crate) fn is_function(name: &str, arguments: usize) -> bool
    ensures { result ≡ spec.is_function name.now arguments }
{
    match name {
        "true" | "false" | "position" | "last" => arguments == 0,
        "string" | "name" | "string-length" => arguments <= 1,
        "count" | "empty" | "exists" | "not" | "sum" => arguments == 1,
        "contains" | "starts-with" => arguments == 2,
        "concat" => 2 <= arguments,
        _ => false,
    }
}

fn are_known_in_update(what: &Update) -> bool
    ensures { result ≡ spec.are_known_in_update what.now }
{
    match what {
        Update::Into { source, target } => Pass::Functions.both_pass(source, target),
        Update::Preceding { source, target } => Pass::Functions.both_pass(source, target),
        Update::Following { source, target } => Pass::Functions.both_pass(source, target),
        Update::Delete { target } => Pass::Functions.passes(target),
        Update::DeleteUndeep { target } => Pass::Functions.passes(target),
        Update::Replace { target, by, .. } => Pass::Functions.both_pass(target, by),
        Update::Rename { target, .. } => Pass::Functions.passes(target),
    }
}

/// Whether each function that a call names is there and takes so many arguments.
pub(crate) fn has_known_functions(call: &Call) -> bool
    ensures { result ≡ spec.has_known_functions call.now }
{
    match call {
        Call::Update { what } => are_known_in_update(what),
        Call::Query { expr } => Pass::Functions.passes(expr),
        Call::Begin
        | Call::BeginRead
        | Call::Commit
        | Call::Rollback
        | Call::Checkpoint
        | Call::ShowDocuments
        | Call::Create { .. }
        | Call::Drop { .. }
        | Call::Load { .. }
        | Call::Export { .. } => true,
    }
}
