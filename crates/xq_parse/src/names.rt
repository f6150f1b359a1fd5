//! Whether the names in a call are names.
ghost use Rattle.std.specs.Prelude.{◌≡◌, ◌&&◌, IfOk};
ghost use Rattle.std.specs.List.{list_all};
ghost use Rattle.xq_ast.specs.Names.{is_document_name};
ghost use Rattle.xq_ast.specs.GoodNames as spec;

use crate::everywhere::Pass;
use std::alloc::Global;
use xq_ast::{Call, Expr, NoMemory, Str, Update, is_document_name, is_name};

fn are_document_names(names: &[Str]) -> bool
    ensures { result ≡ list_all is_document_name names.now }
{
    names.iter().all(|name| is_document_name(name.as_str()))
}

fn are_good_in(alloc: Global, expr: &Expr) -> Result<bool, NoMemory>
    ensures { IfOk result (λ good. good ≡ spec.are_good_in expr.now) }
{
    let documents = expr.documents(alloc)?;
    Ok(are_document_names(documents.as_slice()) && Pass::Names.passes(expr))
}

fn are_good_in_both(alloc: Global, first: &Expr, second: &Expr) -> Result<bool, NoMemory>
    ensures { IfOk result (λ good. good ≡ (spec.are_good_in first.now && spec.are_good_in second.now)) }
{
    Ok(are_good_in(alloc, first)? && are_good_in(alloc, second)?)
}

fn are_good_in_update(alloc: Global, what: &Update) -> Result<bool, NoMemory>
    ensures { IfOk result (λ good. good ≡ spec.are_good_in_update what.now) }
{
    match what {
        Update::Into { source, target } => are_good_in_both(alloc, source, target),
        Update::Preceding { source, target } => are_good_in_both(alloc, source, target),
        Update::Following { source, target } => are_good_in_both(alloc, source, target),
        Update::Delete { target } => are_good_in(alloc, target),
        Update::DeleteUndeep { target } => are_good_in(alloc, target),
        Update::Replace { target, by, .. } => are_good_in_both(alloc, target, by),
        Update::Rename { target, name } => {
            Ok(are_good_in(alloc, target)? && is_name(name.as_str()))
        }
    }
}

/// Whether the names of documents and of new nodes in a call are names. Each row says its own.
pub(crate) fn has_good_names(alloc: Global, call: &Call) -> Result<bool, NoMemory>
    ensures { IfOk result (λ good. good ≡ spec.has_good_names call.now) }
{
    match call {
        Call::Create { name } => Ok(is_document_name(name.as_str())),
        Call::Drop { name } => Ok(is_document_name(name.as_str())),
        Call::Load { name, .. } => Ok(is_document_name(name.as_str())),
        Call::Export { name } => Ok(is_document_name(name.as_str())),
        Call::Update { what } => are_good_in_update(alloc, what),
        Call::Query { expr } => are_good_in(alloc, expr),
        Call::Begin
        | Call::BeginRead
        | Call::Commit
        | Call::Rollback
        | Call::Checkpoint
        | Call::ShowDocuments => Ok(true),
    }
}
