//! Whether the variables of a call are bound where they stand.
ghost use Rattle.std.specs.Prelude.{◌≡◌, ◌&&◌, ◌++◌, [], ◌∷◌, map, IfOk, OnOk};
ghost use Rattle.std.specs.Option.{option_map};
ghost use Rattle.xq_ast.specs.Variables as spec;

use std::alloc::Global;
use xq_ast::{
    Bind, BindList, Boxed, Call, Expr, ExprList, NoMemory, ProductPartList, Sequence, SortKeyList,
    Start, StepList, Str, StrList, SumPartList, Update,
};

fn is_bound(name: &Str, bound: &[Str]) -> bool
    ensures { result ≡ spec.is_bound name.now bound.now }
{
    bound.iter().any(|b| b.as_str() == name.as_str())
}

// Binds the variables of a binding, behind those that are bound.
fn bind_names(bound: &mut StrList, bind: &Bind) -> Result<(), NoMemory>
    ensures { OnOk result (bound.new ≡ bound.old ++ (spec.bind_binding bind.now).names) }
{
    match bind {
        Bind::For { name, at: None, .. } => bound.push(name.copy()?),
        Bind::For {
            name,
            at: Some(at),
            ..
        } => {
            bound.push(name.copy()?)?;
            bound.push(at.copy()?)
        }
        Bind::Let { name, .. } => bound.push(name.copy()?),
    }
}

#[cycle(variables)]
fn are_bound(bound: &mut StrList, exprs: &ExprList) -> Result<bool, NoMemory>
    ensures bound { IfOk result (λ good. good ≡ spec.all_bound (map spec.binds_in exprs.now) bound.old) }
    ensures same { OnOk result (bound.new ≡ bound.old) }
{
    for expr in exprs.as_slice() {
        if !expr_is_bound(bound, expr)? {
            return Ok(false);
        }
    }
    Ok(true)
}

#[cycle(variables)]
fn content_is_bound(bound: &mut StrList, expr: &Option<Boxed<Expr>>) -> Result<bool, NoMemory>
    ensures bound { IfOk result (λ good. good ≡ spec.if_there (option_map spec.binds_in expr.now) bound.old) }
    ensures same { OnOk result (bound.new ≡ bound.old) }
{
    match expr {
        None => Ok(true),
        Some(expr) => expr_is_bound(bound, expr.get()),
    }
}

#[cycle(variables)]
fn source_is_bound(bound: &mut StrList, bind: &Bind) -> Result<bool, NoMemory>
    ensures bound { IfOk result (λ good. good ≡ (spec.bind_binding bind.now).source bound.old) }
    ensures same { OnOk result (bound.new ≡ bound.old) }
{
    match bind {
        Bind::For { source, .. } => expr_is_bound(bound, source),
        Bind::Let { value, .. } => expr_is_bound(bound, value),
    }
}

#[cycle(variables)]
fn keys_are_bound(bound: &mut StrList, keys: &SortKeyList) -> Result<bool, NoMemory>
    ensures bound { IfOk result (λ good. good ≡ spec.all_bound (map spec.key_binds keys.now) bound.old) }
    ensures same { OnOk result (bound.new ≡ bound.old) }
{
    for key in keys.as_slice() {
        if !expr_is_bound(bound, &key.expr)? {
            return Ok(false);
        }
    }
    Ok(true)
}

#[cycle(variables)]
fn sum_is_bound(bound: &mut StrList, parts: &SumPartList) -> Result<bool, NoMemory>
    ensures bound { IfOk result (λ good. good ≡ spec.all_bound (map spec.sum_binds parts.now) bound.old) }
    ensures same { OnOk result (bound.new ≡ bound.old) }
{
    for part in parts.as_slice() {
        if !expr_is_bound(bound, &part.expr)? {
            return Ok(false);
        }
    }
    Ok(true)
}

#[cycle(variables)]
fn product_is_bound(bound: &mut StrList, parts: &ProductPartList) -> Result<bool, NoMemory>
    ensures bound { IfOk result (λ good. good ≡ spec.all_bound (map spec.product_binds parts.now) bound.old) }
    ensures same { OnOk result (bound.new ≡ bound.old) }
{
    for part in parts.as_slice() {
        if !expr_is_bound(bound, &part.expr)? {
            return Ok(false);
        }
    }
    Ok(true)
}

#[cycle(variables)]
fn steps_are_bound(bound: &mut StrList, steps: &StepList) -> Result<bool, NoMemory>
    ensures bound { IfOk result (λ good. good ≡ spec.all_bound (map spec.step_binds steps.now) bound.old) }
    ensures same { OnOk result (bound.new ≡ bound.old) }
{
    for step in steps.as_slice() {
        if !are_bound(bound, &step.preds)? {
            return Ok(false);
        }
    }
    Ok(true)
}

#[cycle(variables)]
fn start_is_bound(bound: &mut StrList, start: &Start) -> Result<bool, NoMemory>
    ensures bound { IfOk result (λ good. good ≡ spec.start_binds start.now bound.old) }
    ensures same { OnOk result (bound.new ≡ bound.old) }
{
    match start {
        Start::Value { inner } => expr_is_bound(bound, inner.get()),
        Start::First { step } => are_bound(bound, &step.preds),
    }
}

// Whether the sources of the bindings are bound. The variables of the bindings stay bound.
#[cycle(variables)]
fn sources_are_bound(bound: &mut StrList, binds: &BindList) -> Result<bool, NoMemory>
    ensures bound { IfOk result (λ good. good ≡ spec.sources_bound (map spec.bind_binding binds.now) bound.old) }
    ensures names { OnOk result (bound.new ≡ bound.old ++ spec.names_of (map spec.bind_binding binds.now)) }
{
    let mut good = true;
    for bind in binds.as_slice() {
        good = good && source_is_bound(bound, bind)?;
        bind_names(bound, bind)?;
    }
    Ok(good)
}

// Whether all variables of an expression are bound, where these are bound around it.
#[cycle(variables)]
#[tactic(auto, using(crate::proofs::Scopes::taken_back))]
fn expr_is_bound(bound: &mut StrList, expr: &Expr) -> Result<bool, NoMemory>
    ensures bound { IfOk result (λ good. good ≡ spec.binds_in expr.now bound.old) }
    ensures same { OnOk result (bound.new ≡ bound.old) }
{
    match expr {
        Expr::Text { .. } => Ok(true),
        Expr::Int { .. } => Ok(true),
        Expr::Var { name } => Ok(is_bound(name, bound.as_slice())),
        Expr::Context => Ok(true),
        Expr::Seq { parts } => are_bound(bound, parts),
        Expr::Flwor {
            binds,
            filter,
            keys,
            result,
        } => {
            let before = bound.len();
            let good = sources_are_bound(bound, binds)?
                && (content_is_bound(bound, filter)?
                    && (keys_are_bound(bound, keys)? && expr_is_bound(bound, result.get())?));
            bound.truncate(before);
            Ok(good)
        }
        Expr::If { test, yes, no } => {
            Ok(
                expr_is_bound(bound, test.get())?
                    && (expr_is_bound(bound, yes.get())? && expr_is_bound(bound, no.get())?),
            )
        }
        Expr::Or { parts } => are_bound(bound, parts),
        Expr::And { parts } => are_bound(bound, parts),
        Expr::Compare { left, right, .. } => {
            Ok(expr_is_bound(bound, left.get())? && expr_is_bound(bound, right.get())?)
        }
        Expr::Range { low, high } => {
            Ok(expr_is_bound(bound, low.get())? && expr_is_bound(bound, high.get())?)
        }
        Expr::Sum { first, rest } => {
            Ok(expr_is_bound(bound, first.get())? && sum_is_bound(bound, rest)?)
        }
        Expr::Product { first, rest } => {
            Ok(expr_is_bound(bound, first.get())? && product_is_bound(bound, rest)?)
        }
        Expr::Union { parts } => are_bound(bound, parts),
        Expr::Signed { inner, .. } => expr_is_bound(bound, inner.get()),
        Expr::Path { start, rest } => {
            Ok(start_is_bound(bound, start)? && steps_are_bound(bound, rest)?)
        }
        Expr::Filter { inner, preds } => {
            Ok(expr_is_bound(bound, inner.get())? && are_bound(bound, preds)?)
        }
        Expr::Fun { args, .. } => are_bound(bound, args),
        Expr::Doc { .. } => Ok(true),
        Expr::Element { content, .. } => content_is_bound(bound, content),
        Expr::Attribute { content, .. } => content_is_bound(bound, content),
        Expr::TextNode { content } => content_is_bound(bound, content),
    }
}

// Whether all variables of an expression are bound in it.
fn is_closed(alloc: Global, expr: &Expr) -> Result<bool, NoMemory>
    ensures { IfOk result (λ good. good ≡ spec.binds_in expr.now []) }
{
    expr_is_bound(&mut Sequence::new(alloc), expr)
}

fn are_closed(alloc: Global, first: &Expr, second: &Expr) -> Result<bool, NoMemory>
    ensures { IfOk result (λ good. good ≡ (spec.binds_in first.now [] && spec.binds_in second.now [])) }
{
    Ok(is_closed(alloc, first)? && is_closed(alloc, second)?)
}

// `replace`: the variable is bound in what stands in the place of a target alone.
fn is_replace_bound(alloc: Global, name: &Str, target: &Expr, by: &Expr) -> Result<bool, NoMemory>
    ensures { IfOk result (λ good. good ≡ (spec.binds_in target.now [] && spec.binds_in by.now (name.now ∷ []))) }
{
    if !is_closed(alloc, target)? {
        return Ok(false);
    }
    let mut bound = Sequence::new(alloc);
    bound.push(name.copy()?)?;
    expr_is_bound(&mut bound, by)
}

fn are_bound_in_update(alloc: Global, what: &Update) -> Result<bool, NoMemory>
    ensures { IfOk result (λ good. good ≡ spec.are_bound_in_update what.now) }
{
    match what {
        Update::Into { source, target } => are_closed(alloc, source, target),
        Update::Preceding { source, target } => are_closed(alloc, source, target),
        Update::Following { source, target } => are_closed(alloc, source, target),
        Update::Delete { target } => is_closed(alloc, target),
        Update::DeleteUndeep { target } => is_closed(alloc, target),
        Update::Replace { name, target, by } => is_replace_bound(alloc, name, target, by),
        Update::Rename { target, .. } => is_closed(alloc, target),
    }
}

/// Whether each variable of a call is bound where it stands.
pub(crate) fn has_bound_variables(alloc: Global, call: &Call) -> Result<bool, NoMemory>
    ensures { IfOk result (λ good. good ≡ spec.has_bound_variables call.now) }
{
    match call {
        Call::Update { what } => are_bound_in_update(alloc, what),
        Call::Query { expr } => is_closed(alloc, expr),
        Call::Begin
        | Call::BeginRead
        | Call::Commit
        | Call::Rollback
        | Call::Checkpoint
        | Call::ShowDocuments
        | Call::Create { .. }
        | Call::Drop { .. }
        | Call::Load { .. }
        | Call::Export { .. } => Ok(true),
    }
}
