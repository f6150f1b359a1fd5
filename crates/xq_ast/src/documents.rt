//! The documents that an expression names.
ghost use Rattle.std.specs.Prelude.{◌≡◌, ◌++◌, map, IfOk, OnOk};
ghost use Rattle.std.specs.Option.{option_map};
ghost use Rattle.xq_ast.specs.Documents as spec;

use crate::StrList;
use crate::memory::NoMemory;
use crate::sequence::Sequence;
use crate::tree::{
    Bind, BindList, Expr, ExprList, ProductPartList, SortKeyList, Start, StepList, SumPartList,
};
use sqlite_items::Boxed;
use std::alloc::Global;

#[cycle(documents)]
fn add_exprs(names: &mut StrList, exprs: &ExprList) -> Result<(), NoMemory>
    ensures { OnOk result (names.new ≡ names.old ++ spec.joined (map spec.documents exprs.now)) }
{
    for expr in exprs.as_slice() {
        expr.add_documents(names)?;
    }
    Ok(())
}

#[cycle(documents)]
fn add_content(names: &mut StrList, content: &Option<Boxed<Expr>>) -> Result<(), NoMemory>
    ensures { OnOk result (names.new ≡ names.old ++ spec.of_content (option_map spec.documents content.now)) }
{
    match content {
        None => Ok(()),
        Some(expr) => expr.get().add_documents(names),
    }
}

#[cycle(documents)]
fn add_bind(names: &mut StrList, bind: &Bind) -> Result<(), NoMemory>
    ensures { OnOk result (names.new ≡ names.old ++ spec.bind_documents bind.now) }
{
    match bind {
        Bind::For { source, .. } => source.add_documents(names),
        Bind::Let { value, .. } => value.add_documents(names),
    }
}

#[cycle(documents)]
fn add_binds(names: &mut StrList, binds: &BindList) -> Result<(), NoMemory>
    ensures { OnOk result (names.new ≡ names.old ++ spec.joined (map spec.bind_documents binds.now)) }
{
    for bind in binds.as_slice() {
        add_bind(names, bind)?;
    }
    Ok(())
}

#[cycle(documents)]
fn add_keys(names: &mut StrList, keys: &SortKeyList) -> Result<(), NoMemory>
    ensures { OnOk result (names.new ≡ names.old ++ spec.joined (map spec.key_documents keys.now)) }
{
    for key in keys.as_slice() {
        key.expr.add_documents(names)?;
    }
    Ok(())
}

#[cycle(documents)]
fn add_sum_parts(names: &mut StrList, parts: &SumPartList) -> Result<(), NoMemory>
    ensures { OnOk result (names.new ≡ names.old ++ spec.joined (map spec.sum_documents parts.now)) }
{
    for part in parts.as_slice() {
        part.expr.add_documents(names)?;
    }
    Ok(())
}

#[cycle(documents)]
fn add_product_parts(names: &mut StrList, parts: &ProductPartList) -> Result<(), NoMemory>
    ensures { OnOk result (names.new ≡ names.old ++ spec.joined (map spec.product_documents parts.now)) }
{
    for part in parts.as_slice() {
        part.expr.add_documents(names)?;
    }
    Ok(())
}

#[cycle(documents)]
fn add_steps(names: &mut StrList, steps: &StepList) -> Result<(), NoMemory>
    ensures { OnOk result (names.new ≡ names.old ++ spec.joined (map spec.step_documents steps.now)) }
{
    for step in steps.as_slice() {
        add_exprs(names, &step.preds)?;
    }
    Ok(())
}

#[cycle(documents)]
fn add_start(names: &mut StrList, start: &Start) -> Result<(), NoMemory>
    ensures { OnOk result (names.new ≡ names.old ++ spec.start_documents start.now) }
{
    match start {
        Start::Value { inner } => inner.get().add_documents(names),
        Start::First { step } => add_exprs(names, &step.preds),
    }
}

impl Expr {
    #[cycle(documents)]
    fn add_documents(&self, names: &mut StrList) -> Result<(), NoMemory>
        ensures { OnOk result (names.new ≡ names.old ++ spec.documents self.now) }
    {
        match self {
            Expr::Text { .. } => Ok(()),
            Expr::Int { .. } => Ok(()),
            Expr::Var { .. } => Ok(()),
            Expr::Context => Ok(()),
            Expr::Seq { parts } => add_exprs(names, parts),
            Expr::Flwor {
                binds,
                filter,
                keys,
                result,
            } => {
                add_binds(names, binds)?;
                add_content(names, filter)?;
                add_keys(names, keys)?;
                result.get().add_documents(names)
            }
            Expr::If { test, yes, no } => {
                test.get().add_documents(names)?;
                yes.get().add_documents(names)?;
                no.get().add_documents(names)
            }
            Expr::Or { parts } => add_exprs(names, parts),
            Expr::And { parts } => add_exprs(names, parts),
            Expr::Compare { left, right, .. } => {
                left.get().add_documents(names)?;
                right.get().add_documents(names)
            }
            Expr::Range { low, high } => {
                low.get().add_documents(names)?;
                high.get().add_documents(names)
            }
            Expr::Sum { first, rest } => {
                first.get().add_documents(names)?;
                add_sum_parts(names, rest)
            }
            Expr::Product { first, rest } => {
                first.get().add_documents(names)?;
                add_product_parts(names, rest)
            }
            Expr::Union { parts } => add_exprs(names, parts),
            Expr::Signed { inner, .. } => inner.get().add_documents(names),
            Expr::Path { start, rest } => {
                add_start(names, start)?;
                add_steps(names, rest)
            }
            Expr::Filter { inner, preds } => {
                inner.get().add_documents(names)?;
                add_exprs(names, preds)
            }
            Expr::Fun { args, .. } => add_exprs(names, args),
            Expr::Doc { name } => names.push(name.copy()?),
            Expr::Element { content, .. } => add_content(names, content),
            Expr::Attribute { content, .. } => add_content(names, content),
            Expr::TextNode { content } => add_content(names, content),
        }
    }

    /// The names of the documents that stand in the expression, in their order. A name that
    /// stands twice is there twice.
    pub fn documents(&self, alloc: Global) -> Result<StrList, NoMemory>
        ensures { IfOk result (λ names. names ≡ spec.documents self.now) }
    {
        let mut names = Sequence::new(alloc);
        self.add_documents(&mut names)?;
        Ok(names)
    }
}
