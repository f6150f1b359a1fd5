//! Copies of syntax trees.
ghost use Rattle.std.specs.Prelude.{◌≡◌, IfOk};

use crate::copy::copy_name;
use crate::memory::NoMemory;
use crate::text::Str;
use crate::tree::{
    Bind, BindList, Expr, ExprList, ProductPart, ProductPartList, SortKey, SortKeyList, Start,
    Step, StepList, SumPart, SumPartList,
};
use crate::update::Update;
use sqlite_items::{Boxed, Items};
use std::alloc::Global;

#[cycle(copy)]
fn copy_boxed(alloc: Global, inner: &Boxed<Expr>) -> Result<Boxed<Expr>, NoMemory>
    ensures { IfOk result (λ c. c ≡ inner.now) }
{
    Ok(Boxed::new(alloc, inner.get().copy(alloc)?)?)
}

#[cycle(copy)]
fn copy_maybe(alloc: Global, inner: &Option<Boxed<Expr>>) -> Result<Option<Boxed<Expr>>, NoMemory>
    ensures { IfOk result (λ c. c ≡ inner.now) }
{
    match inner {
        None => Ok(None),
        Some(inner) => Ok(Some(Boxed::new(alloc, inner.get().copy(alloc)?)?)),
    }
}

#[cycle(copy)]
fn copy_exprs(alloc: Global, exprs: &ExprList) -> Result<ExprList, NoMemory>
    ensures { IfOk result (λ all. all ≡ exprs.now) }
{
    let mut all = Items::new(alloc);
    for expr in exprs.as_slice() {
        all.push(expr.copy(alloc)?)?;
    }
    Ok(all)
}

#[cycle(copy)]
fn copy_binds(alloc: Global, binds: &BindList) -> Result<BindList, NoMemory>
    ensures { IfOk result (λ all. all ≡ binds.now) }
{
    let mut all = Items::new(alloc);
    for bind in binds.as_slice() {
        all.push(bind.copy(alloc)?)?;
    }
    Ok(all)
}

#[cycle(copy)]
fn copy_keys(alloc: Global, keys: &SortKeyList) -> Result<SortKeyList, NoMemory>
    ensures { IfOk result (λ all. all ≡ keys.now) }
{
    let mut all = Items::new(alloc);
    for key in keys.as_slice() {
        all.push(key.copy(alloc)?)?;
    }
    Ok(all)
}

#[cycle(copy)]
fn copy_sum_parts(alloc: Global, parts: &SumPartList) -> Result<SumPartList, NoMemory>
    ensures { IfOk result (λ all. all ≡ parts.now) }
{
    let mut all = Items::new(alloc);
    for part in parts.as_slice() {
        all.push(part.copy(alloc)?)?;
    }
    Ok(all)
}

#[cycle(copy)]
fn copy_product_parts(alloc: Global, parts: &ProductPartList) -> Result<ProductPartList, NoMemory>
    ensures { IfOk result (λ all. all ≡ parts.now) }
{
    let mut all = Items::new(alloc);
    for part in parts.as_slice() {
        all.push(part.copy(alloc)?)?;
    }
    Ok(all)
}

#[cycle(copy)]
fn copy_steps(alloc: Global, steps: &StepList) -> Result<StepList, NoMemory>
    ensures { IfOk result (λ all. all ≡ steps.now) }
{
    let mut all = Items::new(alloc);
    for step in steps.as_slice() {
        all.push(step.copy(alloc)?)?;
    }
    Ok(all)
}

impl Step {
    #[cycle(copy)]
    pub fn copy(&self, alloc: Global) -> Result<Step, NoMemory>
        ensures { IfOk result (λ c. c ≡ self.now) }
    {
        Ok(Step {
            deep: self.deep,
            axis: self.axis,
            test: self.test.copy()?,
            preds: copy_exprs(alloc, &self.preds)?,
        })
    }
}

impl Start {
    #[cycle(copy)]
    pub fn copy(&self, alloc: Global) -> Result<Start, NoMemory>
        ensures { IfOk result (λ c. c ≡ self.now) }
    {
        match self {
            Start::Value { inner } => Ok(Start::Value {
                inner: copy_boxed(alloc, inner)?,
            }),
            Start::First { step } => Ok(Start::First {
                step: step.copy(alloc)?,
            }),
        }
    }
}

impl SortKey {
    #[cycle(copy)]
    pub fn copy(&self, alloc: Global) -> Result<SortKey, NoMemory>
        ensures { IfOk result (λ c. c ≡ self.now) }
    {
        Ok(SortKey {
            expr: self.expr.copy(alloc)?,
            descending: self.descending,
        })
    }
}

impl SumPart {
    #[cycle(copy)]
    pub fn copy(&self, alloc: Global) -> Result<SumPart, NoMemory>
        ensures { IfOk result (λ c. c ≡ self.now) }
    {
        Ok(SumPart {
            minus: self.minus,
            expr: self.expr.copy(alloc)?,
        })
    }
}

impl ProductPart {
    #[cycle(copy)]
    pub fn copy(&self, alloc: Global) -> Result<ProductPart, NoMemory>
        ensures { IfOk result (λ c. c ≡ self.now) }
    {
        Ok(ProductPart {
            op: self.op,
            expr: self.expr.copy(alloc)?,
        })
    }
}

impl Bind {
    #[cycle(copy)]
    pub fn copy(&self, alloc: Global) -> Result<Bind, NoMemory>
        ensures { IfOk result (λ c. c ≡ self.now) }
    {
        match self {
            Bind::For { name, at, source } => Ok(Bind::For {
                name: name.copy()?,
                at: copy_name(at)?,
                source: source.copy(alloc)?,
            }),
            Bind::Let { name, value } => Ok(Bind::Let {
                name: name.copy()?,
                value: value.copy(alloc)?,
            }),
        }
    }
}

impl Expr {
    #[cycle(copy)]
    pub fn copy(&self, alloc: Global) -> Result<Expr, NoMemory>
        ensures { IfOk result (λ c. c ≡ self.now) }
    {
        match self {
            Expr::Text { value } => Ok(Expr::Text {
                value: value.copy()?,
            }),
            Expr::Int { value } => Ok(Expr::Int { value: *value }),
            Expr::Var { name } => Ok(Expr::Var { name: name.copy()? }),
            Expr::Context => Ok(Expr::Context),
            Expr::Seq { parts } => Ok(Expr::Seq {
                parts: copy_exprs(alloc, parts)?,
            }),
            Expr::Flwor {
                binds,
                filter,
                keys,
                result,
            } => Ok(Expr::Flwor {
                binds: copy_binds(alloc, binds)?,
                filter: copy_maybe(alloc, filter)?,
                keys: copy_keys(alloc, keys)?,
                result: copy_boxed(alloc, result)?,
            }),
            Expr::If { test, yes, no } => Ok(Expr::If {
                test: copy_boxed(alloc, test)?,
                yes: copy_boxed(alloc, yes)?,
                no: copy_boxed(alloc, no)?,
            }),
            Expr::Or { parts } => Ok(Expr::Or {
                parts: copy_exprs(alloc, parts)?,
            }),
            Expr::And { parts } => Ok(Expr::And {
                parts: copy_exprs(alloc, parts)?,
            }),
            Expr::Compare { left, op, right } => Ok(Expr::Compare {
                left: copy_boxed(alloc, left)?,
                op: *op,
                right: copy_boxed(alloc, right)?,
            }),
            Expr::Range { low, high } => Ok(Expr::Range {
                low: copy_boxed(alloc, low)?,
                high: copy_boxed(alloc, high)?,
            }),
            Expr::Sum { first, rest } => Ok(Expr::Sum {
                first: copy_boxed(alloc, first)?,
                rest: copy_sum_parts(alloc, rest)?,
            }),
            Expr::Product { first, rest } => Ok(Expr::Product {
                first: copy_boxed(alloc, first)?,
                rest: copy_product_parts(alloc, rest)?,
            }),
            Expr::Union { parts } => Ok(Expr::Union {
                parts: copy_exprs(alloc, parts)?,
            }),
            Expr::Signed { signs, inner } => Ok(Expr::Signed {
                signs: signs.copy()?,
                inner: copy_boxed(alloc, inner)?,
            }),
            Expr::Path { start, rest } => Ok(Expr::Path {
                start: start.copy(alloc)?,
                rest: copy_steps(alloc, rest)?,
            }),
            Expr::Filter { inner, preds } => Ok(Expr::Filter {
                inner: copy_boxed(alloc, inner)?,
                preds: copy_exprs(alloc, preds)?,
            }),
            Expr::Fun { name, args } => Ok(Expr::Fun {
                name: name.copy()?,
                args: copy_exprs(alloc, args)?,
            }),
            Expr::Doc { name } => Ok(Expr::Doc { name: name.copy()? }),
            Expr::Element { name, content } => Ok(Expr::Element {
                name: name.copy()?,
                content: copy_maybe(alloc, content)?,
            }),
            Expr::Attribute { name, content } => Ok(Expr::Attribute {
                name: name.copy()?,
                content: copy_maybe(alloc, content)?,
            }),
            Expr::TextNode { content } => Ok(Expr::TextNode {
                content: copy_maybe(alloc, content)?,
            }),
        }
    }
}

/// Two copies that are made one after the other.
#[derive(Drop)]
struct Both {
    first: Expr,
    second: Expr,
}

fn copy_both(alloc: Global, first: &Expr, second: &Expr) -> Result<Both, NoMemory>
    ensures { IfOk result (λ c. (c.first ≡ first.now) × (c.second ≡ second.now)) }
{
    let first = first.copy(alloc)?;
    match second.copy(alloc) {
        Ok(second) => Ok(Both { first, second }),
        Err(fault) => {
            drop(first);
            Err(fault)
        }
    }
}

fn copy_replace(alloc: Global, name: &Str, target: &Expr, by: &Expr) -> Result<Update, NoMemory>
    ensures { IfOk result (λ c. c ≡ Update.Replace name.now target.now by.now) }
{
    let name = name.copy()?;
    let both = copy_both(alloc, target, by)?;
    Ok(Update::Replace {
        name,
        target: both.first,
        by: both.second,
    })
}

fn copy_rename(alloc: Global, target: &Expr, name: &Str) -> Result<Update, NoMemory>
    ensures { IfOk result (λ c. c ≡ Update.Rename target.now name.now) }
{
    let name = name.copy()?;
    Ok(Update::Rename {
        target: target.copy(alloc)?,
        name,
    })
}

impl Update {
    pub fn copy(&self, alloc: Global) -> Result<Update, NoMemory>
        ensures { IfOk result (λ c. c ≡ self.now) }
    {
        match self {
            Update::Into { source, target } => {
                let both = copy_both(alloc, source, target)?;
                Ok(Update::Into {
                    source: both.first,
                    target: both.second,
                })
            }
            Update::Preceding { source, target } => {
                let both = copy_both(alloc, source, target)?;
                Ok(Update::Preceding {
                    source: both.first,
                    target: both.second,
                })
            }
            Update::Following { source, target } => {
                let both = copy_both(alloc, source, target)?;
                Ok(Update::Following {
                    source: both.first,
                    target: both.second,
                })
            }
            Update::Delete { target } => Ok(Update::Delete {
                target: target.copy(alloc)?,
            }),
            Update::DeleteUndeep { target } => Ok(Update::DeleteUndeep {
                target: target.copy(alloc)?,
            }),
            Update::Replace { name, target, by } => copy_replace(alloc, name, target, by),
            Update::Rename { target, name } => copy_rename(alloc, target, name),
        }
    }
}
