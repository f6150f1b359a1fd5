//! The locks that a call needs.
ghost use Rattle.std.specs.Prelude.{◌≡◌, ◌++◌, map, IfOk, OnOk};
ghost use Rattle.xml_model.specs.Needs.{all_in, asked_by_update, each_once, need, needs as needs_of};

use doc_locks::HeldNames;
use std::alloc::Global;
use xq_ast::{Call, Expr, LockMode, Need, NeedList, NoMemory, Sequence, Str, StrList, Update};

// One need.
fn one(alloc: Global, name: &Str, mode: LockMode) -> Result<NeedList, NoMemory>
    ensures { IfOk result (λ all. all ≡ need name.now mode) }
{
    let mut all = Sequence::new(alloc);
    all.push(Need {
        name: name.copy()?,
        mode,
    })?;
    Ok(all)
}

// Adds a need for each name.
fn ask_names(asked: &mut NeedList, names: &StrList, mode: LockMode) -> Result<(), NoMemory>
    ensures { OnOk result (asked.new ≡ asked.old ++ map (λ name. record { name = name; mode = mode }) names.now) }
{
    for name in names.as_slice() {
        asked.push(Need {
            name: name.copy()?,
            mode,
        })?;
    }
    Ok(())
}

// Adds a need for each document of an expression.
fn ask(alloc: Global, asked: &mut NeedList, expr: &Expr, mode: LockMode) -> Result<(), NoMemory>
    ensures { OnOk result (asked.new ≡ asked.old ++ all_in mode expr.now) }
{
    ask_names(asked, &expr.documents(alloc)?, mode)
}

// What an `insert` asks for.
fn asked_by_source(alloc: Global, source: &Expr, target: &Expr) -> Result<NeedList, NoMemory>
    ensures { IfOk result (λ all. all ≡ all_in LockMode.S source.now ++ all_in LockMode.X target.now) }
{
    let mut asked = Sequence::new(alloc);
    ask(alloc, &mut asked, source, LockMode::S)?;
    ask(alloc, &mut asked, target, LockMode::X)?;
    Ok(asked)
}

fn asked_by_replace(alloc: Global, target: &Expr, by: &Expr) -> Result<NeedList, NoMemory>
    ensures { IfOk result (λ all. all ≡ all_in LockMode.X target.now ++ all_in LockMode.S by.now) }
{
    let mut asked = Sequence::new(alloc);
    ask(alloc, &mut asked, target, LockMode::X)?;
    ask(alloc, &mut asked, by, LockMode::S)?;
    Ok(asked)
}

fn asked_alone(alloc: Global, expr: &Expr, mode: LockMode) -> Result<NeedList, NoMemory>
    ensures { IfOk result (λ all. all ≡ all_in mode expr.now) }
{
    let mut asked = Sequence::new(alloc);
    ask(alloc, &mut asked, expr, mode)?;
    Ok(asked)
}

fn asked_by(alloc: Global, what: &Update) -> Result<NeedList, NoMemory>
    ensures { IfOk result (λ all. all ≡ asked_by_update what.now) }
{
    match what {
        Update::Into { source, target } => asked_by_source(alloc, source, target),
        Update::Preceding { source, target } => asked_by_source(alloc, source, target),
        Update::Following { source, target } => asked_by_source(alloc, source, target),
        Update::Delete { target } => asked_alone(alloc, target, LockMode::X),
        Update::DeleteUndeep { target } => asked_alone(alloc, target, LockMode::X),
        Update::Replace { target, by, .. } => asked_by_replace(alloc, target, by),
        Update::Rename { target, .. } => asked_alone(alloc, target, LockMode::X),
    }
}

// The names in byte order, each once, with the stronger of its modes.
fn once_each(alloc: Global, asked: &NeedList) -> Result<NeedList, NoMemory>
    ensures { IfOk result (λ all. all ≡ each_once asked.now) }
{
    let mut names = HeldNames::new(alloc);
    names.add(alloc, asked)?;
    names.into_needs(alloc)
}

/// The locks that a call needs: names of documents in byte order, each once, with the stronger
/// mode. CREATE, DROP and LOAD need X on their name and EXPORT needs S. A query needs S on each
/// document that it names. An UPDATE needs X on those in its target and S on the others. Other
/// calls need none.
pub fn needs(alloc: Global, call: &Call) -> Result<NeedList, NoMemory>
    ensures { IfOk result (λ all. all ≡ needs_of call.now) }
{
    match call {
        Call::Create { name } | Call::Drop { name } => one(alloc, name, LockMode::X),
        Call::Load { name, .. } => one(alloc, name, LockMode::X),
        Call::Export { name } => one(alloc, name, LockMode::S),
        Call::Update { what } => once_each(alloc, &asked_by(alloc, what)?),
        Call::Query { expr } => once_each(alloc, &asked_alone(alloc, expr, LockMode::S)?),
        Call::Begin
        | Call::BeginRead
        | Call::Commit
        | Call::Rollback
        | Call::Checkpoint
        | Call::ShowDocuments => Ok(Sequence::new(alloc)),
    }
}
