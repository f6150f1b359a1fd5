// The table of locks: each call with ample memory, and who is named.
use doc_locks::{AskEnd, LockTable};
use std::alloc::Global;
use std::process::Abort;
use std::test::Fail;
use xq_ast::LockMode::{S, X};
use xq_ast::{LockMode, Need, NeedList, NoMemory, Sequence, Str};

/// A session's call with two needs, and the name and the session that a refusal names. No name: all is granted.
#[derive(Clone, Copy)]
struct Step {
    session: u32,
    first: (&'static str, LockMode),
    second: (&'static str, LockMode),
    name: &'static str,
    holder: u32,
}

fn needs(alloc: Global, step: Step) -> Result<NeedList, NoMemory> {
    let mut all = Sequence::new(alloc);
    all.push(Need {
        name: Str::of(alloc, step.first.0)?,
        mode: step.first.1,
    })?;
    all.push(Need {
        name: Str::of(alloc, step.second.0)?,
        mode: step.second.1,
    })?;
    Ok(all)
}

fn take(rt: &impl Abort, alloc: Global, table: &mut LockTable, step: Step) -> Result<(), NoMemory> {
    let needs = needs(alloc, step)?;
    match table.ask(step.session, &needs) {
        Ok(()) => assert!(rt; step.name.is_empty(), "granted to {}", step.session),
        Err(AskEnd::Held { name, holder }) => {
            assert_eq!(rt; name.as_str(), step.name);
            assert_eq!(rt; holder, step.holder);
        }
        Err(AskEnd::NoMemory) => return Err(NoMemory),
    }
    Ok(())
}

fn take_all(
    rt: &impl Abort,
    alloc: Global,
    table: &mut LockTable,
    steps: &[Step],
) -> Result<(), NoMemory> {
    for step in steps {
        take(rt, alloc, table, *step)?;
    }
    Ok(())
}

const fn of(
    session: u32,
    first: (&'static str, LockMode),
    second: (&'static str, LockMode),
    name: &'static str,
    holder: u32,
) -> Step {
    Step {
        session,
        first,
        second,
        name,
        holder,
    }
}

#[test]
fn granted_or_the_first_name_and_its_least_holder(rt: HostRuntime) -> Result<(), Fail> {
    let alloc = rt.alloc();
    let mut table = LockTable::new(alloc);
    take_all(
        &rt,
        alloc,
        &mut table,
        &[
            // Shared locks stand beside one another.
            of(7, ("a", S), ("b", S), "", 0),
            of(3, ("a", S), ("c", X), "", 0),
            of(9, ("a", S), ("a", S), "", 0),
            // Of those that hold `a` the least other session is named, and not the one that asks.
            of(8, ("a", X), ("b", X), "a", 3),
            of(3, ("a", X), ("b", X), "a", 7),
            of(3, ("b", X), ("a", X), "b", 7),
            // Nothing of a refused call is granted.
            of(8, ("d", X), ("c", S), "c", 3),
            of(9, ("d", X), ("e", S), "", 0),
            // A lock that is held as X stays X.
            of(3, ("c", S), ("c", S), "", 0),
            of(9, ("c", S), ("e", S), "c", 3),
        ],
    )?;
    Ok(())
}

#[test]
fn release_takes_one_sessions_locks(rt: HostRuntime) -> Result<(), Fail> {
    let alloc = rt.alloc();
    let mut table = LockTable::new(alloc);
    let before = [
        of(1, ("a", S), ("b", X), "", 0),
        of(2, ("a", S), ("c", X), "", 0),
    ];
    let after = [
        of(3, ("b", X), ("d", X), "", 0),
        of(4, ("a", X), ("d", X), "a", 2),
        of(4, ("c", S), ("c", S), "c", 2),
    ];
    take_all(&rt, alloc, &mut table, &before)?;
    table.release(5);
    table.release(1);
    table.release(1);
    take_all(&rt, alloc, &mut table, &after)?;
    table.release(2);
    take_all(&rt, alloc, &mut table, &[of(4, ("a", X), ("c", X), "", 0)])?;
    Ok(())
}
