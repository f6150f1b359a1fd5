//! Each public call once, with ample memory.
ghost use Rattle.std.specs.Prelude.{◌≡◌, [], ◌∷◌, IfOk, codes};
ghost use Rattle.std.specs.FinMap as map;
ghost use Rattle.xml_model.specs.Forest.{no_documents};
ghost use Rattle.session_core.specs.Keeping.Kept.{kept_of};
ghost use Rattle.session_core.specs.Keeping.CoreCalls.{CanMake};

use session_core::{Core, CoreCall, Event, Reply, Says, State};
use std::alloc::Global;
use std::test::Fail;
use xml_model::{Doc, DocMap, needs};
use xq_ast::{Call, Items, Mark, NoMemory, Str};

#[test]
fn a_reader_begins_at_the_base_and_updaters_end_without_a_commit(
    rt: HostRuntime,
) -> Result<(), Fail> {
    let alloc = rt.alloc();
    let mut core = Core::new(alloc, 5, 1, DocMap::new(alloc))?;
    core.begin_update(1)?;
    let number = core.begin_read(2)?;
    assert_eq!(&rt; number, 5);
    assert!(&rt; core.state(1) == State::Updating);
    assert!(&rt; core.state(2) == State::Reading(5));
    core.roll_back(1);
    core.end_read(2);
    assert!(&rt; core.state(2) == State::Idle);
    core.begin_update(1)?;
    core.left(1);
    assert_eq!(&rt; core.newest(), 5);
    assert_eq!(&rt; core.close().len(), 6);
    Ok(())
}

fn d(alloc: Global) -> Result<Str, NoMemory>
    ensures { IfOk result (λ name. name ≡ codes "d") }
{
    Str::of(alloc, "d")
}

/// A document without nodes, alone.
fn created(alloc: Global) -> Result<DocMap, NoMemory>
    ensures { IfOk result (λ docs. docs ≡ map.insert no_documents (codes "d") (record { kids = [] })) }
{
    let kids = Items::new(alloc);
    let mut docs = DocMap::new(alloc);
    docs.insert(d(alloc)?, Doc { kids })?;
    Ok(docs)
}

/// The first session makes a document, and its commit is in doubt; the second settles that with
/// yes, and commits.
fn settled_with_yes(alloc: Global) -> Result<Vec<CoreCall>, NoMemory>
    ensures { IfOk result (λ calls. CanMake calls.items (kept_of 0 1 no_documents [])) }
{
    let create = Call::Create { name: d(alloc)? };
    let needs = needs(alloc, &create)?;
    let first = created(alloc)?;
    let second = created(alloc)?;
    let reply = Reply {
        call: Some(create),
        says: Says::Done,
    };
    let mark = Mark {
        before: 0,
        after: 1,
    };
    Ok(vec![in alloc;
        CoreCall::BeginUpdate { session: 1 },
        CoreCall::Ask { session: 1, needs },
        CoreCall::Post { session: 1, reply },
        CoreCall::Doubt {
            session: 1,
            forest: first,
            mark
        },
        CoreCall::BeginUpdate { session: 2 },
        CoreCall::Settled {
            by: 2,
            stands: true
        },
        CoreCall::Commit {
            session: 2,
            forest: second
        },
    ]?)
}

#[test]
fn a_commit_in_doubt_is_settled_with_yes_by_another(rt: HostRuntime) -> Result<(), Fail> {
    let alloc = rt.alloc();
    let mut core = Core::new(alloc, 0, 1, DocMap::new(alloc))?;
    core.make_all(settled_with_yes(alloc)?)?;
    core.forests_are_valid();
    assert!(&rt; core.forest(3).get(&d(alloc)?).is_some());
    let events = core.close().into_vec();
    assert_eq!(&rt; events.len(), 7);
    assert!(&rt; matches!(events[5], Event::Settled(2, 1, true)));
    assert!(&rt; matches!(events[6], Event::Committed(2, 2)));
    Ok(())
}
