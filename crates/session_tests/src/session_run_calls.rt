//! Each public call once, with ample memory, where no commit number is left: scripts begin at 0.
ghost use Rattle.session_run.specs.Tied.{IsReady};

use session_core::{BeginKind, Core, Event, Reply, Says};
use session_run::{Outcome, Session};
use std::alloc::Global;
use std::test::Fail;
use xml_model::DocMap;
use xq_ast::{CallText, Code, NoMemory, Sequence, SpentKind, Str};

fn text_of(alloc: Global, text: &str) -> Result<CallText, NoMemory> {
    Ok(CallText {
        text: Str::of(alloc, text)?,
        pyx: Sequence::new(alloc),
    })
}

#[test]
fn no_commit_number_is_left(rt: HostRuntime) -> Result<(), Fail> {
    let alloc = rt.alloc();
    let mut core = Core::new(alloc, u64::MAX, 1, DocMap::new(alloc))?;
    let mut session = Session::of(alloc, 3);
    let begun = session.call_on(&mut core, &text_of(alloc, "BEGIN")?)?;
    assert!(&rt; matches!(begun, Outcome::Began(BeginKind::Updating)));
    let refused = session.call_on(&mut core, &text_of(alloc, "COMMIT")?)?;
    assert!(&rt;
        matches!(
            refused,
            Outcome::Error(Code::Spent {
                kind: SpentKind::Commit,
                number: u64::MAX,
            }),
        )
    );
    session.leave_on(&mut core);
    assert!(&rt; matches!(core.last(), Some(Event::Left(3))));
    assert_eq!(&rt; session.number(), 3);
    let events = core.close().into_vec();
    assert_eq!(&rt; events.len(), 3);
    let spent = matches!(
        events[1],
        Event::Answered(
            3,
            Reply {
                call: _,
                says: Says::Error(Code::Spent {
                    kind: SpentKind::Commit,
                    number: u64::MAX,
                }),
            },
        )
    );
    assert!(&rt; spent);
    assert!(&rt; matches!(events[2], Event::Left(3)));
    Ok(())
}
