// Workers under one lock, each in a thread of its own: what each says that it did is what the one list says.
mod journal;
mod run;
mod worker;

use journal::Journal;
use run::run_all;
use std::test::Fail;

#[test]
fn eight_workers_of_a_thousand_sections(rt: HostRuntime) -> Result<(), Fail> {
    let alloc = rt.alloc();
    let Ok((journal, said)) = run_all(&rt, alloc, Journal::new(alloc, 5), 8, 1000) else {
        panic!(rt; "no memory")
    };
    assert_eq!(rt; journal.entries().len(), 8000);
    assert_eq!(rt; said.len(), 8);
    for page in &said {
        assert_eq!(rt; page.said.len(), 1000);
        assert!(rt; page.saw.len() >= 1000);
        assert!(rt; journal.entries().starts_with(page.saw.as_slice()));
    }
    Ok(())
}
