//! What the program's own runs do not show: sources and sinks that fail, and the journal beside the
//! status.
use byte_edge::{MemSink, MemSource};
use std::alloc::Global;
use std::process::Abort;
use std::test::Fail;
use xdb_top::{TopFault, tool};

fn words_of(alloc: Global, words: &[&str]) -> Result<Vec<String>, Fail> {
    let mut all = Vec::new(alloc);
    for word in words {
        all.push(String::from_str(alloc, word)?)?;
    }
    Ok(all)
}

/// A command whose source and sink fail at these calls, and how it is to end: with how many events,
/// and how many bytes written.
#[derive(Clone, Copy)]
struct Case<'a> {
    words: &'a [&'a str],
    input: &'a [u8],
    source_fails: &'a [u64],
    sink_fails: &'a [u64],
    fault: Option<TopFault>,
    events: usize,
    written: usize,
}

fn check_case(rt: &(impl Abort + Print), alloc: Global, case: Case<'_>) -> Result<(), Fail> {
    let words = words_of(alloc, case.words)?;
    let mut source = MemSource::of(case.input.to_vec(alloc)?, case.source_fails.to_vec(alloc)?);
    let mut sink = MemSink::of(alloc, case.sink_fails.to_vec(alloc)?);
    let end = tool(alloc, &words, &mut source, &mut sink);
    assert_eq!(rt; end.fault, case.fault);
    assert_eq!(rt; end.journal.len(), case.events);
    assert_eq!(rt; sink.bytes().len(), case.written);
    Ok(())
}

/// `play` of two sessions. Its events are began, granted, done and committed of the first, and began
/// and left of the other.
const PLAYED: Case<'static> = Case {
    words: &["play"],
    input: b"SESSION\nBEGIN\nLOAD 'd'\n.\nCOMMIT\nSESSION\nBEGIN\n",
    source_fails: &[],
    sink_fails: &[],
    fault: None,
    events: 6,
    written: 74,
};

/// `pyx` of one element.
const WRITTEN: Case<'static> = Case {
    words: &["pyx"],
    input: b"(a\n)a\n",
    events: 0,
    written: 6,
    ..PLAYED
};

/// Nothing is written.
const NOTHING: Case<'static> = Case {
    events: 0,
    written: 0,
    ..PLAYED
};

#[test]
fn faulty_sources_and_sinks(rt: HostRuntime) -> Result<(), Fail> {
    let rows = [
        PLAYED,
        WRITTEN,
        Case {
            source_fails: &[1],
            fault: Some(TopFault::ReadFault),
            ..NOTHING
        },
        Case {
            sink_fails: &[1],
            fault: Some(TopFault::WriteFault),
            written: 0,
            ..PLAYED
        },
        Case {
            source_fails: &[1],
            fault: Some(TopFault::ReadFault),
            written: 0,
            ..WRITTEN
        },
        Case {
            sink_fails: &[1],
            fault: Some(TopFault::WriteFault),
            written: 0,
            ..WRITTEN
        },
    ];
    for case in rows {
        check_case(&rt, rt.alloc(), case)?;
    }
    Ok(())
}
