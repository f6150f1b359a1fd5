//! What no clause says: texts that are read and written, failures, and limits at their edges.
use byte_edge::{MemSink, WriteFault};
use pyx_text::{PyxFault, PyxReader, lines_of, write_doc};
use std::alloc::Global;
use std::test::Fail;
use xml_model::{Doc, RefusedLine};
use xq_ast::{PyxRefusal, Str};

fn read(alloc: Global, text: &str) -> Result<Doc, PyxFault> {
    let mut reader = PyxReader::new(alloc);
    for line in text.split('\n') {
        reader.line(&Str::of(alloc, line)?)?;
    }
    reader.end()
}

fn refused(why: PyxRefusal, line: u64) -> Option<PyxFault> {
    Some(PyxFault::Refused(RefusedLine { why, line }))
}

#[test]
fn canonical_values(rt: HostRuntime) -> Result<(), Fail> {
    let alloc = rt.alloc();
    for (given, written) in [
        ("(a\nAx 1\n-p\n-q\\n\n)a", "(a\nAx 1\n-pq\\n\n)a\n"),
        ("-\\\\", "-\\\\\n"),
        ("-\\n\\t", "-\\n\\t\n"),
        ("-\\x", "-\\\\x\n"),
        ("-a\\", "-a\\\\\n"),
        ("-\t\r", "-\\t\r\n"),
        (
            "(a\nAx\nAy  1\n?p\n?q \n?r 2\n)a",
            "(a\nAx \nAy  1\n?p\n?q\n?r 2\n)a\n",
        ),
        ("-\n?p\n-\n-", "?p\n"),
    ] {
        let mut sink = MemSink::of(alloc, Vec::new(alloc));
        let doc = read(alloc, given)?;
        assert_eq!(rt; write_doc(&doc, &mut sink).err(), None);
        assert_eq!(rt; sink.bytes(), written.as_bytes());
    }
    Ok(())
}

#[test]
fn a_document_is_listed(rt: HostRuntime) -> Result<(), Fail> {
    let alloc = rt.alloc();
    let lines = lines_of(alloc, &read(alloc, "(a\nAx 1\n-p\n-q\\n\n?t v\n)a")?)?;
    assert_eq!(rt; lines.len(), 5);
    for (line, wanted) in lines
        .as_slice()
        .iter()
        .zip(["(a", "Ax 1", "-pq\\n", "?t v", ")a"])
    {
        assert_eq!(rt; line.as_str(), wanted);
    }
    Ok(())
}

#[test]
fn a_sink_that_fails_is_told(rt: HostRuntime) -> Result<(), Fail> {
    let alloc = rt.alloc();
    let doc = read(alloc, "-t")?;
    let mut sink = MemSink::of(alloc, vec![in alloc; 1]?);
    assert_eq!(rt; write_doc(&doc, &mut sink).err(), Some(WriteFault));
    assert_eq!(rt; write_doc(&doc, &mut sink).err(), None);
    assert_eq!(rt; sink.bytes(), b"-t\n".as_slice());
    Ok(())
}

#[test]
fn refusals(rt: HostRuntime) {
    let alloc = rt.alloc();
    for (given, why, line) in [
        ("(a\n-t\nAx 1", PyxRefusal::AttributeLate, 3),
        ("Ax 1", PyxRefusal::AttributeLate, 1),
        ("(a\n)a\nAx 1", PyxRefusal::AttributeLate, 3),
        ("(a\n(b\n)a", PyxRefusal::EndMismatch, 3),
        (")a", PyxRefusal::EndMismatch, 1),
        ("(a", PyxRefusal::Unclosed, 2),
        ("(a\n\n)a", PyxRefusal::BadLine, 2),
        ("(", PyxRefusal::BadName, 1),
        ("(a\nA1 2", PyxRefusal::BadName, 2),
        ("?-", PyxRefusal::BadName, 1),
        ("(a\nAx 1\nAx 2", PyxRefusal::AttributeTwice, 3),
    ] {
        assert_eq!(rt; read(alloc, given).err(), refused(why, line));
    }
}

#[test]
fn a_refusal_stays(rt: HostRuntime) -> Result<(), Fail> {
    let alloc = rt.alloc();
    let first = refused(PyxRefusal::BadLine, 1);
    let mut reader = PyxReader::new(alloc);
    assert_eq!(rt; reader.line(&Str::of(alloc, "x")?).err(), first);
    assert_eq!(rt; reader.line(&Str::of(alloc, "-t")?).err(), first);
    assert_eq!(rt; reader.end().err(), first);
    Ok(())
}

fn repeated(alloc: Global, mark: &str, count: usize) -> Result<Str, PyxFault> {
    let mut line = Str::of(alloc, mark)?;
    for _ in 0..count {
        line.push_str("x")?;
    }
    Ok(line)
}

// Reads a line so many times, and then another.
fn read_times(alloc: Global, line: &Str, times: u32, last: &str) -> Result<(), PyxFault> {
    let mut reader = PyxReader::new(alloc);
    for _ in 0..times {
        reader.line(line)?;
    }
    reader.line(&Str::of(alloc, last)?)
}

#[test]
fn limits(rt: HostRuntime) -> Result<(), Fail> {
    let alloc = rt.alloc();
    for (line, times, last, want) in [
        ("(a", 511, "(a", None),
        ("(a", 512, "(a", refused(PyxRefusal::TooDeep, 513)),
        ("?a", 4_194_303, "-t", None),
        (
            "?a",
            4_194_304,
            "-t",
            refused(PyxRefusal::TooManyNodes, 4_194_305),
        ),
    ] {
        let line = Str::of(alloc, line)?;
        assert_eq!(rt; read_times(alloc, &line, times, last).err(), want);
    }
    let text = repeated(alloc, "-", 65_536)?;
    assert_eq!(rt; read_times(alloc, &text, 4_096, "-").err(), None);
    assert_eq!(rt;
        read_times(alloc, &text, 4_096, "-t").err(),
        refused(PyxRefusal::TooMuchText, 4_097)
    );
    Ok(())
}

#[test]
fn many_attributes(rt: HostRuntime) -> Result<(), Fail> {
    let alloc = rt.alloc();
    let mut reader = PyxReader::new(alloc);
    reader.line(&Str::of(alloc, "(a")?)?;
    for count in 1..41 {
        reader.line(&repeated(alloc, "Aa", count)?)?;
    }
    assert_eq!(rt;
        reader.line(&repeated(alloc, "Aa", 30)?).err(),
        refused(PyxRefusal::AttributeTwice, 42)
    );
    Ok(())
}
