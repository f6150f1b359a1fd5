// Scripts and journals: each public call with ample memory, and a sink that fails. What the program shows of scripts that are
// read or refused stands in pairs of files.
use byte_edge::{MemSink, WriteFault};
use script_text::{
    a_text_tells_its_journal, read_journal, read_script, scripts_are_read_again, write_journal,
};
use session_core::{Event, Journal};
use std::alloc::Global;
use std::test::Fail;
use xq_ast::{CallText, Sequence, Str};

fn show_call(shown: &mut Str, call: &CallText) -> Result<(), Fail> {
    shown.push_str("<")?;
    shown.push_str(call.text.as_str())?;
    for line in call.pyx.as_slice() {
        shown.push_str("|")?;
        shown.push_str(line.as_str())?;
    }
    shown.push_str(">")?;
    Ok(())
}

// Each call of the first session between brackets, with its lines behind bars.
fn shown(alloc: Global, text: &str) -> Result<Str, Fail> {
    let script = read_script(alloc, text.as_bytes())?;
    let mut shown = Str::new(alloc);
    if let Some(session) = script.sessions.as_slice().first() {
        for call in session.as_slice() {
            show_call(&mut shown, call)?;
        }
    }
    Ok(shown)
}

#[test]
fn calls_are_read_with_their_lines(rt: HostRuntime) -> Result<(), Fail> {
    scripts_are_read_again();
    for (given, wanted) in [
        ("SESSION\na\n# no\n\nORDER 1\n  b\n\tc\n", "<a\n  b\n\tc>"),
        (
            "SESSION\nLOAD 'd'\n(a\n# x\nSESSION\n\n)a\n.\nb\n",
            "<LOAD 'd'|(a|# x|SESSION||)a><b>",
        ),
        (
            "SESSION\nLOAD\"d\"\n.\nLOAD\n.\nLOADS\n.",
            "<LOAD\"d\"><LOAD><LOADS><.>",
        ),
    ] {
        assert_eq!(rt; shown(rt.alloc(), given)?.as_str(), wanted);
    }
    Ok(())
}

fn written(alloc: Global, journal: &Journal) -> Result<Vec<u8>, Fail> {
    let mut sink = MemSink::of(alloc, Vec::new(alloc));
    write_journal(journal, &mut sink)?;
    Ok(Vec::from_slice(alloc, sink.bytes())?)
}

#[test]
fn journals_are_read_and_written_back(rt: HostRuntime) -> Result<(), Fail> {
    a_text_tells_its_journal();
    let alloc = rt.alloc();
    for (text, events) in [
        ("", 0),
        (
            "1 began update\n1 granted 'd' X\n1 done\n1 doubt 1\n2 began read 0\n2 answer 0\n2 ended\n2 began update\n2 settled 1 yes\n2 committed 2\n",
            10,
        ),
        (
            "1 granted '''' X, 'a'' S, ''b' S, '\u{e9} \u{1f600}' X\n1 refused 'it''s by 1' by 4294967295\n1 rolled back\n1 left\n2 settled 1 no\n",
            5,
        ),
        (
            "1 answer 3\n1 done\n\n=\u{e9}\n1 error Pyx BadLine 2\n1 error Damaged 1 0 0\n1 error Failed\n64 began read 18446744073709551615\n",
            5,
        ),
    ] {
        let journal = read_journal(alloc, text.as_bytes())?.ok_or("no journal")?;
        assert_eq!(rt; journal.len(), events);
        assert_eq!(rt; written(alloc, &journal)?.as_slice(), text.as_bytes());
    }
    Ok(())
}

#[test]
fn no_journal(rt: HostRuntime) -> Result<(), Fail> {
    for text in [
        "1 done",
        "\n1 done\n",
        "1 done\r\n",
        "01 done\n",
        "4294967296 done\n",
        "1 began read 18446744073709551616\n",
        "1 granted \n",
        "1 granted 'a' S,'b' X\n",
        "1 granted 'it's' S\n",
        "1 answer 18446744073709551615\n",
        "1 error FODC0009\n",
        "1 settled 2 maybe\n",
    ] {
        assert!(rt; read_journal(rt.alloc(), text.as_bytes())?.is_none());
    }
    Ok(())
}

#[test]
fn a_sink_that_fails_is_told(rt: HostRuntime) -> Result<(), Fail> {
    let alloc = rt.alloc();
    let mut journal: Journal = Sequence::new(alloc);
    journal.push(Event::Left(1))?;
    let mut sink = MemSink::of(alloc, vec![in alloc; 1]?);
    assert_eq!(rt; write_journal(&journal, &mut sink).err(), Some(WriteFault));
    assert_eq!(rt; write_journal(&journal, &mut sink).err(), None);
    assert_eq!(rt; sink.bytes(), b"1 left\n".as_slice());
    Ok(())
}
