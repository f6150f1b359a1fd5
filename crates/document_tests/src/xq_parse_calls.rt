//! What no clause says: that each call is read where there is memory, and the limits at their edges.
use std::alloc::Global;
use std::process::Abort;
use std::test::Fail;
use xq_ast::{Call, CallText, Code, Str, StrList};
use xq_parse::{ParseEnd, parse_call};

/// The row of a call.
fn row(call: &Call) -> &'static str {
    match call {
        Call::Begin => "BEGIN",
        Call::BeginRead => "BEGIN READ-ONLY",
        Call::Commit => "COMMIT",
        Call::Rollback => "ROLLBACK",
        Call::Checkpoint => "CHECKPOINT",
        Call::ShowDocuments => "SHOW DOCUMENTS",
        Call::Create { .. } => "CREATE DOCUMENT",
        Call::Drop { .. } => "DROP DOCUMENT",
        Call::Load { .. } => "LOAD",
        Call::Export { .. } => "EXPORT",
        Call::Update { .. } => "UPDATE",
        Call::Query { .. } => "query",
    }
}

/// The name in a call.
fn name_of(call: &Call) -> Option<&str> {
    match call {
        Call::Create { name }
        | Call::Drop { name }
        | Call::Load { name, .. }
        | Call::Export { name } => Some(name.as_str()),
        _ => None,
    }
}

fn read(alloc: Global, text: String) -> Result<Call, ParseEnd> {
    let call = CallText {
        text: Str::from_string(text),
        pyx: StrList::new(alloc),
    };
    parse_call(alloc, &call)
}

#[test]
fn each_row(rt: HostRuntime) -> Result<(), Fail> {
    let alloc = rt.alloc();
    for (text, want, name) in [
        ("BEGIN", "BEGIN", None),
        (
            "\tBEGIN (: a (: nested :) one :) READ-ONLY\r\n",
            "BEGIN READ-ONLY",
            None,
        ),
        ("COMMIT", "COMMIT", None),
        ("ROLLBACK", "ROLLBACK", None),
        (" CHECKPOINT ", "CHECKPOINT", None),
        (
            "CREATE DOCUMENT 'a''b&lt;'",
            "CREATE DOCUMENT",
            Some("a'b<"),
        ),
        ("DROP DOCUMENT \"a'\"", "DROP DOCUMENT", Some("a'")),
        ("LOAD 'd'", "LOAD", Some("d")),
        ("EXPORT'\u{e4}'", "EXPORT", Some("\u{e4}")),
    ] {
        let call = read(alloc, String::from_str(alloc, text)?)?;
        assert_eq!(rt; row(&call), want, "of {text}");
        assert_eq!(rt; name_of(&call), name, "of {text}");
    }
    Ok(())
}

#[test]
fn refusals(rt: HostRuntime) -> Result<(), Fail> {
    let alloc = rt.alloc();
    for (text, want) in [
        ("", Code::XPST0003),
        ("begin transaction", Code::XPST0003),
        ("BEGIN READ - ONLY", Code::XPST0003),
        ("COMMIT 'now'", Code::XPST0003),
        ("CREATE DOCUMENT", Code::XPST0003),
        ("EXPORT 1", Code::XPST0003),
        ("EXPORT 'a&b;'", Code::XPST0003),
        ("COMMIT (: not closed (: :)", Code::XPST0003),
        ("COMMIT 1-2", Code::XPST0003),
        ("COMMIT 9223372036854775808", Code::XPST0003),
        ("DROP DOCUMENT ''", Code::BadName),
        ("LOAD 'a\tb'", Code::BadName),
        ("DROP DOCUMENT '' ''", Code::XPST0003),
    ] {
        let end = read(alloc, String::from_str(alloc, text)?).err();
        assert_eq!(rt; end.map(|end| end.code()), Some(want), "of {text}");
    }
    Ok(())
}

/// Of `before`, then `middle` so many times, then `after`, why it is refused.
fn refusal_of_repeated(
    alloc: Global,
    parts: [&str; 3],
    times: usize,
) -> Result<Option<ParseEnd>, Fail> {
    let mut text = String::from_str(alloc, parts[0])?;
    for _ in 0..times {
        text.push_str(parts[1])?;
    }
    text.push_str(parts[2])?;
    Ok(read(alloc, text).err())
}

#[test]
fn limits(rt: HostRuntime) -> Result<(), Fail> {
    let alloc = rt.alloc();
    for (parts, times, want) in [
        (["COMMIT", " ", ""], 65_530, None),
        (["COMMIT", " ", ""], 65_531, Some(ParseEnd::TooLong)),
        (["", "[", ""], 64, Some(ParseEnd::XPST0003)),
        ([")", "{", ""], 65, Some(ParseEnd::NestedTooDeep)),
        (["", "(", "'"], 65, Some(ParseEnd::XPST0003)),
        (["", "return ", ""], 64, Some(ParseEnd::XPST0003)),
        (["return ", "else ", ""], 64, Some(ParseEnd::NestedTooDeep)),
        (["EXPORT '", "\u{e4}", "a'"], 127, None),
        (["EXPORT '", "\u{e4}", "ab'"], 127, Some(ParseEnd::BadName)),
    ] {
        assert_eq!(rt; refusal_of_repeated(alloc, parts, times)?, want);
    }
    Ok(())
}
