//! What no clause says: that copies are made where there is memory, and the texts of codes.
use std::alloc::Global;
use std::test::Fail;
use xq_ast::{
    Axis, Bind, Boxed, Call, CallText, Code, CompareOp, Expr, ExprList, Items, LockMode, Mark,
    Need, NoMemory, PathStep, ProductOp, ProductPart, PyxRefusal, Sequence, Sign, SortKey,
    SpentKind, Start, Step, Str, SumPart, Symbol, Test, Token, Update, is_document_name, is_name,
};

fn int(alloc: Global) -> Result<Boxed<Expr>, NoMemory> {
    Ok(Boxed::new(alloc, Expr::Int { value: 1 })?)
}

fn ints(alloc: Global) -> Result<ExprList, NoMemory> {
    let mut all = Items::new(alloc);
    all.push(Expr::Int { value: 1 })?;
    Ok(all)
}

fn compare(alloc: Global) -> Result<Expr, NoMemory> {
    Ok(Expr::Compare {
        left: int(alloc)?,
        op: CompareOp::Le,
        right: int(alloc)?,
    })
}

fn range(alloc: Global) -> Result<Expr, NoMemory> {
    Ok(Expr::Range {
        low: int(alloc)?,
        high: int(alloc)?,
    })
}

fn choice(alloc: Global) -> Result<Expr, NoMemory> {
    Ok(Expr::If {
        test: int(alloc)?,
        yes: int(alloc)?,
        no: int(alloc)?,
    })
}

fn sum(alloc: Global) -> Result<Expr, NoMemory> {
    let first = int(alloc)?;
    let mut rest = Items::new(alloc);
    rest.push(SumPart {
        minus: true,
        expr: Expr::Context,
    })?;
    Ok(Expr::Sum { first, rest })
}

fn product(alloc: Global) -> Result<Expr, NoMemory> {
    let first = int(alloc)?;
    let mut rest = Items::new(alloc);
    rest.push(ProductPart {
        op: ProductOp::Mod,
        expr: Expr::Context,
    })?;
    Ok(Expr::Product { first, rest })
}

fn signed(alloc: Global) -> Result<Expr, NoMemory> {
    let inner = int(alloc)?;
    let mut signs = Sequence::new(alloc);
    signs.push(Sign::Minus)?;
    Ok(Expr::Signed { signs, inner })
}

fn filter(alloc: Global) -> Result<Expr, NoMemory> {
    Ok(Expr::Filter {
        inner: int(alloc)?,
        preds: ints(alloc)?,
    })
}

fn step(alloc: Global) -> Step {
    Step {
        deep: true,
        axis: Axis::Itself,
        test: Test::Name {
            name: Some(Str::new(alloc)),
        },
        preds: Items::new(alloc),
    }
}

fn path(alloc: Global) -> Result<Expr, NoMemory> {
    let mut rest = Items::new(alloc);
    rest.push(step(alloc))?;
    Ok(Expr::Path {
        start: Start::First { step: step(alloc) },
        rest,
    })
}

fn path_of_value(alloc: Global) -> Result<Expr, NoMemory> {
    Ok(Expr::Path {
        start: Start::Value { inner: int(alloc)? },
        rest: Items::new(alloc),
    })
}

fn flwor(alloc: Global) -> Result<Expr, NoMemory> {
    let result = int(alloc)?;
    let mut binds = Items::new(alloc);
    binds.push(Bind::For {
        name: Str::new(alloc),
        at: Some(Str::new(alloc)),
        source: Expr::Context,
    })?;
    binds.push(Bind::Let {
        name: Str::new(alloc),
        value: Expr::Context,
    })?;
    let mut keys = Items::new(alloc);
    keys.push(SortKey {
        expr: Expr::Context,
        descending: true,
    })?;
    Ok(Expr::Flwor {
        binds,
        filter: None,
        keys,
        result,
    })
}

fn element(alloc: Global) -> Result<Expr, NoMemory> {
    Ok(Expr::Element {
        name: Str::new(alloc),
        content: Some(int(alloc)?),
    })
}

fn attribute(alloc: Global) -> Result<Expr, NoMemory> {
    Ok(Expr::Attribute {
        name: Str::new(alloc),
        content: Some(int(alloc)?),
    })
}

/// A copy of an expression is made.
fn check(alloc: Global, expr: Expr) -> Result<(), Fail> {
    let _ = expr.copy(alloc)?;
    Ok(())
}

#[test]
fn operators_are_copied(rt: HostRuntime) -> Result<(), Fail> {
    let alloc = rt.alloc();
    let parts = ints(alloc)?;
    check(alloc, Expr::Or { parts })?;
    let parts = ints(alloc)?;
    check(alloc, Expr::And { parts })?;
    let parts = ints(alloc)?;
    check(alloc, Expr::Union { parts })?;
    check(alloc, compare(alloc)?)?;
    check(alloc, range(alloc)?)?;
    check(alloc, sum(alloc)?)?;
    check(alloc, product(alloc)?)?;
    check(alloc, signed(alloc)?)
}

#[test]
fn primaries_and_paths_are_copied(rt: HostRuntime) -> Result<(), Fail> {
    let alloc = rt.alloc();
    let name = Str::new(alloc);
    check(alloc, Expr::Var { name })?;
    let value = Str::new(alloc);
    check(alloc, Expr::Text { value })?;
    let name = Str::new(alloc);
    check(alloc, Expr::Doc { name })?;
    let name = Str::new(alloc);
    let args = ints(alloc)?;
    check(alloc, Expr::Fun { name, args })?;
    check(alloc, filter(alloc)?)?;
    check(alloc, path(alloc)?)?;
    check(alloc, path_of_value(alloc)?)
}

#[test]
fn wider_expressions_are_copied(rt: HostRuntime) -> Result<(), Fail> {
    let alloc = rt.alloc();
    let parts = ints(alloc)?;
    check(alloc, Expr::Seq { parts })?;
    check(alloc, flwor(alloc)?)?;
    check(alloc, choice(alloc)?)?;
    check(alloc, element(alloc)?)?;
    check(alloc, attribute(alloc)?)?;
    check(alloc, Expr::TextNode { content: None })
}

/// A copy of an update is made.
fn check_update(alloc: Global, update: Update) -> Result<(), Fail> {
    let _ = update.copy(alloc)?;
    Ok(())
}

#[test]
fn updates_are_copied(rt: HostRuntime) -> Result<(), Fail> {
    let alloc = rt.alloc();
    for update in [
        Update::Into {
            source: Expr::Context,
            target: Expr::Context,
        },
        Update::Preceding {
            source: Expr::Context,
            target: Expr::Context,
        },
        Update::Following {
            source: Expr::Context,
            target: Expr::Context,
        },
        Update::Delete {
            target: Expr::Context,
        },
        Update::DeleteUndeep {
            target: Expr::Context,
        },
        Update::Replace {
            name: Str::new(alloc),
            target: Expr::Context,
            by: Expr::Context,
        },
        Update::Rename {
            target: Expr::Context,
            name: Str::new(alloc),
        },
    ] {
        check_update(alloc, update)?;
    }
    Ok(())
}

#[test]
fn calls_are_copied(rt: HostRuntime) -> Result<(), Fail> {
    let alloc = rt.alloc();
    let mut pyx = Sequence::new(alloc);
    pyx.push(Str::of(alloc, "(a")?)?;
    let text = CallText {
        text: Str::of(alloc, "LOAD 'd'")?,
        pyx,
    };
    let CallText { text: name, pyx } = text.copy()?;
    assert_eq!(rt; name.as_str(), "LOAD 'd'");
    let load = Call::Load { name, pyx };
    assert_eq!(rt; matches!(load.copy(alloc)?, Call::Load { .. }), true);
    Ok(())
}

#[test]
fn needs_are_copied(rt: HostRuntime) -> Result<(), Fail> {
    let alloc = rt.alloc();
    let mut needs = Sequence::new(alloc);
    needs.push(Need {
        name: Str::of(alloc, "d")?,
        mode: LockMode::X,
    })?;
    for need in needs.copy()?.as_slice() {
        assert_eq!(rt; need.name.as_str(), "d");
        assert_eq!(rt; need.mode, LockMode::X);
    }
    Ok(())
}

#[test]
fn tokens_are_copied(rt: HostRuntime) -> Result<(), Fail> {
    let alloc = rt.alloc();
    let mut tokens = Sequence::new(alloc);
    tokens.push(Token::Name(Str::new(alloc)))?;
    tokens.push(Token::Text(Str::new(alloc)))?;
    tokens.push(Token::Int(7))?;
    tokens.push(Token::Symbol(Symbol::Dollar))?;
    let copy = tokens.copy()?;
    let last = copy.as_slice().last();
    assert_eq!(rt; copy.len(), 4);
    assert_eq!(rt; matches!(last, Some(Token::Symbol(Symbol::Dollar))), true);
    Ok(())
}

#[test]
fn structural_paths_are_copied(rt: HostRuntime) -> Result<(), Fail> {
    let alloc = rt.alloc();
    let mut path = Sequence::new(alloc);
    path.push(PathStep {
        deep: true,
        attribute: false,
        name: None,
    })?;
    for step in path.copy()?.as_slice() {
        assert_eq!(rt; step.deep, true);
        assert_eq!(rt; step.attribute, false);
        assert_eq!(rt; step.name.is_none(), true);
    }
    Ok(())
}

#[test]
fn a_name_is_told_by_its_bytes(rt: HostRuntime) -> Result<(), Fail> {
    let alloc = rt.alloc();
    let longest = "a".repeat(alloc, 255)?;
    let too_many_bytes = "\u{e9}".repeat(alloc, 128)?;
    assert_eq!(rt; is_name(longest.as_str()), true);
    assert_eq!(rt; is_name(too_many_bytes.as_str()), false);
    for (text, want) in [
        ("", false),
        ("a", true),
        ("Z", true),
        ("_", true),
        (":", true),
        ("\u{e9}", true),
        ("1", false),
        ("-a", false),
        (".a", false),
        ("@a", false),
        ("[a", false),
        ("a1-.b:_\u{e9}", true),
        ("a b", false),
        ("a/b", false),
        ("a\n", false),
    ] {
        assert_eq!(rt; is_name(text), want, "of {text}");
    }
    Ok(())
}

#[test]
fn a_document_name_is_told_by_its_bytes(rt: HostRuntime) {
    for (text, want) in [
        ("", false),
        (" ", true),
        ("a/\u{e9}", true),
        ("a\tb", false),
    ] {
        assert_eq!(rt; is_document_name(text), want, "of {text}");
    }
}

#[test]
fn each_code_has_its_text(rt: HostRuntime) -> Result<(), Fail> {
    let alloc = rt.alloc();
    let mark = Mark {
        before: 3,
        after: 4,
    };
    let line = Code::Pyx {
        why: PyxRefusal::BadLine,
        line: 3,
    };
    let generation = Code::Spent {
        kind: SpentKind::Generation,
        number: u64::MAX,
    };
    let page = Code::Damaged {
        commit: 12,
        ordinal: 0,
        page: 345,
    };
    for (code, text) in [
        (Code::XPST0003, "XPST0003"),
        (Code::InDoubt { mark }, "InDoubt"),
        (line, "Pyx BadLine 3"),
        (generation, "Spent generation 18446744073709551615"),
        (page, "Damaged 12 0 345"),
    ] {
        assert_eq!(rt; code.text(alloc)?.as_str(), text);
    }
    Ok(())
}

#[test]
fn the_text_of_a_code_is_read(rt: HostRuntime) -> Result<(), Fail> {
    let alloc = rt.alloc();
    let mark = Mark {
        before: 0,
        after: 0,
    };
    let line = Code::Pyx {
        why: PyxRefusal::Unclosed,
        line: 10,
    };
    let log = Code::Spent {
        kind: SpentKind::Log,
        number: 9223372036854775807,
    };
    let page = Code::Damaged {
        commit: 0,
        ordinal: 7,
        page: u64::MAX,
    };
    for (text, code) in [
        ("FOAR0001", Code::FOAR0001),
        ("Failed", Code::Failed { mark }),
        ("Pyx Unclosed 10", line),
        ("Spent log 9223372036854775807", log),
        ("Damaged 0 7 18446744073709551615", page),
    ] {
        assert_eq!(rt;
            Code::of_text(&Str::of(alloc, text)?),
            Some(code),
            "at {text}"
        );
    }
    Ok(())
}

#[test]
fn the_text_of_no_code_is_not_read(rt: HostRuntime) -> Result<(), Fail> {
    let alloc = rt.alloc();
    for text in [
        "",
        "foar0001",
        "Failed ",
        "Pyx BadLine",
        "Pyx BadLine 03",
        "Pyx BadLine +3",
        "Spent slot 18446744073709551616",
        "Damaged 1 2",
        "Damaged 1 2 3 4",
    ] {
        assert_eq!(rt; Code::of_text(&Str::of(alloc, text)?), None, "at {text}");
    }
    Ok(())
}
