// What the types of a journal's events keep. These functions do nothing.
ghost use Rattle.std.specs.Prelude.{◌<◌, ◌^◌, length, IsUtf8};
ghost use Rattle.xq_ast.specs.CodeText.{InRange};
ghost use Rattle.script_text.specs.JournalText.{IsSession, IsKind};
ghost use Rattle.xdb_top.specs.Typed.{AreTexts, HaveTexts, IsTypedAnswer, IsTyped, AreTyped};

use session_core::{BeginKind, Event, Journal, Says};
use xq_ast::{Code, NeedList, Str, StrList};

fn text(text: &Str)
    ensures { IsUtf8 text.now }
{
    let _ = text.as_str();
}

fn texts(lines: &StrList)
    ensures texts { AreTexts lines.now }
    ensures width { length lines.now < 2 ^ 64 }
{
    let _ = lines.len();
    for line in lines.as_slice() {
        text(line);
    }
}

fn needs(needs: &NeedList)
    ensures { HaveTexts needs.now }
{
    for need in needs.as_slice() {
        text(&need.name);
    }
}

fn code(code: Code)
    ensures { InRange code }
{
    let _ = code;
}

fn kind(kind: BeginKind)
    ensures { IsKind kind }
{
    let _ = kind;
}

fn session(session: u32)
    ensures { IsSession session }
{
    let _ = session;
}

fn number(number: u64)
    ensures { number < 2 ^ 64 }
{
    let _ = number;
}

fn answer(says: &Says)
    ensures { IsTypedAnswer says.now }
{
    match says {
        Says::Lines(all) => texts(all),
        Says::Error(why) => code(*why),
        Says::Done
        | Says::Began(_)
        | Says::LockHeld(..)
        | Says::Committed(_)
        | Says::Ended
        | Says::RolledBack
        | Says::Doubt(_) => {}
    }
}

fn event(event: &Event)
    ensures { IsTyped event.now }
{
    match event {
        Event::Began(by, how) => {
            session(*by);
            kind(*how);
        }
        Event::Granted(by, asked) => {
            session(*by);
            needs(asked);
        }
        Event::Refused(by, name, holder, _) => {
            session(*by);
            text(name);
            session(*holder);
        }
        Event::Answered(by, reply) => {
            session(*by);
            answer(&reply.says);
        }
        Event::Committed(by, commit) => {
            session(*by);
            number(*commit);
        }
        Event::Ended(by) | Event::RolledBack(by) | Event::Left(by) => session(*by),
        Event::Doubt(by, commit, _) => {
            session(*by);
            number(*commit);
        }
        Event::Settled(by, other, _) => {
            session(*by);
            session(*other);
        }
    }
}

/// What the types keep of a journal.
pub(crate) fn typed(journal: &Journal)
    ensures { AreTyped journal.now }
{
    for one in journal.as_slice() {
        event(one);
    }
}
