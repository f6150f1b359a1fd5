//! A session and its calls.
ghost use Rattle.std.specs.Prelude.{◌≡◌, ◌≢◌, ℕ, false, None, IsTrue, IfOk, OnOk, OnErr};
ghost use Rattle.session_core.specs.declared.history.event.Event.TheVariants as events;
ghost use Rattle.session_core.specs.Keeping.Kept.{with_event, past};
ghost use Rattle.session_core.specs.History.States.{state as state_of, is_open};
ghost use Rattle.session_run.specs.Called.{IsCalled, IsUnclosed, IsUntouched};
ghost use Rattle.xml_model.specs.Changes.{no_changes};
ghost use Rattle.session_run.specs.Outcomes.{EndsWith};
ghost use Rattle.session_run.specs.Tied.{IsReady};

use crate::outcome::Outcome;
use crate::running::close_by_text;
use session_core::{Core, State};
use std::alloc::Global;
use std::marker::Model;
use xml_model::DocChanges;
use xq_ast::{CallText, NoMemory};

/// One session: its number and the changes of its open transaction.
#[derive(Drop)]
pub struct Session {
    alloc: Global,
    number: u32,
    changes: DocChanges,
}

impl Model for Session {
    ghost use Rattle.session_run.specs.Sessions.{Seat, seat_code, seat_of};

    ghost Value = { Seat };

    ghost coded = { seat_code };

    ghost view = { λ s. seat_of s.number s.changes.changes };
}

impl Session {
    ghost use Rattle.session_run.specs.Sessions.{seat_of};

    /// A session that has made no call. Takes no memory.
    pub fn of(alloc: Global, number: u32) -> Session
        ensures { result ≡ seat_of number no_changes }
    {
        Session {
            alloc,
            number,
            changes: DocChanges::new(alloc),
        }
    }

    /// The session's number.
    pub fn number(&self) -> u32
        ensures { result ≡ self.now.number }
    {
        self.number
    }

    /// Makes one call, whose events are added to the journal, and answers what its closing event
    /// says; the lines of an answer stand in that event, which `Core::last` lends. `NoMemory` says
    /// that the call is not closed.
    pub fn call_on(&mut self, core: &mut Core, call: &CallText) -> Result<Outcome, NoMemory>
        requires { IsReady self.old.number self.old.changes core.old }
        ensures ok { OnOk result (IsCalled self.old.number call.now core.old core.new) }
        ensures outcome { IfOk result (λ outcome. EndsWith outcome core.new) }
        ensures ready { OnOk result (IsReady self.new.number self.new.changes core.new) }
        ensures others { (t : ℕ) → t ≢ self.old.number → IsUntouched t core.old core.new }
        ensures number { self.new.number ≡ self.old.number }
        ensures err { OnErr result (IsUnclosed self.old.number call.now core.old core.new) }
        ensures same { OnErr result (self.new ≡ self.old) }
    {
        let called = close_by_text(self.alloc, core, self.number, &mut self.changes, call);
        // Hands out that the journal is legal with the call's events, which tells what they leave to
        // the other sessions.
        core.legal();
        called
    }

    /// The session's script has ended: an open transaction is rolled back. Takes no memory.
    pub fn leave_on(&mut self, core: &mut Core)
        requires { IsReady self.old.number self.old.changes core.old }
        ensures left { IsTrue (is_open (state_of self.old.number (past core.old))) → core.new ≡ with_event (events.Left self.old.number) core.old }
        ensures closed { is_open (state_of self.old.number (past core.old)) ≡ false → core.new ≡ core.old }
        ensures ready { IsReady self.new.number self.new.changes core.new }
        ensures others { (t : ℕ) → t ≢ self.old.number → IsUntouched t core.old core.new }
        ensures number { self.new.number ≡ self.old.number }
    {
        match core.state(self.number) {
            State::Updating | State::Reading(_) => {
                core.left(self.number);
                self.changes.clear();
            }
            State::Idle | State::InDoubt => {}
        }
        // Hands out that the journal is legal with the session's end, as in `call_on`.
        core.legal();
    }
}
