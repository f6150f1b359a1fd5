//! Sessions over documents in memory, with the journal of what happened.
ghost use Rattle.std.specs.Prelude.{◌≡◌, ℕ, ◌+◌, ◌-◌, ◌<◌, List, [], ◌∷◌, ◌++◌, length, min, if◌then◌else◌, Some, None, IsTrue, IfOk, IfErr, OnOk, OnErr, slice_get, vec_capacity, ◌^◌};
ghost use Rattle.std.specs.Option.{option_copied};
ghost use Rattle.xml_model.specs.Needs.{needs as needs_of};
ghost use Rattle.xq_ast.specs.declared.call.Call.{Call};
ghost use Rattle.session_core.specs.History.States.{state as state_of, is_open, is_reading, in_doubt};
ghost use Rattle.session_core.specs.History.Locks.{AllFree};
ghost use Rattle.session_core.specs.History.Marks.{IsNextMark};
ghost use Rattle.session_core.specs.History.Legal.{SoFar};
ghost use Rattle.session_core.specs.Keeping.Kept.{kept_of, with_event, past, Follows, forest_behind, forest_in, AskEnds, CanSettle, IsSettled};
ghost use Rattle.session_core.specs.History.Settling.{HasCommitLeft};
ghost use Rattle.xml_model.specs.Forest.{IsForest};
ghost use Rattle.session_core.specs.History.Transactions.{after, newest_number, next_number};

use crate::history::event::{BeginKind, Event, Journal, Reply, State};
use crate::keeping::states::StateTable;
use doc_locks::{AskEnd, LockTable};
use std::alloc::Global;
use std::marker::Model;
use std::snapshot::Snapshot;
use xml_model::DocMap;
use xq_ast::{Mark, NeedList, NoMemory, Sequence};

/// A commit in doubt: whose it is, and the documents if it stands.
#[derive(Drop)]
struct Unsettled {
    session: u32,
    forest: DocMap,
}

/// A journal over a base, with the states and the locks of its sessions and the documents behind
/// each commit.
#[derive(Drop)]
pub struct Core {
    base_commit: u64,
    base_generation: u64,
    base_forest: Snapshot<DocMap>,
    journal: Vec<Event>,
    states: StateTable,
    /// How many sessions are in a transaction. The journal has room for as many events more.
    opened: usize,
    /// The newest commit number.
    newest: u64,
    locks: LockTable,
    /// The documents before the first commit, and behind each.
    forests: Vec<DocMap>,
    doubt: Option<Unsettled>,
}

impl Model for Core {
    ghost use Rattle.std.specs.Prelude.{vec_capacity};
    ghost use Rattle.session_core.specs.Keeping.Kept.{Kept, kept_code, kept_of};
    ghost use Rattle.session_core.specs.History.Unsettled.{pair_of};
    ghost use Rattle.session_core.specs.Keeping.Ties.{IsCore, holding};

    ghost Value = { Kept };

    ghost coded = { kept_code };

    ghost view = { λ a. kept_of a.base_commit a.base_generation a.base_forest.value a.journal.items };

    ghost invariant = { λ a. IsCore (kept_of a.base_commit a.base_generation a.base_forest.value a.journal.items).base (holding a.journal.items (vec_capacity a.journal) a.states a.opened a.newest a.locks a.forests.items (pair_of a.doubt)) };
}

impl Core {
    /// An empty journal over this base.
    pub fn new(
        alloc: Global,
        commit: u64,
        generation: u64,
        forest: DocMap,
    ) -> Result<Core, NoMemory>
        ensures { IfOk result (λ core. core ≡ kept_of commit generation forest []) }
    {
        forest.is_forest();
        let base_forest = Snapshot::of(&forest);
        let mut forests = Vec::new(alloc);
        forests.push(forest)?;
        Ok(Core {
            base_commit: commit,
            base_generation: generation,
            base_forest,
            journal: Vec::new(alloc),
            states: StateTable::new(alloc),
            opened: 0,
            newest: commit,
            locks: LockTable::new(alloc),
            forests,
            doubt: None,
        })
    }

    /// What the type keeps: the journal is legal so far.
    pub fn legal(&self)
        ensures { SoFar self.now.base self.now.journal }
    {
        let _ = &self.opened;
    }

    /// What the type keeps: the documents behind any number of commits are valid, also those that
    /// it began with.
    pub fn forests_are_valid(&self)
        ensures { (n : ℕ) → IsForest (after self.now.base (past self.now) n) }
    {
        let _ = &self.forests;
    }

    /// The session's state. Takes no memory.
    pub fn state(&self, session: u32) -> State
        ensures { result ≡ state_of session (past self.now) }
    {
        self.states.state(session)
    }

    /// The newest commit number. Takes no memory.
    pub fn newest(&self) -> u64
        ensures { result ≡ newest_number self.now.base.numbers (past self.now) }
    {
        self.newest
    }

    /// The newest event, if there is one: what a call was answered, with the lines of an answer. Takes
    /// no memory.
    pub fn last(&self) -> Option<&Event>
        ensures { option_copied result ≡ slice_get self.now.journal (length self.now.journal - 1) }
    {
        self.journal.last()
    }

    /// Begins an updating transaction.
    pub fn begin_update(&mut self, session: u32) -> Result<(), NoMemory>
        requires idle { state_of session (past self.old) ≡ State.Idle }
        requires follows { Follows (Event.Began session BeginKind.Updating) (past self.old) }
        ensures ok { OnOk result (self.new ≡ with_event (Event.Began session BeginKind.Updating) self.old) }
        ensures err { OnErr result (self.new ≡ self.old) }
    {
        self.journal.reserve(self.opened + 2)?;
        self.states.set(session, State::Updating)?;
        self.opened += 1;
        self.journal
            .push_reserved(Event::Began(session, BeginKind::Updating));
        Ok(())
    }

    /// Begins a read-only transaction at the newest commit, and answers its number.
    pub fn begin_read(&mut self, session: u32) -> Result<u64, NoMemory>
        requires idle { state_of session (past self.old) ≡ State.Idle }
        requires follows { Follows (Event.Began session (BeginKind.Reading (newest_number self.old.base.numbers (past self.old)))) (past self.old) }
        ensures number { IfOk result (λ n. n ≡ newest_number self.old.base.numbers (past self.old)) }
        ensures ok { IfOk result (λ n. self.new ≡ with_event (Event.Began session (BeginKind.Reading n)) self.old) }
        ensures err { OnErr result (self.new ≡ self.old) }
    {
        self.journal.reserve(self.opened + 2)?;
        let number = self.newest;
        self.states.set(session, State::Reading(number))?;
        self.opened += 1;
        self.journal
            .push_reserved(Event::Began(session, BeginKind::Reading(number)));
        Ok(number)
    }

    /// Ends a read-only transaction. Takes no memory.
    pub fn end_read(&mut self, session: u32)
        requires reading { IsTrue (is_reading (state_of session (past self.old))) }
        requires follows { Follows (Event.Ended session) (past self.old) }
        ensures { self.new ≡ with_event (Event.Ended session) self.old }
    {
        self.states.remove(session);
        self.locks.release(session);
        self.opened -= 1;
        self.journal.push_reserved(Event::Ended(session));
    }

    /// Rolls a transaction back. Takes no memory.
    pub fn roll_back(&mut self, session: u32)
        requires inside { IsTrue (is_open (state_of session (past self.old))) }
        requires follows { Follows (Event.RolledBack session) (past self.old) }
        ensures { self.new ≡ with_event (Event.RolledBack session) self.old }
    {
        self.states.remove(session);
        self.locks.release(session);
        self.opened -= 1;
        self.journal.push_reserved(Event::RolledBack(session));
    }

    /// The session's script has ended with its transaction open. Takes no memory.
    pub fn left(&mut self, session: u32)
        requires inside { IsTrue (is_open (state_of session (past self.old))) }
        requires follows { Follows (Event.Left session) (past self.old) }
        ensures { self.new ≡ with_event (Event.Left session) self.old }
    {
        self.states.remove(session);
        self.locks.release(session);
        self.opened -= 1;
        self.journal.push_reserved(Event::Left(session));
    }

    /// Grants a call's locks to the session, or none of them: then the first name in conflict and
    /// the least session that holds it are answered.
    pub fn ask(&mut self, session: u32, needs: &NeedList) -> Result<(), AskEnd>
        requires updating { state_of session (past self.old) ≡ State.Updating }
        requires some { 0 < length needs.now }
        requires of_call { (call : Call) × (needs_of call ≡ needs.now) }
        requires follows { Follows (Event.Granted session needs.now) (past self.old) }
        ensures free { OnOk result (AllFree session needs.now (past self.old)) }
        ensures granted { OnOk result (self.new ≡ with_event (Event.Granted session needs.now) self.old) }
        ensures refused { IfErr result (AskEnds session needs.now self.old self.new) }
    {
        if self.journal.reserve(self.opened + 1).is_err() {
            return Err(AskEnd::NoMemory);
        }
        let asked = needs.copy()?;
        match self.locks.ask(session, needs) {
            Ok(()) => {
                self.journal.push_reserved(Event::Granted(session, asked));
                Ok(())
            }
            Err(AskEnd::Held { name, holder }) => {
                let Ok(copy) = name.copy() else {
                    return Err(AskEnd::NoMemory);
                };
                self.journal
                    .push_reserved(Event::Refused(session, copy, holder, asked));
                Err(AskEnd::Held { name, holder })
            }
            Err(AskEnd::NoMemory) => Err(AskEnd::NoMemory),
        }
    }

    /// Adds an answer. It is any that keeps the journal legal so far.
    pub fn post(&mut self, session: u32, reply: Reply) -> Result<(), NoMemory>
        requires legal { SoFar self.old.base (self.old.journal ++ Event.Answered session reply ∷ []) }
        ensures ok { OnOk result (self.new ≡ with_event (Event.Answered session reply) self.old) }
        ensures err { OnErr result (self.new ≡ self.old) }
    {
        self.journal.reserve(self.opened + 1)?;
        self.journal.push_reserved(Event::Answered(session, reply));
        Ok(())
    }

    /// Commits the session's transaction, behind which the documents are these, and answers the
    /// commit's number.
    pub fn commit(&mut self, session: u32, forest: DocMap) -> Result<u64, NoMemory>
        requires updating { state_of session (past self.old) ≡ State.Updating }
        requires settled { in_doubt (past self.old) ≡ None }
        requires left { HasCommitLeft self.old.base.numbers (past self.old) }
        requires forest { forest ≡ forest_behind self.old.base session (past self.old) }
        requires follows { Follows (Event.Committed session (next_number self.old.base.numbers (past self.old))) (past self.old) }
        ensures number { IfOk result (λ n. n ≡ next_number self.old.base.numbers (past self.old)) }
        ensures ok { IfOk result (λ n. self.new ≡ with_event (Event.Committed session n) self.old) }
        ensures err { OnErr result (self.new ≡ self.old) }
    {
        forest.is_forest();
        self.forests.reserve(1)?;
        let number = self.newest + 1;
        self.forests.push_reserved(forest);
        self.newest = number;
        self.states.remove(session);
        self.locks.release(session);
        self.opened -= 1;
        self.journal
            .push_reserved(Event::Committed(session, number));
        Ok(number)
    }

    /// The same where it is not known whether the commit stands, with the mark of the device's
    /// failing call. The commit is in doubt until it is settled.
    pub fn doubt(&mut self, session: u32, forest: DocMap, mark: Mark) -> Result<u64, NoMemory>
        requires updating { state_of session (past self.old) ≡ State.Updating }
        requires settled { in_doubt (past self.old) ≡ None }
        requires left { HasCommitLeft self.old.base.numbers (past self.old) }
        requires forest { forest ≡ forest_behind self.old.base session (past self.old) }
        requires mark { IsNextMark (past self.old) mark }
        requires follows { Follows (Event.Doubt session (next_number self.old.base.numbers (past self.old)) mark) (past self.old) }
        ensures number { IfOk result (λ n. n ≡ next_number self.old.base.numbers (past self.old)) }
        ensures ok { IfOk result (λ n. self.new ≡ with_event (Event.Doubt session n mark) self.old) }
        ensures err { OnErr result (self.new ≡ self.old) }
    {
        forest.is_forest();
        self.journal.reserve(self.opened + 1)?;
        self.states.set(session, State::InDoubt)?;
        let number = self.newest + 1;
        self.doubt = Some(Unsettled { session, forest });
        self.journal
            .push_reserved(Event::Doubt(session, number, mark));
        Ok(number)
    }

    /// Settles the commit in doubt: whether it stands.
    pub fn settled(&mut self, by: u32, stands: bool) -> Result<(), NoMemory>
        requires doubt { CanSettle by stands (past self.old) }
        ensures ok { OnOk result (IsSettled by stands self.old self.new) }
        ensures err { OnErr result (self.new ≡ self.old) }
    {
        self.forests.reserve(1)?;
        let Some(unsettled) = self.doubt.take() else {
            return Ok(());
        };
        let Unsettled { session, forest } = unsettled;
        self.newest = keep_if(&mut self.forests, self.newest, forest, stands);
        self.states.remove(session);
        self.locks.release(session);
        self.opened -= 1;
        self.journal
            .push_reserved(Event::Settled(by, session, stands));
        Ok(())
    }

    /// The documents that the session sees: those at its snapshot's commit where it reads, and else
    /// the newest. Takes no memory.
    pub fn forest(&self, session: u32) -> &DocMap
        ensures { result.now ≡ forest_in self.now.base (past self.now) (state_of session (past self.now)) }
    {
        match self.states.state(session) {
            State::Reading(number) => {
                forest_at(&self.forests, number.saturating_sub(self.base_commit))
            }
            _ => forest_at(&self.forests, self.newest - self.base_commit),
        }
    }

    /// The journal.
    pub fn close(self) -> Journal
        ensures journal { result ≡ self.journal }
        ensures legal { SoFar self.base self.journal }
    {
        let Core {
            base_commit: _,
            base_generation: _,
            base_forest: _,
            journal,
            states: _,
            opened: _,
            newest: _,
            locks: _,
            forests: _,
            doubt: _,
        } = self;
        Sequence::from_vec(journal)
    }
}

/// The forest behind so many commits, or behind all that there are.
fn forest_at(forests: &Vec<DocMap>, commits: u64) -> &DocMap
    requires { 0 < length forests.now.items }
    ensures { slice_get forests.now.items (min commits (length forests.now.items - 1)) ≡ Some result.now }
{
    let last = forests.len() - 1;
    if commits < last as u64 {
        return &forests[commits as usize];
    }
    &forests[last]
}

/// Keeps the forest of a commit that stands, and answers the newest commit number.
fn keep_if(forests: &mut Vec<DocMap>, newest: u64, forest: DocMap, stands: bool) -> u64
    requires room { length forests.old.items < vec_capacity forests.old }
    requires left { newest < 2 ^ 64 - 1 }
    ensures number { result ≡ (if stands then newest + 1 else newest) }
    ensures forests { forests.new.items ≡ (if stands then forests.old.items ++ forest ∷ [] else forests.old.items) }
{
    if stands {
        forests.push_reserved(forest);
        newest + 1
    } else {
        newest
    }
}
