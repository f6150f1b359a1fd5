//! The table of all sessions' locks.
ghost use Rattle.std.specs.Prelude.{◌≡◌, ◌<◌, length, IsSome, Some, IfSome, IfNone, OnOk, OnErr, IfErr, All, not, ◌&&◌, ◌==◌};
ghost use Rattle.std.specs.FinMap as map;
ghost use Rattle.doc_locks.specs.Locks.{IsFree, IsLeastHolder, IsFirstConflict, granted};
ghost use Rattle.xq_ast.specs.Modes.{conflicts};
ghost use Rattle.doc_locks.specs.Refusal.{IsRefusal, NamesConflict};
ghost use Rattle.doc_locks.specs.Least.{least_with};

use crate::conflict::is_conflict;
use crate::end::AskEnd;
use crate::held::HeldNames;
use indexmap::IndexMap;
use std::alloc::Global;
use std::marker::Model;
use xq_ast::{Need, NeedList, NoMemory};

/// Which session holds which name in which mode.
#[derive(Drop)]
pub struct LockTable {
    sessions: IndexMap<u32, HeldNames>,
}

impl Model for LockTable {
    ghost use Rattle.std.specs.FinMap as map;
    ghost use Rattle.doc_locks.specs.Names.{Locks, locks_code};

    ghost Value = { Locks };

    ghost coded = { locks_code };

    ghost view = { λ t. map.from_entries t.sessions.entries };
}

/// The first of some needs that is in conflict, by its place, and the least session that holds a lock in conflict.
#[derive(Clone, Copy)]
struct Conflict {
    place: usize,
    holder: u32,
}

impl LockTable {
    ghost use Rattle.std.specs.Borrow.{sem};
    ghost use Rattle.doc_locks.specs.Lends.{lends_names};

    /// No locks. Takes no memory.
    pub fn new(alloc: Global) -> LockTable
        ensures { result ≡ map.empty }
    {
        LockTable {
            sessions: IndexMap::new(alloc),
        }
    }

    /// Grants all needs to the session, or none of them.
    pub fn ask(&mut self, session: u32, needs: &NeedList) -> Result<(), AskEnd>
        ensures free { OnOk result (All (IsFree self.old session) needs.now) }
        ensures granted { OnOk result (self.new ≡ granted self.old session needs.now) }
        ensures refused { IfErr result (IsRefusal self.old session needs.now) }
        ensures err { OnErr result (self.new ≡ self.old) }
    {
        if let Some(conflict) = self.first_conflict(session, needs.as_slice()) {
            return Err(refusal(needs.as_slice(), conflict));
        }
        self.grant(session, needs)?;
        Ok(())
    }

    /// Takes all locks of the session away. Takes no memory.
    pub fn release(&mut self, session: u32)
        ensures { self.new ≡ map.remove self.old session }
    {
        let _ = self.sessions.shift_remove(&session);
    }

    fn first_conflict(&self, session: u32, needs: &[Need]) -> Option<Conflict>
        ensures free { IfNone result (All (IsFree self.now session) needs.now) }
        ensures first { IfSome result (λ c. IsFirstConflict self.now session needs.now c.place c.holder) }
    {
        for place in 0..needs.len() {
            if let Some(holder) = self.least_holder(session, &needs[place]) {
                return Some(Conflict { place, holder });
            }
        }
        None
    }

    fn least_holder(&self, session: u32, need: &Need) -> Option<u32>
        ensures free { IfNone result (IsFree self.now session need.now) }
        ensures least { IfSome result (IsLeastHolder self.now session need.now) }
    {
        let mut least = None;
        for place in 0..self.sessions.len() {
            if let Some((holder, held)) = self.sessions.get_index(place) {
                least = with_holder(least, *holder, blocks(*holder, held, session, need));
            }
        }
        least
    }

    fn grant(&mut self, session: u32, needs: &NeedList) -> Result<(), NoMemory>
        ensures ok { OnOk result (self.new ≡ granted self.old session needs.now) }
        ensures err { OnErr result (self.new ≡ self.old) }
    {
        let alloc = *self.sessions.allocator();
        if self.sessions.contains_key(&session) {
            return self.lend(session).add(alloc, needs);
        }
        let mut own = HeldNames::new(alloc);
        own.add(alloc, needs)?;
        self.sessions.insert(session, own)?;
        Ok(())
    }

    /// The names of a session that is in the table, to write to.
    fn lend(&mut self, session: u32) -> &mut HeldNames
        requires { IsSome (map.get self.old session) }
        ensures* writes_back { sem 𝓛 (lends_names self.entry session result) }
        ensures value { map.get self.old session ≡ Some result.now }
    {
        self.sessions.get_mut(&session).unwrap()
    }
}

/// Whether this is another session than the one that asks, and what it holds conflicts with the need.
fn blocks(holder: u32, held: &HeldNames, session: u32, need: &Need) -> bool
    ensures { result ≡ (not (holder == session) && conflicts (map.get held.now need.now.name) need.now.mode) }
{
    holder != session && is_conflict(held.mode(&need.name), need.mode)
}

/// The lesser of two sessions, where the second one holds a lock in conflict.
fn with_holder(least: Option<u32>, holder: u32, conflicts: bool) -> Option<u32>
    ensures { result ≡ least_with least holder conflicts }
{
    match least {
        _ if !conflicts => least,
        Some(least) if least <= holder => Some(least),
        _ => Some(holder),
    }
}

/// The refusal that names what is in conflict.
fn refusal(needs: &[Need], conflict: Conflict) -> AskEnd
    requires { conflict.place < length needs.now }
    ensures { NamesConflict needs.now conflict.place conflict.holder result }
{
    match needs[conflict.place].name.copy() {
        Ok(name) => AskEnd::Held {
            name,
            holder: conflict.holder,
        },
        Err(_) => AskEnd::NoMemory,
    }
}
