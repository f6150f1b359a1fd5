//! The sessions that are in a transaction, each with its state.
ghost use Rattle.std.specs.Prelude.{◌≡◌, None, OnOk, OnErr};
ghost use Rattle.std.specs.FinMap as map;
ghost use Rattle.session_core.specs.Keeping.Table.{state_at};

use crate::history::event::State;
use indexmap::IndexMap;
use std::alloc::Global;
use std::marker::Model;
use xq_ast::NoMemory;

/// The states of the sessions that are in a transaction; every other session is idle.
#[derive(Drop)]
pub struct StateTable {
    sessions: IndexMap<u32, State>,
}

impl Model for StateTable {
    ghost use Rattle.std.specs.FinMap as map;
    ghost use Rattle.session_core.specs.Keeping.Table.{States, states_code};

    ghost Value = { States };

    ghost coded = { states_code };

    ghost view = { λ t. map.from_entries t.sessions.entries };
}

impl StateTable {
    /// No session is in a transaction. Takes no memory.
    pub fn new(alloc: Global) -> StateTable
        ensures { result ≡ map.empty }
    {
        StateTable {
            sessions: IndexMap::new(alloc),
        }
    }

    /// The session's state.
    pub fn state(&self, session: u32) -> State
        ensures { result ≡ state_at (map.get self.now session) }
    {
        match self.sessions.get(&session) {
            Some(state) => *state,
            None => State::Idle,
        }
    }

    /// Gives the session this state. A session that is in the table takes no memory.
    pub fn set(&mut self, session: u32, state: State) -> Result<(), NoMemory>
        ensures ok { OnOk result (self.new ≡ map.insert self.old session state) }
        ensures err { OnErr result (self.new ≡ self.old) }
        ensures absent { OnErr result (map.get self.old session ≡ None) }
    {
        let _ = self.sessions.insert(session, state)?;
        Ok(())
    }

    /// Takes the session out. Takes no memory.
    pub fn remove(&mut self, session: u32)
        ensures { self.new ≡ map.remove self.old session }
    {
        let _ = self.sessions.shift_remove(&session);
    }
}
