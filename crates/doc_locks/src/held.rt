//! Names with modes: those that one session holds, and those that a call needs.
ghost use Rattle.std.specs.Prelude.{◌≡◌, ◌+◌, ◌≤◌, IfOk, OnOk, OnErr, length};
ghost use Rattle.std.specs.FinMap as map;
ghost use Rattle.indexmap.specs.IndexMap.{spare};
ghost use Rattle.doc_locks.specs.Names.{names_of_entries};
ghost use Rattle.doc_locks.specs.Locks.{with_need, with_needs, needs_of};

use crate::conflict::stronger_mode;
use indexmap::IndexMap;
use std::alloc::Global;
use std::marker::Model;
use xq_ast::{LockMode, Need, NeedList, NoMemory, Sequence, Str};

/// Names, each once with a mode, in the order in which they were first added.
#[derive(Drop)]
pub struct HeldNames {
    modes: IndexMap<String, LockMode>,
}

impl Model for HeldNames {
    ghost use Rattle.doc_locks.specs.Names.{Names, names_code, names_of_entries};

    ghost Value = { Names };

    ghost coded = { names_code };

    ghost view = { λ h. names_of_entries h.modes.entries };
}

impl HeldNames {
    /// No names. Takes no memory.
    pub fn new(alloc: Global) -> HeldNames
        ensures { result ≡ map.empty }
    {
        HeldNames {
            modes: IndexMap::new(alloc),
        }
    }

    /// The mode in which the name is held, if it is.
    pub fn mode(&self, name: &Str) -> Option<LockMode>
        ensures { result ≡ map.get self.now name.now }
    {
        self.modes.get(name.as_str()).copied()
    }

    /// Adds the needs, each with the stronger mode where its name is held already. All memory is taken first.
    pub fn add(&mut self, alloc: Global, needs: &NeedList) -> Result<(), NoMemory>
        ensures ok { OnOk result (self.new ≡ with_needs needs.now self.old) }
        ensures err { OnErr result (self.new ≡ self.old) }
    {
        let needs = needs.copy()?.into_vec();
        self.modes.reserve(needs.len())?;
        put_all(&mut self.modes, needs);
        Ok(())
    }

    /// The names in the order of their bytes, each with its mode.
    pub fn into_needs(self, alloc: Global) -> Result<NeedList, NoMemory>
        ensures { IfOk result (λ all. all ≡ needs_of self) }
    {
        let HeldNames { mut modes } = self;
        modes.sort_keys()?;
        let mut needs = Sequence::new(alloc);
        for (name, mode) in &modes {
            needs.push(Need {
                name: Str::of(alloc, name.as_str())?,
                mode: *mode,
            })?;
        }
        Ok(needs)
    }
}

fn put_all(modes: &mut IndexMap<String, LockMode>, needs: Vec<Need>)
    requires room { length needs.items ≤ spare modes.old }
    ensures { names_of_entries modes.new.entries ≡ with_needs needs.items (names_of_entries modes.old.entries) }
{
    for need in needs {
        put(modes, need);
    }
}

fn put(modes: &mut IndexMap<String, LockMode>, need: Need)
    requires room { 1 ≤ spare modes.old }
    ensures room { spare modes.old ≤ spare modes.new + 1 }
    ensures put { names_of_entries modes.new.entries ≡ with_need (names_of_entries modes.old.entries) need }
{
    let Need { name, mode } = need;
    let mode = stronger_mode(modes.get(name.as_str()).copied(), mode);
    let _ = modes.insert(name.into_string(), mode);
}
