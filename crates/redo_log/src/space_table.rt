//! The spaces of a store's documents. Contracts see a finite map with nothing at each space.
ghost use Rattle.std.specs.Prelude.{◌≡◌, ◌==◌, OnOk};
ghost use Rattle.std.specs.List.{list_any};
ghost use Rattle.std.specs.BTreeMap.{keys, IsOrdered};
ghost use Rattle.page_bytes.specs.Order.{space_cmp};
ghost use Rattle.std.specs.FinMap as map;
ghost use Rattle.redo_log.specs.Store.{has_space, has_commit};

use page_bytes::Space;
use std::alloc::Global;
use std::collections::BTreeMap;
use std::marker::Model;
use xq_ast::NoMemory;

/// Some spaces, in the order of spaces.
#[derive(Drop)]
pub struct SpaceTable {
    spaces: BTreeMap<Space, ()>,
}

impl Model for SpaceTable {
    ghost use Rattle.std.specs.FinMap as map;
    ghost use base.Stored.{coded_unit};
    ghost use Rattle.page_bytes.specs.Known.{Spaces};
    ghost use Rattle.page_bytes.specs.Order.{space_code};

    ghost Value = { Spaces };

    ghost coded = { map.code space_code coded_unit };

    ghost view = { λ t. map.from_entries t.spaces.entries };
}

impl SpaceTable {
    pub fn new(alloc: Global) -> SpaceTable
        ensures { result ≡ map.empty }
    {
        SpaceTable {
            spaces: BTreeMap::new(alloc),
        }
    }

    pub fn has(&self, space: Space) -> bool
        ensures { result ≡ has_space self.now space }
    {
        self.spaces.contains_key(&space)
    }

    /// Whether one of them is of this commit. It looks at each.
    pub fn has_commit(&self, commit: u64) -> bool
        ensures { result ≡ has_commit self.now commit }
    {
        any_of_commit(&self.spaces, commit)
    }

    pub fn insert(&mut self, space: Space) -> Result<(), NoMemory>
        ensures { OnOk result (self.new ≡ map.insert self.old space tt) }
    {
        match self.spaces.insert(space, ()) {
            Ok(_) => Ok(()),
            Err(_) => Err(NoMemory),
        }
    }

    pub fn remove(&mut self, space: Space)
        ensures { self.new ≡ map.remove self.old space }
    {
        let _ = self.spaces.remove(&space);
    }
}

fn any_of_commit(spaces: &BTreeMap<Space, ()>, commit: u64) -> bool
    ensures found { result ≡ list_any (λ s. s.commit == commit) (keys spaces.now) }
    ensures ordered { IsOrdered space_cmp spaces.now }
{
    spaces.keys().any(|space| space.commit == commit)
}
