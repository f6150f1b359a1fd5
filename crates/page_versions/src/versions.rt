//! The versions of all pages, and the open snapshots.
ghost use Rattle.std.specs.Prelude.{◌≡◌, ◌≢◌, ◌<◌, ◌≤◌, ◌∷◌, [], ℕ, None, Some, All, IsSome, IsSomeAnd, IfOk, OnOk, OnErr, slice_set};
ghost use Rattle.std.specs.Option.{option_copied, option_map};
ghost use Rattle.std.specs.FinMap as map;
ghost use Rattle.page_bytes.specs.declared.ids.PageId.{PageId};
ghost use Rattle.page_versions.specs.Chains.{version_at, published, newest, needed};
ghost use Rattle.page_versions.specs.Kept.{chain_of, snapshot_at, IsNewestAt, IsPast, SameAt, SeesSame, IsExact};
ghost use Rattle.page_versions.specs.Staging.{staged_chain};
ghost use Rattle.page_versions.specs.Purging.{with_slot};
ghost use Rattle.page_versions.specs.declared.version.Image.TheVariants.{Absent as absent};

use crate::chain::Chain;
use crate::moving::{keep_long, publish_all, purge_all, retract_all, unstage_all};
use crate::spaces::SpaceList;
use crate::staging::stage_with_room;
use crate::table::ChainTable;
use crate::version::{Image, Version};
use page_bytes::{ChangeList, NoMemory, PageId};
use slab::Slab;
use std::alloc::Global;
use std::collections::btree_map::Iter;
use std::marker::Model;

/// Versions of pages, open snapshots, and what is staged.
#[derive(Drop)]
pub struct Versions {
    table: ChainTable,
    snapshots: Slab<u64>,
    staged: Option<u64>,
    /// The pages with a staged version.
    touched: Vec<PageId>,
    /// The pages with more than one published version.
    older: Vec<PageId>,
}

impl Model for Versions {
    ghost use Rattle.std.specs.Prelude.{◌+◌, vec_len, vec_capacity};
    ghost use Rattle.page_versions.specs.Kept.{Kept, kept_code};
    ghost use Rattle.page_versions.specs.Inside.{IsSound};

    ghost Value = { Kept };

    ghost coded = { kept_code };

    ghost view = { λ v. record { chains = v.table; snapshots = v.snapshots.slots; staged = v.staged } };

    ghost invariant = { λ v. IsSound v.table v.snapshots.slots v.staged v.touched.items v.older.items (vec_len v.older + vec_len v.touched) (vec_capacity v.older) };
}

impl Versions {
    /// No versions and no snapshots. Takes no memory.
    pub fn new(alloc: Global) -> Versions
        ensures { result ≡ record { chains = map.empty; snapshots = []; staged = None } }
    {
        Versions {
            table: ChainTable::new(alloc),
            snapshots: Slab::new(alloc),
            staged: None,
            touched: Vec::new(alloc),
            older: Vec::new(alloc),
        }
    }

    /// Starts the chain of a page that has none, with its image when the store was opened: in a slot, or resident.
    pub fn start(&mut self, id: PageId, commit: u64, image: Image) -> Result<(), NoMemory>
        requires no_versions { chain_of self.old id ≡ [] }
        requires nothing_staged { self.old.staged ≡ None }
        requires is_there { image ≢ absent }
        ensures ok { OnOk result (self.new ≡ record self.old { chains = map.insert self.old.chains id (record { commit = commit; image = image } ∷ []) }) }
        ensures err { OnErr result (self.new ≡ self.old) }
    {
        let chain = Chain::of(self.table.allocator(), Version { commit, image })?;
        self.table.insert(id, chain)
    }

    /// The image of the page's newest version that is not after the commit. Takes no memory.
    pub fn page_at(&self, id: PageId, commit: u64) -> Option<&Image>
        ensures { option_copied result ≡ option_map (λ v. v.image) (version_at (chain_of self.now id) commit) }
    {
        match self.table.get(id) {
            Some(chain) => chain.at(commit),
            None => None,
        }
    }

    /// The chains with their pages, in the order of pages.
    pub fn chains(&self) -> Iter<'_, PageId, Chain>
        ensures { result ≡ map.entries self.now.chains }
    {
        self.table.iter()
    }

    /// Puts the changes, and absences for all pages of the dropped spaces, in front of the chains.
    pub fn stage(
        &mut self,
        commit: u64,
        changes: &ChangeList,
        dropped: &SpaceList,
    ) -> Result<(), NoMemory>
        requires nothing_staged { self.old.staged ≡ None }
        requires past { IsPast self.old commit }
        ensures chains { OnOk result ((id : PageId) → chain_of self.new id ≡ staged_chain commit changes.now dropped.now id (chain_of self.old id)) }
        ensures snapshots { OnOk result (self.new.snapshots ≡ self.old.snapshots) }
        ensures staged { OnOk result (self.new.staged ≡ Some commit) }
        ensures seen { SeesSame self.old self.new }

        // At each commit before the staged one each page has the version that it had, and what was newest stays so.
        ensures same { OnOk result ((n : ℕ) → n < commit → SameAt self.old self.new n) }
        ensures newest { OnOk result ((n : ℕ) → n < commit → IsNewestAt self.old n → IsNewestAt self.new n) }
        ensures err { OnErr result (self.new ≡ self.old) }
    {
        let staged = stage_with_room(
            &mut self.table,
            &mut self.touched,
            &mut self.older,
            commit,
            changes.as_slice(),
            dropped.as_slice(),
        );
        if staged.is_err() {
            unstage_all(&mut self.table, self.touched.as_slice(), commit);
            self.touched.clear();
            return Err(NoMemory);
        }
        self.staged = Some(commit);
        Ok(())
    }

    /// Makes the staged versions the newest, and drops what no open snapshot sees. Takes no memory.
    pub fn publish(&mut self)
        ensures chains { (id : PageId) → chain_of self.new id ≡ needed None self.old.snapshots (chain_of self.old id) }
        ensures snapshots { self.new.snapshots ≡ self.old.snapshots }
        ensures staged { self.new.staged ≡ None }
        ensures seen { SeesSame self.old self.new }
        ensures newest { (n : ℕ) → ((id : PageId) → All (λ v. v.commit ≤ n) (chain_of self.old id)) → SameAt self.old self.new n }
    {
        publish_all(
            &mut self.table,
            &mut self.older,
            self.touched.as_slice(),
            &self.snapshots,
        );
        self.touched.clear();
        self.staged = None;
    }

    /// Takes the staged versions back. Takes no memory.
    pub fn retract(&mut self)
        ensures chains { (id : PageId) → chain_of self.new id ≡ published self.old.staged (chain_of self.old id) }
        ensures snapshots { self.new.snapshots ≡ self.old.snapshots }
        ensures staged { self.new.staged ≡ None }
        ensures seen { SeesSame self.old self.new }
        ensures newest { (n : ℕ) → IsNewestAt self.old n → SameAt self.old self.new n }
    {
        retract_all(&mut self.table, self.touched.as_slice(), self.staged);
        self.touched.clear();
        self.staged = None;
    }

    /// Opens a snapshot at the commit, and answers its key.
    pub fn open_snapshot(&mut self, commit: u64) -> Result<usize, NoMemory>
        requires { IsNewestAt self.old commit }
        ensures fresh { IfOk result (λ key. snapshot_at self.old key ≡ None) }
        ensures opened { IfOk result (λ key. snapshot_at self.new key ≡ Some commit) }
        ensures others { IfOk result (λ key. (other : ℕ) → other ≢ key → snapshot_at self.new other ≡ snapshot_at self.old other) }
        ensures chains { self.new.chains ≡ self.old.chains }
        ensures staged { self.new.staged ≡ self.old.staged }
        ensures err { OnErr result (self.new ≡ self.old) }
    {
        match self.snapshots.insert(commit) {
            Ok(key) => Ok(key),
            Err(_) => Err(NoMemory),
        }
    }

    /// The commit of the snapshot under the key, if one is open. Takes no memory.
    pub fn snapshot(&self, key: usize) -> Option<u64>
        ensures { result ≡ snapshot_at self.now key }
    {
        self.snapshots.get(key).copied()
    }

    /// Ends a snapshot, and drops what no other one sees. Takes no memory.
    pub fn end_snapshot(&mut self, key: usize)
        requires { IsSome (snapshot_at self.old key) }
        ensures snapshots { self.new.snapshots ≡ slice_set self.old.snapshots key None }
        ensures chains { (id : PageId) → chain_of self.new id ≡ needed self.old.staged self.new.snapshots (chain_of self.old id) }
        ensures staged { self.new.staged ≡ self.old.staged }
        ensures seen { SeesSame self.old self.new }
        ensures newest { (n : ℕ) → IsNewestAt self.old n → SameAt self.old self.new n }
    {
        let _ = self.snapshots.remove(key);
        purge_all(
            &mut self.table,
            self.older.as_slice(),
            self.staged,
            &self.snapshots,
        );
        keep_long(&mut self.older, &self.table, self.staged);
    }

    /// Puts the slot in the place of the page's newest published image. Takes no memory.
    pub fn in_slot(&mut self, id: PageId, slot: u64)
        requires { IsSomeAnd (newest (published self.old.staged (chain_of self.old id))) (λ v. v.image ≢ absent) }
        ensures { self.new ≡ record self.old { chains = map.insert self.old.chains id (with_slot self.old.staged slot (chain_of self.old id)) } }
    {
        if self.table.has(id) {
            self.table.lend(id).set_slot(self.staged, slot);
        }
    }

    /// What holds of the chains always. Does nothing.
    pub fn exact(&self)
        ensures { IsExact self.now }
    {
        let _ = &self.staged;
    }
}
