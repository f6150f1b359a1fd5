//! The chain of a page's versions, the newest first.
ghost use Rattle.std.specs.Prelude.{◌≡◌, ◌+◌, ◌<◌, ◌≤◌, ◌↔◌, ◌∷◌, ◌++◌, [], IsTrue, OnOk, OnErr, IfOk, length, take, drop, remove, nat_lt};
ghost use Rattle.std.specs.Option.{option_copied, option_map};
ghost use Rattle.page_versions.specs.Chains.{version_at};
ghost use Rattle.page_versions.specs.Purging.{base, count_staged, unstaged, has_staged, purged, purge_below, with_slot};

use crate::seen::is_seen;
use crate::version::{Image, Version};
use page_bytes::NoMemory;
use slab::Slab;
use std::alloc::Global;
use std::marker::Model;

/// The versions of a page, the newest first.
#[derive(Drop)]
pub struct Chain {
    versions: Vec<Version>,
}

impl Model for Chain {
    ghost use Rattle.std.specs.Prelude.{List};
    ghost use Rattle.page_versions.specs.declared.version.Version.{Version};

    ghost Value = { List Version };

    ghost view = { λ c. c.versions.items };
}

impl Chain {
    /// The versions, the newest first.
    pub fn versions(&self) -> &[Version]
        ensures { result.now ≡ self.now }
    {
        self.versions.as_slice()
    }

    /// A chain of one version.
    pub(crate) fn of(alloc: Global, version: Version) -> Result<Chain, NoMemory>
        ensures { IfOk result (λ chain. chain ≡ version ∷ []) }
    {
        let mut versions = Vec::new(alloc);
        match versions.push(version) {
            Ok(()) => Ok(Chain { versions }),
            Err(_) => Err(NoMemory),
        }
    }

    /// The image of the newest version that is not after the commit.
    pub(crate) fn at(&self, commit: u64) -> Option<&Image>
        ensures { option_copied result ≡ option_map (λ v. v.image) (version_at self.now commit) }
    {
        for version in &self.versions {
            if version.commit <= commit {
                return Some(&version.image);
            }
        }
        None
    }

    pub(crate) fn is_empty(&self) -> bool
        ensures { IsTrue result ↔ (self.now ≡ []) }
    {
        self.versions.is_empty()
    }

    pub(crate) fn len(&self) -> usize
        ensures { result ≡ length self.now }
    {
        self.versions.len()
    }

    /// Whether the newest version is of the commit.
    pub(crate) fn is_staged(&self, commit: u64) -> bool
        ensures { result ≡ has_staged commit self.now }
    {
        match self.versions.first() {
            Some(version) => version.commit == commit,
            None => false,
        }
    }

    /// How many versions are staged in front.
    fn staged_count(&self, staged: Option<u64>) -> usize
        ensures { result ≡ count_staged staged self.now }
    {
        match staged {
            Some(commit) if self.is_staged(commit) => 1,
            _ => 0,
        }
    }

    /// Whether more than one version is published.
    pub(crate) fn is_long(&self, staged: Option<u64>) -> bool
        ensures { result ≡ nat_lt 1 (length (base staged self.now)) }
    {
        self.versions.len() > 1 + self.staged_count(staged)
    }

    /// Puts a version in front.
    pub(crate) fn push(&mut self, version: Version) -> Result<(), NoMemory>
        ensures ok { OnOk result (self.new ≡ version ∷ self.old) }
        ensures err { OnErr result (self.new ≡ self.old) }
    {
        match self.versions.insert(0, version) {
            Ok(()) => Ok(()),
            Err(_) => Err(NoMemory),
        }
    }

    /// Takes the version of the commit away, where it is in front.
    pub(crate) fn unstage(&mut self, commit: u64)
        ensures { self.new ≡ unstaged commit self.old }
    {
        if self.is_staged(commit) {
            let _ = self.versions.remove(0);
        }
    }

    /// Drops what no open snapshot sees, behind what is staged and the newest published version.
    pub(crate) fn purge(&mut self, staged: Option<u64>, snapshots: &Slab<u64>)
        ensures { self.new ≡ purged staged snapshots.now.slots self.old }
    {
        let newest = self.staged_count(staged);
        if newest < self.versions.len() {
            let above = self.versions[newest].commit;
            purge_from(&mut self.versions, newest + 1, above, snapshots);
        }
    }

    /// Puts the slot in the place of the newest published image.
    pub(crate) fn set_slot(&mut self, staged: Option<u64>, slot: u64)
        ensures { self.new ≡ with_slot staged slot self.old }
    {
        let newest = self.staged_count(staged);
        if newest < self.versions.len() {
            self.versions[newest].image = Image::Slot(slot);
        }
    }
}

/// Drops from a place on each version that no open snapshot sees, the one before the place being of the commit `above`.
fn purge_from(versions: &mut Vec<Version>, place: usize, above: u64, snapshots: &Slab<u64>)
    requires { place ≤ length versions.old.items }
    ensures { versions.new.items ≡ take place versions.old.items ++ purge_below snapshots.now.slots above (drop place versions.old.items) }
{
    let mut place = place;
    let mut above = above;
    while place < versions.len() {
        let commit = versions[place].commit;
        if is_seen(snapshots, commit, above) {
            above = commit;
            place += 1;
        } else {
            take_out(versions, place);
        }
    }
}

fn take_out(versions: &mut Vec<Version>, place: usize)
    requires { place < length versions.old.items }
    ensures { versions.new.items ≡ remove versions.old.items place }
{
    let _ = versions.remove(place);
}
