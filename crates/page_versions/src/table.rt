//! The chains of all pages. Contracts see them as a finite map.
ghost use Rattle.std.specs.Prelude.{◌≡◌, ◌&&◌, OnOk, OnErr, IfOk, IsSome, Some, filter};
ghost use Rattle.std.specs.BTreeMap.{keys};
ghost use Rattle.std.specs.FinMap as map;
ghost use Rattle.std.specs.Option.{option_copied};
ghost use Rattle.page_bytes.specs.declared.ids.PageId.{PageId};
ghost use Rattle.page_versions.specs.Staging.{is_dropped};
ghost use Rattle.page_versions.specs.Inside.{is_listed};

use crate::chain::Chain;
use crate::spaces::has_space;
use page_bytes::{NoMemory, PageId, Space};
use std::alloc::{AllocError, Global};
use std::collections::BTreeMap;
use std::collections::btree_map::Iter;
use std::marker::Model;

/// The chains of pages, in the order of pages.
#[derive(Drop)]
pub struct ChainTable {
    alloc: Global,
    chains: BTreeMap<PageId, Chain>,
}

impl Model for ChainTable {
    ghost use Rattle.std.specs.FinMap as map;
    ghost use Rattle.page_versions.specs.ChainMap.{ChainMap, chain_map_code};

    ghost Value = { ChainMap };

    ghost coded = { chain_map_code };

    ghost view = { λ t. map.from_entries t.chains.entries };
}

impl ChainTable {
    ghost use Rattle.std.specs.Borrow.{sem};
    ghost use Rattle.page_versions.specs.Lends.{lends_chain};

    pub fn new(alloc: Global) -> ChainTable
        ensures { result ≡ map.empty }
    {
        ChainTable {
            alloc,
            chains: BTreeMap::new(alloc),
        }
    }

    pub fn allocator(&self) -> Global {
        self.alloc
    }

    pub fn get(&self, id: PageId) -> Option<&Chain>
        ensures { option_copied result ≡ map.get self.now id }
    {
        self.chains.get(&id)
    }

    pub fn has(&self, id: PageId) -> bool
        ensures { result ≡ map.contains_key self.now id }
    {
        self.get(id).is_some()
    }

    pub fn insert(&mut self, id: PageId, chain: Chain) -> Result<(), NoMemory>
        ensures ok { OnOk result (self.new ≡ map.insert self.old id chain) }
        ensures err { OnErr result (self.new ≡ self.old) }
    {
        match self.chains.insert(id, chain) {
            Ok(_) => Ok(()),
            Err(_) => Err(NoMemory),
        }
    }

    /// Takes the page's chain out, if there is one.
    pub fn remove(&mut self, id: PageId)
        ensures { self.new ≡ map.remove self.old id }
    {
        let _ = self.chains.remove(&id);
    }

    /// The chain of a page that has one, to write to.
    pub fn lend(&mut self, id: PageId) -> &mut Chain
        requires { IsSome (map.get self.old id) }
        ensures* writes_back { sem 𝓛 (lends_chain self.entry id result) }
        ensures value { map.get self.old id ≡ Some result.now }
    {
        self.chains.get_mut(&id).unwrap()
    }

    /// The chains with their pages, in the order of pages.
    pub fn iter(&self) -> Iter<'_, PageId, Chain>
        ensures { result ≡ map.entries self.now }
    {
        self.chains.iter()
    }

    /// The pages of the spaces that have a chain.
    pub fn pages_in(&self, spaces: &[Space]) -> Result<Vec<PageId>, NoMemory>
        ensures { IfOk result (λ ids. (q : PageId) → is_listed ids.items q ≡ (is_dropped spaces.now q.space && map.contains_key self.now q)) }
    {
        if spaces.is_empty() {
            return Ok(Vec::new(self.alloc));
        }
        match pages_of(self.alloc, &self.chains, spaces) {
            Ok(ids) => Ok(ids),
            Err(_) => Err(NoMemory),
        }
    }
}

fn pages_of(
    alloc: Global,
    chains: &BTreeMap<PageId, Chain>,
    spaces: &[Space],
) -> Result<Vec<PageId>, AllocError>
    ensures { IfOk result (λ ids. ids.items ≡ filter (λ id. is_dropped spaces.now id.space) (keys chains.now)) }
{
    chains
        .keys()
        .filter(|id| has_space(spaces, id.space))
        .copied()
        .collect(alloc)
}
