//! The map of node numbers: the calls, and what each does to the map that the pages mean.
ghost use Rattle.std.specs.Prelude.{◌≡◌, ℕ, ◌<◌, ◌≤◌, List, Option, None, IsSome, OnOk, MatchResult};
ghost use Rattle.std.specs.FinMap as map;
ghost use Rattle.page_bytes.specs.declared.ids.PageId.{PageId};
ghost use Rattle.page_bytes.specs.Own.{KeepsToOwn};
ghost use Rattle.page_bytes.specs.PageNumber.{page_number, LAST_LAYER};
ghost use Rattle.indirection.specs.Finding.{address_in};
ghost use Rattle.indirection.specs.Adding.{changed_in, removed_in, added_in};
ghost use Rattle.page_bytes.specs.Answers.{Answers, GivesOrNeeds};
ghost use Rattle.page_bytes.specs.Seen.{seen};
ghost use Rattle.indirection.specs.Owned.{number_pages};
ghost use Rattle.indirection.specs.Meaning.{NodeNumbers, MeansNumbers, with_address, without_number, IsRefused, next_number, with_number_given, MOST_PAGES, IsNotGiven};

use crate::numbers::{find_address, give_number, set_address, take_number};
use page_bytes::{Addr, NodeNo, PageEnd, Pages, Space, Workspace};

/// The address of a node by its number, if the number is there.
pub fn find<P: Pages>(pages: &P, space: Space, no: NodeNo) -> Result<Option<Addr>, PageEnd>
    ensures found { result ≡ address_in (P.known pages.now) space no.0 }
    ensures meaning { (all : PageId → Option (List ℕ)) (numbers : NodeNumbers) → MeansNumbers (seen (P.known pages.now) all space) numbers → GivesOrNeeds (P.known pages.now) all space result (map.get numbers.taken no.0) }
{
    find_address(pages, space, no)
}

/// Gives a number that is there another address.
pub fn change(work: &mut Workspace, space: Space, no: NodeNo, to: Addr) -> Result<(), PageEnd>
    requires layer { to.layer ≤ LAST_LAYER }
    requires page { 0 < page_number to }
    ensures pages { Answers (changed_in work.old space no.0 to) result work.new }
    ensures own { OnOk result ((all : PageId → Option (List ℕ)) → KeepsToOwn number_pages 0 work.old work.new all space) }
    ensures meaning { (all : PageId → Option (List ℕ)) (numbers : NodeNumbers) → MeansNumbers (seen work.old.now all space) numbers → MatchResult result (λ done. IsSome (map.get numbers.taken no.0) × MeansNumbers (seen work.new.now all space) (with_address numbers no.0 to)) (λ end. IsRefused work.old.now all space (map.get numbers.taken no.0) end) }
{
    set_address(work, space, no, to)
}

/// Takes a number away. It is the next that `add` gives.
pub fn remove(work: &mut Workspace, space: Space, no: NodeNo) -> Result<(), PageEnd>
    ensures pages { Answers (removed_in work.old space no.0) result work.new }
    ensures own { OnOk result ((all : PageId → Option (List ℕ)) → KeepsToOwn number_pages 0 work.old work.new all space) }
    ensures meaning { (all : PageId → Option (List ℕ)) (numbers : NodeNumbers) → MeansNumbers (seen work.old.now all space) numbers → MatchResult result (λ done. IsSome (map.get numbers.taken no.0) × MeansNumbers (seen work.new.now all space) (without_number numbers no.0)) (λ end. IsRefused work.old.now all space (map.get numbers.taken no.0) end) }
{
    take_number(work, space, no)
}

/// Gives a node a number: the first free one, or else the one after the highest.
pub fn add(work: &mut Workspace, space: Space, to: Addr) -> Result<NodeNo, PageEnd>
    requires layer { to.layer ≤ LAST_LAYER }
    requires page { 0 < page_number to }
    ensures pages { Answers (added_in work.old space to) result work.new }
    ensures own { OnOk result ((all : PageId → Option (List ℕ)) → KeepsToOwn number_pages MOST_PAGES work.old work.new all space) }
    ensures meaning { (all : PageId → Option (List ℕ)) (numbers : NodeNumbers) → MeansNumbers (seen work.old.now all space) numbers → MatchResult result (λ no. (no.0 ≡ next_number numbers.highest numbers.free) × MeansNumbers (seen work.new.now all space) (with_number_given numbers to)) (λ end. IsNotGiven work.old.now all space numbers end) }
{
    give_number(work, space, to)
}
