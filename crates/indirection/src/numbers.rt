//! What the calls on node numbers do, page by page.
ghost use Rattle.std.specs.Prelude.{◌≡◌, ℕ, ◌<◌, ◌≤◌, List, Option, OnOk, IfOk};
ghost use Rattle.page_bytes.specs.declared.ids.PageId.{PageId};
ghost use Rattle.page_bytes.specs.PageNumber.{page_number, LAST_LAYER};
ghost use Rattle.page_bytes.specs.Own.{KeepsToOwn};
ghost use Rattle.indirection.specs.Finding.{address_in};
ghost use Rattle.indirection.specs.Adding.{taken_in, changed_in, removed_in, free_behind, reused_in, appended_in, added_in};
ghost use Rattle.indirection.specs.Owned.{number_pages};
ghost use Rattle.indirection.specs.Forms as form;
ghost use Rattle.indirection.specs.Inside.{IsNumberPage};
ghost use Rattle.page_bytes.specs.Kept.{IsWholeHead};
ghost use Rattle.page_bytes.specs.Answers.{Answers};

use crate::forms::{ENTRIES, Entry, FIRST_FREE_AT, HIGHEST_AT, Leaf, MOST_NUMBERS, Numbers};
use crate::growing::leaf_of_next;
use crate::reading::{find_leaf, read_numbers};
use crate::writing::{write_entry, write_short};
use page_bytes::{Addr, NodeNo, PageEnd, PageId, Pages, Space, Workspace};

/// The address of a node by its number, if the number is there.
pub fn find_address<P: Pages>(pages: &P, space: Space, no: NodeNo) -> Result<Option<Addr>, PageEnd>
    ensures { result ≡ address_in (P.known pages.now) space no.0 }
{
    let numbers = read_numbers(pages, space)?;
    if no.0 == 0 || no.0 > numbers.highest {
        return Ok(None);
    }
    match find_leaf(pages, space, numbers.root, no.0)?.entry {
        Entry::Taken(address) => Ok(Some(address)),
        Entry::Free(_) => Ok(None),
    }
}

/// The leaf of a number that is a node's.
fn taken_leaf<P: Pages>(
    pages: &P,
    space: Space,
    numbers: &Numbers,
    number: u32,
) -> Result<u64, PageEnd>
    requires { numbers.now.highest ≤ form.MOST_NUMBERS }
    ensures taken { result ≡ taken_in (P.known pages.now) space numbers.now number }
    ensures page { IfOk result (λ leaf. IsNumberPage (P.known pages.now) space leaf) }
    ensures given { OnOk result (0 < number) }
{
    let head = PageId { space, number: 0 };
    if number == 0 || number > numbers.highest {
        return Err(PageEnd::Damaged { page: head });
    }
    let leaf = find_leaf(pages, space, numbers.root, number)?;
    match leaf.entry {
        Entry::Taken(_) => Ok(leaf.number),
        Entry::Free(_) => Err(PageEnd::Damaged { page: head }),
    }
}

/// Gives a number that is there another address.
pub fn set_address(work: &mut Workspace, space: Space, no: NodeNo, to: Addr) -> Result<(), PageEnd>
    requires layer { to.layer ≤ LAST_LAYER }
    requires page { 0 < page_number to }
    ensures pages { Answers (changed_in work.old space no.0 to) result work.new }
    ensures own { OnOk result ((all : PageId → Option (List ℕ)) → KeepsToOwn number_pages 0 work.old work.new all space) }
    ensures fits { (to.page < 256) × (to.at < 65536) }
{
    let numbers = read_numbers(work, space)?;
    let leaf = taken_leaf(work, space, &numbers, no.0)?;
    let entry = (no.0 - 1) % ENTRIES;
    write_entry(work, space, leaf, entry, to.number(), to.at as u32)
}

/// Takes a number away. It is the next that `add` gives.
pub fn take_number(work: &mut Workspace, space: Space, no: NodeNo) -> Result<(), PageEnd>
    ensures pages { Answers (removed_in work.old space no.0) result work.new }
    ensures own { OnOk result ((all : PageId → Option (List ℕ)) → KeepsToOwn number_pages 0 work.old work.new all space) }
{
    let numbers = read_numbers(work, space)?;
    let leaf = taken_leaf(work, space, &numbers, no.0)?;
    let freed = (no.0 - 1) % ENTRIES;
    write_entry(work, space, leaf, freed, 0, numbers.first_free)?;
    write_short(work, space, 0, FIRST_FREE_AT, no.0)
}

/// The free number behind a free number.
fn free_number_behind(space: Space, highest: u32, leaf: &Leaf) -> Result<u32, PageEnd>
    ensures { result ≡ free_behind space highest leaf.now.number leaf.now.entry }
{
    match leaf.entry {
        Entry::Taken(_) => Err(PageEnd::Damaged {
            page: PageId { space, number: 0 },
        }),
        Entry::Free(next) => {
            if next > highest {
                return Err(PageEnd::Damaged {
                    page: PageId {
                        space,
                        number: leaf.number,
                    },
                });
            }
            Ok(next)
        }
    }
}

/// Gives the first free number again.
fn reuse(work: &mut Workspace, space: Space, numbers: &Numbers, to: Addr) -> Result<NodeNo, PageEnd>
    requires layer { to.layer ≤ LAST_LAYER }
    requires free { 0 < numbers.now.first_free }
    requires highest { numbers.now.highest ≤ form.MOST_NUMBERS }
    requires head { IsWholeHead work.old.now space }
    ensures pages { Answers (reused_in work.old space numbers.now to) result work.new }
    ensures own { OnOk result ((all : PageId → Option (List ℕ)) → KeepsToOwn number_pages 0 work.old work.new all space) }
{
    let number = numbers.first_free;
    if number > numbers.highest {
        return Err(PageEnd::Damaged {
            page: PageId { space, number: 0 },
        });
    }
    let leaf = find_leaf(work, space, numbers.root, number)?;
    let next = free_number_behind(space, numbers.highest, &leaf)?;
    let index = (number - 1) % ENTRIES;
    write_entry(work, space, leaf.number, index, to.number(), to.at as u32)?;
    write_short(work, space, 0, FIRST_FREE_AT, next)?;
    Ok(NodeNo(number))
}

/// Gives the number after the highest.
fn append(
    work: &mut Workspace,
    space: Space,
    numbers: &Numbers,
    to: Addr,
) -> Result<NodeNo, PageEnd>
    requires layer { to.layer ≤ LAST_LAYER }
    requires highest { numbers.now.highest ≤ form.MOST_NUMBERS }
    requires head { IsWholeHead work.old.now space }
    ensures pages { Answers (appended_in work.old space numbers.now to) result work.new }
    ensures own { OnOk result ((all : PageId → Option (List ℕ)) → KeepsToOwn number_pages 3 work.old work.new all space) }
{
    let highest = numbers.highest;
    if highest == MOST_NUMBERS {
        return Err(PageEnd::Damaged {
            page: PageId { space, number: 0 },
        });
    }
    let leaf = leaf_of_next(work, space, numbers)?;
    let index = highest % ENTRIES;
    write_entry(work, space, leaf, index, to.number(), to.at as u32)?;
    write_short(work, space, 0, HIGHEST_AT, highest + 1)?;
    Ok(NodeNo(highest + 1))
}

/// Gives a node a number: the first free one, or else the one after the highest.
pub fn give_number(work: &mut Workspace, space: Space, to: Addr) -> Result<NodeNo, PageEnd>
    requires layer { to.layer ≤ LAST_LAYER }
    requires page { 0 < page_number to }
    ensures pages { Answers (added_in work.old space to) result work.new }
    ensures own { OnOk result ((all : PageId → Option (List ℕ)) → KeepsToOwn number_pages 3 work.old work.new all space) }
    ensures fits { (to.page < 256) × (to.at < 65536) }
{
    let numbers = read_numbers(work, space)?;
    if numbers.first_free == 0 {
        return append(work, space, &numbers, to);
    }
    reuse(work, space, &numbers, to)
}
