//! Room for the number after the highest: a new leaf where the last is full, with a directory page and a root where
//! it needs them.
ghost use Rattle.std.specs.Prelude.{◌≡◌, ◌<◌, ◌*◌, OnOk, IfOk};
ghost use Rattle.indirection.specs.Adding.{root_for, directory_for, leaf_for, directed_in, grown_in, placed_in, last_leaf};
ghost use Rattle.indirection.specs.Forms as form;
ghost use Rattle.indirection.specs.Inside.{IsNumberPage, HasKept};
ghost use Rattle.page_bytes.specs.Kept.{IsWholeHead};
ghost use Rattle.page_bytes.specs.Answers.{Answers};

use crate::forms::{DIRECTORY_KIND, ENTRIES, LEAF_KIND, LINKS, Numbers, ROOT_AT, link_at};
use crate::reading::{directory_of, leaf_of, linked_page};
use crate::writing::make_child;
use page_bytes::{PageEnd, Space, Workspace, read_u64};

/// The root, which the first leaf makes.
fn root_for_leaf(work: &mut Workspace, space: Space, root: u64, leaf: u32) -> Result<u64, PageEnd>
    requires { IsWholeHead work.old.now space }
    ensures answer { Answers (root_for work.old space root leaf) result work.new }
    ensures kept { OnOk result (HasKept 1 work.old work.new space) }
{
    if leaf != 0 {
        return Ok(root);
    }
    make_child(work, space, DIRECTORY_KIND, 0, ROOT_AT)
}

/// The directory page of a new leaf, which each 511th leaf makes.
fn directory_for_leaf(
    work: &mut Workspace,
    space: Space,
    root: u64,
    leaf: u32,
) -> Result<u64, PageEnd>
    requires head { IsWholeHead work.old.now space }
    requires leaf { leaf < 511 * 511 }
    ensures answer { Answers (directory_for work.old space root leaf) result work.new }
    ensures kept { OnOk result (HasKept 1 work.old work.new space) }
{
    let bytes = linked_page(work, space, DIRECTORY_KIND, 0, root)?;
    let at = link_at(leaf / LINKS);
    if leaf % LINKS != 0 {
        return Ok(read_u64(bytes, at));
    }
    make_child(work, space, DIRECTORY_KIND, root, at)
}

/// A new leaf.
fn new_leaf(
    work: &mut Workspace,
    space: Space,
    root: u64,
    directory: u64,
    leaf: u32,
) -> Result<u64, PageEnd>
    requires { IsWholeHead work.old.now space }
    ensures answer { Answers (leaf_for work.old space root directory leaf) result work.new }
    ensures kept { OnOk result (HasKept 1 work.old work.new space) }
    ensures page { IfOk result (λ number. IsNumberPage work.new.now space number) }
{
    linked_page(work, space, DIRECTORY_KIND, root, directory)?;
    make_child(work, space, LEAF_KIND, directory, link_at(leaf % LINKS))
}

/// A new leaf, with its directory page where it needs a new one.
fn grow_directory(work: &mut Workspace, space: Space, root: u64, leaf: u32) -> Result<u64, PageEnd>
    requires head { IsWholeHead work.old.now space }
    requires leaf { leaf < 511 * 511 }
    ensures answer { Answers (directed_in work.old space root leaf) result work.new }
    ensures kept { OnOk result (HasKept 2 work.old work.new space) }
    ensures page { IfOk result (λ number. IsNumberPage work.new.now space number) }
{
    let directory = directory_for_leaf(work, space, root, leaf)?;
    new_leaf(work, space, root, directory, leaf)
}

/// A new leaf, with all that it needs above it.
fn grow(work: &mut Workspace, space: Space, root: u64, leaf: u32) -> Result<u64, PageEnd>
    requires head { IsWholeHead work.old.now space }
    requires leaf { leaf < 511 * 511 }
    ensures answer { Answers (grown_in work.old space root leaf) result work.new }
    ensures kept { OnOk result (HasKept 3 work.old work.new space) }
    ensures page { IfOk result (λ number. IsNumberPage work.new.now space number) }
{
    let root = root_for_leaf(work, space, root, leaf)?;
    grow_directory(work, space, root, leaf)
}

/// The leaf that has the last leaf's next entry.
fn found_leaf(work: &Workspace, space: Space, root: u64, leaf: u32) -> Result<u64, PageEnd>
    requires { leaf < 511 * 511 }
    ensures answer { result ≡ placed_in work.now.now space root leaf }
    ensures page { IfOk result (λ number. IsNumberPage work.now.now space number) }
{
    let directory = directory_of(work, space, root, leaf)?;
    let number = leaf_of(work, space, root, directory, leaf)?;
    linked_page(work, space, LEAF_KIND, directory, number)?;
    Ok(number)
}

/// The leaf of the number after the highest: a new one where all entries of the last are numbers.
pub fn leaf_of_next(work: &mut Workspace, space: Space, numbers: &Numbers) -> Result<u64, PageEnd>
    requires head { IsWholeHead work.old.now space }
    requires highest { numbers.now.highest < form.MOST_NUMBERS }
    ensures answer { Answers (last_leaf work.old space numbers.now) result work.new }
    ensures kept { OnOk result (HasKept 3 work.old work.new space) }
    ensures page { IfOk result (λ number. IsNumberPage work.new.now space number) }
{
    let leaf = numbers.highest / ENTRIES;
    if numbers.highest % ENTRIES == 0 {
        return grow(work, space, numbers.root, leaf);
    }
    found_leaf(work, space, numbers.root, leaf)
}
