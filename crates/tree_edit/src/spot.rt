//! Where the walk over a document stands: the number of the next node, and the next edit.
ghost use Rattle.std.specs.Prelude.{◌≡◌, ◌+◌, ◌<◌, ◌≤◌, ◌^◌, length, OnSome};
ghost use Rattle.std.specs.Option.{option_copied};
ghost use Rattle.tree_edit.specs.Numbered.{look, IsAt};

use xml_model::{Edit, EditKind};

/// A place in the walk.
#[derive(Debug, Drop)]
pub struct Spot {
    /// The number of the next node in document order.
    pub number: u32,
    /// How many edits are of nodes before it.
    pub next: usize,
}

/// What is done at the next node, which is gone past.
pub fn edit_here<'a>(edits: &'a [Edit], spot: &mut Spot) -> Option<&'a EditKind>
    requires at { IsAt edits.now spot.old.number spot.old.next }
    requires room { spot.old.number + 1 < 2 ^ 32 }
    ensures found { option_copied result ≡ look edits.now spot.old.number }
    ensures number { spot.new.number ≡ spot.old.number + 1 }
    ensures at { IsAt edits.now spot.new.number spot.new.next }
{
    let number = spot.number;
    spot.number = number + 1;
    match edits.get(spot.next) {
        Some(edit) => {
            if edit.at == number {
                spot.next += 1;
                Some(&edit.what)
            } else {
                None
            }
        }
        None => None,
    }
}

/// Goes past as many nodes, with their edits.
#[tactic(auto, using(crate::proofs::Spots::ways))]
pub fn skip(edits: &[Edit], spot: &mut Spot, nodes: u32)
    requires at { IsAt edits.now spot.old.number spot.old.next }
    requires room { spot.old.number + nodes < 2 ^ 32 }
    ensures number { spot.new.number ≡ spot.old.number + nodes }
    ensures at { IsAt edits.now spot.new.number spot.new.next }
{
    spot.number += nodes;
    let mut next = spot.next;
    while let Some(edit) = edits.get(next) {
        if edit.at >= spot.number {
            break;
        }
        next += 1;
    }
    spot.next = next;
}
