//! Writing the images of a plan to their slots.
ghost use Rattle.std.specs.Prelude.{◌≡◌, Some, IfSome, is_some, OnOk, [], ◌∷◌};
ghost use Rattle.std.specs.List.{AllByRecursion};
ghost use Rattle.page_device.specs.Image.{Image};
ghost use Rattle.page_device.specs.declared.device.Which.TheVariants.{Slots};
ghost use Rattle.page_device.specs.Device.{FileIs, HasCause};
ghost use Rattle.page_device.specs.Run.{Each, LeavesOnly};
ghost use Rattle.slot_store.specs.Head.{EachPair};
ghost use Rattle.slot_store.specs.Planned.{written_slots, HasRoom, AreApart};
ghost use Rattle.slot_store.specs.Steps.{From, SlotsWritten, HasImages};

use crate::planning::Placed;
use page_device::{Device, Failed, Which};

/// Writes the images of the placed pages to their slots, in this order, and syncs the slot file.
pub fn write_images<D: Device>(device: &mut D, placed: &[Placed]) -> Result<(), Failed>
    requires slots { AllByRecursion HasRoom placed.now }
    requires apart { EachPair AreApart placed.now }
    ensures told { is_some (D.contents device.new) ≡ is_some (D.contents device.old) }
    ensures contents { OnOk result (IfSome (D.contents device.old) (λ c. (d : Image) × (D.contents device.new ≡ Some d) × HasImages placed.now c d × FileIs Slots d.slots (D.may_leave device.new))) }
    ensures images { Each (D.may_leave device.new) (From (SlotsWritten (written_slots placed.now)) (D.may_leave device.old)) }
    ensures any_moment { LeavesOnly D.moment D.left_since device.old device.new (From (SlotsWritten (written_slots placed.now)) (D.may_leave device.old)) }
    ensures cause { HasCause (D.failures device.old) (D.failures device.new) result }
{
    write_all(device, placed)?;
    device.sync(Which::Slots)
}

// Writes the images, without a sync.
fn write_all<D: Device>(device: &mut D, placed: &[Placed]) -> Result<(), Failed>
    requires slots { AllByRecursion HasRoom placed.now }
    requires apart { EachPair AreApart placed.now }
    ensures told { is_some (D.contents device.new) ≡ is_some (D.contents device.old) }
    ensures contents { OnOk result (IfSome (D.contents device.old) (λ c. (d : Image) × (D.contents device.new ≡ Some d) × HasImages placed.now c d)) }
    ensures images { Each (D.may_leave device.new) (From (SlotsWritten (written_slots placed.now)) (D.may_leave device.old)) }
    ensures any_moment { LeavesOnly D.moment D.left_since device.old device.new (From (SlotsWritten (written_slots placed.now)) (D.may_leave device.old)) }
    ensures cause { HasCause (D.failures device.old) (D.failures device.new) result }
{
    for page in placed {
        write_one(device, page)?;
    }
    Ok(())
}

// Writes the image of a placed page, if it has one.
fn write_one<D: Device>(device: &mut D, placed: &Placed) -> Result<(), Failed>
    requires slot { HasRoom placed.now }
    ensures told { is_some (D.contents device.new) ≡ is_some (D.contents device.old) }
    ensures contents { OnOk result (IfSome (D.contents device.old) (λ c. (d : Image) × (D.contents device.new ≡ Some d) × HasImages (placed.now ∷ []) c d)) }
    ensures images { Each (D.may_leave device.new) (From (SlotsWritten (written_slots (placed.now ∷ []))) (D.may_leave device.old)) }
    ensures any_moment { LeavesOnly D.moment D.left_since device.old device.new (From (SlotsWritten (written_slots (placed.now ∷ []))) (D.may_leave device.old)) }
    ensures cause { HasCause (D.failures device.old) (D.failures device.new) result }
{
    match &placed.page {
        None => Ok(()),
        Some(page) => device.write_at(Which::Slots, placed.slot * 4096, page.bytes()),
    }
}
