//! All of a checkpoint before the gate of the new head is written.
ghost use Rattle.std.specs.Prelude.{◌≡◌, Some, IfSome, is_some, OnOk};
ghost use Rattle.page_device.specs.Image.{Image};
ghost use Rattle.page_device.specs.Device.{HasCause};
ghost use Rattle.page_device.specs.Run.{Each, LeavesOnly};
ghost use Rattle.slot_store.specs.Planned.{written_slots, IsMadeFor};
ghost use Rattle.slot_store.specs.Steps.{From, SlotsStand};
ghost use Rattle.slot_store.specs.Checkpoint.{IsReady, IsPlanned, IsPrepared};

use crate::gate::close_gate;
use crate::head::write_head;
use crate::images::write_images;
use crate::planning::MadePlan;
use crate::state::SlotState;
use page_device::{Device, Failed};

/// Writes the images of the plan to their slots, closes the gate of the other log, and writes the new head behind it.
pub fn prepare<D: Device>(
    device: &mut D,
    state: &SlotState,
    plan: &mut MadePlan,
) -> Result<(), Failed>
    requires made { IsMadeFor state.now plan.old }
    requires ready { IfSome (D.contents device.old) (λ c. IsReady state.now plan.old c (D.may_leave device.old)) }
    ensures plan { plan.new ≡ record plan.old { buffer = plan.new.buffer } }
    ensures told { is_some (D.contents device.new) ≡ is_some (D.contents device.old) }
    ensures done { OnOk result (IfSome (D.contents device.old) (λ c. (d : Image) × (D.contents device.new ≡ Some d) × IsPrepared state.now plan.old c d (D.may_leave device.new))) }
    ensures images { IfSome (D.contents device.old) (λ c. Each (D.may_leave device.new) (IsPlanned state.now plan.old c)) }
    ensures any_moment { IfSome (D.contents device.old) (λ c. LeavesOnly D.moment D.left_since device.old device.new (IsPlanned state.now plan.old c)) }
    ensures stand { IfSome (D.contents device.old) (λ _. Each (D.may_leave device.new) (From (SlotsStand (written_slots plan.old.placed.items)) (D.may_leave device.old))) }
    ensures cause { HasCause (D.failures device.old) (D.failures device.new) result }
{
    let placed = plan.placed.as_slice();
    write_images(device, placed)?;
    let file = state.log.other().file();
    close_gate(device, file)?;
    let front = plan.front.as_slice();
    let buffer = plan.buffer.as_mut_slice();
    write_head(device, file, front, placed, buffer)?;
    Ok(())
}
