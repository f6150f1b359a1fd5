//! Closing the gate of an old head before a new one is written behind it.
ghost use Rattle.std.specs.Prelude.{◌≡◌, Some, IfSome, is_some, OnOk};
ghost use Rattle.page_device.specs.Image.{Image, SameOthers};
ghost use Rattle.page_device.specs.Device.{HasCause};
ghost use Rattle.page_device.specs.Run.{Each, LeavesOnly};
ghost use Rattle.slot_store.specs.Steps.{From, HasGate, GateMoved, IsClosed};

use page_device::{Device, Failed, Which, settle_gate, write_and_sync};

/// Makes the gate of a log's head closed: syncs the log, reads its first byte, and where that is 1 writes it as 0 and syncs
/// again.
pub fn close_gate<D: Device>(device: &mut D, file: Which) -> Result<(), Failed>
    requires gate { IfSome (D.contents device.old) (λ _. Each (D.may_leave device.old) (HasGate file)) }
    ensures told { is_some (D.contents device.new) ≡ is_some (D.contents device.old) }
    ensures contents { OnOk result (IfSome (D.contents device.old) (λ c. (d : Image) × (D.contents device.new ≡ Some d) × SameOthers file c d × IsClosed file d (D.may_leave device.new))) }
    ensures images { IfSome (D.contents device.old) (λ _. Each (D.may_leave device.new) (From (GateMoved file) (D.may_leave device.old))) }
    ensures any_moment { IfSome (D.contents device.old) (λ _. LeavesOnly D.moment D.left_since device.old device.new (From (GateMoved file) (D.may_leave device.old))) }
    ensures cause { HasCause (D.failures device.old) (D.failures device.new) result }
{
    let yes = settle_gate(device, file, 0)?;
    if !yes {
        return Ok(());
    }
    write_and_sync(device, file, 0, &[0])?;
    Ok(())
}
