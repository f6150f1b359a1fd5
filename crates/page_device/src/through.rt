// One write and one sync, the part that every longer run of device calls is made of.
ghost use Rattle.std.specs.Prelude.{◌≡◌, ◌≤◌, ◌+◌, Some, IfSome, is_some, length, OnOk, OnErr};
ghost use Rattle.page_device.specs.Image.{Image, bytes_of, with_bytes, SameOthers};
ghost use Rattle.page_device.specs.Write.{overlay};
ghost use Rattle.page_device.specs.Device.{FileIs, KeepsOthers, HasCause};
ghost use Rattle.page_device.specs.Run.{Each, LeavesOnly, InPart};

use crate::device::{Device, Failed, LONGEST, Which};

/// Writes and syncs a file. After it each image has the bytes. At every moment of it, and after `Failed`, each image is
/// one from before with the write done, in part, or not at all.
pub fn write_and_sync<D: Device>(
    device: &mut D,
    file: Which,
    at: u64,
    bytes: &[u8],
) -> Result<(), Failed>
    requires { at + length bytes.now ≤ LONGEST }
    ensures told { is_some (D.contents device.new) ≡ is_some (D.contents device.old) }
    ensures contents { OnOk result (IfSome (D.contents device.old) (λ c. D.contents device.new ≡ Some (with_bytes c file (overlay (bytes_of c file) at bytes.now)))) }
    ensures durable { OnOk result (IfSome (D.contents device.old) (λ c. FileIs file (overlay (bytes_of c file) at bytes.now) (D.may_leave device.new))) }
    ensures stays { OnErr result (IfSome (D.contents device.old) (λ c. (d : Image) × (D.contents device.new ≡ Some d) × SameOthers file c d)) }
    ensures images { Each (D.may_leave device.new) (InPart file at (length bytes.now) (D.may_leave device.old)) }
    ensures others { KeepsOthers file (D.may_leave device.old) (D.may_leave device.new) }
    ensures any_moment { LeavesOnly D.moment D.left_since device.old device.new (InPart file at (length bytes.now) (D.may_leave device.old)) }
    ensures cause { HasCause (D.failures device.old) (D.failures device.new) result }
{
    device.write_at(file, at, bytes)?;
    device.sync(file)
}
