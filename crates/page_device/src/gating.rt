// A body behind a gate: written so that at each moment it is there or not, and settled where that is in doubt.
ghost use Rattle.std.specs.Prelude.{◌≡◌, ◌≤◌, ◌<◌, ◌+◌, ◌↔◌, IfSome, is_some, length, IfOk, OnOk, OnErr, IsErr, IsErrOf, IsTrue, Some, slice_index};
ghost use Rattle.page_device.specs.Image.{Image, bytes_of, with_bytes, SameOthers};
ghost use Rattle.page_device.specs.Device.{FileIs, KeepsOthers, HasCause, Rose, Same, Elapses};
ghost use Rattle.page_device.specs.Run.{Each, LeavesOnly, OthersFrom};
ghost use Rattle.page_device.specs.Gate.{IsAtRest, Lacks, HasBody, gated, AtAnyMoment, IsInDoubt, IsSettled};

use crate::device::{Device, Failed, LONGEST, Which};
use crate::through::write_and_sync;
use thiserror::Error;

/// Why a body was not written behind its gate, or not surely.
#[derive(Clone, Copy, Debug, PartialEq, Eq, Error)]
pub enum GateEnd {
    /// The device failed before the gate was written.
    #[error("the device failed")]
    Failed,

    /// The device failed in the gate's write or in the sync after it. The gate may be open or not.
    #[error("the gate is in doubt")]
    Doubt,
}

/// Writes a body behind a gate that is closed in each image: the body, a sync, the gate as 1, a sync.
pub fn write_behind_gate<D: Device>(
    device: &mut D,
    file: Which,
    at: u64,
    body: &[u8],
) -> Result<(), GateEnd>
    requires fits { at + 1 + length body.now ≤ LONGEST }
    requires rest { IfSome (D.contents device.old) (λ c. IsAtRest file at c (D.may_leave device.old)) }
    ensures told { is_some (D.contents device.new) ≡ is_some (D.contents device.old) }

    // After Ok each image has the body behind an open gate, and reads give it.
    ensures done { OnOk result (IfSome (D.contents device.old) (λ c. FileIs file (gated file at body.now c) (D.may_leave device.new))) }
    ensures contents { OnOk result (IfSome (D.contents device.old) (λ c. D.contents device.new ≡ Some (with_bytes c file (gated file at body.now c)))) }

    // After an error the other files are as they were, as they are read.
    ensures stays { OnErr result (IfSome (D.contents device.old) (λ c. (d : Image) × (D.contents device.new ≡ Some d) × SameOthers file c d)) }

    // After Failed the gate was not touched, and the body may be written again.
    ensures failed { IsErrOf result GateEnd.Failed → IfSome (D.contents device.old) (λ c. Each (D.may_leave device.new) (Lacks file at body.now c (D.may_leave device.old))) }
    ensures again { IsErrOf result GateEnd.Failed → IfSome (D.contents device.new) (λ c. IsAtRest file at c (D.may_leave device.new)) }

    // After Doubt each image has the body, and its gate alone differs from image to image.
    ensures doubt { IsErrOf result GateEnd.Doubt → IfSome (D.contents device.old) (λ c. Each (D.may_leave device.new) (HasBody file at body.now c)) }
    ensures to_settle { IsErrOf result GateEnd.Doubt → IfSome (D.contents device.new) (λ _. IsInDoubt file at body.now (D.may_leave device.new)) }

    // At each moment each image lacks the body or has it. The other files stay.
    ensures any_moment { IfSome (D.contents device.old) (λ c. LeavesOnly D.moment D.left_since device.old device.new (AtAnyMoment file at body.now c (D.may_leave device.old))) }
    ensures others_from { Each (D.may_leave device.new) (OthersFrom file (D.may_leave device.old)) }
    ensures others { KeepsOthers file (D.may_leave device.old) (D.may_leave device.new) }
    ensures faults { D.failures device.old ≤ D.failures device.new }
    ensures cause { IsErr result → Rose (D.failures device.old) (D.failures device.new) }
{
    let Ok(()) = write_and_sync(device, file, at + 1, body) else {
        return Err(GateEnd::Failed);
    };
    let Ok(()) = write_and_sync(device, file, at, &[1]) else {
        return Err(GateEnd::Doubt);
    };
    Ok(())
}

/// Settles a gate: syncs the file, and says whether the gate is 1. After it each image has the file as it is read.
pub fn settle_gate<D: Device>(device: &mut D, file: Which, at: u64) -> Result<bool, Failed>
    ensures told { is_some (D.contents device.new) ≡ is_some (D.contents device.old) }
    ensures answer { IfOk result (λ yes. IfSome (D.contents device.old) (λ c. IsSettled file at c (D.may_leave device.new) yes)) }
    ensures place { IfOk result (λ yes. IsTrue yes → at < LONGEST) }
    ensures contents { OnOk result (D.contents device.new ≡ D.contents device.old) }
    ensures stays { OnErr result (IfSome (D.contents device.old) (λ c. (d : Image) × (D.contents device.new ≡ Some d) × SameOthers file c d)) }

    // It leaves no image that was not there, at no moment, and the other files stay.
    ensures images { Each (D.may_leave device.new) (D.may_leave device.old) }
    ensures any_moment { LeavesOnly D.moment D.left_since device.old device.new (D.may_leave device.old) }
    ensures others { KeepsOthers file (D.may_leave device.old) (D.may_leave device.new) }
    ensures cause { HasCause (D.failures device.old) (D.failures device.new) result }
{
    D::sync(device, file)?;
    is_open(device, file, at)
}

// Whether the byte at this place is 1. Past the end of the file there is none.
fn is_open<D: Device>(device: &mut D, file: Which, at: u64) -> Result<bool, Failed>
    ensures answer { IfOk result (λ yes. IfSome (D.contents device.old) (λ c. IsTrue yes ↔ (slice_index (bytes_of c file) at ≡ 1))) }
    ensures place { IfOk result (λ yes. IsTrue yes → at < LONGEST) }
    ensures contents { D.contents device.new ≡ D.contents device.old }
    ensures crash { Same (D.may_leave device.old) (D.may_leave device.new) }
    ensures time { Elapses (D.moment device.old) (D.moment device.new) (D.left_since device.old) (D.left_since device.new) (D.may_leave device.new) }
    ensures cause { HasCause (D.failures device.old) (D.failures device.new) result }
{
    if at >= LONGEST {
        return Ok(false);
    }
    let mut gate = [0];
    let count = device.read(file, at, &mut gate)?;
    Ok(count == 1 && gate[0] == 1)
}
