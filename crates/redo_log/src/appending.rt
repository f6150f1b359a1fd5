//! Appending a record, and settling one that is in doubt. Neither takes memory.
ghost use Rattle.std.specs.Prelude.{◌≡◌, ◌≤◌, ◌<◌, ◌+◌, ◌↔◌, ℕ, Some, IfSome, is_some, length, OnOk, OnErr, IfOk, IsErrOf};
ghost use Rattle.page_device.specs.Image.{Image, bytes_of, with_bytes, SameOthers};
ghost use Rattle.page_device.specs.Device.{FileIs, KeepsOthers, HasCause, Rose};
ghost use Rattle.page_device.specs.Run.{Each, LeavesOnly, OthersFrom};
ghost use Rattle.redo_log.specs.Record.{tail_of};
ghost use Rattle.redo_log.specs.Append.{IsAtRest, next_end, Lacks, HasBody, recorded, AtAnyMoment, IsInDoubt, Settles};

use crate::body::LogBody;
use crate::end::{AppendEnd, LogEnd};
use page_device::{Device, Failed, GateEnd, LONGEST, settle_gate, write_behind_gate};

/// Appends a record behind the closed gate that ends the log: its body with its length and the next gate as 0, a sync,
/// the gate as 1, a sync.
pub fn append<D: Device>(device: &mut D, end: &mut LogEnd, body: &LogBody) -> Result<(), AppendEnd>
    requires rest { IfSome (D.contents device.old) (λ c. IsAtRest end.old c (D.may_leave device.old)) }
    ensures told { is_some (D.contents device.new) ≡ is_some (D.contents device.old) }

    // After Ok each image has the record, and reads give it. The next append goes behind it.
    ensures done { OnOk result (IfSome (D.contents device.old) (λ c. FileIs end.old.file (recorded end.old body.now c) (D.may_leave device.new))) }
    ensures contents { OnOk result (IfSome (D.contents device.old) (λ c. D.contents device.new ≡ Some (with_bytes c end.old.file (recorded end.old body.now c)))) }
    ensures end { OnOk result (end.new ≡ next_end end.old body.now) }
    ensures next { OnOk result (IfSome (D.contents device.new) (λ c. IsAtRest end.new c (D.may_leave device.new))) }

    // After an error the place is as it was, and so are the other files as they are read.
    ensures err { OnErr result (end.new ≡ end.old) }
    ensures stays { OnErr result (IfSome (D.contents device.old) (λ c. (d : Image) × (D.contents device.new ≡ Some d) × SameOthers end.old.file c d)) }

    // After Failed no image has the record, its gate was not touched, and an append may be tried again.
    ensures failed { IsErrOf result AppendEnd.Failed → IfSome (D.contents device.old) (λ c. Each (D.may_leave device.new) (Lacks end.old body.now c (D.may_leave device.old))) }
    ensures again { IsErrOf result AppendEnd.Failed → IfSome (D.contents device.new) (λ c. IsAtRest end.new c (D.may_leave device.new)) }
    ensures failed_cause { IsErrOf result AppendEnd.Failed → Rose (D.failures device.old) (D.failures device.new) }

    // After Doubt each image has the record but for its gate, which alone differs from image to image.
    ensures doubt { IsErrOf result AppendEnd.Doubt → IfSome (D.contents device.old) (λ c. Each (D.may_leave device.new) (HasBody end.old body.now c)) }
    ensures to_settle { IsErrOf result AppendEnd.Doubt → IfSome (D.contents device.new) (λ _. IsInDoubt end.new body.now (D.may_leave device.new)) }
    ensures doubt_cause { IsErrOf result AppendEnd.Doubt → Rose (D.failures device.old) (D.failures device.new) }

    // Spent comes exactly where the file would be longer than a file can be, and before any call of the device.
    ensures spent { IsErrOf result (AppendEnd.Spent LONGEST) ↔ (LONGEST < end.old.at + 1 + length (tail_of body.now)) }
    ensures spent_number { (n : ℕ) → IsErrOf result (AppendEnd.Spent n) → (n ≡ LONGEST) × (device.new ≡ device.old) }

    // At each moment each image lacks the record or has it. The other files stay, and the count of faults does not fall.
    ensures any_moment { IfSome (D.contents device.old) (λ c. LeavesOnly D.moment D.left_since device.old device.new (AtAnyMoment end.old body.now c (D.may_leave device.old))) }
    ensures others_from { Each (D.may_leave device.new) (OthersFrom end.old.file (D.may_leave device.old)) }
    ensures others { KeepsOthers end.old.file (D.may_leave device.old) (D.may_leave device.new) }
    ensures faults { D.failures device.old ≤ D.failures device.new }
{
    let tail = body.tail();
    let long = tail.len() as u64;
    if LONGEST.saturating_sub(end.at) <= long {
        return Err(AppendEnd::Spent { number: LONGEST });
    }
    match write_behind_gate(device, end.file, end.at, tail) {
        Ok(()) => {
            end.at += long;
            Ok(())
        }
        Err(GateEnd::Failed) => Err(AppendEnd::Failed),
        Err(GateEnd::Doubt) => Err(AppendEnd::Doubt),
    }
}

/// Settles a record that is in doubt: syncs, and reads its gate. The record stands exactly where the gate is 1.
pub fn settle<D: Device>(device: &mut D, end: &mut LogEnd, body: &LogBody) -> Result<bool, Failed>
    requires doubt { IfSome (D.contents device.old) (λ _. IsInDoubt end.old body.now (D.may_leave device.old)) }
    ensures told { is_some (D.contents device.new) ≡ is_some (D.contents device.old) }
    ensures answer { IfOk result (λ yes. IfSome (D.contents device.old) (λ c. Settles end.old end.new body.now c (D.may_leave device.new) yes)) }
    ensures contents { OnOk result (D.contents device.new ≡ D.contents device.old) }
    ensures err { OnErr result (end.new ≡ end.old) }
    ensures stays { OnErr result (IfSome (D.contents device.old) (λ c. (d : Image) × (D.contents device.new ≡ Some d) × SameOthers end.old.file c d)) }

    // It leaves no image that was not there, at no moment, and the other files stay.
    ensures images { Each (D.may_leave device.new) (D.may_leave device.old) }
    ensures any_moment { LeavesOnly D.moment D.left_since device.old device.new (D.may_leave device.old) }
    ensures others { KeepsOthers end.old.file (D.may_leave device.old) (D.may_leave device.new) }
    ensures cause { HasCause (D.failures device.old) (D.failures device.new) result }
{
    let tail = body.tail();
    let yes = settle_gate(device, end.file, end.at)?;
    if yes {
        end.at += tail.len() as u64;
    }
    Ok(yes)
}
