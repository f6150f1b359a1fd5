// Three files as a program sees them: what a read gives, and what a crash may leave of all three.
ghost use Rattle.std.specs.Prelude.{◌≡◌, ◌≤◌, ◌+◌, Option, Some, IfSome, is_some, length, IfOk, OnOk, OnErr};
ghost use Rattle.page_device.specs.Image.{Image, bytes_of, with_bytes, SameOthers};
ghost use Rattle.page_device.specs.Write.{overlay};
ghost use Rattle.page_device.specs.Device.{Reads, TornIn, TornImage, Follows, Same, Shrinks, KeepsOthers, FileIs, Elapses, HasCause};

use thiserror::Error;

/// The greatest length of a file, in bytes.
pub const LONGEST: u64 = 9223372036854775807;

/// The three files: the pages' slots, and two logs.
#[derive(Clone, Copy, Debug, PartialEq, Eq)]
pub enum Which {
    Slots,
    LogA,
    LogB,
}

/// The device did not do what was asked. Its count of faults rose.
#[derive(Debug, Drop, Error)]
#[error("the device failed")]
pub struct Failed;

/// Three files under one clock.
pub trait Device {
    ghost use Rattle.std.specs.Prelude.{◌≡◌, ◌≤◌, ℕ, Option, Some};
    ghost use Rattle.page_device.specs.Image.{Image, IsBounded};

    /// What reads give, where the device tells it.
    ghost contents: { Self → Option Image };

    /// The images: what a crash now may leave.
    ghost may_leave: { Self → Image → Type 0 };

    /// The clock, which is one for the three files.
    ghost moment: { Self → ℕ };

    /// What a crash at some moment since this one might have left, inside a call or between two.
    ghost left_since: { Self → ℕ → Image → Type 0 };

    /// The count of faults.
    ghost failures: { Self → ℕ };

    /// Fills the front of a buffer with the bytes that are there, and says how many they are. After `Failed` nothing is
    /// said of the buffer.
    fn read(&mut self, file: Which, at: u64, into: &mut [u8]) -> Result<usize, Failed>
        requires { at + length into.old ≤ LONGEST }
        ensures within { IfOk result (λ n. n ≤ length into.old) }
        ensures bytes { IfOk result (λ n. IfSome (contents self.old) (λ c. Reads (bytes_of c file) at into.new n)) }
        ensures contents { contents self.new ≡ contents self.old }
        ensures crash { Same (may_leave self.old) (may_leave self.new) }
        ensures time { Elapses (moment self.old) (moment self.new) (left_since self.old) (left_since self.new) (may_leave self.new) }
        ensures cause { HasCause (failures self.old) (failures self.new) result };

    /// Writes over what is there and past the end. Until the next sync a crash may leave any bytes in the range, also
    /// where the write failed.
    fn write_at(&mut self, file: Which, at: u64, bytes: &[u8]) -> Result<(), Failed>
        requires { at + length bytes.now ≤ LONGEST }
        ensures written { OnOk result (IfSome (contents self.old) (λ c. contents self.new ≡ Some (with_bytes c file (overlay (bytes_of c file) at bytes.now)))) }
        ensures torn { OnErr result (IfSome (contents self.old) (λ c. (d : Image) × (contents self.new ≡ Some d) × TornIn file at (length bytes.now) c d)) }
        ensures told { is_some (contents self.new) ≡ is_some (contents self.old) }
        ensures crash { Follows (TornImage file at (length bytes.now) (contents self.new)) (may_leave self.old) (may_leave self.new) }
        ensures others { KeepsOthers file (may_leave self.old) (may_leave self.new) }
        ensures time { Elapses (moment self.old) (moment self.new) (left_since self.old) (left_since self.new) (may_leave self.new) }
        ensures cause { HasCause (failures self.old) (failures self.new) result };

    /// After it a crash leaves of this file what a read gives. After `Failed` nothing is promised anew.
    fn sync(&mut self, file: Which) -> Result<(), Failed>
        ensures durable { OnOk result (IfSome (contents self.old) (λ c. FileIs file (bytes_of c file) (may_leave self.new))) }
        ensures contents { OnOk result (contents self.new ≡ contents self.old) }
        ensures failed { OnErr result (IfSome (contents self.old) (λ c. (d : Image) × (contents self.new ≡ Some d) × SameOthers file c d)) }
        ensures told { is_some (contents self.new) ≡ is_some (contents self.old) }
        ensures crash { Shrinks (may_leave self.old) (may_leave self.new) }
        ensures others { KeepsOthers file (may_leave self.old) (may_leave self.new) }
        ensures time { Elapses (moment self.old) (moment self.new) (left_since self.old) (left_since self.new) (may_leave self.new) }
        ensures cause { HasCause (failures self.old) (failures self.new) result };

    /// How many bytes the file has.
    fn len(&mut self, file: Which) -> Result<u64, Failed>
        ensures within { IfOk result (λ n. n ≤ LONGEST) }
        ensures length { IfOk result (λ n. IfSome (contents self.old) (λ c. n ≡ length (bytes_of c file))) }
        ensures contents { contents self.new ≡ contents self.old }
        ensures crash { Same (may_leave self.old) (may_leave self.new) }
        ensures time { Elapses (moment self.old) (moment self.new) (left_since self.old) (left_since self.new) (may_leave self.new) }
        ensures cause { HasCause (failures self.old) (failures self.new) result };

    /// The count of faults now. It changes nothing and cannot fail.
    fn faults(&self) -> u64
        ensures { result ≡ failures self.now };

    /// The contents as read are one of the images.
    ghost told_now: { (d : Self) (c : Image) → contents d ≡ Some c → may_leave d c };

    /// What a crash now may leave counts as left since an earlier moment.
    ghost counts_now: { (d : Self) (t : ℕ) (c : Image) → t ≤ moment d → may_leave d c → left_since d t c };

    /// Since this moment there is no other than now.
    ghost only_now: { (d : Self) (c : Image) → left_since d (moment d) c → may_leave d c };

    /// A later time leaves less.
    ghost later_less: { (d : Self) (t u : ℕ) (c : Image) → t ≤ u → left_since d u c → left_since d t c };

    /// No file of an image is longer than a place can be.
    ghost bounded: { (d : Self) (t : ℕ) (c : Image) → left_since d t c → IsBounded c };
}
