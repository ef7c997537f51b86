// The disk as the layers above see it.
ghost use Rattle.std.specs.Prelude.{◌≡◌, ◌⊎◌, ◌+◌, ◌≤◌, ◌<◌, Bool, true, false, List, ℕ, length, IfOk, OnOk, OnErr};
ghost use Rattle.fault_counts.specs.Counts.{HasCause, RisesBy};
ghost use Rattle.disk_model.specs.Bytes.{part, patched, resized, Torn, Resized};
ghost use Rattle.disk_model.specs.Moments.{Only, Follows, Elapses};

use thiserror::Error;

/// A call failed on the device, which the disk's count of faults tells, too.
#[derive(Clone, Copy, Debug, PartialEq, Eq, Drop, Error)]
#[error("the disk failed")]
pub struct DiskFailed;

/// A block device of bytes at offsets from 0, which may fail in each call and lose power at each moment.
///
/// What is written becomes stable by the next `sync` that answers Ok. A crash before then may put any bytes into each
/// range that was written, no matter what the write answered, and may keep the old length or take the new one where the
/// length was set. Nothing else is touched. Right after that `sync` a crash leaves exactly the contents. Power can be
/// lost in a call or between two calls, so a call says what was left since its start. An image is the whole of the bytes
/// that a crash leaves.
///
/// All offsets, lengths and sizes are in bytes. A method that answers `DiskFailed` has raised the count of faults, and
/// its clauses say what stands after that, too.
pub trait Disk {
    /// The fact that this kind of disk tells its contents, its doubt, its images and its clock: the one-element type
    /// for a disk in memory, the empty type for a file.
    ghost tells: { Type 0 };

    /// The greatest length that `set_size` may be given, in bytes. It never changes.
    ghost most: { ℕ };

    /// The known length in bytes: the one that was last asked for or set. A disk that tells its contents knows theirs.
    ghost known: { Self → ℕ };

    /// How often the device failed. The count never falls, and ends at 2^64 - 1. A call that answers Ok leaves it as it was, so that no
    /// body can hide a failed call behind one that is tried again.
    ghost faults: { Self → ℕ };

    /// How many bytes were written. The count never falls, and only `write_at` raises it.
    ghost written: { Self → ℕ };

    /// The contents now: what a read gives.
    ghost seen: { Self → List ℕ };

    /// Whether a `write_at` or `set_size` failed since the last `sync` that answered Ok, so that the contents may change
    /// by themselves.
    ghost in_doubt: { Self → Bool };

    /// The images of a crash at this moment: the contents that it may leave.
    ghost may_leave: { Self → List ℕ → Type 0 };

    /// The clock: a number for this moment. No later moment has a smaller one.
    ghost moment: { Self → ℕ };

    /// The images of crashes at that moment or later, in a call or between two.
    ghost left_since: { Self → ℕ → List ℕ → Type 0 };

    /// Asks the device how many bytes it has. From then on that is the known length.
    ///
    /// A failure keeps the known length. The contents and the images stay.
    fn size(&mut self) -> Result<u64, DiskFailed>
        ensures value { IfOk result (λ size. size ≡ known self.new) }
        ensures known_err { OnErr result (known self.new ≡ known self.old) }
        ensures known_told { tells → known self.new ≡ known self.old }
        ensures count { written self.new ≡ written self.old }
        ensures cause { HasCause (faults self.old) (faults self.new) result }
        ensures steady { OnOk result (faults self.new ≡ faults self.old) }
        ensures time { tells → Elapses (moment self.old) (moment self.new) (left_since self.old) (left_since self.new) }
        ensures crash { tells → (c : List ℕ) → left_since self.new (moment self.old) c → may_leave self.old c }
        ensures contents { tells → in_doubt self.old ≡ false → seen self.new ≡ seen self.old }
        ensures doubt { tells → in_doubt self.old ≡ false → in_doubt self.new ≡ false };

    /// Sets the length to `bytes`, cutting the contents or filling them up with zeros.
    ///
    /// A failure leaves the old or the new length as the known one, and the disk may be in doubt. A crash before the next
    /// `sync` that answers Ok leaves the one length or the other. What lies below both is kept.
    fn set_size(&mut self, bytes: u64) -> Result<(), DiskFailed>
        requires { bytes ≤ most }
        ensures known { OnOk result (known self.new ≡ bytes) }
        ensures known_err { OnErr result ((known self.new ≡ known self.old) ⊎ (known self.new ≡ bytes)) }
        ensures count { written self.new ≡ written self.old }
        ensures cause { HasCause (faults self.old) (faults self.new) result }
        ensures steady { OnOk result (faults self.new ≡ faults self.old) }
        ensures time { tells → Elapses (moment self.old) (moment self.new) (left_since self.old) (left_since self.new) }
        ensures ticks { tells → OnOk result (moment self.old < moment self.new) }
        ensures crash { tells → Follows (Resized bytes) (may_leave self.old) (left_since self.new (moment self.old)) }
        ensures contents { tells → in_doubt self.old ≡ false → Resized bytes (seen self.old) (seen self.new) }
        ensures put { tells → OnOk result (in_doubt self.old ≡ false → seen self.new ≡ resized (seen self.old) bytes) }
        ensures doubt { tells → OnOk result (in_doubt self.old ≡ false → in_doubt self.new ≡ false) };

    /// Fills `into` with the bytes from `offset` on.
    ///
    /// After a failure `into` may hold anything. The contents and the images stay, and no doubt begins.
    fn read_at(&mut self, offset: u64, into: &mut [u8]) -> Result<(), DiskFailed>
        requires { offset + length into.old ≤ known self.old }
        ensures bytes { tells → OnOk result (into.new ≡ part offset (length into.old) (seen self.new)) }
        ensures known { known self.new ≡ known self.old }
        ensures count { written self.new ≡ written self.old }
        ensures cause { HasCause (faults self.old) (faults self.new) result }
        ensures steady { OnOk result (faults self.new ≡ faults self.old) }
        ensures time { tells → Elapses (moment self.old) (moment self.new) (left_since self.old) (left_since self.new) }
        ensures crash { tells → (c : List ℕ) → left_since self.new (moment self.old) c → may_leave self.old c }
        ensures contents { tells → in_doubt self.old ≡ false → seen self.new ≡ seen self.old }
        ensures doubt { tells → in_doubt self.old ≡ false → in_doubt self.new ≡ false };

    /// Writes `bytes` from `offset` on. A crash before the next `sync` that answers Ok may leave anything in that range.
    ///
    /// After a failure the contents may be anything in the range, and the disk may be in doubt. Nothing else changes.
    fn write_at(&mut self, offset: u64, bytes: &[u8]) -> Result<(), DiskFailed>
        requires { offset + length bytes.now ≤ known self.old }
        ensures known { known self.new ≡ known self.old }
        ensures count { RisesBy (length bytes.now) (written self.old) (written self.new) }
        ensures cause { HasCause (faults self.old) (faults self.new) result }
        ensures steady { OnOk result (faults self.new ≡ faults self.old) }
        ensures time { tells → Elapses (moment self.old) (moment self.new) (left_since self.old) (left_since self.new) }
        ensures ticks { tells → OnOk result (moment self.old < moment self.new) }
        ensures crash { tells → Follows (Torn offset (length bytes.now)) (may_leave self.old) (left_since self.new (moment self.old)) }
        ensures contents { tells → in_doubt self.old ≡ false → Torn offset (length bytes.now) (seen self.old) (seen self.new) }
        ensures put { tells → OnOk result (in_doubt self.old ≡ false → seen self.new ≡ patched (seen self.old) offset bytes.now) }
        ensures read_back { tells → OnOk result (part offset (length bytes.now) (seen self.new) ≡ bytes.now) }
        ensures doubt { tells → OnOk result (in_doubt self.old ≡ false → in_doubt self.new ≡ false) };

    /// Makes the contents stable: after Ok a crash leaves them and nothing else, and no doubt is left.
    ///
    /// After a failure the images and the contents are as before, and no doubt begins.
    fn sync(&mut self) -> Result<(), DiskFailed>
        ensures durable { tells → OnOk result (Only (seen self.new) (may_leave self.new)) }
        ensures settled { tells → OnOk result (in_doubt self.new ≡ false) }
        ensures known { known self.new ≡ known self.old }
        ensures count { written self.new ≡ written self.old }
        ensures cause { HasCause (faults self.old) (faults self.new) result }
        ensures steady { OnOk result (faults self.new ≡ faults self.old) }
        ensures time { tells → Elapses (moment self.old) (moment self.new) (left_since self.old) (left_since self.new) }
        ensures ticks { tells → OnOk result (moment self.old < moment self.new) }
        ensures crash { tells → (c : List ℕ) → left_since self.new (moment self.old) c → may_leave self.old c }
        ensures contents { tells → in_doubt self.old ≡ false → seen self.new ≡ seen self.old }
        ensures doubt { tells → in_doubt self.old ≡ false → in_doubt self.new ≡ false };

    /// How often the device failed so far. The device isn't asked.
    fn faults(&self) -> u64
        ensures { result ≡ faults self.now };

    /// The known length in bytes. The device isn't asked.
    fn known_size(&self) -> u64
        ensures { result ≡ known self.now };

    /// The known length is that of the contents.
    ghost length_seen: { tells → (disk : Self) → length (seen disk) ≡ known disk };

    /// A crash now may leave the contents as they are.
    ghost may_leave_seen: { tells → (disk : Self) → may_leave disk (seen disk) };

    /// This moment is one of those since an earlier one.
    ghost counts_now: { tells → (disk : Self) (t : ℕ) (c : List ℕ) → t ≤ moment disk → may_leave disk c → left_since disk t c };

    /// Since this moment there is no other.
    ghost only_now: { tells → (disk : Self) (c : List ℕ) → left_since disk (moment disk) c → may_leave disk c };

    /// Since an earlier moment there is no less.
    ghost earlier: { tells → (disk : Self) (s t : ℕ) (c : List ℕ) → s ≤ t → left_since disk t c → left_since disk s c };
}
