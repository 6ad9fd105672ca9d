// A disk: bytes that are read and written at places, a sync, and what a crash may leave.
ghost use Rattle.std.specs.Prelude.{◌≡◌, ◌-◌, ◌+◌, ◌≤◌, ◌++◌, List, ℕ, Option, Some, length, take, drop, min};
ghost use Rattle.std.specs.Prelude.{option_map, IfOk, OnOk, OnErr, IfSome};
ghost use Rattle.std.specs.Option.{ForSome};
ghost use Rattle.field_io.specs.Causes.{HasCause};
ghost use Rattle.disk_model.specs.Disk.{written, Torn, ToldAlike, Only, counted, AddsNoImage, AddsImages};

use field_io::Failed;

/// A disk of one writer. Each call may fail, and then counts it.
///
/// Between two syncs that succeed a crash may leave any bytes in each range that was written and past the end that
/// stood before, with any length between the old one and the new one; bytes outside these stay. A disk that doesn't
/// tell its bytes tells nothing of its images either.
pub trait Disk {
    /// What a read gives, where the disk tells it.
    ghost content: { Self → Option (List ℕ) };

    /// What a crash now may leave.
    ghost may: { Self → List ℕ → Type 0 };

    /// What a crash at some moment from that one on might have left, during a call or between two.
    ghost since: { Self → ℕ → List ℕ → Type 0 };

    /// The moment, as a number that doesn't fall.
    ghost clock: { Self → ℕ };

    /// How many calls have failed.
    ghost faults: { Self → ℕ };

    /// How many calls were made.
    ghost calls: { Self → ℕ };

    /// How many of them were syncs.
    ghost syncs: { Self → ℕ };

    /// The number of bytes.
    fn len(&mut self) -> Result<u64, Failed>
        ensures length { IfOk result (λ n. IfSome (content self.old) (λ bytes. n ≡ length bytes)) }
        ensures content { content self.new ≡ content self.old }
        ensures images { AddsNoImage clock may since self.old self.new }
        ensures cause { HasCause (faults self.old) (faults self.new) result }
        ensures calls { calls self.new ≡ counted (calls self.old) }
        ensures syncs { syncs self.new ≡ syncs self.old };

    /// Fills the front of `buf` with the bytes that stand from a place on: all of it, unless the disk ends before.
    /// The rest of `buf` stays.
    fn read(&mut self, at: u64, buf: &mut [u8]) -> Result<usize, Failed>
        ensures within { IfOk result (λ n. n ≤ length buf.old) }
        ensures count { IfOk result (λ n. IfSome (content self.old)
            (λ bytes. n ≡ min (length buf.old) (length bytes - at))) }
        ensures bytes { IfOk result (λ n. IfSome (content self.old)
            (λ bytes. buf.new ≡ take n (drop at bytes) ++ drop n buf.old)) }
        ensures content { content self.new ≡ content self.old }
        ensures images { AddsNoImage clock may since self.old self.new }
        ensures cause { HasCause (faults self.old) (faults self.new) result }
        ensures calls { calls self.new ≡ counted (calls self.old) }
        ensures syncs { syncs self.new ≡ syncs self.old };

    /// Writes over what stands at a place, and past the end. A failed write may have written any part.
    fn write_at(&mut self, at: u64, bytes: &[u8]) -> Result<(), Failed>
        requires { ForSome (content self.old) (λ old. at ≤ length old) }
        ensures written { OnOk result (content self.new ≡ option_map (written at bytes.now) (content self.old)) }
        ensures torn { OnErr result (ToldAlike (Torn at (length bytes.now)) (content self.old) (content self.new)) }
        ensures images { AddsImages clock may since (Torn at (length bytes.now)) self.old self.new }
        ensures cause { HasCause (faults self.old) (faults self.new) result }
        ensures calls { calls self.new ≡ counted (calls self.old) }
        ensures syncs { syncs self.new ≡ syncs self.old };

    /// Once it has succeeded, a crash leaves what a read gives, and the disk is at its next moment.
    fn sync(&mut self) -> Result<(), Failed>
        ensures durable { OnOk result (Only (content self.new) (may self.new)) }
        ensures next { OnOk result (clock self.new ≡ counted (clock self.old)) }
        ensures content { content self.new ≡ content self.old }
        ensures images { AddsNoImage clock may since self.old self.new }
        ensures cause { HasCause (faults self.old) (faults self.new) result }
        ensures calls { calls self.new ≡ counted (calls self.old) }
        ensures syncs { syncs self.new ≡ counted (syncs self.old) };

    /// This moment.
    fn moment(&self) -> u64
        ensures { result ≡ clock self.now };

    /// How many calls have failed.
    fn fault_count(&self) -> u64
        ensures { result ≡ faults self.now };

    /// What a disk reads as is among its images.
    ghost reads_as: { (disk : Self) (bytes : List ℕ) → content disk ≡ Some bytes → may disk bytes };

    /// This moment is one of those since an earlier one.
    ghost counts_now: { (disk : Self) (t : ℕ) (c : List ℕ) → t ≤ clock disk → may disk c → since disk t c };

    /// Since this moment there is no other.
    ghost only_now: { (disk : Self) (c : List ℕ) → since disk (clock disk) c → may disk c };

    /// What might have been left since a moment might have been left since an earlier one.
    ghost earlier: { (disk : Self) (t u : ℕ) (c : List ℕ) → t ≤ u → since disk u c → since disk t c };
}
