// A disk with a clock of moments.

/// A call failed; the disk's count of faults rose.
#[derive(Clone, Copy, Debug, PartialEq, Eq)]
pub struct DiskFault;

/// The bytes of one file. A disk has a clock of moments and a count of faults, and at each moment there are images that
/// a crash may leave: between two syncs each written range, and the part past the old end, may hold any bytes, and that
/// part may be missing in whole or at its end; other bytes stay. A failed write may have done any part of itself.
pub trait Disk {
    ghost use Rattle.std.specs.Prelude.{◌≡◌, ◌≤◌, ◌<◌, ◌+◌, ◌-◌, ℕ, min, List, length, take, drop, Bool, true, Option, Some, IfOk, OnOk, OnErr};
    ghost use Rattle.muck_disk.specs.Images.{Torn, Same, Elapses, Only, bytes_written};
    ghost use Rattle.muck_io.specs.Faults.{Rose};

    /// Whether a disk of this type tells its bytes; all that is said of them is under this.
    ghost tells: { Bool };

    /// The name that it was attached with.
    ghost attached: { Self → Option (List ℕ) };

    /// The bytes that a read gives.
    ghost seen: { Self → List ℕ };

    /// The moment, which doesn't fall.
    ghost moment: { Self → ℕ };

    /// The images that a crash at this moment may leave.
    ghost images: { Self → ℕ → List ℕ → Type 0 };

    /// How often a call failed.
    ghost faults: { Self → ℕ };

    /// Opens the file of this name. It is called once, first. `DiskFault` comes only where the count of faults rose.
    fn attach(&mut self, name: &str) -> Result<(), DiskFault>
        ensures name { tells ≡ true → OnOk result (attached self.new ≡ Some name.now) }
        ensures seen { tells ≡ true → seen self.new ≡ seen self.old }
        ensures time { tells ≡ true → Elapses (moment self.old) (moment self.new) (images self.old) (images self.new) Same }
        ensures later { faults self.old ≤ faults self.new }
        ensures cause { OnErr result (Rose (faults self.old) (faults self.new)) };

    /// How many bytes a read can reach. `DiskFault` comes only where the count of faults rose.
    fn size(&mut self) -> Result<u64, DiskFault>
        ensures size { tells ≡ true → IfOk result (λ n. n ≡ length (seen self.old)) }
        ensures keeps { attached self.new ≡ attached self.old }
        ensures seen { tells ≡ true → seen self.new ≡ seen self.old }
        ensures time { tells ≡ true → Elapses (moment self.old) (moment self.new) (images self.old) (images self.new) Same }
        ensures later { faults self.old ≤ faults self.new }
        ensures cause { OnErr result (Rose (faults self.old) (faults self.new)) };

    /// Reads from a place on as many bytes as are there, at most `buf`, and answers how many. `DiskFault` comes only
    /// where the count of faults rose; nothing is said of `buf` then.
    fn read(&mut self, at: u64, buf: &mut [u8]) -> Result<usize, DiskFault>
        ensures fits { IfOk result (λ n. n ≤ length buf.new) }
        ensures count { tells ≡ true → IfOk result (λ n. n ≡ min (length (seen self.old) - at) (length buf.new)) }
        ensures bytes { tells ≡ true → IfOk result (λ n. take n buf.new ≡ take n (drop at (seen self.old))) }
        ensures keeps { attached self.new ≡ attached self.old }
        ensures seen { tells ≡ true → seen self.new ≡ seen self.old }
        ensures time { tells ≡ true → Elapses (moment self.old) (moment self.new) (images self.old) (images self.new) Same }
        ensures later { faults self.old ≤ faults self.new }
        ensures cause { OnErr result (Rose (faults self.old) (faults self.new)) };

    /// Writes over what is there, and past the end. Until a sync, a crash may leave any bytes in the range. `DiskFault`
    /// comes only where the count of faults rose; any part may have been done then.
    fn write_at(&mut self, at: u64, bytes: &[u8]) -> Result<(), DiskFault>
        requires { tells ≡ true → at ≤ length (seen self.old) }
        ensures written { tells ≡ true → OnOk result (seen self.new ≡ bytes_written (seen self.old) at bytes.now) }
        ensures keeps { attached self.new ≡ attached self.old }
        ensures time { tells ≡ true → Elapses (moment self.old) (moment self.new) (images self.old) (images self.new) (Torn at (length bytes.now)) }
        ensures later { faults self.old ≤ faults self.new }
        ensures cause { OnErr result (Rose (faults self.old) (faults self.new)) };

    /// After it, a crash leaves what a read gives, and nothing else. `DiskFault` comes only where the count of faults
    /// rose; nothing is durable then that wasn't.
    fn sync(&mut self) -> Result<(), DiskFault>
        ensures durable { tells ≡ true → OnOk result (Only (seen self.new) (images self.new (moment self.new))) }
        ensures keeps { attached self.new ≡ attached self.old }
        ensures seen { tells ≡ true → seen self.new ≡ seen self.old }
        ensures time { tells ≡ true → Elapses (moment self.old) (moment self.new) (images self.old) (images self.new) Same }
        ensures later { faults self.old ≤ faults self.new }
        ensures cause { OnErr result (Rose (faults self.old) (faults self.new)) };

    /// What a read gives is one of the images.
    ghost seen_left: { (disk : Self) → tells ≡ true → images disk (moment disk) (seen disk) };
}
