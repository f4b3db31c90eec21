ghost use Rattle.std.specs.Prelude.{◌≡◌, ◌≢◌, ◌≤◌, ◌<◌, ◌++◌, ◌∷◌, [], ℕ, Bool, true, length, take, is_ok, IsTrue, IfOk, OnOk, OnErr};
ghost use Rattle.crash_disk.specs.declared.opening.Opening.TheVariants.{Opened, Absent};
ghost use Rattle.crash_disk.specs.DiskView.{Passes, Torn, after_write, synced_file, bytes_at};
ghost use Rattle.crash_disk.specs.RawFile.{RawView, raw_now, Opens, SyncsFolder, disk_of, read_call, write_call, sync_call};

use crate::opening::Opening;
use std::io;

/// One file as the machine has it, and the folder in which it stands, one call of the machine a method.
pub trait RawFile {
    /// Whether what the file holds is known. Of a file of the machine it isn't, and clauses on contents then say
    /// nothing.
    ghost tells: { Bool };

    /// Whether the file is open, every call with its answer, and what it holds now and held at each moment before.
    ghost shown: { Self → RawView };

    /// Whether the file is open.
    fn is_open(&self) -> bool
        ensures { result ≡ (shown self.now).is_open };

    /// Opens the file to read and to write, and makes it where that is asked for and it isn't there.
    fn open(&mut self, makes: bool) -> Opening
        ensures recorded { (shown self.new).asked ≡ (shown self.old).asked ++ Opens makes result ∷ [] }
        ensures opened { result ≡ Opened → (shown self.new).is_open ≡ true }
        ensures refused { result ≢ Opened → (shown self.new).is_open ≡ (shown self.old).is_open }
        ensures absent { result ≡ Absent → IsTrue tells → (i : ℕ) → (raw_now (shown self.old)).bytes i ≡ 0 }
        ensures stays { IsTrue tells → raw_now (shown self.new) ≡ raw_now (shown self.old) }
        ensures time { IsTrue tells → Passes (disk_of (shown self.old)) (disk_of (shown self.new)) };

    /// Reads bytes from an address on, and answers how many there are now: 0 at the end of the file.
    fn read_at(&mut self, at: u64, bytes: &mut [u8]) -> io::Result<usize>
        requires open { (shown self.old).is_open ≡ true }
        ensures recorded { (shown self.new).asked ≡ (shown self.old).asked ++ read_call at bytes.new result ∷ [] }
        ensures open_stays { (shown self.new).is_open ≡ true }
        ensures bound { IfOk result (λ n. n ≤ length bytes.new) }
        ensures bytes { IfOk result (λ n. IsTrue tells
            → take n bytes.new ≡ bytes_at (raw_now (shown self.old)).bytes at n) }
        ensures end { IfOk result (λ n. n ≡ 0 → 0 < length bytes.new → IsTrue tells
            → (i : ℕ) → at ≤ i → (raw_now (shown self.old)).bytes i ≡ 0) }
        ensures stays { IsTrue tells → raw_now (shown self.new) ≡ raw_now (shown self.old) }
        ensures time { IsTrue tells → Passes (disk_of (shown self.old)) (disk_of (shown self.new)) };

    /// Writes bytes from an address on, and answers how many of them, from the first on, were taken. Until a sync
    /// succeeds a crash may leave any bytes there.
    fn write_at(&mut self, at: u64, bytes: &[u8]) -> io::Result<usize>
        requires open { (shown self.old).is_open ≡ true }
        ensures recorded { (shown self.new).asked ≡ (shown self.old).asked ++ write_call at bytes.now result ∷ [] }
        ensures open_stays { (shown self.new).is_open ≡ true }
        ensures bound { IfOk result (λ n. n ≤ length bytes.now) }
        ensures written { IfOk result (λ n. IsTrue tells
            → raw_now (shown self.new) ≡ after_write (raw_now (shown self.old)) at (take n bytes.now)) }
        ensures torn { OnErr result (IsTrue tells
            → Torn (raw_now (shown self.old)) (raw_now (shown self.new)) at (length bytes.now)) }
        ensures time { IsTrue tells → Passes (disk_of (shown self.old)) (disk_of (shown self.new)) };

    /// Makes all that was written durable. From then on a crash leaves what a read gives.
    fn sync(&mut self) -> io::Result<()>
        requires open { (shown self.old).is_open ≡ true }
        ensures recorded { (shown self.new).asked ≡ (shown self.old).asked ++ sync_call result ∷ [] }
        ensures open_stays { (shown self.new).is_open ≡ true }
        ensures synced { OnOk result (IsTrue tells
            → raw_now (shown self.new) ≡ synced_file (raw_now (shown self.old))) }
        ensures stays { OnErr result (IsTrue tells → raw_now (shown self.new) ≡ raw_now (shown self.old)) }
        ensures time { IsTrue tells → Passes (disk_of (shown self.old)) (disk_of (shown self.new)) };

    /// Makes durable that the file is in its folder. What it holds is as it was, whatever the machine answers.
    fn sync_folder(&mut self) -> io::Result<()>
        ensures recorded { (shown self.new).asked ≡ (shown self.old).asked ++ SyncsFolder (is_ok result) ∷ [] }
        ensures open_stays { (shown self.new).is_open ≡ (shown self.old).is_open }
        ensures stays { IsTrue tells → raw_now (shown self.new) ≡ raw_now (shown self.old) }
        ensures time { IsTrue tells → Passes (disk_of (shown self.old)) (disk_of (shown self.new)) };
}
