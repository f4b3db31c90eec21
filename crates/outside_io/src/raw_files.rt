//! Files as the machine has them: one call of the machine a method.
ghost use Rattle.std.specs.Prelude.{◌≡◌, ◌≢◌, ◌≤◌, ◌<◌, ◌++◌, ◌∷◌, [], Bool, Some, true, false, length, take, is_ok, IsTrue, IfOk, OnOk, OnErr};
ghost use Rattle.outside_io.specs.RawFiles.{FilesView, Named, Spare, Opens, Looks, Creates, CreatesSpare, Syncs, Renames, Removes, SameHeld, StaysOpen, StartsEmpty, Grows, GrowsByPrefix, Moves, by_kind, read_call, write_call};

use std::io;

/// Files as the machine has them, of which one at most is open: to be read, or to be written. One call of the machine a
/// method. Beside a file a spare one can be written, which then takes its name.
pub trait RawFiles {
    /// Whether what files hold is known. Of those of the machine it isn't, and clauses on contents then say nothing.
    ghost tells: { Bool };

    /// Whether a file is open, every call with its answer, and what files hold.
    ghost shown: { Self → FilesView };

    /// Opens a file, to be read from its first byte on; or a folder, to be synced.
    fn open(&mut self, name: &str) -> io::Result<()>
        ensures recorded { (shown self.new).asked ≡ (shown self.old).asked ++ Opens name.now (is_ok result) ∷ [] }
        ensures opened { OnOk result ((shown self.new).is_open ≡ true) }
        ensures found { OnOk result (IsTrue tells
            → (shown self.old).held (Named name.now) ≡ Some (shown self.new).left) }
        ensures stays { SameHeld tells (shown self.old) (shown self.new) };

    /// Reads bytes of the file that is open, and answers how many there are now: 0 at its end.
    fn read(&mut self, bytes: &mut [u8]) -> io::Result<usize>
        requires open { (shown self.old).is_open ≡ true }
        ensures recorded { (shown self.new).asked ≡ (shown self.old).asked ++ read_call bytes.new result ∷ [] }
        ensures open_stays { (shown self.new).is_open ≡ true }
        ensures bound { IfOk result (λ n. n ≤ length bytes.new) }
        ensures bytes { IfOk result (λ n. IsTrue tells
            → (shown self.old).left ≡ take n bytes.new ++ (shown self.new).left) }
        ensures end { IfOk result (λ n. n ≡ 0 → 0 < length bytes.new → IsTrue tells
            → (shown self.old).left ≡ []) }
        ensures stays { SameHeld tells (shown self.old) (shown self.new) };

    /// Whether a plain file stands at a name, and no link or device.
    fn is_file(&mut self, name: &str) -> io::Result<bool>
        ensures recorded { (shown self.new).asked ≡ (shown self.old).asked ++ Looks name.now (by_kind result) ∷ [] }
        ensures stays { SameHeld tells (shown self.old) (shown self.new) };

    /// Opens a file to be written, and makes it, or empties it where it is there.
    fn create(&mut self, name: &str) -> io::Result<()>
        ensures recorded { (shown self.new).asked ≡ (shown self.old).asked ++ Creates name.now (is_ok result) ∷ [] }
        ensures opened { OnOk result ((shown self.new).is_open ≡ true) }
        ensures empty { OnOk result (IsTrue tells → StartsEmpty (shown self.old) (shown self.new) (Named name.now)) }
        ensures stays { OnErr result (SameHeld tells (shown self.old) (shown self.new)) };

    /// Makes a spare file, where there is none of that name, and opens it to be written.
    fn create_spare(&mut self, spare: &str) -> io::Result<()>
        ensures recorded { (shown self.new).asked
            ≡ (shown self.old).asked ++ CreatesSpare spare.now (by_kind result) ∷ [] }
        ensures opened { OnOk result ((shown self.new).is_open ≡ true) }
        ensures empty { OnOk result (IsTrue tells → StartsEmpty (shown self.old) (shown self.new) (Spare spare.now)) }
        ensures stays { OnErr result (SameHeld tells (shown self.old) (shown self.new)) };

    /// Writes bytes behind those that were written to the file that is open, and answers how many of them, from the
    /// first on, were taken.
    fn write(&mut self, bytes: &[u8]) -> io::Result<usize>
        requires open { (shown self.old).is_open ≡ true }
        ensures recorded { (shown self.new).asked ≡ (shown self.old).asked ++ write_call bytes.now result ∷ [] }
        ensures open_stays { (shown self.new).is_open ≡ true }
        ensures bound { IfOk result (λ n. n ≤ length bytes.now) }
        ensures written { IfOk result (λ n. IsTrue tells → Grows (shown self.old) (shown self.new) (take n bytes.now)) }
        ensures torn { OnErr result (IsTrue tells → GrowsByPrefix (shown self.old) (shown self.new) bytes.now) };

    /// Makes what was written to the file that is open durable; of a folder, which names stand in it.
    fn sync(&mut self) -> io::Result<()>
        requires open { (shown self.old).is_open ≡ true }
        ensures recorded { (shown self.new).asked ≡ (shown self.old).asked ++ Syncs (is_ok result) ∷ [] }
        ensures stays { IsTrue tells → StaysOpen (shown self.old) (shown self.new) };

    /// Gives a spare file the name of a file, whether there was one or not.
    fn rename(&mut self, spare: &str, name: &str) -> io::Result<()>
        ensures recorded { (shown self.new).asked
            ≡ (shown self.old).asked ++ Renames spare.now name.now (is_ok result) ∷ [] }
        ensures moved { OnOk result (IsTrue tells → Moves (shown self.old) (shown self.new) spare.now name.now) }
        ensures stays { OnErr result (SameHeld tells (shown self.old) (shown self.new)) };

    /// Removes a spare file.
    fn remove(&mut self, spare: &str) -> io::Result<()>
        ensures recorded { (shown self.new).asked ≡ (shown self.old).asked ++ Removes spare.now (is_ok result) ∷ [] }
        ensures others_stay { IsTrue tells → (q : _) → q ≢ Spare spare.now
            → (shown self.new).held q ≡ (shown self.old).held q };

    /// Closes the file that is open.
    fn close(&mut self)
        ensures closed { (shown self.new).is_open ≡ false }
        ensures asks_nothing { (shown self.new).asked ≡ (shown self.old).asked }
        ensures stays { SameHeld tells (shown self.old) (shown self.new) };
}
