//! What holds of the names of files that runs make for themselves.
ghost use Rattle.std.specs.Prelude.{◌≡◌, ℕ, List, false, IsTrue, codes};
ghost use Rattle.line_base.specs.Text.{is_checkpoint_name, is_file_name};
ghost use Rattle.outside_io.specs.RawFiles.{spare_of};

/// No plant, table, schedule or edits file has the name of the spare file beside a checkpoint, nor that of the slots.
pub fn spares_are_no_files()
    ensures spares { (name : List ℕ) → IsTrue (is_checkpoint_name name) → is_file_name (spare_of name) ≡ false }
    ensures slots { is_file_name (codes "pull.slots") ≡ false }
{}
