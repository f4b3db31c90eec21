//! The limits of a disk and of its slots are those of the definitions.
ghost use Rattle.std.specs.Prelude.{◌≡◌};
ghost use Rattle.crash_disk.specs.Limits.{disk_end};
ghost use Rattle.line_base.specs.Limits.{most_checkpoint_bytes};

use crate::disk::DISK_END;
use crate::slots::MAX_ROOM;

/// A disk ends where the definitions say.
pub fn disk_ends_as_defined()
    ensures { DISK_END ≡ disk_end }
{}

/// A slot has room for a whole checkpoint.
pub fn slots_have_room_as_defined()
    ensures { MAX_ROOM ≡ most_checkpoint_bytes }
{}
