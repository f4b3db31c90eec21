//! A disk as the program sees it: bytes by their addresses, and what a crash may leave of them; and two slots of one.
#![tactic(auto)]

mod asked;
mod disk;
mod file_disk;
mod limits;
mod mem_disk;
mod opening;
mod patch;
mod raw_calls;
mod raw_file;
pub mod slots;

pub use disk::{DISK_END, Disk, DiskError};
pub use file_disk::FileDisk;
pub use limits::{disk_ends_as_defined, slots_have_room_as_defined};
pub use mem_disk::MemDisk;
pub use opening::Opening;
pub use raw_calls::RawCalls;
pub use raw_file::RawFile;
