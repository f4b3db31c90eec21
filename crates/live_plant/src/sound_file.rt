use line_base::Text;
use plant_file::Draft;

/// A plant file that nothing is wrong with by itself.
#[derive(Drop)]
pub struct SoundFile {
    /// Which keys its policy doesn't use, as lines of notes.
    pub notes: Text,
    /// What it says.
    pub draft: Draft,
}
