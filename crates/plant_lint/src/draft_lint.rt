use line_base::Text;
use plant_model::Plant;

/// What lint says of a draft and of the bytes of the files that it names.
#[derive(Drop)]
pub enum DraftLint {
    /// What is wrong with its files, or with its plant as a whole.
    Refused { lines: Text },
    /// Nothing is; the plant, and its notes.
    Sound { plant: Plant, notes: Text },
}
