use crate::file_name::FileName;

/// Which plant a question is asked of.
#[derive(Drop)]
pub struct PlantSource {
    /// The plant file.
    pub file: FileName,
}
