use line_base::Text;

/// What lint says.
#[derive(Drop)]
pub enum Lint {
    /// What is wrong.
    Refused { lines: Text },
    /// Nothing is; the notes.
    Sound { notes: Text },
}
