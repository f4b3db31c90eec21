use line_base::Text;

/// The name of a file as the command line gives it.
pub type FileName = Text;
