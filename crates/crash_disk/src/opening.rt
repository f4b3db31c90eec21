ghost use Rattle.std.specs.Prelude.{◌≡◌};
ghost use Rattle.crash_disk.specs.Openings.{opening_by};
ghost use Rattle.outside_io.specs.RawFiles.{by_kind};

use std::io;

/// What the machine answers where a file is to be opened.
#[derive(Clone, Copy)]
pub enum Opening {
    /// It is open.
    Opened,
    /// It isn't there, and was not to be made.
    Absent,
    /// The machine refused.
    Refused,
}

impl Opening {
    /// What an answer of the machine says: a file that isn't found is absent, and every other error is a refusal.
    pub fn of(answer: &io::Result<()>) -> Opening
        ensures { result ≡ opening_by (by_kind answer.now) }
    {
        match answer {
            Ok(()) => Opening::Opened,
            Err(error) if matches!(error.kind(), io::ErrorKind::NotFound) => Opening::Absent,
            Err(_) => Opening::Refused,
        }
    }
}
