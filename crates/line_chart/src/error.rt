ghost use Rattle.std.specs.Prelude.{◌≡◌};
ghost use Rattle.line_chart.specs.declared.error.ChartError.TheVariants.{NoMemory};

use std::alloc::AllocError;

/// Why a picture isn't drawn.
#[derive(Clone, Copy)]
pub enum ChartError {
    /// It has this many bars and lanes together, more than 20,000.
    TooLarge { bars: u64 },
    /// Memory ran out.
    NoMemory,
}

impl From<AllocError> for ChartError {
    ghost from_gives = { λ _ e. e ≡ NoMemory };

    fn from(_: AllocError) -> Self {
        ChartError::NoMemory
    }
}
