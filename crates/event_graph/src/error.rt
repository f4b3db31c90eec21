ghost use Rattle.std.specs.Prelude.{◌≡◌};
ghost use Rattle.event_graph.specs.declared.error.GraphError.{GraphError};

use std::alloc;

/// Why parts give no graph.
#[derive(Clone, Copy, Debug, PartialEq, Eq)]
pub enum GraphError {
    /// The arc starts or ends at a station that isn't there.
    EndOutOfRange { arc: u32 },
    /// The arc enters the feed.
    FeedInput { arc: u32 },
    /// The station isn't the feed, and no arc enters it.
    NoInput { station: u32 },
    /// Memory ran out.
    NoMemory,
}

impl From<alloc::AllocError> for GraphError {
    ghost from_gives = { λ _ e. e ≡ GraphError.NoMemory };

    fn from(_: alloc::AllocError) -> Self {
        GraphError::NoMemory
    }
}
