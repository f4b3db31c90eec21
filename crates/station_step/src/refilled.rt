ghost use Rattle.std.specs.Prelude.{◌≡◌};
ghost use Rattle.station_step.specs.Refilled.{refill_result};

use line_base::Date;

/// What came of a refill of a station's hands.
pub(crate) enum Refilled {
    /// All hands are full, and their tokens ask for this date.
    Full(Date),
    /// The hands of some inputs are empty: of these the first and the last, in the order of the arcs.
    Empty(usize, usize),
}

impl Refilled {
    /// What came of it, by the first hand that is empty, if one is, the last such, and the date that the tokens in the
    /// hands ask for.
    #[inline(always)]
    pub(crate) fn of(first: Option<usize>, last: usize, latest: Date) -> Refilled
        ensures { result ≡ refill_result first last latest }
    {
        match first {
            None => Refilled::Full(latest),
            Some(first) => Refilled::Empty(first, last),
        }
    }
}
