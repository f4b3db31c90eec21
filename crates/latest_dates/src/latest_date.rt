//! A latest date in one word, so that a table of them takes no more memory than a table of dates.
ghost use Rattle.std.specs.Prelude.{◌≡◌, ◌-◌, ◌^◌, ◌<◌, None, Some, option_map};
ghost use Rattle.latest_dates.specs.Latest.{IsNoLater, earlier};

use line_base::Date;
use std::marker::Model;

/// The word that stands for no date. It is later than all dates.
const NONE: u64 = u64::MAX;

/// A latest date, or none where nothing bounds a date. Contracts see the date, if there is one.
#[derive(Clone, Copy)]
pub struct LatestDate {
    word: u64,
}

impl Model for LatestDate {
    ghost use Rattle.std.proofs.Common.{ap};
    ghost use Rattle.std.specs.Prelude.{◌^◌, ◌<◌, ℕ, Option};
    ghost use Rattle.latest_dates.specs.Words.{date_of, word_of, word_of-date_of};

    ghost Value = { Option ℕ };

    ghost view = { λ latest. date_of latest.word };

    ghost invariant = { λ latest. latest.word < 2 ^ 64 };

    ghost inverse = { λ latest. record { word = word_of latest } };

    ghost inverse_ok = { λ latest _. ap (λ w. record { word = w }) (word_of-date_of latest.word) };
}

impl LatestDate {
    /// No date.
    pub fn none() -> LatestDate
        ensures { result ≡ None }
    {
        LatestDate { word: NONE }
    }

    /// This date.
    pub fn at(date: Date) -> LatestDate
        requires { date < 2 ^ 64 - 1 }
        ensures { result ≡ Some date }
    {
        LatestDate { word: date }
    }

    /// The date, if there is one.
    pub fn date(self) -> Option<Date>
        ensures { result ≡ self }
    {
        if self.word == NONE {
            None
        } else {
            Some(self.word)
        }
    }

    /// The earlier of two.
    pub fn earlier(self, other: LatestDate) -> LatestDate
        ensures { result ≡ earlier self other }
    {
        if other.word < self.word { other } else { self }
    }

    /// The date that is earlier by this time.
    pub fn less(self, time: u64) -> LatestDate
        requires { IsNoLater (Some time) self }
        ensures { result ≡ option_map (λ date. date - time) self }
    {
        if self.word == NONE {
            return self;
        }
        LatestDate {
            word: self.word - time,
        }
    }
}
