ghost use Rattle.std.specs.Iterator.{YieldsFirst, item_count};
ghost use Rattle.std.specs.Prelude.{◌≡◌, ◌+◌, ◌≤◌, drop, length};
ghost use Rattle.line_core.specs.ArcTokens.{tokens_of, AddWithin};

use line_base::Date;
use std::marker::Model;

/// The dates of the tokens on an arc, from the front to the back.
#[derive(Drop)]
pub struct Tokens<'a> {
    // How many tokens of the start are left, the dates that later ones were made of, and what is added to each.
    initial: usize,
    dates: &'a [Date],
    delay: u64,
}

impl<'a> Model for Tokens<'a> {
    ghost use Rattle.std.specs.Prelude.{List, ℕ};
    ghost use Rattle.line_core.specs.ArcTokens.{tokens_of, AddWithin};

    ghost Value = { List ℕ };

    ghost view = { λ t. tokens_of t.initial t.dates.now t.delay };

    ghost invariant = { λ t. AddWithin t.dates.now t.delay };
}

impl<'a> Tokens<'a> {
    /// The tokens that are left when this many were taken: first those of the start, of date 0, then one for each date,
    /// later by the delay.
    pub fn after_takes(taken: usize, initial: usize, dates: &'a [Date], delay: u64) -> Tokens<'a>
        requires few { taken ≤ initial + length dates.now }
        requires within { AddWithin dates.now delay }
        ensures { result ≡ drop taken (tokens_of initial dates.now delay) }
    {
        if taken <= initial {
            let initial = initial - taken;
            return Tokens {
                initial,
                dates,
                delay,
            };
        }
        let dates = &dates[taken - initial..];
        Tokens {
            initial: 0,
            dates,
            delay,
        }
    }
}

impl<'a> Iterator for Tokens<'a> {
    type Item = Date;

    ghost next_gives = { YieldsFirst (λ tokens. tokens) };

    ghost remaining = { item_count (λ tokens. tokens) };

    fn next(&mut self) -> Option<Date> {
        if self.initial > 0 {
            self.initial -= 1;
            return Some(0);
        }
        let (first, rest) = self.dates.split_first()?;
        self.dates = rest;
        Some(*first + self.delay)
    }
}
