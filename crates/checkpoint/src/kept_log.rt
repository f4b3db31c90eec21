ghost use Rattle.std.specs.Prelude.{◌≡◌, ◌++◌, length, IfOk};
ghost use Rattle.checkpoint.specs.Kept.{AreFirstWords, no_words};
ghost use Rattle.checkpoint.specs.Text.{dates_text};
ghost use Rattle.checkpoint.specs.declared.format.Format.TheVariants.{Differences};

use crate::word_room::put_words;
use crate::writer::{likely_words, put_log_behind};
use line_base::Date;
use std::alloc::{AllocError, Global};
use std::marker::Model;

/// The words of the first dates of a log.
#[derive(Drop)]
pub struct KeptLog {
    // How many dates have their words here.
    count: usize,
    words: Vec<u8>,
}

impl Model for KeptLog {
    ghost use Rattle.checkpoint.specs.Kept.{KeptWords};

    ghost Value = { KeptWords };

    ghost view = { λ l. record { count = l.count; words = l.words.items } };
}

/// Takes the room that the words of all jobs are likely to need where they go on as these dates, where there are no words
/// yet.
fn reserve_words(words: &mut Vec<u8>, dates: &[Date], jobs: usize) -> Result<(), AllocError>
    ensures { words.new.items ≡ words.old.items }
{
    if words.is_empty() {
        return words.reserve(likely_words(dates, jobs));
    }
    Ok(())
}

impl KeptLog {
    /// No words yet.
    pub fn new(alloc: Global) -> KeptLog
        ensures { result ≡ no_words }
    {
        KeptLog {
            count: 0,
            words: Vec::new(alloc),
        }
    }

    /// Writes the words of those dates of a log that have none here yet. The first call takes the room that the words
    /// of all jobs are likely to need.
    fn keep(&mut self, dates: &[Date], jobs: usize) -> Result<(), AllocError>
        requires { AreFirstWords dates.now self.old }
        ensures words { IfOk result (λ _. AreFirstWords dates.now self.new) }
        ensures all { IfOk result (λ _. self.new.count ≡ length dates.now) }
    {
        reserve_words(&mut self.words, dates, jobs)?;
        put_words(&mut self.words, dates, self.count)?;
        self.count = dates.len();
        Ok(())
    }

    /// Writes a log at the end of a text: how many dates it has, the dates, and the end of the line. Words that are here
    /// are copied, the others are written and kept.
    pub fn put(&mut self, text: &mut Vec<u8>, dates: &[Date], jobs: usize) -> Result<(), AllocError>
        requires { AreFirstWords dates.now self.old }
        ensures text { IfOk result
            (λ _. text.new.items ≡ text.old.items ++ dates_text Differences dates.now) }
        ensures words { IfOk result (λ _. AreFirstWords dates.now self.new) }
        ensures all { IfOk result (λ _. self.new.count ≡ length dates.now) }
    {
        self.keep(dates, jobs)?;
        put_log_behind(text, self.words.as_slice(), self.count, dates)
    }
}
