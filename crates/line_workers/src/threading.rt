/// How many bursts go in turn after the first burst by threads that did not pay, as the first of a line hardly does: its
/// memory is touched for the first time. After each further one they are four times as many.
const FIRST_PAUSE: u32 = 16;

/// How many they are at most.
const LONGEST_PAUSE: u32 = 1024;

/// How many firings a burst by threads makes at the least for each look of the worker that waited most, where it pays.
///
/// With the turns that it leaves to other threads, a look takes as long as one to three firings, by the processor. So in
/// a burst that pays no worker has waited longer than one thread would take for all firings, or for a third of that
/// where a look takes as long as one firing.
const FIRINGS_FOR_A_LOOK: u64 = 3;

/// Whether the next burst of a line goes by threads.
///
/// To begin a thread takes as long as a thousand firings, and one that begins late lets the others wait. So a line goes
/// by threads as long as that pays; where it did not, some bursts go in turn on one thread before it tries again. What
/// a burst gives is the same.
#[derive(Drop)]
pub(crate) struct Threading {
    // How many bursts are to go in turn before the next by threads.
    in_turn: u32,
    // How many are to go in turn after the next burst by threads, if that does not pay.
    pause: u32,
}

impl Threading {
    /// Of a line that has made no burst: the first goes by threads.
    pub(crate) fn new() -> Threading {
        Threading {
            in_turn: 0,
            pause: FIRST_PAUSE,
        }
    }

    /// Whether the next burst, of this many workers, goes by threads. It is taken to be made then.
    pub(crate) fn begins_threads(&mut self, workers: usize) -> bool {
        if self.in_turn == 0 {
            return workers > 1;
        }
        self.in_turn -= 1;
        false
    }

    /// Notes what came of a burst: how often the worker that waited most looked for the others, where it went by
    /// threads, and how many firings were made.
    pub(crate) fn note(&mut self, looks: Option<u64>, fired: u64) {
        match looks {
            None => {}
            Some(looks) if looks < fired / FIRINGS_FOR_A_LOOK => self.pause = FIRST_PAUSE,
            Some(_) => {
                self.in_turn = self.pause;
                self.pause = self.pause.saturating_mul(4).min(LONGEST_PAUSE);
            }
        }
    }
}
