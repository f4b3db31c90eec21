ghost use Rattle.std.specs.Prelude.{◌≡◌, option_map, unwrap_or, IfSome};
ghost use Rattle.command_line.specs.Options.{seen_options, texts};
ghost use Rattle.command_line.specs.Ranges.{AreInRange, AreSettingsInRange, IsModeInRange};
ghost use Rattle.command_line.specs.Settings.{way_of, way_seen, asked_run, settings_seen};

use crate::options::{Options, options_of};

/// How a line runs.
#[derive(Clone, Copy)]
pub enum Mode<'a> {
    /// To the end.
    Whole,
    /// To the first burst's end at which this many firings are made.
    Stopped {
        /// The firings.
        after: u64,
        /// The checkpoint that is written then.
        save: &'a str,
    },
    /// To the end, with a checkpoint into a slot each time that this many firings are made.
    Saving {
        /// The firings between two checkpoints.
        every: u64,
    },
    /// From the newest slot to the end.
    FromSlots,
    /// To the end, with bounded rings between two workers.
    Bounded {
        /// The room of a ring beyond the tokens with which its arc starts.
        room: u32,
    },
    /// To the end, by workers that stand until all firings are made.
    Standing,
}

/// What the options of a command ask for.
#[derive(Clone, Copy)]
pub struct Settings<'a> {
    /// The number of workers, 1 where none is given.
    pub workers: u32,
    /// How the line runs.
    pub mode: Mode<'a>,
}

/// The settings of the options that words are.
#[tactic(auto, unfolding(crate::specs::Settings::asked_run))]
pub fn settings_of<'a>(words: &'a [String]) -> Option<Settings<'a>>
    ensures asked { option_map settings_seen result ≡ asked_run (texts words.now) }
    ensures range { IfSome result AreSettingsInRange }
{
    let options = options_of(words)?;
    let mode = mode_of(options)?;
    Some(Settings {
        workers: options.workers.unwrap_or(1),
        mode,
    })
}

/// The mode that options ask for beside the workers.
fn mode_of<'a>(options: Options<'a>) -> Option<Mode<'a>>
    requires range { AreInRange options }
    ensures way { option_map way_seen result ≡ way_of (seen_options options.entry) }
    ensures range { IfSome result IsModeInRange }
{
    match (
        options.stop_after,
        options.save,
        options.every,
        options.room,
        options.slots,
        options.stand,
    ) {
        (None, None, None, None, false, false) => Some(Mode::Whole),
        (Some(after), Some(save), None, None, false, false) => Some(Mode::Stopped { after, save }),
        (None, None, Some(every), None, true, false) => Some(Mode::Saving { every }),
        (None, None, None, None, true, false) => Some(Mode::FromSlots),
        (None, None, None, Some(room), false, false) => Some(Mode::Bounded { room }),
        (None, None, None, None, false, true) => Some(Mode::Standing),
        _ => None,
    }
}
