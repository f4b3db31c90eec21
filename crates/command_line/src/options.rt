ghost use Rattle.std.specs.Prelude.{◌≡◌, codes, option_map, IfSome, Some, string_bytes};
ghost use Rattle.std.specs.List.{list_any};
ghost use Rattle.std.specs.Str.{bytes_eq};
ghost use Rattle.command_line.specs.Options.{seen_options, none_given, once, with_flag, with_value, options_after};
ghost use Rattle.command_line.specs.Options.{takes_no_value, has_stand, texts};
ghost use Rattle.command_line.specs.Ranges.{AreInRange};

use crate::first::first_word;
use crate::limits::MAX_FIRINGS;
use crate::number::{number_in, room_in, workers_in};
use line_base::is_checkpoint_name;

/// What the options of a command give.
#[derive(Clone, Copy)]
pub struct Options<'a> {
    /// The value of `--workers`.
    pub workers: Option<u32>,
    /// The value of `--stop-after`.
    pub stop_after: Option<u64>,
    /// The value of `--save`.
    pub save: Option<&'a str>,
    /// The value of `--every`.
    pub every: Option<u64>,
    /// The value of `--room`.
    pub room: Option<u32>,
    /// Whether `--slots` is given.
    pub slots: bool,
    /// Whether `--stand` is given.
    pub stand: bool,
}

impl<'a> Options<'a> {
    /// No option.
    fn none() -> Self
        ensures none { seen_options result ≡ none_given }
        ensures range { AreInRange result }
    {
        Options {
            workers: None,
            stop_after: None,
            save: None,
            every: None,
            room: None,
            slots: false,
            stand: false,
        }
    }
}

/// Whether an option takes no value.
fn takes_no_value(name: &str) -> bool
    ensures { result ≡ takes_no_value name.now }
{
    name == "--slots" || is_stand(name)
}

/// Whether one of the words after the program's name is `--stand`. Where none is, they don't ask for standing workers.
#[tactic(auto, using(crate::proofs::Texts::list_any_texts))]
pub fn has_stand(words: &[String]) -> bool
    ensures { result ≡ has_stand (texts words.now) }
{
    any_is_stand(words)
}

/// Whether one of these words is `--stand`.
fn any_is_stand(words: &[String]) -> bool
    ensures { result ≡ list_any (λ word. bytes_eq (string_bytes word) (codes "--stand")) words.now }
{
    words.iter().any(|word| is_stand(word.as_str()))
}

/// Whether a word is `--stand`.
fn is_stand(word: &str) -> bool
    ensures { result ≡ bytes_eq word.now (codes "--stand") }
{
    word == "--stand"
}

/// The options with one more that takes no value.
#[tactic(auto, unfolding(crate::specs::Options::with_flag))]
fn with_flag<'a>(given: Options<'a>, name: &str) -> Option<Options<'a>>
    requires range { AreInRange given }
    ensures given { option_map seen_options result ≡ with_flag (seen_options given.entry) name.now }
    ensures range { IfSome result AreInRange }
{
    match name {
        "--slots" if !given.slots => Some(Options {
            slots: true,
            ..given
        }),
        "--stand" if !given.stand => Some(Options {
            stand: true,
            ..given
        }),
        _ => None,
    }
}

/// The options with one more that takes a value.
#[tactic(auto, unfolding(crate::specs::Options::with_value))]
fn with_value<'a>(mut given: Options<'a>, name: &str, word: &'a str) -> Option<Options<'a>>
    requires range { AreInRange given }
    ensures given { option_map seen_options result ≡ with_value (seen_options given.entry) name.now word.now }
    ensures range { IfSome result AreInRange }
{
    match name {
        "--workers" => given.workers = Some(once(given.workers, workers_in(word))?),
        "--stop-after" => {
            let after = number_in(word, 0, MAX_FIRINGS);
            given.stop_after = Some(once(given.stop_after, after)?);
        }
        "--every" => given.every = Some(once(given.every, number_in(word, 1, MAX_FIRINGS))?),
        "--room" => given.room = Some(once(given.room, room_in(word))?),
        "--save" if given.save.is_none() && is_checkpoint_name(word.as_bytes()) => {
            given.save = Some(word);
        }
        _ => return None,
    }
    Some(given)
}

/// The value of an option that wasn't given before.
fn once<T: Copy>(before: Option<T>, value: Option<T>) -> Option<T>
    ensures once { result ≡ once before value }
    ensures same { IfSome result (λ given. value ≡ Some given) }
{
    match before {
        None => value,
        Some(_) => None,
    }
}

/// The options that words add to those that are given. No option is taken twice, so it is at most eight calls deep,
/// however many words there are.
#[tactic(auto, unfolding(crate::specs::Options::options_after))]
fn options_after<'a>(given: Options<'a>, words: &'a [String]) -> Option<Options<'a>>
    requires range { AreInRange given }
    ensures given { option_map seen_options result ≡ options_after (seen_options given.entry) (texts words.now) }
    ensures range { IfSome result AreInRange }
{
    let Some((name, rest)) = first_word(words) else {
        return Some(given);
    };
    if takes_no_value(name) {
        return options_after(with_flag(given, name)?, rest);
    }
    let (word, rest) = first_word(rest)?;
    options_after(with_value(given, name, word)?, rest)
}

/// The options that words are.
pub fn options_of<'a>(words: &'a [String]) -> Option<Options<'a>>
    ensures given { option_map seen_options result ≡ options_after none_given (texts words.now) }
    ensures range { IfSome result AreInRange }
{
    options_after(Options::none(), words)
}
