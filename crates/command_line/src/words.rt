ghost use Rattle.std.specs.Prelude.{ℕ, List, Option, ◌≡◌, ◌≢◌, ◌≤◌, ◌↔◌, IfOk, IfSome, IsErrOf, MatchOption, Some, None, option_and_then, option_map};
ghost use Rattle.command_line.specs.Numbers.{number_in, longest_wait};
ghost use Rattle.command_line.specs.Options.{texts};
ghost use Rattle.command_line.specs.Ranges.{AreSettingsInRange, AreWorkers, IsFileInRange, IsInRange, IsPlantInRange};
ghost use Rattle.line_base.specs.Limits.{most_cards, last_observed};
ghost use Rattle.command_line.specs.Settings.{asked_run, way_seen, whole};
ghost use Rattle.command_line.specs.Sources.{plant_at};
ghost use Rattle.command_line.specs.ReadAs.{IsReadAs, IsQuestionReadAs};
ghost use Rattle.command_line.specs.Words.{alone, one_file, with_wait, with_options, workers_of};
ghost use Rattle.command_line.specs.Words.{cards_question, latest_question, after_counts, after_curve};
ghost use Rattle.command_line.specs.Words.{why_question, after_why, window_question, after_chart, question_of};
ghost use Rattle.command_line.specs.Words.{asking, asking_of_file, run_command, resuming, resume_slots_command};
ghost use Rattle.command_line.specs.Words.{after_resume, plant_command, after_plant_word, after_big};
ghost use Rattle.command_line.specs.Words.{help_of, after_help, is_help, after_word, command_of, topic_of};

use crate::alone_question::AloneQuestion;
use crate::command::{Command, Stop, WordsError};
use crate::disk_question::DiskQuestion;
use crate::file_name::FileName;
use crate::file_question::FileQuestion;
use crate::first::first_word;
use crate::label::is_label_word;
use crate::limits::{MAX_COUNTS, MAX_WAIT};
use crate::number::{cards_in, number_in};
use crate::plant_question::PlantQuestion;
use crate::plant_source::PlantSource;
use crate::settings::{Mode, Settings, settings_of};
use crate::topic::Topic;
use line_base::{MAX_DEMANDS, MAX_OBSERVE_DATE, Text, is_checkpoint_name, is_file_name};
use std::alloc::{AllocError, Global};

/// Reads the words after the program's name: the command first, then its operands in order, then its options in any
/// order. `Usage` comes exactly where they are no command, and `NoMemory` only where they are one.
pub fn read_words(alloc: Global, words: &[String]) -> Result<Command, WordsError>
    ensures command { IfOk result (λ command. command_of (texts words.now) ≡ Some command) }
    ensures usage { IsErrOf result WordsError.Usage ↔ (command_of (texts words.now) ≡ None) }
    ensures range { IfOk result IsInRange }
{
    let Some((word, words)) = first_word(words) else {
        return Err(WordsError::Usage);
    };
    match word {
        "--help" => ask_alone(AloneQuestion::Help { topic: None }, words),
        "--version" => ask_alone(AloneQuestion::Version, words),
        "help" => help(words),
        _ => of_command(alloc, word, words),
    }
}

/// The command of the words behind `help`.
#[tactic(auto, unfolding(crate::specs::Words::after_help))]
fn help(words: &[String]) -> Result<Command, WordsError>
    ensures { IsReadAs result (after_help (texts words.now)) }
{
    match words {
        [] => Ok(screen_of(None)),
        [word] => help_of(word.as_str()),
        _ => Err(WordsError::Usage),
    }
}

/// The screen of the command that a word names.
fn help_of(word: &str) -> Result<Command, WordsError>
    ensures { IsReadAs result (help_of word.now) }
{
    match topic_of(word) {
        Some(topic) => Ok(screen_of(Some(topic))),
        None => Err(WordsError::Usage),
    }
}

/// The command that shows the usage, or the screen of a command.
fn screen_of(topic: Option<Topic>) -> Command
    ensures { result ≡ Command.Alone (AloneQuestion.Help topic) }
{
    Command::Alone {
        question: AloneQuestion::Help { topic },
    }
}

/// Whether words are `--help` alone.
fn is_help(words: &[String]) -> bool
    ensures { result ≡ is_help (texts words.now) }
{
    match words {
        [word] => word.as_str() == "--help",
        _ => false,
    }
}

/// The command of a word and of the words behind it, of which the first is neither `help` nor an option.
fn of_command(alloc: Global, word: &str, words: &[String]) -> Result<Command, WordsError>
    ensures { IsReadAs result (after_word word.now (texts words.now)) }
{
    let Some(topic) = topic_of(word) else {
        return Err(WordsError::Usage);
    };
    if is_help(words) {
        return Ok(screen_of(Some(topic)));
    }
    match topic {
        Topic::Big => big(words),
        _ => of_plant(alloc, topic, words),
    }
}

/// The command that a word names.
#[tactic(auto, using(crate::proofs::Topics::topic_at), unfolding(crate::specs::Words::topic_of))]
fn topic_of(word: &str) -> Option<Topic>
    ensures { result ≡ topic_of word.now }
{
    match word {
        "lint" => Some(Topic::Lint),
        "check" => Some(Topic::Check),
        "summary" => Some(Topic::Summary),
        "run" => Some(Topic::Run),
        "table" => Some(Topic::Table),
        "why" => Some(Topic::Why),
        "chart" => Some(Topic::Chart),
        "cards" => Some(Topic::Cards),
        "curve" => Some(Topic::Curve),
        "latest" => Some(Topic::Latest),
        "cycle" => Some(Topic::Cycle),
        "whatif" => Some(Topic::WhatIf),
        "replay" => Some(Topic::Replay),
        "resume" => Some(Topic::Resume),
        "big" => Some(Topic::Big),
        _ => None,
    }
}

/// The command for which nothing is read, with no word behind it.
fn ask_alone(question: AloneQuestion, words: &[String]) -> Result<Command, WordsError>
    requires { IsInRange (Command.Alone question) }
    ensures { IsReadAs result (alone (Command.Alone question) (texts words.now)) }
{
    if words.is_empty() {
        return Ok(Command::Alone { question });
    }
    Err(WordsError::Usage)
}

/// The command of the words behind `big`.
#[tactic(auto, unfolding(crate::specs::Words::after_big))]
fn big(words: &[String]) -> Result<Command, WordsError>
    ensures { IsReadAs result (after_big (texts words.now)) }
{
    let Some((seed, options)) = first_word(words) else {
        return Err(WordsError::Usage);
    };
    let Some(seed) = number_in(seed, 0, u64::MAX) else {
        return Err(WordsError::Usage);
    };
    let Some(workers) = workers_of(options) else {
        return Err(WordsError::Usage);
    };
    Ok(Command::Alone {
        question: AloneQuestion::Big { seed, workers },
    })
}

/// The number of workers that options ask for, where they ask for nothing else.
fn workers_of(options: &[String]) -> Option<u32>
    ensures workers { result ≡ workers_of (texts options.now) }
    ensures range { IfSome result AreWorkers }
{
    let settings = settings_of(options)?;
    match settings.mode {
        Mode::Whole => Some(settings.workers),
        _ => None,
    }
}

/// The command of a topic and of the words behind its word, of which the first names a plant.
#[tactic(auto, unfolding(crate::specs::Words::after_plant_word))]
fn of_plant(alloc: Global, topic: Topic, words: &[String]) -> Result<Command, WordsError>
    ensures { IsReadAs result (after_plant_word topic (texts words.now)) }
{
    let Some((plant_file, words)) = first_word(words) else {
        return Err(WordsError::Usage);
    };
    if !is_file_name(plant_file.as_bytes()) {
        return Err(WordsError::Usage);
    }
    plant_command(alloc, topic, plant_file, words)
}

/// The command of a topic, of the plant behind its word, and of the words behind that; `big` takes no plant.
fn plant_command(
    alloc: Global,
    topic: Topic,
    plant_file: &str,
    words: &[String],
) -> Result<Command, WordsError>
    ensures { IsReadAs result (plant_command topic plant_file.now (texts words.now)) }
{
    match topic {
        Topic::Run => run(alloc, plant_file, words),
        Topic::Lint => lint(alloc, plant_file, words),
        Topic::Replay => ask_file(alloc, plant_file, words, FileQuestion::Replay),
        Topic::Resume => resume(alloc, plant_file, words),
        Topic::WhatIf => ask_file(alloc, plant_file, words, FileQuestion::WhatIf),
        Topic::Big => Err(WordsError::Usage),
        _ => ask(alloc, topic, plant_file, words),
    }
}

/// What a topic asks of a live plant with the words behind the plant; the others ask more than that.
fn question_of(alloc: Global, topic: Topic, words: &[String]) -> Result<PlantQuestion, WordsError>
    ensures { IsQuestionReadAs result (question_of topic (texts words.now)) }
{
    match topic {
        Topic::Check => plain(PlantQuestion::Check, words),
        Topic::Cycle => plain(PlantQuestion::Cycle, words),
        Topic::Cards => cards(words),
        Topic::Curve => curve(words),
        Topic::Latest => latest(words),
        Topic::Why => why(alloc, words),
        Topic::Summary => plain(PlantQuestion::Summary, words),
        Topic::Table => plain(PlantQuestion::Table, words),
        Topic::Chart => chart(words),
        _ => Err(WordsError::Usage),
    }
}

/// The command that asks a plant what a topic asks of it with the words behind the plant.
fn ask(
    alloc: Global,
    topic: Topic,
    plant_file: &str,
    words: &[String],
) -> Result<Command, WordsError>
    ensures { IsReadAs result (option_map (asking plant_file.now) (question_of topic (texts words.now))) }
{
    match question_of(alloc, topic, words) {
        Ok(question) => Ok(Command::OnPlant {
            plant: plant_at(alloc, plant_file)?,
            question,
        }),
        Err(error) => Err(error),
    }
}

/// The plant of a plant file.
fn plant_at(alloc: Global, name: &str) -> Result<PlantSource, AllocError>
    ensures { IfOk result (λ plant. plant ≡ plant_at name.now) }
{
    Ok(PlantSource {
        file: FileName::of(alloc, name)?,
    })
}

/// A question with no word behind it.
fn plain(question: PlantQuestion, words: &[String]) -> Result<PlantQuestion, WordsError>
    requires { IsPlantInRange question }
    ensures { IsQuestionReadAs result (alone question (texts words.now)) }
{
    if words.is_empty() {
        return Ok(question);
    }
    drop(question);
    Err(WordsError::Usage)
}

/// The longest wait that stands first, and the words behind it.
fn wait_of(words: &[String]) -> Option<(u64, &[String])>
    ensures range { IfSome result (λ p. p.0 ≤ longest_wait) }
    ensures read { (asks : ℕ → List (List ℕ) → Option PlantQuestion) →
        MatchOption result (with_wait asks (texts words.now) ≡ None)
        (λ p. with_wait asks (texts words.now) ≡ asks p.0 (texts p.1.now)) }
{
    let (word, rest) = first_word(words)?;
    let wait = number_in(word, 0, MAX_WAIT)?;
    Some((wait, rest))
}

/// The question of the words behind `cards PLANT`.
fn cards(words: &[String]) -> Result<PlantQuestion, WordsError>
    ensures { IsQuestionReadAs result (with_wait cards_question (texts words.now)) }
{
    let Some((wait, options)) = wait_of(words) else {
        return Err(WordsError::Usage);
    };
    match options {
        [] => Ok(PlantQuestion::Cards { wait }),
        [option] if option.as_str() == "--each" => Ok(PlantQuestion::CardsEach { wait }),
        _ => Err(WordsError::Usage),
    }
}

/// The question of the words behind `latest PLANT`.
fn latest(words: &[String]) -> Result<PlantQuestion, WordsError>
    ensures { IsQuestionReadAs result (with_wait latest_question (texts words.now)) }
{
    let Some((wait, rest)) = wait_of(words) else {
        return Err(WordsError::Usage);
    };
    plain(PlantQuestion::Latest { wait }, rest)
}

/// The question of the words behind `curve PLANT`.
#[tactic(auto, unfolding(crate::specs::Words::after_curve))]
fn curve(words: &[String]) -> Result<PlantQuestion, WordsError>
    ensures { IsQuestionReadAs result (after_curve (texts words.now)) }
{
    let Some((from, words)) = first_word(words) else {
        return Err(WordsError::Usage);
    };
    let Some((to, options)) = first_word(words) else {
        return Err(WordsError::Usage);
    };
    let Some(from) = cards_in(from) else {
        return Err(WordsError::Usage);
    };
    let Some(to) = cards_in(to) else {
        return Err(WordsError::Usage);
    };
    curve_between(from, to, options)
}

/// The question of the options behind `curve PLANT FROM TO`.
fn curve_between(from: u32, to: u32, options: &[String]) -> Result<PlantQuestion, WordsError>
    requires cards { to ≤ most_cards }
    ensures { IsQuestionReadAs result (after_counts from to (texts options.now)) }
{
    if from > to || to - from >= MAX_COUNTS {
        return Err(WordsError::Usage);
    }
    match workers_of(options) {
        Some(workers) => Ok(PlantQuestion::Curve { from, to, workers }),
        None => Err(WordsError::Usage),
    }
}

/// The question of the words behind `why PLANT`.
#[tactic(auto, unfolding(crate::specs::Words::after_why))]
fn why(alloc: Global, words: &[String]) -> Result<PlantQuestion, WordsError>
    ensures { IsQuestionReadAs result (after_why (texts words.now)) }
{
    match words {
        [label, job] => why_date(alloc, label.as_str(), job.as_str()),
        _ => Err(WordsError::Usage),
    }
}

/// The question `why PLANT LABEL JOB`.
fn why_date(alloc: Global, label: &str, job: &str) -> Result<PlantQuestion, WordsError>
    ensures { IsQuestionReadAs result (why_question label.now job.now) }
{
    if !is_label_word(label.as_bytes()) {
        return Err(WordsError::Usage);
    }
    let Some(job) = number_in(job, 1, MAX_DEMANDS as u64) else {
        return Err(WordsError::Usage);
    };
    Ok(PlantQuestion::Why {
        label: Text::of(alloc, label)?,
        job: job as u32,
    })
}

/// The question of the words behind `chart PLANT`.
#[tactic(auto, unfolding(crate::specs::Words::after_chart))]
fn chart(words: &[String]) -> Result<PlantQuestion, WordsError>
    ensures { IsQuestionReadAs result (after_chart (texts words.now)) }
{
    match words {
        [] => Ok(PlantQuestion::Chart { window: None }),
        [from, to] => chart_window(from.as_str(), to.as_str()),
        _ => Err(WordsError::Usage),
    }
}

/// The question `chart PLANT FROM TO`.
fn chart_window(from: &str, to: &str) -> Result<PlantQuestion, WordsError>
    ensures { IsQuestionReadAs result (option_and_then
        (λ a. option_and_then (λ b. window_question a b) (number_in 0 last_observed to.now))
        (number_in 0 last_observed from.now)) }
{
    let Some(from) = number_in(from, 0, MAX_OBSERVE_DATE) else {
        return Err(WordsError::Usage);
    };
    let Some(to) = number_in(to, 0, MAX_OBSERVE_DATE) else {
        return Err(WordsError::Usage);
    };
    if from >= to {
        return Err(WordsError::Usage);
    }
    Ok(PlantQuestion::Chart {
        window: Some((from, to)),
    })
}

/// The command of the words behind `lint PLANT`.
fn lint(alloc: Global, plant_file: &str, words: &[String]) -> Result<Command, WordsError>
    ensures { IsReadAs result (alone (Command.Lint plant_file.now) (texts words.now)) }
{
    if !words.is_empty() {
        return Err(WordsError::Usage);
    }
    Ok(Command::Lint {
        file: FileName::of(alloc, plant_file)?,
    })
}

/// The command of the words behind `run PLANT`.
fn run(alloc: Global, plant_file: &str, words: &[String]) -> Result<Command, WordsError>
    ensures { IsReadAs result (with_options (run_command plant_file.now) (texts words.now)) }
{
    let Some(settings) = settings_of(words) else {
        return Err(WordsError::Usage);
    };
    if let Mode::FromSlots = settings.mode {
        return Err(WordsError::Usage);
    }
    Ok(run_by(alloc, plant_file, settings)?)
}

/// The command `run PLANT` with these settings.
fn run_by(alloc: Global, plant_file: &str, settings: Settings<'_>) -> Result<Command, AllocError>
    requires range { AreSettingsInRange settings }
    requires mode { settings.mode ≢ Mode.FromSlots }
    ensures command { IfOk result
        (λ command. run_command plant_file.now settings.entry.workers (way_seen settings.entry.mode) ≡ Some command) }
    ensures range { IfOk result IsInRange }
{
    let workers = settings.workers;
    let plant = plant_at(alloc, plant_file)?;
    match settings.mode {
        Mode::Whole => Ok(Command::OnPlant {
            plant,
            question: PlantQuestion::Run { workers },
        }),
        Mode::Stopped { after, save } => Ok(Command::Stopping {
            plant,
            workers,
            stop: Stop {
                after,
                save: FileName::of(alloc, save)?,
            },
        }),
        Mode::Saving { every } => Ok(Command::OnDisk {
            plant,
            question: DiskQuestion::RunSlots { every, workers },
        }),
        Mode::Bounded { room } => Ok(Command::OnPlant {
            plant,
            question: PlantQuestion::RunRoom { room, workers },
        }),
        Mode::Standing => Ok(Command::Standing { plant, workers }),
        Mode::FromSlots => unreachable!(),
    }
}

/// The command of the words behind a question and a plant, of which there is one, the name of a file.
fn ask_file(
    alloc: Global,
    plant_file: &str,
    words: &[String],
    question: FileQuestion,
) -> Result<Command, WordsError>
    requires { IsFileInRange question }
    ensures { IsReadAs result (option_map (asking_of_file question plant_file.now) (one_file (texts words.now))) }
{
    let [file] = words else {
        return Err(WordsError::Usage);
    };
    if !is_file_name(file.as_bytes()) {
        return Err(WordsError::Usage);
    }
    Ok(asking_of_file(alloc, plant_file, file.as_str(), question)?)
}

/// The command that asks this of the plant of a file and of a further file.
fn asking_of_file(
    alloc: Global,
    plant_file: &str,
    file: &str,
    question: FileQuestion,
) -> Result<Command, AllocError>
    ensures { IfOk result (λ command. command ≡ asking_of_file question plant_file.now file.now) }
{
    Ok(Command::OnFile {
        plant: plant_at(alloc, plant_file)?,
        file: FileName::of(alloc, file)?,
        question,
    })
}

/// The command of the words behind `resume PLANT`.
#[tactic(auto, unfolding(crate::specs::Words::after_resume))]
fn resume(alloc: Global, plant_file: &str, words: &[String]) -> Result<Command, WordsError>
    ensures { IsReadAs result (after_resume plant_file.now (texts words.now)) }
{
    let Some((word, options)) = first_word(words) else {
        return Err(WordsError::Usage);
    };
    if is_checkpoint_name(word.as_bytes()) {
        resume_file(alloc, plant_file, word, options)
    } else {
        resume_slots(alloc, plant_file, words)
    }
}

/// The command of the words behind `resume PLANT FILE`.
fn resume_file(
    alloc: Global,
    plant_file: &str,
    saved: &str,
    options: &[String],
) -> Result<Command, WordsError>
    ensures { IsReadAs result (option_map (resuming plant_file.now saved.now) (workers_of (texts options.now))) }
{
    let Some(workers) = workers_of(options) else {
        return Err(WordsError::Usage);
    };
    let question = FileQuestion::Resume { workers };
    Ok(asking_of_file(alloc, plant_file, saved, question)?)
}

/// The command of the options behind `resume PLANT`.
fn resume_slots(alloc: Global, plant_file: &str, options: &[String]) -> Result<Command, WordsError>
    ensures { IsReadAs result (with_options (resume_slots_command plant_file.now) (texts options.now)) }
{
    let Some(settings) = settings_of(options) else {
        return Err(WordsError::Usage);
    };
    let Mode::FromSlots = settings.mode else {
        return Err(WordsError::Usage);
    };
    Ok(Command::OnDisk {
        plant: plant_at(alloc, plant_file)?,
        question: DiskQuestion::ResumeSlots {
            workers: settings.workers,
        },
    })
}
