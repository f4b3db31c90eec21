//! What `cards` writes.
ghost use Rattle.std.specs.List.{flat_map};
ghost use Rattle.std.specs.Prelude.{◌≡◌, ◌++◌, IfOk, OnOk};
ghost use Rattle.answers.specs.CardsText.{job_words, dead_words, below_words, cards_text};
ghost use Rattle.command_line.specs.Lines.{after_space};

use crate::words::add_number;
use card_sizing::{Below, Sizing};
use line_base::{Items, Label};
use std::alloc::{AllocError, Global};

/// What `cards` writes of the least count of cards: the count, and why it can't be one less.
pub fn cards_text(alloc: Global, sizing: &Sizing) -> Result<Items<u8>, AllocError>
    ensures { IfOk result (λ text. text ≡ cards_text sizing.now) }
{
    let mut text = Vec::new(alloc);
    add_number(&mut text, b"cards ", sizing.cards)?;
    text.extend_from_slice(b"\nbelow ")?;
    add_below(&mut text, &sizing.below)?;
    text.push(b'\n')?;
    Ok(Items::from_vec(text))
}

/// Adds why a count can't be one less.
pub(crate) fn add_below(text: &mut Vec<u8>, below: &Below) -> Result<(), AllocError>
    ensures { OnOk result (text.new.items ≡ text.old.items ++ below_words below.now) }
{
    match below {
        Below::Lowest => text.extend_from_slice(b"none"),
        Below::Job { job, wait } => add_job(text, *job, *wait),
        Below::Dead { labels } => add_dead(text, labels.as_slice()),
    }
}

/// Adds the job that waits longer than it may, and how long it waits.
fn add_job(text: &mut Vec<u8>, job: u32, wait: u64) -> Result<(), AllocError>
    ensures { OnOk result (text.new.items ≡ text.old.items ++ job_words job wait) }
{
    add_number(text, b"job ", job)?;
    add_number(text, b" waits ", wait)
}

/// Adds the labels of the stations of a circuit without a token.
fn add_dead(text: &mut Vec<u8>, labels: &[Label]) -> Result<(), AllocError>
    ensures { OnOk result (text.new.items ≡ text.old.items ++ dead_words labels.now) }
{
    text.extend_from_slice(b"dead")?;
    add_labels(text, labels)
}

/// Adds labels, each with a space before it.
fn add_labels(text: &mut Vec<u8>, labels: &[Label]) -> Result<(), AllocError>
    ensures { OnOk result (text.new.items ≡ text.old.items ++ flat_map after_space labels.now) }
{
    for label in labels {
        text.push(b' ')?;
        text.extend_from_slice(label.text())?;
    }
    Ok(())
}
