//! What `cards --each` writes.
ghost use Rattle.std.specs.List.{flat_map};
ghost use Rattle.std.specs.Prelude.{◌≡◌, ◌++◌, IfOk, OnOk};
ghost use Rattle.answers.specs.EachCardsText.{stage_line, each_cards_text};

use crate::cards::add_below;
use crate::words::{add_number, add_words};
use card_sizing::{EachSizing, StageSizing};
use line_base::Items;
use std::alloc::{AllocError, Global};

/// What `cards --each` writes of the least counts of cards, stage by stage: each stage with its count and why that
/// can't be one less, and their sum.
pub fn each_cards_text(alloc: Global, each: &EachSizing) -> Result<Items<u8>, AllocError>
    ensures { IfOk result (λ text. text ≡ each_cards_text each.now) }
{
    let mut text = Vec::new(alloc);
    add_stages(&mut text, each.stages.as_slice())?;
    add_number(&mut text, b"total ", each.total)?;
    text.push(b'\n')?;
    Ok(Items::from_vec(text))
}

/// Adds the lines of stages.
fn add_stages(text: &mut Vec<u8>, stages: &[StageSizing]) -> Result<(), AllocError>
    ensures { OnOk result (text.new.items ≡ text.old.items ++ flat_map stage_line stages.now) }
{
    for stage in stages {
        add_stage(text, stage)?;
    }
    Ok(())
}

/// Adds the line of a stage.
fn add_stage(text: &mut Vec<u8>, stage: &StageSizing) -> Result<(), AllocError>
    ensures { OnOk result (text.new.items ≡ text.old.items ++ stage_line stage.now) }
{
    add_words(text, b"cards ", stage.stage.text())?;
    add_number(text, b" ", stage.cards)?;
    text.extend_from_slice(b" below ")?;
    add_below(text, &stage.below)?;
    text.extend_from_slice(b"\n")
}
