//! What may not be meant in a plant that nothing is wrong with.
ghost use Rattle.std.specs.List.{list_all};
ghost use Rattle.std.specs.Prelude.{◌≡◌, ◌++◌, ◌+◌, ◌==◌, IfOk, OnOk, option_map, string_bytes};
ghost use Rattle.plant_check.specs.PlantNotes.{has_no_stock, goes_by_one, counts_up, stock_note, dates_note, plant_notes};
ghost use Rattle.plant_model.specs.Line.{stock_under};

use line_base::Date;
use plant_model::{Plant, Policy, Stage, stock_under};
use std::alloc::{AllocError, Global};

/// The notes of a plant: that no stage has starting stock, and that the dates of its demand file, if it has one, count
/// up by one.
#[tactic(auto, unfolding(crate::specs::PlantNotes::plant_notes))]
pub fn plant_notes(alloc: Global, file: Option<&str>, plant: &Plant) -> Result<String, AllocError>
    ensures { IfOk result
        (λ text. string_bytes text ≡ plant_notes (option_map (λ name. name.now) file.entry) plant.now) }
{
    let mut text = String::new(alloc);
    add_stock(&mut text, plant)?;
    add_dates(alloc, &mut text, file, plant.demands.as_slice())?;
    Ok(text)
}

/// Adds that no stage has starting stock, if none has.
fn add_stock(text: &mut String, plant: &Plant) -> Result<(), AllocError>
    ensures { OnOk result (string_bytes text.new ≡ string_bytes text.old ++ stock_note plant.now) }
{
    if has_no_stock(plant.policy, plant.stages.as_slice()) {
        return text.push_str("note: no starting stock\n");
    }
    Ok(())
}

/// Whether none of these stages has starting stock.
fn has_no_stock(policy: Policy, stages: &[Stage]) -> bool
    ensures { result ≡ list_all (λ s. stock_under policy s == 0) stages.now }
{
    stages.iter().all(|stage| stock_under(policy, stage) == 0)
}

/// Adds that the dates of a file count up by one, if they do.
fn add_dates(
    alloc: Global,
    text: &mut String,
    file: Option<&str>,
    dates: &[Date],
) -> Result<(), AllocError>
    ensures { OnOk result (string_bytes text.new ≡ string_bytes text.old
        ++ dates_note (option_map (λ name. name.now) file.entry) dates.now) }
{
    let Some(file) = file else {
        return Ok(());
    };
    if !counts_up(dates) {
        return Ok(());
    }
    let line = format!(in alloc; "note: {file} counts up by one\n")?;
    text.push_str(line.as_str())
}

/// Whether there are three dates or more, each after the first the one before plus 1.
fn counts_up(dates: &[Date]) -> bool
    ensures { result ≡ counts_up dates.now }
{
    dates.len() >= 3 && goes_by_one(dates)
}

/// Whether each date after the first is the one before plus 1.
fn goes_by_one(dates: &[Date]) -> bool
    ensures { result ≡ goes_by_one dates.now }
{
    for k in 0..dates.len().saturating_sub(1) {
        if !is_next(dates[k], dates[k + 1]) {
            return false;
        }
    }
    true
}

/// Whether a date is another plus 1.
fn is_next(before: Date, date: Date) -> bool
    ensures { result ≡ (date == before + 1) }
{
    date > before && date - before == 1
}
