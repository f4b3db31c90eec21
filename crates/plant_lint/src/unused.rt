//! The keys of a plant file that its policy doesn't use.
ghost use Rattle.std.specs.Prelude.{◌≡◌, ◌++◌, not, IfOk, OnOk, string_bytes};
ghost use Rattle.plant_keys.specs.Faults.{all_of};
ghost use Rattle.plant_lint.specs.Unused.{unused_line, unused_if, unused_at_top, unused_in_stage, is_kanban, unused_lines};
ghost use Rattle.toml.specs.View.{view};

use plant_keys::{has, has_column, has_line_cards, has_stage_cards, tables_at, text_at};
use plant_model::{FileTable, key_place};
use std::alloc::{AllocError, Global};
use toml::Value;

/// A note for each key that isn't used, in the order of the walk.
pub(crate) fn unused_lines(alloc: Global, top: &Value) -> Result<String, AllocError>
    ensures { IfOk result (λ text. string_bytes text ≡ unused_lines (view top.now)) }
{
    let mut text = String::new(alloc);
    add_tree(alloc, &mut text, top)?;
    Ok(text)
}

/// Adds the notes of the top, then those of the stages.
#[tactic(auto, unfolding(crate::specs::Unused::unused_lines))]
fn add_tree(alloc: Global, text: &mut String, top: &Value) -> Result<(), AllocError>
    ensures { OnOk result (string_bytes text.new ≡ string_bytes text.old ++ unused_lines (view top.now)) }
{
    add_top(alloc, text, top)?;
    let with_cards = has_stage_cards(top);
    let without_stock = is_kanban(top);
    add_stages(
        alloc,
        text,
        with_cards,
        without_stock,
        tables_at(top, "stage"),
    )
}

/// Whether the policy is kanban.
fn is_kanban(top: &Value) -> bool
    ensures { result ≡ is_kanban (view top.now) }
{
    text_at(top, "policy") == "kanban"
}

/// Adds the notes of the top.
fn add_top(alloc: Global, text: &mut String, top: &Value) -> Result<(), AllocError>
    ensures { OnOk result (string_bytes text.new ≡ string_bytes text.old ++ unused_at_top (view top.now)) }
{
    let idle = !has_line_cards(top);
    add_if(alloc, text, idle, FileTable::Top, "card_time", top)?;
    add_if(alloc, text, idle, FileTable::Top, "cards", top)?;
    add_if(
        alloc,
        text,
        !has_column(top),
        FileTable::Top,
        "times_file",
        top,
    )
}

/// Adds the notes of the stages.
fn add_stages(
    alloc: Global,
    text: &mut String,
    with_cards: bool,
    without_stock: bool,
    stages: &[Value],
) -> Result<(), AllocError>
    ensures { OnOk result (string_bytes text.new ≡ string_bytes text.old
        ++ all_of (λ i s. unused_in_stage with_cards without_stock i (view s)) stages.now) }
{
    for (i, stage) in stages.iter().enumerate() {
        add_stage(alloc, text, with_cards, without_stock, i, stage)?;
    }
    Ok(())
}

/// Adds the notes of stage `i`.
fn add_stage(
    alloc: Global,
    text: &mut String,
    with_cards: bool,
    without_stock: bool,
    i: usize,
    stage: &Value,
) -> Result<(), AllocError>
    ensures { OnOk result (string_bytes text.new ≡ string_bytes text.old
        ++ unused_in_stage with_cards without_stock i (view stage.now)) }
{
    add_if(
        alloc,
        text,
        !with_cards,
        FileTable::InStage(i),
        "card_time",
        stage,
    )?;
    add_if(
        alloc,
        text,
        !with_cards,
        FileTable::InStage(i),
        "cards",
        stage,
    )?;
    add_if(
        alloc,
        text,
        without_stock,
        FileTable::InStage(i),
        "stock",
        stage,
    )
}

/// Adds that a key isn't used, if it is there and the test gives true.
fn add_if(
    alloc: Global,
    text: &mut String,
    idle: bool,
    table: FileTable,
    key: &str,
    value: &Value,
) -> Result<(), AllocError>
    ensures { OnOk result (string_bytes text.new ≡ string_bytes text.old
        ++ unused_if idle table key.now (view value.now)) }
{
    if !idle || !has(value, key) {
        return Ok(());
    }
    let place = key_place(alloc, table, key)?;
    add_note(alloc, text, place.as_str())
}

/// Adds that the key of this path isn't used.
fn add_note(alloc: Global, text: &mut String, place: &str) -> Result<(), AllocError>
    ensures { OnOk result (string_bytes text.new ≡ string_bytes text.old ++ unused_line place.now) }
{
    let line = format!(in alloc; "note: {place} is not used\n")?;
    text.push_str(line.as_str())
}
