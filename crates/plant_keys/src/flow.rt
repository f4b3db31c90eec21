//! The stages that feed no later one, and those beside the last that feed none.
ghost use Rattle.std.specs.List.{list_any};
ghost use Rattle.std.specs.Prelude.{◌≡◌, ◌+◌, ◌&&◌, [], ℕ, List, IfOk, OnOk, bytes_eq, codes, map, not, take};
ghost use Rattle.plant_model.specs.Place.{key_of, place_of};
ghost use Rattle.plant_model.specs.declared.place.FileTable.TheVariants.{InStage};
ghost use Rattle.plant_keys.specs.Code.{views};
ghost use Rattle.plant_keys.specs.Faults.{all_of};
ghost use Rattle.plant_keys.specs.Found.{Finds};
ghost use Rattle.plant_keys.specs.Readers.{name_in};
ghost use Rattle.plant_keys.specs.Seen.{HaveSame};
ghost use Rattle.plant_keys.specs.Walk.{shown_name, fed_fault, feeds_faults};
ghost use Rattle.toml.specs.View.{view};

use crate::fault::{Fault, Wants};
use crate::faults::Faults;
use crate::names::Names;
use crate::rows::Rows;
use crate::rules::shown_key;
use crate::values::{has, text_at, text_of, value_at};
use plant_model::{FileTable, PlantError, Text, key_place, table_place};
use std::alloc::{AllocError, Global};
use toml::Value;

/// Finds each stage that feeds one which isn't there or stands no later, where these are the names of all.
pub(crate) fn find_feeds(
    all: &Names<'_>,
    stages: &[Value],
    faults: &mut Faults,
) -> Result<(), AllocError>
    requires { HaveSame all.now (map name_in (views stages.now)) }
    ensures { OnOk result (Finds faults.old faults.new
        (all_of (λ i s. feeds_faults (map name_in (views stages.now)) i (view s)) stages.now)) }
{
    let mut earlier = Names::new(faults.alloc);
    let found = find_each_feed(all, &mut earlier, stages, faults);
    drop(earlier);
    found
}

/// The same, where the names of the stages before each are gathered here; there is none yet.
fn find_each_feed<'a>(
    all: &Names<'_>,
    earlier: &mut Names<'a>,
    stages: &'a [Value],
    faults: &mut Faults,
) -> Result<(), AllocError>
    requires all { HaveSame all.now (map name_in (views stages.now)) }
    requires none { earlier.old ≡ [] }
    ensures { OnOk result (Finds faults.old faults.new
        (all_of (λ i s. feeds_faults (map name_in (views stages.now)) i (view s)) stages.now)) }
{
    for (i, stage) in stages.iter().enumerate() {
        earlier.add(text_at(stage, "name"))?;
        find_feed(all, earlier, i, stage, faults);
    }
    Ok(())
}

/// Finds that stage `i` feeds no later one, where these are the names of all stages, and of those up to this one.
fn find_feed(all: &Names<'_>, before: &Names<'_>, i: usize, stage: &Value, faults: &mut Faults)
    ensures { (names : List (List ℕ)) → HaveSame all.now names → HaveSame before.now (take (i + 1) names)
        → Finds faults.old faults.new (feeds_faults names i (view stage.now)) }
{
    if let Some(fed) = value_at(stage, "feeds") {
        let name = text_of(fed);
        find_fed(is_later(all, before, name), i, name, faults);
    }
}

/// Whether a later stage has the name, where these are the names of all stages, and of those up to the one that feeds
/// it.
fn is_later(all: &Names<'_>, before: &Names<'_>, name: &str) -> bool
    ensures { result ≡ (list_any (bytes_eq name.now) all.now && not (list_any (bytes_eq name.now) before.now)) }
{
    all.has(name) && !before.has(name)
}

/// Finds that stage `i` feeds no later one, if the one of this name isn't later.
fn find_fed(later: bool, i: usize, name: &str, faults: &mut Faults)
    ensures { Finds faults.old faults.new (fed_fault later i name.now) }
{
    if !later {
        faults.add(not_later(faults.alloc, i, name));
    }
}

/// That stage `i` feeds no later one, with the name that it feeds.
fn not_later(alloc: Global, i: usize, name: &str) -> Result<Fault, AllocError>
    ensures { IfOk result (λ fault. fault ≡ record {
      error = PlantError.FeedsNotLater (key_of (InStage i) (codes "feeds"));
      wants = Wants.LaterThan (shown_name name.now);
    }) }
{
    let place = key_place(alloc, FileTable::InStage(i), "feeds")?;
    let name = Text::of(alloc, shown_name(name))?;
    Ok(Fault {
        error: PlantError::FeedsNotLater { place },
        wants: Wants::LaterThan { name },
    })
}

/// A name as lines show it: one that is empty or has another character than a key is a question mark.
fn shown_name(name: &str) -> &str
    ensures { result.now ≡ shown_name name.now }
{
    if name.is_empty() {
        "?"
    } else {
        shown_key(name)
    }
}

/// The stages of a list of this many, of which each but the last feeds one.
#[derive(Clone, Copy)]
pub(crate) struct Finals {
    pub(crate) count: usize,
}

impl Rows for Finals {
    ghost use Rattle.plant_keys.specs.Walk.{final_faults};

    ghost found = { λ finals. final_faults finals.count };

    fn find_in_row(&self, i: usize, stage: &Value, faults: &mut Faults) {
        let last = self.count.saturating_sub(1);
        if !has(stage, "feeds") && i < last {
            faults.add(second_final(faults.alloc, i));
        }
    }
}

/// That stage `i` feeds none, and isn't the last.
fn second_final(alloc: Global, i: usize) -> Result<Fault, AllocError>
    ensures { IfOk result (λ fault. fault ≡ record {
      error = PlantError.TwoFinals (place_of (InStage i));
      wants = Wants.Nothing;
    }) }
{
    let place = table_place(alloc, FileTable::InStage(i))?;
    Ok(Fault {
        error: PlantError::TwoFinals { place },
        wants: Wants::Nothing,
    })
}
