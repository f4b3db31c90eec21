//! All that is wrong with the tree of a plant file.
ghost use Rattle.std.specs.Prelude.{◌≡◌, ◌++◌, [], IfSome, OnOk};
ghost use Rattle.plant_keys.specs.Faults.{plain};
ghost use Rattle.plant_keys.specs.Found.{Finds};
ghost use Rattle.plant_keys.specs.Readers.{stage_names};
ghost use Rattle.plant_keys.specs.Rules.{names_twice};
ghost use Rattle.plant_keys.specs.Walk.{first_faults, last_faults, tree_faults};
ghost use Rattle.toml.specs.View.{view};

use crate::faults::Faults;
use crate::flow::{Finals, find_feeds};
use crate::keys::Class;
use crate::names::Names;
use crate::rows::find_in_rows;
use crate::twice::find_twice;
use crate::values::tables_at;
use crate::walk::find_in_tree;
use std::alloc::AllocError;
use toml::Value;

/// Finds all that is wrong with the tree of a plant file, class by class, each in the order of the walk. It answers the
/// names of the stages, unless the search ended before they were gathered.
#[tactic(auto, unfolding(crate::specs::Walk::tree_faults))]
pub fn find_in_plant<'a>(top: &'a Value, faults: &mut Faults) -> Option<Names<'a>>
    ensures found { Finds faults.old faults.new (tree_faults (view top.now)) }
    ensures names { IfSome result (λ names. names_twice (view top.now) ≡ [] → names ≡ stage_names (view top.now)) }
{
    find_first(top, faults);
    if faults.is_done() {
        return None;
    }
    let mut names = Names::new(faults.alloc);
    match find_from_names_on(top, &mut names, faults) {
        Ok(()) => Some(names),
        Err(AllocError) => {
            drop(names);
            faults.run_out();
            None
        }
    }
}

/// Finds what is wrong with single keys before their numbers are looked at.
fn find_first(top: &Value, faults: &mut Faults)
    ensures { Finds faults.old faults.new (first_faults (view top.now)) }
{
    find_in_tree(Class::UnknownKeys, top, faults);
    find_in_tree(Class::MissingKeys, top, faults);
    find_in_tree(Class::WrongTypes, top, faults);
    find_in_tree(Class::BadNames, top, faults);
}

/// Finds the names that stand twice, and what comes after them, and gathers the names of the stages. No name came
/// before.
fn find_from_names_on<'a>(
    top: &'a Value,
    names: &mut Names<'a>,
    faults: &mut Faults,
) -> Result<(), AllocError>
    requires { names.old ≡ [] }
    ensures found { OnOk result (Finds faults.old faults.new
        (plain (names_twice (view top.now)) ++ last_faults (view top.now))) }
    ensures names { OnOk result (names_twice (view top.now) ≡ [] → names.new ≡ stage_names (view top.now)) }
{
    let stages = tables_at(top, "stage");
    find_twice(stages, names, faults)?;
    find_in_tree(Class::OutOfRanges, top, faults);
    find_feeds(names, stages, faults)?;
    let count = stages.len();
    find_in_rows(&Finals { count }, stages, faults);
    Ok(())
}
