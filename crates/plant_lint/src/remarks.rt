//! What lint says behind the text of a refusal beside what is wanted there.
ghost use Rattle.std.specs.Prelude.{◌≡◌, ◌++◌, OnOk, string_bytes};
ghost use Rattle.plant_lint.specs.Remarks.{Remark, key_remark, missing_remark, place_in};

use crate::labels::{add_file_label, add_plant_label};
use crate::paths::table_of;
use plant_keys::tables_at;
use plant_model::{Plant, PlantError};
use std::alloc::{AllocError, Global};
use toml::Value;

/// What is said behind refusals.
pub trait Remarks {
    /// What is said behind a refusal.
    ghost remark: { Self → Remark };

    /// Adds what is said behind a refusal.
    fn add_remark(
        &self,
        alloc: Global,
        text: &mut String,
        error: &PlantError,
    ) -> Result<(), AllocError>
        ensures { OnOk result (string_bytes text.new ≡ string_bytes text.old ++ remark self.now error.now) };
}

/// Nothing is said.
#[derive(Clone, Copy)]
pub struct NoRemarks;

/// What is said of a plant file, by its tree.
#[derive(Clone, Copy)]
pub struct FileRemarks<'a> {
    pub(crate) top: &'a Value,
}

/// What is said of a plant.
#[derive(Clone, Copy)]
pub struct PlantRemarks<'a> {
    pub(crate) plant: &'a Plant,
}

impl Remarks for NoRemarks {
    ghost use Rattle.plant_lint.specs.Remarks.{no_remark};

    ghost remark = { λ _. no_remark };

    fn add_remark(&self, _: Global, _: &mut String, _: &PlantError) -> Result<(), AllocError> {
        Ok(())
    }
}

impl<'a> Remarks for FileRemarks<'a> {
    ghost use Rattle.plant_lint.specs.Remarks.{file_remark};
    ghost use Rattle.toml.specs.View.{view};

    ghost remark = { λ remarks. file_remark (view remarks.top.now) };

    fn add_remark(
        &self,
        alloc: Global,
        text: &mut String,
        error: &PlantError,
    ) -> Result<(), AllocError> {
        let table = table_of(alloc, place_in(error))?;
        add_file_label(text, tables_at(self.top, "stage"), table)?;
        add_key_remark(text, error)
    }
}

impl<'a> Remarks for PlantRemarks<'a> {
    ghost use Rattle.plant_lint.specs.Remarks.{plant_remark};

    ghost remark = { λ remarks. plant_remark remarks.plant.now };

    fn add_remark(
        &self,
        alloc: Global,
        text: &mut String,
        error: &PlantError,
    ) -> Result<(), AllocError> {
        let table = table_of(alloc, place_in(error))?;
        add_plant_label(text, self.plant, table)
    }
}

/// The path that a refusal names, empty where it names none.
fn place_in(error: &PlantError) -> &str
    ensures { result.now ≡ place_in error.now }
{
    match error {
        PlantError::UnknownKey { place }
        | PlantError::Missing { place }
        | PlantError::WrongType { place }
        | PlantError::BadName { place }
        | PlantError::NameTwice { place }
        | PlantError::OutOfRange { place }
        | PlantError::FeedsNotLater { place }
        | PlantError::TwoFinals { place }
        | PlantError::TimesCount { place, .. }
        | PlantError::TooFewCards { place, .. }
        | PlantError::LoopNotDownstream { place } => place.as_str(),
        PlantError::NotToml
        | PlantError::BadRecord { .. }
        | PlantError::DemandOrder { .. }
        | PlantError::TooLarge { .. }
        | PlantError::NoMemory => "",
    }
}

/// Adds what is said of the key that a refusal names.
fn add_key_remark(text: &mut String, error: &PlantError) -> Result<(), AllocError>
    ensures { OnOk result (string_bytes text.new ≡ string_bytes text.old ++ key_remark error.now) }
{
    match error {
        PlantError::Missing { place } => add_missing_remark(text, place.as_str()),
        PlantError::NotToml
        | PlantError::UnknownKey { .. }
        | PlantError::WrongType { .. }
        | PlantError::BadName { .. }
        | PlantError::NameTwice { .. }
        | PlantError::OutOfRange { .. }
        | PlantError::FeedsNotLater { .. }
        | PlantError::TwoFinals { .. }
        | PlantError::BadRecord { .. }
        | PlantError::TimesCount { .. }
        | PlantError::DemandOrder { .. }
        | PlantError::TooFewCards { .. }
        | PlantError::LoopNotDownstream { .. }
        | PlantError::TooLarge { .. }
        | PlantError::NoMemory => Ok(()),
    }
}

/// Adds where the cards of CONWIP stand, if they are the key that is missing.
fn add_missing_remark(text: &mut String, place: &str) -> Result<(), AllocError>
    ensures { OnOk result (string_bytes text.new ≡ string_bytes text.old ++ missing_remark place.now) }
{
    if place == "cards" {
        return text.push_str(", the plant's own, above the first [[stage]]");
    }
    Ok(())
}
