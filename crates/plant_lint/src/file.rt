//! What lint says of a plant file by itself.
ghost use Rattle.std.specs.Prelude.{◌≡◌, List, [], IfOk, drop, take};
ghost use Rattle.plant_file.specs.Reading.{draft_of};
ghost use Rattle.plant_keys.specs.Found.{AreFaults};
ghost use Rattle.plant_keys.specs.Walk.{tree_faults};
ghost use Rattle.plant_keys.specs.declared.fault.Fault.{Fault};
ghost use Rattle.plant_lint.specs.FileLints.{ReadsFile, ReadsTree};
ghost use Rattle.plant_lint.specs.Headers.{no_toml_line};
ghost use Rattle.plant_lint.specs.Remarks.{file_remark};
ghost use Rattle.plant_lint.specs.Texts.{fault_lines};
ghost use Rattle.toml.specs.Errors.{IsMemory, IsWithin, span_start};
ghost use Rattle.toml.specs.View.{view};

use crate::headers::no_toml_line;
use crate::lines::lines_of;
use crate::remarks::{FileRemarks, Remarks};
use crate::unused::unused_lines;
use line_base::Text;
use plant_file::{Draft, TreeReading, read_tree_or_faults};
use plant_keys::FaultList;
use std::alloc::{AllocError, Global};
use toml::Value;

/// The reading of a plant file, with what lint says of it by itself.
#[derive(Drop)]
pub enum FileLint {
    /// Where the file stops being TOML, or what is wrong with it.
    Refused { lines: Text },
    /// Nothing is wrong with it by itself: what it says, and the notes of the keys that aren't used.
    Sound { draft: Draft, notes: Text },
}

/// What lint says of the bytes of a plant file: where they stop being TOML, else all that is wrong with them by
/// themselves, and where nothing is, which keys the policy doesn't use. A file that is right is read with it.
pub fn lint_file(alloc: Global, bytes: &[u8]) -> Result<FileLint, AllocError>
    ensures { IfOk result (ReadsFile bytes.now) }
{
    match toml::table_from_slice(alloc, bytes) {
        Ok(top) => lint_tree(alloc, &Value::Table(top)),
        Err(error) => lint_error(alloc, bytes, &error),
    }
}

/// What lint says of a tree, which is read with it.
fn lint_tree(alloc: Global, top: &Value) -> Result<FileLint, AllocError>
    ensures { IfOk result (ReadsTree (view top.now)) }
{
    match read_tree_or_faults(alloc, top)? {
        TreeReading::Draft(draft) => with_notes(alloc, draft, top),
        TreeReading::Faults(list) => {
            let lint = refused_by(alloc, top, &list);
            drop(list);
            lint
        }
    }
}

/// The draft of a tree with which nothing is wrong, with the notes of the keys that aren't used.
fn with_notes(alloc: Global, draft: Draft, top: &Value) -> Result<FileLint, AllocError>
    requires sound { tree_faults (view top.now) ≡ [] }
    requires draft { draft ≡ draft_of (view top.now) }
    ensures { IfOk result (ReadsTree (view top.now)) }
{
    match unused_lines(alloc, top) {
        Ok(notes) => Ok(FileLint::Sound {
            draft,
            notes: Text::from_string(notes),
        }),
        Err(AllocError) => {
            drop(draft);
            Err(AllocError)
        }
    }
}

/// That there are these faults.
fn refused_by(alloc: Global, top: &Value, list: &FaultList) -> Result<FileLint, AllocError>
    ensures { (faults : List Fault) → AreFaults list.now faults
        → IfOk result (λ lint. lint ≡ FileLint.Refused (fault_lines (file_remark (view top.now)) faults)) }
{
    let lines = text_of(alloc, &FileRemarks { top }, list)?;
    Ok(FileLint::Refused { lines })
}

/// The lines of these faults, with what is said behind each.
pub(crate) fn text_of<R: Remarks>(
    alloc: Global,
    remarks: &R,
    list: &FaultList,
) -> Result<Text, AllocError>
    ensures { (faults : List Fault) → AreFaults list.now faults
        → IfOk result (λ lines. lines ≡ fault_lines (R.remark remarks.now) faults) }
{
    Ok(Text::from_string(lines_of(alloc, remarks, list)?))
}

/// What lint says of bytes that the reader refuses: where its error begins. An error of memory points at no byte.
fn lint_error(alloc: Global, bytes: &[u8], error: &toml::de::Error) -> Result<FileLint, AllocError>
    requires { IsWithin bytes.now error.now }
    ensures line { IfOk result (λ lint. lint ≡ FileLint.Refused
        (no_toml_line (take (span_start error.now) bytes.now) (drop (span_start error.now) bytes.now))) }
    ensures memory { IfOk result (λ _. IsMemory error.now → ⊥) }
{
    let Some(span) = error.span() else {
        return Err(AllocError);
    };
    let lines = Text::from_string(no_toml_line(alloc, bytes, span.start)?);
    Ok(FileLint::Refused { lines })
}
