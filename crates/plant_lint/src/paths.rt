//! In which table of a plant file a path stands.
ghost use Rattle.std.specs.Prelude.{◌≡◌, IfOk};
ghost use Rattle.line_base.specs.Limits.{most_loops, most_stations};
ghost use Rattle.plant_lint.specs.Paths.{begins_with, loop_or_top, machine_or_stage, row_of, table_in, table_of};

use line_base::{MAX_LOOPS, MAX_STAGES, MAX_STATIONS};
use plant_model::{FileTable, table_place};
use std::alloc::{AllocError, Global};

/// A list of tables of a plant file. Stages are numbered from 0.
#[derive(Clone, Copy)]
pub(crate) enum Tables {
    /// The stages.
    Stages,
    /// The machines of a stage.
    Machines(usize),
    /// The loops.
    Loops,
}

/// The table in which a path stands, of those that are within the limits of a plant, and else the top.
pub(crate) fn table_of(alloc: Global, path: &str) -> Result<FileTable, AllocError>
    ensures { IfOk result (λ table. table ≡ table_of path.now) }
{
    match row_of(alloc, Tables::Stages, MAX_STAGES as usize, path)? {
        Some(i) => machine_or_stage(alloc, i, path),
        None => loop_or_top(alloc, path),
    }
}

/// The machine of stage `i` in whose table a path stands, and where there is none the stage.
fn machine_or_stage(alloc: Global, i: usize, path: &str) -> Result<FileTable, AllocError>
    ensures { IfOk result (λ table. table ≡ machine_or_stage i (row_of (Tables.Machines i) most_stations path.now)) }
{
    match row_of(alloc, Tables::Machines(i), MAX_STATIONS as usize, path)? {
        Some(j) => Ok(FileTable::InMachine(i, j)),
        None => Ok(FileTable::InStage(i)),
    }
}

/// The loop in whose table a path stands, and where there is none the top.
fn loop_or_top(alloc: Global, path: &str) -> Result<FileTable, AllocError>
    ensures { IfOk result (λ table. table ≡ loop_or_top (row_of Tables.Loops most_loops path.now)) }
{
    match row_of(alloc, Tables::Loops, MAX_LOOPS as usize, path)? {
        Some(k) => Ok(FileTable::InLoop(k)),
        None => Ok(FileTable::Top),
    }
}

/// The first of `count` tables with whose path a path begins, if there is one.
fn row_of(
    alloc: Global,
    tables: Tables,
    count: usize,
    path: &str,
) -> Result<Option<usize>, AllocError>
    ensures { IfOk result (λ row. row ≡ row_of tables count path.now) }
{
    for n in 0..count {
        if begins_with(alloc, path, table_in(tables, n))? {
            return Ok(Some(n));
        }
    }
    Ok(None)
}

/// Table `n` of a list of tables.
fn table_in(tables: Tables, n: usize) -> FileTable
    ensures { result ≡ table_in tables n }
{
    match tables {
        Tables::Stages => FileTable::InStage(n),
        Tables::Machines(i) => FileTable::InMachine(i, n),
        Tables::Loops => FileTable::InLoop(n),
    }
}

/// Whether a path begins with that of a table.
fn begins_with(alloc: Global, path: &str, table: FileTable) -> Result<bool, AllocError>
    ensures { IfOk result (λ begins. begins ≡ begins_with path.now table) }
{
    let place = table_place(alloc, table)?;
    Ok(path.as_bytes().starts_with(place.as_str().as_bytes()))
}
