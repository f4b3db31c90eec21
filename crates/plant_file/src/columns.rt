ghost use Rattle.std.specs.Prelude.{◌≡◌, IfOk};
ghost use Rattle.plant_file.specs.Columns.{AddsMarks, AreMarks, is_used_by, is_used_in};
ghost use Rattle.plant_file.specs.Draft.{uses, columns_of};

use crate::draft::{DraftMachine, DraftPlant, DraftStage, DraftTimes};
use line_base::MAX_COLUMN;
use std::alloc::{AllocError, Global};

/// The columns of the times file that machines use, ascending, each once. It goes through the machines once.
pub(crate) fn columns_of(alloc: Global, plant: &DraftPlant) -> Result<Vec<u32>, AllocError>
    ensures { IfOk result (λ columns. columns.items ≡ columns_of plant.now) }
{
    let marks = marks_of(alloc, plant)?;
    let mut columns = Vec::new(alloc);
    for before in 0..MAX_COLUMN {
        if marks[before as usize + 1] {
            columns.push(before + 1)?;
        }
    }
    Ok(columns)
}

/// Of each number up to the greatest column, whether a machine uses that column.
fn marks_of(alloc: Global, plant: &DraftPlant) -> Result<Vec<bool>, AllocError>
    ensures { IfOk result (λ marks. AreMarks plant.now marks.items) }
{
    let mut marks = vec![in alloc; false; MAX_COLUMN as usize + 1]?;
    mark_stages(plant.stages.as_slice(), &mut marks);
    Ok(marks)
}

/// Marks the columns that machines of these stages use.
fn mark_stages(stages: &[DraftStage], marks: &mut Vec<bool>)
    ensures { AddsMarks marks.old.items marks.new.items (is_used_in stages.now) }
{
    for stage in stages {
        mark_machines(stage.machines.as_slice(), marks);
    }
}

/// Marks the columns that these machines use.
fn mark_machines(machines: &[DraftMachine], marks: &mut Vec<bool>)
    ensures { AddsMarks marks.old.items marks.new.items (is_used_by machines.now) }
{
    for machine in machines {
        mark(&machine.times, marks);
    }
}

/// Marks the column in which job times stand, if they stand in one.
fn mark(times: &DraftTimes, marks: &mut Vec<bool>)
    ensures { AddsMarks marks.old.items marks.new.items (λ c. uses c times.now) }
{
    if let DraftTimes::Column(column) = times {
        let at = *column as usize;
        if at < marks.len() {
            marks[at] = true;
        }
    }
}
