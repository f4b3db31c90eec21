//! The paths of a plant's stages as a table, made in one pass, by which few steps tell whether a stage is on the path
//! of another.
ghost use Rattle.std.specs.Prelude.{◌≡◌, ◌+◌, ◌<◌, ◌⊎◌, [], length, IfOk};
ghost use Rattle.plant_model.specs.Line.{is_first, is_downstream, path_stock, stock_down_to};
ghost use Rattle.plant_model.specs.Line;
ghost use Rattle.plant_model.specs.Paths.{row_at, IsPathRow, ArePathRows, AreFedMarks};
ghost use Rattle.plant_model.specs.Refusals.{all_feeds_not_later};

use crate::line::{next_stage, starting_stock};
use crate::plant::Plant;
use std::alloc::{AllocError, Global};
use std::marker::Model;

/// What is known of the path of a stage.
#[derive(Clone, Copy)]
struct PathRow {
    /// The starting stock on the path.
    stock: u64,
    /// How many stages the path has after the stage.
    stages: usize,
    /// A stage further down the path; at the final stage the stage itself. It lies as far ahead as two jumps of equal
    /// length from the next stage lead, else it is the next stage, so the number of steps to a stage grows with the
    /// logarithm of its distance (Myers 1983, an applicative random-access stack).
    jump: usize,
}

/// The paths of a plant whose stages feed later ones. Contracts see it as the plant. Its looks take no memory.
#[derive(Drop)]
pub struct PathTable<'a> {
    plant: &'a Plant,
    rows: Vec<PathRow>,
    fed: Vec<bool>,
}

impl<'a> Model for PathTable<'a> {
    ghost use Rattle.plant_model.specs.Paths.{IsPathTable};
    ghost use Rattle.plant_model.specs.declared.plant.Plant.{Plant};

    ghost Value = { Plant };

    ghost view = { λ table. table.plant.now };

    ghost invariant = { λ table. IsPathTable table.plant.now table.rows.items table.fed.items };
}

impl<'a> PathTable<'a> {
    /// The paths of a plant's stages.
    pub fn of(alloc: Global, plant: &'a Plant) -> Result<Self, AllocError>
        requires { all_feeds_not_later plant.now ≡ [] }
        ensures { IfOk result (λ table. table ≡ plant.now) }
    {
        let rows = path_rows(alloc, plant)?;
        let fed = fed_marks(alloc, plant)?;
        Ok(PathTable { plant, rows, fed })
    }

    /// The plant.
    pub fn plant(&self) -> &Plant
        ensures { result.now ≡ self.now }
    {
        self.plant
    }

    /// Whether no stage feeds stage `i`.
    pub fn is_first(&self, i: usize) -> bool
        requires { i < length self.now.stages }
        ensures { result ≡ is_first self.now i }
    {
        !self.fed[i]
    }

    /// The starting stock on the path of stage `i`.
    pub fn stock(&self, i: usize) -> u64
        requires { i < length self.now.stages }
        ensures { result ≡ path_stock self.now i }
    {
        self.rows[i].stock
    }

    /// The starting stock of the stages from `from` to `to` on the path of `from`; `None` exactly where `to` isn't on
    /// it.
    pub fn stock_up_to(&self, from: usize, to: usize) -> Option<u64>
        requires { from < length self.now.stages }
        ensures { result ≡ stock_down_to self.now from to }
    {
        if !self.is_downstream(from, to) {
            return None;
        }
        let own = u64::from(starting_stock(self.plant, to));
        Some(self.rows[from].stock - self.rows[to].stock + own)
    }

    /// Whether stage `to` is on the path of stage `from`.
    fn is_downstream(&self, from: usize, to: usize) -> bool
        requires { from < length self.now.stages }
        ensures { result ≡ is_downstream self.now from to }
    {
        let mut stage = from;
        while stage < to {
            let Some(next) = next_stage(self.plant, stage) else {
                return false;
            };
            let jump = self.rows[stage].jump;
            stage = if jump <= to { jump } else { next as usize };
        }
        stage == to
    }
}

/// The rows of all stages, the last first.
fn path_rows(alloc: Global, plant: &Plant) -> Result<Vec<PathRow>, AllocError>
    requires { all_feeds_not_later plant.now ≡ [] }
    ensures { IfOk result (λ rows. ArePathRows plant.now 0 rows.items) }
{
    let count = plant.stages.len();
    let none = PathRow {
        stock: 0,
        stages: 0,
        jump: 0,
    };
    let mut rows = vec![in alloc; none; count]?;
    for i in (0..count).rev() {
        let row = path_row(plant, rows.as_slice(), i);
        rows[i] = row;
    }
    Ok(rows)
}

/// The row of stage `i`, where those of the later stages stand.
fn path_row(plant: &Plant, rows: &[PathRow], i: usize) -> PathRow
    requires later { all_feeds_not_later plant.now ≡ [] }
    requires exists { i < length plant.now.stages }
    requires right { ArePathRows plant.now (i + 1) rows.now }
    ensures { IsPathRow plant.now i result }
{
    match next_stage(plant, i) {
        Some(next) => row_before(plant, rows, i, next),
        None => PathRow {
            stock: u64::from(starting_stock(plant, i)),
            stages: 0,
            jump: i,
        },
    }
}

/// The row of stage `i`, which feeds stage `next`, where those of the later stages stand.
fn row_before(plant: &Plant, rows: &[PathRow], i: usize, next: u32) -> PathRow
    requires later { all_feeds_not_later plant.now ≡ [] }
    requires exists { i < length plant.now.stages }
    requires fed { Some next ≡ Line.next plant.now i }
    requires right { ArePathRows plant.now (i + 1) rows.now }
    ensures { IsPathRow plant.now i result }
{
    let ahead = rows[next as usize];
    PathRow {
        stock: u64::from(starting_stock(plant, i)) + ahead.stock,
        stages: ahead.stages + 1,
        jump: jump_before(rows, next as usize),
    }
}

/// Where the stage before `next` jumps to: two jumps from `next` where they are of equal length, else `next`.
fn jump_before(rows: &[PathRow], next: usize) -> usize
    requires exists { next < length rows.now }
    requires second { (row_at rows.now next).jump < length rows.now }
    requires third { (row_at rows.now (row_at rows.now next).jump).jump < length rows.now }
    ensures { (result ≡ next) ⊎ (result ≡ (row_at rows.now (row_at rows.now next).jump).jump) }
{
    let first = rows[next];
    let second = rows[first.jump];
    let third = rows[second.jump];
    if first.stages.abs_diff(second.stages) == second.stages.abs_diff(third.stages) {
        second.jump
    } else {
        next
    }
}

/// For each stage whether a stage feeds it.
pub(crate) fn fed_marks(alloc: Global, plant: &Plant) -> Result<Vec<bool>, AllocError>
    requires { all_feeds_not_later plant.now ≡ [] }
    ensures { IfOk result (λ fed. AreFedMarks plant.now fed.items) }
{
    let mut fed = vec![in alloc; false; plant.stages.len()]?;
    for stage in plant.stages.as_slice() {
        if let Some(next) = stage.feeds {
            fed[next as usize] = true;
        }
    }
    Ok(fed)
}
