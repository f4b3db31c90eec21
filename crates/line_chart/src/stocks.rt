ghost use Rattle.std.specs.Prelude.{◌≡◌, ◌<◌, IfOk};
ghost use Rattle.line_chart.specs.DateTable.{path_stocks};
ghost use Rattle.plant_model.specs.Sound.{IsSound};

use plant_model::{PathTable, Plant};
use std::alloc::{AllocError, Global};

/// The starting stock on the path of each stage, in order.
pub fn path_stocks(alloc: Global, plant: &Plant) -> Result<Vec<u64>, AllocError>
    requires { IsSound plant.now }
    ensures { IfOk result (λ stocks. stocks.items ≡ path_stocks plant.now) }
{
    let paths = PathTable::of(alloc, plant)?;
    let stocks = stocks_on(alloc, plant, &paths);
    drop(paths);
    stocks
}

/// The starting stock on each of these paths of a plant, in the order of its stages.
fn stocks_on(alloc: Global, plant: &Plant, paths: &PathTable<'_>) -> Result<Vec<u64>, AllocError>
    requires { paths.now ≡ plant.now }
    ensures { IfOk result (λ stocks. stocks.items ≡ path_stocks plant.now) }
{
    let mut stocks = Vec::with_capacity(alloc, plant.stages.len())?;
    for stage in 0..plant.stages.len() {
        stocks.push(paths.stock(stage))?;
    }
    Ok(stocks)
}
