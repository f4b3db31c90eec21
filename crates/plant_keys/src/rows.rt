//! The rows of a list, one after the other: stages, machines, loops, and the numbers of a list.
ghost use Rattle.plant_keys.specs.Code.{views};
ghost use Rattle.plant_keys.specs.Faults.{all_of, RowFaults};
ghost use Rattle.plant_keys.specs.Found.{Finds};
ghost use Rattle.toml.specs.View.{view};

use crate::faults::Faults;
use toml::Value;

/// What is looked for in each row of a list.
pub(crate) trait Rows {
    /// What is found in a row, by its number.
    ghost found: { Self → RowFaults };

    /// Finds what is wrong in row `n`.
    fn find_in_row(&self, n: usize, row: &Value, faults: &mut Faults)
        ensures { Finds faults.old faults.new (found self.now n (view row.now)) };
}

/// Finds what is wrong in each row, as long as it is looked for.
pub(crate) fn find_in_rows<R: Rows>(search: &R, rows: &[Value], faults: &mut Faults)
    ensures { Finds faults.old faults.new (all_of (R.found search.now) (views rows.now)) }
{
    for (n, row) in rows.iter().enumerate() {
        if faults.is_done() {
            return;
        }
        search.find_in_row(n, row, faults);
    }
}
