ghost use Rattle.std.specs.List.{list_all};
ghost use Rattle.std.specs.Prelude.{◌≡◌, ◌≤◌, ◌++◌, not, true, All, IfOk, IfSome, option_map};
ghost use Rattle.csv.specs.Records.{fields_of};
ghost use Rattle.demand_feed.specs.BadField.{lacking_column};
ghost use Rattle.demand_feed.specs.Rows.{field_in, has_title_at, lacks_number, number_at, numbers_of};

use crate::field::{is_title, number_in};
use csv::ByteRecord;
use std::alloc::AllocError;

/// The field of a record in a column, if it has one. Columns count from 1.
pub(crate) fn field_in(row: &ByteRecord, column: u32) -> Option<&[u8]>
    requires { 1 ≤ column }
    ensures { option_map (λ field. field.now) result ≡ field_in (fields_of row.now) column }
{
    row.get(column as usize - 1)
}

/// The number of at most `most` in a column of a record, if there is one.
fn number_at(row: &ByteRecord, column: u32, most: u64) -> Option<u64>
    requires { 1 ≤ column }
    ensures { result ≡ number_at most (fields_of row.now) column }
{
    match field_in(row, column) {
        Some(field) => number_in(field, most),
        None => None,
    }
}

/// Whether a record has a title in a column.
fn has_title_at(row: &ByteRecord, column: u32) -> bool
    requires { 1 ≤ column }
    ensures { result ≡ has_title_at (fields_of row.now) column }
{
    match field_in(row, column) {
        Some(field) => is_title(field),
        None => false,
    }
}

/// Whether a record has a title in every used column.
pub(crate) fn has_titles(row: &ByteRecord, used: &[u32]) -> bool
    requires { All (λ column. 1 ≤ column) used.now }
    ensures { result ≡ list_all (has_title_at (fields_of row.now)) used.now }
{
    used.iter().all(|column| has_title_at(row, *column))
}

/// Adds the numbers in the used columns of a record, column by column; false where a column has none
/// of at most `most`.
pub(crate) fn add_numbers(
    numbers: &mut Vec<u64>,
    row: &ByteRecord,
    used: &[u32],
    most: u64,
) -> Result<bool, AllocError>
    requires { All (λ column. 1 ≤ column) used.now }
    ensures good { IfOk result (λ good. good ≡ not (lacks_number used.now most (fields_of row.now))) }
    ensures added { IfOk result (λ good. good ≡ true →
        numbers.new.items ≡ numbers.old.items ++ numbers_of used.now most (fields_of row.now)) }
{
    for column in used {
        let Some(number) = number_at(row, *column, most) else {
            return Ok(false);
        };
        numbers.push(number)?;
    }
    Ok(true)
}

/// The first of the used columns in which a record has no number of at most `most`, if there is one.
pub(crate) fn lacking_column(row: &ByteRecord, used: &[u32], most: u64) -> Option<u32>
    requires { All (λ column. 1 ≤ column) used.now }
    ensures column { result ≡ lacking_column used.now most (fields_of row.now) }
    ensures from_one { IfSome result (λ column. 1 ≤ column) }
{
    used.iter()
        .copied()
        .find(|column| number_at(row, *column, most).is_none())
}
