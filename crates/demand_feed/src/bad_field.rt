//! What stands in the first bad record of a file where a number is wanted.
ghost use Rattle.std.specs.List.{prefix_len};
ghost use Rattle.std.specs.Prelude.{◌≡◌, ◌≤◌, All, IfOk, length, min};
ghost use Rattle.csv.specs.Records.{fields_of};
ghost use Rattle.demand_feed.specs.BadField.{prints, most_shown, printable_part, lacking_column, field_at, bad_field};
ghost use Rattle.demand_feed.specs.Dates.{date_columns};
ghost use Rattle.demand_feed.specs.Records.{records_of};
ghost use Rattle.line_base.specs.Limits.{last_demand, longest_time};

use crate::error::FeedError;
use crate::reader::{open, read_next};
use crate::row::{field_in, lacking_column};
use crate::rows::is_header;
use csv::ByteRecord;
use line_base::{MAX_DEMAND_DATE, MAX_TIME, Text};
use std::alloc::{AllocError, Global};

/// The most characters of a field that are shown.
const MOST_SHOWN: usize = 60;

/// The first field of a bad record that is no number within its limit.
#[derive(Drop)]
pub struct BadField {
    /// Its column, counted from 1.
    pub column: u32,
    /// The field as far as its characters are printable ones of ASCII, 60 of them at most; none where the record has
    /// fewer fields.
    pub text: Option<Text>,
}

/// What stands in the first bad record of a demand file, of which the dates stand in this column; none where no record
/// is bad. Columns count from 1.
pub fn bad_date(alloc: Global, bytes: &[u8], column: u32) -> Result<Option<BadField>, FeedError>
    requires { 1 ≤ column }
    ensures { IfOk result (λ found. found ≡ bad_field (date_columns column) last_demand (records_of bytes.now)) }
{
    find_bad_field(alloc, bytes, &[column], MAX_DEMAND_DATE)
}

/// What stands in the first bad record of a times file, of which these columns are used; none where no record is bad.
/// Columns count from 1.
pub fn bad_time(alloc: Global, bytes: &[u8], columns: &[u32]) -> Result<Option<BadField>, FeedError>
    requires { All (λ column. 1 ≤ column) columns.now }
    ensures { IfOk result (λ found. found ≡ bad_field columns.now longest_time (records_of bytes.now)) }
{
    find_bad_field(alloc, bytes, columns, MAX_TIME)
}

/// The same of a file in these columns, whose numbers are at most `most`.
fn find_bad_field(
    alloc: Global,
    file: &[u8],
    used: &[u32],
    most: u64,
) -> Result<Option<BadField>, FeedError>
    requires { All (λ column. 1 ≤ column) used.now }
    ensures { IfOk result (λ found. found ≡ bad_field used.now most (records_of file.now)) }
{
    let mut reader = open(alloc, file);
    let mut row = ByteRecord::new(alloc);
    let mut number = 0;
    'records: while read_next(&mut reader, &mut row)? {
        number += 1;
        if is_header(number, &row, used) {
            continue;
        }
        if let Some(column) = lacking_column(&row, used, most) {
            let found = field_at(alloc, &row, column);
            drop(row);
            drop(reader);
            return Ok(Some(found?));
        }
    }
    drop(row);
    drop(reader);
    Ok(None)
}

/// The field of a record in a column, as far as it is printable.
fn field_at(alloc: Global, row: &ByteRecord, column: u32) -> Result<BadField, AllocError>
    requires { 1 ≤ column }
    ensures { IfOk result (λ found. found ≡ field_at (fields_of row.now) column) }
{
    let text = match field_in(row, column) {
        Some(field) => Some(printable_part(alloc, field)?),
        None => None,
    };
    Ok(BadField { column, text })
}

/// A field as far as it is printable, and no longer than is shown.
fn printable_part(alloc: Global, field: &[u8]) -> Result<Text, AllocError>
    ensures { IfOk result (λ text. text ≡ printable_part field.now) }
{
    let Ok(text) = str::from_utf8(&field[..shown_count(field)]) else {
        // Characters of ASCII are text.
        return Err(AllocError);
    };
    Text::of(alloc, text)
}

/// How many characters of a field are shown.
fn shown_count(field: &[u8]) -> usize
    ensures count { result ≡ min most_shown (prefix_len prints field.now) }
    ensures within { result ≤ length field.now }
{
    let printable = printable_count(field);
    if printable < MOST_SHOWN {
        printable
    } else {
        MOST_SHOWN
    }
}

/// With how many printable characters a field begins.
fn printable_count(field: &[u8]) -> usize
    ensures count { result ≡ prefix_len prints field.now }
    ensures within { result ≤ length field.now }
{
    field.iter().take_while(|byte| prints(**byte)).count()
}

/// Whether a byte is a blank, or another printable character of ASCII.
fn prints(byte: u8) -> bool
    ensures { result ≡ prints byte }
{
    matches!(byte, 32..=126)
}
