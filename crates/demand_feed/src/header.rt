//! The header of a demand file.
ghost use Rattle.std.specs.Prelude.{◌≡◌, ◌≤◌, ◌∷◌, [], All, IfOk};
ghost use Rattle.csv.specs.Records.{fields_of};
ghost use Rattle.demand_feed.specs.Dates.{date_columns};
ghost use Rattle.demand_feed.specs.Records.{records_of};
ghost use Rattle.demand_feed.specs.Rows.{headers_of};

use crate::error::FeedError;
use crate::reader::{open, read_next};
use crate::rows::is_header;
use csv::ByteRecord;
use std::alloc::Global;

/// How many records of a demand file stand before that of its first job, where its dates stand in this column: 1 where
/// the first record is a header, else 0. Columns count from 1.
pub fn header_count(alloc: Global, bytes: &[u8], column: u32) -> Result<u64, FeedError>
    requires { 1 ≤ column }
    ensures { IfOk result (λ count. count ≡ headers_of (date_columns column) (records_of bytes.now)) }
{
    let mut reader = open(alloc, bytes);
    let mut row = ByteRecord::new(alloc);
    let count = if read_next(&mut reader, &mut row)? {
        headers_in(&row, &[column])
    } else {
        0
    };
    drop(row);
    drop(reader);
    Ok(count)
}

/// How many headers there are, where this is the first record.
fn headers_in(row: &ByteRecord, used: &[u32]) -> u64
    requires { All (λ column. 1 ≤ column) used.now }
    ensures { result ≡ headers_of used.now (fields_of row.now ∷ []) }
{
    if is_header(1, row, used) { 1 } else { 0 }
}
