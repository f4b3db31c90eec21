ghost use Rattle.std.specs.Prelude.{◌≡◌, ◌≤◌, All, IfOk, IfErr};
ghost use Rattle.csv.specs.Records.{fields_of};
ghost use Rattle.demand_feed.specs.FeedError.{TellsBadRecord};
ghost use Rattle.demand_feed.specs.Records.{records_of};
ghost use Rattle.demand_feed.specs.Rows.{HoldsRows, is_header, rows_of};

use crate::error::FeedError;
use crate::reader::{open, read_next};
use crate::row::{add_numbers, has_titles};
use csv::ByteRecord;
use std::alloc::Global;

/// The numbers of the jobs of a file, one job after the other.
#[derive(Drop)]
pub(crate) struct Rows {
    /// The numbers in the used columns of the first job, then those of the second, and so on.
    pub(crate) numbers: Vec<u64>,
    /// How many jobs there are.
    pub(crate) jobs: u64,
}

/// Whether a record, counted from 1, is a header: the first one, with a title in every used column.
pub(crate) fn is_header(number: u64, row: &ByteRecord, used: &[u32]) -> bool
    requires { All (λ column. 1 ≤ column) used.now }
    ensures { result ≡ is_header used.now (number, fields_of row.now) }
{
    number == 1 && has_titles(row, used)
}

/// Reads the numbers of at most `most` in the used columns of each record but a header.
pub(crate) fn read_rows(
    alloc: Global,
    file: &[u8],
    used: &[u32],
    most: u64,
) -> Result<Rows, FeedError>
    requires { All (λ column. 1 ≤ column) used.now }
    ensures rows { IfOk result (λ rows.
        HoldsRows (rows_of used.now most (records_of file.now)) rows.numbers.items rows.jobs) }
    ensures bad_record { IfErr result (TellsBadRecord (rows_of used.now most (records_of file.now))) }
{
    let mut reader = open(alloc, file);
    let mut row = ByteRecord::new(alloc);
    let mut numbers = Vec::new(alloc);
    let mut jobs = 0;
    let mut number = 0;
    'records: while read_next(&mut reader, &mut row)? {
        number += 1;
        if is_header(number, &row, used) {
            continue;
        }
        if !add_numbers(&mut numbers, &row, used, most)? {
            drop(row);
            drop(reader);
            return Err(FeedError::BadRecord { number });
        }
        jobs += 1;
    }
    drop(row);
    drop(reader);
    Ok(Rows { numbers, jobs })
}
