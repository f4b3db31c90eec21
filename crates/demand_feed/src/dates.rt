ghost use Rattle.std.specs.Prelude.{◌≡◌, ◌≤◌, ◌<◌, All, IfErr, IfOk, Ok, vec_len};
ghost use Rattle.demand_feed.specs.Dates.{dates_of};
ghost use Rattle.demand_feed.specs.FeedError.{TellsBadRecord};
ghost use Rattle.line_base.specs.declared.limits.TheConstants.{MAX_DEMAND_DATE};

use crate::error::FeedError;
use crate::rows::{Rows, read_rows};
use line_base::{Date, MAX_DEMAND_DATE};
use std::alloc::Global;

/// Reads the dates in this column of a demand file, in the plant's unit of time: one of each record
/// but a header. Columns count from 1.
///
/// A date is 1 to 20 decimal digits of a value of at most 10^12, with any spaces and tabs around it.
/// The first record is a header where its field in this column begins with an ASCII letter.
/// `BadRecord` names the first other record that has no date in this column, and is 0 where the file
/// has no date. Records are those of RFC 4180 as the crate `csv` reads them, of any number of fields
/// each; a byte order mark at the beginning is no part of the first.
pub fn read_dates(alloc: Global, bytes: &[u8], column: u32) -> Result<Vec<Date>, FeedError>
    requires { 1 ≤ column }
    ensures dates { IfOk result (λ dates. dates_of column bytes.now ≡ Ok dates.items) }
    ensures bad_record { IfErr result (TellsBadRecord (dates_of column bytes.now)) }
    ensures some { IfOk result (λ dates. 0 < vec_len dates) }
    ensures limit { IfOk result (λ dates. All (λ date. date ≤ MAX_DEMAND_DATE) dates.items) }
{
    let Rows { numbers, jobs } = read_rows(alloc, bytes, &[column], MAX_DEMAND_DATE)?;
    if jobs == 0 {
        return Err(FeedError::BadRecord { number: 0 });
    }
    Ok(numbers)
}
