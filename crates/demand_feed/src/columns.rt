ghost use Rattle.std.specs.List.{position_or_len};
ghost use Rattle.std.specs.List.Sorted.{IsStrictlyIncreasing};
ghost use Rattle.std.specs.Prelude.{◌≡◌, ◌≤◌, ◌<◌, ◌==◌, All, Contains, IfErr, IfOk, Ok, length};
ghost use Rattle.demand_feed.specs.FeedError.{TellsBadRecord};
ghost use Rattle.demand_feed.specs.JobTimes.{field_of, numbers_in};
ghost use Rattle.demand_feed.specs.Times.{times_of};
ghost use Rattle.line_base.specs.declared.limits.TheConstants.{MAX_CHECKPOINT_BYTES, MAX_COLUMN, MAX_TIME};

use crate::error::FeedError;
use crate::rows::{Rows, read_rows};
use line_base::{MAX_CHECKPOINT_BYTES, MAX_COLUMN, MAX_TIME};
use std::alloc::{AllocError, Global};
use std::marker::Model;

/// The job times in some columns of a times file. Contracts see the columns, and for each job the
/// row of its times.
#[derive(Drop)]
pub struct Columns {
    columns: Vec<u32>,
    // The times of the first job, column by column, then those of the second, and so on.
    times: Vec<u64>,
    jobs: u32,
}

impl Model for Columns {
    ghost use Rattle.demand_feed.specs.JobTimes.{IsFilled, JobTimes, job_times};

    ghost Value = { JobTimes };

    ghost view = { λ c. job_times c.columns.items c.jobs c.times.items };

    ghost invariant = { λ c. IsFilled c.columns.items c.jobs c.times.items };
}

impl Columns {
    /// How many jobs there are.
    pub fn records(&self) -> u32
        ensures count { result ≡ length self.now.rows }
        ensures limit { All (λ row. All (λ time. time ≤ MAX_TIME) row) self.now.rows }
    {
        self.jobs
    }

    /// The time of a job in one of the columns, in the plant's unit of time. Jobs and columns count
    /// from 1.
    pub fn field(&self, job: u32, column: u32) -> u64
        requires job { (1 ≤ job) × (job ≤ length self.now.rows) }
        requires column { Contains self.now.columns column }
        ensures time { result ≡ field_of self.now job column }
        ensures limit { result ≤ MAX_TIME }
    {
        let columns = self.columns.as_slice();
        let index = index_of(columns, column);
        self.times[(job as usize - 1) * columns.len() + index]
    }

    /// The times in one of the columns, job by job, in the plant's unit of time. Columns count from 1. The column is
    /// looked for once.
    pub fn column(&self, alloc: Global, column: u32) -> Result<Vec<u64>, AllocError>
        requires { Contains self.now.columns column }
        ensures { IfOk result (λ times. times.items ≡ numbers_in self.now column) }
    {
        let columns = self.columns.as_slice();
        let index = index_of(columns, column);
        let mut times = Vec::with_capacity(alloc, self.jobs as usize)?;
        for job in 0..self.jobs as usize {
            times.push(self.times[job * columns.len() + index])?;
        }
        Ok(times)
    }
}

/// The index of a column among columns that rise.
fn index_of(columns: &[u32], column: u32) -> usize
    requires ascending { IsStrictlyIncreasing columns.now }
    requires there { Contains columns.now column }
    ensures index { result ≡ position_or_len (λ other. other == column) columns.now }
    ensures within { result < length columns.now }
{
    let Ok(index) = columns.binary_search(&column) else {
        unreachable!()
    };
    index
}

/// Reads the job times in these columns of a times file, in the plant's unit of time. Columns count
/// from 1, and each record but a header is a job.
///
/// A time is 1 to 20 decimal digits of a value of at most 10^9, with any spaces and tabs around it.
/// The first record is a header where it begins with an ASCII letter in each of these columns.
/// `BadRecord` names the first other record that lacks a time in one of the columns. Records are
/// those of RFC 4180 as the crate `csv` reads them, of any number of fields each; a byte order mark
/// at the beginning is no part of the first.
pub fn read_times(alloc: Global, bytes: &[u8], columns: &[u32]) -> Result<Columns, FeedError>
    requires size { length bytes.now ≤ MAX_CHECKPOINT_BYTES }
    requires ascending { IsStrictlyIncreasing columns.now }
    requires in_range { All (λ column. (1 ≤ column) × (column ≤ MAX_COLUMN)) columns.now }
    ensures columns { IfOk result (λ table. table.columns ≡ columns.now) }
    ensures times { IfOk result (λ table. times_of columns.now bytes.now ≡ Ok table) }
    ensures bad_record { IfErr result (TellsBadRecord (times_of columns.now bytes.now)) }
{
    let kept = Vec::from_slice(alloc, columns)?;
    let Rows { numbers, jobs } = read_rows(alloc, bytes, columns, MAX_TIME)?;
    Ok(Columns {
        columns: kept,
        times: numbers,
        jobs: jobs as u32,
    })
}
