//! How the lines of a station begin, job after job.
ghost use Rattle.std.specs.Prelude.{◌≡◌, ◌+◌, ◌%◌, ◌<◌, ◌≤◌, ◌++◌, IsTrue, codes, decimal, length, take};
ghost use Rattle.line_base.specs.Text.{is_label};
ghost use Rattle.line_report.specs.Portions.{start_text};

use crate::line_end::write_number_and;
use std::marker::Model;

/// The bytes of a start: no less than a label, the number of a job and two spaces have.
pub const WIDTH: usize = 64;

/// The longest label.
const MAX_LABEL: usize = 49;

/// The most jobs with room in a start.
const MAX_JOB: u32 = 99_999;

/// How the line of a date begins: the label of its station, a space, the number of its job, and a space. From one job
/// to the next mostly one digit changes. Contracts see the label and the job.
#[derive(Drop)]
pub struct LineStart {
    text: [u8; WIDTH],
    label: usize,
    end: usize,
    job: u32,
}

impl Model for LineStart {
    ghost use Rattle.std.specs.Prelude.{◌≡◌, ◌+◌, ◌≤◌, ◌++◌, codes, decimal, take};
    ghost use Rattle.line_report.specs.Portions.{LineStart};
    ghost use Rattle.line_report.specs.declared.line_start.TheConstants.{MAX_LABEL, MAX_JOB, WIDTH};

    ghost Value = { LineStart };

    ghost view = { λ s. record { label = take s.label s.text; job = s.job } };

    ghost invariant = { λ s. (s.label ≤ MAX_LABEL) × (s.job ≤ MAX_JOB) × (s.end ≤ WIDTH)
        × (take (s.label + 1) s.text ≡ take s.label s.text ++ codes " ")
        × (take s.end s.text ≡ take (s.label + 1) s.text ++ (decimal s.job ++ codes " ")) };
}

/// Writes the number of a job and a space from `at` on, and answers where they end.
fn write_job(text: &mut [u8], at: usize, job: u32) -> usize
    requires job { job ≤ MAX_JOB }
    requires room { at + 6 ≤ length text.old }
    ensures written { take result text.new ≡ take at text.old ++ (decimal job ++ codes " ") }
    ensures end { result ≤ at + 6 }
{
    write_number_and(text, at, job as u64, b' ')
}

/// Raises the last digit of the number of a job, which ends with a space at `end`.
fn raise_digit(text: &mut [u8], at: usize, end: usize, job: u32)
    requires low { job % 10 < 9 }
    requires few { job < 100_000 }
    requires at { at ≤ length text.old }
    requires end { end ≤ length text.old }
    requires job { take end text.old ≡ take at text.old ++ (decimal job ++ codes " ") }
    ensures { take end text.new ≡ take at text.old ++ (decimal (job + 1) ++ codes " ") }
{
    text[end - 2] = b'1' + (job % 10) as u8;
}

/// Writes the number of the next job and a space over those of a job, from `at` to `end`, and answers where they end.
fn write_next(text: &mut [u8], at: usize, end: usize, job: u32) -> usize
    requires room { at + 6 ≤ length text.old }
    requires end { end ≤ length text.old }
    requires few { job < MAX_JOB }
    requires job { take end text.old ≡ take at text.old ++ (decimal job ++ codes " ") }
    ensures written { take result text.new ≡ take at text.old ++ (decimal (job + 1) ++ codes " ") }
    ensures end { result ≤ length text.old }
{
    if job % 10 < 9 {
        raise_digit(text, at, end, job);
        end
    } else {
        write_job(text, at, job + 1)
    }
}

/// Writes a label and a space, and answers where they end.
fn write_label(text: &mut [u8], label: &[u8]) -> usize
    requires { length label.now < length text.old }
    ensures label { take (length label.now) text.new ≡ label.now }
    ensures written { take result text.new ≡ label.now ++ codes " " }
    ensures end { result ≡ length label.now + 1 }
{
    let at = label.len();
    text[..at].copy_from_slice(label);
    text[at] = b' ';
    at + 1
}

impl LineStart {
    /// The start of the line of a job at the station with this label.
    pub fn of(label: &[u8], job: u32) -> LineStart
        requires label { IsTrue (is_label label.now) }
        requires job { job ≤ MAX_JOB }
        ensures { result ≡ record { label = label.now; job = job } }
    {
        let mut text = [0; WIDTH];
        let at = write_label(&mut text, label);
        let end = write_job(&mut text, at, job);
        LineStart {
            text,
            label: label.len(),
            end,
            job,
        }
    }

    /// Goes to the next job.
    pub fn next(&mut self)
        requires { self.old.job < MAX_JOB }
        ensures { self.new ≡ record { label = self.old.label; job = self.old.job + 1 } }
    {
        self.end = write_next(&mut self.text, self.label + 1, self.end, self.job);
        self.job += 1;
    }

    /// Writes the start from `at` on, and answers where it ends.
    pub fn write(&self, room: &mut [u8], at: usize) -> usize
        requires { at + WIDTH ≤ length room.old }
        ensures written { take result room.new ≡ take at room.old ++ start_text self.now }
        ensures end { result ≤ at + WIDTH }
    {
        room[at..at + WIDTH].copy_from_slice(&self.text);
        at + self.end
    }
}
