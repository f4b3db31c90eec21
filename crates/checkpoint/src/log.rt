//! Lists of dates, as a line has them.
ghost use Rattle.std.specs.Prelude.{◌≡◌, ◌^◌, ◌<◌, ◌≤◌, ◌++◌, [], length, true, if◌then◌else◌, nat_lt, decimal, codes, IfSome, IfOk};
ghost use Rattle.checkpoint.specs.Reading.{KeepsDates, KeepsLine, TellsCount, TellsDate, TellsDates, TellsLine};
ghost use Rattle.checkpoint.specs.Text.{date_word};
ghost use Rattle.line_base.specs.Roomy.{with_date};
ghost use Rattle.line_core.specs.Parts.{LATEST_GIVEN};

use crate::error::Stop;
use crate::format::Format;
use crate::reader::Reader;
use crate::words::date_of;
use line_base::{Date, Log, number_of};
use std::alloc::Global;

/// Reads how many dates follow, where this many may stand in what is left.
pub fn read_count(reader: &mut Reader) -> Option<u32>
    requires { length reader.old.rest < 2 ^ 32 }
    ensures read { IfSome result (λ count. reader.old.rest ≡ decimal count ++ reader.new.rest) }
    ensures few { IfSome result (λ count. count < 2 ^ 31) }
    ensures tells { TellsCount reader.old.rest result reader.new.rest }
    ensures text { reader.new.text ≡ reader.old.text }
{
    let number = number_of(reader.word(), u64::MAX)?;
    let most = reader.rest().len() / 2;
    if number > most as u64 {
        return None;
    }
    Some(number as u32)
}

/// Reads a date that follows another one, behind a space.
pub fn read_date(reader: &mut Reader, format: Format, before: Date) -> Option<Date>
    requires { before ≤ LATEST_GIVEN }
    ensures read { IfSome result (λ date. reader.old.rest
        ≡ codes " " ++ (date_word format before date ++ reader.new.rest)) }
    ensures given { IfSome result (λ date. date ≤ LATEST_GIVEN) }
    ensures tells { TellsDate format before reader.old.rest result reader.new.rest }
    ensures text { reader.new.text ≡ reader.old.text }
{
    if !reader.pass(b" ") {
        return None;
    }
    date_of(reader.word(), format, before)
}

/// Adds a date to a log, where it is one of the first `room` dates of its line.
fn keep_date(log: &mut Log, number: u32, room: u32, date: Date)
    requires room { room ≤ log.old.room }
    requires so_far { length log.old.dates ≤ number }
    ensures { log.new ≡ (if nat_lt number room then with_date log.old date else log.old) }
{
    if number < room {
        log.add(date);
    }
}

/// Reads this many dates. An empty log keeps the first ones, as many as it has room for.
fn read_dates(reader: &mut Reader, log: &mut Log, format: Format, count: u32, room: u32) -> bool
    requires empty { log.old.dates ≡ [] }
    requires room { room ≤ log.old.room }
    ensures read { result ≡ true
        → KeepsDates format count room reader.old.rest log.new.dates reader.new.rest }
    ensures tells { TellsDates format count reader.old.rest result reader.new.rest }
    ensures room { log.new.room ≡ log.old.room }
    ensures text { reader.new.text ≡ reader.old.text }
{
    let mut before = 0;
    for number in 0..count {
        let Some(date) = read_date(reader, format, before) else {
            return false;
        };
        keep_date(log, number, room, date);
        before = date;
    }
    true
}

/// The dates of a line: how many there are, and the first ones.
#[derive(Drop)]
pub struct LineDates {
    /// How many dates there are.
    pub count: u32,
    /// The first dates, as many as the log has room for.
    pub log: Log,
}

/// Reads how many dates a line has, the dates, and the end of the line. A log with this room keeps the first dates.
pub fn read_log(
    reader: &mut Reader,
    alloc: Global,
    format: Format,
    room: u32,
) -> Result<LineDates, Stop>
    requires { length reader.old.rest < 2 ^ 32 }
    ensures read { IfOk result
        (λ line. KeepsLine format [] line.count room reader.old.rest line.log.dates reader.new.rest) }
    ensures room { IfOk result (λ line. line.log.room ≡ room) }
    ensures tells { TellsLine format [] reader.old.rest result }
    ensures text { reader.new.text ≡ reader.old.text }
{
    let Some(count) = read_count(reader) else {
        return Err(Stop::Form);
    };
    let Ok(mut log) = Log::new(alloc, room) else {
        return Err(Stop::Memory);
    };
    if !read_dates(reader, &mut log, format, count, room) {
        return Err(Stop::Form);
    }
    if !reader.pass(b"\n") {
        return Err(Stop::Form);
    }
    Ok(LineDates { count, log })
}
