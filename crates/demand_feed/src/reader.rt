ghost use Rattle.std.specs.Prelude.{◌≡◌, [], IfOk, IfErr};
ghost use Rattle.csv.specs.Records.{fields_of};
ghost use Rattle.demand_feed.specs.Reader.{GivesNext, HasGiven, IsPlain};

use crate::error::FeedError;
use csv::{ByteRecord, ErrorKind, Reader, ReaderBuilder};
use std::alloc::Global;

/// A reader at the start of a file: no header of its own, records of unequal length allowed,
/// nothing trimmed.
pub(crate) fn open(alloc: Global, file: &[u8]) -> Reader<&[u8]>
    ensures { HasGiven file.now [] result }
{
    ReaderBuilder::new()
        .has_headers(false)
        .flexible(true)
        .from_reader(alloc, file)
}

/// Reads the next record into `row`; false at the end of the file.
pub(crate) fn read_next(reader: &mut Reader<&[u8]>, row: &mut ByteRecord) -> Result<bool, FeedError>
    requires { IsPlain reader.old }
    ensures next { IfOk result (GivesNext reader.old reader.new (fields_of row.new)) }
    ensures memory { IfErr result (λ error. error ≡ FeedError.NoMemory) }
{
    match reader.read_byte_record(row) {
        Ok(found) => Ok(found),
        Err(error) => match error.into_kind() {
            // Bytes in memory give no other fault, though a reader may.
            ErrorKind::OutOfMemory | ErrorKind::Io(_) => Err(FeedError::NoMemory),
            _ => unreachable!(),
        },
    }
}
