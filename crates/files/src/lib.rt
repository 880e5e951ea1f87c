// Files between suppliers and collectors: read, written, and read back to the same records.
#![tactic(auto)]

mod formats;
mod reader;
mod records;
mod writer;

pub use formats::MAX_FILE;
pub use reader::{
    File, ReadingsFile, ScheduleFile, StatementFile, read, read_readings, read_schedule,
    read_statement,
};
pub use records::{Intro, ReadingRecord, RecordIter, Records};
pub use writer::{
    notice, rewrite, statement_bytes, write_readings, write_schedule, write_statement,
};
