// What is printed of a file, for a person.

#![tactic(auto)]

ghost use Rattle.std.specs.Prelude.{◌≡◌, ◌++◌, Some, IfOk, string_bytes, OnOk};
ghost use Rattle.files.specs.Reads.{told_schedule, told_readings, told_statement};
ghost use Rattle.listing.specs.Texts.{row_text, words, told_text, listing_of};

use domain::{AllocationRow, Fault};
use files::{File, Intro, MAX_FILE, ReadingsFile, ScheduleFile, StatementFile, read};
use std::alloc::{AllocError, Global};
use std::fmt;

// What a refusal means.
fn meaning(fault: Fault) -> &'static str
    ensures { result.now ≡ words fault }
{
    match fault {
        Fault::FileTooShort { .. } => "the file has fewer bytes than a header",
        Fault::AnotherMark => "the file does not begin with the mark SSM",
        Fault::AnotherVersion => "the file has another version than 1",
        Fault::AnotherKind => "the file is of another kind than is read here",
        Fault::CountNotAllowed => "the file's kind does not allow this count of records",
        Fault::AnotherLength { .. } => "the file is longer or shorter than its kind and count give",
        Fault::TermOutsideLimits { .. } => "a term of the book is outside its limits",
        Fault::ArgumentOutsideLimits { .. } => "an argument is outside its limits",
        Fault::UnlawfulRow { .. } => "the rule does not allow the row of this period",
        Fault::AfterGate { .. } => "it came after the day's gate",
        Fault::AnotherSize { .. } => "this table has another size than the terms give",
        Fault::OutputTooShort { .. } => "the buffer is too short for the bytes needed",
        Fault::Spoiled { .. } => "this table holds less than it should, or a number that cannot be",
        Fault::SenderNotPrimary { .. } => "the sender does not hold place 0 on this day",
        Fault::SharingEnded { .. } => "the sharing ends on this day",
        Fault::DayClosed { .. } => "this day is closed",
        Fault::EstimateOverActual { .. } => "an actual reading stands in this period",
        Fault::ReadingMissing { .. } => "the reading of this period is missing",
        Fault::HolderMissing { .. } => "this place has no holder",
        Fault::JournalTooShort { .. } => "the journal is too short for the lines needed",
        Fault::HistoryFull { .. } => "the history is too short for the entries needed",
    }
}

// A row as it is printed: its period, then what it says.
#[derive(Clone, Copy)]
struct PeriodRow {
    period: usize,
    row: AllocationRow,
}

impl fmt::Display for PeriodRow {
    ghost output = { λ line. Some (row_text line.period line.row) };

    fn fmt<W: fmt::Write>(&self, f: &mut fmt::Formatter<W>) -> fmt::Result {
        let period = self.period;
        let AllocationRow {
            method,
            balance,
            nominations,
        } = self.row;
        write!(f, "{period} {method} {balance}")?;
        for nomination in nominations.as_slice() {
            write!(f, " {nomination}")?;
        }
        write!(f, "\n")
    }
}

// Adds a schedule to the text. This function and the two below are no `Display`: each is printed once, and a type for each would be made for one `write!`.
fn put_schedule(text: &mut String, file: ScheduleFile<'_>) -> Result<(), AllocError>
    ensures { OnOk result (string_bytes text.new ≡ string_bytes text.old ++ told_text (told_schedule file.entry)) }
{
    let count = file.rows.len();
    let Intro {
        sender,
        day,
        moment,
    } = file.intro;
    write!(
        text,
        "schedule: {count} rows, sender {sender}, day {day}, moment {moment}\nperiod method balance n0 n1 n2 n3 n4 n5 n6 n7\n"
    )?;
    for (period, row) in (1..).zip(file.rows.iter()) {
        let line = PeriodRow { period, row };
        write!(text, "{line}")?;
    }
    Ok(())
}

// Adds a readings file to the text. Its loop and that of a statement stay two: one function would take any iterator of what prints, and be no plainer.
fn put_readings(text: &mut String, file: ReadingsFile<'_>) -> Result<(), AllocError>
    ensures { OnOk result (string_bytes text.new ≡ string_bytes text.old ++ told_text (told_readings file.entry)) }
{
    let count = file.len();
    write!(text, "readings: {count} records\nday period quality kwh\n")?;
    for reading in file.iter() {
        write!(text, "{reading}\n")?;
    }
    Ok(())
}

// Adds a statement to the text.
fn put_statement(text: &mut String, file: StatementFile<'_>) -> Result<(), AllocError>
    ensures { OnOk result (string_bytes text.new ≡ string_bytes text.old ++ told_text (told_statement file.entry)) }
{
    let count = file.len();
    write!(
        text,
        "statement: {count} lines\nday period place supplier run volume\n"
    )?;
    for line in file.iter() {
        write!(text, "{line}\n")?;
    }
    Ok(())
}

// The text that is printed of the bytes. It fails only for want of memory.
pub fn listing(heap: Global, input: &[u8]) -> Result<String, AllocError>
    ensures { IfOk result (λ s. string_bytes s ≡ listing_of input.now) }
{
    let mut text = String::new(heap);
    if input.len() > MAX_FILE {
        write!(text, "more bytes than a file can have: at most 45064\n")?;
        return Ok(text);
    }
    match read(input) {
        Ok(File::Schedule(file)) => put_schedule(&mut text, file)?,
        Ok(File::Readings(file)) => put_readings(&mut text, file)?,
        Ok(File::Statement(file)) => put_statement(&mut text, file)?,
        Err(fault) => write!(text, "{fault}: {}\n", meaning(fault))?,
    }
    Ok(text)
}
