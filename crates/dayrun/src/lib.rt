// One day of a site with two suppliers: a schedule and its readings in, the lines that are sent out.
#![tactic(auto)]

ghost use Rattle.std.specs.Prelude.{◌≡◌, [], ◌∷◌, ◌++◌, map, take, IfOk, string_bytes, OnOk};
ghost use Rattle.std.specs.List.{flat_map};
ghost use Rattle.files.specs.Reads.{seen_by};
ghost use Rattle.book.specs.Kept.{kept, opened};
ghost use Rattle.season.specs.Outcomes.{state_in};
ghost use Rattle.dayrun.specs.Files.{rows_in, readings_in, files_read};
ghost use Rattle.dayrun.specs.Calls.{run_until, reading_call, day_calls, day_sent, site_terms, start};
ghost use Rattle.dayrun.specs.Texts.{line_text, refusal_text, answer_text, day_text};
ghost use Rattle.dayrun.specs.Seen.{files_seen};

use book::Book;
use domain::{AllocationRow, Fault, Line, PERIODS, Reading, Run, Slot, Terms};
use files::{Intro, ReadingRecord, ReadingsFile, ScheduleFile, read_readings, read_schedule};
use history::Dated;
use rules::House;
use season::{Call, Tables, apply};
use std::alloc::{AllocError, Global};

// The most bytes of input that are read.
pub const MAX_INPUT: usize = 40_000;

// The bytes of a schedule file.
const SCHEDULE_BYTES: usize = 1_648;

// The site: two places, one day, and a Relevant Capacity of 1,000 kWh.
const SITE: Terms = Terms {
    places: 2,
    days: 1,
    capacity: 1_000,
};

// The calls that register the two suppliers.
const FIRST_SUPPLIER: Call<'static> = Call::Register {
    place: 0,
    day: 0,
    supplier: 101,
};

const SECOND_SUPPLIER: Call<'static> = Call::Register {
    place: 1,
    day: 0,
    supplier: 102,
};

// The call that issues the day.
const ISSUE: Call<'static> = Call::Issue {
    day: 0,
    run: Run::Initial as u8,
};

// A slot for each Settlement Period of the day.
const PERIOD_SLOTS: usize = PERIODS as usize;

// A slot for each place and Settlement Period of the day.
const PLACE_SLOTS: usize = 2 * PERIOD_SLOTS;

// Room for two lines of each place and Settlement Period.
const JOURNAL_LINES: usize = 2 * PLACE_SLOTS;

// The two files of a day.
#[derive(Clone, Copy)]
struct DayFiles<'a> {
    schedule: ScheduleFile<'a>,
    readings: ReadingsFile<'a>,
}

// Reads the schedule file, which comes first, and the readings file behind it.
fn read_day(input: &[u8]) -> Result<DayFiles<'_>, Fault>
    ensures { seen_by files_seen result ≡ files_read input.now }
{
    let (input, _) = input.split_at(input.len().min(MAX_INPUT));
    let (schedule, readings) = input.split_at(input.len().min(SCHEDULE_BYTES));
    let schedule = read_schedule(schedule)?;
    let readings = read_readings(readings)?;
    Ok(DayFiles { schedule, readings })
}

// The rows of a schedule file.
fn schedule_rows(heap: Global, file: ScheduleFile<'_>) -> Result<Vec<AllocationRow>, AllocError>
    ensures { IfOk result (λ v. v.items ≡ rows_in file.entry.rows.bytes.now) }
{
    file.rows.iter().collect(heap)
}

// A new book of the site.
fn open_site() -> Book<House>
    ensures terms { result.terms ≡ site_terms }
    ensures keeps { kept result ≡ opened }
{
    Book::open(SITE, House)
}

// Makes a call, and answers only whether it was refused.
fn make(book: &mut Book<House>, tables: &mut Tables<'_>, call: Call<'_>) -> Result<(), Fault>
    ensures came { seen_by (λ _. state_in (kept book.new) tables.new) result ≡ run_until book.old.terms (state_in (kept book.old) tables.old) (call.entry ∷ []) }
    ensures terms { book.new.terms ≡ book.old.terms }
{
    apply(book, tables, &call)?;
    Ok(())
}

// Reads the readings of a file, one after the other, up to the first that is refused.
fn make_readings(
    book: &mut Book<House>,
    tables: &mut Tables<'_>,
    file: ReadingsFile<'_>,
) -> Result<(), Fault>
    ensures came { seen_by (λ _. state_in (kept book.new) tables.new) result ≡ run_until book.old.terms (state_in (kept book.old) tables.old) (map reading_call (readings_in file.entry.bytes.now)) }
    ensures terms { book.new.terms ≡ book.old.terms }
{
    for reading in file.iter() {
        let ReadingRecord {
            day,
            period,
            quality,
            kwh,
        } = reading;
        let call = Call::Reading {
            day,
            period,
            quality,
            kwh,
        };
        make(book, tables, call)?;
    }
    Ok(())
}

// Makes the calls of the day, up to the first that is refused.
fn make_calls(
    book: &mut Book<House>,
    tables: &mut Tables<'_>,
    files: DayFiles<'_>,
    schedule: &[AllocationRow],
) -> Result<(), Fault>
    ensures { seen_by (λ _. state_in (kept book.new) tables.new) result ≡ run_until book.old.terms (state_in (kept book.old) tables.old) (day_calls files.entry.schedule.intro.sender files.entry.schedule.intro.day files.entry.schedule.intro.moment schedule.now (readings_in files.entry.readings.bytes.now)) }
{
    let Intro {
        sender,
        day,
        moment,
    } = files.schedule.intro;
    let agreement = Call::Schedule {
        sender,
        day,
        moment,
        rows: schedule,
    };
    make(book, tables, FIRST_SUPPLIER)?;
    make(book, tables, SECOND_SUPPLIER)?;
    make(book, tables, agreement)?;
    make_readings(book, tables, files.readings)?;
    make(book, tables, ISSUE)
}

// Runs the day on a new book and blank tables, and answers how many lines it sent to the journal.
fn run_day(
    tables: &mut Tables<'_>,
    files: DayFiles<'_>,
    schedule: &[AllocationRow],
) -> Result<usize, Fault>
    ensures { seen_by (λ sent. take sent tables.new.journal.now) result ≡ day_sent site_terms (state_in opened tables.old) files.entry.schedule.intro.sender files.entry.schedule.intro.day files.entry.schedule.intro.moment schedule.now (readings_in files.entry.readings.bytes.now) }
{
    let mut book = open_site();
    make_calls(&mut book, tables, files, schedule)?;
    Ok(book.lines())
}

// Adds a refusal to the text. It chooses nothing: it is a function since a refusal is printed in two places.
fn put_refusal(text: &mut String, fault: Fault) -> Result<(), AllocError>
    ensures { OnOk result (string_bytes text.new ≡ string_bytes text.old ++ refusal_text fault) }
{
    write!(text, "{fault}\n")
}

// Adds the first lines of a journal to the text, so many at most.
// This function and the two below are no `Display`: each is printed once, and a type for each would be made for one `write!`.
fn put_lines(text: &mut String, journal: &[Line], sent: usize) -> Result<(), AllocError>
    ensures { OnOk result (string_bytes text.new ≡ string_bytes text.old ++ flat_map line_text (take sent journal.now)) }
{
    let lines = &journal[..journal.len().min(sent)];
    for line in lines {
        let Line {
            period,
            place,
            supplier,
            volume,
            ..
        } = *line;
        write!(text, "{period} {place} {supplier} {volume}\n")?;
    }
    Ok(())
}

// Adds the lines that were sent to the text, or only the refusal.
fn put_answer(
    text: &mut String,
    journal: &[Line],
    answer: Result<usize, Fault>,
) -> Result<(), AllocError>
    ensures { OnOk result (string_bytes text.new ≡ string_bytes text.old ++ answer_text (seen_by (λ sent. take sent journal.now) answer)) }
{
    match answer {
        Ok(sent) => put_lines(text, journal, sent),
        Err(fault) => put_refusal(text, fault),
    }
}

// Runs the day on blank tables, and adds what comes of it to the text.
fn put_day(
    text: &mut String,
    files: DayFiles<'_>,
    schedule: &[AllocationRow],
) -> Result<(), AllocError>
    ensures { OnOk result (string_bytes text.new ≡ string_bytes text.old ++ answer_text (day_sent site_terms start files.entry.schedule.intro.sender files.entry.schedule.intro.day files.entry.schedule.intro.moment schedule.now (readings_in files.entry.readings.bytes.now))) }
{
    let mut holders = [Dated::blank(0); 2];
    let mut rows = [Dated::blank(AllocationRow::NONE); PERIOD_SLOTS];
    let mut readings = [Reading::NONE; PERIOD_SLOTS];
    let mut issued = [Slot::NONE; PLACE_SLOTS];
    let mut journal = [Line::NONE; JOURNAL_LINES];
    let mut tables = Tables {
        holders: &mut holders,
        rows: &mut rows,
        readings: &mut readings,
        issued: &mut issued,
        journal: &mut journal,
    };
    let answer = run_day(&mut tables, files, schedule);
    put_answer(text, tables.journal, answer)
}

// What is printed for an input: the lines of its day, or only its refusal. It fails only for want of memory.
pub fn split_day(heap: Global, input: &[u8]) -> Result<Vec<u8>, AllocError>
    ensures { IfOk result (λ v. v.items ≡ day_text input.now) }
{
    let mut text = String::new(heap);
    match read_day(input) {
        Ok(files) => {
            let schedule = schedule_rows(heap, files.schedule)?;
            put_day(&mut text, files, schedule.as_slice())?;
        }
        Err(fault) => put_refusal(&mut text, fault)?,
    }
    Ok(text.into_bytes())
}
