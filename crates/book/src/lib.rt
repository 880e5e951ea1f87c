// The book of one shared meter in one direction, and its calls.
#![tactic(auto)]

ghost use Rattle.std.specs.Prelude.{◌≡◌, ℕ, ◌+◌, ◌*◌, ◌<◌, ◌≤◌, Bool, length, replicate};
ghost use Rattle.domain.specs.Checks.{settled, no_reading, no_volume};
ghost use Rattle.book.specs.Kept.{kept, opened};
ghost use Rattle.book.specs.Readings.{blank_answer, reading_answer, with_reading};
ghost use Rattle.book.specs.Gates.{GateKept};
ghost use Rattle.book.specs.Volumes.{volume_answer, directed, issued_volume};

use domain::{
    Fault, MAX_DAYS, MAX_KWH, Quality, Reading, Slot, Table, Terms, admit, is_period, is_quality,
    issued_slot, reading_slot,
};
use files::ReadingRecord;
use rules::Rule;

mod issues;
mod notices;
mod sharing;
mod statements;

pub use notices::Receipt;

// The days that a book has room for.
const DAYS: usize = MAX_DAYS as usize;

// What a book keeps. The tables that its calls work on are lent to each call.
// A refusal names an argument by its number in the call, so the arguments of a call stand one by one.
#[derive(Drop)]
pub struct Book<R> {
    terms: Terms,
    rule: R,
    // entries held in the tables of holders and of rows, and lines sent to the journal
    holders: usize,
    rows: usize,
    lines: usize,
    // the day from which the sharing has ended
    ended: Option<u16>,
    // a flag for each day that a book can have, since it has no heap
    closed: [bool; DAYS],
}

impl<R: Rule> Book<R> {
    // A book with no entries, lines or end, and all days open.
    pub fn open(terms: Terms, rule: R) -> Book<R>
        ensures of { (result.terms ≡ terms) × (result.rule ≡ rule) }
        ensures keeps { kept result ≡ opened }
    {
        Book {
            terms,
            rule,
            holders: 0,
            rows: 0,
            lines: 0,
            ended: None,
            closed: [false; DAYS],
        }
    }

    // Empties every slot of the tables of readings and of what was issued.
    pub fn blank(&self, readings: &mut [Reading], issued: &mut [Slot]) -> Result<(), Fault>
        ensures answer { result ≡ blank_answer self.now.terms readings.old issued.old }
        ensures readings { readings.new ≡ settled result (replicate (length readings.old) no_reading) readings.old }
        ensures issued { issued.new ≡ settled result (replicate (length issued.old) no_volume) issued.old }
    {
        self.terms.fit_readings(readings)?;
        self.terms.fit_issued(issued)?;
        readings.fill(Reading::NONE);
        issued.fill(Slot::NONE);
        Ok(())
    }

    // Puts a reading into its slot.
    pub fn reading(
        &self,
        readings: &mut [Reading],
        day: u16,
        period: u8,
        quality: u8,
        kwh: u32,
    ) -> Result<(), Fault>
        ensures answer { result ≡ reading_answer self.now.terms (kept self.now) readings.old day period quality kwh }
        ensures after { readings.new ≡ settled result (with_reading readings.old day period quality kwh) readings.old }
    {
        let reading = ReadingRecord {
            day,
            period,
            quality,
            kwh,
        };
        self.admit_reading(readings, reading)?;
        readings[reading_slot(day, period)] = Reading { quality, kwh };
        Ok(())
    }

    fn admit_reading(&self, readings: &[Reading], reading: ReadingRecord) -> Result<(), Fault>
        ensures { result ≡ reading_answer self.now.terms (kept self.now) readings.now reading.day reading.period reading.quality reading.kwh }
    {
        let ReadingRecord {
            day,
            period,
            quality,
            kwh,
        } = reading;
        admit(1, self.terms.has_day(day))?;
        admit(2, is_period(period))?;
        admit(3, is_quality(quality))?;
        admit(4, kwh <= MAX_KWH)?;
        self.terms.fit_readings(readings)?;
        let was = readings[reading_slot(day, period)];
        if was.is_spoiled() {
            return Err(Fault::Spoiled {
                table: Table::Readings,
            });
        }
        if self.closed[usize::from(day)] {
            return Err(Fault::DayClosed { day });
        }
        let estimated = Quality::try_from(quality) == Ok(Quality::Estimated);
        if estimated && Quality::try_from(was.quality) == Ok(Quality::Actual) {
            return Err(Fault::EstimateOverActual { period });
        }
        Ok(())
    }

    // How many lines it has sent.
    pub fn lines(&self) -> usize
        ensures { result ≡ self.now.lines }
    {
        self.lines
    }

    // What was last issued to a place: kWh in the book's direction and virtual kWh in the other, or none.
    pub fn volume(
        &self,
        issued: &[Slot],
        day: u16,
        period: u8,
        place: u8,
    ) -> Result<Option<(u32, u32)>, Fault>
        ensures { result ≡ volume_answer self.now.terms issued.now day period place }
    {
        admit(1, self.terms.has_day(day))?;
        admit(2, is_period(period))?;
        admit(3, self.terms.has_place(place))?;
        self.terms.fit_issued(issued)?;
        let slot = issued[issued_slot(self.terms.places, day, period, place)];
        if slot.is_spoiled() {
            return Err(Fault::Spoiled {
                table: Table::Issued,
            });
        }
        Ok(issued_volume(slot))
    }
}

fn issued_volume(slot: Slot) -> Option<(u32, u32)>
    ensures { result ≡ issued_volume slot }
{
    let kwh = slot.volume.unsigned_abs();
    let directed = if slot.volume < 0 { (0, kwh) } else { (kwh, 0) };
    (slot.supplier != 0).then_some(directed)
}

// A schedule or an end at the gate's minute itself is still in time, and any later one is refused for it.
pub fn gate_kept()
    ensures { GateKept }
{}
