// What every layer speaks of: the limits of the subject, the refusals and the plain records.
#![tactic(auto)]

ghost use Rattle.std.specs.Prelude.{◌≡◌, ◌+◌, ◌-◌, ◌*◌, Some, Ok, Err, length, ◌==◌};
ghost use Rattle.domain.specs.Refusals.{refused, number_of_table, number_of_term};
ghost use Rattle.domain.specs.declared.Table.TheVariants.{Readings, Issued};
ghost use Rattle.domain.specs.declared.Fault.TheVariants.{ArgumentOutsideLimits, AnotherSize};
ghost use Rattle.domain.specs.Checks.{unless, is_day, is_place, is_period, is_quality, spoiled_reading, spoiled_slot, no_reading, no_volume, readings_fit, issued_fit};
ghost use Rattle.domain.specs.Blanks.{no_row, no_line};
ghost use Rattle.domain.specs.Limits.{periods, most_kwh, most_capacity, fewest_places, most_places, most_days, nominations_of_row, most_records};
ghost use Rattle.domain.specs.Slots.{reading_slot, issued_slot, gate, reading_slots, issued_slots};
ghost use Rattle.domain.specs.Texts.{refusal_text, line_text};

use std::error::Error;
use std::fmt;

mod numbers;
mod terms;

pub use numbers::{Quality, Run, UnknownNumber};
pub use terms::Terms;

// Settlement Periods in a day, numbered from 1.
pub const PERIODS: u8 = 48;

// The most that a meter counts in one Settlement Period, and the most that a place may nominate, in kWh.
pub const MAX_KWH: u32 = 9_999_999;

// The most that the Relevant Capacity may be for one Settlement Period, in kWh.
pub const MAX_CAPACITY: u32 = 9_999_999;

// The fewest and the most places of a book. Places are numbered from 0.
pub const MIN_PLACES: u8 = 2;

pub const MAX_PLACES: u8 = 8;

// The most days of a book. Days are numbered from 0.
pub const MAX_DAYS: u16 = 62;

// Nominations that a row of a schedule carries, whatever the number of places.
pub const NOMINATIONS: usize = 8;

// The most records of a readings file and of a statement.
pub const MAX_RECORDS: usize = 4_096;

// The constants above are the limits of the definitions.
pub fn limits()
    ensures { (PERIODS ≡ periods) × (MAX_KWH ≡ most_kwh) × (MAX_CAPACITY ≡ most_capacity) × (MIN_PLACES ≡ fewest_places) × (MAX_PLACES ≡ most_places) × (MAX_DAYS ≡ most_days) × (NOMINATIONS ≡ nominations_of_row) × (MAX_RECORDS ≡ most_records) }
{}

// The slot of a Settlement Period in the table of readings.
pub fn reading_slot(day: u16, period: u8) -> usize
    ensures { result ≡ reading_slot day period }
{
    usize::from(day) * usize::from(PERIODS) + usize::from(period).saturating_sub(1)
}

// The slot of a place in a Settlement Period, in the table of what was issued.
pub fn issued_slot(places: u8, day: u16, period: u8, place: u8) -> usize
    ensures { result ≡ issued_slot places day period place }
{
    reading_slot(day, period) * usize::from(places) + usize::from(place)
}

// The size of the table of readings of a book of so many days.
pub fn reading_slots(days: u16) -> usize
    ensures { result ≡ reading_slots days }
{
    usize::from(days) * usize::from(PERIODS)
}

// The size of the table of what was issued, for a book of so many places and days.
pub fn issued_slots(places: u8, days: u16) -> usize
    ensures { result ≡ issued_slots places days }
{
    reading_slots(days) * usize::from(places)
}

// The gate of a day: the last minute at which its schedule or an end of the sharing may come, one hour before the day.
// Minutes count from midnight at the start of the day before day 0.
pub fn gate(day: u16) -> u32
    ensures { result ≡ gate day }
{
    u32::from(day) * 1_440 + 1_380
}

// One row of a schedule, as tables and files store it: how the energy of one Settlement Period is split, by the number of a method.
#[derive(Clone, Copy, PartialEq, Eq, Debug)]
pub struct AllocationRow {
    pub method: u8,
    pub balance: u8,
    pub nominations: [u32; NOMINATIONS],
}

impl AllocationRow {
    // A row of which nothing is set.
    pub const NONE: AllocationRow = AllocationRow {
        method: 0,
        balance: 0,
        nominations: [0; NOMINATIONS],
    };
}

// The metered energy of one Settlement Period, as tables and files store it: with the number of its quality, or 0 in an empty slot.
// Its quality is a number and no enum, as with all that tables store: a table that a call is lent may hold any number, which is refused and not lost.
#[derive(Clone, Copy, PartialEq, Eq, Debug)]
pub struct Reading {
    pub quality: u8,
    pub kwh: u32,
}

impl Reading {
    // An empty slot.
    pub const NONE: Reading = Reading { quality: 0, kwh: 0 };

    // Whether a slot holds what can be neither a reading nor empty.
    pub fn is_spoiled(self) -> bool
        ensures { result ≡ spoiled_reading self }
    {
        self.quality != 0 && !is_quality(self.quality) || self.kwh > MAX_KWH
    }
}

// What was last issued for one place in one Settlement Period, as tables store it: with supplier 0 in an empty slot.
// Its supplier is a number and no Option, as with a reading: a table that is lent may hold a volume that was issued to nobody.
#[derive(Clone, Copy, PartialEq, Eq, Debug)]
pub struct Slot {
    pub supplier: u16,
    pub volume: i32,
}

impl Slot {
    // A slot of which nothing was issued.
    pub const NONE: Slot = Slot {
        supplier: 0,
        volume: 0,
    };

    // Whether a slot holds a volume that no meter counts, or one that was issued to nobody.
    pub fn is_spoiled(self) -> bool
        ensures { result ≡ spoiled_slot self }
    {
        self.volume < -(MAX_KWH as i32)
            || self.volume > MAX_KWH as i32
            || self.supplier == 0 && self.volume != 0
    }
}

// One line of the journal, as tables and files store it: a volume that was sent to a supplier, with the number of its run.
#[derive(Clone, Copy, PartialEq, Eq, Debug)]
pub struct Line {
    pub day: u16,
    pub period: u8,
    pub place: u8,
    pub supplier: u16,
    pub run: u8,
    pub volume: i32,
}

impl Line {
    // A line that was not written.
    pub const NONE: Line = Line {
        day: 0,
        period: 0,
        place: 0,
        supplier: 0,
        run: 0,
        volume: 0,
    };
}

// The entries named NONE are those of blank tables.
pub fn blanks() -> (AllocationRow, Reading, Slot, Line)
    ensures { result ≡ (no_row, no_reading, no_volume, no_line) }
{
    (AllocationRow::NONE, Reading::NONE, Slot::NONE, Line::NONE)
}

impl fmt::Display for Line {
    ghost output = { λ line. Some (line_text line) };

    fn fmt<W: fmt::Write>(&self, f: &mut fmt::Formatter<W>) -> fmt::Result {
        let Line {
            day,
            period,
            place,
            supplier,
            run,
            volume,
        } = *self;
        write!(f, "{day} {period} {place} {supplier} {run} {volume}")
    }
}

impl Terms {
    // Whether the book has this day.
    pub fn has_day(self, day: u16) -> bool
        ensures { result ≡ is_day self day }
    {
        day < self.days
    }

    // Whether the book has this place.
    pub fn has_place(self, place: u8) -> bool
        ensures { result ≡ is_place self place }
    {
        place < self.places
    }

    // Refuses a table of readings of another size than the terms give.
    pub fn fit_readings(self, readings: &[Reading]) -> Result<(), Fault>
        ensures { result ≡ unless (readings_fit self readings.now) (AnotherSize Readings) (Ok tt) }
    {
        fit(readings, reading_slots(self.days), Table::Readings)
    }

    // Refuses a table of what was issued of another size than the terms give.
    pub fn fit_issued(self, issued: &[Slot]) -> Result<(), Fault>
        ensures { result ≡ unless (issued_fit self issued.now) (AnotherSize Issued) (Ok tt) }
    {
        fit(issued, issued_slots(self.places, self.days), Table::Issued)
    }
}

// Refuses a table that has not so many slots.
fn fit<T>(slots: &[T], size: usize, table: Table) -> Result<(), Fault>
    ensures { result ≡ unless (length slots.now == size) (AnotherSize table) (Ok tt) }
{
    if slots.len() == size {
        Ok(())
    } else {
        Err(Fault::AnotherSize { table })
    }
}

// Whether this is a Settlement Period of a day.
pub fn is_period(period: u8) -> bool
    ensures { result ≡ is_period period }
{
    (1..=PERIODS).contains(&period)
}

// Whether a reading may have this quality: 1, estimated, or 2, actual. Asked of a number, since calls are given one and tables store it.
pub fn is_quality(quality: u8) -> bool
    ensures { result ≡ is_quality quality }
{
    Quality::try_from(quality).is_ok()
}

// Refuses an argument that is outside its limits, by its number. Each call counts its own arguments, so an enum would only name the numbers again.
pub fn admit(argument: u8, within: bool) -> Result<(), Fault>
    ensures { result ≡ unless within (ArgumentOutsideLimits argument) (Ok tt) }
{
    if within {
        Ok(())
    } else {
        Err(Fault::ArgumentOutsideLimits { argument })
    }
}

// The terms of a book, by their numbers.
#[derive(Clone, Copy, PartialEq, Eq, Debug)]
pub enum Term {
    Places = 1,
    Days = 2,
    Capacity = 3,
}

impl Term {
    // Its number, by which a refusal's spot names it. A public method that callers have: a conversion beside it would say the same twice.
    pub fn number(self) -> u8
        ensures { result ≡ number_of_term self }
    {
        self as u8
    }
}

// The tables that calls are lent, by their numbers.
#[derive(Clone, Copy, PartialEq, Eq, Debug)]
pub enum Table {
    Holders = 1,
    Rows = 2,
    Readings = 3,
    Issued = 4,
    Journal = 5,
}

impl Table {
    // Its number, by which a refusal's spot names it. A method for the reason of a term's.
    pub fn number(self) -> u8
        ensures { result ≡ number_of_table self }
    {
        self as u8
    }
}

// Why a file or a call is refused. Of several reasons the lowest number is answered, at its first spot.
#[derive(Clone, Copy, PartialEq, Eq, Debug)]
pub enum Fault {
    // a file too short for a header
    FileTooShort { length: usize },
    // a file that does not begin with the mark
    AnotherMark,
    // a file of a version that is not read
    AnotherVersion,
    // a file of a kind that is not read, or not the kind asked for
    AnotherKind,
    // a count of records that the kind does not allow
    CountNotAllowed,
    // a file longer or shorter than its kind and count give
    AnotherLength { length: usize },
    // a term outside its limits
    TermOutsideLimits { term: Term },
    // an argument outside its limits, rows that are not a day's, or lines that the journal has not
    ArgumentOutsideLimits { argument: u8 },
    // a row of a schedule that the rule does not allow
    UnlawfulRow { period: u8 },
    // a schedule or an end that came after the day's gate
    AfterGate { gate: u32 },
    // a table of readings or of issued slots that has another size than the terms give
    AnotherSize { table: Table },
    // a buffer too short for what is to be written
    OutputTooShort { needed: usize },
    // a count above its table's length, or a stored number that cannot be
    Spoiled { table: Table },
    // a sender that does not hold place 0 that day
    SenderNotPrimary { day: u16 },
    // a schedule on or after the end day, or a second end
    SharingEnded { day: u16 },
    // a reading or an issue for a day that is closed
    DayClosed { day: u16 },
    // an estimate where an actual reading stands
    EstimateOverActual { period: u8 },
    // an issue where a reading is missing
    ReadingMissing { period: u8 },
    // an issue where a place has no holder
    HolderMissing { place: u8 },
    // a journal too short for the lines held and new
    JournalTooShort { needed: usize },
    // a history too short for the entries held and added
    HistoryFull { needed: usize },
}

impl Fault {
    // The refusal's number, from 1. A method for the reason of a term's number.
    pub fn number(self) -> u8
        ensures { result ≡ (refused self).0 }
    {
        match self {
            Fault::FileTooShort { .. } => 1,
            Fault::AnotherMark => 2,
            Fault::AnotherVersion => 3,
            Fault::AnotherKind => 4,
            Fault::CountNotAllowed => 5,
            Fault::AnotherLength { .. } => 6,
            Fault::TermOutsideLimits { .. } => 7,
            Fault::ArgumentOutsideLimits { .. } => 8,
            Fault::UnlawfulRow { .. } => 9,
            Fault::AfterGate { .. } => 10,
            Fault::AnotherSize { .. } => 11,
            Fault::OutputTooShort { .. } => 12,
            Fault::Spoiled { .. } => 13,
            Fault::SenderNotPrimary { .. } => 14,
            Fault::SharingEnded { .. } => 15,
            Fault::DayClosed { .. } => 16,
            Fault::EstimateOverActual { .. } => 17,
            Fault::ReadingMissing { .. } => 18,
            Fault::HolderMissing { .. } => 19,
            Fault::JournalTooShort { .. } => 20,
            Fault::HistoryFull { .. } => 21,
        }
    }

    // Where it is: a place in the file, a length, or the number of what is at fault. A method for the same reason.
    pub fn spot(self) -> u64
        ensures { result ≡ (refused self).1 }
    {
        match self {
            Fault::AnotherMark => 0,
            Fault::AnotherVersion => 3,
            Fault::AnotherKind => 5,
            Fault::CountNotAllowed => 6,
            Fault::FileTooShort { length } | Fault::AnotherLength { length } => length as u64,
            Fault::TermOutsideLimits { term } => u64::from(term.number()),
            Fault::ArgumentOutsideLimits { argument } => u64::from(argument),
            Fault::AfterGate { gate } => u64::from(gate),
            Fault::AnotherSize { table } | Fault::Spoiled { table } => u64::from(table.number()),
            Fault::OutputTooShort { needed }
            | Fault::JournalTooShort { needed }
            | Fault::HistoryFull { needed } => needed as u64,
            Fault::SenderNotPrimary { day }
            | Fault::SharingEnded { day }
            | Fault::DayClosed { day } => u64::from(day),
            Fault::UnlawfulRow { period }
            | Fault::EstimateOverActual { period }
            | Fault::ReadingMissing { period } => u64::from(period),
            Fault::HolderMissing { place } => u64::from(place),
        }
    }
}

impl fmt::Display for Fault {
    ghost output = { λ fault. Some (refusal_text fault) };

    fn fmt<W: fmt::Write>(&self, f: &mut fmt::Formatter<W>) -> fmt::Result {
        let number = self.number();
        let spot = self.spot();
        write!(f, "refused {number} {spot}")
    }
}

impl Error for Fault {}
