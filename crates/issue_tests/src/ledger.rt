// The second calculation: what was accepted, kept in plain lists, and what each issue of a day then has to have sent in all.
use crate::generator::{CAPACITY, DAYS, SUPPLIERS};
use domain::{AllocationRow, Fault, Line, MAX_PLACES, PERIODS};
use recount::Recount;
use rules::{Row, Rule};
use season::{Accepted, Call, Outcome};
use std::alloc::Global;
use std::collections::BTreeMap;
use std::process::Abort;
use std::test::Fail;

const PLACES: usize = MAX_PLACES as usize;

// Who holds a place from a day on.
#[derive(Clone, Copy)]
pub(crate) struct Holder {
    place: u8,
    day: u16,
    supplier: u16,
}

// The rows from a day on.
#[derive(Clone, Copy)]
pub(crate) struct Schedule<'a> {
    day: u16,
    rows: &'a [AllocationRow],
}

#[derive(Clone, Copy)]
pub(crate) struct Metered {
    day: u16,
    period: u8,
    kwh: u32,
}

// A place's holder in a half hour, and its share.
#[derive(Clone, Copy, Default)]
struct Part {
    holder: Option<u16>,
    share: i64,
}

// What an issue split in a half hour: its kWh, the row, and the part of each place.
#[derive(Clone, Copy, Default)]
pub(crate) struct Split {
    kwh: u32,
    row: Option<AllocationRow>,
    parts: [Part; PLACES],
}

// An issue, with the number of its run, as the call gave it, and what it split in each half hour of its day.
#[derive(Clone, Copy)]
pub(crate) struct Issued {
    day: u16,
    pub(crate) run: u8,
    pub(crate) lines: usize,
    pub(crate) splits: [Split; PERIODS as usize],
}

// What was accepted of each kind, and what was refused, in the order in which it came, so that a list that tests little is found.
#[derive(Drop)]
pub(crate) struct Ledger<'a> {
    places: u8,
    pub(crate) holders: Vec<Holder>,
    pub(crate) schedules: Vec<Schedule<'a>>,
    pub(crate) readings: Vec<Metered>,
    pub(crate) ends: Vec<u16>,
    pub(crate) issues: Vec<Issued>,
    pub(crate) refusals: Vec<Fault>,
}

impl<'a> Ledger<'a> {
    pub(crate) fn new(alloc: Global, places: u8) -> Ledger<'a> {
        Ledger {
            places,
            holders: Vec::new(alloc),
            schedules: Vec::new(alloc),
            readings: Vec::new(alloc),
            ends: Vec::new(alloc),
            issues: Vec::new(alloc),
            refusals: Vec::new(alloc),
        }
    }

    fn is_ended(&self, day: u16) -> bool {
        self.ends.iter().any(|end| *end <= day)
    }

    // Who holds a place on a day: the one of the latest day not after it.
    fn holder(&self, place: u8, day: u16) -> Option<u16> {
        if place > 0 && self.is_ended(day) {
            return None;
        }
        self.holders
            .iter()
            .filter(|holder| holder.place == place && holder.day <= day)
            .max_by_key(|holder| holder.day)
            .map(|holder| holder.supplier)
    }

    // The rows of a day, by the latest schedule not after it.
    fn rows(&self, day: u16) -> Option<&'a [AllocationRow]> {
        if self.is_ended(day) {
            return None;
        }
        self.schedules
            .iter()
            .filter(|schedule| schedule.day <= day)
            .max_by_key(|schedule| schedule.day)
            .map(|schedule| schedule.rows)
    }

    // The kWh that were last read in a half hour.
    fn kwh(&self, day: u16, period: u8) -> u32 {
        self.readings
            .iter()
            .rev()
            .find(|reading| reading.day == day && reading.period == period)
            .map_or(0, |reading| reading.kwh)
    }

    // What a place has of a half hour, by the second calculation.
    fn share(&self, row: Option<AllocationRow>, period: u8, kwh: u32, place: u8) -> i64 {
        match row {
            Some(row) => {
                let places = usize::from(self.places.min(MAX_PLACES));
                let row = Row {
                    method: row.method,
                    capacity: CAPACITY,
                    nominations: &row.nominations[..places],
                    balance: row.balance,
                };
                Recount.share(row, period, kwh, usize::from(place))
            }
            None if place == 0 => i64::from(kwh),
            None => 0,
        }
    }

    // What an issue splits now in a half hour, by a row and among the holders of its day.
    fn split(
        &self,
        row: Option<AllocationRow>,
        holders: [Option<u16>; PLACES],
        period: u8,
        kwh: u32,
    ) -> Split {
        let mut parts = [Part::default(); PLACES];
        let places = (0..MAX_PLACES).zip(holders);
        for ((place, holder), part) in places.zip(parts.iter_mut()) {
            let share = self.share(row, period, kwh, place);
            *part = Part { holder, share };
        }
        Split { kwh, row, parts }
    }

    // What an issue splits now in the half hours of a day.
    fn splits(&self, day: u16) -> [Split; PERIODS as usize] {
        let mut holders = [None; PLACES];
        for (place, holder) in (0..MAX_PLACES).zip(holders.iter_mut()) {
            *holder = self.holder(place, day);
        }
        let rows = self.rows(day);
        let mut splits = [Split::default(); PERIODS as usize];
        for (period, split) in (1..=PERIODS).zip(splits.iter_mut()) {
            let at = usize::from(period.saturating_sub(1));
            let row = rows.and_then(|rows| rows.get(at));
            *split = self.split(row.copied(), holders, period, self.kwh(day, period));
        }
        splits
    }

    fn keep_issue(&mut self, day: u16, run: u8, lines: usize) -> Result<(), Fail> {
        let splits = self.splits(day);
        self.issues.push(Issued {
            day,
            run,
            lines,
            splits,
        })?;
        Ok(())
    }

    // Keeps what came of a call.
    pub(crate) fn keep(&mut self, call: Call<'a>, came: Outcome) -> Result<(), Fail> {
        match (call, came) {
            (_, Err(fault)) => self.refusals.push(fault)?,
            (
                Call::Register {
                    place,
                    day,
                    supplier,
                },
                _,
            ) => self.holders.push(Holder {
                place,
                day,
                supplier,
            })?,
            (Call::Schedule { day, rows, .. }, _) => {
                self.schedules.push(Schedule { day, rows })?
            }
            (
                Call::Reading {
                    day,
                    period,
                    kwh,
                    ..
                },
                _,
            ) => self.readings.push(Metered { day, period, kwh })?,
            (Call::End { day, .. }, _) => self.ends.push(day)?,
            (Call::Issue { day, run }, Ok(Accepted::Issued { lines })) => {
                self.keep_issue(day, run, lines)?
            }
            _ => {}
        }
        Ok(())
    }

    // How many lines all issues sent.
    pub(crate) fn lines(&self) -> usize {
        self.issues
            .iter()
            .fold(0, |sum: usize, issue| sum.saturating_add(issue.lines))
    }

    // What the last issue of a day split.
    fn last_splits(&self, day: u16) -> [Split; PERIODS as usize] {
        self.issues
            .iter()
            .rev()
            .find(|issue| issue.day == day)
            .map_or([Split::default(); PERIODS as usize], |issue| issue.splits)
    }

    // The lines of each half hour add up to what its last issue split.
    pub(crate) fn compare(&self, sums: &Sums) -> Result<(), Fail> {
        for day in 0..DAYS {
            for (period, split) in (1..=PERIODS).zip(self.last_splits(day)) {
                if split.compare(sums, day, period)? != i64::from(split.kwh) {
                    return Err(Fail::new("a half hour's lines do not add up to its kWh"));
                }
            }
        }
        Ok(())
    }
}

impl Part {
    // What a supplier's lines have to come to: the share for the holder, and nothing for any other.
    fn of(self, supplier: u16) -> i64 {
        if self.holder == Some(supplier) {
            self.share
        } else {
            0
        }
    }
}

impl Split {
    // The method by which it was split, as the number that the row stores, or none where the first place had it all.
    pub(crate) fn method(&self) -> Option<u8> {
        self.row.map(|row| row.method)
    }

    pub(crate) fn is_below_zero(&self) -> bool {
        self.parts.iter().any(|part| part.share < 0)
    }

    // Compares the sums of the half hour, place by place and supplier by supplier, and says what they come to together.
    fn compare(&self, sums: &Sums, day: u16, period: u8) -> Result<i64, Fail> {
        let mut total = 0;
        for (place, part) in (0..MAX_PLACES).zip(self.parts) {
            for supplier in SUPPLIERS {
                let sent = Sent {
                    day,
                    period,
                    place,
                    supplier,
                };
                let sum = sums.get(&sent).copied().unwrap_or(0);
                if sum != part.of(supplier) {
                    return Err(Fail::new("a supplier's lines do not add up to its share"));
                }
                if sum < 0 && !self.is_balance(place) {
                    return Err(Fail::new("a sum below zero is not at the balance place"));
                }
                total = i64::wrapping_add(total, sum);
            }
        }
        Ok(total)
    }

    fn is_balance(&self, place: u8) -> bool {
        self.row.is_some_and(|row| row.balance == place)
    }
}

// Whom lines were sent to, for which half hour and place.
#[derive(Clone, Copy, PartialEq, Eq, PartialOrd, Ord)]
pub(crate) struct Sent {
    day: u16,
    period: u8,
    place: u8,
    supplier: u16,
}

pub(crate) type Sums = BTreeMap<Sent, i64>;

// The volumes of the lines, added up by half hour, place and supplier.
pub(crate) fn sums(rt: &impl Abort, alloc: Global, lines: &[Line]) -> Result<Sums, Fail> {
    let mut sums = BTreeMap::new(alloc);
    for line in lines {
        assert!(rt; line.day < DAYS && (1..=PERIODS).contains(&line.period));
        assert!(rt; line.place < MAX_PLACES && SUPPLIERS.contains(&line.supplier));
        let sent = Sent {
            day: line.day,
            period: line.period,
            place: line.place,
            supplier: line.supplier,
        };
        let sum = sums.entry(sent)?.or_insert(0);
        *sum = i64::wrapping_add(*sum, i64::from(line.volume));
    }
    Ok(sums)
}
