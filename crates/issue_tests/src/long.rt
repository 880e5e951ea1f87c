// A long list of calls, as a small generator makes it, and beside it a second calculation: the lines of each half hour add up to what was read when its day was last issued.
ghost use Rattle.std.specs.Prelude.{◌<◌, ◌≤◌};

use crate::generator::Dice;
use crate::replays::replayed;
use domain::{AllocationRow, Fault, Line, PERIODS, Quality, Run, Terms, gate, reading_slot};
use samples::{SEVENTY, THIRTY};
use season::{Accepted, Call, Outcome};
use std::alloc::{AllocError, Global};
use std::collections::BTreeMap;
use std::test::*;

// Calls of the list: two holders, the readings of three days, and what the generator makes.
const CALLS: usize = 320;

const DAYS: u16 = 3;

const LINES: usize = 2_000;

// 20 kWh for place 0 as far as they go. Rows store a method's number.
const CAPPED: AllocationRow = AllocationRow {
    method: 2,
    balance: 1,
    nominations: [20, 0, 0, 0, 0, 0, 0, 0],
};

// A block above the capacity, which is refused.
const TOO_MUCH: AllocationRow = AllocationRow {
    method: 3,
    balance: 1,
    nominations: [61, 0, 0, 0, 0, 0, 0, 0],
};

// The lists of rows that are scheduled.
type Lists = [[AllocationRow; PERIODS as usize]; 4];

// Numbers from 0 on, from a part of the seed that varies well.
fn pick(seed: u64, part: u32, below: u16) -> u16
    requires part { part ≤ 40 }
    requires some { 0 < below }
    ensures { result < below }
{
    ((seed >> (part + 16)) % u64::from(below)) as u16
}

// The functions of generator.rt with the same names make other lists: of sites of two to eight places, with random rows and ends of the sharing, by several numbers for a call. Here a call of a site of two places is made from one number, with four fixed lists of rows and no ends.
fn registering(seed: u64) -> Call<'static> {
    let stranger = pick(seed, 30, 8) == 0;
    Call::Register {
        place: pick(seed, 20, 3) as u8,
        day: pick(seed, 24, 3),
        supplier: if stranger { 0 } else { 101 + pick(seed, 12, 2) },
    }
}

fn metering(seed: u64) -> Call<'static> {
    let estimated = pick(seed, 12, 2) == 0;
    let quality = if estimated {
        Quality::Estimated
    } else {
        Quality::Actual
    };
    Call::Reading {
        day: pick(seed, 20, 3),
        period: pick(seed, 24, 49) as u8,
        quality: quality as u8,
        kwh: u32::from(pick(seed, 30, 61)),
    }
}

fn scheduling(seed: u64, lists: &Lists) -> Call<'_> {
    let day = pick(seed, 20, 3);
    Call::Schedule {
        sender: 101 + pick(seed, 24, 2),
        day,
        moment: gate(day) + u32::from(pick(seed, 28, 6) / 5),
        rows: &lists[usize::from(pick(seed, 32, 4))],
    }
}

fn issuing(seed: u64) -> Call<'static> {
    let last = pick(seed, 24, 9) == 0;
    let run = if last { Run::Final } else { Run::Initial };
    Call::Issue {
        day: pick(seed, 20, 3),
        run: run as u8,
    }
}

fn made(seed: u64, lists: &Lists) -> Call<'_> {
    match pick(seed, 8, 8) {
        0 => registering(seed),
        1 => scheduling(seed, lists),
        2 | 3 => issuing(seed),
        _ => metering(seed),
    }
}

// A reading of each half hour of each day.
fn read(calls: &mut Vec<Call<'_>>) -> Result<(), AllocError> {
    for day in 0..DAYS {
        for period in 1..=PERIODS {
            calls.push(Call::Reading {
                day,
                period,
                quality: Quality::Estimated as u8,
                kwh: (reading_slot(day, period) % 37) as u32,
            })?;
        }
    }
    Ok(())
}

// The list. The generator also makes a number for each of the calls that come first.
fn calls<'a>(alloc: Global, lists: &'a Lists) -> Result<Vec<Call<'a>>, AllocError> {
    let mut calls = Vec::new(alloc);
    for (place, supplier) in [(0, 101), (1, 102)] {
        calls.push(Call::Register {
            place,
            day: 0,
            supplier,
        })?;
    }
    read(&mut calls)?;
    let mut dice = Dice { state: 7 };
    for _ in 0..calls.len() {
        dice.roll();
    }
    for _ in calls.len()..CALLS {
        calls.push(made(dice.roll(), lists))?;
    }
    Ok(calls)
}

// Of a half hour, the kWh that were read, those of the last issue, and what the lines come to.
#[derive(Clone, Copy, Default)]
struct HalfHour {
    read: u32,
    issued: u32,
    sent: i64,
}

// What the test keeps by itself, for each day and period, and of the calls that were refused and the issues. It is no `Ledger`: that splits anew by a second calculation, and here what was read alone is compared.
#[derive(Drop)]
struct Tally {
    half_hours: BTreeMap<(u16, u8), HalfHour>,
    refusals: Vec<Fault>,
    // how many lines each issue sent
    issues: Vec<usize>,
}

impl Tally {
    fn new(alloc: Global) -> Tally {
        Tally {
            half_hours: BTreeMap::new(alloc),
            refusals: Vec::new(alloc),
            issues: Vec::new(alloc),
        }
    }

    fn keep_issue(&mut self, day: u16, lines: usize) -> Result<(), AllocError> {
        for ((of, _), half_hour) in self.half_hours.iter_mut() {
            if *of == day {
                half_hour.issued = half_hour.read;
            }
        }
        self.issues.push(lines)?;
        Ok(())
    }

    // Keeps what came of a call.
    fn keep(&mut self, call: Call<'_>, came: Outcome) -> Result<(), AllocError> {
        match (call, came) {
            (_, Err(fault)) => self.refusals.push(fault)?,
            (
                Call::Reading {
                    day,
                    period,
                    kwh,
                    ..
                },
                _,
            ) => self.half_hours.entry((day, period))?.or_default().read = kwh,
            (Call::Issue { day, .. }, Ok(Accepted::Issued { lines })) => {
                self.keep_issue(day, lines)?
            }
            _ => {}
        }
        Ok(())
    }

    // How many lines all issues sent.
    fn lines(&self) -> usize {
        self.issues
            .iter()
            .fold(0, |sum: usize, lines| sum.saturating_add(*lines))
    }

    // Adds up the volumes of the lines.
    fn add_up(&mut self, lines: &[Line]) -> Result<(), AllocError> {
        for line in lines {
            let half_hour = self.half_hours.entry((line.day, line.period))?.or_default();
            half_hour.sent = half_hour.sent.wrapping_add(i64::from(line.volume));
        }
        Ok(())
    }
}

#[test]
fn lines_add_up(rt: HostRuntime) -> Result<(), Fail> {
    let alloc = rt.alloc();
    let lists = [[SEVENTY; 48], [CAPPED; 48], [THIRTY; 48], [TOO_MUCH; 48]];
    let calls = calls(alloc, &lists)?;
    let results = replayed(alloc, Terms::new(2, DAYS, 60)?, LINES, calls.as_slice())?;
    let mut tally = Tally::new(alloc);
    for (call, came) in calls.iter().zip(&results.outcomes) {
        tally.keep(*call, *came)?;
    }
    let sent = tally.lines();
    assert!(rt; sent <= results.journal.len());
    tally.add_up(&results.journal[..sent])?;
    for half_hour in tally.half_hours.values() {
        assert_eq!(rt; half_hour.sent, i64::from(half_hour.issued));
    }
    assert!(rt; tally.issues.len() >= 10);
    assert!(rt; tally.refusals.len() >= 10);
    Ok(())
}
