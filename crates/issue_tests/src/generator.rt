// Long lists of calls that look random: who registers, schedules, reads, ends and issues, in time or late, with and without a right to.
ghost use Rattle.std.specs.Prelude.{◌<◌, ◌≤◌};

use domain::{AllocationRow, NOMINATIONS, PERIODS, Quality, Run, gate};
use season::Call;
use std::alloc::{AllocError, Global};
use std::array;

pub(crate) const DAYS: u16 = 4;

pub(crate) const CAPACITY: u32 = 60;

pub(crate) const SUPPLIERS: [u16; 4] = [101, 102, 103, 104];

// Calls of a list: a holder for each place and schedules, then all readings, then calls of all kinds, amid which all suppliers ask for an end, and only then are days closed.
const HOLDERS_AND_SCHEDULES: u8 = 9;

const BEFORE_THE_ENDS: usize = 129;

const AFTER_THE_ENDS: usize = 226;

// Schedules that are sent, again and again; the first of them has an unlawful row.
const SCHEDULES: usize = 6;

pub(crate) type Schedules = [[AllocationRow; PERIODS as usize]; SCHEDULES];

// A generator of numbers.
#[derive(Drop)]
pub(crate) struct Dice {
    pub(crate) state: u64,
}

impl Dice {
    pub(crate) fn roll(&mut self) -> u64 {
        self.state = self
            .state
            .wrapping_mul(6_364_136_223_846_793_005)
            .wrapping_add(1_442_695_040_888_963_407);
        self.state
    }

    // A number below the limit, or 0 where the limit is 0.
    fn below(&mut self, limit: u16) -> u16
        ensures below { 0 < limit → result < limit }
        ensures most { result ≤ limit }
    {
        ((self.roll() >> 33) % u64::from(limit.max(1))) as u16
    }

    fn small(&mut self, limit: u8) -> u8 {
        self.below(u16::from(limit)) as u8
    }

    fn supplier(&mut self) -> u16 {
        SUPPLIERS[usize::from(self.below(4))]
    }
}

// A method that a site of so many places may have, by the number that rows store: the names that the rules give the numbers are their own.
fn method(dice: &mut Dice, places: u8) -> u8 {
    match (places, dice.below(3)) {
        (2, 0) => 1,
        (2, 1) => 2,
        (2, _) => 3,
        (3, 0) => 5,
        (4, 0) => 7,
        (4.., 1) => 6,
        _ => 4,
    }
}

// The balance place of a row, by its method's number, since that is what the row stores.
fn balance(dice: &mut Dice, method: u8, places: u8) -> u8 {
    match method {
        3 | 4 => dice.small(places),
        6 => dice.small(places.saturating_sub(1)).saturating_add(1),
        _ => places.saturating_sub(1),
    }
}

// What a place nominates: a part of the capacity that suffices for all, but a percentage at the last place but one, in steps of 5% so that halves are met.
// The method is the number that the row stores.
fn nomination(dice: &mut Dice, method: u8, places: u8, place: u8) -> u32 {
    let percentage = matches!(method, 1 | 5 | 7);
    if percentage && place.saturating_add(2) == places {
        return u32::from(dice.below(21)) * 500;
    }
    match places {
        2 => u32::from(dice.below(61)),
        3 => u32::from(dice.below(31)),
        4 => u32::from(dice.below(21)),
        _ => u32::from(dice.below(9)),
    }
}

// A lawful row.
fn row(dice: &mut Dice, places: u8) -> AllocationRow {
    let method = method(dice, places);
    let balance = balance(dice, method, places);
    let mut nominations = [0; NOMINATIONS];
    for (place, nominated) in (0..places).zip(nominations.iter_mut()) {
        if place != balance {
            *nominated = nomination(dice, method, places, place);
        }
    }
    AllocationRow {
        method,
        balance,
        nominations,
    }
}

// The schedules of a site. In the first, the balance place of one row is none of the site's.
pub(crate) fn schedules(dice: &mut Dice, places: u8) -> Schedules {
    let mut schedules: Schedules = array::from_fn(|_| array::from_fn(|_| row(dice, places)));
    schedules[0][usize::from(dice.below(48))].balance = places;
    schedules
}

// A new holder; now and then of a place or a day that the site has not, or nobody.
fn registering(dice: &mut Dice, places: u8) -> Call<'static> {
    let nobody = dice.below(8) == 0;
    Call::Register {
        place: dice.small(places.saturating_add(1)),
        day: dice.below(DAYS + 1),
        supplier: if nobody { 0 } else { dice.supplier() },
    }
}

// A schedule; now and then a minute after the gate.
fn scheduling<'a>(dice: &mut Dice, schedules: &'a Schedules) -> Call<'a> {
    let day = dice.below(DAYS);
    let rows = &schedules[usize::from(dice.below(6))];
    Call::Schedule {
        sender: dice.supplier(),
        day,
        moment: gate(day).wrapping_add(u32::from(dice.below(6) / 5)),
        rows,
    }
}

fn quality(dice: &mut Dice) -> Quality {
    if dice.below(2) == 0 {
        Quality::Estimated
    } else {
        Quality::Actual
    }
}

// A reading, estimated or actual; now and then of a period that no day has.
fn metering(dice: &mut Dice) -> Call<'static> {
    Call::Reading {
        day: dice.below(DAYS),
        period: dice.small(50),
        quality: quality(dice) as u8,
        kwh: u32::from(dice.below(121)),
    }
}

// An end of the sharing; now and then a minute after the gate.
fn ending(dice: &mut Dice) -> Call<'static> {
    let day = dice.below(DAYS);
    Call::End {
        sender: dice.supplier(),
        day,
        moment: gate(day).wrapping_add(u32::from(dice.below(3) / 2)),
    }
}

// An issue; where days may be closed, now and then the last one of its day.
fn issuing(dice: &mut Dice, closing: bool) -> Call<'static> {
    let last = closing && dice.below(8) == 0;
    let run = if last { Run::Final } else { Run::Initial };
    Call::Issue {
        day: dice.below(DAYS),
        run: run as u8,
    }
}

fn any<'a>(dice: &mut Dice, closing: bool, places: u8, schedules: &'a Schedules) -> Call<'a> {
    match dice.below(64) {
        0..=6 => registering(dice, places),
        7..=14 => scheduling(dice, schedules),
        15..=30 => issuing(dice, closing),
        31 => ending(dice),
        _ => metering(dice),
    }
}

// A holder for each place.
fn register(calls: &mut Vec<Call<'_>>, places: u8) -> Result<(), AllocError> {
    for place in 0..places {
        calls.push(Call::Register {
            place,
            day: 0,
            supplier: SUPPLIERS[usize::from(place % 4)],
        })?;
    }
    Ok(())
}

// The second of the schedules, until there are so many calls in all.
fn schedule<'a>(
    calls: &mut Vec<Call<'a>>,
    places: u8,
    schedules: &'a Schedules,
) -> Result<(), AllocError> {
    for _ in places..HOLDERS_AND_SCHEDULES {
        calls.push(Call::Schedule {
            sender: SUPPLIERS[0],
            day: 0,
            moment: gate(0),
            rows: &schedules[1],
        })?;
    }
    Ok(())
}

// A reading of each half hour of each day.
fn read(calls: &mut Vec<Call<'_>>, dice: &mut Dice) -> Result<(), AllocError> {
    for day in 0..DAYS {
        for period in 1..=PERIODS {
            calls.push(Call::Reading {
                day,
                period,
                quality: Quality::Estimated as u8,
                kwh: u32::from(dice.below(121)),
            })?;
        }
    }
    Ok(())
}

// An end that each supplier asks for.
fn end(calls: &mut Vec<Call<'_>>) -> Result<(), AllocError> {
    for sender in SUPPLIERS {
        calls.push(Call::End {
            sender,
            day: 2,
            moment: gate(2),
        })?;
    }
    Ok(())
}

// The list of a site.
pub(crate) fn calls<'a>(
    alloc: Global,
    dice: &mut Dice,
    places: u8,
    schedules: &'a Schedules,
) -> Result<Vec<Call<'a>>, AllocError> {
    let mut calls = Vec::new(alloc);
    register(&mut calls, places)?;
    schedule(&mut calls, places, schedules)?;
    read(&mut calls, dice)?;
    for _ in 0..BEFORE_THE_ENDS {
        calls.push(any(dice, false, places, schedules))?;
    }
    end(&mut calls)?;
    for _ in 0..AFTER_THE_ENDS {
        calls.push(any(dice, true, places, schedules))?;
    }
    Ok(calls)
}
