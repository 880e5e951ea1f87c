// Readings: 8, 11, 13, 17. That a day is closed (16) needs an issue, and is tested with the issue.
use crate::helpers::{METERED, open};
use book::Book;
use domain::{Quality, Reading};
use rules::House;
use samples::{READINGS, Refusal, attempts, refusal};
use std::test::Fail;

// A day, a period, a quality and kWh. The quality is a number, since some of them are no quality on purpose.
type Metered = (u16, u8, u8, u32);

fn read(book: &Book<House>, readings: &mut [Reading], room: usize, metered: Metered) -> Refusal {
    let (day, period, quality, kwh) = metered;
    let room = room.min(readings.len());
    refusal(book.reading(&mut readings[0..room], day, period, quality, kwh))
}

// Readings one after the other: how many slots are lent, the reading, and the refusal.
const CASES: [(usize, Metered, Refusal); 24] = [
    (READINGS, (3, 1, 1, 30), Some((8, 1))),
    (READINGS, (2, 1, 1, 30), None),
    (READINGS, (0, 0, 1, 30), Some((8, 2))),
    (READINGS, (0, 1, 1, 30), None),
    (READINGS, (0, 49, 1, 30), Some((8, 2))),
    (READINGS, (0, 48, 1, 30), None),
    (READINGS, (0, 2, 0, 30), Some((8, 3))),
    (READINGS, (0, 2, 1, 30), None),
    (READINGS, (0, 2, 3, 30), Some((8, 3))),
    (READINGS, (0, 3, 1, 10_000_000), Some((8, 4))),
    (READINGS, (0, 3, 1, 9_999_999), None),
    (READINGS, (0, 3, 1, 0), None),
    (READINGS - 1, (1, 1, 1, 30), Some((11, 3))),
    (READINGS + 1, (1, 1, 1, 30), Some((11, 3))),
    (0, (1, 1, 1, 30), Some((11, 3))),
    (READINGS, (1, 1, 1, 30), None),
    // an estimate over an estimate, an actual over it, an actual over an actual
    (READINGS, (1, 1, 1, 31), None),
    (READINGS, (1, 1, 2, 32), None),
    (READINGS, (1, 1, 2, 33), None),
    (READINGS, (1, 1, 1, 34), Some((17, 1))),
    (READINGS, (1, 2, 1, 34), None),
    (READINGS, (2, 48, 2, 35), None),
    (READINGS, (2, 48, 1, 36), Some((17, 48))),
    (READINGS, (2, 47, 1, 36), None),
];

#[test]
fn limits(rt: HostRuntime) -> Result<(), Fail> {
    let book = open()?;
    let readings: &mut [Reading] = &mut [Reading::NONE; READINGS + 1];
    for (room, metered, expected) in CASES {
        assert_eq!(rt; read(&book, readings, room, metered), expected);
    }
    let held = [
        (2, Reading { quality: 1, kwh: 0 }),
        (4, Reading::NONE),
        (
            48,
            Reading {
                quality: 2,
                kwh: 33,
            },
        ),
        (
            143,
            Reading {
                quality: 2,
                kwh: 35,
            },
        ),
        (144, Reading::NONE),
    ];
    for (slot, reading) in held {
        assert_eq!(rt; readings.get(slot).copied(), Some(reading));
    }
    Ok(())
}

// What a slot holds, the quality of a new reading, and the refusal.
const SLOTS: [(Reading, u8, Refusal); 8] = [
    (
        Reading {
            quality: 3,
            kwh: 30,
        },
        1,
        Some((13, 3)),
    ),
    (
        Reading {
            quality: 255,
            kwh: 30,
        },
        2,
        Some((13, 3)),
    ),
    (
        Reading {
            quality: 2,
            kwh: 30,
        },
        2,
        None,
    ),
    (
        Reading {
            quality: 0,
            kwh: 10_000_000,
        },
        1,
        Some((13, 3)),
    ),
    (
        Reading {
            quality: 1,
            kwh: u32::MAX,
        },
        2,
        Some((13, 3)),
    ),
    (
        Reading {
            quality: 1,
            kwh: 9_999_999,
        },
        1,
        None,
    ),
    // quality 0 with kWh within the limit is empty
    (
        Reading {
            quality: 0,
            kwh: 9_999_999,
        },
        1,
        None,
    ),
    (Reading { quality: 0, kwh: 0 }, 1, None),
];

#[test]
fn spoiled_slots(rt: HostRuntime) -> Result<(), Fail> {
    let book = open()?;
    for (was, quality, expected) in SLOTS {
        let mut readings = [was; READINGS];
        assert_eq!(rt;
            read(&book, &mut readings, READINGS, (1, 7, quality, 21)),
            expected
        );
        let now = if expected.is_some() {
            was
        } else {
            Reading { quality, kwh: 21 }
        };
        assert!(rt; readings[54] == now && readings[53] == was && readings[55] == was);
    }
    Ok(())
}

// What can be wrong with a reading.
#[derive(Clone, Copy)]
enum Wrong {
    DayOutside,
    PeriodOutside,
    QualityUnknown,
    TooMuch,
    ReadingsCut,
    SlotSpoiled,
    ActualStands,
}

// What can be wrong, with its refusal, in the order in which it is answered.
const REFUSALS: [(Wrong, (u8, u64)); 7] = [
    (Wrong::DayOutside, (8, 1)),
    (Wrong::PeriodOutside, (8, 2)),
    (Wrong::QualityUnknown, (8, 3)),
    (Wrong::TooMuch, (8, 4)),
    (Wrong::ReadingsCut, (11, 3)),
    (Wrong::SlotSpoiled, (13, 3)),
    (Wrong::ActualStands, (17, 5)),
];

// What is wrong last is done first, so that what is wrong first stands.
fn attempt(one: Option<Wrong>, other: Option<Wrong>) -> Result<Refusal, Fail> {
    let (mut was, mut room) = (METERED, READINGS);
    let (mut day, mut period, mut quality, mut kwh) = (2, 5, 1, 21);
    for wrong in [other, one].into_iter().flatten() {
        match wrong {
            Wrong::DayOutside => day = 3,
            Wrong::PeriodOutside => period = 49,
            Wrong::QualityUnknown => quality = 0,
            Wrong::TooMuch => kwh = 10_000_000,
            Wrong::ReadingsCut => room = READINGS - 1,
            Wrong::SlotSpoiled => was.kwh = 10_000_000,
            Wrong::ActualStands => was.quality = Quality::Actual as u8,
        }
    }
    let metered = (day, period, quality, kwh);
    Ok(read(&open()?, &mut [was; READINGS], room, metered))
}

#[test]
fn of_two_the_first_is_answered(rt: HostRuntime) -> Result<(), Fail> {
    let attempts = attempts(rt.alloc(), &REFUSALS)?;
    for tried in attempts.iter() {
        assert_eq!(rt; attempt(tried.one, tried.other)?, tried.expected);
    }
    Ok(())
}
