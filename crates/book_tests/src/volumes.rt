// Volumes: 8, 11, 13.
use crate::helpers::{SENT, open};
use book::Book;
use domain::Slot;
use rules::House;
use samples::{Refusal, SLOTS, attempts, number_and_spot, refusal};
use std::test::Fail;

fn ask(
    book: &Book<House>,
    issued: &[Slot],
    room: usize,
    day: u16,
    period: u8,
    place: u8,
) -> Refusal {
    let room = room.min(issued.len());
    refusal(book.volume(&issued[0..room], day, period, place))
}

// How many slots are lent, day, period, place, and the refusal.
const CASES: [(usize, u16, u8, u8, Refusal); 11] = [
    (SLOTS, 3, 1, 0, Some((8, 1))),
    (SLOTS, 2, 1, 0, None),
    (SLOTS, 0, 0, 0, Some((8, 2))),
    (SLOTS, 0, 1, 0, None),
    (SLOTS, 0, 49, 0, Some((8, 2))),
    (SLOTS, 0, 48, 0, None),
    (SLOTS, 0, 1, 2, Some((8, 3))),
    (SLOTS, 0, 1, 1, None),
    (SLOTS - 1, 0, 1, 0, Some((11, 4))),
    (SLOTS + 1, 0, 1, 0, Some((11, 4))),
    (0, 0, 1, 0, Some((11, 4))),
];

#[test]
fn limits(rt: HostRuntime) -> Result<(), Fail> {
    let book = open()?;
    let issued: &[Slot] = &[SENT; SLOTS + 1];
    for (room, day, period, place, expected) in CASES {
        assert_eq!(rt; ask(&book, issued, room, day, period, place), expected);
    }
    Ok(())
}

// What is answered: a pair or none, or a refusal's number and spot.
type Answer = Result<Option<(u32, u32)>, (u8, u64)>;

// The supplier and the volume that a slot holds, and what is answered.
const ANSWERS: [(u16, i32, Answer); 10] = [
    (0, 0, Ok(None)),
    (101, 0, Ok(Some((0, 0)))),
    (101, 21, Ok(Some((21, 0)))),
    (101, -10, Ok(Some((0, 10)))),
    (1, 9_999_999, Ok(Some((9_999_999, 0)))),
    (65_535, -9_999_999, Ok(Some((0, 9_999_999)))),
    (101, 10_000_000, Err((13, 4))),
    (101, -10_000_000, Err((13, 4))),
    (0, 1, Err((13, 4))),
    (0, -1, Err((13, 4))),
];

// The slot of place 1 in period 3 of day 1; all others are spoiled, and not read.
fn answer(slot: Slot) -> Result<Answer, Fail> {
    let mut issued = [Slot {
        supplier: 0,
        volume: i32::MIN,
    }; SLOTS];
    issued[101] = slot;
    Ok(open()?.volume(&issued, 1, 3, 1).map_err(number_and_spot))
}

#[test]
fn pairs(rt: HostRuntime) -> Result<(), Fail> {
    for (supplier, volume, expected) in ANSWERS {
        assert_eq!(rt; answer(Slot { supplier, volume })?, expected);
    }
    Ok(())
}

// What can be wrong where a volume is asked for.
#[derive(Clone, Copy)]
enum Wrong {
    DayOutside,
    PeriodOutside,
    PlaceOutside,
    SlotsCut,
    SlotsSpoiled,
}

// What can be wrong, with its refusal, in the order in which it is answered.
const REFUSALS: [(Wrong, (u8, u64)); 5] = [
    (Wrong::DayOutside, (8, 1)),
    (Wrong::PeriodOutside, (8, 2)),
    (Wrong::PlaceOutside, (8, 3)),
    (Wrong::SlotsCut, (11, 4)),
    (Wrong::SlotsSpoiled, (13, 4)),
];

// What is wrong last is done first, so that what is wrong first stands.
fn attempt(one: Option<Wrong>, other: Option<Wrong>) -> Result<Refusal, Fail> {
    let (mut slot, mut room) = (SENT, SLOTS);
    let (mut day, mut period, mut place) = (2, 5, 1);
    for wrong in [other, one].into_iter().flatten() {
        match wrong {
            Wrong::DayOutside => day = 3,
            Wrong::PeriodOutside => period = 49,
            Wrong::PlaceOutside => place = 2,
            Wrong::SlotsCut => room = SLOTS - 1,
            Wrong::SlotsSpoiled => slot.supplier = 0,
        }
    }
    Ok(ask(&open()?, &[slot; SLOTS], room, day, period, place))
}

#[test]
fn of_two_the_first_is_answered(rt: HostRuntime) -> Result<(), Fail> {
    let attempts = attempts(rt.alloc(), &REFUSALS)?;
    for tried in attempts.iter() {
        assert_eq!(rt; attempt(tried.one, tried.other)?, tried.expected);
    }
    Ok(())
}
