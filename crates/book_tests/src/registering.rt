// Registering a holder: 8, 13, 21.
use crate::helpers::{open, register};
use history::Dated;
use samples::{NOBODY, Refusal, attempts};
use std::process::Abort;
use std::test::Fail;

// Registers one after the other: room in the table, place, day, supplier, and the refusal.
const CASES: [(usize, u8, u16, u16, Refusal); 16] = [
    (0, 0, 0, 101, Some((21, 1))),
    (1, 2, 0, 101, Some((8, 1))),
    (1, 1, 0, 101, None),
    (0, 1, 0, 102, Some((13, 1))),
    // what replaces needs no room
    (1, 1, 0, 102, None),
    (2, 1, 3, 102, Some((8, 2))),
    (1, 1, 2, 102, Some((21, 2))),
    (2, 1, 2, 102, None),
    (1, 1, 2, 102, Some((13, 1))),
    (3, 0, 0, 0, Some((8, 3))),
    (2, 0, 0, 1, Some((21, 3))),
    (3, 0, 0, 1, None),
    (3, 0, 1, 65_535, Some((21, 4))),
    // a table that is longer than what it holds
    (5, 0, 1, 65_535, None),
    (3, 0, 1, 101, Some((13, 1))),
    (4, 0, 1, 101, None),
];

#[test]
fn limits(rt: HostRuntime) -> Result<(), Fail> {
    let mut book = open()?;
    let holders: &mut [Dated<u16>] = &mut [NOBODY; 5];
    for (room, place, day, supplier, expected) in CASES {
        assert_eq!(rt;
            register(&mut book, holders, room, place, day, supplier),
            expected
        );
    }
    let held = [
        put(1, 0, 102),
        put(1, 2, 102),
        put(0, 0, 1),
        put(0, 1, 101),
        NOBODY,
    ];
    assert_eq!(rt; &*holders, held.as_slice());
    Ok(())
}

fn put(place: u8, day: u16, supplier: u16) -> Dated<u16> {
    Dated {
        subject: place,
        day,
        entry: supplier,
    }
}

// What can be wrong with a register.
#[derive(Clone, Copy)]
enum Wrong {
    PlaceOutside,
    DayOutside,
    SupplierZero,
    HoldersCut,
    HoldersFull,
}

// What can be wrong, with its refusal, in the order in which it is answered.
const REFUSALS: [(Wrong, (u8, u64)); 5] = [
    (Wrong::PlaceOutside, (8, 1)),
    (Wrong::DayOutside, (8, 2)),
    (Wrong::SupplierZero, (8, 3)),
    (Wrong::HoldersCut, (13, 1)),
    (Wrong::HoldersFull, (21, 3)),
];

// Two are held. A refused register changes neither the table nor what the book holds, so that the next can go behind them.
// What is wrong last is done first, so that what is wrong first stands.
fn attempt(rt: &impl Abort, one: Option<Wrong>, other: Option<Wrong>) -> Result<Refusal, Fail> {
    let mut book = open()?;
    let mut holders = [NOBODY; 3];
    assert_eq!(rt; register(&mut book, &mut holders, 3, 0, 0, 101), None);
    assert_eq!(rt; register(&mut book, &mut holders, 3, 1, 0, 102), None);
    let before = holders;
    let (mut room, mut place, mut day, mut supplier) = (3, 1, 2, 103);
    for wrong in [other, one].into_iter().flatten() {
        match wrong {
            Wrong::PlaceOutside => place = 2,
            Wrong::DayOutside => day = 3,
            Wrong::SupplierZero => supplier = 0,
            Wrong::HoldersCut => room = 1,
            Wrong::HoldersFull => room = 2,
        }
    }
    let answer = register(&mut book, &mut holders, room, place, day, supplier);
    if answer.is_some() {
        assert!(rt; holders == before);
        assert_eq!(rt; register(&mut book, &mut holders, 3, 1, 2, 103), None);
    }
    assert!(rt; holders == [put(0, 0, 101), put(1, 0, 102), put(1, 2, 103)]);
    Ok(answer)
}

#[test]
fn of_two_the_first_is_answered(rt: HostRuntime) -> Result<(), Fail> {
    let attempts = attempts(rt.alloc(), &REFUSALS)?;
    for tried in attempts.iter() {
        assert_eq!(rt; attempt(&rt, tried.one, tried.other)?, tried.expected);
    }
    Ok(())
}
