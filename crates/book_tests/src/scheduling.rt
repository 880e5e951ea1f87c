// Schedules: 8, 9, 10, 13, 14, 15, 21, and the notice that confirms a receipt.
use crate::helpers::{IN_TIME, NO_ROW, Sending, THIRD_PLACE, end, fixed, open, register, schedule};
use book::Book;
use domain::{AllocationRow, NOMINATIONS, Terms};
use history::Dated;
use rules::House;
use samples::{NOBODY, Refusal, SEVENTY, attempts};
use std::process::Abort;
use std::test::Fail;

// Schedules one after the other: sender, day, moment, rows, and the refusal.
const CASES: [(u16, u16, u32, usize, Refusal); 19] = [
    (0, 2, 4_260, 48, Some((8, 1))),
    (101, 3, 4_260, 48, Some((8, 2))),
    (101, 2, 4_260, 0, Some((8, 4))),
    (101, 2, 4_260, 47, Some((8, 4))),
    (101, 2, 4_260, 49, Some((8, 4))),
    (101, 2, 4_261, 48, Some((10, 4_260))),
    (101, 2, u32::MAX, 48, Some((10, 4_260))),
    (101, 2, 4_260, 48, None),
    (101, 1, 2_821, 48, Some((10, 2_820))),
    (101, 1, 2_820, 48, None),
    // nobody holds place 0 on day 0
    (101, 0, 1_380, 48, Some((14, 0))),
    (101, 0, 1_381, 48, Some((10, 1_380))),
    // 102 holds place 1 only
    (102, 2, 4_260, 48, Some((14, 2))),
    (65_535, 2, 4_260, 48, Some((14, 2))),
    (1, 2, 4_260, 48, Some((14, 2))),
    // the same day again replaces its rows
    (101, 2, 0, 48, None),
    (101, 1, 0, 48, None),
    (101, 2, 4_260, 48, None),
    (101, 2, 4_261, 48, Some((10, 4_260))),
];

#[test]
fn limits(rt: HostRuntime) -> Result<(), Fail> {
    let mut book = open()?;
    let holders: &mut [Dated<u16>] = &mut [NOBODY; 2];
    let rows: &mut [Dated<AllocationRow>] = &mut [NO_ROW; 96];
    assert_eq!(rt; register(&mut book, holders, 2, 0, 1, 101), None);
    assert_eq!(rt; register(&mut book, holders, 2, 1, 0, 102), None);
    for (sender, day, moment, count, expected) in CASES {
        let sent = Sending {
            sender,
            day,
            moment,
            count,
            room: 96,
        };
        assert_eq!(rt;
            schedule(&mut book, holders, rows, sent, &[SEVENTY; 49]),
            expected
        );
    }
    for (at, period, day) in [(0, 1, 2), (47, 48, 2), (48, 1, 1), (95, 48, 1)] {
        assert_eq!(rt; rows.get(at).copied(), Some(put(period, day)));
    }
    Ok(())
}

// The row of a period, put for a day.
fn put(period: u8, day: u16) -> Dated<AllocationRow> {
    Dated {
        subject: period,
        day,
        entry: SEVENTY,
    }
}

fn of_method(method: u8) -> AllocationRow {
    AllocationRow { method, ..SEVENTY }
}

fn nominating(nominations: [u32; NOMINATIONS]) -> AllocationRow {
    AllocationRow {
        nominations,
        ..SEVENTY
    }
}

fn balanced_at(balance: u8) -> AllocationRow {
    AllocationRow { balance, ..SEVENTY }
}

// Which row is exchanged for which, and the refusal. A method is a number here, since some of them are no method on purpose.
fn exchanged() -> [(usize, AllocationRow, Refusal); 11] {
    [
        (0, fixed(60), None),
        (0, fixed(61), Some((9, 1))),
        (47, fixed(60), None),
        (47, fixed(61), Some((9, 48))),
        (12, THIRD_PLACE, Some((9, 13))),
        (12, nominating([10_000, 0, 0, 0, 0, 0, 0, 0]), None),
        (12, nominating([10_001, 0, 0, 0, 0, 0, 0, 0]), Some((9, 13))),
        (12, nominating([7_000, 0, 0, 0, 0, 0, 0, 1]), Some((9, 13))),
        (12, balanced_at(0), Some((9, 13))),
        (12, of_method(0), Some((9, 13))),
        (12, of_method(8), Some((9, 13))),
    ]
}

fn with_row(rt: &impl Abort, at: usize, row: AllocationRow) -> Result<Refusal, Fail> {
    let mut book = open()?;
    let mut holders = [NOBODY; 1];
    let mut rows = [NO_ROW; 48];
    assert_eq!(rt; register(&mut book, &mut holders, 1, 0, 0, 101), None);
    let mut list = [SEVENTY; 48];
    let exchanged = list.get_mut(at).ok_or("no such row")?;
    *exchanged = row;
    Ok(schedule(&mut book, &holders, &mut rows, IN_TIME, &list))
}

#[test]
fn unlawful_rows(rt: HostRuntime) -> Result<(), Fail> {
    for (at, row, expected) in exchanged() {
        assert_eq!(rt; with_row(&rt, at, row)?, expected);
    }
    Ok(())
}

// Schedules one after the other: how long the table of rows is lent, day, and the refusal.
const ROOMS: [(usize, u16, Refusal); 11] = [
    (0, 0, Some((21, 48))),
    (47, 0, Some((21, 48))),
    (48, 0, None),
    (47, 0, Some((13, 2))),
    (47, 1, Some((13, 2))),
    // what replaces needs no room
    (48, 0, None),
    (48, 1, Some((21, 96))),
    (95, 1, Some((21, 96))),
    (96, 1, None),
    (95, 1, Some((13, 2))),
    (97, 0, None),
];

#[test]
fn rooms(rt: HostRuntime) -> Result<(), Fail> {
    let mut book = open()?;
    let holders: &mut [Dated<u16>] = &mut [NOBODY; 1];
    let rows: &mut [Dated<AllocationRow>] = &mut [NO_ROW; 97];
    assert_eq!(rt; register(&mut book, holders, 1, 0, 0, 101), None);
    for (room, day, expected) in ROOMS {
        let sent = Sending {
            day,
            room,
            moment: 1_380,
            ..IN_TIME
        };
        assert_eq!(rt;
            schedule(&mut book, holders, rows, sent, &[SEVENTY; 48]),
            expected
        );
    }
    for (at, expected) in [(0, put(1, 0)), (95, put(48, 1)), (96, NO_ROW)] {
        assert_eq!(rt; rows.get(at).copied(), Some(expected));
    }
    Ok(())
}

// A day, a sender, and the refusal: 101 holds place 0 from day 0, 103 from day 1, and the sharing ends on day 2.
const HELD: [(u16, u16, Refusal); 7] = [
    (0, 101, None),
    (0, 103, Some((14, 0))),
    (1, 101, Some((14, 1))),
    (1, 103, None),
    (2, 103, Some((15, 2))),
    (2, 101, Some((14, 2))),
    (1, 103, None),
];

#[test]
fn holders_and_the_end(rt: HostRuntime) -> Result<(), Fail> {
    let mut book = open()?;
    let holders: &mut [Dated<u16>] = &mut [NOBODY; 3];
    let rows: &mut [Dated<AllocationRow>] = &mut [NO_ROW; 96];
    assert_eq!(rt; register(&mut book, holders, 3, 0, 0, 101), None);
    assert_eq!(rt; register(&mut book, holders, 3, 0, 1, 103), None);
    assert_eq!(rt; end(&mut book, holders, 3, 103, 2, 4_260), None);
    for (day, sender, expected) in HELD {
        let sent = Sending {
            sender,
            day,
            moment: 1_380,
            ..IN_TIME
        };
        assert_eq!(rt;
            schedule(&mut book, holders, rows, sent, &[SEVENTY; 48]),
            expected
        );
    }
    Ok(())
}

// What can be wrong with a schedule.
#[derive(Clone, Copy)]
enum Wrong {
    SenderZero,
    DayOutside,
    RowMissing,
    RowsUnlawful,
    TooLate,
    HoldersCut,
    HolderSpoiled,
    RowsCut,
    AnotherSender,
    AlreadyEnded,
    RowsFull,
}

// What can be wrong, with its refusal, in the order in which it is answered.
const REFUSALS: [(Wrong, (u8, u64)); 11] = [
    (Wrong::SenderZero, (8, 1)),
    (Wrong::DayOutside, (8, 2)),
    (Wrong::RowMissing, (8, 4)),
    (Wrong::RowsUnlawful, (9, 5)),
    (Wrong::TooLate, (10, 4_260)),
    (Wrong::HoldersCut, (13, 1)),
    (Wrong::HolderSpoiled, (13, 1)),
    (Wrong::RowsCut, (13, 2)),
    (Wrong::AnotherSender, (14, 2)),
    (Wrong::AlreadyEnded, (15, 1)),
    (Wrong::RowsFull, (21, 96)),
];

// Of day 0, long before its gate.
const EARLY: Sending = Sending {
    day: 0,
    moment: 0,
    ..IN_TIME
};

// The rows of day 0 are held. A refused schedule leaves the table of rows as it was.
// What is wrong last is done first, so that what is wrong first stands.
fn attempt(rt: &impl Abort, one: Option<Wrong>, other: Option<Wrong>) -> Result<Refusal, Fail> {
    let mut book = open()?;
    let mut holders = [NOBODY; 1];
    let mut rows = [NO_ROW; 96];
    assert_eq!(rt; register(&mut book, &mut holders, 1, 0, 0, 101), None);
    assert_eq!(rt;
        schedule(&mut book, &holders, &mut rows, EARLY, &[SEVENTY; 48]),
        None
    );
    let before = rows;
    let (mut lent, mut sent, mut list) = (1, IN_TIME, [SEVENTY; 48]);
    for wrong in [other, one].into_iter().flatten() {
        match wrong {
            Wrong::SenderZero => sent.sender = 0,
            Wrong::DayOutside => sent.day = 3,
            Wrong::RowMissing => sent.count = 47,
            Wrong::RowsUnlawful => {
                list[4] = THIRD_PLACE;
                list[30] = fixed(61);
            }
            Wrong::TooLate => sent.moment = 5_701,
            Wrong::HoldersCut => lent = 0,
            Wrong::HolderSpoiled => holders[0].entry = 0,
            Wrong::RowsCut => sent.room = 47,
            Wrong::AnotherSender => sent.sender = 102,
            Wrong::AlreadyEnded => {
                assert_eq!(rt; end(&mut book, &holders, 1, 101, 1, 0), None);
            }
            Wrong::RowsFull => sent.room = 95,
        }
    }
    let held = &holders[..holders.len().min(lent)];
    let answer = schedule(&mut book, held, &mut rows, sent, &list);
    assert!(rt; answer.is_none() || rows == before);
    Ok(answer)
}

#[test]
fn of_two_the_first_is_answered(rt: HostRuntime) -> Result<(), Fail> {
    let attempts = attempts(rt.alloc(), &REFUSALS)?;
    for tried in attempts.iter() {
        assert_eq!(rt; attempt(&rt, tried.one, tried.other)?, tried.expected);
    }
    Ok(())
}

// The notice of a schedule for a day by a sender at a moment, in a book of 62 days.
fn noticed(day: u16, sender: u16, moment: u32) -> Result<[u8; 16], Fail> {
    let mut book = Book::open(Terms::new(2, 62, 60)?, House);
    let mut holders = [NOBODY; 1];
    let mut rows = [NO_ROW; 48];
    book.register(&mut holders, 0, 0, sender)?;
    let receipt = book.schedule(&holders, &mut rows, sender, day, moment, &[SEVENTY; 48])?;
    Ok(receipt.confirm())
}

#[test]
fn notices(rt: HostRuntime) -> Result<(), Fail> {
    let two = b"SSM\x00\x01\x04\x00\x01\x00\x02\x00\x65\x00\x00\x10\xa4";
    assert_eq!(rt; noticed(2, 101, 4_260)?, *two);
    let last = b"SSM\x00\x01\x04\x00\x01\x00\x3d\xab\xcd\x00\x01\x5c\x84";
    assert_eq!(rt; noticed(61, 0xabcd, 89_220)?, *last);
    Ok(())
}
