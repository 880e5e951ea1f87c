// What an issue has sent: volumes, and statements of the lines.
use crate::desk::{DAY_0, Desk, Issue, begun, ready};
use domain::{Line, Quality, Run};
use files::read_statement;
use samples::{Refusal, SEVENTY, THIRTY, refusal};
use std::test::*;

#[test]
fn volumes(rt: HostRuntime) -> Result<(), Fail> {
    let mut desk = ready(SEVENTY, 30)?;
    assert_eq!(rt; desk.volume(0, 13, 0)?, None);
    assert_eq!(rt; desk.issue(DAY_0)?, None);
    assert_eq!(rt; desk.volume(0, 13, 0)?, Some((21, 0)));
    assert_eq!(rt; desk.volume(0, 13, 1)?, Some((9, 0)));
    assert_eq!(rt; desk.volume(0, 12, 0)?, Some((0, 0)));
    assert_eq!(rt; desk.volume(1, 13, 0)?, None);
    // a later reading, and another issue
    assert_eq!(rt; desk.read(0, 13, Quality::Actual, 20), None);
    assert_eq!(rt; desk.volume(0, 13, 0)?, Some((21, 0)));
    assert_eq!(rt; desk.issue(DAY_0)?, None);
    assert_eq!(rt; desk.volume(0, 13, 0)?, Some((14, 0)));
    assert_eq!(rt; desk.volume(0, 13, 1)?, Some((6, 0)));
    Ok(())
}

// A fixed block of 30 kWh where 20 were read: the balance place has 10 kWh in the other direction.
#[test]
fn virtual_volumes(rt: HostRuntime) -> Result<(), Fail> {
    let mut desk = ready(THIRTY, 20)?;
    // all other half hours have 30 kWh and 30 the other way, so every place has a line in each
    assert_eq!(rt;
        desk.issue(Issue {
            journal: 95,
            ..DAY_0
        })?,
        Some((20, 96))
    );
    assert_eq!(rt; desk.issue(DAY_0)?, None);
    assert_eq!(rt; desk.volume(0, 13, 0)?, Some((30, 0)));
    assert_eq!(rt; desk.volume(0, 13, 1)?, Some((0, 10)));
    assert_eq!(rt; desk.volume(0, 48, 0)?, Some((30, 0)));
    assert_eq!(rt; desk.volume(0, 48, 1)?, Some((0, 30)));
    Ok(())
}

fn write(desk: &Desk, room: usize, first: usize, count: usize, out: &mut [u8]) -> Refusal {
    let room = room.min(desk.journal.len());
    refusal(
        desk.book
            .statement(&desk.journal[0..room], first, count, out),
    )
}

// How long the journal is lent, the first line and the count, and the refusal: two lines were sent.
const STATEMENTS: [(usize, usize, usize, Refusal); 10] = [
    (0, 0, 0, Some((13, 5))),
    (1, 0, 1, Some((13, 5))),
    (1, 0, 2, Some((13, 5))),
    (2, 0, 2, None),
    (2, 1, 1, None),
    (2, 2, 0, None),
    (2, 2, 1, Some((8, 2))),
    (2, 3, 0, Some((8, 1))),
    (1, 0, 3, Some((8, 2))),
    (1, 3, 0, Some((8, 1))),
];

#[test]
fn statements(rt: HostRuntime) -> Result<(), Fail> {
    let desk = begun(&rt)?;
    for (room, first, count, expected) in STATEMENTS {
        let mut out = [0xaa; 30];
        assert_eq!(rt; write(&desk, room, first, count, &mut out), expected);
        assert!(rt; expected.is_none() || out == [0xaa; 30]);
    }
    // a buffer too short comes before a journal too short
    assert_eq!(rt; write(&desk, 1, 0, 2, &mut [0; 29]), Some((12, 30)));
    assert_eq!(rt; write(&desk, 1, 0, 2, &mut [0; 30]), Some((13, 5)));
    Ok(())
}

fn line(place: u8, supplier: u16, volume: i32) -> Line {
    Line {
        day: 0,
        period: 13,
        place,
        supplier,
        run: Run::Initial as u8,
        volume,
    }
}

#[test]
fn read_back(rt: HostRuntime) -> Result<(), Fail> {
    let desk = begun(&rt)?;
    let mut out = [0xaa; 40];
    assert_eq!(rt; desk.book.statement(&desk.journal, 0, 2, &mut out)?, 30);
    let statement = read_statement(&out[0..30])?;
    assert_eq!(rt; statement.len(), 2);
    assert_eq!(rt; statement.get(0).ok_or("no line")?, line(0, 101, 21));
    assert_eq!(rt; statement.get(1).ok_or("no line")?, line(1, 102, 9));
    assert!(rt; statement.get(2).is_none());
    Ok(())
}
