// What an issue finds in the tables: 13 of an element, 18 and 19, before the end day and from it on.
use crate::desk::{DAY_1, Harm, Issue, begun};
use domain::{Quality, Reading, Slot};
use samples::Refusal;
use std::process::Abort;
use std::test::*;

fn metered(at: usize, quality: u8, kwh: u32) -> Harm {
    Harm::Metered {
        at,
        reading: Reading { quality, kwh },
    }
}

fn sent(at: usize, supplier: u16, volume: i32) -> Harm {
    Harm::Sent {
        at,
        slot: Slot { supplier, volume },
    }
}

// The answer to an issue of day 1 after a change.
fn after(rt: &impl Abort, harm: Harm) -> Result<Refusal, Fail> {
    let mut desk = begun(rt)?;
    desk.harm(harm)?;
    desk.issue(DAY_1)
}

// What stands in the slot of a reading, and the refusal: the readings of day 1 are in slots 48 to 95.
// A quality is a number, since 3 is no quality and 0 an empty slot.
const READ: [(usize, u8, u32, Refusal); 12] = [
    (95, 3, 0, Some((13, 3))),
    (95, 2, 0, None),
    (95, 1, 10_000_000, Some((13, 3))),
    (95, 1, 9_999_999, None),
    (95, 0, 10_000_000, Some((13, 3))),
    (95, 0, 0, Some((18, 48))),
    (96, 3, 10_000_000, None),
    (96, 0, 0, None),
    (48, 3, 0, Some((13, 3))),
    (48, 0, 0, Some((18, 1))),
    (47, 3, 10_000_000, None),
    (47, 0, 0, None),
];

#[test]
fn readings(rt: HostRuntime) -> Result<(), Fail> {
    for (at, quality, kwh, expected) in READ {
        assert_eq!(rt; after(&rt, metered(at, quality, kwh))?, expected);
    }
    Ok(())
}

// What stands in a slot of what was issued, and the refusal: those of day 1 are 96 to 191.
const ISSUED: [(usize, u16, i32, Refusal); 10] = [
    (191, 0, 1, Some((13, 4))),
    (191, 0, 0, None),
    (191, 102, 10_000_000, Some((13, 4))),
    (191, 102, 9_999_999, None),
    (191, 102, -10_000_000, Some((13, 4))),
    (191, 102, -9_999_999, None),
    (192, 0, 1, None),
    (96, 0, -1, Some((13, 4))),
    (96, 101, -1, None),
    (95, 0, 1, None),
];

#[test]
fn issued(rt: HostRuntime) -> Result<(), Fail> {
    for (at, supplier, volume, expected) in ISSUED {
        assert_eq!(rt; after(&rt, sent(at, supplier, volume))?, expected);
    }
    Ok(())
}

#[test]
fn first_empty_reading(rt: HostRuntime) -> Result<(), Fail> {
    let mut desk = begun(&rt)?;
    desk.harm(metered(87, 0, 0))?;
    desk.harm(metered(52, 0, 0))?;
    assert_eq!(rt; desk.issue(DAY_1)?, Some((18, 5)));
    assert_eq!(rt; desk.read(1, 5, Quality::Estimated, 0), None);
    assert_eq!(rt; desk.issue(DAY_1)?, Some((18, 40)));
    assert_eq!(rt; desk.read(1, 40, Quality::Estimated, 0), None);
    assert_eq!(rt; desk.issue(DAY_1)?, None);
    Ok(())
}

#[test]
fn first_place_without_a_holder(rt: HostRuntime) -> Result<(), Fail> {
    let mut desk = begun(&rt)?;
    desk.harm(Harm::HolderGone { at: 0 })?;
    desk.harm(Harm::HolderGone { at: 1 })?;
    assert_eq!(rt; desk.issue(DAY_1)?, Some((19, 0)));
    // a holder from the next day on is not in force
    desk.book.register(&mut desk.holders, 0, 2, 103)?;
    assert_eq!(rt; desk.issue(DAY_1)?, Some((19, 0)));
    desk.book.register(&mut desk.holders, 0, 1, 103)?;
    assert_eq!(rt; desk.issue(DAY_1)?, Some((19, 1)));
    Ok(())
}

// A change, the refusal of an issue of day 0, before the end day, and of day 1, the end day.
const ENDED: [(Option<Harm>, Refusal, Refusal); 6] = [
    (None, None, None),
    (
        Some(Harm::HolderNobody { at: 0 }),
        Some((13, 1)),
        Some((13, 1)),
    ),
    (Some(Harm::HolderNobody { at: 1 }), Some((13, 1)), None),
    (Some(Harm::RowUnlawful { at: 47 }), Some((13, 2)), None),
    (
        Some(Harm::HolderGone { at: 0 }),
        Some((19, 0)),
        Some((19, 0)),
    ),
    (Some(Harm::HolderGone { at: 1 }), Some((19, 1)), None),
];

fn on_day(rt: &impl Abort, harm: Option<Harm>, day: u16, rows: usize) -> Result<Refusal, Fail> {
    let mut desk = begun(rt)?;
    desk.book.end(&desk.holders, 101, 1, 2_820)?;
    if let Some(harm) = harm {
        desk.harm(harm)?;
    }
    desk.issue(Issue { day, rows, ..DAY_1 })
}

#[test]
fn around_the_end(rt: HostRuntime) -> Result<(), Fail> {
    for (harm, before, since) in ENDED {
        assert_eq!(rt; on_day(&rt, harm, 0, 48)?, before);
        assert_eq!(rt; on_day(&rt, harm, 1, 48)?, since);
        assert_eq!(rt; on_day(&rt, harm, 2, 48)?, since);
    }
    // the rows are counted from the end day on too
    assert_eq!(rt; on_day(&rt, None, 0, 47)?, Some((13, 2)));
    assert_eq!(rt; on_day(&rt, None, 1, 47)?, Some((13, 2)));
    Ok(())
}

#[test]
fn all_for_the_first_from_the_end_on(rt: HostRuntime) -> Result<(), Fail> {
    let mut desk = begun(&rt)?;
    desk.book.end(&desk.holders, 101, 1, 2_820)?;
    assert_eq!(rt; desk.issue(DAY_1)?, None);
    assert_eq!(rt; desk.volume(0, 13, 0)?, Some((21, 0)));
    assert_eq!(rt; desk.volume(0, 13, 1)?, Some((9, 0)));
    assert_eq!(rt; desk.volume(1, 13, 0)?, Some((30, 0)));
    assert_eq!(rt; desk.volume(1, 13, 1)?, None);
    Ok(())
}
