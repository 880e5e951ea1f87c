// An issue at its limits: 8, 11, 13 of a count, 16 and 20.
use crate::desk::{DAY_0, DAY_1, Issue, begun, ready};
use samples::{READINGS, Refusal, SEVENTY, SLOTS};
use std::test::*;

// Day and run, and the refusal. The book has three days.
const CALLS: [(u16, u8, Refusal); 7] = [
    (3, 1, Some((8, 1))),
    (2, 1, None),
    (65_535, 1, Some((8, 1))),
    (1, 0, Some((8, 2))),
    (1, 1, None),
    (1, 3, Some((8, 2))),
    (1, 2, None),
];

#[test]
fn days_and_runs(rt: HostRuntime) -> Result<(), Fail> {
    for (day, run, expected) in CALLS {
        let mut desk = begun(&rt)?;
        assert_eq!(rt; desk.issue(Issue { day, run, ..DAY_1 })?, expected);
    }
    Ok(())
}

// How long the tables of readings and of what was issued are lent, and the refusal.
const SIZES: [(usize, usize, Refusal); 7] = [
    (READINGS - 1, SLOTS, Some((11, 3))),
    (READINGS + 1, SLOTS, Some((11, 3))),
    (0, SLOTS, Some((11, 3))),
    (READINGS, SLOTS - 1, Some((11, 4))),
    (READINGS, SLOTS + 1, Some((11, 4))),
    (READINGS, 0, Some((11, 4))),
    (READINGS, SLOTS, None),
];

#[test]
fn sizes(rt: HostRuntime) -> Result<(), Fail> {
    for (readings, issued, expected) in SIZES {
        let mut desk = begun(&rt)?;
        let issue = Issue {
            readings,
            issued,
            ..DAY_1
        };
        assert_eq!(rt; desk.issue(issue)?, expected);
    }
    Ok(())
}

// How long holders, rows and journal are lent, and the refusal: 2 holders, 48 rows and 2 lines are held, and 2 lines are new.
const COUNTS: [(usize, usize, usize, Refusal); 9] = [
    (1, 48, 96, Some((13, 1))),
    (2, 48, 96, None),
    (4, 47, 96, Some((13, 2))),
    (4, 48, 96, None),
    (4, 48, 0, Some((13, 5))),
    (4, 48, 1, Some((13, 5))),
    (4, 48, 2, Some((20, 4))),
    (4, 48, 3, Some((20, 4))),
    (4, 48, 4, None),
];

#[test]
fn counts(rt: HostRuntime) -> Result<(), Fail> {
    for (holders, rows, journal, expected) in COUNTS {
        let mut desk = begun(&rt)?;
        let issue = Issue {
            holders,
            rows,
            journal,
            ..DAY_1
        };
        assert_eq!(rt; desk.issue(issue)?, expected);
    }
    Ok(())
}

// How long the journal is lent to the first issue, of two lines, and the refusal.
const FIRST: [(usize, Refusal); 3] = [(0, Some((20, 2))), (1, Some((20, 2))), (2, None)];

#[test]
fn first_lines(rt: HostRuntime) -> Result<(), Fail> {
    for (journal, expected) in FIRST {
        let mut desk = ready(SEVENTY, 30)?;
        assert_eq!(rt; desk.issue(Issue { journal, ..DAY_0 })?, expected);
    }
    // nothing was read that anybody is to have, so no line is sent
    let mut desk = ready(SEVENTY, 0)?;
    assert_eq!(rt;
        desk.issue(Issue {
            journal: 0,
            ..DAY_0
        })?,
        None
    );
    Ok(())
}
