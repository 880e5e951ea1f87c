// What follows the last run of a day: 16 of an issue and of a reading.
use crate::desk::{DAY_0, DAY_1, DAY_1_FINAL, Issue, begun};
use domain::Quality::{Actual, Estimated};
use std::test::*;

#[test]
fn issues_of_a_closed_day(rt: HostRuntime) -> Result<(), Fail> {
    let mut desk = begun(&rt)?;
    assert_eq!(rt; desk.issue(DAY_1)?, None);
    assert_eq!(rt; desk.issue(DAY_1)?, None);
    assert_eq!(rt; desk.issue(DAY_1_FINAL)?, None);
    assert_eq!(rt; desk.issue(DAY_1_FINAL)?, Some((16, 1)));
    assert_eq!(rt; desk.issue(DAY_1)?, Some((16, 1)));
    assert_eq!(rt; desk.issue(DAY_0)?, None);
    assert_eq!(rt; desk.issue(Issue { day: 2, ..DAY_1 })?, None);
    Ok(())
}

#[test]
fn readings_of_a_closed_day(rt: HostRuntime) -> Result<(), Fail> {
    let mut desk = begun(&rt)?;
    assert_eq!(rt; desk.issue(DAY_1)?, None);
    assert_eq!(rt; desk.read(1, 48, Actual, 5), None);
    // a refused issue closes nothing
    let short = Issue {
        journal: 5,
        ..DAY_1_FINAL
    };
    assert_eq!(rt; desk.issue(short)?, Some((20, 6)));
    assert_eq!(rt; desk.read(1, 48, Actual, 6), None);
    assert_eq!(rt; desk.issue(DAY_1_FINAL)?, None);
    assert_eq!(rt; desk.read(1, 48, Actual, 7), Some((16, 1)));
    // before an estimate over an actual
    assert_eq!(rt; desk.read(1, 48, Estimated, 7), Some((16, 1)));
    assert_eq!(rt; desk.read(1, 1, Estimated, 7), Some((16, 1)));
    assert_eq!(rt; desk.read(0, 48, Estimated, 7), None);
    assert_eq!(rt; desk.read(2, 1, Estimated, 7), None);
    Ok(())
}

#[test]
fn spoiled_before_closed(rt: HostRuntime) -> Result<(), Fail> {
    let mut desk = begun(&rt)?;
    assert_eq!(rt; desk.issue(DAY_1_FINAL)?, None);
    desk.readings[95].quality = 3;
    assert_eq!(rt; desk.read(1, 48, Actual, 5), Some((13, 3)));
    assert_eq!(rt; desk.read(1, 47, Actual, 5), Some((16, 1)));
    Ok(())
}
