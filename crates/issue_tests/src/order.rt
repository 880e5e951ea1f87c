// Which of two refusals of an issue comes first.
use crate::desk::{DAY_1_FINAL, Desk, Issue, begun};
use domain::{Quality, Reading, Slot};
use samples::{READINGS, Refusal, SLOTS, attempts};
use std::process::Abort;
use std::test::*;

// What can be wrong with an issue.
#[derive(Clone, Copy, PartialEq)]
enum Wrong {
    DayOutside,
    RunUnknown,
    ReadingsCut,
    SlotsCut,
    HoldersCut,
    HolderSpoiled,
    RowsCut,
    RowUnlawful,
    ReadingSpoiled,
    SlotSpoiled,
    JournalCut,
    DayClosed,
    ReadingMissing,
    HolderMissing,
    JournalFull,
}

// A volume that was sent to nobody.
const SPOILED: Slot = Slot {
    supplier: 0,
    volume: 1,
};

// What can be wrong, with its refusal, in the order in which it is answered.
const REFUSALS: [(Wrong, (u8, u64)); 15] = [
    (Wrong::DayOutside, (8, 1)),
    (Wrong::RunUnknown, (8, 2)),
    (Wrong::ReadingsCut, (11, 3)),
    (Wrong::SlotsCut, (11, 4)),
    (Wrong::HoldersCut, (13, 1)),
    (Wrong::HolderSpoiled, (13, 1)),
    (Wrong::RowsCut, (13, 2)),
    (Wrong::RowUnlawful, (13, 2)),
    (Wrong::ReadingSpoiled, (13, 3)),
    (Wrong::SlotSpoiled, (13, 4)),
    (Wrong::JournalCut, (13, 5)),
    (Wrong::DayClosed, (16, 1)),
    (Wrong::ReadingMissing, (18, 20)),
    (Wrong::HolderMissing, (19, 1)),
    (Wrong::JournalFull, (20, 4)),
];

// Closes day 1, and then reads more there than was issued, by hand.
fn close(rt: &impl Abort, desk: &mut Desk) -> Result<(), Fail> {
    assert_eq!(rt; desk.issue(DAY_1_FINAL)?, None);
    desk.readings[60] = Reading {
        quality: Quality::Actual as u8,
        kwh: 40,
    };
    Ok(())
}

// What is wrong last is done first, so that what is wrong first stands. Only the day is closed before all else.
fn attempt(rt: &impl Abort, one: Option<Wrong>, other: Option<Wrong>) -> Result<Refusal, Fail> {
    let mut desk = begun(rt)?;
    let closed = one == Some(Wrong::DayClosed) || other == Some(Wrong::DayClosed);
    if closed {
        close(rt, &mut desk)?;
    }
    // how long the journal is lent: two lines are held and two are new, or four are held where the day is closed
    let [cut, full, enough] = if closed { [3, 5, 6] } else { [1, 3, 4] };
    let mut issue = Issue {
        holders: 2,
        journal: enough,
        ..DAY_1_FINAL
    };
    for wrong in [other, one].into_iter().flatten() {
        match wrong {
            Wrong::DayOutside => issue.day = 3,
            Wrong::RunUnknown => issue.run = 0,
            Wrong::ReadingsCut => issue.readings = READINGS - 1,
            Wrong::SlotsCut => issue.issued = SLOTS - 1,
            Wrong::HoldersCut => issue.holders = 1,
            Wrong::HolderSpoiled => desk.holders[0].entry = 0,
            Wrong::RowsCut => issue.rows = 47,
            Wrong::RowUnlawful => desk.rows[47].entry.balance = 0,
            Wrong::ReadingSpoiled => desk.readings[95] = Reading { quality: 3, kwh: 0 },
            Wrong::SlotSpoiled => desk.issued[191] = SPOILED,
            Wrong::JournalCut => issue.journal = cut,
            Wrong::DayClosed => {}
            Wrong::ReadingMissing => desk.readings[67] = Reading::NONE,
            Wrong::HolderMissing => desk.holders[1].subject = 9,
            Wrong::JournalFull => issue.journal = full,
        }
    }
    desk.issue(issue)
}

#[test]
fn of_two_the_first_is_answered(rt: HostRuntime) -> Result<(), Fail> {
    let attempts = attempts(rt.alloc(), &REFUSALS)?;
    for tried in attempts.iter() {
        assert_eq!(rt; attempt(&rt, tried.one, tried.other)?, tried.expected);
    }
    Ok(())
}
