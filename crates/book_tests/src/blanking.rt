// Blanking: 11.
use crate::helpers::{METERED, SENT, open};
use domain::{Reading, Slot};
use samples::{READINGS, Refusal, SLOTS, refusal};
use std::test::Fail;

// How many readings and slots are lent, and the refusal.
const CASES: [(usize, usize, Refusal); 9] = [
    (READINGS - 1, SLOTS, Some((11, 3))),
    (READINGS + 1, SLOTS, Some((11, 3))),
    (0, SLOTS, Some((11, 3))),
    (READINGS, SLOTS - 1, Some((11, 4))),
    (READINGS, SLOTS + 1, Some((11, 4))),
    (READINGS, 0, Some((11, 4))),
    (READINGS - 1, SLOTS - 1, Some((11, 3))),
    (READINGS + 1, SLOTS + 1, Some((11, 3))),
    (READINGS, SLOTS, None),
];

fn blank(
    readings: &mut [Reading],
    issued: &mut [Slot],
    some: usize,
    others: usize,
) -> Result<Refusal, Fail> {
    let some = some.min(readings.len());
    let others = others.min(issued.len());
    Ok(refusal(open()?.blank(&mut readings[0..some], &mut issued[0..others])))
}

fn are_all<T: Copy + PartialEq>(table: &[T], element: T) -> bool {
    table.iter().all(|held| *held == element)
}

// A refused call leaves both tables as they were, and an accepted one empties what it is lent.
#[test]
fn sizes(rt: HostRuntime) -> Result<(), Fail> {
    let readings: &mut [Reading] = &mut [METERED; READINGS + 1];
    let issued: &mut [Slot] = &mut [SENT; SLOTS + 1];
    for (some, others, expected) in CASES {
        assert!(rt; are_all(readings, METERED) && are_all(issued, SENT));
        assert_eq!(rt; blank(readings, issued, some, others)?, expected);
    }
    assert!(rt; readings.len() == READINGS + 1 && issued.len() == SLOTS + 1);
    assert!(rt; are_all(&readings[0..READINGS], Reading::NONE));
    assert!(rt; are_all(&issued[0..SLOTS], Slot::NONE));
    assert!(rt; are_all(&readings[READINGS..], METERED));
    assert!(rt; are_all(&issued[SLOTS..], SENT));
    Ok(())
}
