// Long lists of calls on sites of two to eight places, replayed, and their lines beside a second calculation.
use crate::generator::{CAPACITY, DAYS, Dice, calls, schedules};
use crate::ledger::{Ledger, sums};
use crate::replays::replayed;
use domain::{Run, Terms, reading_slots};
use std::process::Abort;
use std::test::*;

const LINES: usize = 20_000;

// Replays a list on a site of so many places, and compares its lines with the second calculation.
fn added_up<R: Abort + AllocGlobal>(
    rt: &R,
    start: u64,
    places: u8,
    methods: &[Option<u8>],
) -> Result<(), Fail> {
    let alloc = rt.alloc();
    let mut dice = Dice { state: start };
    let schedules = schedules(&mut dice, places);
    let calls = calls(alloc, &mut dice, places, &schedules)?;
    let terms = Terms::new(places, DAYS, CAPACITY)?;
    let results = replayed(alloc, terms, LINES, calls.as_slice())?;
    let mut ledger = Ledger::new(alloc, places);
    for (call, came) in calls.iter().zip(&results.outcomes) {
        ledger.keep(*call, *came)?;
    }
    let sent = ledger.lines();
    assert!(rt; sent <= results.journal.len());
    ledger.compare(&sums(rt, alloc, &results.journal[..sent])?)?;
    tests_enough(rt, &ledger, places, methods);
    Ok(())
}

// Accepted calls of every kind, refused ones, and half hours split by all methods that such a site may have, and by none.
// Methods are numbers, since that is what rows store.
fn tests_enough(rt: &impl Abort, ledger: &Ledger<'_>, places: u8, methods: &[Option<u8>]) {
    assert!(rt; ledger.holders.len() > usize::from(places));
    assert!(rt; ledger.schedules.len() >= 3);
    assert!(rt; ledger.readings.len() > reading_slots(DAYS));
    assert!(rt; ledger.issues.len() >= 10);
    assert!(rt;
        ledger
            .issues
            .iter()
            .any(|issue| issue.run == Run::Final as u8)
    );
    assert!(rt; ledger.refusals.len() >= 10);
    assert_eq!(rt; ledger.ends.len(), 1);
    let splits = ledger.issues.iter().flat_map(|issue| &issue.splits);
    let below_zero = splits.filter(|split| split.is_below_zero());
    assert_eq!(rt; below_zero.take(10).count(), 10);
    for method in methods {
        let splits = ledger.issues.iter().flat_map(|issue| &issue.splits);
        let by_method = splits.filter(|split| split.method() == *method);
        assert_eq!(rt; by_method.take(10).count(), 10);
    }
}

fn lists_add_up<R: Abort + AllocGlobal>(
    rt: &R,
    places: u8,
    methods: &[Option<u8>],
    starts: [u64; 3],
) -> Result<(), Fail> {
    for start in starts {
        added_up(rt, start, places, methods)?;
    }
    Ok(())
}

#[test]
fn two_places(rt: HostRuntime) -> Result<(), Fail> {
    let methods = [None, Some(1), Some(2), Some(3)];
    lists_add_up(&rt, 2, &methods, [7, 19, 2_024])
}

#[test]
fn three_places(rt: HostRuntime) -> Result<(), Fail> {
    let methods = [None, Some(4), Some(5)];
    lists_add_up(&rt, 3, &methods, [3, 101, 65_537])
}

#[test]
fn four_places(rt: HostRuntime) -> Result<(), Fail> {
    let methods = [None, Some(4), Some(6), Some(7)];
    lists_add_up(&rt, 4, &methods, [1, 12_345, 999_983])
}

#[test]
fn eight_places(rt: HostRuntime) -> Result<(), Fail> {
    let methods = [None, Some(4), Some(6)];
    lists_add_up(&rt, 8, &methods, [5, 42, 1_000_003])
}
