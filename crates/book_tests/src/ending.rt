// Ending the sharing: 8, 10, 13, 14, 15.
use crate::helpers::{end, open, register};
use history::Dated;
use samples::{NOBODY, Refusal, attempts};
use std::process::Abort;
use std::test::Fail;

// Ends one after the other: how many holders are lent, sender, day, moment, and the refusal.
const CASES: [(usize, u16, u16, u32, Refusal); 13] = [
    (3, 0, 2, 4_260, Some((8, 1))),
    (3, 101, 3, 0, Some((8, 2))),
    (3, 101, 2, 4_261, Some((10, 4_260))),
    (3, 101, 1, 2_821, Some((10, 2_820))),
    (3, 101, 2, u32::MAX, Some((10, 4_260))),
    (1, 101, 2, 4_260, Some((13, 1))),
    (0, 101, 2, 4_260, Some((13, 1))),
    (3, 102, 2, 4_260, Some((14, 2))),
    // nobody holds place 0 on day 0
    (3, 101, 0, 1_380, Some((14, 0))),
    (2, 101, 2, 4_260, None),
    (3, 101, 2, 4_260, Some((15, 2))),
    (3, 101, 1, 2_820, Some((15, 2))),
    (3, 102, 1, 2_820, Some((14, 1))),
];

#[test]
fn limits(rt: HostRuntime) -> Result<(), Fail> {
    let mut book = open()?;
    let holders: &mut [Dated<u16>] = &mut [NOBODY; 3];
    assert_eq!(rt; register(&mut book, holders, 3, 0, 1, 101), None);
    assert_eq!(rt; register(&mut book, holders, 3, 1, 0, 102), None);
    for (room, sender, day, moment, expected) in CASES {
        assert_eq!(rt;
            end(&mut book, holders, room, sender, day, moment),
            expected
        );
    }
    // a holder may be registered after the end, and for a day after it
    assert_eq!(rt; register(&mut book, holders, 3, 1, 2, 103), None);
    Ok(())
}

#[test]
fn senders(rt: HostRuntime) -> Result<(), Fail> {
    for sender in [1, 65_535] {
        let mut book = open()?;
        let mut holders = [NOBODY; 1];
        assert_eq!(rt; register(&mut book, &mut holders, 1, 0, 0, sender), None);
        assert_eq!(rt;
            end(&mut book, &holders, 1, sender, 0, 1_381),
            Some((10, 1_380))
        );
        assert_eq!(rt; end(&mut book, &holders, 1, sender, 0, 1_380), None);
    }
    Ok(())
}

// An element that is spoiled after it was put, and the refusal of an end for day 1: only the holder in force is read.
const SPOILED: [(usize, Refusal); 3] = [(0, None), (1, Some((13, 1))), (2, None)];

#[test]
fn spoiled_holders(rt: HostRuntime) -> Result<(), Fail> {
    for (at, expected) in SPOILED {
        let mut book = open()?;
        let mut holders = [NOBODY; 3];
        assert_eq!(rt; register(&mut book, &mut holders, 3, 0, 0, 101), None);
        assert_eq!(rt; register(&mut book, &mut holders, 3, 0, 1, 101), None);
        assert_eq!(rt; register(&mut book, &mut holders, 3, 0, 2, 101), None);
        spoil(&mut holders, at)?;
        assert_eq!(rt; end(&mut book, &holders, 3, 101, 1, 0), expected);
    }
    Ok(())
}

fn spoil(holders: &mut [Dated<u16>], at: usize) -> Result<(), Fail> {
    let holder = holders.get_mut(at).ok_or("no such holder")?;
    holder.entry = 0;
    Ok(())
}

// What can be wrong with an end.
#[derive(Clone, Copy)]
enum Wrong {
    SenderZero,
    DayOutside,
    TooLate,
    HoldersCut,
    HolderSpoiled,
    AnotherSender,
    AlreadyEnded,
}

// What can be wrong, with its refusal, in the order in which it is answered.
const REFUSALS: [(Wrong, (u8, u64)); 7] = [
    (Wrong::SenderZero, (8, 1)),
    (Wrong::DayOutside, (8, 2)),
    (Wrong::TooLate, (10, 4_260)),
    (Wrong::HoldersCut, (13, 1)),
    (Wrong::HolderSpoiled, (13, 1)),
    (Wrong::AnotherSender, (14, 2)),
    (Wrong::AlreadyEnded, (15, 1)),
];

// What is wrong last is done first, so that what is wrong first stands.
fn attempt(rt: &impl Abort, one: Option<Wrong>, other: Option<Wrong>) -> Result<Refusal, Fail> {
    let mut book = open()?;
    let mut holders = [NOBODY; 1];
    assert_eq!(rt; register(&mut book, &mut holders, 1, 0, 0, 101), None);
    let (mut room, mut sender, mut day, mut moment) = (1, 101, 2, 4_260);
    for wrong in [other, one].into_iter().flatten() {
        match wrong {
            Wrong::SenderZero => sender = 0,
            Wrong::DayOutside => day = 3,
            Wrong::TooLate => moment = 5_701,
            Wrong::HoldersCut => room = 0,
            Wrong::HolderSpoiled => holders[0].entry = 0,
            Wrong::AnotherSender => sender = 102,
            Wrong::AlreadyEnded => {
                assert_eq!(rt; end(&mut book, &holders, 1, 101, 1, 0), None);
            }
        }
    }
    Ok(end(&mut book, &holders, room, sender, day, moment))
}

#[test]
fn of_two_the_first_is_answered(rt: HostRuntime) -> Result<(), Fail> {
    let attempts = attempts(rt.alloc(), &REFUSALS)?;
    for tried in attempts.iter() {
        assert_eq!(rt; attempt(&rt, tried.one, tried.other)?, tried.expected);
    }
    Ok(())
}
