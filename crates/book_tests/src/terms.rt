// Terms: 7 and the number of the term.
use domain::Terms;
use samples::{Refusal, refusal};
use std::test::Fail;

// Terms, each limit from both sides, and the first that is outside where there are several.
const CASES: [(u8, u16, u32, Refusal); 15] = [
    (1, 3, 60, Some((7, 1))),
    (2, 3, 60, None),
    (8, 3, 60, None),
    (9, 3, 60, Some((7, 1))),
    (2, 0, 60, Some((7, 2))),
    (2, 1, 60, None),
    (2, 62, 60, None),
    (2, 63, 60, Some((7, 2))),
    (2, 3, 0, None),
    (2, 3, 9_999_999, None),
    (2, 3, 10_000_000, Some((7, 3))),
    (9, 63, 10_000_000, Some((7, 1))),
    (1, 0, 60, Some((7, 1))),
    (1, 3, 10_000_000, Some((7, 1))),
    (2, 63, 10_000_000, Some((7, 2))),
];

#[test]
fn limits(rt: HostRuntime) {
    for (places, days, capacity, expected) in CASES {
        assert_eq!(rt; refusal(Terms::new(places, days, capacity)), expected);
    }
}

#[test]
fn terms_are_as_asked_for(rt: HostRuntime) -> Result<(), Fail> {
    let terms = Terms::new(3, 5, 60)?;
    assert_eq!(rt; (terms.places, terms.days, terms.capacity), (3, 5, 60));
    Ok(())
}
