// What comes of a long list of calls.
use domain::{AllocationRow, Line, PERIODS, Reading, Slot, Terms, issued_slots, reading_slots};
use history::Dated;
use rules::House;
use season::{Accepted, Call, Outcome, Tables, replay};
use std::alloc::Global;
use std::test::Fail;

// The journal of a list, and what came of each call.
#[derive(Drop)]
pub(crate) struct Results {
    pub(crate) journal: Vec<Line>,
    pub(crate) outcomes: Vec<Outcome>,
}

// The days for which each history has room.
const DAYS_HELD: usize = 3;

// Replays a list with a journal of so many lines.
pub(crate) fn replayed(
    alloc: Global,
    terms: Terms,
    lines: usize,
    calls: &[Call<'_>],
) -> Result<Results, Fail> {
    let holders = usize::from(terms.places) * DAYS_HELD;
    let rows = usize::from(PERIODS) * DAYS_HELD;
    let slots = issued_slots(terms.places, terms.days);
    let mut holders = vec![in alloc; Dated::blank(0); holders]?;
    let mut rows = vec![in alloc; Dated::blank(AllocationRow::NONE); rows]?;
    let mut readings = vec![in alloc; Reading::NONE; reading_slots(terms.days)]?;
    let mut issued = vec![in alloc; Slot::NONE; slots]?;
    let mut journal = vec![in alloc; Line::NONE; lines]?;
    let mut outcomes = vec![in alloc; Ok(Accepted::Done); calls.len()]?;
    let mut tables = Tables {
        holders: holders.as_mut_slice(),
        rows: rows.as_mut_slice(),
        readings: readings.as_mut_slice(),
        issued: issued.as_mut_slice(),
        journal: journal.as_mut_slice(),
    };
    let _book = replay(terms, House, &mut tables, calls, outcomes.as_mut_slice())?;
    Ok(Results { journal, outcomes })
}
