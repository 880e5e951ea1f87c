// What the tests have in common: a small book with its tables, ready to be issued, and its calls.
use book::Book;
use domain::{AllocationRow, Line, PERIODS, Quality, Reading, Run, Slot, Terms};
use history::Dated;
use rules::House;
use samples::{NOBODY, READINGS, Refusal, SEVENTY, SLOTS, STRAY, refusal};
use std::process::Abort;
use std::test::*;

// An element of a table of rows that nobody has put. The tests of the book have one with a row that is not lawful.
const NO_ROW: Dated<AllocationRow> = Dated {
    subject: 99,
    day: 99,
    entry: SEVENTY,
};

// A book of two places and three days, with a capacity of 60 kWh, and its tables. No type with others that keep a book and tables: these are arrays, of the sizes that these tests need.
#[derive(Drop)]
pub(crate) struct Desk {
    pub(crate) book: Book<House>,
    pub(crate) holders: [Dated<u16>; 4],
    pub(crate) rows: [Dated<AllocationRow>; 48],
    pub(crate) readings: [Reading; READINGS + 1],
    pub(crate) issued: [Slot; SLOTS + 1],
    pub(crate) journal: [Line; 96],
}

// An issue: how long each table is lent, the day and the run. A run is a number, since some of them are no run on purpose.
#[derive(Clone, Copy)]
pub(crate) struct Issue {
    pub(crate) holders: usize,
    pub(crate) rows: usize,
    pub(crate) readings: usize,
    pub(crate) issued: usize,
    pub(crate) journal: usize,
    pub(crate) day: u16,
    pub(crate) run: u8,
}

// Day 1, with all that it needs.
pub(crate) const DAY_1: Issue = Issue {
    holders: 4,
    rows: 48,
    readings: READINGS,
    issued: SLOTS,
    journal: 96,
    day: 1,
    run: Run::Initial as u8,
};

pub(crate) const DAY_1_FINAL: Issue = Issue {
    run: Run::Final as u8,
    ..DAY_1
};

pub(crate) const DAY_0: Issue = Issue { day: 0, ..DAY_1 };

// A book whose places are held by 101 and 102, with the same row for every half hour.
fn shared(row: AllocationRow) -> Result<Desk, Fail> {
    let mut desk = Desk {
        book: Book::open(Terms::new(2, 3, 60)?, House),
        holders: [NOBODY; 4],
        rows: [NO_ROW; 48],
        readings: [Reading::NONE; READINGS + 1],
        issued: [Slot::NONE; SLOTS + 1],
        journal: [STRAY; 96],
    };
    desk.book.register(&mut desk.holders, 0, 0, 101)?;
    desk.book.register(&mut desk.holders, 1, 0, 102)?;
    let receipt = desk
        .book
        .schedule(&desk.holders, &mut desk.rows, 101, 0, 1_380, &[row; 48])?;
    let _ = receipt.confirm();
    Ok(desk)
}

// The same with its three days read: some kWh in period 13, and 0 in all others.
pub(crate) fn ready(row: AllocationRow, kwh: u32) -> Result<Desk, Fail> {
    let mut desk = shared(row)?;
    for day in 0..3u16 {
        desk.read_day(day, kwh)?;
    }
    Ok(desk)
}

// The same with day 0 issued, by two lines.
pub(crate) fn begun(rt: &impl Abort) -> Result<Desk, Fail> {
    let mut desk = ready(SEVENTY, 30)?;
    assert_eq!(rt; desk.issue(DAY_0)?, None);
    Ok(desk)
}

impl Desk {
    fn read_day(&mut self, day: u16, kwh: u32) -> Result<(), Fail> {
        for period in 1..=PERIODS {
            let metered = if period == 13 { kwh } else { 0 };
            if self
                .read(day, period, Quality::Estimated, metered)
                .is_some()
            {
                return Err(Fail::new("a reading was refused"));
            }
        }
        Ok(())
    }

    pub(crate) fn read(&mut self, day: u16, period: u8, quality: Quality, kwh: u32) -> Refusal {
        let readings = &mut self.readings[0..READINGS];
        refusal(self.book.reading(readings, day, period, quality as u8, kwh))
    }

    pub(crate) fn volume(
        &self,
        day: u16,
        period: u8,
        place: u8,
    ) -> Result<Option<(u32, u32)>, Fail> {
        Ok(
            self.book
                .volume(&self.issued[0..SLOTS], day, period, place)?,
        )
    }

    // Issues a day. A refused issue leaves what was issued and the journal as they were.
    pub(crate) fn issue(&mut self, issue: Issue) -> Result<Refusal, Fail> {
        let (issued, journal) = (self.issued, self.journal);
        let slots = &mut self.issued[..];
        let lines = &mut self.journal[..];
        let slots_lent = issue.issued.min(slots.len());
        let lines_lent = issue.journal.min(lines.len());
        let answer = self.book.issue(
            &self.holders[..issue.holders.min(self.holders.len())],
            &self.rows[..issue.rows.min(self.rows.len())],
            &self.readings[..issue.readings.min(self.readings.len())],
            &mut slots[..slots_lent],
            &mut lines[..lines_lent],
            issue.day,
            issue.run,
        );
        let answer = refusal(answer);
        if answer.is_some() && (self.issued != issued || self.journal != journal) {
            return Err(Fail::new("a refused issue wrote something"));
        }
        Ok(answer)
    }

    // Changes an element of a table by hand.
    pub(crate) fn harm(&mut self, harm: Harm) -> Result<(), Fail> {
        match harm {
            Harm::HolderNobody { at } => element(&mut self.holders, at)?.entry = 0,
            Harm::HolderGone { at } => element(&mut self.holders, at)?.subject = 9,
            Harm::RowUnlawful { at } => element(&mut self.rows, at)?.entry.balance = 0,
            Harm::Metered { at, reading } => *element(&mut self.readings, at)? = reading,
            Harm::Sent { at, slot } => *element(&mut self.issued, at)? = slot,
        }
        Ok(())
    }
}

fn element<T>(table: &mut [T], at: usize) -> Result<&mut T, Fail> {
    let element = table.get_mut(at).ok_or("no such element")?;
    Ok(element)
}

// What is changed by hand in a table, and at which element.
#[derive(Clone, Copy)]
pub(crate) enum Harm {
    HolderNobody { at: usize },
    HolderGone { at: usize },
    RowUnlawful { at: usize },
    Metered { at: usize, reading: Reading },
    Sent { at: usize, slot: Slot },
}
