// What the tests have in common: a small book, empty tables, rows, and its calls.
use book::Book;
use domain::{AllocationRow, Quality, Reading, Slot, Terms};
use history::Dated;
use rules::House;
use samples::{Refusal, refusal};
use std::test::Fail;

// A book of two places and three days, with a capacity of 60 kWh.
pub(crate) fn open() -> Result<Book<House>, Fail> {
    Ok(Book::open(Terms::new(2, 3, 60)?, House))
}

// Half for each, and a nomination for a place that the book does not have. Rows store a method's number.
pub(crate) const THIRD_PLACE: AllocationRow = AllocationRow {
    method: 1,
    balance: 1,
    nominations: [5_000, 0, 1, 0, 0, 0, 0, 0],
};

// An element of a table of rows that nobody has put.
pub(crate) const NO_ROW: Dated<AllocationRow> = Dated {
    subject: 99,
    day: 99,
    entry: THIRD_PLACE,
};

// A fixed block for place 0.
pub(crate) fn fixed(kwh: u32) -> AllocationRow {
    AllocationRow {
        method: 3,
        balance: 1,
        nominations: [kwh, 0, 0, 0, 0, 0, 0, 0],
    }
}

// A reading and a slot as a blank table does not have them.
pub(crate) const METERED: Reading = Reading {
    quality: Quality::Estimated as u8,
    kwh: 30,
};

pub(crate) const SENT: Slot = Slot {
    supplier: 101,
    volume: 21,
};

// Registers a supplier at a place from a day on, in a table of the first `room` elements. Here and in the other files a table stands beside how long it is lent: a table is lent by its first elements, and a struct for a slice and a length would be the slice.
pub(crate) fn register(
    book: &mut Book<House>,
    holders: &mut [Dated<u16>],
    room: usize,
    place: u8,
    day: u16,
    supplier: u16,
) -> Refusal {
    let room = room.min(holders.len());
    refusal(book.register(&mut holders[0..room], place, day, supplier))
}

// Ends the sharing, by a table of the first `room` elements.
pub(crate) fn end(
    book: &mut Book<House>,
    holders: &[Dated<u16>],
    room: usize,
    sender: u16,
    day: u16,
    moment: u32,
) -> Refusal {
    let room = room.min(holders.len());
    refusal(book.end(&holders[0..room], sender, day, moment))
}

// A schedule: by whom, for which day, when, how many rows, and how long the table of rows is lent.
#[derive(Clone, Copy)]
pub(crate) struct Sending {
    pub(crate) sender: u16,
    pub(crate) day: u16,
    pub(crate) moment: u32,
    pub(crate) count: usize,
    pub(crate) room: usize,
}

// By 101, for day 2, at its gate.
pub(crate) const IN_TIME: Sending = Sending {
    sender: 101,
    day: 2,
    moment: 4_260,
    count: 48,
    room: 96,
};

// Schedules the first rows of a list. The receipt is confirmed.
pub(crate) fn schedule(
    book: &mut Book<House>,
    holders: &[Dated<u16>],
    rows: &mut [Dated<AllocationRow>],
    sent: Sending,
    list: &[AllocationRow],
) -> Refusal {
    let count = sent.count.min(list.len());
    let room = sent.room.min(rows.len());
    let answer = book.schedule(
        holders,
        &mut rows[0..room],
        sent.sender,
        sent.day,
        sent.moment,
        &list[0..count],
    );
    refusal(answer.map(|receipt| receipt.confirm()))
}
