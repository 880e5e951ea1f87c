// The library behind a boundary of numbers and bytes, for a benchmark: calls are decoded and made on one book, and what came of each and all lines that were sent are encoded.
#![tactic(auto)]

use book::Book;
use domain::{
    AllocationRow, Line, NOMINATIONS, PERIODS, Reading, Slot, Terms, issued_slots, reading_slots,
};
use history::Dated;
use rules::House;
use season::{Accepted, Call, Outcome, Tables, apply};
use std::alloc::{AllocError, Global};

// The bytes of a call, of a row and of a nomination, and the rows of a schedule.
const CALL: usize = 12;

const NOMINATION: usize = 4;

const ROW: usize = 2 + NOMINATIONS * NOMINATION;

const DAY: usize = PERIODS as usize;

// A row: method, balance place, and eight nominations of 32 bits.
// Rows and lines have the bytes that they have in files. Read and written by that crate, they took as many instructions and a third more time.
fn row(bytes: &[u8]) -> AllocationRow {
    let [method, balance, rest @ ..] = bytes else {
        return AllocationRow::NONE;
    };
    let mut nominations = [0; NOMINATIONS];
    for (nomination, bytes) in nominations.iter_mut().zip(rest.chunks_exact(NOMINATION)) {
        if let [b3, b2, b1, b0] = bytes {
            *nomination = u32::from_be_bytes([*b3, *b2, *b1, *b0]);
        }
    }
    AllocationRow {
        method: *method,
        balance: *balance,
        nominations,
    }
}

fn rows(heap: Global, bytes: &[u8]) -> Result<Vec<AllocationRow>, AllocError> {
    bytes.chunks_exact(ROW).map(row).collect(heap)
}

// The schedule of a number, of those that stand one after the other.
fn schedule(rows: &[AllocationRow], number: u16) -> &[AllocationRow] {
    rows.chunks_exact(DAY)
        .nth(usize::from(number))
        .unwrap_or(&[])
}

// A call: its kind, a place, period or run, a supplier or quality, a day, the number of a schedule, and a moment or kWh.
fn call<'a>(record: &[u8], rows: &'a [AllocationRow]) -> Option<Call<'a>> {
    let [kind, small, p1, p0, d1, d0, s1, s0, n3, n2, n1, n0] = record else {
        return None;
    };
    let party = u16::from_be_bytes([*p1, *p0]);
    let day = u16::from_be_bytes([*d1, *d0]);
    let number = u32::from_be_bytes([*n3, *n2, *n1, *n0]);
    // the numbers of the kinds are the boundary's
    match kind {
        0 => Some(Call::Register {
            place: *small,
            day,
            supplier: party,
        }),
        1 => Some(Call::Schedule {
            sender: party,
            day,
            moment: number,
            rows: schedule(rows, u16::from_be_bytes([*s1, *s0])),
        }),
        2 => Some(Call::Reading {
            day,
            period: *small,
            quality: *p0,
            kwh: number,
        }),
        3 => Some(Call::End {
            sender: party,
            day,
            moment: number,
        }),
        4 => Some(Call::Issue { day, run: *small }),
        _ => None,
    }
}

// What is written: bytes go on where those before ended, as far as there is room, and all are counted. The count goes past the room, so it is no length of a part of it.
#[derive(Drop)]
struct Output<'a> {
    room: &'a mut [u8],
    written: usize,
}

impl Output<'_> {
    fn put(&mut self, bytes: &[u8]) {
        let from = self.written;
        let to = from.saturating_add(bytes.len());
        if let Some(place) = self.room.get_mut(from..to) {
            place.copy_from_slice(bytes);
        }
        self.written = to;
    }

    fn put_outcome(&mut self, outcome: Outcome) {
        // the numbers of the outcomes are the boundary's
        match outcome {
            Ok(Accepted::Done) => self.put(&[0]),
            Ok(Accepted::Scheduled { notice }) => {
                self.put(&[1]);
                self.put(&notice);
            }
            Ok(Accepted::Issued { lines }) => {
                self.put(&[2]);
                self.put(&(lines as u64).to_be_bytes());
            }
            Err(fault) => {
                self.put(&[3, fault.number()]);
                self.put(&fault.spot().to_be_bytes());
            }
        }
    }

    // The bytes of a line are put as one, since each `put` tests the room.
    fn put_line(&mut self, line: Line) {
        let [d1, d0] = line.day.to_be_bytes();
        let [s1, s0] = line.supplier.to_be_bytes();
        let [v3, v2, v1, v0] = line.volume.to_be_bytes();
        let bytes = [
            d1,
            d0,
            line.period,
            line.place,
            s1,
            s0,
            line.run,
            v3,
            v2,
            v1,
            v0,
        ];
        self.put(&bytes);
    }
}

// A book with tables of its own.
// The `Desk` of seasontext and the `Harbour` of openbook have the same tables; what they share is a list of fields, and a crate for it with contracts would be no plainer.
#[derive(Drop)]
struct Site {
    book: Book<House>,
    holders: Vec<Dated<u16>>,
    rows: Vec<Dated<AllocationRow>>,
    readings: Vec<Reading>,
    issued: Vec<Slot>,
    journal: Vec<Line>,
}

impl Site {
    // A site whose tables hold every day, and so many lines.
    fn open(heap: Global, terms: Terms, lines: usize) -> Result<Site, AllocError> {
        let half_hours = reading_slots(terms.days);
        let slots = issued_slots(terms.places, terms.days);
        let holders = usize::from(terms.places) * usize::from(terms.days);
        let no_row = Dated::blank(AllocationRow::NONE);
        Ok(Site {
            book: Book::open(terms, House),
            holders: vec![in heap; Dated::blank(0); holders]?,
            rows: vec![in heap; no_row; half_hours]?,
            readings: vec![in heap; Reading::NONE; half_hours]?,
            issued: vec![in heap; Slot::NONE; slots]?,
            journal: vec![in heap; Line::NONE; lines]?,
        })
    }

    fn apply(&mut self, call: &Call<'_>) -> Outcome {
        let mut tables = Tables {
            holders: &mut self.holders[..],
            rows: &mut self.rows[..],
            readings: &mut self.readings[..],
            issued: &mut self.issued[..],
            journal: &mut self.journal[..],
        };
        apply(&mut self.book, &mut tables, call)
    }
}

// Makes the calls on a new site, and writes what came of each and the lines that were sent; answers the bytes that this takes, or none where a call is none or memory runs out.
fn run(
    heap: Global,
    terms: Terms,
    lines: usize,
    calls: &[u8],
    schedules: &[u8],
    room: &mut [u8],
) -> Option<usize> {
    let schedules = rows(heap, schedules).ok()?;
    let mut site = Site::open(heap, terms, lines).ok()?;
    let mut out = Output { room, written: 0 };
    for record in calls.chunks_exact(CALL) {
        let call = call(record, schedules.as_slice())?;
        out.put_outcome(site.apply(&call));
    }
    for line in site.journal.iter().take(site.book.lines()) {
        out.put_line(*line);
    }
    Some(out.written)
}

// Runs a season on a site of these terms, with room for so many lines. It answers the bytes of the output, or 0 where the terms are outside their limits, a call is none or memory runs out.
#[unsafe(no_mangle)]
pub extern "C" fn benchsite_run(
    heap: Global,
    places: u8,
    days: u16,
    capacity: u32,
    lines: usize,
    calls: &[u8],
    schedules: &[u8],
    out: &mut [u8],
) -> usize {
    let Ok(terms) = Terms::new(places, days, capacity) else {
        return 0;
    };
    run(heap, terms, lines, calls, schedules, out).unwrap_or(0)
}
