// Opens the book of a small harbour's meter and makes its first calls, one line for each.
#![tactic(auto)]

ghost use Rattle.std.specs.Prelude.{◌≡◌, IfOk};
ghost use Rattle.files.specs.Contents.{notice_of};

use book::Book;
use domain::{AllocationRow, Fault, PERIODS, Quality, Reading, Slot, Terms};
use history::Dated;
use rules::House;
use std::io;
use text::Hex;

// The harbour has two places and three days.
const PLACES: usize = 2;

const HALF_HOURS: usize = 3 * PERIODS as usize;

// Place 0 has 70% of the energy, and place 1 the rest.
const SEVENTY: AllocationRow = AllocationRow {
    method: 1,
    balance: 1,
    nominations: [7_000, 0, 0, 0, 0, 0, 0, 0],
};

fn answered(rt: &impl Print, answer: Result<(), Fault>) -> io::Result<()> {
    match answer {
        Ok(()) => println!(rt; "accepted"),
        Err(fault) => println!(rt; "{fault}"),
    }
}

// The book of the harbour, and its tables. A type shared with the season's desk and the benchmark's site would be no plainer: those have a journal, and vectors of sizes that are asked for, where these are fixed arrays with no heap; what they share is the list of fields.
#[derive(Drop)]
struct Harbour {
    book: Book<House>,
    holders: [Dated<u16>; 4],
    rows: [Dated<AllocationRow>; HALF_HOURS],
    readings: [Reading; HALF_HOURS],
    issued: [Slot; HALF_HOURS * PLACES],
}

impl Harbour {
    // The tables as they are lent at first. What lies behind the entries held counts for nothing.
    fn open(terms: Terms) -> Harbour {
        Harbour {
            book: Book::open(terms, House),
            holders: [Dated::blank(0); 4],
            rows: [Dated::blank(SEVENTY); HALF_HOURS],
            readings: [Reading::NONE; HALF_HOURS],
            issued: [Slot::NONE; HALF_HOURS * PLACES],
        }
    }

    fn blank(&mut self, rt: &impl Print) -> io::Result<()> {
        print!(rt; "blank: ")?;
        answered(rt, self.book.blank(&mut self.readings, &mut self.issued))
    }

    fn register(&mut self, rt: &impl Print, place: u8, supplier: u16) -> io::Result<()> {
        print!(rt; "register place {place} day 0 supplier {supplier}: ")?;
        answered(
            rt,
            self.book.register(&mut self.holders, place, 0, supplier),
        )
    }

    // Schedules the same row for all of day 2: 70% for the cold store, at place 0, and the rest for the boatyard, at place 1.
    fn schedule(&mut self, rt: &impl Print, sender: u16, moment: u32) -> io::Result<()> {
        print!(rt; "schedule by {sender} day 2 minute {moment}: ")?;
        match self.schedule_day(sender, 2, moment) {
            Ok(notice) => println!(rt; "notice {}", Hex(&notice)),
            Err(fault) => println!(rt; "{fault}"),
        }
    }

    // Schedules the same row for all of a day, and answers the notice that confirms it.
    fn schedule_day(&mut self, sender: u16, day: u16, moment: u32) -> Result<[u8; 16], Fault>
        ensures { IfOk result (λ bytes. bytes ≡ notice_of day sender moment) }
    {
        let receipt = self.book.schedule(
            &self.holders,
            &mut self.rows,
            sender,
            day,
            moment,
            &[SEVENTY; PERIODS as usize],
        )?;
        Ok(receipt.confirm())
    }

    // In period 13 of day 2.
    fn reading(&mut self, rt: &impl Print, quality: Quality, kwh: u32) -> io::Result<()> {
        let quality = quality as u8;
        print!(rt; "reading day 2 period 13 quality {quality} kWh {kwh}: ")?;
        answered(
            rt,
            self.book.reading(&mut self.readings, 2, 13, quality, kwh),
        )
    }

    // Of period 13 of day 2.
    fn volume(&self, rt: &impl Print, place: u8) -> io::Result<()> {
        print!(rt; "volume day 2 period 13 place {place}: ")?;
        match self.book.volume(&self.issued, 2, 13, place) {
            Ok(Some((kwh, other))) => println!(rt; "{kwh} kWh, {other} virtual"),
            Ok(None) => println!(rt; "none"),
            Err(fault) => println!(rt; "{fault}"),
        }
    }

    // From day 2 on.
    fn end(&mut self, rt: &impl Print, sender: u16, moment: u32) -> io::Result<()> {
        print!(rt; "end by {sender} day 2 minute {moment}: ")?;
        answered(rt, self.book.end(&self.holders, sender, 2, moment))
    }
}

fn run(rt: &impl Print, terms: Terms) -> io::Result<()> {
    let mut harbour = Harbour::open(terms);
    println!(rt; "opened: 2 places, 3 days, 60 kWh")?;
    harbour.blank(rt)?;
    harbour.register(rt, 0, 101)?;
    harbour.register(rt, 1, 102)?;
    harbour.schedule(rt, 101, 4_260)?;
    harbour.schedule(rt, 101, 4_261)?;
    harbour.schedule(rt, 102, 4_260)?;
    harbour.reading(rt, Quality::Actual, 30)?;
    harbour.reading(rt, Quality::Estimated, 31)?;
    harbour.volume(rt, 0)?;
    harbour.end(rt, 101, 4_260)?;
    harbour.schedule(rt, 101, 4_260)
}

fn main(rt: HostRuntime) -> io::Result<()> {
    match Terms::new(2, 3, 60) {
        Ok(terms) => run(&rt, terms),
        Err(fault) => println!(rt; "{fault}"),
    }
}
