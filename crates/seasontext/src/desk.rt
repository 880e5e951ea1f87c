// The desk at which a season is run: its book and tables, and what has been printed.
ghost use Rattle.std.specs.Prelude.{◌≡◌, ◌+◌, ◌-◌, ◌^◌, ◌<◌, ◌≤◌, true, not, ◌&&◌, is_ok, IfOk, if◌then◌else◌, Some, OnOk, ◌==◌, length, slice_index_or};
ghost use Rattle.rules.specs.House.{house};
ghost use Rattle.domain.specs.Checks.{no_reading};
ghost use Rattle.domain.specs.Limits.{periods};
ghost use Rattle.book.specs.Kept.{kept};
ghost use Rattle.season.specs.Outcomes.{outcome, state_of};
ghost use Rattle.season.specs.Steps.{step};
ghost use Rattle.season.specs.declared.Call.TheVariants as call;
ghost use Rattle.seasontext.specs.Runs.{slipped, answered, told, stepped, came_of, called, copied, is_issue, noted, issued_day, volume_asked, statement_asked, read_all, closed, drafted, rows_with, row_put, row_faulty, tables_of, tables_put, within, asked, entered, line_done, counted};
ghost use Rattle.seasontext.specs.Seen.{seen};
ghost use Rattle.seasontext.specs.Texts.{buffer_text};

use crate::texts::{put_outcome, put_slip, put_statement, put_volume};
use book::Book;
use domain::{AllocationRow, Fault, Line, PERIODS, Reading, Slot};
use files::{Intro, MAX_FILE};
use history::Dated;
use rules::House;
use season::{Accepted, Call, Outcome, Tables, apply};
use seasonlines::{Entry, Faulty, Request, Slip};
use std::alloc::{AllocError, Global};

// What a line of the input says, if it says anything.
pub(crate) type Said = Result<Option<Entry>, Faulty>;

// A schedule whose rows have not ended.
#[derive(Clone, Copy, Debug, PartialEq, Eq)]
pub(crate) struct Draft {
    pub(crate) intro: Intro,
    pub(crate) rows: [AllocationRow; PERIODS as usize],
}

#[derive(Drop)]
pub(crate) struct Desk {
    pub(crate) heap: Global,
    // the book and its five tables are no type shared with benchsite and openbook: these are vectors, which the season's text may size again, and a struct made of their slices loses, in a proof, what they hold
    pub(crate) book: Book<House>,
    pub(crate) holders: Vec<Dated<u16>>,
    pub(crate) rows: Vec<Dated<AllocationRow>>,
    pub(crate) readings: Vec<Reading>,
    pub(crate) issued: Vec<Slot>,
    pub(crate) journal: Vec<Line>,
    // the kWh of the last accepted issue, for each slot of a day's period: beside the readings, slot by slot, and not in them, since that table is lent to the book as it is
    pub(crate) split: Vec<Option<u32>>,
    pub(crate) quiet: bool,
    pub(crate) calls: u64,
    // a line gave the tables their sizes
    pub(crate) sized: bool,
    pub(crate) draft: Option<Draft>,
    pub(crate) text: String,
}

impl Desk {
    // Does what a call says.
    #[tactic(auto, unfolding(crate::specs::Seen::seen, crate::specs::Runs::came_of, crate::specs::Runs::stepped))]
    fn step(&mut self, call: Call<'_>) -> Outcome
        ensures answer { result ≡ came_of call.entry (seen self.old) }
        ensures after { seen self.new ≡ stepped call.entry (seen self.old) }
    {
        apply_to(
            &mut self.book,
            self.holders.as_mut_slice(),
            self.rows.as_mut_slice(),
            self.readings.as_mut_slice(),
            self.issued.as_mut_slice(),
            self.journal.as_mut_slice(),
            &call,
        )
    }

    // Counts a call, and answers its number. A count past 64 bits, which no input reaches, is told as want of memory: a bound on it would have to stand in the contract of each function that calls, up to the season.
    #[tactic(auto, unfolding(crate::specs::Seen::seen))]
    fn count(&mut self) -> Result<u64, AllocError>
        ensures counted { IfOk result (λ n. (n ≡ self.old.calls + 1) × (seen self.new ≡ counted (seen self.old))) }
        ensures fits { self.old.calls + 1 < 2 ^ 64 → is_ok result ≡ true }
    {
        let number = self.calls.checked_add(1).ok_or(AllocError)?;
        self.calls = number;
        Ok(number)
    }

    // Whether nothing is said of a call.
    fn is_silent(&self, accepted: bool) -> bool
        ensures { result ≡ (self.now.quiet && accepted) }
    {
        self.quiet && accepted
    }

    // Counts a call, and prints what came of it. `tell`, `volume` and `tell_statement` each count, ask whether they are silent, and put: in one method that takes a closure for what to put, this closure could not be lent the journal, since the method is lent the desk to write into its text.
    #[tactic(auto, unfolding(crate::specs::Seen::seen, crate::specs::Runs::told, crate::specs::Runs::answered))]
    fn tell(&mut self, first: usize, outcome: Outcome) -> Result<(), AllocError>
        ensures { OnOk result (seen self.new ≡ told first outcome (seen self.old)) }
    {
        let number = self.count()?;
        if self.is_silent(outcome.is_ok()) {
            return Ok(());
        }
        let journal = self.journal.as_slice();
        put_outcome(&mut self.text, number, journal, first, outcome)
    }

    // Makes a call.
    #[tactic(auto, unfolding(crate::specs::Seen::seen, crate::specs::Runs::called))]
    fn call(&mut self, call: Call<'_>) -> Result<(), AllocError>
        ensures { OnOk result (seen self.new ≡ called call.entry (seen self.old)) }
    {
        let first = self.book.lines();
        let outcome = self.step(call);
        self.tell(first, outcome)
    }

    // Issues a day, and notes the kWh that were split.
    #[tactic(auto, unfolding(crate::specs::Seen::seen, crate::specs::Runs::issued_day))]
    fn issue(&mut self, day: u16, run: u8) -> Result<(), AllocError>
        ensures { OnOk result (seen self.new ≡ issued_day day run (seen self.old)) }
    {
        let first = self.book.lines();
        let outcome = self.step(Call::Issue { day, run });
        self.note(outcome, day);
        self.tell(first, outcome)
    }

    #[tactic(auto, unfolding(crate::specs::Seen::seen, crate::specs::Runs::noted))]
    fn note(&mut self, outcome: Outcome, day: u16)
        ensures { seen self.new ≡ noted outcome day (seen self.old) }
    {
        if is_issue(outcome) {
            copy_kwh(
                self.readings.as_slice(),
                self.split.as_mut_slice(),
                usize::from(day) * usize::from(PERIODS),
            );
        }
    }

    #[tactic(auto, unfolding(crate::specs::Seen::seen, crate::specs::Runs::volume_asked, crate::specs::Runs::answered))]
    fn volume(&mut self, day: u16, period: u8, place: u8) -> Result<(), AllocError>
        ensures { OnOk result (seen self.new ≡ volume_asked day period place (seen self.old)) }
    {
        let answer = self.book.volume(self.issued.as_slice(), day, period, place);
        let number = self.count()?;
        if self.is_silent(answer.is_ok()) {
            return Ok(());
        }
        put_volume(&mut self.text, number, answer)
    }

    fn statement(&mut self, first: u64, count: u64) -> Result<(), AllocError>
        ensures { OnOk result (seen self.new ≡ statement_asked first count (seen self.old)) }
    {
        let mut file = vec![in self.heap; 0u8; MAX_FILE]?;
        let answer = self.book.statement(
            self.journal.as_slice(),
            first as usize,
            count as usize,
            file.as_mut_slice(),
        );
        self.tell_statement(file.as_slice(), answer)
    }

    // Counts a statement, and prints the file at the start of a buffer.
    #[tactic(auto, unfolding(crate::specs::Seen::seen, crate::specs::Runs::answered))]
    fn tell_statement(
        &mut self,
        buffer: &[u8],
        answer: Result<usize, Fault>,
    ) -> Result<(), AllocError>
        ensures { OnOk result (seen self.new ≡ answered (is_ok answer) (buffer_text (self.old.calls + 1) buffer.now answer) (seen self.old)) }
    {
        let number = self.count()?;
        if self.is_silent(answer.is_ok()) {
            return Ok(());
        }
        put_statement(&mut self.text, number, buffer, answer)
    }

    // Reads the figure of a period.
    fn reading(&mut self, day: u16, period: u8, quality: u8, kwh: u32) -> Result<(), AllocError>
        ensures { OnOk result (seen self.new ≡ called (call.Reading day period quality kwh) (seen self.old)) }
    {
        self.call(Call::Reading {
            day,
            period,
            quality,
            kwh,
        })
    }

    // Reads the figures of the periods from 1 on.
    #[tactic(auto, unfolding(crate::specs::Runs::read_all))]
    fn readings(&mut self, day: u16, quality: u8, figures: &[u32]) -> Result<(), AllocError>
        requires { length figures.now ≤ periods }
        ensures { OnOk result (seen self.new ≡ read_all day quality figures.now (length figures.now) (seen self.old)) }
    {
        for (period, &kwh) in (1..=PERIODS).zip(figures) {
            self.reading(day, period, quality, kwh)?;
        }
        Ok(())
    }

    // Calls the open schedule, if there is one.
    #[tactic(auto, unfolding(crate::specs::Seen::seen, crate::specs::Runs::closed_by))]
    pub(crate) fn close(&mut self) -> Result<(), AllocError>
        ensures { OnOk result (seen self.new ≡ closed (seen self.old)) }
    {
        // not by `take`, which copies and clears a whole draft before it tells whether there is one
        let Some(draft) = self.draft else {
            return Ok(());
        };
        self.draft = None;
        let Intro {
            sender,
            day,
            moment,
        } = draft.intro;
        self.call(Call::Schedule {
            sender,
            day,
            moment,
            rows: &draft.rows,
        })
    }

    // Opens a schedule that has no rows yet.
    #[tactic(auto, unfolding(crate::specs::Seen::seen, crate::specs::Runs::drafted))]
    fn draft(&mut self, intro: Intro)
        ensures { seen self.new ≡ drafted intro (seen self.old) }
    {
        self.draft = Some(Draft {
            intro,
            rows: [AllocationRow::NONE; PERIODS as usize],
        });
    }

    #[tactic(auto, unfolding(crate::specs::Seen::seen, crate::specs::Runs::slipped))]
    fn slip(&mut self, number: u64, slip: Slip) -> Result<(), AllocError>
        ensures { OnOk result (seen self.new ≡ slipped number slip (seen self.old)) }
    {
        put_slip(&mut self.text, number, slip)
    }

    // Puts a row into the open schedule.
    #[tactic(auto, unfolding(crate::specs::Seen::seen, crate::specs::Runs::row_put))]
    fn row(&mut self, number: u64, from: u8, to: u8, row: AllocationRow) -> Result<(), AllocError>
        ensures { OnOk result (seen self.new ≡ row_put number (seen self.old).draft from to row (seen self.old)) }
    {
        // copied and stored back: of rows that are written where they stand, a proof knows nothing
        let Some(mut draft) = self.draft else {
            return self.slip(number, Slip::RowOutside);
        };
        put_rows(&mut draft.rows, from, to, row);
        self.draft = Some(draft);
        Ok(())
    }

    #[tactic(auto, unfolding(crate::specs::Seen::seen, crate::specs::Runs::row_faulty))]
    fn faulty_row(&mut self, number: u64, slip: Slip) -> Result<(), AllocError>
        ensures { OnOk result (seen self.new ≡ row_faulty number (seen self.old).draft slip (seen self.old)) }
    {
        match self.draft {
            Some(_) => self.slip(number, slip),
            None => self.slip(number, Slip::RowOutside),
        }
    }

    // Whether the tables may still be given their sizes.
    fn is_fresh(&self) -> bool
        ensures { result ≡ (self.now.calls == 0 && not self.now.sized) }
    {
        self.calls == 0 && !self.sized
    }

    // Gives tables 1, 2 and 5 their sizes, once and before the first call.
    #[tactic(auto, unfolding(crate::specs::Seen::seen, crate::specs::Runs::tables_put))]
    fn tables(
        &mut self,
        number: u64,
        holders: u64,
        rows: u64,
        journal: u64,
    ) -> Result<(), AllocError>
        ensures { OnOk result (seen self.new ≡ tables_put number holders rows journal (seen self.old)) }
    {
        if self.is_fresh() {
            self.size(holders, rows, journal)
        } else {
            self.slip(number, Slip::TablesLate)
        }
    }

    #[tactic(auto, unfolding(crate::specs::Seen::seen, crate::specs::Runs::tables_of))]
    fn size(&mut self, holders: u64, rows: u64, journal: u64) -> Result<(), AllocError>
        ensures { OnOk result (seen self.new ≡ tables_of holders rows journal (seen self.old)) }
    {
        let heap = self.heap;
        self.holders = vec![in heap; Dated::blank(0); holders as usize]?;
        self.rows = vec![in heap; Dated::blank(AllocationRow::NONE); rows as usize]?;
        self.journal = vec![in heap; Line::NONE; journal as usize]?;
        self.sized = true;
        Ok(())
    }

    // What the line `number` does.
    #[tactic(auto, unfolding(crate::specs::Runs::line_done))]
    pub(crate) fn line(&mut self, number: u64, said: Said) -> Result<(), AllocError>
        ensures { OnOk result (seen self.new ≡ line_done number said (seen self.old)) }
    {
        self.settle(&said)?;
        self.enter(number, &said)
    }

    // Calls the open schedule where a line ends it.
    fn settle(&mut self, said: &Said) -> Result<(), AllocError>
        ensures { OnOk result (seen self.new ≡ (if within said.now then seen self.old else closed (seen self.old))) }
    {
        if is_within(said) {
            Ok(())
        } else {
            self.close()
        }
    }

    // What a line does, once the schedule before it has been called.
    fn enter(&mut self, number: u64, said: &Said) -> Result<(), AllocError>
        ensures { OnOk result (seen self.new ≡ entered number said.now (seen self.old)) }
    {
        match *said {
            Ok(None) => Ok(()),
            Ok(Some(Entry::Terms { .. })) => self.slip(number, Slip::TermsAgain),
            Ok(
                Some(
                    Entry::Tables {
                        holders,
                        rows,
                        journal,
                    },
                ),
            ) => self.tables(number, holders, rows, journal),
            Ok(
                Some(
                    Entry::Schedule {
                        sender,
                        day,
                        moment,
                    },
                ),
            ) => {
                self.draft(Intro {
                    sender,
                    day,
                    moment,
                });
                Ok(())
            }
            Ok(Some(Entry::Row { from, to, row })) => self.row(number, from, to, row),
            Ok(Some(Entry::Ask(request))) => self.ask(request),
            Err(Faulty::Row(slip)) => self.faulty_row(number, slip),
            Err(Faulty::Line(slip)) => self.slip(number, slip),
        }
    }

    // Makes a call, or asks a question.
    fn ask(&mut self, request: Request) -> Result<(), AllocError>
        ensures { OnOk result (seen self.new ≡ asked request (seen self.old)) }
    {
        match request {
            Request::Register {
                place,
                day,
                supplier,
            } => self.call(Call::Register {
                place,
                day,
                supplier,
            }),
            Request::Reading {
                day,
                period,
                quality,
                kwh,
            } => self.reading(day, period, quality, kwh),
            Request::Readings {
                day,
                quality,
                figures,
            } => self.readings(day, quality, figures.as_slice()),
            Request::End {
                sender,
                day,
                moment,
            } => self.call(Call::End {
                sender,
                day,
                moment,
            }),
            Request::Issue { day, run } => self.issue(day, run),
            Request::Volume { day, period, place } => self.volume(day, period, place),
            Request::Statement { first, count } => self.statement(first, count),
        }
    }
}

// Does what a call says on a book and its tables. It is a function of its own since a struct made of vectors' slices loses, in a proof, what the vectors hold.
fn apply_to(
    book: &mut Book<House>,
    holders: &mut [Dated<u16>],
    rows: &mut [Dated<AllocationRow>],
    readings: &mut [Reading],
    issued: &mut [Slot],
    journal: &mut [Line],
    call: &Call<'_>,
) -> Outcome
    ensures answer { result ≡ outcome book.old.terms house (state_of (kept book.old) holders.old rows.old readings.old issued.old journal.old) call.now }
    ensures after { state_of (kept book.new) holders.new rows.new readings.new issued.new journal.new ≡ step book.old.terms house (state_of (kept book.old) holders.old rows.old readings.old issued.old journal.old) call.now }
    ensures same { book.new.terms ≡ book.old.terms }
{
    let mut tables = Tables {
        holders,
        rows,
        readings,
        issued,
        journal,
    };
    apply(book, &mut tables, call)
}

// Whether an issue was accepted.
fn is_issue(outcome: Outcome) -> bool
    ensures { result ≡ is_issue outcome }
{
    matches!(outcome, Ok(Accepted::Issued { .. }))
}

// Whether a line leaves a schedule open.
fn is_within(said: &Said) -> bool
    ensures { result ≡ within said.now }
{
    matches!(
        said,
        Ok(None | Some(Entry::Row { .. })) | Err(Faulty::Row(_))
    )
}

// The kWh in a slot, and 0 past the last.
fn kwh_at(readings: &[Reading], slot: usize) -> u32
    ensures { result ≡ (slice_index_or readings.now slot no_reading).kwh }
{
    readings.get(slot).map_or(0, |reading| reading.kwh)
}

// Copies the kWh of a day's slots, from `first` on. A slot is written by its index: of what a loop over an adapter of `iter_mut` wrote, such as `skip`, `take` or `zip`, a proof knows only the length.
#[tactic(auto, unfolding(crate::specs::Runs::copied))]
fn copy_kwh(readings: &[Reading], split: &mut [Option<u32>], first: usize)
    requires { first < 2 ^ 32 }
    ensures { split.new ≡ copied readings.now first periods split.old }
{
    for slot in first..first + usize::from(PERIODS) {
        if slot < split.len() {
            split[slot] = Some(kwh_at(readings, slot));
        }
    }
}

// Puts a row for the periods from one to another.
fn put_rows(rows: &mut [AllocationRow], from: u8, to: u8, row: AllocationRow)
    ensures { rows.new ≡ rows_with row (from - 1) (to - (from - 1)) rows.old }
{
    let last = usize::from(to).min(rows.len());
    let first = usize::from(from.saturating_sub(1)).min(last);
    rows[first..last].fill(row);
}
