// A season: a list of calls, run one after the other on one book.
#![tactic(auto)]

ghost use Rattle.season.specs.Granted.{LinesAddUp};
ghost use Rattle.season.specs.Worked.{WorkedExamples};
ghost use Rattle.std.specs.Prelude.{◌≡◌, IfOk, OnErr};
ghost use Rattle.book.specs.Kept.{kept, opened, SameTerms};
ghost use Rattle.season.specs.Steps.{step};
ghost use Rattle.book.specs.Sharing.{done};
ghost use Rattle.book.specs.Readings.{blank_answer};
ghost use Rattle.season.specs.Outcomes.{outcome, state_in, start_in};
ghost use Rattle.season.specs.Lent.{SameTables};
ghost use Rattle.season.specs.Replays.{Replayed, calls_made};
ghost use Rattle.season.specs.declared.Call.TheVariants as call;

use book::Book;
use domain::{AllocationRow, Fault, Line, Reading, Slot, Terms};
use history::Dated;
use rules::Rule;

// What came of a call that was accepted.
#[derive(Clone, Copy, PartialEq, Eq, Debug)]
pub enum Accepted {
    // a register, a reading or an end
    Done,
    // a schedule, with its notice
    Scheduled { notice: [u8; 16] },
    // an issue, with the number of lines that it sent
    Issued { lines: usize },
}

// What came of a call.
pub type Outcome = Result<Accepted, Fault>;

// A call of the book that changes something.
// A refusal names an argument by its number in the call, so the arguments stand one by one.
#[derive(Clone, Copy, PartialEq, Eq, Debug)]
pub enum Call<'a> {
    Register {
        place: u8,
        day: u16,
        supplier: u16,
    },
    Schedule {
        sender: u16,
        day: u16,
        moment: u32,
        rows: &'a [AllocationRow],
    },
    Reading {
        day: u16,
        period: u8,
        quality: u8,
        kwh: u32,
    },
    End {
        sender: u16,
        day: u16,
        moment: u32,
    },
    Issue {
        day: u16,
        run: u8,
    },
}

// The five tables that a book works on, lent together.
#[derive(Drop)]
pub struct Tables<'a> {
    pub holders: &'a mut [Dated<u16>],
    pub rows: &'a mut [Dated<AllocationRow>],
    pub readings: &'a mut [Reading],
    pub issued: &'a mut [Slot],
    pub journal: &'a mut [Line],
}

// The definitions give the half hours and the corrections that were worked by hand.
pub fn worked_examples()
    ensures { WorkedExamples }
{}

// After every run of calls whose issues found their day ready, the lines add up.
#[tactic(auto, using(crate::proofs::Runs::lines_add_up))]
pub fn lines_add_up()
    ensures { LinesAddUp }
{}

// Runs the calls of an audit log again, one after the other from an open book and blanked tables, and writes beside each what came of it.
// It runs as many calls as there is room for outcomes; only blanking can refuse it.
pub fn replay<R: Rule + Drop>(
    terms: Terms,
    rule: R,
    tables: &mut Tables<'_>,
    calls: &[Call<'_>],
    outcomes: &mut [Outcome],
) -> Result<Book<R>, Fault>
    ensures answer { done result ≡ blank_answer terms tables.old.readings.now tables.old.issued.now }
    ensures of { IfOk result (λ b. (b.terms ≡ terms) × (b.rule ≡ rule)) }
    ensures replayed { IfOk result (λ b. Replayed terms (R.Rule.meaning rule) (start_in tables.old) (calls_made calls.now outcomes.old) outcomes.old (state_in (kept b) tables.new) outcomes.new) }
    ensures refused { OnErr result ((state_in opened tables.new ≡ state_in opened tables.old) × (outcomes.new ≡ outcomes.old)) }
    ensures lent { SameTables tables.old tables.new }
{
    let mut book = Book::open(terms, rule);
    book.blank(tables.readings, tables.issued)?;
    let count = calls.len().min(outcomes.len());
    let made = &calls[..count];
    // an outcome is written by its index: of what a loop over `iter_mut` with `zip` wrote, a proof knows only the length
    for (i, call) in made.iter().enumerate() {
        outcomes[i] = apply(&mut book, tables, call);
    }
    Ok(book)
}

// Does what a call says on a book and its tables, and says what came of it.
// A table that is only read is taken out of the struct first: what a field lent as `&` holds is lost to the proof.
pub fn apply<R: Rule>(book: &mut Book<R>, tables: &mut Tables<'_>, call: &Call<'_>) -> Outcome
    ensures answer { result ≡ outcome book.old.terms (R.Rule.meaning book.old.rule) (state_in (kept book.old) tables.old) call.now }
    ensures after { state_in (kept book.new) tables.new ≡ step book.old.terms (R.Rule.meaning book.old.rule) (state_in (kept book.old) tables.old) call.now }
    ensures same { SameTerms book.old book.new }
    ensures lent { SameTables tables.old tables.new }
{
    match *call {
        Call::Register {
            place,
            day,
            supplier,
        } => book
            .register(tables.holders, place, day, supplier)
            .map(|()| Accepted::Done),
        Call::Schedule {
            sender,
            day,
            moment,
            rows,
        } => schedule(book, tables, sender, day, moment, rows),
        Call::Reading {
            day,
            period,
            quality,
            kwh,
        } => book
            .reading(tables.readings, day, period, quality, kwh)
            .map(|()| Accepted::Done),
        Call::End {
            sender,
            day,
            moment,
        } => {
            let holders = &mut *tables.holders;
            book.end(holders, sender, day, moment)
                .map(|()| Accepted::Done)
        }
        Call::Issue { day, run } => issue(book, tables, day, run),
    }
}

// Puts the rows of a day's schedule, and answers the notice that confirms them.
fn schedule<R: Rule>(
    book: &mut Book<R>,
    tables: &mut Tables<'_>,
    sender: u16,
    day: u16,
    moment: u32,
    rows: &[AllocationRow],
) -> Outcome
    ensures answer { result ≡ outcome book.old.terms (R.Rule.meaning book.old.rule) (state_in (kept book.old) tables.old) (call.Schedule sender day moment rows.entry) }
    ensures after { state_in (kept book.new) tables.new ≡ step book.old.terms (R.Rule.meaning book.old.rule) (state_in (kept book.old) tables.old) (call.Schedule sender day moment rows.entry) }
    ensures same { SameTerms book.old book.new }
    ensures lent { SameTables tables.old tables.new }
{
    let holders = &mut *tables.holders;
    book.schedule(holders, tables.rows, sender, day, moment, rows)
        .map(|receipt| Accepted::Scheduled {
            notice: receipt.confirm(),
        })
}

// Issues a day, and answers how many lines it sent.
fn issue<R: Rule>(book: &mut Book<R>, tables: &mut Tables<'_>, day: u16, run: u8) -> Outcome
    ensures answer { result ≡ outcome book.old.terms (R.Rule.meaning book.old.rule) (state_in (kept book.old) tables.old) (call.Issue day run) }
    ensures after { state_in (kept book.new) tables.new ≡ step book.old.terms (R.Rule.meaning book.old.rule) (state_in (kept book.old) tables.old) (call.Issue day run) }
    ensures same { SameTerms book.old book.new }
    ensures lent { SameTables tables.old tables.new }
{
    let holders = &mut *tables.holders;
    let rows = &mut *tables.rows;
    let readings = &mut *tables.readings;
    let issued = &mut *tables.issued;
    book.issue(holders, rows, readings, issued, tables.journal, day, run)
        .map(|lines| Accepted::Issued { lines })
}
