// Issuing a day: what is sent, and what the tables hold then.
#![tactic(auto)]

ghost use Rattle.std.specs.Prelude.{◌≡◌, length, Ok};
ghost use Rattle.domain.specs.Checks.{settled};
ghost use Rattle.issuing.specs.Posted.{posted};
ghost use Rattle.issuing.specs.Issue.{call_checked, standing_checked, issue_answer, issued_after, day_lines};

use checks::complete_holders;
use domain::{AllocationRow, Fault, Line, Reading, Run, Slot, Table, Terms, admit};
use history::Dated;
use plan::Plan;
use rules::Rule;
use sheet::{HALF_HOURS, PLACES, Sheet};

mod checks;
mod lines;
mod plan;
mod posting;
mod sheet;

// What the book knows of itself when it issues a day.
#[derive(Clone, Copy, PartialEq, Eq, Debug)]
pub struct Standing {
    // entries held in the tables of holders and of rows, and lines sent to the journal
    pub holders: usize,
    pub rows: usize,
    pub lines: usize,
    // the day from which the sharing has ended
    pub ended: Option<u16>,
    // whether the day that is issued is closed
    pub closed: bool,
}

// A day to be issued, by which rule and terms, and the tables that are read for it.
#[derive_where(Clone, Copy)]
pub struct Order<'a, R> {
    pub rule: &'a R,
    pub terms: Terms,
    pub standing: Standing,
    pub holders: &'a [Dated<u16>],
    pub rows: &'a [Dated<AllocationRow>],
    pub readings: &'a [Reading],
    pub day: u16,
    // the number of the run, as calls give it and the journal stores it
    pub run: u8,
}

impl<R: Rule> Order<'_, R> {
    // Refuses arguments outside their limits and tables of another size.
    fn admit_call(self, issued: &[Slot]) -> Result<(), Fault>
        ensures { result ≡ call_checked self.entry.terms self.entry.readings.now issued.now self.entry.day self.entry.run (Ok tt) }
    {
        admit(1, self.terms.has_day(self.day))?;
        admit(2, Run::try_from(self.run).is_ok())?;
        self.terms.fit_readings(self.readings)?;
        self.terms.fit_issued(issued)
    }

    // Refuses a journal that has less than was sent, and a closed day.
    fn admit_day(self, room: usize) -> Result<(), Fault>
        ensures { result ≡ standing_checked self.entry.standing room self.entry.day (Ok tt) }
    {
        if self.standing.lines > room {
            return Err(Fault::Spoiled {
                table: Table::Journal,
            });
        }
        if self.standing.closed {
            return Err(Fault::DayClosed { day: self.day });
        }
        Ok(())
    }

    // Issues the day: sends the lines that lead each slot of the day from what was issued to what it is to have, and says how many.
    #[tactic(auto, using(crate::proofs::Refused::past5))]
    pub fn issue(self, issued: &mut [Slot], journal: &mut [Line]) -> Result<usize, Fault>
        ensures answer { result ≡ issue_answer (R.Rule.meaning self.entry.rule.now) self.entry.terms self.entry.standing self.entry.holders.now self.entry.rows.now self.entry.readings.now issued.old (length journal.old) self.entry.day self.entry.run }
        ensures issued { issued.new ≡ settled result (issued_after (R.Rule.meaning self.entry.rule.now) self.entry.terms self.entry.standing self.entry.holders.now self.entry.rows.now self.entry.readings.now issued.old self.entry.day) issued.old }
        ensures journal { journal.new ≡ settled result (posted journal.old self.entry.standing.lines (day_lines (R.Rule.meaning self.entry.rule.now) self.entry.terms self.entry.standing self.entry.holders.now self.entry.rows.now self.entry.readings.now issued.old self.entry.day self.entry.run)) journal.old }
    {
        let room = journal.len();
        self.admit_call(issued)?;
        let sheet = self.sheet()?;
        let plan = Plan {
            order: self,
            sheet: &sheet,
        };
        plan.sound_readings()?;
        // the lines are counted before any is sent, so that a refused issue writes nothing
        let mut draft = [Slot::NONE; HALF_HOURS * PLACES];
        let new = plan.draft(issued, &mut draft)?;
        self.admit_day(room)?;
        plan.complete_readings()?;
        complete_holders(self.terms, &sheet.holders, self.is_ended())?;
        let sent = self.standing.lines;
        if new > room - sent {
            return Err(Fault::JournalTooShort { needed: sent + new });
        }
        plan.send(&draft, issued, journal, sent);
        Ok(new)
    }
}
