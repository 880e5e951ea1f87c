// Issuing a day.
ghost use Rattle.std.specs.Prelude.{◌≡◌, ◌+◌, ◌<◌, ◌≤◌, length, IfOk};
ghost use Rattle.domain.specs.Checks.{settled};
ghost use Rattle.book.specs.Kept.{kept, is_closed, SameTerms};
ghost use Rattle.book.specs.Issues.{standing_of, after_issue, issue_verdict, slots_issued, journal_sent};

use super::Book;
use domain::{AllocationRow, Fault, Line, Reading, Run, Slot};
use history::Dated;
use issuing::{Order, Standing};
use rules::Rule;

impl<R: Rule> Book<R> {
    // Splits a day's readings by the rows in force, and sends each supplier what changed since the day's last issue; answers the lines sent.
    // The tables stand one by one, since each is lent for itself, to be read or to be written.
    pub fn issue(
        &mut self,
        holders: &[Dated<u16>],
        rows: &[Dated<AllocationRow>],
        readings: &[Reading],
        issued: &mut [Slot],
        journal: &mut [Line],
        day: u16,
        run: u8,
    ) -> Result<usize, Fault>
        ensures answer { result ≡ issue_verdict (R.Rule.meaning self.old.rule) self.old.terms (kept self.old) holders.now rows.now readings.now issued.old journal.old day run }
        ensures issued { issued.new ≡ settled result (slots_issued (R.Rule.meaning self.old.rule) self.old.terms (kept self.old) holders.now rows.now readings.now issued.old journal.old day run) issued.old }
        ensures journal { journal.new ≡ settled result (journal_sent (R.Rule.meaning self.old.rule) self.old.terms (kept self.old) holders.now rows.now readings.now issued.old journal.old day run) journal.old }
        ensures keeps { kept self.new ≡ after_issue result day run (kept self.old) }
        ensures same { SameTerms self.old self.new }
    {
        let order = Order {
            rule: &self.rule,
            terms: self.terms,
            standing: self.standing(day),
            holders,
            rows,
            readings,
            day,
            run,
        };
        let sent = order.issue(issued, journal)?;
        if Run::try_from(run) == Ok(Run::Final) {
            self.closed[usize::from(day)] = true;
        }
        self.lines += sent;
        Ok(sent)
    }

    // What the book knows of itself when it issues a day. Its counts are copied, since a book keeps which of all days are closed and an order asks of one.
    fn standing(&self, day: u16) -> Standing
        ensures { result ≡ standing_of (kept self.now) day }
    {
        Standing {
            holders: self.holders,
            rows: self.rows,
            lines: self.lines,
            ended: self.ended,
            closed: self.is_closed(day),
        }
    }

    fn is_closed(&self, day: u16) -> bool
        ensures { result ≡ is_closed (kept self.now) day }
    {
        self.closed.get(usize::from(day)).copied().unwrap_or(false)
    }
}
