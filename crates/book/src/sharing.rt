// Who shares the meter, how, and until when.
ghost use Rattle.std.specs.Prelude.{◌≡◌, ℕ, ◌<◌, ◌≤◌, length, take, Ok, MatchResult, nat_le};
ghost use Rattle.domain.specs.Slots.{gate};
ghost use Rattle.domain.specs.Checks.{settled, unless};
ghost use Rattle.domain.specs.declared.Table.TheVariants.{Holders};
ghost use Rattle.domain.specs.declared.Fault.TheVariants.{AfterGate, Spoiled};
ghost use Rattle.history.specs.Questions.{AfterPut, AfterDay};
ghost use Rattle.history.specs.Puts.{put_one, put_day, holding_if};
ghost use Rattle.book.specs.Kept.{kept, SameTerms};
ghost use Rattle.book.specs.Sharing.{done, holding, register_room, with_holders, primary_on, end_answer, ended_from, holder_on, rows_allowed, schedule_admit, schedule_room, before_end, with_rows, receipt_for};
ghost use Rattle.domain.specs.Limits.{periods};

use super::{Book, Receipt};
use domain::{AllocationRow, Fault, PERIODS, Table, admit, gate};
use files::Intro;
use history::{Dated, History, put, put_day};
use rows::is_allowed;
use rules::Rule;

// Refuses what comes after the gate of its day.
fn admit_in_time(intro: Intro) -> Result<(), Fault>
    ensures { result ≡ unless (nat_le intro.moment (gate intro.day)) (AfterGate (gate intro.day)) (Ok tt) }
{
    let gate = gate(intro.day);
    if intro.moment > gate {
        return Err(Fault::AfterGate { gate });
    }
    Ok(())
}

impl<R: Rule> Book<R> {
    // Registers a supplier as the holder of a place from a day on.
    pub fn register(
        &mut self,
        holders: &mut [Dated<u16>],
        place: u8,
        day: u16,
        supplier: u16,
    ) -> Result<(), Fault>
        ensures answer { result ≡ done (register_room self.old.terms (kept self.old) holders.old place day supplier) }
        ensures holders { holders.new ≡ holding_if (register_room self.old.terms (kept self.old) holders.old place day supplier) (put_one (take self.old.holders holders.old) (holding place day supplier)) holders.old }
        ensures keeps { kept self.new ≡ with_holders (register_room self.old.terms (kept self.old) holders.old place day supplier) (kept self.old) }
        ensures same { SameTerms self.old self.new }
        ensures says { MatchResult result (λ _. AfterPut (take self.old.holders holders.old) (holding place day supplier) (take self.new.holders holders.new)) (λ _. holders.new ≡ holders.old) }
    {
        admit(1, self.terms.has_place(place))?;
        admit(2, self.terms.has_day(day))?;
        admit(3, supplier >= 1)?;
        let holding = Dated {
            subject: place,
            day,
            entry: supplier,
        };
        self.holders = put(holders, self.holders, Table::Holders, holding)?;
        Ok(())
    }

    // Ends the sharing from a day on.
    pub fn end(
        &mut self,
        holders: &[Dated<u16>],
        sender: u16,
        day: u16,
        moment: u32,
    ) -> Result<(), Fault>
        ensures answer { result ≡ end_answer self.old.terms (kept self.old) holders.now sender day moment }
        ensures keeps { kept self.new ≡ settled result (ended_from day (kept self.old)) (kept self.old) }
        ensures same { SameTerms self.old self.new }
    {
        let intro = Intro {
            sender,
            day,
            moment,
        };
        self.admit_end(holders, intro)?;
        self.ended = Some(day);
        Ok(())
    }

    fn admit_end(&self, holders: &[Dated<u16>], intro: Intro) -> Result<(), Fault>
        ensures { result ≡ end_answer self.now.terms (kept self.now) holders.now intro.sender intro.day intro.moment }
    {
        let Intro { sender, day, .. } = intro;
        admit(1, sender >= 1)?;
        admit(2, self.terms.has_day(day))?;
        admit_in_time(intro)?;
        let primary = self.primary_on(holders, day)?;
        if primary != Some(sender) {
            return Err(Fault::SenderNotPrimary { day });
        }
        match self.ended {
            Some(day) => Err(Fault::SharingEnded { day }),
            None => Ok(()),
        }
    }

    // Puts the rows of a day's schedule, and hands out a receipt.
    pub fn schedule(
        &mut self,
        holders: &[Dated<u16>],
        rows: &mut [Dated<AllocationRow>],
        sender: u16,
        day: u16,
        moment: u32,
        schedule: &[AllocationRow],
    ) -> Result<Receipt, Fault>
        ensures answer { result ≡ receipt_for (schedule_room (R.Rule.meaning self.old.rule) self.old.terms (kept self.old) holders.now rows.old sender day moment schedule.now) day sender moment }
        ensures rows { rows.new ≡ holding_if (schedule_room (R.Rule.meaning self.old.rule) self.old.terms (kept self.old) holders.now rows.old sender day moment schedule.now) (put_day (take self.old.rows rows.old) day schedule.now) rows.old }
        ensures keeps { kept self.new ≡ with_rows (schedule_room (R.Rule.meaning self.old.rule) self.old.terms (kept self.old) holders.now rows.old sender day moment schedule.now) (kept self.old) }
        ensures same { SameTerms self.old self.new }
        ensures says { MatchResult result (λ _. AfterDay (take self.old.rows rows.old) day (take periods schedule.now) (take self.new.rows rows.new)) (λ _. rows.new ≡ rows.old) }
    {
        let intro = Intro {
            sender,
            day,
            moment,
        };
        self.admit_schedule(holders, rows, intro, schedule)?;
        self.rows = put_day(rows, self.rows, Table::Rows, day, schedule)?;
        Ok(Receipt::new(intro))
    }

    fn admit_schedule(
        &self,
        holders: &[Dated<u16>],
        rows: &[Dated<AllocationRow>],
        intro: Intro,
        schedule: &[AllocationRow],
    ) -> Result<(), Fault>
        ensures { result ≡ schedule_admit (R.Rule.meaning self.now.rule) self.now.terms (kept self.now) holders.now rows.now intro.sender intro.day intro.moment schedule.now }
    {
        let Intro { sender, day, .. } = intro;
        admit(1, sender >= 1)?;
        admit(2, self.terms.has_day(day))?;
        admit(4, schedule.len() == usize::from(PERIODS))?;
        self.admit_rows(schedule)?;
        admit_in_time(intro)?;
        let primary = self.primary_on(holders, day)?;
        if self.rows > rows.len() {
            return Err(Fault::Spoiled { table: Table::Rows });
        }
        if primary != Some(sender) {
            return Err(Fault::SenderNotPrimary { day });
        }
        self.admit_before_end(day)
    }

    // Refuses the first row that the rule does not allow.
    fn admit_rows(&self, schedule: &[AllocationRow]) -> Result<(), Fault>
        requires { length schedule.now ≤ periods }
        ensures { result ≡ rows_allowed (R.Rule.meaning self.now.rule) self.now.terms 1 schedule.now }
    {
        for (period, row) in (1..=PERIODS).zip(schedule) {
            if !is_allowed(&self.rule, self.terms, row) {
                return Err(Fault::UnlawfulRow { period });
            }
        }
        Ok(())
    }

    fn admit_before_end(&self, day: u16) -> Result<(), Fault>
        ensures { result ≡ before_end self.now.ended day }
    {
        match self.ended {
            Some(end) if day >= end => Err(Fault::SharingEnded { day: end }),
            _ => Ok(()),
        }
    }

    // Who holds place 0 on a day.
    fn primary_on(&self, holders: &[Dated<u16>], day: u16) -> Result<Option<u16>, Fault>
        ensures { result ≡ primary_on (kept self.now) holders.now day }
    {
        let held = History::held(holders, self.holders, Table::Holders)?;
        let primary = held.entry_in_force(0, day);
        if primary == Some(0) {
            return Err(Fault::Spoiled {
                table: Table::Holders,
            });
        }
        Ok(primary)
    }
}
