// Going through a day, period by period and place by place: how many lines it takes, and sending them.
ghost use Rattle.std.specs.Prelude.{◌≡◌, ℕ, ◌+◌, ◌*◌, ◌<◌, ◌≤◌, length, IfOk};
ghost use Rattle.domain.specs.Limits.{periods};
ghost use Rattle.domain.specs.Slots.{reading_slot, issued_slots};
ghost use Rattle.domain.specs.Checks.{slot_at};
ghost use Rattle.rows.specs.Rows.{Tame};
ghost use Rattle.issuing.specs.Posted.{posted, filled};
ghost use Rattle.issuing.specs.Days.{period_lines, lines_of, filled_before};
ghost use Rattle.issuing.specs.Plans.{planned, Ready, ReadyIn, Drafted, DraftedIn};
ghost use Rattle.issuing.specs.Slots.{spoiled_place, spoiled_before, counted};

use super::lines::{Heading, count_slot, send_slot};
use super::plan::Plan;
use super::sheet::{HALF_HOURS, PLACES};
use domain::{Fault, Line, PERIODS, Slot, Table, issued_slot, reading_slot};
use rows::share;
use rules::Rule;

// The slots of a day as they are to be, one after the other as the table of a site of one day has them.
pub(crate) type Draft = [Slot; HALF_HOURS * PLACES];

#[tactic(auto, using(domain::proofs::Within::issued_within, crate::proofs::Firsts::first_none, crate::proofs::Passed::place_more, crate::proofs::Passed::place_refused, crate::proofs::Passed::count_all, crate::proofs::Passed::day_start, crate::proofs::Passed::period_more, crate::proofs::Passed::period_refused, crate::proofs::Passed::count_passed, crate::proofs::Gathered::gathered_none, crate::proofs::Gathered::posted_none, crate::proofs::Gathered::filled_none, crate::proofs::Periods::days_none, crate::proofs::Periods::period_count, crate::proofs::Periods::count_step, crate::proofs::Periods::period_fits, crate::proofs::Periods::turn_slots, crate::proofs::Periods::period_filled, crate::proofs::Periods::length_days))]
impl<R: Rule> Plan<'_, '_, R> {
    // The slot of a place in a Settlement Period as it is to be.
    fn next_slot(&self, period: u8, place: u8) -> Slot
        requires period { (1 ≤ period) × (period ≤ periods) }
        requires place { place < self.now.order.terms.places }
        ensures is { result ≡ planned (R.Rule.meaning self.now.order.rule.now) self.now period place }
        ensures tame { Tame result.volume }
    {
        let order = &self.order;
        let reading = order.readings[reading_slot(order.day, period)];
        let row = self.sheet.rows[usize::from(period) - 1].as_ref();
        let supplier = self.sheet.holders[usize::from(place)].unwrap_or(0);
        let volume = share(order.rule, order.terms, row, period, reading.kwh, place);
        Slot { supplier, volume }
    }

    // Drafts the slots of a Settlement Period, and says how many lines it takes, refused where one of those issued is spoiled.
    fn draft_period(&self, issued: &[Slot], draft: &mut Draft, period: u8) -> Result<usize, Fault>
        requires slots { length issued.now ≡ issued_slots self.now.order.terms.places self.now.order.terms.days }
        requires period { (1 ≤ period) × (period ≤ periods) }
        ensures answer { result ≡ counted (spoiled_place self.now.order.terms issued.now self.now.order.day period self.now.order.terms.places) (period_lines self.now.order.terms issued.now (planned (R.Rule.meaning self.now.order.rule.now) self.now) self.now.order.day self.now.order.run period self.now.order.terms.places) }
        ensures draft { IfOk result (λ _. draft.new ≡ filled (planned (R.Rule.meaning self.now.order.rule.now) self.now period) (reading_slot 0 period * self.now.order.terms.places) self.now.order.terms.places draft.old) }
    {
        let mut needed = 0;
        // a slot is found, and a share asked for, by the number of a place
        for place in 0..self.order.terms.places {
            let was = issued[issued_slot(self.order.terms.places, self.order.day, period, place)];
            if was.is_spoiled() {
                return Err(Fault::Spoiled {
                    table: Table::Issued,
                });
            }
            let next = self.next_slot(period, place);
            needed += count_slot(was, next);
            draft[issued_slot(self.order.terms.places, 0, period, place)] = next;
        }
        Ok(needed)
    }

    // Sends the lines of a Settlement Period from `at` on, by its draft, and says where the line after them goes.
    fn send_period(
        &self,
        draft: &Draft,
        issued: &mut [Slot],
        journal: &mut [Line],
        at: usize,
        period: u8,
    ) -> usize
        requires ready { ReadyIn self.now issued.old period }
        requires drafted { DraftedIn (R.Rule.meaning self.now.order.rule.now) self.now draft.now period }
        requires room { at + length (period_lines self.now.order.terms issued.old (planned (R.Rule.meaning self.now.order.rule.now) self.now) self.now.order.day self.now.order.run period self.now.order.terms.places) ≤ length journal.old }
        ensures next { result ≡ at + length (period_lines self.now.order.terms issued.old (planned (R.Rule.meaning self.now.order.rule.now) self.now) self.now.order.day self.now.order.run period self.now.order.terms.places) }
        ensures journal { journal.new ≡ posted journal.old at (period_lines self.now.order.terms issued.old (planned (R.Rule.meaning self.now.order.rule.now) self.now) self.now.order.day self.now.order.run period self.now.order.terms.places) }
        ensures issued { issued.new ≡ filled (planned (R.Rule.meaning self.now.order.rule.now) self.now period) (reading_slot self.now.order.day period * self.now.order.terms.places) self.now.order.terms.places issued.old }
    {
        let mut end = at;
        // a slot is found by the number of a place
        for place in 0..self.order.terms.places {
            let slot = issued_slot(self.order.terms.places, self.order.day, period, place);
            let heading = Heading {
                day: self.order.day,
                run: self.order.run,
                period,
                place,
            };
            let was = issued[slot];
            let next = draft[issued_slot(self.order.terms.places, 0, period, place)];
            end = send_slot(journal, end, heading, was, next);
            issued[slot] = next;
        }
        end
    }

    // Drafts the slots of the day, and says how many lines it takes, refused where one of those issued is spoiled.
    // The day is gone through twice, here and to send, so that a refused issue writes nothing. One function over what is done with a slot would take a closure and a state, and be no plainer.
    pub(crate) fn draft(&self, issued: &[Slot], draft: &mut Draft) -> Result<usize, Fault>
        requires { length issued.now ≡ issued_slots self.now.order.terms.places self.now.order.terms.days }
        ensures answer { result ≡ counted (spoiled_before self.now.order.terms issued.now self.now.order.day (issued_slots self.now.order.terms.places 1)) (lines_of self.now.order.terms issued.now (planned (R.Rule.meaning self.now.order.rule.now) self.now) self.now.order.day self.now.order.run) }
        ensures draft { IfOk result (λ _. draft.new ≡ filled_before self.now.order.terms.places (planned (R.Rule.meaning self.now.order.rule.now) self.now) 0 periods draft.old) }
    {
        let mut needed = 0;
        for period in 1..=PERIODS {
            needed += self.draft_period(issued, draft, period)?;
        }
        Ok(needed)
    }

    // Sends the lines of the day from `at` on, by its draft, and has each slot hold what it is to be.
    pub(crate) fn send(&self, draft: &Draft, issued: &mut [Slot], journal: &mut [Line], at: usize)
        requires ready { Ready self.now issued.old }
        requires drafted { Drafted (R.Rule.meaning self.now.order.rule.now) self.now draft.now }
        requires room { at + length (lines_of self.now.order.terms issued.old (planned (R.Rule.meaning self.now.order.rule.now) self.now) self.now.order.day self.now.order.run) ≤ length journal.old }
        ensures journal { journal.new ≡ posted journal.old at (lines_of self.now.order.terms issued.old (planned (R.Rule.meaning self.now.order.rule.now) self.now) self.now.order.day self.now.order.run) }
        ensures issued { issued.new ≡ filled_before self.now.order.terms.places (planned (R.Rule.meaning self.now.order.rule.now) self.now) self.now.order.day periods issued.old }
    {
        let mut end = at;
        for period in 1..=PERIODS {
            end = self.send_period(draft, issued, journal, end, period);
        }
    }
}
