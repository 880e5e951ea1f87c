// Who and what is in force on a day that is issued.
ghost use Rattle.std.specs.Prelude.{◌≡◌, Ok, Err, MatchResult};
ghost use Rattle.issuing.specs.InForce.{is_ended, needs_holder, supplier_of, spoiled_row};
ghost use Rattle.issuing.specs.Issue.{in_force_checked};
ghost use Rattle.issuing.specs.Known.{OnDay};
ghost use Rattle.issuing.specs.Sheets.{Holding, Splitting, HolderSpoiled, RowSpoiled};

use super::Order;
use domain::{AllocationRow, Fault, MAX_PLACES, PERIODS, Table};
use history::History;
use rows::is_allowed;
use rules::Rule;

// The places and the Settlement Periods that a sheet has room for.
pub const PLACES: usize = MAX_PLACES as usize;

pub const HALF_HOURS: usize = PERIODS as usize;

// What is in force on a day: the holder of each place, and the row of each Settlement Period.
#[derive(Clone, Copy, PartialEq, Eq, Debug)]
pub struct Sheet {
    // none for a place that needs no holder or has none
    pub holders: [Option<u16>; PLACES],
    // none from the end day on
    pub rows: [Option<AllocationRow>; HALF_HOURS],
}

// Before the end day every place needs a holder, from it on only place 0.
pub(crate) fn needs_holder(ended: bool, place: u8) -> bool
    ensures { result ≡ needs_holder ended place }
{
    !ended || place == 0
}

impl<R: Rule> Order<'_, R> {
    // Whether the sharing has ended by the day.
    pub(crate) fn is_ended(self) -> bool
        ensures { result ≡ is_ended self.entry.standing.ended self.entry.day }
    {
        self.standing.ended.is_some_and(|end| end <= self.day)
    }

    // The holder in force at a place that needs one.
    fn supplier_of(self, held: History<'_, u16>, place: u8) -> Option<u16>
        ensures { result ≡ supplier_of held.entry.entries.now (is_ended self.entry.standing.ended self.entry.day) self.entry.day place }
    {
        if needs_holder(self.is_ended(), place) {
            held.entry_in_force(place, self.day)
        } else {
            None
        }
    }

    // The holder of each place, refused where one in force is spoiled: no supplier has the number 0.
    #[tactic(auto, using(crate::proofs::Firsts::first_none, crate::proofs::Firsts::first_here, crate::proofs::Lookups::spoiled_zero))]
    fn holders_of(self, held: History<'_, u16>) -> Result<[Option<u16>; PLACES], Fault>
        ensures { MatchResult result (Holding self.entry.terms.places held.entry.entries.now (is_ended self.entry.standing.ended self.entry.day) self.entry.day) (HolderSpoiled self.entry.terms.places held.entry.entries.now (is_ended self.entry.standing.ended self.entry.day) self.entry.day) }
    {
        let mut holders = [None; PLACES];
        // a holder is looked up by the number of its place, and stands there
        for place in 0..self.terms.places {
            let holder = self.supplier_of(held, place);
            if holder == Some(0) {
                return Err(Fault::Spoiled {
                    table: Table::Holders,
                });
            }
            holders[usize::from(place)] = holder;
        }
        Ok(holders)
    }

    // Whether there is a row that the rule does not allow.
    fn is_spoiled_row(self, row: &Option<AllocationRow>) -> bool
        ensures { result ≡ spoiled_row (R.Rule.meaning self.entry.rule.now) self.entry.terms row.now }
    {
        row.as_ref()
            .is_some_and(|row| !is_allowed(self.rule, self.terms, row))
    }

    // The row of each Settlement Period, refused where one in force is spoiled.
    fn rows_of(
        self,
        held: History<'_, AllocationRow>,
    ) -> Result<[Option<AllocationRow>; HALF_HOURS], Fault>
        ensures { MatchResult result (Splitting (R.Rule.meaning self.entry.rule.now) self.entry.terms held.entry.entries.now (is_ended self.entry.standing.ended self.entry.day) self.entry.day) (RowSpoiled (R.Rule.meaning self.entry.rule.now) self.entry.terms held.entry.entries.now (is_ended self.entry.standing.ended self.entry.day) self.entry.day) }
    {
        // from the end day on no row is read
        if self.is_ended() {
            return Ok([None; HALF_HOURS]);
        }
        let rows = held.entries_in_force(self.day);
        if rows.iter().any(|row| self.is_spoiled_row(row)) {
            return Err(Fault::Spoiled { table: Table::Rows });
        }
        Ok(rows)
    }

    // What is in force on the day, refused where a table has less than is held, or where something in force is spoiled.
    #[tactic(auto, using(crate::proofs::Stages::holder_refused, crate::proofs::Stages::rows_short, crate::proofs::Stages::row_refused))]
    pub(crate) fn sheet(self) -> Result<Sheet, Fault>
        ensures { MatchResult result (OnDay (R.Rule.meaning self.entry.rule.now) self.entry.terms self.entry.standing self.entry.holders.now self.entry.rows.now self.entry.day) (λ e. Err e ≡ in_force_checked {A = Unit} (R.Rule.meaning self.entry.rule.now) self.entry.terms self.entry.standing self.entry.holders.now self.entry.rows.now self.entry.day (Ok tt)) }
    {
        let held = History::held(self.holders, self.standing.holders, Table::Holders)?;
        let holders = self.holders_of(held)?;
        let lawful = History::held(self.rows, self.standing.rows, Table::Rows)?;
        let rows = self.rows_of(lawful)?;
        Ok(Sheet { holders, rows })
    }
}
