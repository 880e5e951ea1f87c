// What a day's readings and holders must be before anything is sent.
ghost use Rattle.std.specs.Prelude.{◌≡◌, ℕ, ◌+◌, ◌<◌, not, ◌&&◌, length, is_some, None, Ok, slice_index_or};
ghost use Rattle.domain.specs.Limits.{periods};
ghost use Rattle.domain.specs.Checks.{no_reading, reading_at, spoiled_reading};
ghost use Rattle.domain.specs.declared.Table.TheVariants.{Readings};
ghost use Rattle.domain.specs.declared.Fault.TheVariants.{Spoiled, ReadingMissing, HolderMissing};
ghost use Rattle.issuing.specs.First.{first_where, unless_found};
ghost use Rattle.issuing.specs.InForce.{needs_holder};
ghost use Rattle.issuing.specs.Slots.{is_empty};

use super::plan::Plan;
use super::sheet::{HALF_HOURS, PLACES, needs_holder};
use domain::{Fault, PERIODS, Reading, Table, Terms, reading_slot};

#[tactic(auto, using(domain::proofs::Within::reading_within))]
impl<R> Plan<'_, '_, R> {
    // The readings of the day, the first for period 1.
    fn readings(&self) -> &[Reading]
        ensures size { length result.now ≡ periods }
        ensures each { (i : ℕ) → i < periods → slice_index_or result.now i no_reading ≡ reading_at self.now.order.readings.now self.now.order.day (i + 1) }
    {
        let first = reading_slot(self.order.day, 1);
        &self.order.readings[first..first + HALF_HOURS]
    }

    // Refuses a day with a spoiled reading.
    pub(crate) fn sound_readings(&self) -> Result<(), Fault>
        ensures { result ≡ unless_found (first_where (λ i. spoiled_reading (reading_at self.now.order.readings.now self.now.order.day (i + 1))) periods) (λ _. Spoiled Readings) (Ok tt) }
    {
        let readings = self.readings();
        if readings.iter().any(|reading| reading.is_spoiled()) {
            return Err(Fault::Spoiled {
                table: Table::Readings,
            });
        }
        Ok(())
    }

    // Refuses a day with an empty reading, at its first. The table stores an empty one with the quality number 0.
    pub(crate) fn complete_readings(&self) -> Result<(), Fault>
        ensures { result ≡ unless_found (first_where (λ i. is_empty (reading_at self.now.order.readings.now self.now.order.day (i + 1))) periods) (λ i. ReadingMissing (i + 1)) (Ok tt) }
    {
        let empty = (1..=PERIODS)
            .zip(self.readings())
            .find(|(_, reading)| reading.quality == 0);
        match empty {
            Some((period, _)) => Err(Fault::ReadingMissing { period }),
            None => Ok(()),
        }
    }
}

// Refuses a day on which a place that needs a holder has none, at the first.
pub(crate) fn complete_holders(
    terms: Terms,
    holders: &[Option<u16>; PLACES],
    ended: bool,
) -> Result<(), Fault>
    ensures { result ≡ unless_found (first_where (λ q. needs_holder ended q && not (is_some (slice_index_or holders.now q None))) terms.places) HolderMissing (Ok tt) }
{
    let lacking = (0..terms.places).zip(holders).find(|(place, holder)| needs_holder(ended, *place)
        && holder.is_none());
    match lacking {
        Some((place, _)) => Err(Fault::HolderMissing { place }),
        None => Ok(()),
    }
}
