// The terms of a book: how many places and days it has, and the Relevant Capacity.
ghost use Rattle.std.specs.Prelude.{◌≡◌, ◌≤◌, Some, None, MatchResult};
ghost use Rattle.domain.specs.Limits.{fewest_places, most_places, most_days, most_capacity};
ghost use Rattle.domain.specs.Termed.{terms_fault};

use super::{Fault, MAX_CAPACITY, MAX_DAYS, MAX_PLACES, MIN_PLACES, Term};

// No terms outside the limits exist, so whoever is given terms need not test them.
#[derive(Clone, Copy, PartialEq, Eq, Debug)]
pub struct Terms {
    pub places: u8,
    pub days: u16,
    // the Relevant Capacity, in kWh for one period
    pub capacity: u32,
    ghost shared: { fewest_places ≤ places },
    ghost few: { places ≤ most_places },
    ghost some: { 1 ≤ days },
    ghost season: { days ≤ most_days },
    ghost room: { capacity ≤ most_capacity },
}

impl Terms {
    // Terms of so many places and days and this capacity, or a refusal of the first that is outside its limits.
    pub fn new(places: u8, days: u16, capacity: u32) -> Result<Terms, Fault>
        ensures { MatchResult result (λ t. (terms_fault places days capacity ≡ None) × (t.places ≡ places) × (t.days ≡ days) × (t.capacity ≡ capacity)) (λ f. terms_fault places days capacity ≡ Some f) }
    {
        if !(MIN_PLACES..=MAX_PLACES).contains(&places) {
            return Err(Fault::TermOutsideLimits { term: Term::Places });
        }
        if !(1..=MAX_DAYS).contains(&days) {
            return Err(Fault::TermOutsideLimits { term: Term::Days });
        }
        if capacity > MAX_CAPACITY {
            return Err(Fault::TermOutsideLimits {
                term: Term::Capacity,
            });
        }
        Ok(Terms {
            places,
            days,
            capacity,
        })
    }
}
