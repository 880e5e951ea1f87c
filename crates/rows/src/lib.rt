// Rows of a schedule, as a rule judges and splits them in a book of given terms.
#![tactic(auto)]

ghost use Rattle.std.specs.Prelude.{◌≡◌, ◌==◌};
ghost use Rattle.std.specs.List.{list_all};
ghost use Rattle.std.specs.Option.{option_map};
ghost use Rattle.rules.specs.Agreed.{agreed};
ghost use Rattle.rows.specs.Rows.{agreement, allowed, share_of, Tame};

use domain::{AllocationRow, MAX_KWH, Terms};
use rules::{Row, Rule};

// Whether the rule allows the row in a book of these terms.
// The rule, the terms and the row stand one by one here and in `share`: both are public calls that callers have, and a struct would be a second form of the same.
pub fn is_allowed<R: Rule>(rule: &R, terms: Terms, row: &AllocationRow) -> bool
    ensures { result ≡ allowed (R.Rule.meaning rule.now) terms row.now }
{
    let places = usize::from(terms.places);
    rule.is_lawful(row_of(terms, row)) && are_zero(&row.nominations[places..])
}

// A place's kWh in a Settlement Period, by the row in force if there is one.
pub fn share<R: Rule>(
    rule: &R,
    terms: Terms,
    row: Option<&AllocationRow>,
    period: u8,
    kwh: u32,
    place: u8,
) -> i32
    ensures is { result ≡ share_of (R.Rule.meaning rule.now) terms (option_map (λ x. x.now) row.entry) period kwh place }
    ensures tame { Tame result }
{
    match row {
        Some(row) => rule.share(row_of(terms, row), period, kwh, usize::from(place)) as i32,
        None if place == 0 && kwh <= MAX_KWH => kwh as i32,
        None => 0,
    }
}

// The row as the rule sees it: the nominations of the book's places.
fn row_of(terms: Terms, row: &AllocationRow) -> Row<'_>
    ensures { agreed result ≡ agreement terms row.now }
{
    Row {
        method: row.method,
        capacity: terms.capacity,
        nominations: &row.nominations[0..usize::from(terms.places)],
        balance: row.balance,
    }
}

fn are_zero(nominations: &[u32]) -> bool
    ensures { result ≡ list_all (λ n. n == 0) nominations.now }
{
    nominations.iter().all(|nomination| *nomination == 0)
}
