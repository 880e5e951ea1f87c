// The house rule's shares worked out a second way: nothing of the rules but the trait and the row, and no division but by two.
#![tactic(auto)]

ghost use Rattle.std.specs.Prelude.{◌≡◌, ◌-◌, ◌*◌, ◌≤◌, not, ◌&&◌, [], ◌∷◌, drop, pos, if◌then◌else◌, Some, None, sum, nat_le, slice_index_or};
ghost use Rattle.rules.specs.Meaning.{answered, in_range};
ghost use Rattle.rules.specs.Agreed.{agreed};
ghost use Rattle.rules.specs.Pairs.{is_pair, first_of, nearest};
ghost use Rattle.rules.specs.Blocks.{modest, is_blocks, blocks};
ghost use Rattle.rules.specs.House.{house};
ghost use Rattle.recount.specs.Layers.{split, layers};
ghost use Rattle.recount.specs.Fronts.{kind, Fronts};
ghost use Rattle.rules.specs.Housed.{house_laws};

use domain::{MAX_KWH, PERIODS};
use rules::{Row, Rule};

// The second calculation, a rule that means what the house rule means.
#[derive(Clone, Copy, PartialEq, Eq, Debug)]
pub struct Recount;

impl Rule for Recount {
    ghost meaning = { λ _. house };

    ghost laws = { λ x. house_laws };

    fn is_lawful(&self, row: Row) -> bool {
        by_method(row, Asked::ANY).is_some()
    }

    #[tactic(auto, using(crate::proofs::Ranged::answered_out))]
    fn share(&self, row: Row, period: u8, energy: u32, place: usize) -> i64 {
        if outside(period, energy) {
            return 0;
        }
        let asked = Asked {
            period,
            energy,
            place,
        };
        by_method(row, asked).unwrap_or(0)
    }
}

// What is asked of a row: the kWh of a place in a Settlement Period with so much energy.
#[derive(Clone, Copy, PartialEq, Eq, Debug)]
struct Asked {
    period: u8,
    energy: u32,
    place: usize,
}

impl Asked {
    // Every lawful row answers it.
    const ANY: Asked = Asked {
        period: 1,
        energy: 0,
        place: 0,
    };
}

// How what is left after the first blocks is split.
#[derive(Clone, Copy, PartialEq, Eq, Debug)]
enum Kind {
    Percentage,
    Capped,
    Fixed,
    Multiple,
}

fn outside(period: u8, energy: u32) -> bool
    ensures { result ≡ not (in_range period energy) }
{
    period == 0 || period > PERIODS || energy > MAX_KWH
}

// A first block, and the row of the places after it.
#[derive(Clone, Copy, PartialEq, Eq, Debug)]
struct Front<'a> {
    block: u32,
    below: Row<'a>,
}

// Each method is so many first blocks and a kind of split. Its number, as rows are stored with it, is read here alone.
fn by_method(row: Row, asked: Asked) -> Option<i64>
    ensures { result ≡ split house (agreed row.entry) asked.period asked.energy asked.place }
{
    let (blocks, inner) = match row.method {
        1 => (0, Kind::Percentage),
        2 => (0, Kind::Capped),
        3 => (0, Kind::Fixed),
        4 => (0, Kind::Multiple),
        5 => (1, Kind::Percentage),
        6 => (1, Kind::Multiple),
        7 => (2, Kind::Percentage),
        _ => return None,
    };
    peel(row, blocks, inner, asked)
}

// Takes so many first blocks off the front, and settles what is left.
fn peel(row: Row, blocks: u8, inner: Kind, asked: Asked) -> Option<i64>
    ensures { result ≡ split (layers blocks (kind inner)) (agreed row.entry) asked.period asked.energy asked.place }
{
    if blocks == 0 {
        return settle(row, inner, asked);
    }
    let front = take_front(row)?;
    let left = asked.energy.saturating_sub(front.block);
    let below = Asked {
        energy: left,
        place: asked.place.saturating_sub(1),
        ..asked
    };
    let share = peel(front.below, blocks - 1, inner, below)?;
    if asked.place == 0 {
        Some(i64::from(asked.energy - left))
    } else {
        Some(share)
    }
}

// The first block and the row below it.
// The rules have steps like this one and those below in methods of `Row`: a second calculation takes nothing of theirs, or it would not find their fault.
fn take_front(row: Row<'_>) -> Option<Front<'_>>
    ensures { Fronts (agreed row.entry) result }
{
    let [first, rest @ ..] = row.nominations else {
        return None;
    };
    if row.nominations.len() < 3 || row.balance == 0 || *first > MAX_KWH {
        return None;
    }
    let below = Row {
        nominations: rest,
        balance: row.balance - 1,
        ..row
    };
    Some(Front {
        block: *first,
        below,
    })
}

// The kWh of a place with no first block.
fn settle(row: Row, inner: Kind, asked: Asked) -> Option<i64>
    ensures { result ≡ split (kind inner) (agreed row.entry) asked.period asked.energy asked.place }
{
    let energy = asked.energy;
    match inner {
        Kind::Percentage => {
            let hundredths = first_of_two(row, WHOLE)?;
            let first = nearest_share(hundredths, energy, asked.period);
            Some(second_first(energy - first, energy, asked.place))
        }
        Kind::Capped => {
            let block = first_of_two(row, MAX_KWH)?;
            let second = energy.saturating_sub(block);
            Some(second_first(second, energy, asked.place))
        }
        Kind::Fixed => run_down(row, 2, 2, energy, asked.place),
        Kind::Multiple => run_down(row, 3, 8, energy, asked.place),
    }
}

// The first nomination of two, if it is at most `most` and the second place balances and nominates nothing.
fn first_of_two(row: Row, most: u32) -> Option<u32>
    ensures { result ≡ (if is_pair most (agreed row.entry) then Some (first_of (agreed row.entry)) else None) }
{
    match row.nominations {
        [first, last] if *last == 0 && row.balance == 1 && *first <= most => Some(*first),
        _ => None,
    }
}

// The kWh of a place of fixed blocks, whatever the period: the balance place has the energy and what is left of the capacity, less all of the capacity.
fn run_down(row: Row, least: usize, most: usize, energy: u32, place: usize) -> Option<i64>
    ensures { result ≡ split (blocks least most) (agreed row.entry) 0 energy place }
{
    let left = left(row, least, most)?;
    if place == usize::from(row.balance) {
        return Some(i64::from(energy) + i64::from(left) - i64::from(row.capacity));
    }
    let nomination = row.nominations.get(place).copied();
    Some(i64::from(nomination.unwrap_or(0)))
}

// What the nominations of fixed blocks with from `least` to `most` places leave of the capacity.
fn left(row: Row, least: usize, most: usize) -> Option<u32>
    ensures { result ≡ (if is_blocks least most (agreed row.entry) then Some (row.entry.capacity - sum (agreed row.entry).nominations) else None) }
{
    let balance = row.nominations.get(usize::from(row.balance));
    if !(least..=most).contains(&row.nominations.len()) || balance != Some(&0) {
        return None;
    }
    capacity_left(row.capacity, row.nominations)
}

// The capacity run down nomination by nomination, if it suffices and none is too large.
fn capacity_left(capacity: u32, nominations: &[u32]) -> Option<u32>
    ensures { result ≡ (if modest nominations.now && nat_le (sum nominations.now) capacity then Some (capacity - sum nominations.now) else None) }
{
    let mut left = capacity;
    for n in nominations {
        if *n > left.min(MAX_KWH) {
            return None;
        }
        left -= *n;
    }
    Some(left)
}

// The kWh of one of two places, given the second's part of the energy.
fn second_first(second: u32, energy: u32, place: usize) -> i64
    requires { second ≤ energy }
    ensures { result ≡ slice_index_or (pos (energy - second) ∷ pos second ∷ []) place (pos 0) }
{
    match place {
        1 => i64::from(second),
        0 => i64::from(energy - second),
        _ => 0,
    }
}

// All of the energy, in hundredths of a percent.
const WHOLE: u32 = 10_000;

// The largest n with 20,000 n at most twice the product and 10,000, or 9,999 in an even period: found by halving the range that holds it.
#[tactic(auto, using(crate::proofs::Ranged::part_le))]
fn nearest_share(hundredths: u32, energy: u32, period: u8) -> u32
    requires { hundredths ≤ 10000 }
    ensures value { result ≡ nearest period (hundredths * energy) }
    ensures bound { result ≤ energy }
{
    let half = if period % 2 == 1 { 10_000 } else { 9_999 };
    let target = 2 * (u64::from(hundredths) * u64::from(energy)) + half;
    let mut low = 0;
    let mut high = u64::from(energy) + 1;
    // nothing is counted here, and the range is no slice, which the library would search
    while high - low > 1 {
        let middle = low + (high - low) / 2;
        if 20_000 * middle <= target {
            low = middle;
        } else {
            high = middle;
        }
    }
    low as u32
}
