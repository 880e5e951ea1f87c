// Rules that split the energy of a half hour between the places of a shared meter.
#![tactic(auto)]

ghost use Rattle.std.specs.Prelude.{◌≡◌, ◌&&◌, nat_lt, ℕ, ◌-◌, ◌*◌, ◌^◌, ◌<◌, ◌≤◌, true, false, [], ◌∷◌, length, pos, if◌then◌else◌, Some, None, sum, MatchOption, slice_index_or};
ghost use Rattle.rules.specs.Meaning.{Meaning, Laws, answered, in_range};
ghost use Rattle.rules.specs.Agreed.{agreed};
ghost use Rattle.rules.specs.Pairs.{is_pair, pairs, percentage, capped_block, nearest, first_of};
ghost use Rattle.rules.specs.Blocks.{modest, is_blocks, block_shares, blocks};
ghost use Rattle.rules.specs.First.{opens, after_first, first_block};
ghost use Rattle.rules.specs.House.{house};
ghost use Rattle.rules.specs.Rounding.{RoundedTo};
ghost use Rattle.rules.specs.General.{AsksGeneral};
ghost use Rattle.rules.specs.Means.{BlocksMean};
ghost use Rattle.rules.specs.Worked.{WorkedHalfHours};
ghost use Rattle.rules.specs.Paired.{percentage_laws};
ghost use Rattle.std.proofs.Common.{rules};
ghost use Rattle.rules.specs.Blocked.{blocks_laws};
ghost use Rattle.rules.specs.Opened.{first_laws};

use domain::{MAX_KWH, is_period};

mod house;

pub use house::House;

// What the parties agreed for one half hour: one nomination for each place.
#[derive(Clone, Copy, PartialEq, Eq, Debug)]
pub struct Row<'a> {
    // a number, as rows are stored with it: the house rule reads it, as a second calculation of that rule does, and it may be any under another rule
    pub method: u8,
    // the Relevant Capacity, in kWh for one period
    pub capacity: u32,
    pub nominations: &'a [u32],
    // the place that takes what the others leave
    pub balance: u8,
}

// A rule answers two questions of a row, and changes nothing.
pub trait Rule {
    ghost meaning: { Self → Meaning };

    fn is_lawful(&self, row: Row) -> bool
        ensures { result ≡ (meaning self.now).lawful (agreed row.entry) };

    // The kWh of a place; 0 for an unlawful row, a place that the row does not have, a period outside the day or too much energy.
    fn share(&self, row: Row, period: u8, energy: u32, place: usize) -> i64
        ensures { result ≡ answered (meaning self.now) (agreed row.entry) period energy place };

    ghost laws: { (x : Self) → Laws (meaning x) };
}

fn in_range(period: u8, energy: u32) -> bool
    ensures { result ≡ in_range period energy }
{
    is_period(period) && energy <= MAX_KWH
}

// Method 1: the first of two places has a percentage of the energy, in hundredths of a percent, and the second the rest.
#[derive(Clone, Copy, PartialEq, Eq, Debug)]
pub struct Percentage;

impl Rule for Percentage {
    ghost meaning = { λ _. percentage };

    ghost laws = { λ x. percentage_laws };

    fn is_lawful(&self, row: Row) -> bool {
        row.is_pair(WHOLE)
    }

    fn share(&self, row: Row, period: u8, energy: u32, place: usize) -> i64
        ensures is { result ≡ answered percentage (agreed row.entry) period energy place }
        ensures nearest { percentage.lawful (agreed row.entry) ≡ true → in_range period energy ≡ true → place ≡ 0 → RoundedTo period (first_of (agreed row.entry) * energy) result }
    {
        if self.is_lawful(row) && in_range(period, energy) {
            pair_share(rounded(row.nominations[0], energy, period), energy, place)
        } else {
            0
        }
    }
}

// All of the energy, in hundredths of a percent.
const WHOLE: u32 = 10_000;

// So many hundredths of a percent of the energy to the nearest kWh: a half goes up in an odd period and down in an even one.
fn rounded(hundredths: u32, energy: u32, period: u8) -> u32
    requires { hundredths ≤ 10000 }
    ensures is { result ≡ nearest period (hundredths * energy) }
    ensures within { result ≤ energy }
{
    let exact = u64::from(hundredths) * u64::from(energy);
    let kwh = (exact / 10_000) as u32;
    let rest = exact % 10_000;
    let odd = period % 2 == 1;
    if rest > 5_000 || rest == 5_000 && odd {
        kwh + 1
    } else {
        kwh
    }
}

// Method 2: the first of two places has its nomination, as far as the energy goes, and the second the rest.
#[derive(Clone, Copy, PartialEq, Eq, Debug)]
pub struct CappedBlock;

impl Rule for CappedBlock {
    ghost meaning = { λ _. capped_block };

    ghost laws = { Prim.search rules };

    fn is_lawful(&self, row: Row) -> bool {
        row.is_pair(MAX_KWH)
    }

    fn share(&self, row: Row, period: u8, energy: u32, place: usize) -> i64 {
        if self.is_lawful(row) && in_range(period, energy) {
            pair_share(row.nominations[0].min(energy), energy, place)
        } else {
            0
        }
    }
}

impl Row<'_> {
    // Whether there are two places, of which the second balances and the first nominates at most `most`.
    fn is_pair(self, most: u32) -> bool
        ensures { result ≡ is_pair most (agreed self.entry) }
    {
        matches!(self.nominations, [first, 0] if self.balance == 1 && *first <= most)
    }
}

// The first place has a part of the energy, and the second the rest.
fn pair_share(part: u32, energy: u32, place: usize) -> i64
    requires { part ≤ energy }
    ensures { result ≡ slice_index_or (pos part ∷ pos (energy - part) ∷ []) place (pos 0) }
{
    match place {
        0 => i64::from(part),
        1 => i64::from(energy - part),
        _ => 0,
    }
}

// From LEAST to MOST places: each has its nomination, and the balance place the rest.
#[derive(Clone, Copy, PartialEq, Eq, Debug)]
pub struct Blocks<const LEAST: usize, const MOST: usize>;

// Method 3: two places.
pub type FixedBlock = Blocks<2, 2>;

// Method 4: three to eight places.
pub type MultipleBlock = Blocks<3, 8>;

impl<const LEAST: usize, const MOST: usize> Rule for Blocks<LEAST, MOST> {
    ghost meaning = { λ _. blocks LEAST MOST };

    ghost laws = { λ x. blocks_laws LEAST MOST };

    fn is_lawful(&self, row: Row) -> bool {
        row.block_total(LEAST, MOST).is_some()
    }

    fn share(&self, row: Row, period: u8, energy: u32, place: usize) -> i64 {
        match row.block_total(LEAST, MOST) {
            Some(total) if in_range(period, energy) => row.block_share(total, energy, place),
            _ => 0,
        }
    }
}

impl Row<'_> {
    // The sum of the nominations, or none where the row is no row of fixed blocks with from `least` to `most` places.
    fn block_total(self, least: usize, most: usize) -> Option<u32>
        ensures { result ≡ (if is_blocks least most (agreed self.entry) then Some (sum (agreed self.entry).nominations) else None) }
    {
        let balance = self.nominations.get(usize::from(self.balance));
        if !(least..=most).contains(&self.nominations.len()) || balance != Some(&0) {
            return None;
        }
        modest_sum(self.nominations).filter(|total| *total <= self.capacity)
    }

    // The share of a place in a row of fixed blocks, whose nominations add up to `total`.
    #[tactic(auto, using(crate::specs::Blocked::block_there))]
    fn block_share(self, total: u32, energy: u32, place: usize) -> i64
        requires within { self.balance < length (agreed self).nominations }
        requires sums { total ≡ sum (agreed self).nominations }
        ensures { result ≡ slice_index_or (block_shares (agreed self.entry) energy) place (pos 0) }
    {
        if place == usize::from(self.balance) {
            return i64::from(energy) - i64::from(total);
        }
        let nomination = self.nominations.get(place).copied();
        i64::from(nomination.unwrap_or(0))
    }
}

// The sum of the nominations, or none where one of them exceeds the limit or they add up to more than any capacity.
fn modest_sum(nominations: &[u32]) -> Option<u32>
    ensures { result ≡ (if modest nominations.now && nat_lt (sum nominations.now) (2 ^ 32) then Some (sum nominations.now) else None) }
{
    let mut total: u32 = 0;
    for nomination in nominations {
        if *nomination > MAX_KWH {
            return None;
        }
        total = total.checked_add(*nomination)?;
    }
    Some(total)
}

// The first place has its nomination, as far as the energy goes, and the rule below splits what is left.
#[derive(Clone, Copy, PartialEq, Eq, Debug)]
pub struct FirstBlock<R> {
    pub below: R,
}

impl<R: Rule> Rule for FirstBlock<R> {
    ghost meaning = { λ x. first_block (R.Rule.meaning x.below) };

    ghost laws = { λ x. first_laws (R.Rule.meaning x.below) (R.Rule.laws x.below) };

    fn is_lawful(&self, row: Row) -> bool {
        row.after_first()
            .is_some_and(|(_, rest)| self.below.is_lawful(rest))
    }

    fn share(&self, row: Row, period: u8, energy: u32, place: usize) -> i64 {
        let Some((first, rest)) = row.after_first() else {
            return 0;
        };
        if !in_range(period, energy) {
            return 0;
        }
        let taken = first.min(energy);
        if place > 0 {
            return self.below.share(rest, period, energy - taken, place - 1);
        }
        if self.below.is_lawful(rest) {
            i64::from(taken)
        } else {
            0
        }
    }
}

impl<'a> Row<'a> {
    // The first nomination and the row of the other places, or none where the row cannot begin with a first block.
    fn after_first(self) -> Option<(u32, Row<'a>)>
        ensures { MatchOption result (opens (agreed self.entry) ≡ false) (λ x. (opens (agreed self.entry) ≡ true) × (x.0 ≡ first_of (agreed self.entry)) × (agreed x.1 ≡ after_first (agreed self.entry))) }
    {
        let (first, rest) = self.nominations.split_first()?;
        if rest.len() < 2 || self.balance == 0 || *first > MAX_KWH {
            return None;
        }
        let below = Row {
            nominations: rest,
            balance: self.balance - 1,
            ..self
        };
        Some((*first, below))
    }
}

// All seven methods ask that the balance place is one of the row's and nominates nothing, and that no nomination exceeds the limit.
#[tactic(auto, using(crate::proofs::Conditions::house_general))]
pub fn general_conditions()
    ensures { AsksGeneral house }
{}

// Methods 3 and 4 are fixed blocks of two places, and of three to eight.
#[tactic(auto, using(crate::proofs::Means::blocks_mean))]
pub fn block_methods()
    ensures { (x : _) (y : _) → BlocksMean (⟦<FixedBlock as Rule>⟧.meaning x) (⟦<MultipleBlock as Rule>⟧.meaning y) }
{}

// The definitions give the half hours that were worked by hand.
pub fn worked_half_hours()
    ensures { WorkedHalfHours }
{}
