// Dated histories: what was put for a subject on a day, and what is in force on any other.
#![tactic(auto)]

ghost use Rattle.std.specs.Prelude.{◌≡◌, ℕ, ◌+◌, ◌^◌, ◌<◌, ◌≤◌, not, length, take, is_some, count_by, IfSome, Some, None, MatchOption, MatchResult, slice_index_or};
ghost use Rattle.domain.specs.Limits.{periods};
ghost use Rattle.domain.specs.declared.Fault.TheVariants.{Spoiled};
ghost use Rattle.history.specs.Latest.{latest};
ghost use Rattle.history.specs.Entries.{is_on, is_due, of_period, for_period, found, in_force, entry_at, keyed};
ghost use Rattle.history.specs.Puts.{put_one, put_all, put_day, on_day, holding, holding_if, room_for};
ghost use Rattle.history.specs.Questions.{InForce, NoneDue, FirstOn, NoneOn, AfterPut, AfterDay};

use domain::{Fault, PERIODS, Table, is_period};

// What was put for a subject on a day.
#[derive(Clone, Copy, PartialEq, Eq, Debug)]
pub struct Dated<T> {
    pub subject: u8,
    pub day: u16,
    pub entry: T,
}

impl<T> Dated<T> {
    // An entry of subject 0 and day 0 that no call has put, for blank tables.
    pub fn blank(entry: T) -> Dated<T>
        ensures { result ≡ record { subject = 0; day = 0; entry = entry } }
    {
        Dated {
            subject: 0,
            day: 0,
            entry,
        }
    }

    fn is_on(&self, subject: u8, day: u16) -> bool
        ensures { result ≡ is_on subject day self.now }
    {
        self.subject == subject && self.day == day
    }

    fn is_due(&self, subject: u8, day: u16) -> bool
        ensures { result ≡ is_due subject day self.now }
    {
        self.subject == subject && self.day <= day
    }

    // Whether the subject is a Settlement Period, and the entry of just that day.
    fn is_of_period(&self, day: u16) -> bool
        ensures { result ≡ of_period day self.now }
    {
        is_period(self.subject) && self.day == day
    }

    // Whether the subject is a Settlement Period, and the entry not after the day.
    fn is_for_period(&self, day: u16) -> bool
        ensures { result ≡ for_period day self.now }
    {
        is_period(self.subject) && self.day <= day
    }
}

// The entries that a lent table holds.
#[derive_where(Clone, Copy)]
#[derive(PartialEq, Eq, Debug)]
pub struct History<'a, T> {
    entries: &'a [Dated<T>],
}

impl<'a, T> History<'a, T> {
    // The first `count` entries of a table, refused where it has fewer.
    pub fn held(
        entries: &'a [Dated<T>],
        count: usize,
        table: Table,
    ) -> Result<History<'a, T>, Fault>
        ensures { MatchResult result (λ h. (count ≤ length entries.now) × (h.entries.now ≡ take count entries.now)) (λ e. (length entries.now < count) × (e ≡ Spoiled table)) }
    {
        if count > entries.len() {
            return Err(Fault::Spoiled { table });
        }
        Ok(History {
            entries: &entries[..count],
        })
    }

    // The index of the first entry of the subject and the day.
    pub fn find(self, subject: u8, day: u16) -> Option<usize>
        ensures is { result ≡ found self.entry.entries.now subject day }
        ensures within { IfSome result (λ i. i < length self.entry.entries.now) }
        ensures says { MatchOption result (NoneOn self.entry.entries.now subject day) (FirstOn self.entry.entries.now subject day) }
    {
        self.entries
            .iter()
            .position(|dated| dated.is_on(subject, day))
    }

    // The index of the subject's entry of the latest day not after the given one, the first among equals. The index is the answer, so it is counted beside the entries.
    pub fn in_force(self, subject: u8, day: u16) -> Option<usize>
        ensures is { result ≡ in_force self.entry.entries.now subject day }
        ensures within { IfSome result (λ i. i < length self.entry.entries.now) }
        ensures entry { entry_at self.entry.entries.now result ≡ latest (keyed self.entry.entries.now subject) day }
        ensures says { MatchOption result (NoneDue self.entry.entries.now subject day) (InForce self.entry.entries.now subject day) }
    {
        let mut best: Option<(usize, u16)> = None;
        for (index, dated) in self.entries.iter().enumerate() {
            if dated.is_due(subject, day) && best.is_none_or(|(_, latest)| latest < dated.day) {
                best = Some((index, dated.day));
            }
        }
        best.map(|(index, _)| index)
    }

    // The same for each Settlement Period as the subject, the first for period 1, in one pass over the entries. The index is the answer here too.
    pub fn in_force_each(self, day: u16) -> [Option<usize>; DAY_ITEMS]
        ensures is { (k : ℕ) → k < periods → slice_index_or result k None ≡ in_force self.entry.entries.now (k + 1) day }
        ensures within { (k : ℕ) → k < periods → IfSome (slice_index_or result k None) (λ i. i < length self.entry.entries.now) }
        ensures size { length result ≡ periods }
    {
        let mut bests: [Option<(usize, u16)>; DAY_ITEMS] = [None; DAY_ITEMS];
        for (index, dated) in self.entries.iter().enumerate() {
            if dated.is_for_period(day) {
                let k = usize::from(dated.subject) - 1;
                if bests[k].is_none_or(|(_, latest)| latest < dated.day) {
                    bests[k] = Some((index, dated.day));
                }
            }
        }
        bests.map(|best| best.map(|(index, _)| index))
    }

    // For each Settlement Period as the subject, the index of its first entry of the day, in one pass, so the index is counted here too. One function for this and `in_force_each` would take the test and the choice as closures, and be no plainer.
    fn find_each(self, day: u16) -> [Option<usize>; DAY_ITEMS]
        ensures each { (k : ℕ) → k < periods → slice_index_or result k None ≡ found self.entry.entries.now (k + 1) day }
        ensures size { length result ≡ periods }
    {
        let mut at = [None; DAY_ITEMS];
        for (index, dated) in self.entries.iter().enumerate() {
            if dated.is_of_period(day) {
                let k = usize::from(dated.subject) - 1;
                at[k] = at[k].or(Some(index));
            }
        }
        at
    }
}

impl<T: Copy> History<'_, T> {
    // The entry that is in force for the subject on the day.
    pub fn entry_in_force(self, subject: u8, day: u16) -> Option<T>
        ensures { result ≡ entry_at self.entry.entries.now (in_force self.entry.entries.now subject day) }
    {
        self.entry_at(self.in_force(subject, day))
    }

    // The same for each Settlement Period as the subject, the first for period 1, in one pass over the entries.
    pub fn entries_in_force(self, day: u16) -> [Option<T>; DAY_ITEMS]
        ensures each { (k : ℕ) → k < periods → slice_index_or result k None ≡ entry_at self.entry.entries.now (in_force self.entry.entries.now (k + 1) day) }
        ensures size { length result ≡ periods }
    {
        self.in_force_each(day).map(|at| self.entry_at(at))
    }

    // The entry at an index that was answered.
    fn entry_at(self, at: Option<usize>) -> Option<T>
        ensures { result ≡ entry_at self.entry.entries.now at }
    {
        self.entries.get(at?).map(|dated| dated.entry)
    }
}

// Calls are lent their tables and told how many entries are held, since a book keeps only the counts.
// Puts an entry into a table of `count` entries, over the first of its subject and day or else behind the others, and answers the new count.
pub fn put<T: Copy>(
    entries: &mut [Dated<T>],
    count: usize,
    table: Table,
    dated: Dated<T>,
) -> Result<usize, Fault>
    ensures result { result ≡ room_for entries.old table count (put_one (take count entries.old) dated) }
    ensures after { entries.new ≡ holding_if result (put_one (take count entries.old) dated) entries.old }
    ensures says { MatchResult result (λ n. AfterPut (take count entries.old) dated (take n entries.new)) (λ _. entries.new ≡ entries.old) }
{
    let held = History::held(entries, count, table)?;
    let at = held.find(dated.subject, dated.day);
    let needed = count + usize::from(at.is_none());
    if needed > entries.len() {
        return Err(Fault::HistoryFull { needed });
    }
    Ok(place(entries, count, at, dated))
}

// Writes the entry over the one that was found, or behind those held, and says how many are held then.
fn place<T: Copy>(
    entries: &mut [Dated<T>],
    count: usize,
    at: Option<usize>,
    dated: Dated<T>,
) -> usize
    requires held { count ≤ length entries.old }
    requires at { at ≡ found (take count entries.old) dated.subject dated.day }
    requires room { length (put_one (take count entries.old) dated) ≤ length entries.old }
    ensures count { result ≡ length (put_one (take count entries.old) dated) }
    ensures after { entries.new ≡ holding (put_one (take count entries.old) dated) entries.old }
{
    entries[at.unwrap_or(count)] = dated;
    count + usize::from(at.is_none())
}

// Puts the items of one day, the first for the subject 1 and so on, one after the other; no more than a day has periods.
pub fn put_day<T: Copy>(
    entries: &mut [Dated<T>],
    count: usize,
    table: Table,
    day: u16,
    items: &[T],
) -> Result<usize, Fault>
    ensures result { result ≡ room_for entries.old table count (put_day (take count entries.old) day items.now) }
    ensures after { entries.new ≡ holding_if result (put_day (take count entries.old) day items.now) entries.old }
    ensures says { MatchResult result (λ n. AfterDay (take count entries.old) day (take periods items.now) (take n entries.new)) (λ _. entries.new ≡ entries.old) }
{
    let items = &items[..DAY_ITEMS.min(items.len())];
    let held = History::held(entries, count, table)?;
    let at = held.find_each(day);
    let needed = count + count_none(&at[..items.len()]);
    if needed > entries.len() {
        return Err(Fault::HistoryFull { needed });
    }
    Ok(place_day(entries, count, &at, day, items))
}

// The most items of a day: one for each Settlement Period.
const DAY_ITEMS: usize = PERIODS as usize;

// How many of a day's items have no entry yet.
fn count_none(at: &[Option<usize>]) -> usize
    ensures { result ≡ count_by (λ o. not (is_some o)) at.now }
{
    at.iter().filter(|at| at.is_none()).count()
}

// Writes each item where its entry was found, or behind those held.
fn place_day<T: Copy>(
    entries: &mut [Dated<T>],
    count: usize,
    at: &[Option<usize>],
    day: u16,
    items: &[T],
) -> usize
    requires held { count ≤ length entries.old }
    requires few { length items.now ≤ periods }
    requires at { (k : ℕ) → k < length items.now → slice_index_or at.now k None ≡ found (take count entries.old) (k + 1) day }
    requires each { length items.now ≤ length at.now }
    requires room { length (put_all (take count entries.old) (on_day day 1 items.now)) ≤ length entries.old }
    ensures count { result ≡ length (put_all (take count entries.old) (on_day day 1 items.now)) }
    ensures after { entries.new ≡ holding (put_all (take count entries.old) (on_day day 1 items.now)) entries.old }
{
    let mut end = count;
    for ((subject, item), at) in (1..=PERIODS).zip(items).zip(at) {
        let dated = Dated {
            subject,
            day,
            entry: *item,
        };
        end = place(entries, end, *at, dated);
    }
    end
}
