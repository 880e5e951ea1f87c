// What the words of a line say after its first one. Each call has its numbers, and no word after them.
ghost use Rattle.std.specs.Prelude.{◌≡◌};
ghost use Rattle.text.specs.Left.{words_left};
ghost use Rattle.seasonlines.specs.Entries.{said_by};
ghost use Rattle.seasonlines.specs.declared.verbs.Verb.TheVariants as verb;

use crate::numbers::{four, list, padded, three, two};
use crate::{Entry, Figures, MAX_FIGURES, Request, Slip};
use arrayvec::ArrayVec;
use domain::{AllocationRow, NOMINATIONS, PERIODS};
use text::{WordFault, Words};

pub(crate) fn terms(words: Words<'_>) -> Result<Entry, Slip>
    ensures { result ≡ said_by verb.Terms (words_left words.entry) }
{
    let (places, days, capacity) = three(words)?;
    Ok(Entry::Terms {
        places,
        days,
        capacity,
    })
}

pub(crate) fn tables(words: Words<'_>) -> Result<Entry, Slip>
    ensures { result ≡ said_by verb.Tables (words_left words.entry) }
{
    let (holders, rows, journal) = three(words)?;
    Ok(Entry::Tables {
        holders,
        rows,
        journal,
    })
}

pub(crate) fn register(words: Words<'_>) -> Result<Entry, Slip>
    ensures { result ≡ said_by verb.Register (words_left words.entry) }
{
    let (place, day, supplier) = three(words)?;
    Ok(Entry::Ask(Request::Register {
        place,
        day,
        supplier,
    }))
}

pub(crate) fn schedule(words: Words<'_>) -> Result<Entry, Slip>
    ensures { result ≡ said_by verb.Schedule (words_left words.entry) }
{
    let (sender, day, moment) = three(words)?;
    Ok(Entry::Schedule {
        sender,
        day,
        moment,
    })
}

// The nominations that are missing are 0.
pub(crate) fn row(mut words: Words<'_>) -> Result<Entry, Slip>
    ensures { result ≡ said_by verb.Row (words_left words.entry) }
{
    let from = words.number(2)?;
    let to = words.number(3)?;
    let method = words.number(4)?;
    let balance = words.number(5)?;
    let nominations: ArrayVec<u32, NOMINATIONS> = list(words, 6)?;
    if from == 0 || to > PERIODS || from > to {
        return Err(Slip::RowPeriods);
    }
    let row = AllocationRow {
        method,
        balance,
        nominations: padded(&nominations),
    };
    Ok(Entry::Row { from, to, row })
}

pub(crate) fn reading(words: Words<'_>) -> Result<Entry, Slip>
    ensures { result ≡ said_by verb.Reading (words_left words.entry) }
{
    let (day, period, quality, kwh) = four(words)?;
    Ok(Entry::Ask(Request::Reading {
        day,
        period,
        quality,
        kwh,
    }))
}

// At least one figure.
pub(crate) fn readings(mut words: Words<'_>) -> Result<Entry, Slip>
    ensures { result ≡ said_by verb.Readings (words_left words.entry) }
{
    let day = words.number(2)?;
    let quality = words.number(3)?;
    let figures: ArrayVec<u32, MAX_FIGURES> = list(words, 4)?;
    if figures.is_empty() {
        return Err(Slip::Word(WordFault::Missing(4)));
    }
    Ok(Entry::Ask(Request::Readings {
        day,
        quality,
        figures: Figures::of(&figures),
    }))
}

pub(crate) fn end(words: Words<'_>) -> Result<Entry, Slip>
    ensures { result ≡ said_by verb.End (words_left words.entry) }
{
    let (sender, day, moment) = three(words)?;
    Ok(Entry::Ask(Request::End {
        sender,
        day,
        moment,
    }))
}

pub(crate) fn issue(words: Words<'_>) -> Result<Entry, Slip>
    ensures { result ≡ said_by verb.Issue (words_left words.entry) }
{
    let (day, run) = two(words)?;
    Ok(Entry::Ask(Request::Issue { day, run }))
}

pub(crate) fn volume(words: Words<'_>) -> Result<Entry, Slip>
    ensures { result ≡ said_by verb.Volume (words_left words.entry) }
{
    let (day, period, place) = three(words)?;
    Ok(Entry::Ask(Request::Volume { day, period, place }))
}

pub(crate) fn statement(words: Words<'_>) -> Result<Entry, Slip>
    ensures { result ≡ said_by verb.Statement (words_left words.entry) }
{
    let (first, count) = two(words)?;
    Ok(Entry::Ask(Request::Statement { first, count }))
}
