// A half hour and its row, read from the words of a line: PERIOD KWH METHOD CAPACITY BALANCE NOMINATION…
#![tactic(auto)]

ghost use Rattle.std.specs.Prelude.{◌≡◌, drop, Some, alloc_error};
ghost use Rattle.text.specs.Words.{words_of};
ghost use Rattle.text.specs.Left.{words_left};
ghost use Rattle.rules.specs.Agreed.{agreed};
ghost use Rattle.entries.specs.declared.Fault.TheVariants.{Word};
ghost use Rattle.entries.specs.declared.Unread.TheVariants.{Malformed, NoMemory};
ghost use Rattle.entries.specs.Faults.{fault_text};
ghost use Rattle.entries.specs.Fields.{period_in, energy_in};
ghost use Rattle.entries.specs.Held.{held};
ghost use Rattle.entries.specs.Reading.{Reads, Gathers};

use domain::{MAX_KWH, is_period};
use rules::Row;
use std::alloc::{AllocError, AllocFailed, Global};
use std::fmt;
use text::{WordFault, Words, word};

// A row may have at most so many nominations here, more than any rule of the house takes.
const MAX_NOMINATIONS: usize = 16;

// The word of a line with its first nomination.
const FIRST: u8 = 6;

// What is wrong with a line.
#[derive(Clone, Copy, Debug, PartialEq, Eq)]
pub enum Fault {
    Word(WordFault),
    Period,
    Energy,
}

impl fmt::Display for Fault {
    ghost output = { λ x. Some (fault_text x) };

    fn fmt<W: fmt::Write>(&self, f: &mut fmt::Formatter<W>) -> fmt::Result {
        match self {
            Fault::Word(fault) => write!(f, "{fault}"),
            Fault::Period => write!(f, "the period is outside 1 to 48"),
            Fault::Energy => write!(f, "the energy is above 9999999 kWh"),
        }
    }
}

impl From<WordFault> for Fault {
    ghost from_gives = { λ f r. r ≡ Word f };

    fn from(fault: WordFault) -> Fault {
        Fault::Word(fault)
    }
}

// Why a line gave no half hour.
#[derive(Clone, Copy, Debug, PartialEq, Eq)]
pub enum Unread {
    Malformed(Fault),
    NoMemory(AllocError),
}

impl From<Fault> for Unread {
    ghost from_gives = { λ f r. r ≡ Malformed f };

    fn from(fault: Fault) -> Unread {
        Unread::Malformed(fault)
    }
}

impl From<WordFault> for Unread {
    ghost from_gives = { λ f r. r ≡ Malformed (Word f) };

    fn from(fault: WordFault) -> Unread {
        Unread::Malformed(Fault::Word(fault))
    }
}

impl From<AllocError> for Unread {
    ghost from_gives = { λ e r. r ≡ NoMemory e };

    fn from(refused: AllocError) -> Unread {
        Unread::NoMemory(refused)
    }
}

impl<T: Drop> From<AllocFailed<T>> for Unread {
    ghost from_gives = { λ _ r. r ≡ NoMemory alloc_error };

    fn from(refused: AllocFailed<T>) -> Unread {
        Unread::NoMemory(AllocError::from(refused))
    }
}

// One half hour of a shared meter: the energy that was metered, and what the parties agreed for it.
#[derive(Drop)]
pub struct HalfHour {
    pub period: u8,
    pub energy: u32,
    pub method: u8,
    pub capacity: u32,
    pub balance: u8,
    pub nominations: Vec<u32>,
}

impl HalfHour {
    pub fn row(&self) -> Row<'_>
        ensures { agreed result ≡ (held self.now).row }
    {
        Row {
            method: self.method,
            capacity: self.capacity,
            nominations: self.nominations.as_slice(),
            balance: self.balance,
        }
    }
}

// The half hour that a line writes, or the first fault in the order of its words.
pub fn read_half_hour(heap: Global, line: &[u8]) -> Result<HalfHour, Unread>
    ensures { Reads (words_of line.now) result }
{
    let mut words = Words::of(line);
    Ok(HalfHour {
        period: period(&mut words)?,
        energy: energy(&mut words)?,
        method: words.number(3)?,
        capacity: words.number(4)?,
        balance: words.number(5)?,
        nominations: nominations(heap, words)?,
    })
}

fn period(words: &mut Words<'_>) -> Result<u8, Fault>
    ensures value { result ≡ period_in (words_of words.old.rest.now) }
    ensures rest { words_of words.new.rest.now ≡ drop 1 (words_of words.old.rest.now) }
{
    let period = words.number(1)?;
    if !is_period(period) {
        return Err(Fault::Period);
    }
    Ok(period)
}

fn energy(words: &mut Words<'_>) -> Result<u32, Fault>
    ensures value { result ≡ energy_in (words_of words.old.rest.now) }
    ensures rest { words_of words.new.rest.now ≡ drop 1 (words_of words.old.rest.now) }
{
    let energy = words.number(2)?;
    if energy > MAX_KWH {
        return Err(Fault::Energy);
    }
    Ok(energy)
}

// The nominations, from the line's sixth word to its end. The figures of a season's line are read in the same way into an array of fixed size; a trait for a push that may or may not run out of memory would be no plainer than two loops.
fn nominations(heap: Global, words: Words<'_>) -> Result<Vec<u32>, Unread>
    ensures { Gathers (words_left words.entry) result }
{
    let mut list = Vec::new(heap);
    for text in words {
        let place = FIRST + list.len() as u8;
        if list.len() >= MAX_NOMINATIONS {
            return Err(Unread::from(WordFault::Extra(place)));
        }
        list.push(word(text, place)?)?;
    }
    if list.is_empty() {
        return Err(Unread::from(WordFault::Missing(FIRST)));
    }
    Ok(list)
}
