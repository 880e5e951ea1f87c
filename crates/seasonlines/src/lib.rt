// What one line of a season's text says: a call, with its numbers.
#![tactic(auto)]

ghost use Rattle.std.specs.Prelude.{◌≡◌, Some};
ghost use Rattle.text.specs.Words.{words_of, uncommented};
ghost use Rattle.text.specs.Left.{words_left};
ghost use Rattle.seasonlines.specs.declared.Slip.TheVariants.{Word};
ghost use Rattle.seasonlines.specs.Slips.{slip_text};
ghost use Rattle.seasonlines.specs.Entries.{entry_of, said_of, worded};

use domain::{AllocationRow, PERIODS};
use std::fmt;
use text::{WordFault, Words, before_comment};

mod calls;
mod figures;
mod numbers;
mod verbs;

pub use figures::Figures;
use verbs::Verb;

// The figures that a line of readings may have: one for each Settlement Period of a day.
pub const MAX_FIGURES: usize = PERIODS as usize;

// What a line of a season says.
#[derive(Clone, Copy, Debug, PartialEq, Eq)]
pub enum Entry {
    Terms {
        places: u8,
        days: u16,
        capacity: u32,
    },
    Tables {
        holders: u64,
        rows: u64,
        journal: u64,
    },
    Schedule {
        sender: u16,
        day: u16,
        moment: u32,
    },
    // The row of the periods `from` to `to`, which are in order and within 1 to 48.
    Row {
        from: u8,
        to: u8,
        row: AllocationRow,
    },
    Ask(Request),
}

// A call of the book, or a question to it. Four are calls of the crate season too: this crate stands below the book, and knows only text.
#[derive(Clone, Copy, Debug, PartialEq, Eq)]
pub enum Request {
    Register {
        place: u8,
        day: u16,
        supplier: u16,
    },
    Reading {
        day: u16,
        period: u8,
        quality: u8,
        kwh: u32,
    },
    // The figures of the day's periods from 1 on, at least one.
    Readings {
        day: u16,
        quality: u8,
        figures: Figures,
    },
    End {
        sender: u16,
        day: u16,
        moment: u32,
    },
    Issue {
        day: u16,
        run: u8,
    },
    Volume {
        day: u16,
        period: u8,
        place: u8,
    },
    Statement {
        first: u64,
        count: u64,
    },
}

// A line with words that is no entry.
#[derive(Clone, Copy, Debug, PartialEq, Eq)]
pub enum Faulty {
    // It begins with `row`.
    Row(Slip),
    // Any other line.
    Line(Slip),
}

// What is wrong with a line. The name of a call is word 1.
#[derive(Clone, Copy, Debug, PartialEq, Eq)]
pub enum Slip {
    UnknownWord,
    Word(WordFault),
    RowPeriods,
    RowOutside,
    BeforeTerms,
    TermsAgain,
    TablesLate,
}

impl fmt::Display for Slip {
    ghost output = { λ x. Some (slip_text x) };

    fn fmt<W: fmt::Write>(&self, f: &mut fmt::Formatter<W>) -> fmt::Result {
        match self {
            Slip::UnknownWord => write!(f, "unknown word"),
            Slip::Word(fault) => write!(f, "{fault}"),
            Slip::RowPeriods => write!(f, "the periods are not within 1 to 48 in order"),
            Slip::RowOutside => write!(f, "a row outside a schedule"),
            Slip::BeforeTerms => write!(f, "a call before terms"),
            Slip::TermsAgain => write!(f, "terms stand once"),
            Slip::TablesLate => write!(f, "tables stand once, before the first call"),
        }
    }
}

impl From<WordFault> for Slip {
    ghost from_gives = { λ f r. r ≡ Word f };

    fn from(fault: WordFault) -> Slip {
        Slip::Word(fault)
    }
}

// What a line says, unless it has no words. Its words are judged from left to right, and the first fault is told.
#[tactic(auto, unfolding(crate::specs::Entries::entry_of))]
pub fn read_line(line: &[u8]) -> Result<Option<Entry>, Faulty>
    ensures { result ≡ entry_of (words_of (uncommented line.now)) }
{
    let mut words = Words::of(before_comment(line));
    match words.next() {
        Some(word) => said(word, words),
        None => Ok(None),
    }
}

// What a line says with this first word and these words after it.
// It answers in the form that the line has, since an entry is large and each other form would be one copy more.
fn said(word: &[u8], words: Words<'_>) -> Result<Option<Entry>, Faulty>
    ensures { result ≡ worded (said_of word.now (words_left words.entry)) }
{
    let Some(verb) = Verb::of(word) else {
        return Err(Faulty::Line(Slip::UnknownWord));
    };
    match verb.said(words) {
        Ok(entry) => Ok(Some(entry)),
        Err(slip) => Err(verb.faulty(slip)),
    }
}
