// A season run on a desk, from the terms to the two tables.
ghost use Rattle.std.specs.Prelude.{◌≡◌, replicate, IfOk, None, string_bytes, OnOk};
ghost use Rattle.text.specs.Left.{lines_left};
ghost use Rattle.seasontext.specs.Openings.{HasNumbers};
ghost use Rattle.seasontext.specs.Seasons.{usual_holders, usual_journal, start_of, run_lines, ended};
ghost use Rattle.seasontext.specs.Seen.{seen};

use crate::desk::Desk;
use crate::sums::put_tables;
use crate::texts::lines_from;
use book::Book;
use domain::{AllocationRow, Line, Reading, Slot, Terms, issued_slots, reading_slots};
use history::Dated;
use rules::House;
use seasonlines::read_line;
use std::alloc::{AllocError, Global};
use std::iter::Zip;
use std::ops::RangeFrom;
use text::Lines;

// The lines of a season that are left, each with its number. That their numbers have 64 bits stands in the contract of each function that takes them: this is the library's `zip`, which has no place for a ghost field, and an iterator of our own would repeat it.
pub(crate) type Numbered<'a> = Zip<RangeFrom<u64>, Lines<'a>>;

// Entries of the tables of holders and of the journal, if no line says otherwise.
const HOLDERS: usize = 512;

const JOURNAL: usize = 65_536;

impl Desk {
    // A desk with a book that is opened, and blank tables.
    pub(crate) fn open(
        heap: Global,
        terms: Terms,
        quiet: bool,
        text: String,
    ) -> Result<Desk, AllocError>
        ensures { IfOk result (λ d. seen d ≡ start_of usual_holders usual_journal terms quiet (string_bytes text)) }
    {
        let slots = reading_slots(terms.days);
        let issued = issued_slots(terms.places, terms.days);
        Ok(Desk {
            heap,
            book: Book::open(terms, House),
            holders: vec![in heap; Dated::blank(0); HOLDERS]?,
            rows: vec![in heap; Dated::blank(AllocationRow::NONE); slots]?,
            readings: vec![in heap; Reading::NONE; slots]?,
            issued: vec![in heap; Slot::NONE; issued]?,
            journal: vec![in heap; Line::NONE; JOURNAL]?,
            split: no_splits(heap, slots)?,
            quiet,
            calls: 0,
            sized: false,
            draft: None,
            text,
        })
    }

    // Does what the lines say.
    #[tactic(auto, unfolding(crate::specs::Seasons::run_lines))]
    fn lines(&mut self, lines: Numbered<'_>) -> Result<(), AllocError>
        requires { HasNumbers lines.a.start (lines_left lines.b) }
        ensures { OnOk result (seen self.new ≡ run_lines lines.entry.a.start (seen self.old) (lines_left lines.entry.b)) }
    {
        for (number, line) in lines {
            self.line(number, read_line(line))?;
        }
        Ok(())
    }

    // Calls an open schedule, and adds the two tables.
    #[tactic(auto, unfolding(crate::specs::Seen::seen, crate::specs::Seasons::ended))]
    fn end(&mut self) -> Result<(), AllocError>
        ensures { OnOk result (string_bytes self.new.text ≡ ended (seen self.old)) }
    {
        self.close()?;
        let count = self.book.lines();
        let lines = lines_from(self.journal.as_slice(), 0, count);
        put_tables(self.heap, &mut self.text, lines, self.split.as_slice())
    }

    // Runs a season's lines to its end.
    pub(crate) fn run(&mut self, lines: Numbered<'_>) -> Result<(), AllocError>
        requires { HasNumbers lines.a.start (lines_left lines.b) }
        ensures { OnOk result (string_bytes self.new.text ≡ ended (run_lines lines.entry.a.start (seen self.old) (lines_left lines.entry.b))) }
    {
        self.lines(lines)?;
        self.end()
    }

    // What has been printed.
    pub(crate) fn into_text(self) -> String
        ensures { result ≡ self.text }
    {
        let Desk { text, .. } = self;
        text
    }
}

// A table of slots of which none was split.
fn no_splits(heap: Global, slots: usize) -> Result<Vec<Option<u32>>, AllocError>
    ensures { IfOk result (λ v. v.items ≡ replicate slots None) }
{
    vec![in heap; None; slots]
}
