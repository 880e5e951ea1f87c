// What is printed of a call, behind its number, and of a line that is no call. Each answer is one `write!` into the season's text, with Display.
// An answer is printed in one place, so it is a function and no `Display`: a type for it, or a struct for the text and the number that it takes, would be made for one `write!`.
ghost use Rattle.std.specs.Prelude.{◌≡◌, ◌++◌, Some, string_bytes, OnOk};
ghost use Rattle.std.specs.List.{flat_map};
ghost use Rattle.book.specs.Statements.{lines_from};
ghost use Rattle.seasontext.specs.Texts.{sent_text, outcome_text, volume_text, buffer_text, slip_line};

use domain::{Fault, Line};
use season::{Accepted, Outcome};
use seasonlines::Slip;
use std::alloc::AllocError;
use std::fmt;
use text::Hex;

// Lines that an issue sent, each on a line of its own.
#[derive(Clone, Copy, Debug, PartialEq, Eq)]
struct Sent<'a>(&'a [Line]);

impl fmt::Display for Sent<'_> {
    ghost output = { λ s. Some (flat_map sent_text s.0.now) };

    fn fmt<W: fmt::Write>(&self, f: &mut fmt::Formatter<W>) -> fmt::Result {
        for line in self.0 {
            write!(f, "  {line}\n")?;
        }
        Ok(())
    }
}

// The lines of a journal from `first` on, so many of them, as far as it has them.
pub(crate) fn lines_from(journal: &[Line], first: usize, count: usize) -> &[Line]
    ensures { result.now ≡ lines_from journal.now first count }
{
    let behind = &journal[first.min(journal.len())..];
    &behind[..count.min(behind.len())]
}

// Adds a call and what came of it; an issue's lines are those of the journal from `first` on.
pub(crate) fn put_outcome(
    text: &mut String,
    number: u64,
    journal: &[Line],
    first: usize,
    outcome: Outcome,
) -> Result<(), AllocError>
    ensures { OnOk result (string_bytes text.new ≡ string_bytes text.old ++ outcome_text number journal.now first outcome) }
{
    match outcome {
        Ok(Accepted::Done) => write!(text, "{number} ok\n"),
        Ok(Accepted::Scheduled { notice }) => write!(text, "{number} ok {}\n", Hex(&notice)),
        Ok(Accepted::Issued { lines }) => {
            let sent = Sent(lines_from(journal, first, lines));
            write!(text, "{number} ok {lines}\n{sent}")
        }
        Err(fault) => write!(text, "{number} {fault}\n"),
    }
}

// Adds the answer to the question after a volume.
pub(crate) fn put_volume(
    text: &mut String,
    number: u64,
    answer: Result<Option<(u32, u32)>, Fault>,
) -> Result<(), AllocError>
    ensures { OnOk result (string_bytes text.new ≡ string_bytes text.old ++ volume_text number answer) }
{
    match answer {
        Ok(None) => write!(text, "{number} ok none\n"),
        Ok(Some((kwh, opposite))) => write!(text, "{number} ok {kwh} {opposite}\n"),
        Err(fault) => write!(text, "{number} {fault}\n"),
    }
}

// Adds the answer to a statement, which stands at the start of a buffer.
pub(crate) fn put_statement(
    text: &mut String,
    number: u64,
    buffer: &[u8],
    answer: Result<usize, Fault>,
) -> Result<(), AllocError>
    ensures { OnOk result (string_bytes text.new ≡ string_bytes text.old ++ buffer_text number buffer.now answer) }
{
    match answer {
        Ok(size) => {
            let file = &buffer[..size.min(buffer.len())];
            write!(text, "{number} ok {}\n", Hex(file))
        }
        Err(fault) => write!(text, "{number} {fault}\n"),
    }
}

// Adds what is wrong with a line of the input, before the terms and behind them: it is called in these two places.
pub(crate) fn put_slip(text: &mut String, number: u64, slip: Slip) -> Result<(), AllocError>
    ensures { OnOk result (string_bytes text.new ≡ string_bytes text.old ++ slip_line number slip) }
{
    write!(text, "line {number}: {slip}\n")
}
