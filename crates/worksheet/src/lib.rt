// A table of half hours, answered line by line: each is split by a rule, beside a second rule that checks it.
#![tactic(auto)]

ghost use Rattle.std.specs.Prelude.{◌≡◌, Some, ◌-◌, ◌^◌, IfOk, if◌then◌else◌, string_bytes};
ghost use Rattle.entries.specs.Held.{held};
ghost use Rattle.worksheet.specs.declared.Outcome.TheVariants.{Split, Unlawful};
ghost use Rattle.worksheet.specs.Figures.{figure_text};
ghost use Rattle.worksheet.specs.Lines.{Answers, compared_text, compared_outcome, half_text, half_outcome, line_text, line_outcome};
ghost use Rattle.worksheet.specs.Tables.{Under, counted, counts_text, table_text};

use entries::{HalfHour, Unread, read_half_hour};
use rules::Rule;
use std::alloc::{AllocError, Global};
use std::fmt;
use text::{Lines, before_comment, next_word};

// What a line of the table came to.
#[derive(Clone, Copy, PartialEq, Eq, Debug)]
pub enum Outcome {
    Blank,
    Split,
    Unlawful,
    Malformed,
    Differing,
}

// What is printed for a line, and what the line came to.
#[derive(PartialEq, Eq, Debug, Drop)]
pub struct Answer {
    pub text: String,
    pub outcome: Outcome,
}

// The kWh of each place by a rule, each after a space, or that the row is unlawful.
#[tactic(auto, using(crate::proofs::Told::shares_text_none, crate::proofs::Told::shares_text_more))]
fn figure<R: Rule>(heap: Global, rule: &R, half: &HalfHour) -> Result<String, AllocError>
    ensures { IfOk result (λ s. string_bytes s ≡ figure_text (R.Rule.meaning rule.now) (held half.now)) }
{
    let row = half.row();
    if !rule.is_lawful(row) {
        return String::from_str(heap, " unlawful");
    }
    let mut text = String::new(heap);
    // a share is asked for by the number of a place
    for place in 0..row.nominations.len() {
        let share = rule.share(row, half.period, half.energy, place);
        write!(text, " {share}")?;
    }
    Ok(text)
}

// The answer to a half hour: the rule's figure, and the second one where it differs.
// The heap and both rules stand one by one: the two other functions that take them are public calls, which a struct would say a second time.
fn answer_half_hour<R: Rule, S: Rule>(
    heap: Global,
    rule: &R,
    second: &S,
    half: &HalfHour,
) -> Result<Answer, AllocError>
    ensures { IfOk result (λ a. Answers a (half_text (R.Rule.meaning rule.now) (S.Rule.meaning second.now) (held half.now)) (half_outcome (R.Rule.meaning rule.now) (S.Rule.meaning second.now) (held half.now))) }
{
    let ours = figure(heap, rule, half)?;
    let theirs = figure(heap, second, half)?;
    compare(heap, half, rule.is_lawful(half.row()), ours, theirs)
}

// The answer to a half hour with two figures, of which the second is shown where it differs.
fn compare(
    heap: Global,
    half: &HalfHour,
    lawful: bool,
    ours: String,
    theirs: String,
) -> Result<Answer, AllocError>
    ensures { IfOk result (λ a. Answers a (compared_text (held half.now) (string_bytes ours) (string_bytes theirs)) (compared_outcome lawful (string_bytes ours) (string_bytes theirs))) }
{
    let period = half.period;
    let energy = half.energy;
    if ours == theirs {
        Ok(Answer {
            text: format!(in heap; "{period} {energy}:{ours}\n")?,
            outcome: agreed_outcome(lawful),
        })
    } else {
        Ok(Answer {
            text: format!(in heap; "{period} {energy}:{ours} differs{theirs}\n")?,
            outcome: Outcome::Differing,
        })
    }
}

fn agreed_outcome(lawful: bool) -> Outcome
    ensures { result ≡ (if lawful then Split else Unlawful) }
{
    if lawful {
        Outcome::Split
    } else {
        Outcome::Unlawful
    }
}

// The answer to a line of the table, which is its line `number`.
pub fn answer_line<R: Rule, S: Rule>(
    heap: Global,
    rule: &R,
    second: &S,
    number: u64,
    line: &[u8],
) -> Result<Answer, AllocError>
    ensures { IfOk result (λ a. Answers a (line_text (R.Rule.meaning rule.now) (S.Rule.meaning second.now) number line.now) (line_outcome (R.Rule.meaning rule.now) (S.Rule.meaning second.now) line.now)) }
{
    let content = before_comment(line);
    if next_word(content).is_none() {
        return Ok(Answer {
            text: String::new(heap),
            outcome: Outcome::Blank,
        });
    }
    match read_half_hour(heap, content) {
        Ok(half) => answer_half_hour(heap, rule, second, &half),
        Err(Unread::Malformed(fault)) => Ok(Answer {
            text: format!(in heap; "line {number}: {fault}\n")?,
            outcome: Outcome::Malformed,
        }),
        Err(Unread::NoMemory(refused)) => Err(refused),
    }
}

// How many half hours were split, and how many lines were otherwise.
#[derive(Clone, Copy, PartialEq, Eq, Debug, Default)]
struct Tally {
    split: u64,
    unlawful: u64,
    malformed: u64,
    differing: u64,
}

impl Tally {
    fn count(&mut self, outcome: Outcome)
        requires { Under (2 ^ 64 - 1) self.old }
        ensures { self.new ≡ counted self.old outcome }
    {
        match outcome {
            Outcome::Blank => {}
            Outcome::Split => self.split += 1,
            Outcome::Unlawful => self.unlawful += 1,
            Outcome::Malformed => self.malformed += 1,
            Outcome::Differing => self.differing += 1,
        }
    }
}

impl fmt::Display for Tally {
    ghost output = { λ tally. Some (counts_text tally) };

    fn fmt<W: fmt::Write>(&self, f: &mut fmt::Formatter<W>) -> fmt::Result {
        let Tally {
            split,
            unlawful,
            malformed,
            differing,
        } = *self;
        write!(
            f,
            "split {split}, unlawful {unlawful}, malformed {malformed}, differing {differing}"
        )
    }
}

// The answers to all lines of a table, and a line that counts them.
#[tactic(auto, using(crate::proofs::Told::text_more, crate::proofs::Told::tally_more, crate::proofs::Told::under_more))]
pub fn answer_table<R: Rule, S: Rule>(
    heap: Global,
    rule: &R,
    second: &S,
    input: &[u8],
) -> Result<String, AllocError>
    ensures { IfOk result (λ s. string_bytes s ≡ table_text (R.Rule.meaning rule.now) (S.Rule.meaning second.now) input.now) }
{
    let mut text = String::new(heap);
    let mut tally = Tally::default();
    for (number, line) in (1..).zip(Lines::of(input)) {
        let answer = answer_line(heap, rule, second, number, line)?;
        text.push_str(answer.text.as_str())?;
        tally.count(answer.outcome);
    }
    writeln!(text, "{tally}")?;
    Ok(text)
}
