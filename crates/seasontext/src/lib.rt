// A season: its calls run on one book, and what is printed of it.
#![tactic(auto)]

ghost use Rattle.std.specs.Prelude.{◌≡◌, Bool, ◌++◌, IfOk, IsSome, string_bytes, OnOk};
ghost use Rattle.text.specs.Left.{lines_left};
ghost use Rattle.seasontext.specs.Agreeing.{SeasonsAgree};
ghost use Rattle.seasontext.specs.Openings.{HasNumbers, reached};
ghost use Rattle.seasontext.specs.Seasons.{terms_in, slip_before, before_text, until_terms, season_text};

use desk::{Desk, Said};
use domain::{Fault, Terms};
use running::Numbered;
use seasonlines::{Entry, Faulty, Slip, read_line};
use std::alloc::{AllocError, Global};
use sums::put_tables;
use text::Lines;
use texts::put_slip;

mod desk;
mod running;
mod sums;
mod texts;

// What is printed of a season. It fails only for want of memory.
pub fn season_text(heap: Global, input: &[u8], quiet: bool) -> Result<Vec<u8>, AllocError>
    ensures { IfOk result (λ v. v.items ≡ season_text quiet input.now) }
{
    Ok(season(heap, input, quiet)?.into_bytes())
}

// No season prints that a half hour differs: the lines of each that was split add up to the kWh of its last issue.
#[tactic(auto, using(crate::proofs::Agreed::seasons_agree))]
pub fn seasons_agree()
    ensures { SeasonsAgree }
{}

fn season(heap: Global, input: &[u8], quiet: bool) -> Result<String, AllocError>
    ensures { IfOk result (λ s. string_bytes s ≡ season_text quiet input.now) }
{
    let mut text = String::new(heap);
    let mut lines = (1..).zip(Lines::of(input));
    match find_terms(&mut text, &mut lines)? {
        Some(Ok(terms)) => {
            let mut desk = Desk::open(heap, terms, quiet, text)?;
            desk.run(lines)?;
            Ok(desk.into_text())
        }
        Some(Err(fault)) => {
            write!(text, "terms {fault}\n")?;
            Ok(text)
        }
        // a season without terms ends with two empty tables
        None => {
            put_tables(heap, &mut text, &[], &[])?;
            Ok(text)
        }
    }
}

// Tells of the lines before the terms, and finds these, or why they are refused. The lines behind them are left.
#[tactic(auto, unfolding(crate::specs::Seasons::until_terms, crate::specs::Seasons::opened_by))]
fn find_terms(
    text: &mut String,
    lines: &mut Numbered<'_>,
) -> Result<Option<Result<Terms, Fault>>, AllocError>
    requires { HasNumbers lines.old.a.start (lines_left lines.old.b) }
    ensures told { IfOk result (λ found. (quiet : Bool) → reached quiet lines.new.a.start (string_bytes text.new) found (lines_left lines.new.b) ≡ until_terms quiet lines.old.a.start (string_bytes text.old) (lines_left lines.old.b)) }
    ensures numbers { IfOk result (λ found. IsSome found → HasNumbers lines.new.a.start (lines_left lines.new.b)) }
{
    while let Some((number, line)) = lines.next() {
        let said = read_line(line);
        if let Some((places, days, capacity)) = terms_in(&said) {
            return Ok(Some(Terms::new(places, days, capacity)));
        }
        put_before(text, number, &said)?;
    }
    Ok(None)
}

// The places, days and capacity of a line that gives terms.
fn terms_in(said: &Said) -> Option<(u8, u16, u32)>
    ensures { result ≡ terms_in said.now }
{
    match said {
        Ok(
            Some(
                Entry::Terms {
                    places,
                    days,
                    capacity,
                },
            ),
        ) => Some((*places, *days, *capacity)),
        Ok(
            None
            | Some(
                Entry::Tables { .. } | Entry::Schedule { .. } | Entry::Row { .. } | Entry::Ask(_),
            ),
        )
        | Err(_) => None,
    }
}

// What is wrong with a line before the terms, if it says anything.
fn slip_before(said: &Said) -> Option<Slip>
    ensures { result ≡ slip_before said.now }
{
    match said {
        Ok(None | Some(Entry::Terms { .. })) => None,
        Ok(Some(Entry::Row { .. })) | Err(Faulty::Row(_)) => Some(Slip::RowOutside),
        Ok(Some(Entry::Tables { .. } | Entry::Schedule { .. } | Entry::Ask(_))) => {
            Some(Slip::BeforeTerms)
        }
        Err(Faulty::Line(slip)) => Some(*slip),
    }
}

// Adds what is wrong with a line before the terms, if it says anything. It is a function and no `Display`: it is called once, and a type for it would be made for one `write!`.
fn put_before(text: &mut String, number: u64, said: &Said) -> Result<(), AllocError>
    ensures { OnOk result (string_bytes text.new ≡ string_bytes text.old ++ before_text number said.now) }
{
    match slip_before(said) {
        Some(slip) => put_slip(text, number, slip),
        None => Ok(()),
    }
}
