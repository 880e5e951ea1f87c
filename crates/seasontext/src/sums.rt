// The two tables at the end of a season. What adds to a text here chooses the rows and works out their sums; a row prints by one `write!`.
// A row or a table is printed in one place, and the two tables together in two, so each is a function and no `Display`: a type for it, or a struct for the text and the lines that it takes, would be made for one call.
ghost use Rattle.std.specs.Prelude.{◌≡◌, ◌++◌, Bool, IfOk, string_bytes, OnOk};
ghost use Rattle.std.specs.Fn.{FnReturnsAt};
ghost use Rattle.std.specs.List.{flat_map};
ghost use Rattle.domain.specs.declared.Line.{Line};
ghost use Rattle.season.specs.Law.{sum_of};
ghost use Rattle.seasontext.specs.Sums.{Tells, period_text, day_text, period_table, suppliers_sent, supplier_text, tables_text};

use domain::{Line, MAX_DAYS, PERIODS, reading_slot};
use std::alloc::{AllocError, Global};
use std::collections::BTreeSet;

// The volumes of the lines that are picked, added up.
#[tactic(auto, unfolding(season::specs::Law::sum_of))]
fn sum_of<F: Fn(&Line) -> bool>(lines: &[Line], picks: F) -> i128
    requires { F.IsAlwaysCallable picks }
    ensures { (p : Line → Bool) → Tells (FnReturnsAt F.Fn picks) p → result ≡ sum_of p lines.now }
{
    let mut sum = 0;
    for line in lines {
        if picks(line) {
            sum += i128::from(line.volume);
        }
    }
    sum
}

// Adds a row of the first table, for a day's period that was split.
fn put_period(
    text: &mut String,
    lines: &[Line],
    day: u16,
    period: u8,
    split: Option<u32>,
) -> Result<(), AllocError>
    ensures { OnOk result (string_bytes text.new ≡ string_bytes text.old ++ period_text lines.now day period split) }
{
    let Some(kwh) = split else {
        return Ok(());
    };
    let sum = sum_of(lines, |line| line.day == day && line.period == period);
    let word = if i128::from(kwh) == sum {
        "agrees"
    } else {
        "differs"
    };
    write!(text, "{day} {period} {kwh} {sum} {word}\n")
}

// Adds a day's rows of the first table.
#[tactic(auto, unfolding(domain::specs::Lines::gathered))]
fn put_day(
    text: &mut String,
    lines: &[Line],
    split: &[Option<u32>],
    day: u16,
) -> Result<(), AllocError>
    ensures { OnOk result (string_bytes text.new ≡ string_bytes text.old ++ day_text lines.now split.now day) }
{
    // a half hour is asked for by its number: the day's part of the split may be short or missing, and to cut it out is no plainer
    for period in 1..=PERIODS {
        let part = split.get(reading_slot(day, period)).copied().flatten();
        put_period(text, lines, day, period, part)?;
    }
    Ok(())
}

// Adds the first table.
#[tactic(auto, using(crate::proofs::Totals::gathered_begin, crate::proofs::Totals::gathered_turn))]
fn put_days(text: &mut String, lines: &[Line], split: &[Option<u32>]) -> Result<(), AllocError>
    ensures { OnOk result (string_bytes text.new ≡ string_bytes text.old ++ period_table lines.now split.now) }
{
    // the days are numbers: a loop over parts of the split would be bounded by the days too, and is no plainer
    for day in 0..MAX_DAYS {
        put_day(text, lines, split, day)?;
    }
    Ok(())
}

// The suppliers that were sent a line.
fn suppliers_of(heap: Global, lines: &[Line]) -> Result<BTreeSet<u16>, AllocError>
    ensures { IfOk result (λ s. s.keys ≡ suppliers_sent lines.now) }
{
    let mut suppliers = BTreeSet::new(heap);
    for line in lines {
        suppliers.insert(line.supplier)?;
    }
    Ok(suppliers)
}

// Adds the rows of the second table for these suppliers.
fn put_suppliers(
    text: &mut String,
    lines: &[Line],
    suppliers: &BTreeSet<u16>,
) -> Result<(), AllocError>
    ensures { OnOk result (string_bytes text.new ≡ string_bytes text.old ++ flat_map (supplier_text lines.now) suppliers.now.keys) }
{
    for &supplier in suppliers {
        let sum = sum_of(lines, |line| line.supplier == supplier);
        write!(text, "{supplier} {sum}\n")?;
    }
    Ok(())
}

// Adds the two tables.
pub(crate) fn put_tables(
    heap: Global,
    text: &mut String,
    lines: &[Line],
    split: &[Option<u32>],
) -> Result<(), AllocError>
    ensures { OnOk result (string_bytes text.new ≡ string_bytes text.old ++ tables_text lines.now split.now) }
{
    let suppliers = suppliers_of(heap, lines)?;
    write!(text, "\nDAY PERIOD KWH LINES\n")?;
    put_days(text, lines, split)?;
    write!(text, "\nSUPPLIER KWH\n")?;
    put_suppliers(text, lines, &suppliers)
}
