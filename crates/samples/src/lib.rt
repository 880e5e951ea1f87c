// What tests have in common: the sizes of a small book, records for its tables, a refusal as its number and spot, and which of two refusals comes first.
#![tactic(auto)]

ghost use Rattle.std.specs.Prelude.{◌≡◌, ◌++◌, ◌∷◌, map, IfOk, OnOk, option_map};
ghost use Rattle.std.specs.Result.{result_err};
ghost use Rattle.domain.specs.Refusals.{refused};
ghost use Rattle.samples.specs.Attempts.{faultless, alone, beside, in_order};

use domain::{AllocationRow, Fault, Line};
use history::Dated;
use std::alloc::{AllocError, Global};

// The sizes of the tables of readings and of what was issued, for two places and three days.
pub const READINGS: usize = 144;

pub const SLOTS: usize = 288;

// An element of a table of holders that nobody has put.
pub const NOBODY: Dated<u16> = Dated {
    subject: 9,
    day: 9,
    entry: 9,
};

// A line of a journal that no book has sent.
pub const STRAY: Line = Line {
    day: 9,
    period: 99,
    place: 9,
    supplier: 0,
    run: 9,
    volume: i32::MIN,
};

// 70% for place 0 and the rest for place 1.
pub const SEVENTY: AllocationRow = AllocationRow {
    method: 1,
    balance: 1,
    nominations: [7_000, 0, 0, 0, 0, 0, 0, 0],
};

// A fixed block of 30 kWh for place 0, and what is left or wanting for place 1. Rows store a method's number.
pub const THIRTY: AllocationRow = AllocationRow {
    method: 3,
    balance: 1,
    nominations: [30, 0, 0, 0, 0, 0, 0, 0],
};

// A refusal's number and spot, or none where the call was accepted.
// A pair of numbers, since that is what the documents promise of each refusal, and what tests compare.
pub type Refusal = Option<(u8, u64)>;

pub fn number_and_spot(fault: Fault) -> (u8, u64)
    ensures { result ≡ refused fault }
{
    (fault.number(), fault.spot())
}

pub fn refusal<T: Drop>(answer: Result<T, Fault>) -> Refusal
    ensures { result ≡ option_map refused (result_err answer) }
{
    answer.err().map(number_and_spot)
}

// A call to attempt: one thing that is wrong with it and another, and what it is then answered.
#[derive(Clone, Copy)]
pub struct Attempt<W> {
    pub one: Option<W>,
    pub other: Option<W>,
    pub expected: Refusal,
}

// The calls to attempt, for a list of what can be wrong with its refusals, in the order in which it is answered:
// with nothing wrong, with each thing alone, and with each beside each that comes after it.
pub fn attempts<W: Copy>(
    alloc: Global,
    refusals: &[(W, (u8, u64))],
) -> Result<Vec<Attempt<W>>, AllocError>
    ensures { IfOk result (λ list. list.items ≡ faultless ∷ in_order refusals.now) }
{
    let mut attempts = Vec::new(alloc);
    attempts.push(Attempt {
        one: None,
        other: None,
        expected: None,
    })?;
    let mut rest = refusals;
    while let Some((first, later)) = rest.split_first() {
        add(&mut attempts, *first, later)?;
        rest = later;
    }
    Ok(attempts)
}

// Adds what is wrong first alone, and beside each that comes after it.
fn add<W: Copy>(
    attempts: &mut Vec<Attempt<W>>,
    first: (W, (u8, u64)),
    later: &[(W, (u8, u64))],
) -> Result<(), AllocError>
    ensures { OnOk result (attempts.new.items ≡ attempts.old.items ++ (alone first ∷ map (beside first) later.now)) }
{
    let (one, expected) = first;
    let alone = Attempt {
        one: Some(one),
        other: None,
        expected: Some(expected),
    };
    attempts.push(alone)?;
    attempts.extend(
        later.iter().map(|(other, _)| Attempt {
            other: Some(*other),
            ..alone
        }),
    )
}
