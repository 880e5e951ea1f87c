// The lines that lead a slot from what was issued to what it is to have.
ghost use Rattle.std.specs.Prelude.{◌≡◌, ℕ, ◌+◌, ◌≤◌, length};
ghost use Rattle.domain.specs.Lines.{line_of, sent, slot_lines};
ghost use Rattle.rows.specs.Rows.{Tame};
ghost use Rattle.issuing.specs.Posted.{posted, headed};

use domain::{Line, Slot};

// What the lines of one slot have in common.
#[derive(Clone, Copy, PartialEq, Eq, Debug)]
pub struct Heading {
    pub day: u16,
    pub run: u8,
    pub period: u8,
    pub place: u8,
}

impl Heading {
    fn line(self, supplier: u16, volume: i32) -> Line
        ensures { result ≡ headed self supplier volume }
    {
        Line {
            day: self.day,
            period: self.period,
            place: self.place,
            supplier,
            run: self.run,
            volume,
        }
    }
}

// Writes the line at `at`, unless it is of 0, and says where the next one goes.
#[tactic(auto, using(crate::proofs::Sent::sent_none, crate::proofs::Sent::sent_one, crate::proofs::Gathered::posted_none, crate::proofs::Gathered::posted_one))]
fn send(journal: &mut [Line], at: usize, line: Line) -> usize
    requires { at + length (sent line) ≤ length journal.old }
    ensures next { result ≡ at + length (sent line) }
    ensures journal { journal.new ≡ posted journal.old at (sent line) }
{
    if line.volume == 0 {
        return at;
    }
    journal[at] = line;
    at + 1
}

// How many lines a volume takes: none for 0.
#[tactic(auto, using(crate::proofs::Sent::count_sent))]
fn count_line(volume: i32) -> usize
    ensures { (day run p q s : ℕ) → result ≡ length (sent (line_of day run p q s volume)) }
{
    usize::from(volume != 0)
}

// How many lines lead a slot from `was` to `next`.
pub(crate) fn count_slot(was: Slot, next: Slot) -> usize
    requires was { Tame was.volume }
    requires next { Tame next.volume }
    ensures { (day run p q : ℕ) → result ≡ length (slot_lines (line_of day run p q) was next) }
{
    if was.supplier == next.supplier {
        count_line(next.volume - was.volume)
    } else {
        count_line(-was.volume) + count_line(next.volume)
    }
}

// Sends the lines that lead a slot from `was` to `next`, and says where the line after them goes.
pub(crate) fn send_slot(
    journal: &mut [Line],
    at: usize,
    heading: Heading,
    was: Slot,
    next: Slot,
) -> usize
    requires was { Tame was.volume }
    requires next { Tame next.volume }
    requires room { at + length (slot_lines (headed heading) was next) ≤ length journal.old }
    ensures next { result ≡ at + length (slot_lines (headed heading) was next) }
    ensures journal { journal.new ≡ posted journal.old at (slot_lines (headed heading) was next) }
{
    if was.supplier == next.supplier {
        let more = next.volume - was.volume;
        return send(journal, at, heading.line(next.supplier, more));
    }
    let back = heading.line(was.supplier, -was.volume);
    let at = send(journal, at, back);
    send(journal, at, heading.line(next.supplier, next.volume))
}
