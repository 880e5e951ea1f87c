// A rule outside the house, to show that what stands on rules takes any of them.
#![tactic(auto)]

ghost use Rattle.std.specs.Prelude.{◌≡◌};
ghost use Rattle.rules.specs.Meaning.{answered};
ghost use Rattle.rules.specs.Agreed.{agreed};
ghost use Rattle.rules.specs.First.{first_block};
ghost use Rattle.own_rule.specs.Halves.{halves_of};
ghost use Rattle.own_rule.specs.Halved.{halves_laws};

use domain::{MAX_KWH, is_period};
use rules::{FirstBlock, Row, Rule};

// Two places have half of the energy each, and the second, the balance place, the odd kWh.
#[derive(Clone, Copy, PartialEq, Eq, Debug)]
pub struct Halves;

impl Rule for Halves {
    ghost meaning = { λ _. halves_of };

    ghost laws = { λ x. halves_laws };

    fn is_lawful(&self, row: Row) -> bool {
        row.nominations.len() == 2 && row.balance == 1
    }

    fn share(&self, row: Row, period: u8, energy: u32, place: usize) -> i64 {
        if !self.is_lawful(row) || !is_period(period) || energy > MAX_KWH {
            return 0;
        }
        match place {
            0 => i64::from(energy / 2),
            1 => i64::from(energy - energy / 2),
            _ => 0,
        }
    }
}

// The kWh of a place by a first block on this rule.
pub fn after_block(row: Row, period: u8, energy: u32, place: usize) -> i64
    ensures { result ≡ answered (first_block halves_of) (agreed row.entry) period energy place }
{
    FirstBlock { below: Halves }.share(row, period, energy, place)
}

#[cfg(test)]
mod tests {
    use super::*;
    use rules::House;
    use std::test::Fail;
    use worksheet::{Outcome, answer_line, answer_table};

    #[test]
    fn a_first_block_takes_any_rule(rt: HostRuntime) {
        let row = Row {
            method: 99,
            capacity: 0,
            nominations: &[10, 500, 600],
            balance: 2,
        };
        assert_eq!(rt; after_block(row, 5, 25, 0), 10);
        assert_eq!(rt; after_block(row, 5, 25, 1), 7);
        assert_eq!(rt; after_block(row, 5, 25, 2), 8);
        assert_eq!(rt; after_block(row, 5, 4, 2), 0);
    }

    #[test]
    fn a_line_tells_two_rules_apart(rt: HostRuntime) -> Result<(), Fail> {
        let heap = rt.alloc();
        let answer = answer_line(heap, &Halves, &House, 7, b"13 9 1 60 1 7000 0")?;
        assert!(rt; answer.text.as_str() == "13 9: 4 5 differs 6 3\n");
        assert_eq!(rt; answer.outcome, Outcome::Differing);
        let answer = answer_line(heap, &House, &Halves, 7, b"13 9 1 60 1 7000 5")?;
        assert!(rt; answer.text.as_str() == "13 9: unlawful differs 4 5\n");
        let answer = answer_line(heap, &Halves, &House, 7, b"13 8 1 60 1 5000 0")?;
        assert!(rt; answer.text.as_str() == "13 8: 4 4\n");
        assert_eq!(rt; answer.outcome, Outcome::Split);
        let answer = answer_line(heap, &Halves, &House, 7, b"13 8 1 60 0 5000 0")?;
        assert!(rt; answer.text.as_str() == "13 8: unlawful\n");
        assert_eq!(rt; answer.outcome, Outcome::Unlawful);
        Ok(())
    }

    #[test]
    fn a_table_counts_what_differs(rt: HostRuntime) -> Result<(), Fail> {
        let table = b"13 9 1 60 1 7000 0\n\n13 \xff # no number\n1 8 1 60 1 5000 0";
        let text = answer_table(rt.alloc(), &Halves, &House, table)?;
        assert!(rt;
            text.as_str()
                == "13 9: 4 5 differs 6 3\nline 3: word 2 is not a decimal number\n1 8: 4 4\nsplit 1, unlawful 0, malformed 1, differing 1\n"
        );
        Ok(())
    }
}
