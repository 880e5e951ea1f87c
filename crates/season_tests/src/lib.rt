// Seasons that are replayed: the lines that correct a late reading and a new holder, by the house rule and by a rule from outside it.
#![tactic(auto)]

#[cfg(test)]
mod tests {
    use domain::{AllocationRow, Line, PERIODS, Quality, Reading, Run, Slot, Terms};
    use history::Dated;
    use own_rule::Halves;
    use rules::{House, Rule};
    use samples::SEVENTY;
    use season::{Accepted, Call, Tables, replay};
    use std::alloc::{AllocError, Global};
    use std::process::Abort;
    use std::test::Fail;

    const ISSUE: Call<'static> = Call::Issue {
        day: 0,
        run: Run::Initial as u8,
    };

    fn register(place: u8, supplier: u16) -> Call<'static> {
        Call::Register {
            place,
            day: 0,
            supplier,
        }
    }

    fn reading(period: u8, kwh: u32) -> Call<'static> {
        Call::Reading {
            day: 0,
            period,
            quality: Quality::Actual as u8,
            kwh,
        }
    }

    // Holders, a schedule, a day of readings with 30 kWh in period 13, and an issue;
    // then 20 kWh are read there, and then place 1 passes to 103, with an issue after each.
    fn season<'a>(alloc: Global, rows: &'a [AllocationRow]) -> Result<Vec<Call<'a>>, AllocError> {
        let mut calls = Vec::new(alloc);
        calls.push(register(0, 101))?;
        calls.push(register(1, 102))?;
        calls.push(Call::Schedule {
            sender: 101,
            day: 0,
            moment: 1_380,
            rows,
        })?;
        for period in 1..=PERIODS {
            calls.push(reading(period, if period == 13 { 30 } else { 0 }))?;
        }
        let corrections = [ISSUE, reading(13, 20), ISSUE, register(1, 103), ISSUE];
        calls.extend_from_slice(&corrections)?;
        Ok(calls)
    }

    // The journal of that season under a rule.
    fn journal<R: Rule + Drop>(
        rt: &(impl Abort + AllocGlobal),
        rule: R,
    ) -> Result<[Line; 8], Fail> {
        let rows_of_day = [SEVENTY; 48];
        let calls = season(rt.alloc(), &rows_of_day)?;
        let mut lines = [Line::NONE; 8];
        let mut outcomes = [Ok(Accepted::Done); 56];
        let mut tables = Tables {
            holders: &mut [Dated::blank(0); 4],
            rows: &mut [Dated::blank(SEVENTY); 48],
            readings: &mut [Reading::NONE; 48],
            issued: &mut [Slot::NONE; 96],
            journal: &mut lines,
        };
        let terms = Terms::new(2, 1, 60)?;
        let _book = replay(terms, rule, &mut tables, calls.as_slice(), &mut outcomes)?;
        for at in [51, 53, 55] {
            let outcome = outcomes.get(at).copied();
            assert_eq!(rt; outcome, Some(Ok(Accepted::Issued { lines: 2 })));
        }
        Ok(lines)
    }

    // Whether the first six lines send these volumes to these suppliers, all for period 13.
    fn sends(rt: &impl Abort, lines: [Line; 8], expected: [(u16, i32); 6]) {
        for (line, (supplier, volume)) in lines.iter().zip(expected) {
            assert_eq!(rt; line.period, 13);
            assert_eq!(rt; line.supplier, supplier);
            assert_eq!(rt; line.volume, volume);
        }
        assert_eq!(rt; lines[6].supplier, 0);
    }

    #[test]
    fn corrections_of_the_house(rt: HostRuntime) -> Result<(), Fail> {
        sends(
            &rt,
            journal(&rt, House)?,
            [
                (101, 21),
                (102, 9),
                (101, -7),
                (102, -3),
                (102, -6),
                (103, 6),
            ],
        );
        Ok(())
    }

    #[test]
    fn corrections_of_another_rule(rt: HostRuntime) -> Result<(), Fail> {
        sends(
            &rt,
            journal(&rt, Halves)?,
            [
                (101, 15),
                (102, 15),
                (101, -5),
                (102, -5),
                (102, -10),
                (103, 10),
            ],
        );
        Ok(())
    }
}
