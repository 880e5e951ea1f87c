// Tests of a site's day: inputs with what is printed for them. There is nothing here but tests.
#![tactic(auto)]

#[cfg(test)]
mod tests {
    use dayrun::{MAX_INPUT, split_day};
    use domain::{AllocationRow, PERIODS, Quality};
    use files::{ReadingRecord, write_readings, write_schedule};
    use samples::{SEVENTY, THIRTY};
    use std::process::Abort;
    use std::test::Fail;

    const NOTHING: ReadingRecord = ReadingRecord {
        day: 0,
        period: 1,
        quality: Quality::Actual as u8,
        kwh: 0,
    };

    // A day with its own row and reading in period 13, and actual readings of 0 in all other periods.
    fn day(rt: &impl Abort, moment: u32, row: AllocationRow, kwh: u32) -> [u8; 2_040] {
        let mut rows = [SEVENTY; 48];
        rows[12] = row;
        let mut readings = [NOTHING; 48];
        for (period, reading) in (1..=PERIODS).zip(readings.iter_mut()) {
            reading.period = period;
        }
        readings[12].kwh = kwh;
        let mut input = [0; 2_040];
        assert!(rt; write_schedule(101, 0, moment, &rows, &mut input).is_ok());
        assert!(rt; write_readings(&readings, &mut input[1_648..]).is_ok());
        input
    }

    #[test]
    fn a_percentage(rt: HostRuntime) -> Result<(), Fail> {
        let input = day(&rt, 1_380, SEVENTY, 30);
        let text = split_day(rt.alloc(), &input)?;
        assert_eq!(rt; text.as_slice(), b"13 0 101 21\n13 1 102 9\n".as_slice());
        Ok(())
    }

    // Place 1 is sent virtual energy.
    #[test]
    fn a_fixed_block(rt: HostRuntime) -> Result<(), Fail> {
        let input = day(&rt, 1_380, THIRTY, 20);
        let text = split_day(rt.alloc(), &input)?;
        assert_eq!(rt; text.as_slice(), b"13 0 101 30\n13 1 102 -10\n".as_slice());
        Ok(())
    }

    #[test]
    fn a_late_schedule(rt: HostRuntime) -> Result<(), Fail> {
        let input = day(&rt, 1_381, SEVENTY, 30);
        let text = split_day(rt.alloc(), &input)?;
        assert_eq!(rt; text.as_slice(), b"refused 10 1380\n".as_slice());
        Ok(())
    }

    #[test]
    fn a_damaged_file(rt: HostRuntime) -> Result<(), Fail> {
        let mut input = day(&rt, 1_380, SEVENTY, 30);
        input[1_648] = 0;
        let text = split_day(rt.alloc(), &input)?;
        assert_eq!(rt; text.as_slice(), b"refused 2 0\n".as_slice());
        let cut = split_day(rt.alloc(), b"SSM")?;
        assert_eq!(rt; cut.as_slice(), b"refused 1 3\n".as_slice());
        Ok(())
    }

    #[test]
    fn nothing_sent(rt: HostRuntime) -> Result<(), Fail> {
        let input = day(&rt, 1_380, SEVENTY, 0);
        let text = split_day(rt.alloc(), &input)?;
        assert!(rt; text.is_empty());
        Ok(())
    }

    // The readings file has a reading for period 12 twice, and none for period 13.
    #[test]
    fn an_empty_reading(rt: HostRuntime) -> Result<(), Fail> {
        let mut input = day(&rt, 1_380, SEVENTY, 0);
        input[1_648 + 8 + 12 * 8 + 2] = 12;
        let text = split_day(rt.alloc(), &input)?;
        assert_eq!(rt; text.as_slice(), b"refused 18 13\n".as_slice());
        Ok(())
    }

    // With a reading of 30 in each period 96 lines are sent, which are 1,086 bytes.
    #[test]
    fn a_day_of_lines(rt: HostRuntime) -> Result<(), Fail> {
        let mut input = day(&rt, 1_380, SEVENTY, 30);
        for period in 0..48 {
            input[1_648 + 8 + period * 8 + 7] = 30;
        }
        let text = split_day(rt.alloc(), &input)?;
        assert_eq!(rt; text.len(), 1_086);
        Ok(())
    }

    // Of a longer input only the first 40,000 bytes are read, so that the readings file has 38,352.
    #[test]
    fn too_long_an_input(rt: HostRuntime) -> Result<(), Fail> {
        let mut input = [0; MAX_INPUT + 1];
        input[..2_040].copy_from_slice(&day(&rt, 1_380, SEVENTY, 30));
        let text = split_day(rt.alloc(), &input)?;
        assert_eq!(rt; text.as_slice(), b"refused 6 38352\n".as_slice());
        Ok(())
    }
}
