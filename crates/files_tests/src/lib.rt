// Tests of the files: each refusal, the boundaries, and round trips. There is nothing here but tests.
#![tactic(auto)]

#[cfg(test)]
mod tests {
    use domain::{AllocationRow, Fault, Line};
    use files::{
        File, MAX_FILE, ReadingRecord, notice, read, read_readings, read_schedule, read_statement,
        rewrite, write_readings, write_schedule, write_statement,
    };
    use listing::listing;
    use std::alloc::{AllocError, Global};
    use std::test::Fail;

    // The refusal of a file of any kind, or none where it is accepted.
    fn refusal(file: &[u8]) -> Option<Fault> {
        read(file).err()
    }

    // A header of the version that is read.
    fn header(kind: u8, count: u16) -> [u8; 8] {
        let [high, low] = count.to_be_bytes();
        [b'S', b'S', b'M', 0, 1, kind, high, low]
    }

    const LINE: Line = Line {
        day: 3,
        period: 48,
        place: 7,
        supplier: 65_535,
        run: 2,
        volume: -9_999_999,
    };

    const READING: ReadingRecord = ReadingRecord {
        day: 61,
        period: 13,
        quality: 2,
        kwh: 9_999_999,
    };

    const ROW: AllocationRow = AllocationRow {
        method: 7,
        balance: 3,
        nominations: [1, 2, 3, 4, 5, 6, 7, 4_294_967_295],
    };

    #[test]
    fn refusals_of_the_header(rt: HostRuntime) {
        assert_eq!(rt; refusal(b""), Some(Fault::FileTooShort { length: 0 }));
        assert_eq!(rt;
            refusal(b"SSM\0\x01\x02\0"),
            Some(Fault::FileTooShort { length: 7 })
        );
        assert_eq!(rt; refusal(b"SSN\0\x09\x09\xff\xff"), Some(Fault::AnotherMark));
        assert_eq!(rt;
            refusal(b"SSM\0\x02\x09\xff\xff"),
            Some(Fault::AnotherVersion)
        );
        assert_eq!(rt;
            refusal(b"SSM\x01\x01\x02\0\0"),
            Some(Fault::AnotherVersion)
        );
        assert_eq!(rt;
            refusal(b"SSM\0\x01\x02\xff\xff"),
            Some(Fault::CountNotAllowed)
        );
        assert_eq!(rt;
            refusal(b"SSM\0\x01\x02\0\x01"),
            Some(Fault::AnotherLength { length: 8 })
        );
        assert_eq!(rt;
            refusal(b"SSM\0\x01\x02\0\0\0"),
            Some(Fault::AnotherLength { length: 9 })
        );
    }

    #[test]
    fn every_kind_byte(rt: HostRuntime) {
        for kind in 0..=255 {
            let expected = match kind {
                1 => Some(Fault::CountNotAllowed),
                2 | 3 => None,
                _ => Some(Fault::AnotherKind),
            };
            assert_eq!(rt; refusal(&header(kind, 0)), expected);
        }
    }

    #[test]
    fn another_kind_before_count_and_length(rt: HostRuntime) {
        let readings = header(2, 65_535);
        assert_eq!(rt; read_schedule(&readings).err(), Some(Fault::AnotherKind));
        assert_eq!(rt; read_statement(&readings).err(), Some(Fault::AnotherKind));
        assert_eq!(rt;
            read_readings(&readings).err(),
            Some(Fault::CountNotAllowed)
        );
        assert_eq!(rt;
            read_readings(&header(4, 1)).err(),
            Some(Fault::AnotherKind)
        );
    }

    // The longest readings file, of zeros alone, under a header with this count.
    fn longest_readings(heap: Global, count: u16) -> Result<Vec<u8>, AllocError> {
        let zeros = vec![in heap; 0u8; 4_096 * 8]?;
        let mut file = Vec::new(heap);
        file.extend_from_slice(&header(2, count))?;
        file.extend_from_slice(zeros.as_slice())?;
        Ok(file)
    }

    #[test]
    fn counts_of_readings(rt: HostRuntime) -> Result<(), Fail> {
        assert!(rt; read_readings(&header(2, 0)).is_ok());
        assert_eq!(rt; refusal(&header(2, 4_097)), Some(Fault::CountNotAllowed));
        let long = longest_readings(rt.alloc(), 4_097)?;
        assert_eq!(rt; refusal(long.as_slice()), Some(Fault::CountNotAllowed));
        let mut file = longest_readings(rt.alloc(), 4_096)?;
        assert_eq!(rt; refusal(file.as_slice()), None);
        file.push(0)?;
        let length = file.len();
        assert_eq!(rt;
            refusal(file.as_slice()),
            Some(Fault::AnotherLength { length })
        );
        Ok(())
    }

    #[test]
    fn the_longest_file(rt: HostRuntime) -> Result<(), Fail> {
        let lines = vec![in rt.alloc(); LINE; 4_096]?;
        let mut out = vec![in rt.alloc(); 7; MAX_FILE]?;
        assert_eq!(rt;
            write_statement(lines.as_slice(), out.as_mut_slice()),
            Ok(MAX_FILE)
        );
        let file = read_statement(out.as_slice())?;
        assert_eq!(rt; file.len(), 4_096);
        assert_eq!(rt; file.get(4_095), Some(LINE));
        assert_eq!(rt; file.get(4_096), None);
        let more = vec![in rt.alloc(); LINE; 4_097]?;
        assert_eq!(rt;
            write_statement(more.as_slice(), out.as_mut_slice()),
            Err(Fault::CountNotAllowed)
        );
        Ok(())
    }

    #[test]
    fn readings_round_trip(rt: HostRuntime) -> Result<(), Fail> {
        let mut out = [9; 25];
        assert_eq!(rt; write_readings(&[READING, READING], &mut out), Ok(24));
        assert_eq!(rt; out[24], 9);
        let File::Readings(file) = read(&out[0..24])? else {
            return Err(Fail::new("another kind"));
        };
        assert_eq!(rt; file.get(0), Some(READING));
        assert_eq!(rt; file.get(1), Some(READING));
        assert_eq!(rt; file.get(2), None);
        assert_eq!(rt; write_readings(&[], &mut out), Ok(8));
        Ok(())
    }

    #[test]
    fn schedule_round_trip(rt: HostRuntime) -> Result<(), Fail> {
        let rows = [ROW; 48];
        let mut out = [9; 1_649];
        assert_eq!(rt; write_schedule(101, 2, 4_260, &rows, &mut out), Ok(1_648));
        assert_eq!(rt; out[1_648], 9);
        let file = read_schedule(&out[0..1_648])?;
        let intro = file.intro;
        assert_eq!(rt; (intro.sender, intro.day, intro.moment), (101, 2, 4_260));
        assert_eq!(rt; file.rows.get(47), Some(ROW));
        assert_eq!(rt; file.rows.get(48), None);
        assert_eq!(rt;
            refusal(&out[0..1_647]),
            Some(Fault::AnotherLength { length: 1_647 })
        );
        assert_eq!(rt; refusal(&out), Some(Fault::AnotherLength { length: 1_649 }));
        Ok(())
    }

    #[test]
    fn short_buffers_and_counts(rt: HostRuntime) {
        let mut out = [9; 1_647];
        assert_eq!(rt;
            write_readings(&[READING], &mut out[0..15]),
            Err(Fault::OutputTooShort { needed: 16 })
        );
        assert_eq!(rt;
            write_statement(&[LINE], &mut out[0..18]),
            Err(Fault::OutputTooShort { needed: 19 })
        );
        assert_eq!(rt;
            write_schedule(1, 0, 0, &[ROW; 48], &mut out),
            Err(Fault::OutputTooShort { needed: 1_648 })
        );
        assert_eq!(rt;
            write_schedule(1, 0, 0, &[ROW; 47], &mut out),
            Err(Fault::CountNotAllowed)
        );
        assert_eq!(rt;
            write_schedule(1, 0, 0, &[], &mut out),
            Err(Fault::CountNotAllowed)
        );
        assert!(rt; out == [9; 1_647]);
    }

    #[test]
    fn written_again(rt: HostRuntime) {
        let file = b"SSM\0\x01\x03\0\x01\0\x02\x30\x01\xff\xff\x02\xff\xff\xff\xff";
        let mut out = [9; 20];
        assert_eq!(rt;
            rewrite(file, &mut out[0..18]),
            Err(Fault::OutputTooShort { needed: 19 })
        );
        assert_eq!(rt; rewrite(file, &mut out), Ok(19));
        assert_eq!(rt; &out[0..19], &file[0..19]);
        assert_eq!(rt; out[19], 9);
        assert_eq!(rt;
            rewrite(&out, &mut [0; 4]),
            Err(Fault::AnotherLength { length: 20 })
        );
    }

    #[test]
    fn the_notice(rt: HostRuntime) {
        let expected = *b"SSM\0\x01\x04\0\x01\0\x02\0\x65\0\0\x10\xa4";
        assert_eq!(rt; notice(2, 101, 4_260), expected);
        assert_eq!(rt; refusal(&expected), Some(Fault::AnotherKind));
    }

    #[test]
    fn records_counted_and_gone_over(rt: HostRuntime) -> Result<(), Fail> {
        let mut out = [0; 24];
        assert_eq!(rt; write_readings(&[READING, READING], &mut out), Ok(24));
        let file = read_readings(&out)?;
        assert_eq!(rt; file.len(), 2);
        assert_eq!(rt; file.iter().count(), 2);
        for reading in file.iter() {
            assert_eq!(rt; reading, READING);
        }
        let text = format!(in rt.alloc(); "{READING}")?;
        assert_eq!(rt; text.as_str(), "61 13 2 9999999");
        Ok(())
    }

    #[test]
    fn printed_refusals(rt: HostRuntime) -> Result<(), Fail> {
        let empty = listing(rt.alloc(), b"")?;
        assert_eq!(rt;
            empty.as_str(),
            "refused 1 0: the file has fewer bytes than a header\n"
        );
        let short = listing(rt.alloc(), b"SSM")?;
        assert_eq!(rt;
            short.as_str(),
            "refused 1 3: the file has fewer bytes than a header\n"
        );
        let notice = listing(rt.alloc(), &notice(2, 101, 4_260))?;
        assert_eq!(rt;
            notice.as_str(),
            "refused 4 5: the file is of another kind than is read here\n"
        );
        let long = vec![in rt.alloc(); 0; MAX_FILE + 1]?;
        let text = listing(rt.alloc(), long.as_slice())?;
        assert_eq!(rt;
            text.as_str(),
            "more bytes than a file can have: at most 45064\n"
        );
        Ok(())
    }

    #[test]
    fn printed_readings(rt: HostRuntime) -> Result<(), Fail> {
        let mut out = [0; 16];
        assert_eq!(rt; write_readings(&[READING], &mut out), Ok(16));
        let text = listing(rt.alloc(), &out)?;
        assert_eq!(rt;
            text.as_str(),
            "readings: 1 records\nday period quality kwh\n61 13 2 9999999\n"
        );
        Ok(())
    }

    #[test]
    fn printed_schedule(rt: HostRuntime) -> Result<(), Fail> {
        let mut out = [0; 1_648];
        assert_eq!(rt;
            write_schedule(101, 2, 4_260, &[ROW; 48], &mut out),
            Ok(1_648)
        );
        let text = listing(rt.alloc(), &out)?;
        assert!(rt;
            text.as_str().starts_with(
                "schedule: 48 rows, sender 101, day 2, moment 4260\nperiod method balance n0",
            )
        );
        assert!(rt;
            text.as_str()
                .ends_with("\n48 7 3 1 2 3 4 5 6 7 4294967295\n")
        );
        Ok(())
    }
}
