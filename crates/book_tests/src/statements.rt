// Statements: 8, 12. A journal shorter than the lines sent (13) needs an issue, and is tested with the issue.
use crate::helpers::open;
use files::read_statement;
use samples::{Refusal, STRAY, refusal};
use std::test::Fail;

fn write(first: usize, count: usize, out: &mut [u8], room: usize) -> Result<Refusal, Fail> {
    let room = room.min(out.len());
    Ok(refusal(open()?.statement(&[STRAY; 3], first, count, &mut out[0..room])))
}

// First line, count, bytes of the buffer, and the refusal, of a journal with no lines sent.
const CASES: [(usize, usize, usize, Refusal); 12] = [
    (1, 0, 40, Some((8, 1))),
    (usize::MAX, 0, 40, Some((8, 1))),
    (0, 1, 40, Some((8, 2))),
    (0, 4_096, 40, Some((8, 2))),
    (0, 4_097, 40, Some((8, 2))),
    (0, usize::MAX, 40, Some((8, 2))),
    (0, 0, 7, Some((12, 8))),
    (0, 0, 0, Some((12, 8))),
    // the first of two
    (1, 1, 40, Some((8, 1))),
    (1, 0, 7, Some((8, 1))),
    (0, 1, 7, Some((8, 2))),
    (0, 0, 8, None),
];

#[test]
fn limits(rt: HostRuntime) -> Result<(), Fail> {
    let out: &mut [u8] = &mut [0xaa; 40];
    for (first, count, room, expected) in CASES {
        assert_eq!(rt; out.first().copied(), Some(0xaa));
        assert_eq!(rt; write(first, count, out, room)?, expected);
    }
    assert!(rt; out.starts_with(b"SSM\x00\x01\x03\x00\x00\xaa"));
    Ok(())
}

#[test]
fn read_back(rt: HostRuntime) -> Result<(), Fail> {
    let mut out = [0xaa; 40];
    assert_eq!(rt; open()?.statement(&[], 0, 0, &mut out)?, 8);
    let statement = read_statement(&out[0..8])?;
    assert_eq!(rt; statement.len(), 0);
    assert!(rt; statement.get(0).is_none());
    Ok(())
}
