// Records of a fixed number of bytes, and lists of them one after the other.

ghost use Rattle.std.specs.Prelude.{◌≡◌, ℕ, ◌+◌, ◌-◌, ◌*◌, ◌/◌, ◌^◌, ◌<◌, ◌≤◌, List, [], ◌∷◌, ◌++◌, length, drop, Some, IfSome, MatchOption, refl};
ghost use Rattle.std.specs.List.{flat_map, AllByRecursion};
ghost use Rattle.std.specs.Iterator.{item_count};
ghost use Rattle.files.specs.Bytes.{Bytes, word32, number32, unpacked, records_in, record_in, TakesRecord};
ghost use Rattle.files.specs.Records.{Whole32, row_size, encoded_row, decoded_row, WholeRow, reading_size, encoded_reading, decoded_reading, WholeReading, line_size, encoded_line, decoded_line, WholeLine, intro_size, encoded_intro, decoded_intro, WholeIntro};
ghost use Rattle.files.specs.Laws.{number_again, reading_again, line_again, row_long, row_back, row_again, intro_again};
ghost use Rattle.files.specs.Formats.{kind_number, body_size};
ghost use Rattle.files.specs.Texts.{reading_text};
ghost use Rattle.files.specs.Reads.{Head, said};
ghost use Rattle.files.specs.declared.formats.Kind.{Kind};
ghost use Rattle.files.specs.declared.formats.Kind.TheVariants as kind;
ghost use Rattle.std.proofs.Common.{rules};

use crate::formats::{INTRO, Kind, LINE, READING, ROW};
use domain::{AllocationRow, Line, NOMINATIONS};
use std::fmt;
use std::marker::PhantomData;

// A record of a readings file: the energy that was metered in one Settlement Period of a day.
#[derive(Clone, Copy, PartialEq, Eq, Debug)]
pub struct ReadingRecord {
    pub day: u16,
    pub period: u8,
    pub quality: u8,
    pub kwh: u32,
}

impl fmt::Display for ReadingRecord {
    ghost output = { λ reading. Some (reading_text reading) };

    fn fmt<W: fmt::Write>(&self, f: &mut fmt::Formatter<W>) -> fmt::Result {
        let ReadingRecord {
            day,
            period,
            quality,
            kwh,
        } = *self;
        write!(f, "{day} {period} {quality} {kwh}")
    }
}

// A record of a fixed number of bytes: its encoding and its decoding undo each other.
pub trait Record: Copy {
    ghost SIZE: { ℕ };

    ghost encoded: { Self → List ℕ };

    ghost decoded: { List ℕ → Self };

    ghost whole: { Self → Type 0 };

    // How many bytes a record has.
    const SIZE: usize;

    // Writes the record's bytes.
    fn encode(self, out: &mut [u8])
        requires { length out.old ≡ SIZE }
        ensures after { out.new ≡ encoded self }
        ensures fits { whole self };

    // The record that the bytes stand for.
    fn decode(bytes: &[u8]) -> Self
        requires { length bytes.now ≡ SIZE }
        ensures { result ≡ decoded bytes.now };

    ghost some: { 0 < SIZE };

    ghost long: { (x : Self) → whole x → length (encoded x) ≡ SIZE };

    ghost back: { (x : Self) → whole x → decoded (encoded x) ≡ x };

    ghost again: { (bs : List ℕ) → length bs ≡ SIZE → Bytes bs → encoded (decoded bs) ≡ bs };
}

// A record of files that hold a list of such records and nothing else.
pub trait Listed: Record {
    ghost KIND: { Kind };

    // The kind of those files.
    const KIND: Kind;

    ghost sized: { (n : ℕ) → body_size KIND n ≡ n * Self.SIZE };

    ghost plain: { (h : Head) → said KIND h ≡ record { kind = kind_number KIND; numbers = h.count ∷ []; records = h.rest } };
}

// Writes the records one after the other, and leaves what lies past them.
// Nothing is known of what is written through `chunks_exact_mut`, so the places are counted here.
pub(crate) fn write_records<R: Record>(records: &[R], out: &mut [u8])
    requires { length records.now * R.Record.SIZE ≤ length out.old }
    ensures after { out.new ≡ flat_map R.Record.encoded records.now ++ drop (length records.now * R.Record.SIZE) out.old }
    ensures fits { AllByRecursion R.Record.whole records.now }
{
    for (i, record) in records.iter().enumerate() {
        let at = i * R::SIZE;
        record.encode(&mut out[at..at + R::SIZE]);
    }
}

// Writes the records that the bytes stand for again, one after the other, and leaves what lies past them.
// One function for these and those of `write_records` would take any iterator, and say of each of its runs what is said of a list here.
// The places are counted as they are there, for the same reason.
pub(crate) fn copy_records<R: Record>(bytes: &[u8], out: &mut [u8])
    requires whole { length bytes.now / R.Record.SIZE * R.Record.SIZE ≡ length bytes.now }
    requires room { length bytes.now ≤ length out.old }
    ensures { out.new ≡ bytes.now ++ drop (length bytes.now) out.old }
{
    for (i, record) in Records::<R>::new(bytes).iter().enumerate() {
        let at = i * R::SIZE;
        record.encode(&mut out[at..at + R::SIZE]);
    }
}

// Reads as many records as `out` has room for from their bytes, one after the other.
// A record is written by its index: of what a loop over `iter_mut` with `zip` wrote, a proof knows only the length.
pub(crate) fn read_records<R: Record>(bytes: &[u8], out: &mut [R])
    requires { length bytes.now ≡ length out.old * R.Record.SIZE }
    ensures { out.new ≡ unpacked R.Record.decoded R.Record.SIZE (length out.old) bytes.now }
{
    for (i, record) in Records::new(bytes).iter().enumerate() {
        out[i] = record;
    }
}

// The record at an index, or none past the last.
#[tactic(auto, using(crate::specs::Packs::record_here, crate::specs::Packs::record_past))]
fn record_at<R: Record>(bytes: &[u8], index: usize) -> Option<R>
    ensures { result ≡ record_in R.Record.decoded R.Record.SIZE bytes.now index }
{
    if index >= bytes.len() / R::SIZE {
        return None;
    }
    let at = index * R::SIZE;
    Some(R::decode(&bytes[at..at + R::SIZE]))
}

// The first record, with the bytes behind it, or none where there are fewer bytes than a record has.
#[tactic(auto, using(crate::specs::Packs::records_more, crate::specs::Packs::records_none))]
fn first_record<R: Record>(bytes: &[u8]) -> Option<(R, &[u8])>
    ensures rest { IfSome result (λ p. p.1.now ≡ drop R.Record.SIZE bytes.now) }
    ensures records { MatchOption result (records_in R.Record.decoded R.Record.SIZE bytes.now ≡ []) (λ p. records_in R.Record.decoded R.Record.SIZE bytes.now ≡ p.0 ∷ records_in R.Record.decoded R.Record.SIZE p.1.now) }
{
    let (record, rest) = bytes.split_at_checked(R::SIZE)?;
    Some((R::decode(record), rest))
}

// Records of one type, one after the other in their bytes.
#[derive(Clone, Copy, PartialEq, Eq, Debug)]
pub struct Records<'a, R> {
    pub bytes: &'a [u8],
    of: PhantomData<R>,
}

impl<'a, R: Record> Records<'a, R> {
    // The records that the bytes stand for.
    pub fn new(bytes: &'a [u8]) -> Records<'a, R>
        ensures { result.bytes.now ≡ bytes.now }
    {
        let of = PhantomData;
        Records { bytes, of }
    }

    // How many records there are.
    pub fn len(&self) -> usize
        ensures { result ≡ length self.now.bytes.now / R.Record.SIZE }
    {
        self.bytes.len() / R::SIZE
    }

    // The record at an index, or none past the last.
    pub fn get(&self, index: usize) -> Option<R>
        ensures { result ≡ record_in R.Record.decoded R.Record.SIZE self.now.bytes.now index }
    {
        record_at(self.bytes, index)
    }

    // The records from the first to the last.
    #[tactic(auto, using(crate::specs::Packs::records_few))]
    pub fn iter(&self) -> RecordIter<'a, R>
        ensures bytes { result.bytes.now ≡ self.now.bytes.now }
        ensures few { length (records_in R.Record.decoded R.Record.SIZE self.now.bytes.now) < 2 ^ 63 }
    {
        RecordIter {
            bytes: self.bytes,
            of: PhantomData,
        }
    }
}

// The records that are left of a list, from the first on.
#[derive(Clone, Copy, PartialEq, Eq, Debug)]
pub struct RecordIter<'a, R> {
    pub bytes: &'a [u8],
    of: PhantomData<R>,
}

impl<'a, R: Record> Iterator for RecordIter<'a, R> {
    type Item = R;

    ghost next_gives = { λ was taken is. TakesRecord R.Record.decoded R.Record.SIZE was.bytes.now taken is.bytes.now };

    ghost remaining = { item_count (λ s. records_in R.Record.decoded R.Record.SIZE s.bytes.now) };

    fn next(&mut self) -> Option<R> {
        let (record, rest) = first_record(self.bytes)?;
        self.bytes = rest;
        Some(record)
    }
}

impl Record for u32 {
    ghost SIZE = { 4 };

    ghost encoded = { word32 };

    ghost decoded = { number32 };

    ghost whole = { Whole32 };

    ghost some = { Prim.search rules };

    ghost long = { Prim.search rules };

    ghost back = { Prim.search rules };

    ghost again = { number_again };

    const SIZE: usize = 4;

    fn encode(self, out: &mut [u8]) {
        out.copy_from_slice(&self.to_be_bytes());
    }

    fn decode(bytes: &[u8]) -> u32 {
        u32::from_be_bytes([bytes[0], bytes[1], bytes[2], bytes[3]])
    }
}

impl Record for ReadingRecord {
    ghost SIZE = { reading_size };

    ghost encoded = { encoded_reading };

    ghost decoded = { decoded_reading };

    ghost whole = { WholeReading };

    ghost some = { Prim.search rules };

    ghost long = { Prim.search rules };

    ghost back = { Prim.search rules };

    ghost again = { reading_again };

    const SIZE: usize = READING;

    fn encode(self, out: &mut [u8]) {
        let [d1, d0] = self.day.to_be_bytes();
        let [k3, k2, k1, k0] = self.kwh.to_be_bytes();
        out.copy_from_slice(&[d1, d0, self.period, self.quality, k3, k2, k1, k0]);
    }

    fn decode(bytes: &[u8]) -> ReadingRecord {
        ReadingRecord {
            day: u16::from_be_bytes([bytes[0], bytes[1]]),
            period: bytes[2],
            quality: bytes[3],
            kwh: u32::from_be_bytes([bytes[4], bytes[5], bytes[6], bytes[7]]),
        }
    }
}

impl Listed for ReadingRecord {
    ghost KIND = { kind.Readings };

    ghost sized = { λ _. refl };

    ghost plain = { λ _. refl };

    const KIND: Kind = Kind::Readings;
}

impl Record for Line {
    ghost SIZE = { line_size };

    ghost encoded = { encoded_line };

    ghost decoded = { decoded_line };

    ghost whole = { WholeLine };

    ghost some = { Prim.search rules };

    ghost long = { Prim.search rules };

    ghost back = { Prim.search rules };

    ghost again = { line_again };

    const SIZE: usize = LINE;

    fn encode(self, out: &mut [u8]) {
        let [d1, d0] = self.day.to_be_bytes();
        let [s1, s0] = self.supplier.to_be_bytes();
        let [v3, v2, v1, v0] = self.volume.to_be_bytes();
        out.copy_from_slice(&[
            d1,
            d0,
            self.period,
            self.place,
            s1,
            s0,
            self.run,
            v3,
            v2,
            v1,
            v0,
        ]);
    }

    fn decode(bytes: &[u8]) -> Line {
        Line {
            day: u16::from_be_bytes([bytes[0], bytes[1]]),
            period: bytes[2],
            place: bytes[3],
            supplier: u16::from_be_bytes([bytes[4], bytes[5]]),
            run: bytes[6],
            volume: i32::from_be_bytes([bytes[7], bytes[8], bytes[9], bytes[10]]),
        }
    }
}

impl Listed for Line {
    ghost KIND = { kind.Statement };

    ghost sized = { λ _. refl };

    ghost plain = { λ _. refl };

    const KIND: Kind = Kind::Statement;
}

impl Record for AllocationRow {
    ghost SIZE = { row_size };

    ghost encoded = { encoded_row };

    ghost decoded = { decoded_row };

    ghost whole = { WholeRow };

    ghost some = { Prim.search rules };

    ghost long = { row_long };

    ghost back = { row_back };

    ghost again = { row_again };

    const SIZE: usize = ROW;

    fn encode(self, out: &mut [u8]) {
        out[0] = self.method;
        out[1] = self.balance;
        write_records(&self.nominations, &mut out[2..]);
    }

    fn decode(bytes: &[u8]) -> AllocationRow {
        let mut nominations = [0; NOMINATIONS];
        read_records(&bytes[2..], &mut nominations);
        AllocationRow {
            method: bytes[0],
            balance: bytes[1],
            nominations,
        }
    }
}

// The numbers before a schedule's rows.
#[derive(Clone, Copy, PartialEq, Eq, Debug)]
pub struct Intro {
    pub sender: u16,
    pub day: u16,
    pub moment: u32,
}

impl Record for Intro {
    ghost SIZE = { intro_size };

    ghost encoded = { encoded_intro };

    ghost decoded = { decoded_intro };

    ghost whole = { WholeIntro };

    ghost some = { Prim.search rules };

    ghost long = { Prim.search rules };

    ghost back = { Prim.search rules };

    ghost again = { intro_again };

    const SIZE: usize = INTRO;

    fn encode(self, out: &mut [u8]) {
        let [s1, s0] = self.sender.to_be_bytes();
        let [d1, d0] = self.day.to_be_bytes();
        let [m3, m2, m1, m0] = self.moment.to_be_bytes();
        out.copy_from_slice(&[s1, s0, d1, d0, m3, m2, m1, m0]);
    }

    fn decode(bytes: &[u8]) -> Intro {
        Intro {
            sender: u16::from_be_bytes([bytes[0], bytes[1]]),
            day: u16::from_be_bytes([bytes[2], bytes[3]]),
            moment: u32::from_be_bytes([bytes[4], bytes[5], bytes[6], bytes[7]]),
        }
    }
}
