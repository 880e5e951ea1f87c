// Writing: files of the three kinds from records, the notice, and an accepted file again.

ghost use Rattle.std.specs.Prelude.{◌≡◌, ℕ, ◌+◌, ◌*◌, ◌/◌, ◌<◌, ◌≤◌, List, ◌++◌, length, take, IfOk, Ok, OnOk, ⊤};
ghost use Rattle.std.specs.List.{flat_map, AllByRecursion};
ghost use Rattle.files.specs.Records.{encoded_intro, WholeIntro, row_size, encoded_row, WholeRow};
ghost use Rattle.files.specs.Formats.{kind_number, body_size, header_of, statement_size};
ghost use Rattle.files.specs.Contents.{of_schedule, of_readings, of_statement, file_of, content_read, rewritten, writing, rewriting, over, settled, notice_of};
ghost use Rattle.files.specs.declared.formats.Kind.TheVariants as kind;

use crate::formats::{HEADER, INTRO, Kind, NOTICE, OfKind, header, write_header};
use crate::reader::{File, ScheduleFile, read};
use crate::records::{Intro, Listed, ReadingRecord, Record, Records, copy_records, write_records};
use domain::{AllocationRow, Fault, Line};

// What stands behind the header of a file that is to be written.
trait Body: OfKind {
    // how many records it has, and its bytes
    ghost count: { Self → ℕ };

    ghost bytes: { Self → List ℕ };

    // what writing it takes for granted, and what is known once it is written
    ghost sound: { Self → Type 0 };

    ghost whole: { Self → Type 0 };

    // How many records it has.
    fn count(self) -> usize
        ensures { result ≡ count self };

    // Writes its bytes, and leaves what lies past them.
    fn put(self, out: &mut [u8])
        requires sound { sound self }
        requires room { body_size Self.KIND (count self) ≤ length out.old }
        ensures after { out.new ≡ over (bytes self) out.old }
        ensures fits { whole self };
}

// A list of records.
#[derive(Clone, Copy, PartialEq, Eq, Debug)]
struct List<'a, R>(&'a [R]);

impl<'a, R: Listed> OfKind for List<'a, R> {
    ghost KIND = { R.Listed.KIND };

    fn kind() -> Kind
        ensures { result ≡ R.Listed.KIND }
    {
        R::KIND
    }
}

impl<'a, R: Listed> Body for List<'a, R> {
    ghost count = { λ list. length list.0.now };

    ghost bytes = { λ list. flat_map R.Record.encoded list.0.now };

    ghost sound = { λ _. ⊤ };

    ghost whole = { λ list. AllByRecursion R.Record.whole list.0.now };

    fn count(self) -> usize {
        self.0.len()
    }

    fn put(self, out: &mut [u8]) {
        write_records(self.0, out);
    }
}

// A day's rows, with the numbers before them.
#[derive(Clone, Copy, PartialEq, Eq, Debug)]
struct Schedule<'a> {
    intro: Intro,
    rows: &'a [AllocationRow],
}

impl<'a> OfKind for Schedule<'a> {
    ghost KIND = { kind.Schedule };

    fn kind() -> Kind
        ensures { result ≡ kind.Schedule }
    {
        Kind::Schedule
    }
}

impl<'a> Body for Schedule<'a> {
    ghost count = { λ schedule. length schedule.rows.now };

    ghost bytes = { λ schedule. encoded_intro schedule.intro ++ flat_map encoded_row schedule.rows.now };

    ghost sound = { λ _. ⊤ };

    ghost whole = { λ schedule. WholeIntro schedule.intro × AllByRecursion WholeRow schedule.rows.now };

    fn count(self) -> usize {
        self.rows.len()
    }

    fn put(self, out: &mut [u8]) {
        self.intro.encode(&mut out[..INTRO]);
        write_records(self.rows, &mut out[INTRO..]);
    }
}

// A list of records that was read, whose records are written again.
impl<'a, R: Listed> Body for Records<'a, R> {
    ghost count = { λ records. length records.bytes.now / R.Record.SIZE };

    ghost bytes = { λ records. records.bytes.now };

    ghost sound = { λ records. length records.bytes.now / R.Record.SIZE * R.Record.SIZE ≡ length records.bytes.now };

    ghost whole = { λ _. ⊤ };

    fn count(self) -> usize {
        self.len()
    }

    fn put(self, out: &mut [u8]) {
        copy_records::<R>(self.bytes, out);
    }
}

// A schedule that was read, whose rows are written again.
impl<'a> Body for ScheduleFile<'a> {
    ghost count = { λ file. length file.rows.bytes.now / row_size };

    ghost bytes = { λ file. encoded_intro file.intro ++ file.rows.bytes.now };

    ghost sound = { λ file. length file.rows.bytes.now / row_size * row_size ≡ length file.rows.bytes.now };

    ghost whole = { λ _. ⊤ };

    fn count(self) -> usize {
        self.rows.len()
    }

    fn put(self, out: &mut [u8]) {
        self.intro.encode(&mut out[..INTRO]);
        copy_records::<AllocationRow>(self.rows.bytes, &mut out[INTRO..]);
    }
}

// Judges the count, then the room, and answers the bytes that are to be written.
fn admit(kind: Kind, count: usize, room: usize) -> Result<usize, Fault>
    ensures { result ≡ writing kind count room }
{
    if !kind.allows(count) {
        return Err(Fault::CountNotAllowed);
    }
    let needed = HEADER + kind.body(count);
    if needed > room {
        return Err(Fault::OutputTooShort { needed });
    }
    Ok(needed)
}

// Writes a file, and answers its bytes.
fn write_file<B: Body>(body: B, out: &mut [u8]) -> Result<usize, Fault>
    requires { B.Body.sound body }
    ensures result { result ≡ writing B.OfKind.KIND (B.Body.count body) (length out.old) }
    ensures after { out.new ≡ settled result (header_of (kind_number B.OfKind.KIND) (B.Body.count body) ++ B.Body.bytes body) out.old }
    ensures fits { OnOk result (B.Body.whole body) }
{
    let count = body.count();
    let written = admit(B::kind(), count, out.len())?;
    write_header(B::kind(), count as u16, out);
    body.put(&mut out[HEADER..]);
    Ok(written)
}

// Writes a readings file, and answers its bytes.
pub fn write_readings(records: &[ReadingRecord], out: &mut [u8]) -> Result<usize, Fault>
    ensures result { result ≡ writing kind.Readings (length records.now) (length out.old) }
    ensures after { out.new ≡ settled result (file_of (of_readings records.now)) out.old }
    ensures back { IfOk result (λ n. content_read (take n out.new) ≡ Ok (of_readings records.now)) }
{
    write_file(List(records), out)
}

// Writes a statement, and answers its bytes.
pub fn write_statement(lines: &[Line], out: &mut [u8]) -> Result<usize, Fault>
    ensures result { result ≡ writing kind.Statement (length lines.now) (length out.old) }
    ensures after { out.new ≡ settled result (file_of (of_statement lines.now)) out.old }
    ensures back { IfOk result (λ n. content_read (take n out.new) ≡ Ok (of_statement lines.now)) }
{
    write_file(List(lines), out)
}

// Writes a schedule, and answers its bytes.
// Sender, day and moment stand one by one, as callers have them: as the arguments of a call.
pub fn write_schedule(
    sender: u16,
    day: u16,
    moment: u32,
    rows: &[AllocationRow],
    out: &mut [u8],
) -> Result<usize, Fault>
    ensures result { result ≡ writing kind.Schedule (length rows.now) (length out.old) }
    ensures after { out.new ≡ settled result (file_of (of_schedule sender day moment rows.now)) out.old }
    ensures back { IfOk result (λ n. content_read (take n out.new) ≡ Ok (of_schedule sender day moment rows.now)) }
{
    let intro = Intro {
        sender,
        day,
        moment,
    };
    write_file(Schedule { intro, rows }, out)
}

// The bytes of a statement of so many lines.
pub fn statement_bytes(lines: u16) -> usize
    ensures { result ≡ statement_size lines }
{
    HEADER + Kind::Statement.body(usize::from(lines))
}

// The notice that a schedule was accepted, as a file of its own.
// Day, sender and moment stand one by one, as the arguments of a call, in a notice's own order: an `Intro` has a schedule's.
pub fn notice(day: u16, sender: u16, moment: u32) -> [u8; 16]
    ensures { result ≡ notice_of day sender moment }
{
    let [h0, h1, h2, h3, h4, h5, h6, h7] = header(NOTICE, 1);
    let [d1, d0] = day.to_be_bytes();
    let [s1, s0] = sender.to_be_bytes();
    let [m3, m2, m1, m0] = moment.to_be_bytes();
    [
        h0, h1, h2, h3, h4, h5, h6, h7, d1, d0, s1, s0, m3, m2, m1, m0,
    ]
}

// Reads a file, and writes its records again. What is written is the file itself, byte for byte.
pub fn rewrite(file: &[u8], out: &mut [u8]) -> Result<usize, Fault>
    ensures result { result ≡ rewriting file.now (length out.old) }
    ensures after { out.new ≡ settled result file.now out.old }
    ensures again { OnOk result (rewritten file.now ≡ Ok file.now) }
{
    match read(file)? {
        File::Schedule(schedule) => write_file(schedule, out),
        File::Readings(readings) => write_file(readings, out),
        File::Statement(statement) => write_file(statement, out),
    }
}
