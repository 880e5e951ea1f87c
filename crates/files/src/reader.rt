// Reading: which kind of file it is, its numbers and its record bytes, or why it is refused.

ghost use Rattle.std.specs.Prelude.{◌≡◌, length};
ghost use Rattle.files.specs.Formats.{body_size};
ghost use Rattle.files.specs.Reads.{Told, seen_by, head_seen, told_schedule, told_list, told_readings, told_statement, told, opened, fitted, said, answered, read_of, read_kind_of};
ghost use Rattle.files.specs.declared.formats.Kind.TheVariants as kind;

use crate::formats::{HEADER, INTRO, Kind, OfKind, VERSION};
use crate::records::{Intro, Listed, ReadingRecord, Record, Records};
use domain::{AllocationRow, Fault, Line};

// A schedule: the numbers before its rows, and its rows.
#[derive(Clone, Copy, PartialEq, Eq, Debug)]
pub struct ScheduleFile<'a> {
    pub intro: Intro,
    pub rows: Records<'a, AllocationRow>,
}

// A readings file holds a list of readings, and nothing else.
pub type ReadingsFile<'a> = Records<'a, ReadingRecord>;

// A statement holds a list of lines, and nothing else.
pub type StatementFile<'a> = Records<'a, Line>;

// A file that was read, by its kind. The record bytes are a part of the input.
#[derive(Clone, Copy, PartialEq, Eq, Debug)]
pub enum File<'a> {
    Schedule(ScheduleFile<'a>),
    Readings(ReadingsFile<'a>),
    Statement(StatementFile<'a>),
}

// What a header says, with the bytes past the header.
// The kind is a byte, tried by both readers: tried in `open`, it would need a definition of that answer beside `opened` and a step from it to each reader's, to save one call.
#[derive(Clone, Copy, PartialEq, Eq, Debug)]
pub(crate) struct Header<'a> {
    kind: u8,
    count: u16,
    rest: &'a [u8],
}

// What is read of a file of one kind.
trait Content<'a>: OfKind {
    ghost told: { Self → Told };

    // What stands behind a header whose count and length were judged.
    fn behind(header: Header<'a>) -> Self
        requires { length header.rest.now ≡ body_size Self.KIND header.count }
        ensures { told result ≡ said Self.KIND (head_seen header.entry) };
}

impl<'a> OfKind for ScheduleFile<'a> {
    ghost KIND = { kind.Schedule };

    fn kind() -> Kind
        ensures { result ≡ kind.Schedule }
    {
        Kind::Schedule
    }
}

impl<'a> Content<'a> for ScheduleFile<'a> {
    ghost told = { told_schedule };

    fn behind(header: Header<'a>) -> ScheduleFile<'a> {
        ScheduleFile {
            intro: Intro::decode(&header.rest[..INTRO]),
            rows: Records::new(&header.rest[INTRO..]),
        }
    }
}

impl<'a, R: Listed> OfKind for Records<'a, R> {
    ghost KIND = { R.Listed.KIND };

    fn kind() -> Kind
        ensures { result ≡ R.Listed.KIND }
    {
        R::KIND
    }
}

impl<'a, R: Listed> Content<'a> for Records<'a, R> {
    ghost told = { told_list R.Listed.KIND R.Record.SIZE };

    fn behind(header: Header<'a>) -> Records<'a, R> {
        Records::new(header.rest)
    }
}

// Takes the header off a file.
fn open(file: &[u8]) -> Result<Header<'_>, Fault>
    ensures { seen_by head_seen result ≡ opened file.now }
{
    let [m0, m1, m2, v1, v0, kind, c1, c0, rest @ ..] = file else {
        return Err(Fault::FileTooShort { length: file.len() });
    };
    if *m0 != b'S' || *m1 != b'S' || *m2 != b'M' {
        return Err(Fault::AnotherMark);
    }
    if u16::from_be_bytes([*v1, *v0]) != VERSION {
        return Err(Fault::AnotherVersion);
    }
    let count = u16::from_be_bytes([*c1, *c0]);
    Ok(Header {
        kind: *kind,
        count,
        rest,
    })
}

impl<'a> Header<'a> {
    // Judges the count, then the length.
    fn judge(&self, kind: Kind) -> Result<(), Fault>
        ensures { result ≡ fitted kind (head_seen self.now) }
    {
        let count = self.count as usize;
        if !kind.allows(count) {
            return Err(Fault::CountNotAllowed);
        }
        if self.rest.len() != kind.body(count) {
            let length = HEADER + self.rest.len();
            return Err(Fault::AnotherLength { length });
        }
        Ok(())
    }

    // What stands behind the header, read as a file of one kind.
    fn content<C: Content<'a>>(self) -> Result<C, Fault>
        ensures { seen_by C.Content.told result ≡ answered C.OfKind.KIND (head_seen self.entry) }
    {
        self.judge(C::kind())?;
        Ok(C::behind(self))
    }
}

// Reads a file of any kind.
pub fn read(file: &[u8]) -> Result<File<'_>, Fault>
    ensures { seen_by told result ≡ read_of file.now }
{
    let header = open(file)?;
    match Kind::try_from(header.kind)? {
        Kind::Schedule => Ok(File::Schedule(header.content()?)),
        Kind::Readings => Ok(File::Readings(header.content()?)),
        Kind::Statement => Ok(File::Statement(header.content()?)),
    }
}

// Reads a file of one kind. A file of another kind is refused before its count and length are judged.
fn read_as<'a, C: Content<'a>>(file: &'a [u8]) -> Result<C, Fault>
    ensures { seen_by C.Content.told result ≡ read_kind_of C.OfKind.KIND file.now }
{
    let header = open(file)?;
    if Kind::try_from(header.kind)? != C::kind() {
        return Err(Fault::AnotherKind);
    }
    header.content()
}

// Reads a schedule, as `read_as` does.
pub fn read_schedule(file: &[u8]) -> Result<ScheduleFile<'_>, Fault>
    ensures { seen_by told_schedule result ≡ read_kind_of kind.Schedule file.now }
{
    read_as::<ScheduleFile<'_>>(file)
}

// Reads a readings file, as `read_as` does.
pub fn read_readings(file: &[u8]) -> Result<ReadingsFile<'_>, Fault>
    ensures { seen_by told_readings result ≡ read_kind_of kind.Readings file.now }
{
    read_as::<ReadingsFile<'_>>(file)
}

// Reads a statement, as `read_as` does.
pub fn read_statement(file: &[u8]) -> Result<StatementFile<'_>, Fault>
    ensures { seen_by told_statement result ≡ read_kind_of kind.Statement file.now }
{
    read_as::<StatementFile<'_>>(file)
}
