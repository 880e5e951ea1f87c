// The format of a file: its header, its kinds, the counts that they allow and their sizes.

ghost use Rattle.std.specs.Prelude.{◌≡◌, ◌<◌, ◌≤◌, ◌++◌, length, drop};
ghost use Rattle.std.specs.Option.{ok_or};
ghost use Rattle.domain.specs.declared.Fault.TheVariants.{AnotherKind};
ghost use Rattle.files.specs.declared.formats.Kind.{Kind};
ghost use Rattle.files.specs.Formats.{kind_number, kind_of, allowed, body_size, header_of};

use domain::{Fault, MAX_RECORDS, PERIODS};

// Bytes of the header: the mark, the version, the kind and the count.
pub(crate) const HEADER: usize = 8;

// Bytes of the numbers before a schedule's rows.
pub(crate) const INTRO: usize = 8;

// Bytes of a row, of a reading and of a line.
pub(crate) const ROW: usize = 34;

pub(crate) const READING: usize = 8;

pub(crate) const LINE: usize = 11;

// The most bytes that a file can have: a statement with as many lines as it may have.
pub const MAX_FILE: usize = HEADER + MAX_RECORDS * LINE;

// The version of the format.
pub(crate) const VERSION: u16 = 1;

// The kind byte of a notice. No file with it is read, so it is no `Kind`, of which each has its counts and sizes.
pub(crate) const NOTICE: u8 = 4;

// The kinds of file that are read, by their kind byte.
#[derive(Clone, Copy, PartialEq, Eq, Debug)]
pub(crate) enum Kind {
    Schedule = 1,
    Readings = 2,
    Statement = 3,
}

// The kind that a kind byte names.
impl TryFrom<u8> for Kind {
    type Error = Fault;

    ghost try_from_gives = { λ byte result. result ≡ ok_or (kind_of byte) AnotherKind };

    fn try_from(byte: u8) -> Result<Kind, Fault> {
        match byte {
            1 => Ok(Kind::Schedule),
            2 => Ok(Kind::Readings),
            3 => Ok(Kind::Statement),
            _ => Err(Fault::AnotherKind),
        }
    }
}

// The kind byte.
impl From<Kind> for u8 {
    ghost from_gives = { λ kind result. result ≡ kind_number kind };

    fn from(kind: Kind) -> u8 {
        kind as u8
    }
}

impl Kind {
    // Whether a file of this kind may have so many records.
    pub(crate) fn allows(self, count: usize) -> bool
        ensures { result ≡ allowed self count }
    {
        match self {
            Kind::Schedule => count == PERIODS as usize,
            Kind::Readings | Kind::Statement => count <= MAX_RECORDS,
        }
    }

    // Bytes past the header of a file of this kind with so many records.
    pub(crate) fn body(self, count: usize) -> usize
        requires { count < 65536 }
        ensures { result ≡ body_size self count }
    {
        match self {
            Kind::Schedule => INTRO + count * ROW,
            Kind::Readings => count * READING,
            Kind::Statement => count * LINE,
        }
    }
}

// What belongs to files of one kind. A function names the kind: a type with a lifetime gets no proof of a trait's constant.
pub(crate) trait OfKind: Copy {
    ghost KIND: { Kind };

    fn kind() -> Kind
        ensures { result ≡ KIND };
}

// The bytes of a header.
pub(crate) fn header(kind: u8, count: u16) -> [u8; HEADER]
    ensures { result ≡ header_of kind count }
{
    let [v1, v0] = VERSION.to_be_bytes();
    let [c1, c0] = count.to_be_bytes();
    [b'S', b'S', b'M', v1, v0, kind, c1, c0]
}

// Writes a header, and leaves what lies past it.
pub(crate) fn write_header(kind: Kind, count: u16, out: &mut [u8])
    requires { 8 ≤ length out.old }
    ensures { out.new ≡ header_of (kind_number kind) count ++ drop 8 out.old }
{
    out[..HEADER].copy_from_slice(&header(u8::from(kind), count));
}
