// The first word of a line, which says what the line is.
ghost use Rattle.std.specs.Prelude.{◌≡◌};
ghost use Rattle.text.specs.Left.{words_left};
ghost use Rattle.seasonlines.specs.Verbs.{verb_of, faulty_of};
ghost use Rattle.seasonlines.specs.Entries.{said_by};

use crate::{Entry, Faulty, Slip, calls};
use text::Words;

#[derive(Clone, Copy, Debug, PartialEq, Eq)]
pub(crate) enum Verb {
    Terms,
    Tables,
    Register,
    Schedule,
    Row,
    Reading,
    Readings,
    End,
    Issue,
    Volume,
    Statement,
}

impl Verb {
    pub(crate) fn of(word: &[u8]) -> Option<Verb>
        ensures { result ≡ verb_of word.now }
    {
        match word {
            b"terms" => Some(Verb::Terms),
            b"tables" => Some(Verb::Tables),
            b"register" => Some(Verb::Register),
            b"schedule" => Some(Verb::Schedule),
            b"row" => Some(Verb::Row),
            b"reading" => Some(Verb::Reading),
            b"readings" => Some(Verb::Readings),
            b"end" => Some(Verb::End),
            b"issue" => Some(Verb::Issue),
            b"volume" => Some(Verb::Volume),
            b"statement" => Some(Verb::Statement),
            _ => None,
        }
    }

    // What the words after this one say. One arm for each word, since a table of functions would have to be handed out.
    pub(crate) fn said(self, words: Words<'_>) -> Result<Entry, Slip>
        ensures { result ≡ said_by self (words_left words.entry) }
    {
        match self {
            Verb::Terms => calls::terms(words),
            Verb::Tables => calls::tables(words),
            Verb::Register => calls::register(words),
            Verb::Schedule => calls::schedule(words),
            Verb::Row => calls::row(words),
            Verb::Reading => calls::reading(words),
            Verb::Readings => calls::readings(words),
            Verb::End => calls::end(words),
            Verb::Issue => calls::issue(words),
            Verb::Volume => calls::volume(words),
            Verb::Statement => calls::statement(words),
        }
    }

    // A line that begins with this word and has a slip.
    pub(crate) fn faulty(self, slip: Slip) -> Faulty
        ensures { result ≡ faulty_of self slip }
    {
        match self {
            Verb::Row => Faulty::Row(slip),
            _ => Faulty::Line(slip),
        }
    }
}
