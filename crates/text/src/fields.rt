// The fields of a line: its words from left to right, each as a number of the field's width.
ghost use Rattle.std.specs.Prelude.{◌≡◌, drop, Some};
ghost use Rattle.std.specs.Iterator.{item_count};
ghost use Rattle.text.specs.Words.{words_of};
ghost use Rattle.text.specs.Left.{words_left, behind_word, TakesWord};
ghost use Rattle.text.specs.Fields.{word_fault_text, seen_as, word_number, number_in, end_in, fault_at};

use crate::{Misread, Number, next_word, read_decimal};
use std::fmt;

// What is wrong with a word of a line, with the word's number.
#[derive(Clone, Copy, Debug, PartialEq, Eq)]
pub enum WordFault {
    Missing(u8),
    NotDecimal(u8),
    TooLarge(u8),
    Extra(u8),
}

impl fmt::Display for WordFault {
    ghost output = { λ x. Some (word_fault_text x) };

    fn fmt<W: fmt::Write>(&self, f: &mut fmt::Formatter<W>) -> fmt::Result {
        match self {
            WordFault::Missing(word) => write!(f, "word {word} is missing"),
            WordFault::NotDecimal(word) => write!(f, "word {word} is not a decimal number"),
            WordFault::TooLarge(word) => write!(f, "word {word} is too large"),
            WordFault::Extra(word) => write!(f, "word {word} is one too many"),
        }
    }
}

// The words of a line that have not been taken yet, in the form of `Lines`, which says why both stay. A method that is told a `place` is told the number of the word that comes next.
#[derive(Drop)]
pub struct Words<'a> {
    pub rest: &'a [u8],
}

#[tactic(auto, using(crate::proofs::Pieced::word_none))]
impl<'a> Iterator for Words<'a> {
    type Item = &'a [u8];

    ghost next_gives = { TakesWord };

    ghost remaining = { item_count words_left };

    fn next(&mut self) -> Option<&'a [u8]> {
        let word = next_word(self.rest)?;
        self.rest = word.rest;
        Some(word.first)
    }
}

impl Words<'_> {
    // The words of a line, from the first to the last.
    pub fn of(line: &[u8]) -> Words<'_>
        ensures words { words_left result ≡ words_of line.now }
        ensures rest { result.rest.now ≡ line.now }
    {
        Words { rest: line }
    }

    // The next word as a number.
    pub fn number<N: Number>(&mut self, place: u8) -> Result<N, WordFault>
        ensures value { seen_as N.value result ≡ number_in place N.MOST (words_of self.old.rest.now) }
        ensures words { words_of self.new.rest.now ≡ drop 1 (words_of self.old.rest.now) }
        ensures rest { self.new.rest.now ≡ behind_word self.old.rest.now }
    {
        let text = self.next().ok_or(WordFault::Missing(place))?;
        word(text, place)
    }

    // No word is left.
    pub fn end(&self, place: u8) -> Result<(), WordFault>
        ensures { result ≡ end_in place (words_of self.now.rest.now) }
    {
        match next_word(self.rest) {
            Some(_) => Err(WordFault::Extra(place)),
            None => Ok(()),
        }
    }
}

// The number that a word writes, which is the line's word `place`.
pub fn word<N: Number>(text: &[u8], place: u8) -> Result<N, WordFault>
    ensures { seen_as N.value result ≡ word_number place N.MOST text.now }
{
    let number = read_decimal(text, N::MOST).map_err(|misread| misread.at(place))?;
    N::fitting(number).ok_or(WordFault::TooLarge(place))
}

impl Misread {
    // The same, said of the line's word `place`.
    fn at(self, place: u8) -> WordFault
        ensures { result ≡ fault_at place self }
    {
        match self {
            Misread::NotDecimal => WordFault::NotDecimal(place),
            Misread::TooLarge => WordFault::TooLarge(place),
        }
    }
}
