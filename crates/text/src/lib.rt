// Lines, words and decimal numbers in bytes that need not be text.
#![tactic(auto)]

ghost use Rattle.std.specs.Prelude.{◌≡◌, ℕ, ◌+◌, Bool, true, length, take, drop, if◌then◌else◌, Some, None, IfSome, nat_le};
ghost use Rattle.std.specs.List.{prefix_len};
ghost use Rattle.std.specs.Str.{all_ascii_digits};
ghost use Rattle.std.specs.Iterator.{item_count};
ghost use Rattle.text.specs.Words.{blank, words_of, lines_of, uncommented};
ghost use Rattle.text.specs.Left.{lines_left, behind_line, behind_word, TakesLine};
ghost use Rattle.text.specs.Pieces.{Hands};
ghost use Rattle.text.specs.Numbers.{decimal_in, number_after};

mod fields;
mod hex;
mod number;

pub use fields::{WordFault, Words, word};
pub use hex::Hex;
pub use number::Number;

// The first piece of some bytes, and what follows it.
#[derive(Clone, Copy, PartialEq, Eq, Debug)]
pub struct Piece<'a> {
    pub first: &'a [u8],
    pub rest: &'a [u8],
}

// Why a word is no number of its field.
#[derive(Clone, Copy, Debug, PartialEq, Eq)]
pub enum Misread {
    NotDecimal,
    TooLarge,
}

// The lines of some bytes that have not been taken yet. They have the form of `Words`, but a generic type for both would carry a marker, which a caller who writes a value by its one public field could not leave out.
#[derive(Drop)]
pub struct Lines<'a> {
    pub rest: &'a [u8],
}

impl Lines<'_> {
    // The lines of an input, from the first to the last.
    pub fn of(input: &[u8]) -> Lines<'_>
        ensures lines { lines_left result ≡ lines_of input.now }
        ensures rest { result.rest.now ≡ input.now }
    {
        Lines { rest: input }
    }
}

#[tactic(auto, using(crate::proofs::Pieced::line_none))]
impl<'a> Iterator for Lines<'a> {
    type Item = &'a [u8];

    ghost next_gives = { TakesLine };

    ghost remaining = { item_count lines_left };

    fn next(&mut self) -> Option<&'a [u8]> {
        let line = next_line(self.rest)?;
        self.rest = line.rest;
        Some(line.first)
    }
}

// The first line: lines end in a line feed, which the last one may lack. What is left begins behind the line feed.
pub fn next_line(input: &[u8]) -> Option<Piece<'_>>
    ensures line { Hands lines_of input.now result }
    ensures rest { IfSome result (λ p. p.rest.now ≡ behind_line input.now) }
{
    if input.is_empty() {
        return None;
    }
    let (first, tail) = split_while(input, |byte| byte != b'\n');
    Some(Piece {
        first,
        rest: after_first(tail),
    })
}

// The part of a line before its comment, which begins with `#`.
pub fn before_comment(line: &[u8]) -> &[u8]
    ensures { result.now ≡ uncommented line.now }
{
    let (front, _) = split_while(line, |byte| byte != b'#');
    front
}

// The first word: words stand between blanks. What is left begins right behind the word.
pub fn next_word(line: &[u8]) -> Option<Piece<'_>>
    ensures word { Hands words_of line.now result }
    ensures rest { IfSome result (λ p. p.rest.now ≡ behind_word line.now) }
{
    let (_, tail) = split_while(line, is_blank);
    if tail.is_empty() {
        return None;
    }
    let (first, rest) = split_while(tail, |byte| !is_blank(byte));
    Some(Piece { first, rest })
}

// The number that a word of decimal digits writes, if it is at most `most`.
pub fn read_decimal(word: &[u8], most: u64) -> Result<u64, Misread>
    ensures { result ≡ decimal_in word.now most }
{
    if word.is_empty() || !all_digits(word) {
        return Err(Misread::NotDecimal);
    }
    value_within(word, most).ok_or(Misread::TooLarge)
}

fn all_digits(word: &[u8]) -> bool
    ensures { result ≡ all_ascii_digits word.now }
{
    word.iter().all(u8::is_ascii_digit)
}

fn after_first(bytes: &[u8]) -> &[u8]
    ensures { result.now ≡ drop 1 bytes.now }
{
    bytes.get(1..).unwrap_or(bytes)
}

// The number that digits write, if it is at most `most`.
#[tactic(auto, using(crate::proofs::Numbered::next_digit_ge))]
fn value_within(word: &[u8], most: u64) -> Option<u64>
    requires { all_ascii_digits word.now ≡ true }
    ensures { result ≡ (if nat_le (number_after 0 word.now) most then Some (number_after 0 word.now) else None) }
{
    let mut value: u64 = 0;
    for digit in word {
        value = value
            .checked_mul(10)?
            .checked_add(u64::from(*digit - b'0'))?;
    }
    (value <= most).then_some(value)
}

// The bytes before the first that fails a test, and the others.
fn split_while<F: Fn(u8) -> bool>(bytes: &[u8], passes: F) -> (&[u8], &[u8])
    requires { (state : F) (c : ℕ) → F.pre state c }
    ensures front { (test : ℕ → Bool) → ((c : ℕ) (r : Bool) → F.post passes c r → r ≡ test c) → result.0.now ≡ take (prefix_len test bytes.now) bytes.now }
    ensures back { (test : ℕ → Bool) → ((c : ℕ) (r : Bool) → F.post passes c r → r ≡ test c) → result.1.now ≡ drop (prefix_len test bytes.now) bytes.now }
{
    let end = bytes.iter().position(|byte| !passes(*byte));
    bytes.split_at(end.unwrap_or(bytes.len()))
}

#[tactic(auto, unfolding(crate::specs::Words::blank))]
fn is_blank(byte: u8) -> bool
    ensures { result ≡ blank byte }
{
    matches!(byte, b' ' | b'\t' | b'\r')
}
