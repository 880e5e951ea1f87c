// The numbers of a call, from the line's second word to its end, and a list of numbers at the end of a line.
ghost use Rattle.std.specs.Prelude.{◌≡◌, ◌+◌, ◌<◌, [], Ok};
ghost use Rattle.text.specs.Left.{words_left};
ghost use Rattle.text.specs.Fields.{and_then, seen_as};
ghost use Rattle.seasonlines.specs.Lists.{numbers_in, padded};
ghost use Rattle.seasonlines.specs.Tuples.{two, three, four};

use arrayvec::ArrayVec;
use text::{Number, WordFault, Words, word};

// A call's two numbers. Calls of two, three and four numbers have a function each: a tuple of any length is no type parameter.
pub(crate) fn two<A: Number, B: Number>(mut words: Words<'_>) -> Result<(A, B), WordFault>
    ensures { seen_as (λ t. (A.value t.0, B.value t.1)) result ≡ two A.MOST B.MOST (words_left words.entry) }
{
    let numbers = (words.number(2)?, words.number(3)?);
    words.end(4)?;
    Ok(numbers)
}

// A call's three numbers.
pub(crate) fn three<A: Number, B: Number, C: Number>(
    mut words: Words<'_>,
) -> Result<(A, B, C), WordFault>
    ensures { seen_as (λ t. (A.value t.0, B.value t.1, C.value t.2)) result ≡ three A.MOST B.MOST C.MOST (words_left words.entry) }
{
    let numbers = (words.number(2)?, words.number(3)?, words.number(4)?);
    words.end(5)?;
    Ok(numbers)
}

// A call's four numbers.
pub(crate) fn four<A: Number, B: Number, C: Number, D: Number>(
    mut words: Words<'_>,
) -> Result<(A, B, C, D), WordFault>
    ensures { seen_as (λ t. (A.value t.0, B.value t.1, C.value t.2, D.value t.3)) result ≡ four A.MOST B.MOST C.MOST D.MOST (words_left words.entry) }
{
    let numbers = (
        words.number(2)?,
        words.number(3)?,
        words.number(4)?,
        words.number(5)?,
    );
    words.end(6)?;
    Ok(numbers)
}

// The numbers in the words that are left, of which the first is the line's word `first`. The crate entries has a list of its own, which grows on the heap and can run out of memory; this one is fixed memory.
pub(crate) fn list<const N: usize>(
    words: Words<'_>,
    first: u8,
) -> Result<ArrayVec<u32, N>, WordFault>
    requires { first + N < 256 }
    ensures { result ≡ and_then (numbers_in first N [] (words_left words.entry)) (λ ns. Ok (record { items = ns })) }
{
    let mut numbers = ArrayVec::new();
    for text in words {
        let place = first + numbers.len() as u8;
        if numbers.is_full() {
            return Err(WordFault::Extra(place));
        }
        numbers.push(word(text, place)?);
    }
    Ok(numbers)
}

// The numbers of a list in the first of N places, and 0 in the others.
pub(crate) fn padded<const N: usize>(numbers: &ArrayVec<u32, N>) -> [u32; N]
    ensures { result ≡ padded N numbers.now.items }
{
    let count = numbers.len();
    let mut all = [0; N];
    all[..count].copy_from_slice(numbers.as_slice());
    all
}
