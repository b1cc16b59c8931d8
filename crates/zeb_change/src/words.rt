//! Numbers and places in words of 16 bits, in which changes are noted: nearly every number of a record's places fits one.

ghost use Rattle.std.specs.Prelude.{◌≡◌, ◌+◌, ◌*◌, ◌++◌, ◌∷◌, ℕ, List, IfOk, OnOk};
ghost use Rattle.zeb_change.specs.NoteWords.{number_words, place_words};
ghost use Rattle.zeb_change.specs.PrivateNoteWords.{TakesNumber, TakesPlaces};

use smallvec::SmallVec;
use std::alloc::AllocError;
use zeb_register::Place;

/// The words of a key's changes. Most keys are changed in one record, or in few: eight words have room for a change of two places.
pub(crate) type Words = SmallVec<u16, 8>;

/// How many values a word has.
const VALUES: u64 = 65_536;

/// The word before a number that takes four.
const WIDE: u16 = 65_535;

/// Puts a number at the end.
pub(crate) fn put_number(words: &mut Words, number: u64) -> Result<(), AllocError>
    ensures { OnOk result (words.new.items ≡ words.old.items ++ number_words number) }
{
    if number < u64::from(WIDE) {
        words.push(number as u16)?;
        return Ok(());
    }
    let second = number / VALUES;
    let third = second / VALUES;
    let fourth = third / VALUES;
    words.push(WIDE)?;
    words.push((number % VALUES) as u16)?;
    words.push((second % VALUES) as u16)?;
    words.push((third % VALUES) as u16)?;
    words.push(fourth as u16)?;
    Ok(())
}

/// The number that four words at the front make, the lowest first, and the words behind them; 0 and all words where there aren't four.
fn take_wide<'a>(words: &'a [u16]) -> (u64, &'a [u16])
    ensures { (a b c d : ℕ) (rest : List ℕ) → words.now ≡ a ∷ b ∷ c ∷ d ∷ rest
        → (result.0 ≡ a + 65536 * (b + 65536 * (c + 65536 * d))) × (result.1.now ≡ rest) }
{
    if words.len() < 4 {
        return (0, words);
    }
    let upper = u64::from(words[2]) + VALUES * u64::from(words[3]);
    let number = u64::from(words[0]) + VALUES * (u64::from(words[1]) + VALUES * upper);
    let (_, rest) = words.split_at(4);
    (number, rest)
}

/// The number at the front of the words, and the words behind it; of words that begin with no number, any.
pub(crate) fn take_number<'a>(words: &'a [u16]) -> (u64, &'a [u16])
    ensures { TakesNumber words.now result.0 result.1.now }
{
    let Some((first, rest)) = words.split_first() else {
        return (0, words);
    };
    if *first == WIDE {
        return take_wide(rest);
    }
    (u64::from(*first), rest)
}

/// Puts places at the end, each as its unit and its place in that.
pub(crate) fn put_places(words: &mut Words, places: &[Place]) -> Result<(), AllocError>
    ensures { OnOk result (words.new.items ≡ words.old.items ++ place_words places.now) }
{
    for place in places {
        put_number(words, place.seq)?;
        put_number(words, place.pos)?;
    }
    Ok(())
}

/// Takes so many places from the front of the words, and puts them behind others; answers what is left of the words.
pub(crate) fn take_places<'a>(
    words: &'a [u16],
    count: u64,
    places: &mut Vec<Place>,
) -> Result<&'a [u16], AllocError>
    ensures { IfOk result (λ left. TakesPlaces words.now count left.now places.old.items
        places.new.items) }
{
    let mut left = words;
    for _ in 0..count {
        let (seq, behind) = take_number(left);
        let (pos, behind) = take_number(behind);
        places.push(Place { seq, pos })?;
        left = behind;
    }
    Ok(left)
}
