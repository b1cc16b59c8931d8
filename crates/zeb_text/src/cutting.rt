//! Words: a text cut at what is neither letter, mark nor number.
ghost use Rattle.std.specs.Prelude.{◌≡◌, IfOk, chars, encode_utf8_all, map, string_bytes};
ghost use Rattle.zeb_text.specs.Words.{is_word_character, joined_text, runs_of, words_of};
ghost use Rattle.zeb_text.specs.Truncation.{belongs_to_word};

use crate::folding::fold;
use crate::truncation::Cut;
use std::alloc::{AllocError, Global};
use std::mem;
use unicode::properties::{GeneralCategory, GeneralCategoryGroup};

/// The words of the text in order: the maximal runs, in the folded text, of characters whose General_Category is a
/// letter, a mark or a number (The Unicode Standard, section 4.5).
pub fn words(alloc: Global, text: &str) -> Result<Vec<String>, AllocError>
    ensures { IfOk result
        (λ found. map string_bytes found.items ≡ map encode_utf8_all (words_of (chars text.now))) }
{
    let folded = fold(alloc, text)?;
    runs(alloc, folded.as_str(), Cut::None)
}

/// The words with one space between each two; of none, the empty text.
pub fn join(alloc: Global, words: &[String]) -> Result<String, AllocError>
    ensures { IfOk result
        (λ joined. string_bytes joined ≡ joined_text (map string_bytes words.now)) }
{
    let mut joined = String::new(alloc);
    for (at, word) in words.iter().enumerate() {
        if at > 0 {
            joined.push(' ')?;
        }
        joined.push_str(word.as_str())?;
    }
    Ok(joined)
}

/// The maximal runs of what belongs to a word under the truncation `cut`.
pub(crate) fn runs(alloc: Global, text: &str, cut: Cut) -> Result<Vec<String>, AllocError>
    ensures { IfOk result
        (λ found. map string_bytes found.items
        ≡ map encode_utf8_all (runs_of (belongs_to_word cut) (chars text.now))) }
{
    let mut found = Vec::new(alloc);
    let mut run = String::new(alloc);
    for c in text.chars() {
        if is_in_word(cut, c) {
            run.push(c)?;
        } else if !run.is_empty() {
            found.push(mem::replace(&mut run, String::new(alloc)))?;
        }
    }
    if !run.is_empty() {
        found.push(run)?;
    }
    Ok(found)
}

fn is_in_word(cut: Cut, c: char) -> bool
    ensures { result ≡ belongs_to_word cut c }
{
    match cut {
        Cut::Hash => is_word_char(c) || c == '#',
        Cut::None | Cut::Right | Cut::Left | Cut::Both => is_word_char(c),
    }
}

fn is_word_char(c: char) -> bool
    ensures { result ≡ is_word_character c }
{
    let category = GeneralCategory::for_char(c);
    GeneralCategoryGroup::Letter.contains(category)
        || GeneralCategoryGroup::Mark.contains(category)
        || GeneralCategoryGroup::Number.contains(category)
}
