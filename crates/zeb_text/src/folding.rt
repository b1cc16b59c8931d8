//! Folding: what makes two spellings of one word the same text.
ghost use Rattle.std.specs.Prelude.{◌≡◌, IfOk, chars, encode_utf8_all, filter, not, string_bytes};
ghost use Rattle.zeb_text.specs.Folding.{folded, is_diacritical_mark};

use caseless::default_case_fold_str;
use std::alloc::{AllocError, Global};
use unicode_normalization::to_nfd;

/// The folded text: decomposed (NFD), its case folded in full, decomposed again, and the combining diacritical marks
/// U+0300 to U+036F dropped. Two texts that are a canonical caseless match (The Unicode Standard, D145) fold to one text.
pub fn fold(alloc: Global, text: &str) -> Result<String, AllocError>
    ensures { IfOk result (λ key. string_bytes key ≡ encode_utf8_all (folded (chars text.now))) }
{
    // Most words are ASCII: nothing of them is decomposed, and they have no marks.
    if text.is_ascii() {
        return text.to_ascii_lowercase(alloc);
    }
    let decomposed = to_nfd(alloc, text)?;
    let caseless = default_case_fold_str(alloc, decomposed.as_str())?;
    let key = to_nfd(alloc, caseless.as_str())?;
    without_diacritical_marks(alloc, key.as_str())
}

fn without_diacritical_marks(alloc: Global, text: &str) -> Result<String, AllocError>
    ensures { IfOk result (λ rest. string_bytes rest
        ≡ encode_utf8_all (filter (λ c. not (is_diacritical_mark c)) (chars text.now))) }
{
    text.chars()
        .filter(|c| !is_combining_diacritic(*c))
        .collect(alloc)
}

fn is_combining_diacritic(c: char) -> bool
    ensures { result ≡ is_diacritical_mark c }
{
    ('\u{300}'..='\u{36f}').contains(&c)
}
