//! Patterns of a search term: its words, with stars where it is truncated.
ghost use Rattle.std.specs.Prelude.{◌≡◌, ◌++◌, ◌&&◌, ◌||◌, IfOk, OnOk, chars, if◌then◌else◌, map};
ghost use Rattle.zeb_text.specs.PrivateStars.{cuts_each, cuts_left, cuts_right, star_if};
ghost use Rattle.zeb_text.specs.Symbols.{Char, Star};
ghost use Rattle.zeb_text.specs.Truncation.{patterns_of, symbol_of};

use crate::cutting::runs;
use crate::folding::fold;
use crate::patterns::Pattern;
use std::alloc::{AllocError, Global};

/// Where a term is truncated (Z39.50, Bib-1 attribute type 5).
#[derive(Clone, Copy, Debug, PartialEq, Eq)]
pub enum Cut {
    /// Nowhere (100).
    None,
    /// A star after (1).
    Right,
    /// A star before (2).
    Left,
    /// A star on both sides (3).
    Both,
    /// A star in place of each `#`, which then counts as a character of a word (101).
    Hash,
}

/// Which words of a term its truncation is about.
#[derive(Clone, Copy, Debug, PartialEq, Eq)]
pub enum Spread {
    /// The term as a whole: a star before the first word, and one after the last.
    Ends,
    /// Each word by itself.
    Each,
}

impl Cut {
    fn has_star_before(self) -> bool
        ensures { result ≡ cuts_left self }
    {
        matches!(self, Cut::Left | Cut::Both)
    }

    fn has_star_after(self) -> bool
        ensures { result ≡ cuts_right self }
    {
        matches!(self, Cut::Right | Cut::Both)
    }
}

/// The patterns of the term's words in order. The term is cut into words as [`words`](crate::words) cuts a text, but that
/// `#` is a character of a word under [`Cut::Hash`], where it becomes a star.
pub fn pattern_words(
    alloc: Global,
    term: &str,
    cut: Cut,
    spread: Spread,
) -> Result<Vec<Pattern>, AllocError>
    ensures { IfOk result (λ found. found.items ≡ patterns_of cut spread (chars term.now)) }
{
    let folded = fold(alloc, term)?;
    let words = runs(alloc, folded.as_str(), cut)?;
    let mut patterns = Vec::new(alloc);
    for (at, word) in words.iter().enumerate() {
        let before = takes_star(cut.has_star_before(), spread, at == 0);
        let after = takes_star(cut.has_star_after(), spread, at + 1 == words.len());
        patterns.push(word_pattern(alloc, word.as_str(), cut, before, after)?)?;
    }
    Ok(patterns)
}

/// Whether a word takes the star that the truncation has on one side: under [`Spread::Each`] every word, else the one at that end of the term.
fn takes_star(has_star: bool, spread: Spread, is_end: bool) -> bool
    ensures { result ≡ (has_star && (cuts_each spread || is_end)) }
{
    has_star && (spread == Spread::Each || is_end)
}

fn word_pattern(
    alloc: Global,
    word: &str,
    cut: Cut,
    before: bool,
    after: bool,
) -> Result<Pattern, AllocError>
    ensures { IfOk result
        (λ pattern. pattern
        ≡ (star_if before ++ map (symbol_of cut) (chars word.now)) ++ star_if after) }
{
    let mut pattern = Pattern::new(alloc);
    if before {
        pattern.push_star(alloc)?;
    }
    push_word(alloc, &mut pattern, word, cut)?;
    if after {
        pattern.push_star(alloc)?;
    }
    Ok(pattern)
}

fn push_word(alloc: Global, pattern: &mut Pattern, word: &str, cut: Cut) -> Result<(), AllocError>
    ensures { OnOk result (pattern.new ≡ pattern.old ++ map (symbol_of cut) (chars word.now)) }
{
    for c in word.chars() {
        if is_star(cut, c) {
            pattern.push_star(alloc)?;
        } else {
            pattern.push_char(c)?;
        }
    }
    Ok(())
}

fn is_star(cut: Cut, c: char) -> bool
    ensures { symbol_of cut c ≡ (if result then Star else Char c) }
{
    matches!(cut, Cut::Hash) && c == '#'
}
