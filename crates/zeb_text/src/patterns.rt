//! Patterns: texts in which stars may stand.
ghost use Rattle.std.specs.Prelude.{◌≡◌, ◌++◌, ◌⊎◌, ◌↔◌, ℕ, List, [], ◌∷◌, chars, IfOk, IfSome, IsTrue, IsUtf8, MatchOption, OnOk, IfNone, Contains};
ghost use Rattle.zeb_text.specs.Symbols.{Char, Star, Symbol, literal, starred, texts_of};
ghost use Rattle.zeb_text.specs.Patterns.{Matches};
ghost use Rattle.zeb_text.specs.Truncation.{joined_patterns};

use std::alloc::{AllocError, Global};
use std::marker::Model;
use std::mem;

/// A text in which stars may stand; a star stands for any text, the empty one too.
#[derive(Debug, Drop)]
pub struct Pattern {
    before_stars: Vec<String>,
    last: String,
}

impl Model for Pattern {
    ghost use Rattle.std.specs.Prelude.{List, chars, string_bytes};
    ghost use Rattle.zeb_text.specs.Symbols.{Symbol, starred, texts_of};

    ghost Value = { List Symbol };

    ghost view = { λ p. starred (texts_of p.before_stars.items) (chars (string_bytes p.last)) };
}

impl Pattern {
    pub(crate) fn new(alloc: Global) -> Pattern
        ensures { result ≡ [] }
    {
        Pattern {
            before_stars: Vec::new(alloc),
            last: String::new(alloc),
        }
    }

    pub(crate) fn push_text(&mut self, text: &str) -> Result<(), AllocError>
        ensures { OnOk result (self.new ≡ self.old ++ literal (chars text.now)) }
    {
        self.last.push_str(text)
    }

    pub(crate) fn push_char(&mut self, c: char) -> Result<(), AllocError>
        ensures { OnOk result (self.new ≡ self.old ++ Char c ∷ []) }
    {
        self.last.push(c)
    }

    pub(crate) fn push_star(&mut self, alloc: Global) -> Result<(), AllocError>
        ensures { OnOk result (self.new ≡ self.old ++ Star ∷ []) }
    {
        let text = mem::replace(&mut self.last, String::new(alloc));
        self.before_stars.push(text)?;
        Ok(())
    }

    /// Whether the text is the pattern with some text in place of each star. The pieces between the stars are looked for
    /// in order, each from where the one before it ends. How long that takes isn't proved. No memory is taken.
    pub fn matches(&self, text: &str) -> bool
        ensures { IsTrue result ↔ Matches self.now (chars text.now) }
    {
        let Some((first, inner)) = self.before_stars.as_slice().split_first() else {
            return self.last.as_str() == text;
        };
        let Some(rest) = text.strip_prefix(first.as_str()) else {
            return false;
        };
        match after_pieces(rest, inner) {
            Some(rest) => rest.ends_with(self.last.as_str()),
            None => false,
        }
    }

    /// The pattern's text where it has no star, and else `None`. No memory is taken.
    pub fn literal(&self) -> Option<&str>
        ensures text { IfSome result (λ text. self.now ≡ literal (chars text.now)) }
        ensures star { IfNone result (Contains self.now Star) }
    {
        if self.before_stars.is_empty() {
            Some(self.last.as_str())
        } else {
            None
        }
    }

    /// The text before the pattern's first star, or the whole text of a pattern without a star. Each text that the pattern
    /// matches begins with it. No memory is taken.
    pub fn prefix(&self) -> &str
        ensures { (self.now ≡ literal (chars result.now))
            ⊎ ((rest : List Symbol) × (self.now ≡ literal (chars result.now) ++ Star ∷ rest)) }
    {
        match self.before_stars.first() {
            Some(text) => text.as_str(),
            None => self.last.as_str(),
        }
    }
}

/// What is left of the text after the pieces, each taken at its first place after the one before it: no other choice of
/// places leaves more.
fn after_pieces<'a>(text: &'a str, pieces: &[String]) -> Option<&'a str>
    ensures text { IfSome result (λ rest. IsUtf8 rest.now) }
    ensures rest { MatchOption result
        ((last : List ℕ) → ¬ (Matches (Star ∷ starred (texts_of pieces.now) last) (chars text.now)))
        (λ rest. (last : List ℕ)
        → (Matches (Star ∷ starred (texts_of pieces.now) last) (chars text.now))
        ↔ (Matches (Star ∷ literal last) (chars rest.now))) }
{
    let mut rest = text;
    for piece in pieces {
        let (_, after) = rest.split_once(piece.as_str())?;
        rest = after;
    }
    Some(rest)
}

/// The patterns with one space between each two; of none, the empty pattern, which matches the empty text alone.
pub fn join_patterns(alloc: Global, patterns: &[Pattern]) -> Result<Pattern, AllocError>
    ensures { IfOk result (λ joined. joined ≡ joined_patterns patterns.now) }
{
    let mut joined = Pattern::new(alloc);
    for (at, pattern) in patterns.iter().enumerate() {
        if at > 0 {
            joined.push_char(' ')?;
        }
        append(alloc, &mut joined, pattern)?;
    }
    Ok(joined)
}

fn append(alloc: Global, to: &mut Pattern, pattern: &Pattern) -> Result<(), AllocError>
    ensures { OnOk result (to.new ≡ to.old ++ pattern.now) }
{
    for piece in &pattern.before_stars {
        to.push_text(piece.as_str())?;
        to.push_star(alloc)?;
    }
    to.push_text(pattern.last.as_str())
}
