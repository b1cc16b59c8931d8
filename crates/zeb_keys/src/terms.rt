//! A term: the text of a register's entry.
ghost use Rattle.std.specs.Prelude.{◌≡◌, IfOk, Some, refl, bytes_eq, string_bytes};
ghost use Rattle.std.specs.Ordering.{nat_cmp};
ghost use Rattle.std.specs.Cmp.{on_equiv, on_total, on_po, on_per, partial_equiv_from_equiv};
ghost use Rattle.std.specs.Cmp.Lexicographic.{slice_cmp, nat_list_eq_equiv, nat_list_cmp_total, texts_ties, texts_po};

use arrayvec::ArrayString;
use std::alloc::{AllocError, Global};
use std::cmp::Ordering;
use std::convert::AsStr;
use std::fmt;
use std::marker::Model;

/// Where a term keeps its text. A change has a term for each word of its records, and looks for each among hundreds of thousands: most are
/// short, and a short one is copied and compared without memory elsewhere.
#[derive(Drop)]
enum Text {
    /// In the term itself.
    Short(ArrayString<24>),
    /// In memory of its own.
    Long(String),
}

/// The text of a register's entry: of a record a word, the joined words of a unit, or a number's key of 18 digits; but any text
/// makes a term. Contracts see it as the list of its UTF-8 bytes, and two terms compare by these.
#[derive(Drop)]
pub struct Term {
    text: Text,
}

impl Model for Term {
    ghost use Rattle.std.specs.Prelude.{List, ℕ};
    ghost use Rattle.zeb_keys.specs.Texts.{text_bytes};

    ghost Value = { List ℕ };

    ghost view = { λ term. text_bytes term.text };
}

impl Term {
    /// The term of this text. It takes no memory.
    pub fn new(text: String) -> Term
        ensures { result ≡ string_bytes text }
    {
        if let Ok(short) = ArrayString::from(text.as_str()) {
            return Term {
                text: Text::Short(short),
            };
        }
        Term {
            text: Text::Long(text),
        }
    }

    /// The term of a copy of this text. It takes memory for a text of more than 24 bytes alone, and an error is want of it.
    pub fn copied(alloc: Global, text: &str) -> Result<Term, AllocError>
        ensures { IfOk result (λ term. term ≡ text.now) }
    {
        let text = match ArrayString::from(text) {
            Ok(short) => Text::Short(short),
            Err(_) => Text::Long(String::from_str(alloc, text)?),
        };
        Ok(Term { text })
    }

    /// The text.
    pub fn as_str(&self) -> &str
        ensures { result.now ≡ self.now }
    {
        match &self.text {
            Text::Short(text) => text.as_str(),
            Text::Long(text) => text.as_str(),
        }
    }
}

impl Clone for Term {
    ghost is_clone = { λ term copy. copy ≡ term };

    fn clone(&self) -> Result<Term, AllocError> {
        let text = match &self.text {
            Text::Short(text) => Text::Short(*text),
            Text::Long(text) => Text::Long(text.clone()?),
        };
        Ok(Term { text })
    }
}

impl fmt::Display for Term {
    ghost output = { λ term. Some term };

    fn fmt<W: fmt::Write>(&self, f: &mut fmt::Formatter<W>) -> fmt::Result {
        fmt::Display::fmt(&self.as_str(), f)
    }
}

impl fmt::Debug for Term {
    fn fmt<W: fmt::Write>(&self, f: &mut fmt::Formatter<W>) -> fmt::Result {
        fmt::Debug::fmt(&self.as_str(), f)
    }
}

impl AsStr for Term {
    ghost text = { λ term. term };

    fn as_str(&self) -> &str {
        Term::as_str(self)
    }
}

impl PartialEq for Term {
    ghost eq = { λ a b. bytes_eq a b };

    ghost laws = { on_per (λ term. term) (partial_equiv_from_equiv nat_list_eq_equiv) };

    fn eq(&self, other: &Term) -> bool {
        self.as_str() == other.as_str()
    }
}

impl Eq for Term {
    ghost laws = { on_equiv (λ term. term) nat_list_eq_equiv };
}

impl PartialOrd for Term {
    ghost partial_cmp = { λ a b. Some (slice_cmp nat_cmp a b) };

    ghost laws = { on_po (λ term. term) texts_po };

    fn partial_cmp(&self, other: &Term) -> Option<Ordering> {
        Some(self.cmp(other))
    }
}

impl Ord for Term {
    ghost cmp = { λ a b. slice_cmp nat_cmp a b };

    ghost total = { on_total (λ term. term) nat_list_cmp_total };

    ghost matches_partial_cmp = { λ a b. refl };

    ghost matches_eq = { λ a b. texts_ties a b };

    fn cmp(&self, other: &Term) -> Ordering {
        self.as_str().cmp(other.as_str())
    }
}
