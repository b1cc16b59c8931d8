//! Patterns of units: a tag, or a tag and a subfield code.

ghost use Rattle.std.specs.Prelude.{◌≡◌, Some};
ghost use Rattle.zeb_profile.specs.Clauses.{pattern_of, pattern_text, fits as pattern_fits};

use crate::ProfileFaultKind;
use std::fmt;
use zeb_marc::is_tag;

/// The place of a subfield or field in a record: a tag, and a code where only subfields with that code are meant.
#[derive(Clone, Copy, Debug, PartialEq, Eq)]
pub struct UnitPattern {
    /// Three ASCII letters or digits, of a pattern that a profile spells.
    pub tag: [u8; 3],
    /// A printable ASCII character other than the space, of a pattern that a profile spells.
    pub code: Option<u8>,
}

impl UnitPattern {
    /// Whether a unit with this tag and code is meant: a tag alone fits every unit of that tag, tag and code fit
    /// the units that have just these. A control field has no code, so no pattern with a code fits it.
    pub fn fits(&self, tag: &[u8; 3], code: Option<u8>) -> bool
        ensures { result ≡ pattern_fits self.now tag.now code }
    {
        self.tag == *tag && (self.code.is_none() || self.code == code)
    }

    /// Reads a pattern as a profile spells it, `245` or `245$a`; `Pattern` where the word is none.
    pub(crate) fn read(word: &str) -> Result<UnitPattern, ProfileFaultKind>
        ensures { result ≡ pattern_of word.now }
    {
        match word.as_bytes() {
            [a, b, c] if is_tag(&[*a, *b, *c]) => Ok(UnitPattern {
                tag: [*a, *b, *c],
                code: None,
            }),
            [a, b, c, b'$', code] if is_tag(&[*a, *b, *c]) && code.is_ascii_graphic() => {
                Ok(UnitPattern {
                    tag: [*a, *b, *c],
                    code: Some(*code),
                })
            }
            _ => Err(ProfileFaultKind::Pattern),
        }
    }
}

impl fmt::Display for UnitPattern {
    ghost output = { λ pattern. Some (pattern_text pattern) };

    fn fmt<W: fmt::Write>(&self, f: &mut fmt::Formatter<W>) -> fmt::Result {
        let [a, b, c] = self.tag.map(char::from);
        match self.code.map(char::from) {
            None => write!(f, "{a}{b}{c}"),
            Some(code) => write!(f, "{a}{b}{c}${code}"),
        }
    }
}
