//! The values of a term's attributes, and which of them are taken together.
ghost use Rattle.std.specs.Prelude.{◌≡◌};
ghost use Rattle.zeb_query.specs.Attributes as values;
ghost use Rattle.zeb_query.specs.Checks as checks;

use crate::Relation;
use crate::attributes::{Asked, Completeness, Position, Structure};
use zeb_keys::Register;
use zeb_profile::Profile;
use zeb_text::{Cut, Spread};

/// What a term names, by its structure.
#[derive(Clone, Copy, Debug, PartialEq, Eq)]
pub enum Subject {
    /// A local number: the record with that system number, which is in no index.
    Record,
    /// Another structure: entries of the index of the use attribute.
    Entries {
        /// Its number in the profile, from 0.
        index: u32,
        structure: Structure,
    },
}

/// What a term is for.
#[derive(Clone, Copy, PartialEq, Eq)]
pub enum Purpose {
    Find,
    /// To begin a scan.
    Scan,
    /// To stand near another term.
    Near,
}

/// The values of a term's attributes, each supported, of which the definitions of checks and plans speak.
#[derive(Clone, Copy, Debug, PartialEq, Eq)]
pub struct Values {
    /// By the use attribute and the structure.
    pub subject: Subject,
    pub relation: Asked,
    pub position: Position,
    pub truncation: Cut,
    pub completeness: Completeness,
}

impl Values {
    fn is_equal(&self) -> bool
        ensures { result ≡ values.is_equal self.now.relation }
    {
        matches!(self.relation, Asked::Compared(Relation::Equal))
    }

    fn is_ordered(&self) -> bool
        ensures { result ≡ values.is_ordered self.now.relation }
    {
        self.relation != Asked::Always && !self.is_equal()
    }

    pub(crate) fn is_first(&self) -> bool
        ensures { result ≡ values.is_first self.now.position }
    {
        self.position == Position::First
    }

    fn is_complete(&self) -> bool
        ensures { result ≡ values.is_complete self.now.completeness }
    {
        self.completeness == Completeness::Complete
    }

    fn is_truncated(&self) -> bool
        ensures { result ≡ values.is_truncated self.now.truncation }
    {
        !matches!(self.truncation, Cut::None)
    }

    pub(crate) fn is_numeric(&self) -> bool
        ensures { result ≡ values.is_numeric self.now.subject }
    {
        match self.subject {
            Subject::Record => false,
            Subject::Entries { structure, .. } => structure == Structure::Numeric,
        }
    }

    fn is_list(&self) -> bool
        ensures { result ≡ values.is_list self.now.subject }
    {
        match self.subject {
            Subject::Record => false,
            Subject::Entries { structure, .. } => {
                matches!(structure, Structure::WordList | Structure::FreeForm)
            }
        }
    }

    /// Whether the words of the term are compared: it is no number, and the relation isn't "always matches".
    pub(crate) fn compares_words(&self) -> bool
        ensures { result ≡ values.compares_words self.now.subject self.now.relation }
    {
        self.subject != Subject::Record && self.relation != Asked::Always && !self.is_numeric()
    }

    /// Whether a position, a truncation or a completeness is asked for.
    fn is_limited(&self) -> bool
        ensures { result ≡ checks.is_limited self.now }
    {
        self.is_first() || self.is_truncated() || self.is_complete()
    }

    /// Whether the values aren't taken together with what the term names.
    fn clashes_with_subject(&self) -> bool
        ensures { result ≡ checks.clashes_with self.now.subject self.now }
    {
        let Subject::Entries { structure, .. } = self.subject else {
            return self.is_limited() || !self.is_equal();
        };
        match structure {
            Structure::Numeric => self.is_limited(),
            Structure::Phrase => false,
            Structure::WordList | Structure::FreeForm => {
                self.is_first() || self.is_complete() || self.is_ordered()
            }
        }
    }

    /// Whether the values aren't taken together for the purpose.
    pub(crate) fn clashes(&self, purpose: Purpose) -> bool
        ensures { result ≡ checks.clashes purpose self.now }
    {
        let order = self.is_ordered() && (self.is_first() || self.is_truncated());
        self.clashes_with_subject() || order || self.is_beyond(purpose)
    }

    /// Whether a scan, or a word near another, doesn't take the values, though a find may.
    fn is_beyond(&self, purpose: Purpose) -> bool
        ensures { result ≡ checks.is_beyond purpose self.now }
    {
        match purpose {
            Purpose::Find => false,
            Purpose::Scan => {
                !self.is_equal() || self.is_first() || self.is_truncated() || self.is_list()
            }
            Purpose::Near => {
                !self.is_equal()
                    || self.is_first()
                    || self.is_complete()
                    || self.is_list()
                    || self.is_numeric()
            }
        }
    }

    pub(crate) fn register(&self) -> Register
        ensures { result ≡ values.register_of self.now }
    {
        if self.is_numeric() {
            Register::Number
        } else if self.is_complete() {
            Register::Phrase
        } else {
            Register::Word
        }
    }

    /// Whether the index has no target with the register that is searched; a system number is searched in none.
    pub(crate) fn lacks_register(&self, profile: &Profile) -> bool
        ensures { result
            ≡ checks.lacks_register profile.now (values.register_of self.now) self.now.subject }
    {
        match self.subject {
            Subject::Record => false,
            Subject::Entries { index, .. } => !profile.has(index, self.register()),
        }
    }

    /// Where the stars of the truncation stand.
    pub(crate) fn spread(&self) -> Spread
        ensures { result ≡ values.spread_of self.now.subject }
    {
        if self.is_list() {
            Spread::Each
        } else {
            Spread::Ends
        }
    }
}
