//! The values of a term's attributes that are kept, each type an enum of its own.
ghost use Rattle.std.specs.Prelude.{◌≡◌, option_copied};
ghost use Rattle.zeb_query.specs.Attributes as values;

use crate::Relation;
use crate::digits::short_number;
use zeb_text::Cut;

/// What a relation attribute asks for (Bib-1, attribute type 2).
#[derive(Clone, Copy, Debug, PartialEq, Eq)]
pub enum Asked {
    /// Values 1 to 5.
    Compared(Relation),
    /// 103, always matches.
    Always,
}

/// Where in a field a term stands (Bib-1, attribute type 3).
#[derive(Clone, Copy, Debug, PartialEq, Eq)]
pub enum Position {
    /// 1, first in field, and 2, first in subfield, which this project treats alike.
    First,
    /// 3, any position.
    Any,
}

/// How a term that is looked up in an index is read (Bib-1, attribute type 4).
#[derive(Clone, Copy, Debug, PartialEq, Eq)]
pub enum Structure {
    /// 1, phrase, and 2, word, which this project treats alike.
    Phrase,
    /// 6, word list.
    WordList,
    /// 105, free-form text.
    FreeForm,
    /// 109, numeric string.
    Numeric,
}

/// How much of a field a term stands for (Bib-1, attribute type 6).
#[derive(Clone, Copy, Debug, PartialEq, Eq)]
pub enum Completeness {
    /// 1, incomplete subfield.
    Incomplete,
    /// 2, complete subfield, and 3, complete field, which this project treats alike.
    Complete,
}

/// The number that an attribute's value spells, or the default where there is no attribute of the type.
fn number_or(text: Option<&str>, default: u32) -> Option<u32>
    ensures { result ≡ values.number_or default (option_copied text.entry) }
{
    match text {
        None => Some(default),
        Some(text) => short_number(text),
    }
}

/// The relation, equal where there is no attribute; `None` for a value that isn't supported.
pub(crate) fn relation_of(text: Option<&str>) -> Option<Asked>
    ensures { result ≡ values.relation_of (option_copied text.entry) }
{
    match number_or(text, 3)? {
        1 => Some(Asked::Compared(Relation::Less)),
        2 => Some(Asked::Compared(Relation::LessOrEqual)),
        3 => Some(Asked::Compared(Relation::Equal)),
        4 => Some(Asked::Compared(Relation::GreaterOrEqual)),
        5 => Some(Asked::Compared(Relation::Greater)),
        103 => Some(Asked::Always),
        _ => None,
    }
}

/// The position, any where there is no attribute; `None` for a value that isn't supported.
pub(crate) fn position_of(text: Option<&str>) -> Option<Position>
    ensures { result ≡ values.position_of (option_copied text.entry) }
{
    match number_or(text, 3)? {
        1 | 2 => Some(Position::First),
        3 => Some(Position::Any),
        _ => None,
    }
}

/// Whether the structure is 107, local number, which this project reads as the record's system number, in no index.
pub(crate) fn is_local_number(text: Option<&str>) -> bool
    ensures { result ≡ values.is_local_number (option_copied text.entry) }
{
    number_or(text, 1) == Some(107)
}

/// The structure of a term that is looked up in an index, a phrase where there is no attribute; `None` for a value that isn't supported.
pub(crate) fn structure_of(text: Option<&str>) -> Option<Structure>
    ensures { result ≡ values.structure_of (option_copied text.entry) }
{
    match number_or(text, 1)? {
        1 | 2 => Some(Structure::Phrase),
        6 => Some(Structure::WordList),
        105 => Some(Structure::FreeForm),
        109 => Some(Structure::Numeric),
        _ => None,
    }
}

/// The truncation (Bib-1, attribute type 5), none where there is no attribute; `None` for a value that isn't supported.
pub(crate) fn truncation_of(text: Option<&str>) -> Option<Cut>
    ensures { result ≡ values.truncation_of (option_copied text.entry) }
{
    match number_or(text, 100)? {
        1 => Some(Cut::Right),
        2 => Some(Cut::Left),
        3 => Some(Cut::Both),
        100 => Some(Cut::None),
        101 => Some(Cut::Hash),
        _ => None,
    }
}

/// The completeness, incomplete where there is no attribute; `None` for a value that isn't supported.
pub(crate) fn completeness_of(text: Option<&str>) -> Option<Completeness>
    ensures { result ≡ values.completeness_of (option_copied text.entry) }
{
    match number_or(text, 1)? {
        1 => Some(Completeness::Incomplete),
        2 | 3 => Some(Completeness::Complete),
        _ => None,
    }
}
