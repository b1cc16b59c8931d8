//! The attributes and the term type that hold over a term, the innermost of each type.
ghost use Rattle.std.specs.Prelude.{◌≡◌, List, ℕ, Option, option_map, string_bytes};
ghost use Rattle.zeb_query.specs.Clauses.{is_bib1, holding_of, attribute_value, head_value, query_value, HeadValue, heads, no_head, holding_value, held_with, with_set};

use crate::{Attribute, Head, Query};

/// What the attributes and term types over a term or an operator come to.
///
/// For each type the innermost attribute holds. One that an inner one replaces still counts for the faults of its set
/// and of its type, of which the leftmost is told.
#[derive(Clone, Copy, Default)]
pub(crate) struct Holding<'a> {
    /// The leftmost name of an attribute set other than Bib-1.
    pub other_set: Option<&'a str>,
    /// The leftmost attribute type outside 1 to 6.
    pub other_kind: Option<u32>,
    /// The innermost term type.
    pub term_type: Option<&'a str>,
    /// The values that hold, as written.
    pub use_attribute: Option<&'a str>,
    pub relation: Option<&'a str>,
    pub position: Option<&'a str>,
    pub structure: Option<&'a str>,
    pub truncation: Option<&'a str>,
    pub completeness: Option<&'a str>,
}

impl<'a> Holding<'a> {
    /// What holds over the whole of a query.
    pub(crate) fn over(query: &'a Query) -> Holding<'a>
        ensures { holding_value result ≡ holding_of (query_value query.now).attrset no_head }
    {
        let mut holding = Holding::default();
        holding.name_set(&query.attrset);
        holding
    }

    /// What holds where also the head stands.
    pub(crate) fn within(self, head: &'a Head) -> Holding<'a>
        ensures { (set : Option (List ℕ)) (outer : HeadValue)
            → holding_value self.entry ≡ holding_of set outer
            → holding_value result ≡ holding_of set (heads outer (head_value head.now)) }
    {
        let mut holding = self;
        for attribute in &head.attributes {
            holding.add(attribute);
        }
        if let Some(term_type) = &head.term_type {
            holding.term_type = Some(term_type.as_str());
        }
        holding
    }

    /// Adds an attribute inside of all others.
    fn add(&mut self, attribute: &'a Attribute)
        ensures { holding_value self.new
            ≡ held_with (holding_value self.old) (attribute_value attribute.now) }
    {
        self.name_set(&attribute.set);
        let value = Some(attribute.value.as_str());
        match attribute.kind {
            1 => self.use_attribute = value,
            2 => self.relation = value,
            3 => self.position = value,
            4 => self.structure = value,
            5 => self.truncation = value,
            6 => self.completeness = value,
            kind => {
                if self.other_kind.is_none() {
                    self.other_kind = Some(kind);
                }
            }
        }
    }

    fn name_set(&mut self, set: &'a Option<String>)
        ensures { holding_value self.new
            ≡ with_set (holding_value self.old) (option_map string_bytes set.now) }
    {
        match set {
            Some(set) if self.other_set.is_none() && !is_bib1(set.as_str()) => {
                self.other_set = Some(set.as_str());
            }
            _ => {}
        }
    }
}

/// Whether a text names the attribute set Bib-1: `bib-1`, letters of either case, or its object identifier.
fn is_bib1(set: &str) -> bool
    ensures { result ≡ is_bib1 set.now }
{
    set.eq_ignore_ascii_case("bib-1") || set == "1.2.840.10003.3.1"
}
