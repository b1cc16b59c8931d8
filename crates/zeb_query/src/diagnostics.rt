//! The diagnostics by which a text or a query is refused.
ghost use Rattle.std.specs.Prelude.{[]};
ghost use Rattle.zeb_query.specs.PrivateReading.{IsDiagnostic, condition_number};

use crate::QueryFault;
use std::alloc::Global;

/// A condition of the list Bib-1 (ANSI/NISO Z39.50-2003, Appendix ERR).
#[derive(Clone, Copy, PartialEq, Eq)]
pub(crate) enum Condition {
    TooManyWords = 5,
    TooManyOperators = 6,
    TooManyCharacters = 11,
    ResultSet = 18,
    MalformedQuery = 108,
    Operator = 110,
    AttributeType = 113,
    UseAttribute = 114,
    NoUseAttribute = 116,
    Relation = 117,
    Structure = 118,
    Position = 119,
    Truncation = 120,
    AttributeSet = 121,
    Completeness = 122,
    /// Values that aren't taken together, or not for the purpose; an index without the searched register; operands of `@prox` in two indexes, or
    /// not of one word each.
    Combination = 123,
    /// A term that isn't the number that its attributes ask for.
    TermValue = 126,
    TermType = 229,
}

/// Where a text or a query may be refused: a position in bytes from the start of the text.
#[derive(Clone, Copy)]
pub(crate) struct Site {
    pub alloc: Global,
    pub place: usize,
}

impl Site {
    /// A diagnostic without an addinfo.
    pub(crate) fn refused(self, condition: Condition) -> QueryFault
        ensures { IsDiagnostic result (condition_number condition) self.place [] }
    {
        self.about(condition, "")
    }

    /// A diagnostic about a text. Where there is no memory for that, the fault is `Memory`.
    pub(crate) fn about(self, condition: Condition, text: &str) -> QueryFault
        ensures { IsDiagnostic result (condition_number condition) self.place text.now }
    {
        match String::from_str(self.alloc, text) {
            Ok(addinfo) => QueryFault::Diagnostic {
                number: condition as u32,
                place: self.place,
                addinfo,
            },
            Err(_) => QueryFault::Memory,
        }
    }
}
