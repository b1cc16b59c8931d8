//! Why a text is no query, or a query has no plan.
ghost use Rattle.std.specs.Prelude.{◌≡◌};
ghost use Rattle.zeb_query.specs.declared.faults.QueryFault.TheVariants.{Memory};

use std::alloc::{AllocError, AllocFailed};
use thiserror::Error;

/// Why a text is no query, or a query has no plan.
#[derive(Debug, Drop, Error)]
pub enum QueryFault {
    /// A diagnostic by its number in the list of Bib-1 (ANSI/NISO Z39.50-2003, Appendix ERR). Which fault has which number
    /// is this project's own choice.
    #[error("diagnostic {number} at {place}{}{addinfo}", before(.addinfo.as_str()))]
    Diagnostic {
        /// The diagnostic's number.
        number: u32,
        /// A position in bytes from the start of the query's text. Of a text that is no query: that of the word at which no query goes
        /// on, of the operator that is too many, or of the end where a word is due; 0 of a text that is too long. Of a query: that of
        /// the term, whatever attribute over it is at fault, of `@set`, or of the operator.
        place: usize,
        /// The value or the word that the diagnostic is about; always empty for 5, 6, 11, 108, 116 and 123.
        addinfo: String,
    },
    /// Memory ran out.
    #[error("out of memory")]
    Memory,
}

/// What is printed before an addinfo; nothing where there is none.
fn before(addinfo: &str) -> &'static str {
    if addinfo.is_empty() { "" } else { ": " }
}

impl From<AllocError> for QueryFault {
    ghost from_gives = { λ _ e. e ≡ Memory };

    fn from(_error: AllocError) -> QueryFault {
        QueryFault::Memory
    }
}

impl<T: Drop> From<AllocFailed<T>> for QueryFault {
    ghost from_gives = { λ _ e. e ≡ Memory };

    fn from(_error: AllocFailed<T>) -> QueryFault {
        QueryFault::Memory
    }
}
