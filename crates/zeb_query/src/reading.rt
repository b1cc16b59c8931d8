//! Reading a text as a query, or telling its fault.
ghost use Rattle.std.specs.Prelude.{IfOk, OnOk, IfErr};
ghost use Rattle.zeb_query.specs.Clauses.{SpellsQuery, query_value, IsReadable, IsFaultOf};

use crate::diagnostics::{Condition, Site};
use crate::grammar::query;
use crate::words::words_of;
use crate::{Query, QueryFault};
use std::alloc::Global;

/// The greatest length of a query's text in bytes, a limit of this project's own.
const MOST_BYTES: usize = 65_535;

/// Reads a query in the Prefix Query Format (YAZ manual, "Prefix Query Format").
///
/// Of the faults, 11 is a text of more than 65,535 bytes, at place 0. 108 stands at the first word that no query has
/// after the words before it, or at the text's end where more words are due. 6 stands at the 101st operator. Of 6 and
/// 108 the one with the smaller place is answered. A place counts bytes from the start of the text, and none of these
/// has an addinfo. These numbers, places and limits are this project's own.
pub fn read_pqf(alloc: Global, text: &str) -> Result<Query, QueryFault>
    ensures spelled { IfOk result (λ query. SpellsQuery text.now (query_value query)) }
    ensures readable { OnOk result (IsReadable text.now) }
    ensures faulty { IfErr result (λ e. IsFaultOf e text.now) }
{
    if text.len() > MOST_BYTES {
        return Err(Site { alloc, place: 0 }.refused(Condition::TooManyCharacters));
    }
    let words = words_of(alloc, text)?;
    query(alloc, &words, text.len())
}
