//! The postings of neighbouring terms, by the leaves that cover their blocks.

ghost use Rattle.std.specs.Prelude.{◌≡◌, [], false};
ghost use Rattle.std.specs.Cmp.Lexicographic.{slice_cmp};
ghost use Rattle.std.specs.Ordering.{is_lt, nat_cmp};
ghost use Rattle.sqlite.specs.Held.{state};
ghost use Rattle.zeb_leaves.specs.KeyReads.{TellsInTurn};
ghost use Rattle.zeb_register.specs.Connections.{LooksIntoOf};
ghost use Rattle.zeb_register.specs.Formats.{packed_leaves};
ghost use Rattle.zeb_register.specs.Units.{ListsTerms};

use crate::said_postings::postings_said;
use crate::spans::{span_leaves, spans_in};
use sqlite::{Alter, Connection};
use std::alloc::Global;
use zeb_blocks::Posting;
use zeb_leaf_rows::some_row;
use zeb_register::for_layouts::text_above;
use zeb_register::{RegFault, RegisterOf};

/// The postings of the terms of a register that are not below `first` and not above `last`, which isn't below `first`.
fn ordered_between<S: Alter>(
    alloc: Global,
    conn: &mut Connection<S>,
    at: RegisterOf,
    first: &str,
    last: &str,
) -> Result<Vec<Posting>, RegFault>
    requires { is_lt (slice_cmp nat_cmp last.now first.now) ≡ false }
    ensures units { ListsTerms packed_leaves at first.now last.now (state S.Store conn.old)
        (state S.Store conn.new) result }
    ensures turn { TellsInTurn at first.now last.now (state S.Store conn.old)
        (state S.Store conn.new) result }
{
    let end = text_above(alloc, last)?;
    let rows = span_leaves(alloc, conn, at, first, end.as_str())?;
    let held = spans_in(alloc, &rows, first.as_bytes(), end.as_str().as_bytes())?;
    Ok(postings_said(alloc, &held)?)
}

/// Whether a text comes before another one in the order of their bytes.
fn comes_before(text: &str, other: &str) -> bool
    ensures { result ≡ is_lt (slice_cmp nat_cmp text.now other.now) }
{
    text.as_bytes().cmp(other.as_bytes()).is_lt()
}

/// No postings. A closed connection is refused here too.
fn none_between<S: Alter>(
    alloc: Global,
    conn: &mut Connection<S>,
    at: RegisterOf,
) -> Result<Vec<Posting>, RegFault>
    ensures { LooksIntoOf S.Store conn.old conn.new result (λ _. ⊥) (λ _ list. list.items ≡ []) }
{
    some_row(conn, at)?;
    Ok(Vec::new(alloc))
}

/// The postings of the terms of a register that are not below `first` and not above `last`: those of each block once, as terms and their
/// blocks rise. The leaves of all these terms are held at once. `Damaged` only where a block of one of these terms is malformed.
pub fn postings_between<S: Alter>(
    alloc: Global,
    conn: &mut Connection<S>,
    at: RegisterOf,
    first: &str,
    last: &str,
) -> Result<Vec<Posting>, RegFault>
    ensures units { ListsTerms packed_leaves at first.now last.now (state S.Store conn.old)
        (state S.Store conn.new) result }
    ensures turn { TellsInTurn at first.now last.now (state S.Store conn.old)
        (state S.Store conn.new) result }
{
    if comes_before(last, first) {
        return none_between(alloc, conn, at);
    }
    ordered_between(alloc, conn, at, first, last)
}
