//! The one leaf that has all of neighbouring terms, in nearly every look by a single statement.

ghost use Rattle.std.specs.Prelude.{◌≡◌, ◌↔◌, true, IfSome, IsTrue};
ghost use Rattle.std.specs.Cmp.Lexicographic.{slice_cmp};
ghost use Rattle.std.specs.Ordering.{is_lt, nat_cmp};
ghost use Rattle.zeb_leaf_rows.specs.LeafRows.{IsLeafAt, IsLeafIn, IsOnlyLeaf, IsUncovered};
ghost use Rattle.zeb_leaf_rows.specs.PrivateLeafRows.{HasTermBelow};
ghost use Rattle.zeb_register.specs.Covering.{leaf_key};
ghost use Rattle.zeb_register.specs.Connections.{AsksOf, LooksIntoOf};

use crate::covering::{leaf_at, leaf_of_terms_below};
use sqlite::types::ValueRef;
use sqlite::{Alter, Connection, Error, Row};
use std::alloc::Global;
use zeb_register::for_layouts::text_above;
use zeb_register::{RegFault, RegisterOf};

/// Whether a row's own term is text, and below this one.
fn has_term_below(row: &Row, text: &str) -> bool
    ensures { IsTrue result ↔ HasTermBelow text.now row.now }
{
    match row.get_ref(0) {
        Ok(ValueRef::Text(term)) => term.cmp(text.as_bytes()).is_lt(),
        _ => false,
    }
}

/// The leaf that covers all blocks of the terms from the first text on and below the end, where its own term is below the first text. `None`
/// where another leaf may have a part of these terms, or there is none.
///
/// On a store's tables it fails only where the store may refuse, or for want of memory. It changes nothing.
pub fn only_leaf<S: Alter>(
    conn: &mut Connection<S>,
    at: RegisterOf,
    first: &str,
    end: &str,
) -> Result<Option<Row>, Error>
    requires { is_lt (slice_cmp nat_cmp first.now end.now) ≡ true }
    ensures { AsksOf S.Store conn.old conn.new result (λ trees found. IfSome found
        (λ leaf. IsOnlyLeaf (IsLeafIn trees at) first.now end.now leaf)) }
{
    // Of the leaves of all terms below the end this is the greatest: where it is below the first text, none stands between them.
    let Some(leaf) = leaf_of_terms_below(conn, at, end)? else {
        return Ok(None);
    };
    if has_term_below(&leaf, first) {
        return Ok(Some(leaf));
    }
    Ok(None)
}

/// The leaf that covers the first block of a text; `None` where the register has no leaf. `Damaged` just where it has one, and none covers it.
///
/// On a store's tables `Store` is answered only where the store may refuse, and `Memory` for want of memory. It changes nothing.
pub fn leaf_from<S: Alter>(
    alloc: Global,
    conn: &mut Connection<S>,
    at: RegisterOf,
    first: &str,
) -> Result<Option<Row>, RegFault>
    ensures { LooksIntoOf S.Store conn.old conn.new result
        (λ trees. IsUncovered (IsLeafIn trees at) (leaf_key first.now 0))
        (λ trees found. IsLeafAt (IsLeafIn trees at) (leaf_key first.now 0) found) }
{
    let end = text_above(alloc, first)?;
    match only_leaf(conn, at, first, end.as_str())? {
        Some(leaf) => Ok(Some(leaf)),
        None => leaf_at(conn, at, first, 0),
    }
}
