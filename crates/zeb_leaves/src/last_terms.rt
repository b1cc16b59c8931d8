//! The last terms of a register below a text, each with how many records have it, by the entries of its last leaves there.

ghost use Rattle.std.specs.Prelude.{◌≡◌, ◌↔◌, ◌⊎◌, ◌≤◌, ◌++◌, [], List, IsTrue, IfSome, false, reverse};
ghost use Rattle.sqlite.specs.Held.{state};
ghost use Rattle.sqlite.specs.Order.{Row as Columns};
ghost use Rattle.zeb_leaf_rows.specs.LeafRows.{IsLeafIn};
ghost use Rattle.zeb_leaves.specs.PrivateNearCalls.{MayTellBeside};
ghost use Rattle.zeb_leaves.specs.PrivateNearTerms.{AreEnoughAt, CountBelow, CountsDown, GoesDown, HideBelow};
ghost use Rattle.zeb_leaves.specs.PrivateNearTerms.{HidesDown, StopsDown};
ghost use Rattle.zeb_leaves.specs.declared.near_terms.Side.TheVariants.{Below};
ghost use Rattle.zeb_register.specs.Answers.{Answers, IfRowDamaged};
ghost use Rattle.zeb_register.specs.Connections.{LooksIntoOf};

use crate::near_rows::{are_all, last_rows};
use crate::own_entries::own_entries;
use crate::spans::own_key;
use crate::until_enough::{are_enough, entries_until};
use sqlite::{Alter, Connection, Row};
use std::alloc::Global;
use zeb_leaf::BlockKey;
use zeb_leaf_rows::no_leaf;
use zeb_register::{RegFault, RegisterOf, RowFault, TermCount};

/// Whether no entry of a key below this one is of one of the `n` terms that are counted.
fn are_enough_at(counts: &[TermCount], n: u64, own: BlockKey) -> bool
    ensures { IsTrue result ↔ AreEnoughAt n counts.now own.entry.term.now own.entry.block }
{
    are_enough(counts, n, own.term) || own.block == 0 && counts.len() as u64 == n
}

/// Counts the entries of a row from its own key on and below the end, the greatest first, until there are enough terms. Tells whether
/// there are.
fn row_down(
    alloc: Global,
    counts: &mut Vec<TermCount>,
    row: &Row,
    own: BlockKey,
    end: BlockKey,
    n: u64,
) -> Result<bool, RowFault>
    ensures { Answers (IfRowDamaged (HidesDown n end.entry.term.now end.entry.block
        own.entry.term.now own.entry.block row.now counts.old.items))
        (λ enough. CountsDown n end.entry.term.now end.entry.block
        own.entry.term.now own.entry.block row.now counts.old.items counts.new.items enough)
        result }
{
    let mut entries = own_entries(alloc, row, own, Some(end))?;
    entries.reverse();
    entries_until(alloc, counts, &entries, n)
}

/// The same, and tells whether there are enough terms at the row's own key.
fn down_to_own(
    alloc: Global,
    counts: &mut Vec<TermCount>,
    row: &Row,
    own: BlockKey,
    end: BlockKey,
    n: u64,
) -> Result<bool, RowFault>
    ensures { Answers (IfRowDamaged (HidesDown n end.entry.term.now end.entry.block
        own.entry.term.now own.entry.block row.now counts.old.items))
        (λ enough. (IsTrue enough × StopsDown n end.entry.term.now end.entry.block
        own.entry.term.now own.entry.block row.now counts.old.items counts.new.items)
        ⊎ ((enough ≡ false) × GoesDown n end.entry.term.now end.entry.block
        own.entry.term.now own.entry.block row.now counts.old.items counts.new.items)) result }
{
    let enough = row_down(alloc, counts, row, own, end, n)?;
    Ok(enough || are_enough_at(counts, n, own))
}

/// Whether no key is below this one.
fn is_least(key: BlockKey) -> bool
    ensures { IsTrue result ↔ ((key.entry.term.now ≡ []) × (key.entry.block ≡ 0)) }
{
    key.term.is_empty() && key.block == 0
}

/// The terms of the entries that rows have below the text, the greatest first and each with its records, until there are `n`: each row down
/// from the own key of the one before. A row behind these isn't looked at. Where there are fewer, `None` if these aren't all rows, and else
/// `Damaged` if a key is below all.
fn last_counts<'a>(
    alloc: Global,
    rows: &'a [Row],
    whole: bool,
    start: &'a [u8],
    n: u64,
) -> Result<Option<Vec<TermCount>>, RowFault>
    ensures { (rest : List Columns) → (IsTrue whole → rest ≡ []) → Answers
        (IfRowDamaged (HideBelow n start.now 0 (rows.now ++ rest) []))
        (λ found. IfSome found (λ counts.
        CountBelow n start.now 0 (rows.now ++ rest) [] counts.items)) result }
{
    let mut counts = Vec::new(alloc);
    let mut end = BlockKey {
        term: start,
        block: 0,
    };
    for row in rows {
        let own = own_key(row)?;
        if down_to_own(alloc, &mut counts, row, own, end, n)? {
            return Ok(Some(counts));
        }
        end = own;
    }
    if !whole {
        return Ok(None);
    }
    if is_least(end) {
        return Ok(Some(counts));
    }
    Err(RowFault::Damaged)
}

/// The same, in the order of their bytes.
fn terms_below(
    alloc: Global,
    rows: &[Row],
    whole: bool,
    start: &[u8],
    n: u64,
) -> Result<Option<Vec<TermCount>>, RowFault>
    ensures { (rest : List Columns) → (IsTrue whole → rest ≡ []) → Answers
        (IfRowDamaged (HideBelow n start.now 0 (rows.now ++ rest) []))
        (λ found. IfSome found (λ list. (counts : List _)
        × CountBelow n start.now 0 (rows.now ++ rest) [] counts × (list.items ≡ reverse counts)))
        result }
{
    let Some(mut counts) = last_counts(alloc, rows, whole, start, n)? else {
        return Ok(None);
    };
    counts.reverse();
    Ok(Some(counts))
}

/// No terms, where the register has no leaf. `Damaged` where it has one.
fn no_leaf_terms<S: Alter>(
    alloc: Global,
    conn: &mut Connection<S>,
    at: RegisterOf,
) -> Result<Option<Vec<TermCount>>, RegFault>
    ensures { LooksIntoOf S.Store conn.old conn.new result (λ trees. (leaf : _)
        × IsLeafIn trees at leaf) (λ trees found. IfSome found
        (λ list. list.items ≡ []) × ((leaf : _) → ¬ IsLeafIn trees at leaf)) }
{
    no_leaf(conn, at)?;
    Ok(Some(Vec::new(alloc)))
}

/// The last `n` terms below the start, by at most `limit` leaves below it. `None` where more leaves have to be read.
pub(crate) fn last_within<S: Alter>(
    alloc: Global,
    conn: &mut Connection<S>,
    at: RegisterOf,
    start: &str,
    n: u64,
    limit: u32,
) -> Result<Option<Vec<TermCount>>, RegFault>
    requires { (1 ≤ n) × (1 ≤ limit) }
    ensures { MayTellBeside at start.now n Below (state S.Store conn.old)
        (state S.Store conn.new) result }
{
    let rows = last_rows(conn, at, start, limit)?;
    if rows.is_empty() {
        return no_leaf_terms(alloc, conn, at);
    }
    let whole = are_all(&rows, limit);
    Ok(terms_below(alloc, &rows, whole, start.as_bytes(), n)?)
}
