//! The first terms of a register from a text on, each with how many records have it, by the entries of its first leaves there.

ghost use Rattle.std.specs.Prelude.{◌≡◌, ◌⊎◌, ◌≤◌, ◌++◌, [], List, IsTrue, Some, IfSome, false};
ghost use Rattle.sqlite.specs.Held.{state};
ghost use Rattle.sqlite.specs.Order.{Row as Columns};
ghost use Rattle.zeb_leaves.specs.PrivateNearCalls.{MayTellBeside};
ghost use Rattle.zeb_leaves.specs.PrivateNearTerms.{CountRows, GoesPast, HideRows, HidesRow, StopsAt};
ghost use Rattle.zeb_leaves.specs.declared.near_terms.Side.TheVariants.{From};
ghost use Rattle.zeb_register.specs.Answers.{Answers, IfRowDamaged};

use crate::near_rows::{are_all, first_rows};
use crate::spans::own_key;
use crate::until_enough::{are_enough, row_until};
use sqlite::{Alter, Connection, Row};
use std::alloc::Global;
use zeb_leaf::BlockKey;
use zeb_register::{RegFault, RegisterOf, RowFault, TermCount};

/// Counts the entries of a row from the first key on and below the own key of the next row, and tells whether there are enough terms.
fn up_to_next(
    alloc: Global,
    counts: &mut Vec<TermCount>,
    row: &Row,
    from: BlockKey,
    next: BlockKey,
    n: u64,
) -> Result<bool, RowFault>
    ensures { Answers (IfRowDamaged (HidesRow n from.entry.term.now from.entry.block
        (Some (next.entry.term.now, next.entry.block)) row.now counts.old.items))
        (λ enough. (IsTrue enough × StopsAt n from.entry.term.now from.entry.block
        next.entry.term.now next.entry.block row.now counts.old.items counts.new.items)
        ⊎ ((enough ≡ false) × GoesPast n from.entry.term.now from.entry.block
        next.entry.term.now next.entry.block row.now counts.old.items counts.new.items)) result }
{
    let enough = row_until(alloc, counts, row, from, Some(next), n)?;
    Ok(enough || are_enough(counts, n, next.term))
}

/// The terms of the entries that rows have from the first text on, each with its records, until there are `n`: each row up to the own key
/// of the next. A row behind these isn't looked at. `None` where there are fewer below the last row's own key, and it isn't the last of all.
fn first_counts<'a>(
    alloc: Global,
    leaf: &'a Row,
    behind: &'a [Row],
    whole: bool,
    first: &'a [u8],
    n: u64,
) -> Result<Option<Vec<TermCount>>, RowFault>
    ensures { (rest : List Columns) → (IsTrue whole → rest ≡ []) → Answers
        (IfRowDamaged (HideRows n first.now 0 leaf.now (behind.now ++ rest) []))
        (λ found. IfSome found (λ counts.
        CountRows n first.now 0 leaf.now (behind.now ++ rest) [] counts.items)) result }
{
    let mut counts = Vec::new(alloc);
    let mut row = leaf;
    let mut from = BlockKey {
        term: first,
        block: 0,
    };
    for next in behind {
        let own = own_key(next)?;
        if up_to_next(alloc, &mut counts, row, from, own, n)? {
            return Ok(Some(counts));
        }
        row = next;
        from = own;
    }
    if !whole {
        return Ok(None);
    }
    row_until(alloc, &mut counts, row, from, None, n)?;
    Ok(Some(counts))
}

/// The first `n` terms from the start on, by the leaf that covers its first block and at most `limit` leaves behind. `None` where more leaves
/// have to be read.
pub(crate) fn first_within<S: Alter>(
    alloc: Global,
    conn: &mut Connection<S>,
    at: RegisterOf,
    leaf: &Row,
    start: &str,
    n: u64,
    limit: u32,
) -> Result<Option<Vec<TermCount>>, RegFault>
    requires { 1 ≤ n }
    ensures { MayTellBeside at start.now n (From leaf.now) (state S.Store conn.old)
        (state S.Store conn.new) result }
{
    let rows = first_rows(conn, at, start, limit)?;
    let whole = are_all(&rows, limit);
    let counts = first_counts(alloc, leaf, &rows, whole, start.as_bytes(), n)?;
    Ok(counts)
}
