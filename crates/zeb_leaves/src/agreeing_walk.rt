//! The rows of `blocks` of a database, read one at a time beside the postings that are expected of it.

ghost use Rattle.std.specs.Prelude.{◌≤◌, List, length, drop, IfOk, IfSome, MatchOption};
ghost use Rattle.std.specs.List.Sorted.{IsStrictlySortedBy};
ghost use Rattle.zeb_leaf.specs.Order.{entry_cmp};
ghost use Rattle.zeb_leaves.specs.PrivateAgreeing.{Leaf, ReadsLeaves, TakesLeaf, before_of, leaf_of};
ghost use Rattle.zeb_register.specs.Connections.{IsReasonedErrorOf, ReadingOf};

use crate::agreeing_entries::entries_end;
use crate::agreeing_rows::{ShownLeaf, follows, whole_leaf};
use sqlite::{Alter, Connection, Error, Row, params};
use std::alloc::{AllocError, Global};
use zeb_register::KeyPosting;

const LEAVES: &str =
    "SELECT idx, reg, term, block, data FROM blocks WHERE db = ?1 ORDER BY idx, reg, term, block";

/// A leaf that took its postings, and where the others begin.
#[derive(Drop)]
struct Taken {
    leaf: ShownLeaf,
    end: usize,
}

/// The leaf that a row shows, if it may come behind the one before it, and its entries say the postings from a place on.
fn leaf_behind(
    alloc: Global,
    before: &Option<ShownLeaf>,
    row: &Row,
    postings: &[KeyPosting],
    at: usize,
) -> Result<Option<Taken>, AllocError>
    requires { at ≤ length postings.now }
    ensures { IfSome before.now (λ one. IsStrictlySortedBy entry_cmp one.entries.items)
        → IfOk result (λ found. MatchOption found ((leaf : Leaf) (rest : List KeyPosting)
        → ¬ TakesLeaf (before_of before.now) row.now leaf (drop at postings.now) rest)
        (λ taken. (taken.end ≤ length postings.now) × TakesLeaf (before_of before.now) row.now
        (leaf_of taken.leaf) (drop at postings.now) (drop taken.end postings.now))) }
{
    let Some(leaf) = whole_leaf(alloc, row)? else {
        return Ok(None);
    };
    if !follows(before, &leaf) {
        return Ok(None);
    }
    let Some(end) = entries_end(alloc, &leaf, &leaf.entries, postings, at)? else {
        return Ok(None);
    };
    Ok(Some(Taken { leaf, end }))
}

/// Whether the leaves of a database hold these postings and nothing else. Two leaves are held at most: that of the
/// row which is read, and the one before it.
pub(crate) fn leaves_walked<S: Alter>(
    alloc: Global,
    conn: &mut Connection<S>,
    db: i64,
    postings: &[KeyPosting],
) -> Result<bool, Error>
    ensures call { ReadingOf S.Store conn.old conn.new result (ReadsLeaves db postings.now) }
    ensures refused { IsReasonedErrorOf S.Store conn.old conn.new result }
{
    // Nobody reads it. Its contract says that what is seen outside a transaction is what was committed.
    let _idle = conn.is_autocommit();
    let mut rows = conn.query(LEAVES, params![db])?;
    let mut before: Option<ShownLeaf> = None;
    let mut at = 0;
    // A leaf may have no entries, so that there may be more rows than postings.
    'rows: for _turn in 0..u64::MAX {
        let Some(row) = rows.next()? else {
            return Ok(at == postings.len());
        };
        let Some(taken) = leaf_behind(alloc, &before, row, postings, at)? else {
            return Ok(false);
        };
        at = taken.end;
        before = Some(taken.leaf);
    }
    // So many rows no store has.
    Err(Error::from(AllocError))
}
