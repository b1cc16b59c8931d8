//! Statements that put many rows at once, and the values that they put.

ghost use Rattle.std.specs.Prelude.{◌≡◌, ◌++◌, List, map, IfOk, OnOk};
ghost use Rattle.sqlite.specs.Held.{state};
ghost use Rattle.sqlite.specs.Values.{bound};
ghost use Rattle.zeb_packed.specs.PrivateNewRows.{AreLacking, AreValuesOf, GainsAll, joined, new_block_row, new_count_row};
ghost use Rattle.zeb_register.specs.Calls.{GoesOn};
ghost use Rattle.zeb_register.specs.Connections.{ChangesTableOf, InStoreOf, InsideOf};
ghost use Rattle.zeb_register.specs.PrivateRowStatements.{IsUnchangedByViolation};
ghost use Rattle.zeb_register.specs.Store.{blocks_tree, dict_tree};

use crate::new_rows::{NewBlock, NewCount};
use sqlite::types::ValueRef;
use sqlite::{Alter, Error, Transaction, params};
use std::alloc::Global;
use zeb_register::DatabaseId;
use zeb_register::for_layouts::stored;

/// So many rows are put at once. With twice as many, what statements save is lost on the rows that are left over, which are put one by one.
pub(crate) const MANY: usize = 32;

/// Puts as many rows of `blocks`.
const ADD_BLOCKS: &str =
    "INSERT INTO blocks VALUES (?, ?, ?, ?, ?, ?), (?, ?, ?, ?, ?, ?), (?, ?, ?, ?, ?, ?), (?, ?, ?, ?, ?, ?), (?, ?, ?, ?, ?, ?), (?, ?, ?, ?, ?, ?), (?, ?, ?, ?, ?, ?), (?, ?, ?, ?, ?, ?), (?, ?, ?, ?, ?, ?), (?, ?, ?, ?, ?, ?), (?, ?, ?, ?, ?, ?), (?, ?, ?, ?, ?, ?), (?, ?, ?, ?, ?, ?), (?, ?, ?, ?, ?, ?), (?, ?, ?, ?, ?, ?), (?, ?, ?, ?, ?, ?), (?, ?, ?, ?, ?, ?), (?, ?, ?, ?, ?, ?), (?, ?, ?, ?, ?, ?), (?, ?, ?, ?, ?, ?), (?, ?, ?, ?, ?, ?), (?, ?, ?, ?, ?, ?), (?, ?, ?, ?, ?, ?), (?, ?, ?, ?, ?, ?), (?, ?, ?, ?, ?, ?), (?, ?, ?, ?, ?, ?), (?, ?, ?, ?, ?, ?), (?, ?, ?, ?, ?, ?), (?, ?, ?, ?, ?, ?), (?, ?, ?, ?, ?, ?), (?, ?, ?, ?, ?, ?), (?, ?, ?, ?, ?, ?)";

/// Puts as many rows of `dict`.
const ADD_COUNTS: &str =
    "INSERT INTO dict VALUES (?, ?, ?, ?, ?), (?, ?, ?, ?, ?), (?, ?, ?, ?, ?), (?, ?, ?, ?, ?), (?, ?, ?, ?, ?), (?, ?, ?, ?, ?), (?, ?, ?, ?, ?), (?, ?, ?, ?, ?), (?, ?, ?, ?, ?), (?, ?, ?, ?, ?), (?, ?, ?, ?, ?), (?, ?, ?, ?, ?), (?, ?, ?, ?, ?), (?, ?, ?, ?, ?), (?, ?, ?, ?, ?), (?, ?, ?, ?, ?), (?, ?, ?, ?, ?), (?, ?, ?, ?, ?), (?, ?, ?, ?, ?), (?, ?, ?, ?, ?), (?, ?, ?, ?, ?), (?, ?, ?, ?, ?), (?, ?, ?, ?, ?), (?, ?, ?, ?, ?), (?, ?, ?, ?, ?), (?, ?, ?, ?, ?), (?, ?, ?, ?, ?), (?, ?, ?, ?, ?), (?, ?, ?, ?, ?), (?, ?, ?, ?, ?), (?, ?, ?, ?, ?), (?, ?, ?, ?, ?)";

/// Puts as many rows of `blocks` at once, whose values these are. It is refused where one of the keys has a row for its block.
pub(crate) fn blocks_add<S: Alter>(
    tx: &mut Transaction<'_, S>,
    values: &[ValueRef<'_>],
) -> Result<usize, Error>
    ensures call { InsideOf S.Store tx.old.conn tx.new.conn result (λ _. GoesOn) }
    ensures put { (db : _) (blocks : List _)
        → AreValuesOf (new_block_row db) blocks (bound values.now)
        → ChangesTableOf S.Store tx.old.conn tx.new.conn blocks_tree result
        (λ _. GainsAll (map (new_block_row db) blocks)) }
    ensures lacking { (db : _) (blocks : List _)
        → AreValuesOf (new_block_row db) blocks (bound values.now)
        → InStoreOf S.Store tx.old.conn tx.new.conn (λ trees. OnOk result
        (AreLacking db blocks trees)) }
    ensures violated { IsUnchangedByViolation (state S.Store tx.old.conn.now)
        (state S.Store tx.new.conn.now) result }
{
    tx.execute(ADD_BLOCKS, values)
}

/// The values of rows of `blocks`, one row behind the other.
pub(crate) fn block_values<'a, 'b>(
    alloc: Global,
    db: DatabaseId,
    blocks: &'a [NewBlock<'b>],
) -> Result<Vec<ValueRef<'a>>, Error>
    ensures values { IfOk result (λ values.
        bound values.items ≡ joined (map (new_block_row db.0) blocks.now)) }
{
    let mut values = Vec::new(alloc);
    for one in blocks {
        add_block_values(&mut values, db, one)?;
    }
    Ok(values)
}

/// Puts the values of a row behind those before it.
fn add_block_values<'a, 'b>(
    values: &mut Vec<ValueRef<'a>>,
    db: DatabaseId,
    one: &'a NewBlock<'b>,
) -> Result<(), Error>
    ensures added { OnOk result
        (bound values.new.items ≡ bound values.old.items ++ new_block_row db.0 one.now) }
{
    let db = db.column();
    let reg = u32::from(one.key.register.code());
    let term = one.key.term.as_str();
    let number = stored(one.block)?;
    values.extend_from_slice(params![db, one.key.index, reg, term, number, &one.bytes])?;
    Ok(())
}

/// Puts as many rows of `dict` at once, whose values these are. It is refused where one of the keys has a row.
pub(crate) fn counts_add<S: Alter>(
    tx: &mut Transaction<'_, S>,
    values: &[ValueRef<'_>],
) -> Result<usize, Error>
    ensures call { InsideOf S.Store tx.old.conn tx.new.conn result (λ _. GoesOn) }
    ensures put { (db : _) (counts : List _)
        → AreValuesOf (new_count_row db) counts (bound values.now)
        → ChangesTableOf S.Store tx.old.conn tx.new.conn dict_tree result
        (λ _. GainsAll (map (new_count_row db) counts)) }
{
    tx.execute(ADD_COUNTS, values)
}

/// The values of rows of `dict`, one row behind the other.
pub(crate) fn count_values<'a, 'b>(
    alloc: Global,
    db: DatabaseId,
    counts: &'a [NewCount<'b>],
) -> Result<Vec<ValueRef<'a>>, Error>
    ensures values { IfOk result (λ values.
        bound values.items ≡ joined (map (new_count_row db.0) counts.now)) }
{
    let mut values = Vec::new(alloc);
    for one in counts {
        add_count_values(&mut values, db, one)?;
    }
    Ok(values)
}

/// Puts the values of a row of `dict` behind those before it.
fn add_count_values<'a, 'b>(
    values: &mut Vec<ValueRef<'a>>,
    db: DatabaseId,
    one: &'a NewCount<'b>,
) -> Result<(), Error>
    ensures added { OnOk result
        (bound values.new.items ≡ bound values.old.items ++ new_count_row db.0 one.now) }
{
    let db = db.column();
    let reg = u32::from(one.key.register.code());
    let term = one.key.term.as_str();
    let number = stored(one.records)?;
    values.extend_from_slice(params![db, one.key.index, reg, term, number])?;
    Ok(())
}
