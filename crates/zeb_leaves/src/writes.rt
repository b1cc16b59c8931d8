//! Leaves that are written: one in the place of a leaf or as the first of a register, and others behind it.

ghost use Rattle.std.specs.Prelude.{IsUtf8, ◌≡◌, pos, [], length, IsTrue};
ghost use Rattle.std.specs.List.{AllByRecursion};
ghost use Rattle.sqlite.specs.Held.{state};
ghost use Rattle.std.specs.List.Sorted.{IsStrictlySortedBy};
ghost use Rattle.zeb_leaf.specs.Order.{IsEntry, entry_cmp};
ghost use Rattle.zeb_leaf.specs.declared.parting.NewLeaf.{NewLeaf};
ghost use Rattle.zeb_leaves.specs.PrivateLeafWrites.{GainsLeaves, IfToldPuts, IfToldPutsEntries};
ghost use Rattle.zeb_leaves.specs.PrivateLeafWrites.{IsLeafWith, MakesLeaves, TellsWritten};
ghost use Rattle.zeb_leaves.specs.PrivateLeafWrites.{coming, leaf_columns, new_row};
ghost use Rattle.zeb_register.specs.Calls.{GoesOn};
ghost use Rattle.zeb_register.specs.Connections.{ChangesTableOf, InsideOf, WritesOf};
ghost use Rattle.zeb_register.specs.PrivateRowStatements.{Gains, Renews};
ghost use Rattle.zeb_register.specs.Store.{blocks_tree};

use sqlite::{Alter, Error, Transaction, params};
use std::alloc::Global;
use zeb_leaf::{Entry, Filling, NewLeaf, cut};
use zeb_register::RegisterOf;
use zeb_register::for_layouts::stored;

/// The own key of a leaf.
#[derive(Clone, Copy)]
pub(crate) struct LeafKey<'a> {
    pub(crate) term: &'a str,
    pub(crate) block: u64,
}

const ADD: &str = "INSERT INTO blocks VALUES (?1, ?2, ?3, ?4, ?5, ?6)";

const SET: &str =
    "UPDATE blocks SET data = ?6 WHERE db = ?1 AND idx = ?2 AND reg = ?3 AND term = ?4 AND block = ?5";

/// Puts the row of a leaf. It is refused where there is one with its key.
fn leaf_add<S: Alter>(
    tx: &mut Transaction<'_, S>,
    at: RegisterOf,
    term: &str,
    number: i64,
    bytes: &[u8],
) -> Result<usize, Error>
    ensures call { WritesOf S.Store tx.old.conn tx.new.conn blocks_tree
        (Gains (leaf_columns at term.now number bytes.now)) result }
    ensures rows { MakesLeaves 1 (state S.Store tx.old.conn.now) (state S.Store tx.new.conn.now)
        result }
{
    let db = at.db.column();
    let reg = u32::from(at.register.code());
    tx.execute(ADD, params![db, at.index, reg, term, number, bytes])
}

/// Puts other bytes in the row of a leaf.
fn leaf_set<S: Alter>(
    tx: &mut Transaction<'_, S>,
    at: RegisterOf,
    term: &str,
    number: i64,
    bytes: &[u8],
) -> Result<usize, Error>
    ensures call { WritesOf S.Store tx.old.conn tx.new.conn blocks_tree
        (Renews (IsLeafWith at term.now number) (leaf_columns at term.now number bytes.now))
        result }
    ensures rows { MakesLeaves 0 (state S.Store tx.old.conn.now) (state S.Store tx.new.conn.now)
        result }
{
    let db = at.db.column();
    let reg = u32::from(at.register.code());
    tx.execute(SET, params![db, at.index, reg, term, number, bytes])
}

/// The text of a term.
pub(crate) fn text_of(term: &[u8]) -> &str
    requires { IsUtf8 term.now }
    ensures { result.now ≡ term.now }
{
    match str::from_utf8(term) {
        Ok(text) => text,
        Err(_) => unreachable!(),
    }
}

/// Puts the row of a new leaf.
fn new_leaf_add<S: Alter>(
    tx: &mut Transaction<'_, S>,
    at: RegisterOf,
    leaf: &NewLeaf,
) -> Result<(), Error>
    requires { IsUtf8 leaf.now.term }
    ensures call { WritesOf S.Store tx.old.conn tx.new.conn blocks_tree
        (Gains (new_row at leaf.now)) result }
    ensures rows { MakesLeaves 1 (state S.Store tx.old.conn.now) (state S.Store tx.new.conn.now)
        result }
{
    let term = text_of(leaf.term.as_slice());
    let number = stored(leaf.block)?;
    leaf_add(tx, at, term, number, leaf.bytes.as_slice())?;
    Ok(())
}

/// Puts the rows of new leaves.
fn new_leaves_add<S: Alter>(
    tx: &mut Transaction<'_, S>,
    at: RegisterOf,
    leaves: &[NewLeaf],
) -> Result<(), Error>
    requires { AllByRecursion (λ (leaf : NewLeaf). IsUtf8 leaf.term) leaves.now }
    ensures call { InsideOf S.Store tx.old.conn tx.new.conn result (λ _ a b. IsTrue a.is_open
        → GoesOn a b) }
    ensures put { ChangesTableOf S.Store tx.old.conn tx.new.conn blocks_tree result
        (λ _. GainsLeaves at leaves.now) }
    ensures rows { MakesLeaves (length leaves.now) (state S.Store tx.old.conn.now)
        (state S.Store tx.new.conn.now) result }
{
    for leaf in leaves {
        new_leaf_add(tx, at, leaf)?;
    }
    Ok(())
}

/// Puts bytes in the row of the leaf with this key, or puts the row. It is told whether the row is there.
fn leaf_put<S: Alter>(
    tx: &mut Transaction<'_, S>,
    at: RegisterOf,
    term: &str,
    block: u64,
    bytes: &[u8],
    is_there: bool,
) -> Result<(), Error>
    ensures call { WritesOf S.Store tx.old.conn tx.new.conn blocks_tree
        (IfToldPuts is_there at term.now (pos block) bytes.now []) result }
    ensures rows { MakesLeaves (coming is_there) (state S.Store tx.old.conn.now)
        (state S.Store tx.new.conn.now) result }
{
    let number = stored(block)?;
    if is_there {
        leaf_set(tx, at, term, number, bytes)?;
        return Ok(());
    }
    leaf_add(tx, at, term, number, bytes)?;
    Ok(())
}

/// Puts a leaf with this key and these bytes in the place of that with the key, and new leaves beside it. It is told whether there is one
/// with the key. Returns how many leaves are written.
fn leaves_put<S: Alter>(
    tx: &mut Transaction<'_, S>,
    at: RegisterOf,
    term: &str,
    block: u64,
    bytes: &[u8],
    is_there: bool,
    leaves: &[NewLeaf],
) -> Result<usize, Error>
    requires { AllByRecursion (λ (leaf : NewLeaf). IsUtf8 leaf.term) leaves.now }
    ensures call { InsideOf S.Store tx.old.conn tx.new.conn result (λ _. GoesOn) }
    ensures put { ChangesTableOf S.Store tx.old.conn tx.new.conn blocks_tree result
        (λ _. IfToldPuts is_there at term.now (pos block) bytes.now leaves.now) }
    ensures rows { TellsWritten is_there (state S.Store tx.old.conn.now)
        (state S.Store tx.new.conn.now) result }
{
    leaf_put(tx, at, term, block, bytes, is_there)?;
    new_leaves_add(tx, at, leaves)?;
    Ok(1 + leaves.len())
}

/// Puts leaves with these entries in the place of the leaf with this key, which has to be told whether it is there. The first of them has the
/// key as its own, and has no bytes where there are no entries; each other has the key of its first entry. No other row is changed. Returns
/// how many leaves are written.
pub(crate) fn entries_put<S: Alter>(
    alloc: Global,
    tx: &mut Transaction<'_, S>,
    at: RegisterOf,
    key: LeafKey<'_>,
    is_there: bool,
    entries: &[Entry],
    filling: Filling,
) -> Result<usize, Error>
    requires rising { IsStrictlySortedBy entry_cmp entries.now }
    requires each { AllByRecursion IsEntry entries.now }
    ensures call { InsideOf S.Store tx.old.conn tx.new.conn result (λ _. GoesOn) }
    ensures put { ChangesTableOf S.Store tx.old.conn tx.new.conn blocks_tree result
        (λ _. IfToldPutsEntries is_there at key.entry.term.now key.entry.block entries.now) }
    ensures rows { TellsWritten is_there (state S.Store tx.old.conn.now)
        (state S.Store tx.new.conn.now) result }
{
    let leaves = cut(alloc, entries, filling)?;
    match leaves.split_first() {
        None => leaves_put(tx, at, key.term, key.block, &[], is_there, &[]),
        Some((first, more)) => leaves_put(
            tx,
            at,
            key.term,
            key.block,
            first.bytes.as_slice(),
            is_there,
            more,
        ),
    }
}
