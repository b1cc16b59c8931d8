//! Statements on one row of `blocks` or `dict`: it is read, put where none was, put in the place of the one that was there, or taken.

ghost use Rattle.std.specs.Prelude.{IsUtf8, ◌≡◌, ◌++◌, List, [], ◌∷◌, false, take, OnOk};
ghost use Rattle.sqlite.specs.declared.types.Value.TheVariants.{Blob, Int};
ghost use Rattle.sqlite.specs.Held.{state};
ghost use Rattle.zeb_packed.specs.PrivatePackedRows.{IsRestFrom};
ghost use Rattle.zeb_register.specs.UnitChanges.{IsTold};
ghost use Rattle.zeb_register.specs.Connections.{InStoreOf, InsideOf, WritesOf};
ghost use Rattle.zeb_register.specs.PrivateKeyColumns.{IsOfKey, IsOfNumbered, key_columns, numbered_columns};
ghost use Rattle.zeb_register.specs.PrivateRowStatements.{Gains, IsUnchangedByViolation, ListsInside, Renews};
ghost use Rattle.zeb_register.specs.PlainRows.{register_front};
ghost use Rattle.zeb_register.specs.PrivateRowTerms.{ReadsInside};
ghost use Rattle.zeb_register.specs.Sql.{IsListOf, Loses};
ghost use Rattle.zeb_register.specs.Store.{IsRest, blocks_tree, dict_tree};

use crate::statements::packed::TERMS_FROM;
use sqlite::{Alter, Error, Row, Transaction, params};
use zeb_register::RegFault;
use zeb_register::for_layouts::KeyOf;

/// The bytes of a key's block.
pub(crate) fn block_bytes<S: Alter>(
    tx: &mut Transaction<'_, S>,
    at: KeyOf<'_>,
    number: i64,
) -> Result<Vec<Row>, Error>
    ensures call { InsideOf S.Store tx.old.conn tx.new.conn result (λ rows a b. ListsInside
        (IsRest blocks_tree (numbered_columns at.entry number)) a b rows.items) }
{
    let db = at.db.column();
    let reg = u32::from(at.key.register.code());
    let term = at.key.term.as_str();
    tx.query_all(
        "SELECT data FROM blocks WHERE db = ?1 AND idx = ?2 AND reg = ?3 AND term = ?4 AND block = ?5",
        params![db, at.key.index, reg, term, number],
    )
}

/// The number of the records that have a key.
pub(crate) fn dict_records<S: Alter>(
    tx: &mut Transaction<'_, S>,
    at: KeyOf<'_>,
) -> Result<Vec<Row>, Error>
    ensures call { InsideOf S.Store tx.old.conn tx.new.conn result (λ rows a b. ListsInside
        (IsRest dict_tree (key_columns at.entry)) a b rows.items) }
    ensures text { IsUtf8 at.entry.key.now.term }
{
    let db = at.db.column();
    let reg = u32::from(at.key.register.code());
    let term = at.key.term.as_str();
    tx.query_all(
        "SELECT records FROM dict WHERE db = ?1 AND idx = ?2 AND reg = ?3 AND term = ?4",
        params![db, at.key.index, reg, term],
    )
}

/// The first term of a key's register that is not below the key's, with the number of its records: at most one row.
pub(crate) fn dict_from<S: Alter>(
    tx: &mut Transaction<'_, S>,
    at: KeyOf<'_>,
) -> Result<Vec<Row>, Error>
    ensures call { InsideOf S.Store tx.old.conn tx.new.conn result (λ rows a b. ReadsInside
        (λ trees rows. (all : List _) × IsListOf
        (IsRestFrom dict_tree (register_front at.entry.db.0 at.entry.key.now.index
        at.entry.key.now.register) at.entry.key.now.term trees) all × (rows ≡ take 1 all)) a b
        rows.items) }
{
    let db = at.db.column();
    let reg = u32::from(at.key.register.code());
    let term = at.key.term.as_str();
    let limit: u32 = 1;
    tx.query_all(TERMS_FROM, params![db, at.key.index, reg, term, limit])
}

/// Puts a row. It is refused where the key has one for the block.
pub(crate) fn block_add<S: Alter>(
    tx: &mut Transaction<'_, S>,
    at: KeyOf<'_>,
    number: i64,
    bytes: &[u8],
) -> Result<usize, Error>
    ensures call { WritesOf S.Store tx.old.conn tx.new.conn blocks_tree
        (Gains (numbered_columns at.entry number ++ Blob bytes.now ∷ [])) result }
    ensures alone { InStoreOf S.Store tx.old.conn tx.new.conn (λ trees. OnOk result
        (IsTold false (IsOfNumbered at.entry number) blocks_tree trees)) }
    ensures violated { IsUnchangedByViolation (state S.Store tx.old.conn.now)
        (state S.Store tx.new.conn.now) result }
{
    let db = at.db.column();
    let reg = u32::from(at.key.register.code());
    let term = at.key.term.as_str();
    tx.execute(
        "INSERT INTO blocks VALUES (?1, ?2, ?3, ?4, ?5, ?6)",
        params![db, at.key.index, reg, term, number, bytes],
    )
}

pub(crate) fn block_set<S: Alter>(
    tx: &mut Transaction<'_, S>,
    at: KeyOf<'_>,
    number: i64,
    bytes: &[u8],
) -> Result<usize, Error>
    ensures call { WritesOf S.Store tx.old.conn tx.new.conn blocks_tree
        (Renews (IsOfNumbered at.entry number) (numbered_columns at.entry number ++ Blob
        bytes.now ∷ [])) result }
{
    let db = at.db.column();
    let reg = u32::from(at.key.register.code());
    let term = at.key.term.as_str();
    tx.execute(
        "UPDATE blocks SET data = ?6 WHERE db = ?1 AND idx = ?2 AND reg = ?3 AND term = ?4 AND block = ?5",
        params![db, at.key.index, reg, term, number, bytes],
    )
}

pub(crate) fn block_remove<S: Alter>(
    tx: &mut Transaction<'_, S>,
    at: KeyOf<'_>,
    number: i64,
) -> Result<usize, Error>
    ensures call { WritesOf S.Store tx.old.conn tx.new.conn blocks_tree
        (Loses (IsOfNumbered at.entry number)) result }
{
    let db = at.db.column();
    let reg = u32::from(at.key.register.code());
    let term = at.key.term.as_str();
    tx.execute(
        "DELETE FROM blocks WHERE db = ?1 AND idx = ?2 AND reg = ?3 AND term = ?4 AND block = ?5",
        params![db, at.key.index, reg, term, number],
    )
}

/// Puts a row. It is refused where the key has one.
pub(crate) fn dict_add<S: Alter>(
    tx: &mut Transaction<'_, S>,
    at: KeyOf<'_>,
    records: i64,
) -> Result<usize, Error>
    ensures call { WritesOf S.Store tx.old.conn tx.new.conn dict_tree
        (Gains (key_columns at.entry ++ Int records ∷ [])) result }
{
    let db = at.db.column();
    let reg = u32::from(at.key.register.code());
    let term = at.key.term.as_str();
    tx.execute(
        "INSERT INTO dict VALUES (?1, ?2, ?3, ?4, ?5)",
        params![db, at.key.index, reg, term, records],
    )
}

pub(crate) fn dict_set<S: Alter>(
    tx: &mut Transaction<'_, S>,
    at: KeyOf<'_>,
    records: i64,
) -> Result<usize, Error>
    ensures call { WritesOf S.Store tx.old.conn tx.new.conn dict_tree
        (Renews (IsOfKey at.entry) (key_columns at.entry ++ Int records ∷ [])) result }
{
    let db = at.db.column();
    let reg = u32::from(at.key.register.code());
    let term = at.key.term.as_str();
    tx.execute(
        "UPDATE dict SET records = ?5 WHERE db = ?1 AND idx = ?2 AND reg = ?3 AND term = ?4",
        params![db, at.key.index, reg, term, records],
    )
}

pub(crate) fn dict_remove<S: Alter>(
    tx: &mut Transaction<'_, S>,
    at: KeyOf<'_>,
) -> Result<usize, Error>
    ensures call { WritesOf S.Store tx.old.conn tx.new.conn dict_tree (Loses (IsOfKey at.entry))
        result }
{
    let db = at.db.column();
    let reg = u32::from(at.key.register.code());
    let term = at.key.term.as_str();
    tx.execute(
        "DELETE FROM dict WHERE db = ?1 AND idx = ?2 AND reg = ?3 AND term = ?4",
        params![db, at.key.index, reg, term],
    )
}
