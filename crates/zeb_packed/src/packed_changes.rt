//! One row of a key in packed registers, read and written inside a transaction: that of a block, and that of `dict`.

ghost use Rattle.std.specs.Prelude.{IsUtf8, ◌≡◌, ◌≢◌, ◌<◌, ◌≤◌, ◌^◌, ◌++◌, [], ◌∷◌, ℕ, List, true, false, pos, IfOk, IfErr, OnOk};
ghost use Rattle.sqlite.specs.declared.error.Error.TheVariants.{SqliteFailure};
ghost use Rattle.sqlite.specs.declared.error.ErrorCode.TheVariants.{ConstraintViolation};
ghost use Rattle.sqlite.specs.declared.types.Value.TheVariants.{Blob, Int};
ghost use Rattle.sqlite.specs.Order.{column};
ghost use Rattle.sqlite_schema.specs.declared.schema.Constraint.{Constraint};
ghost use Rattle.zeb_blocks.specs.Blocks.{LiesIn};
ghost use Rattle.zeb_register.specs.PrivateKeyColumns.{IsOfNumbered, IsDictIn, numbered_columns};
ghost use Rattle.zeb_register.specs.PrivateRowStatements.{Gains};
ghost use Rattle.zeb_register.specs.PackedBlocks.{IsRecordNumber};
ghost use Rattle.zeb_register.specs.Store.{blocks_tree, dict_tree};
ghost use Rattle.zeb_register.specs.UnitChanges.{IsBlockIn, IsTold, PutsCount};
ghost use Rattle.zeb_register.specs.Answers.{IfDamaged};
ghost use Rattle.zeb_packed.specs.PrivatePackedChanges.{IfTold, IsClearFrom, PutsBlock, SpellsIn, TellsNone};
ghost use Rattle.zeb_register.specs.Connections.{InStoreOf, LooksInsideOf, WritesOf};
ghost use Rattle.zeb_register.specs.PackedUnits.{BlockReads, CountsAs, IsBlockMalformed};

use crate::packed::{add_spelled, records_at};
use crate::statements::packed_changes::{
    block_add, block_bytes, block_remove, block_set, dict_add, dict_records, dict_remove, dict_set,
};
use sqlite::{Alter, Error, ErrorCode, Row, Transaction};
use std::alloc::Global;
use zeb_blocks::{Posting, spell};
use zeb_keys::Key;
use zeb_register::for_layouts::{KeyOf, read, stored};
use zeb_register::{DatabaseId, RegFault, RowFault};

/// The postings that a key has in the block: none where it has no row there. `Damaged` where the row spells none.
pub(crate) fn block_list<S: Alter>(
    tx: &mut Transaction<'_, S>,
    db: DatabaseId,
    key: &Key,
    block: u64,
) -> Result<Vec<Posting>, RegFault>
    requires { block < 2 ^ 63 }
    ensures found { LooksInsideOf S.Store tx.old.conn tx.new.conn result
        (λ trees. IfDamaged (IsBlockMalformed trees db.0 key.now block))
        (λ trees list. BlockReads trees db.0 key.now block list.items) }
    ensures lies { IfOk result (λ list. LiesIn block list.items) }
{
    let number = stored(block)?;
    let rows = block_bytes(tx, KeyOf { db, key }, number)?;
    let alloc = *rows.allocator();
    match rows.first() {
        Some(row) => Ok(spelled_list(alloc, row, block)?),
        None => Ok(Vec::new(alloc)),
    }
}

/// The postings that the bytes of a row spell in the block.
fn spelled_list(alloc: Global, row: &Row, block: u64) -> Result<Vec<Posting>, RowFault>
    ensures ok { IfOk result (λ list. SpellsIn block row.now list.items) }
    ensures honest { result ≡ Err RowFault.Damaged → (list : List _)
        → ¬ SpellsIn block row.now list }
{
    let bytes: Vec<u8> = read(row, 0)?;
    let mut list = Vec::new(alloc);
    add_spelled(&mut list, block, &bytes)?;
    Ok(list)
}

/// What is known of a key before changes are put into its rows, and behind each run of them.
#[derive(Clone, Copy)]
pub(crate) struct Known {
    /// Where lists are made.
    pub(crate) alloc: Global,
    /// How many records have the key.
    pub(crate) records: u64,
    /// The key has no posting in this block, and none in a block behind it.
    pub(crate) clear_from: u64,
}

impl Known {
    /// What is known behind changes of records of a block, after which so many records have the key.
    pub(crate) fn behind(self, block: u64, records: u64) -> Known
        requires { block < 2 ^ 56 }
        ensures records { result.records ≡ records }
        ensures keeps { self.clear_from ≤ result.clear_from }
        ensures behind { block < result.clear_from }
        ensures most { (b : ℕ) → self.clear_from ≤ b → block < b → result.clear_from ≤ b }
    {
        let clear_from = self.clear_from.max(block + 1);
        Known {
            alloc: self.alloc,
            records,
            clear_from,
        }
    }
}

/// What the row of `dict` tells of a key; where there is none, no record has the key, and no block of it has a row. `Damaged` where the
/// row doesn't say 1 to 999,999,999.
pub(crate) fn key_known<S: Alter>(
    tx: &mut Transaction<'_, S>,
    db: DatabaseId,
    key: &Key,
) -> Result<Known, RegFault>
    ensures found { LooksInsideOf S.Store tx.old.conn tx.new.conn result
        (λ trees. IfDamaged ((records : ℕ) → ¬ CountsAs trees db.0 key.now records))
        (λ trees known. CountsAs trees db.0 key.now known.records) }
    ensures text { OnOk result (IsUtf8 key.now.term) }
    ensures clear { IfOk result (λ known. (known.records ≤ 999999999) × IsClearFrom known) }
{
    let rows = dict_records(tx, KeyOf { db, key })?;
    let alloc = *rows.allocator();
    match rows.first() {
        Some(row) => Ok(known_at(alloc, row)?),
        None => Ok(Known {
            alloc,
            records: 0,
            clear_from: 0,
        }),
    }
}

/// What a row of `dict` tells of its key: how many records have it, and nothing of its blocks. It takes no memory: it is refused as `Damaged`
/// alone.
fn known_at(alloc: Global, row: &Row) -> Result<Known, RowFault>
    ensures ok { IfOk result (λ known. (column row.now 0 ≡ Int (pos known.records))
        × (1 ≤ known.records) × (known.records ≤ 999999999) × (2 ^ 56 ≤ known.clear_from)) }
    ensures refused { IfErr result (λ fault. (fault ≡ RowFault.Damaged)
        × ¬ IsRecordNumber (column row.now 0)) }
{
    let records = records_at(row, 0)?;
    Ok(Known {
        alloc,
        records,
        clear_from: u64::MAX,
    })
}

/// Puts a list in the place of the row of a key's block, or takes the row where the list is empty. `is_there` says whether the row
/// is there.
pub(crate) fn block_write<S: Alter>(
    alloc: Global,
    tx: &mut Transaction<'_, S>,
    db: DatabaseId,
    key: &Key,
    block: u64,
    list: &[Posting],
    is_there: bool,
) -> Result<(), Error>
    requires lies { LiesIn block list.now }
    requires small { block < 2 ^ 63 }
    ensures call { WritesOf S.Store tx.old.conn tx.new.conn blocks_tree
        (IfTold is_there (IsBlockIn db.0 key.now block) (PutsBlock db.0 key.now block list.now))
        result }
{
    let number = stored(block)?;
    let at = KeyOf { db, key };
    if list.is_empty() {
        block_remove(tx, at, number)?;
        return Ok(());
    }
    let bytes = spell(alloc, block, list)?;
    if is_there {
        block_set(tx, at, number, &bytes)?;
        return Ok(());
    }
    block_add(tx, at, number, &bytes)?;
    Ok(())
}

/// Puts the row of a key's block, which the caller says isn't there; no row where the list is empty. `Damaged` where it is there.
pub(crate) fn block_begin<S: Alter>(
    alloc: Global,
    tx: &mut Transaction<'_, S>,
    db: DatabaseId,
    key: &Key,
    block: u64,
    list: &[Posting],
) -> Result<(), RegFault>
    requires lies { LiesIn block list.now }
    requires small { block < 2 ^ 63 }
    ensures call { WritesOf S.Store tx.old.conn tx.new.conn blocks_tree
        (IfTold false (IsBlockIn db.0 key.now block) (PutsBlock db.0 key.now block list.now))
        result }
    ensures told { InStoreOf S.Store tx.old.conn tx.new.conn
        (λ trees. TellsNone (IsBlockIn db.0 key.now block) trees result) }
{
    let number = stored(block)?;
    let at = KeyOf { db, key };
    if list.is_empty() {
        return block_absent(tx, at, number);
    }
    let bytes = spell(alloc, block, list)?;
    block_put(tx, at, number, &bytes)
}

/// Puts the row of a block. `Damaged` where the block has one.
pub(crate) fn block_put<S: Alter>(
    tx: &mut Transaction<'_, S>,
    at: KeyOf<'_>,
    number: i64,
    bytes: &[u8],
) -> Result<(), RegFault>
    ensures call { WritesOf S.Store tx.old.conn tx.new.conn blocks_tree
        (Gains (numbered_columns at.entry number ++ Blob bytes.now ∷ [])) result }
    ensures told { InStoreOf S.Store tx.old.conn tx.new.conn
        (λ trees. TellsNone (IsOfNumbered at.entry number) trees result) }
{
    match block_add(tx, at, number, bytes) {
        Ok(_) => Ok(()),
        Err(error) => {
            if !breaks_rule(&error) {
                return Err(error.into());
            }
            block_absent(tx, at, number)?;
            Err(error.into())
        }
    }
}

/// Whether a rule of the tables refused a statement.
pub(crate) fn breaks_rule(error: &Error) -> bool
    ensures broken { result ≡ true → (rule : Constraint)
        × (error.now ≡ SqliteFailure (ConstraintViolation rule)) }
    ensures unbroken { result ≡ false → (rule : Constraint)
        → error.now ≢ SqliteFailure (ConstraintViolation rule) }
{
    match error {
        Error::SqliteFailure(code) => matches!(code, ErrorCode::ConstraintViolation(_)),
        _ => false,
    }
}

/// `Damaged` where the key has a row for the block.
pub(crate) fn block_absent<S: Alter>(
    tx: &mut Transaction<'_, S>,
    at: KeyOf<'_>,
    number: i64,
) -> Result<(), RegFault>
    ensures { LooksInsideOf S.Store tx.old.conn tx.new.conn result
        (λ trees. IfDamaged (¬ IsTold false (IsOfNumbered at.entry number) blocks_tree trees))
        (λ trees _. IsTold false (IsOfNumbered at.entry number) blocks_tree trees) }
{
    let rows = block_bytes(tx, at, number)?;
    match rows.first() {
        Some(_) => Err(RegFault::Damaged),
        None => Ok(()),
    }
}

/// Puts a number in the row of a key, or takes the row where no record has the key. `is_there` says whether the row is there.
pub(crate) fn dict_write<S: Alter>(
    tx: &mut Transaction<'_, S>,
    db: DatabaseId,
    key: &Key,
    records: u64,
    is_there: bool,
) -> Result<(), Error>
    ensures call { WritesOf S.Store tx.old.conn tx.new.conn dict_tree
        (IfTold is_there (IsDictIn db.0 key.now) (PutsCount db.0 key.now records)) result }
{
    let number = stored(records)?;
    let at = KeyOf { db, key };
    if records == 0 {
        dict_remove(tx, at)?;
        return Ok(());
    }
    if is_there {
        dict_set(tx, at, number)?;
        return Ok(());
    }
    dict_add(tx, at, number)?;
    Ok(())
}
