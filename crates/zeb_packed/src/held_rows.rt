//! Held rows that are put, many at once: those of blocks, and then those of `dict`.

ghost use Rattle.std.specs.Prelude.{◌≡◌, ◌≢◌, ◌≤◌, [], ◌∷◌, length, map, take, IfOk, IsTrue};
ghost use Rattle.sqlite.specs.Held.{state};
ghost use Rattle.zeb_packed.specs.PrivateNewRows.{AreApart, GainsAll, GoesOnOpenOf, PutsBlocks, PutsFront, PutsHeld, SomeStands, new_count_row};
ghost use Rattle.zeb_register.specs.Answers.{IfDamaged};
ghost use Rattle.zeb_register.specs.Calls.{GoesOn};
ghost use Rattle.zeb_register.specs.Connections.{ChangesTableOf, InsideOf, LooksInsideOf};
ghost use Rattle.zeb_register.specs.Store.{dict_tree};
ghost use Rattle.zeb_register.specs.UnitChanges.{LacksBlock};

use crate::new_rows::{NewBlock, NewCount, NewRows};
use crate::packed_changes::{block_absent, block_put, breaks_rule};
use crate::statements::many::{MANY, block_values, blocks_add, count_values, counts_add};
use crate::statements::packed_changes::dict_add;
use sqlite::{Alter, Error, Transaction};
use std::alloc::Global;
use zeb_register::for_layouts::{KeyOf, stored};
use zeb_register::{DatabaseId, RegFault};

/// `Damaged` where the block has a row.
fn one_absent<S: Alter>(
    tx: &mut Transaction<'_, S>,
    db: DatabaseId,
    one: &NewBlock<'_>,
) -> Result<(), RegFault>
    ensures { LooksInsideOf S.Store tx.old.conn tx.new.conn result
        (λ trees. IfDamaged (¬ LacksBlock db.0 one.now.key.now one.now.block trees))
        (λ trees _. LacksBlock db.0 one.now.key.now one.now.block trees) }
{
    let number = stored(one.block)?;
    block_absent(tx, KeyOf { db, key: one.key }, number)
}

/// `Damaged` where one of the blocks has a row.
fn all_absent<S: Alter>(
    tx: &mut Transaction<'_, S>,
    db: DatabaseId,
    blocks: &[NewBlock<'_>],
) -> Result<(), RegFault>
    requires { 1 ≤ length blocks.now }
    ensures { LooksInsideOf S.Store tx.old.conn tx.new.conn result
        (λ trees. IfDamaged (SomeStands db.0 blocks.now trees)) (λ _ _. Unit {0}) }
{
    for one in blocks {
        one_absent(tx, db, one)?;
    }
    Ok(())
}

/// Puts many rows of blocks by one statement. `Damaged` where one of the blocks has a row.
fn many_put<S: Alter>(
    alloc: Global,
    tx: &mut Transaction<'_, S>,
    db: DatabaseId,
    blocks: &[NewBlock<'_>],
) -> Result<(), RegFault>
    requires { length blocks.now ≡ MANY }
    ensures call { InsideOf S.Store tx.old.conn tx.new.conn result (λ _. GoesOn) }
    ensures put { PutsBlocks db.0 blocks.now (state S.Store tx.old.conn.now)
        (state S.Store tx.new.conn.now) result }
{
    let values = block_values(alloc, db, blocks)?;
    match blocks_add(tx, &values) {
        Ok(_) => Ok(()),
        Err(error) => {
            if !breaks_rule(&error) {
                return Err(error.into());
            }
            all_absent(tx, db, blocks)?;
            Err(error.into())
        }
    }
}

/// Puts the row of a block. `Damaged` where the block has one.
fn one_put<S: Alter>(
    tx: &mut Transaction<'_, S>,
    db: DatabaseId,
    one: &NewBlock<'_>,
) -> Result<(), RegFault>
    ensures call { InsideOf S.Store tx.old.conn tx.new.conn result (λ _. GoesOn) }
    ensures put { PutsBlocks db.0 (one.now ∷ []) (state S.Store tx.old.conn.now)
        (state S.Store tx.new.conn.now) result }
{
    let number = stored(one.block)?;
    block_put(tx, KeyOf { db, key: one.key }, number, &one.bytes)
}

/// Puts the first rows of blocks: many where there are so many, and else one. Returns how many these are.
fn front_put<S: Alter>(
    alloc: Global,
    tx: &mut Transaction<'_, S>,
    db: DatabaseId,
    blocks: &[NewBlock<'_>],
) -> Result<usize, RegFault>
    requires { blocks.now ≢ [] }
    ensures call { InsideOf S.Store tx.old.conn tx.new.conn result (λ _. GoesOn) }
    ensures put { PutsFront db.0 blocks.now (state S.Store tx.old.conn.now)
        (state S.Store tx.new.conn.now) result }
    ensures further { IfOk result (λ count. (1 ≤ count) × (count ≤ length blocks.now)) }
{
    if blocks.len() < MANY {
        one_put(tx, db, &blocks[0])?;
        return Ok(1);
    }
    many_put(alloc, tx, db, &blocks[..MANY])?;
    Ok(MANY)
}

/// Puts the rows of blocks, which are of different keys or blocks. `Damaged` where one of the blocks has a row.
fn blocks_put<S: Alter>(
    alloc: Global,
    tx: &mut Transaction<'_, S>,
    db: DatabaseId,
    blocks: &[NewBlock<'_>],
) -> Result<(), RegFault>
    ensures call { GoesOnOpenOf S.Store tx.old.conn tx.new.conn result }
    ensures put { IsTrue (state S.Store tx.old.conn.now).is_open → AreApart blocks.now
        → PutsBlocks db.0 blocks.now (state S.Store tx.old.conn.now)
        (state S.Store tx.new.conn.now) result }
{
    let mut done = 0;
    while done < blocks.len() {
        done += front_put(alloc, tx, db, &blocks[done..])?;
    }
    Ok(())
}

/// Puts the row of a key in `dict`. It is refused where the key has one.
fn count_put<S: Alter>(
    tx: &mut Transaction<'_, S>,
    db: DatabaseId,
    one: &NewCount<'_>,
) -> Result<(), Error>
    ensures call { InsideOf S.Store tx.old.conn tx.new.conn result (λ _. GoesOn) }
    ensures put { ChangesTableOf S.Store tx.old.conn tx.new.conn dict_tree result
        (λ _. GainsAll (new_count_row db.0 one.now ∷ [])) }
{
    let number = stored(one.records)?;
    dict_add(tx, KeyOf { db, key: one.key }, number)?;
    Ok(())
}

/// Puts many rows of keys in `dict` by one statement. It is refused where a key has one.
fn many_counts_put<S: Alter>(
    alloc: Global,
    tx: &mut Transaction<'_, S>,
    db: DatabaseId,
    counts: &[NewCount<'_>],
) -> Result<(), Error>
    requires { length counts.now ≡ MANY }
    ensures call { InsideOf S.Store tx.old.conn tx.new.conn result (λ _. GoesOn) }
    ensures put { ChangesTableOf S.Store tx.old.conn tx.new.conn dict_tree result
        (λ _. GainsAll (map (new_count_row db.0) counts.now)) }
{
    let values = count_values(alloc, db, counts)?;
    counts_add(tx, &values)?;
    Ok(())
}

/// Puts the first rows of `dict`: many where there are so many, and else one. Returns how many these are.
fn front_counts_put<S: Alter>(
    alloc: Global,
    tx: &mut Transaction<'_, S>,
    db: DatabaseId,
    counts: &[NewCount<'_>],
) -> Result<usize, Error>
    requires { counts.now ≢ [] }
    ensures call { InsideOf S.Store tx.old.conn tx.new.conn result (λ _. GoesOn) }
    ensures put { ChangesTableOf S.Store tx.old.conn tx.new.conn dict_tree result
        (λ count. GainsAll (map (new_count_row db.0) (take count counts.now))) }
    ensures further { IfOk result (λ count. (1 ≤ count) × (count ≤ length counts.now)) }
{
    if counts.len() < MANY {
        count_put(tx, db, &counts[0])?;
        return Ok(1);
    }
    many_counts_put(alloc, tx, db, &counts[..MANY])?;
    Ok(MANY)
}

/// Puts the rows of keys in `dict`. It is refused where a key has one.
fn counts_put<S: Alter>(
    alloc: Global,
    tx: &mut Transaction<'_, S>,
    db: DatabaseId,
    counts: &[NewCount<'_>],
) -> Result<(), Error>
    ensures call { GoesOnOpenOf S.Store tx.old.conn tx.new.conn result }
    ensures put { IsTrue (state S.Store tx.old.conn.now).is_open
        → ChangesTableOf S.Store tx.old.conn tx.new.conn dict_tree result
        (λ _. GainsAll (map (new_count_row db.0) counts.now)) }
{
    let mut done = 0;
    while done < counts.len() {
        done += front_counts_put(alloc, tx, db, &counts[done..])?;
    }
    Ok(())
}

/// Puts the held rows. `Damaged` where one of the blocks has a row.
pub(crate) fn held_put<S: Alter>(
    alloc: Global,
    tx: &mut Transaction<'_, S>,
    db: DatabaseId,
    held: &NewRows<'_>,
) -> Result<(), RegFault>
    ensures call { GoesOnOpenOf S.Store tx.old.conn tx.new.conn result }
    ensures put { PutsHeld db.0 held.now (state S.Store tx.old.conn.now)
        (state S.Store tx.new.conn.now) result }
{
    blocks_put(alloc, tx, db, &held.blocks)?;
    counts_put(alloc, tx, db, &held.counts)?;
    Ok(())
}
