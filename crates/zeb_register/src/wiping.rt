//! All rows are taken out, of each table or of those of the registers.

ghost use Rattle.zeb_register.specs.Store.{IsStore, IsEmptyStore, LacksLists, LacksRegisters, KeepsLists};
ghost use Rattle.zeb_register.specs.Calls.{GoesOn};
ghost use Rattle.zeb_register.specs.Connections.{InsideOf};

use crate::statements::whole::table_wipe;
use crate::tables::StoreTable;
use sqlite::{Alter, Error, Transaction};

/// Takes every row out of every table.
pub fn wipe<S: Alter>(tx: &mut Transaction<'_, S>) -> Result<(), Error>
    ensures call { InsideOf S.Store tx.old.conn tx.new.conn result
        (λ _ a b. GoesOn a b × (IsStore a → IsEmptyStore b)) }
{
    lists_wipe(tx)?;
    registers_wipe(tx)
}

/// Takes the rows of the lists out.
fn lists_wipe<S: Alter>(tx: &mut Transaction<'_, S>) -> Result<(), Error>
    ensures call { InsideOf S.Store tx.old.conn tx.new.conn result
        (λ _ a b. GoesOn a b × (IsStore a → IsStore b × LacksLists b.now.trees)) }
{
    table_wipe(tx, StoreTable::Meta)?;
    table_wipe(tx, StoreTable::Databases)?;
    table_wipe(tx, StoreTable::Records)
}

/// Takes every row out of the tables of the registers. What is kept of texts, databases and records stays.
pub fn registers_wipe<S: Alter>(tx: &mut Transaction<'_, S>) -> Result<(), Error>
    ensures call { InsideOf S.Store tx.old.conn tx.new.conn result
        (λ _ a b. GoesOn a b × (IsStore a → IsStore b × LacksRegisters b.now.trees
        × KeepsLists a.now.trees b.now.trees)) }
{
    table_wipe(tx, StoreTable::Postings)?;
    table_wipe(tx, StoreTable::Blocks)?;
    table_wipe(tx, StoreTable::Dict)
}
