//! Statements that read inside a transaction what others read outside.

ghost use Rattle.std.specs.Prelude.{◌≡◌, List, [], ◌∷◌, take};
ghost use Rattle.sqlite.specs.declared.types.Value.TheVariants.{Int};
ghost use Rattle.zeb_register.specs.Calls.{OnlyReads};
ghost use Rattle.zeb_register.specs.Connections.{InsideOf, IsReasonedErrorInsideOf};
ghost use Rattle.zeb_register.specs.PrivateRowStatements.{IsRestAtLeast};
ghost use Rattle.zeb_register.specs.PrivateRowTerms.{ReadsInside};
ghost use Rattle.zeb_register.specs.Sql.{IsListOf};
ghost use Rattle.zeb_register.specs.Store.{records_tree};

use crate::RegFault;
use crate::statements::postings::NOTHING;
use crate::statements::records::FIRST_FROM;
use sqlite::{Alter, Error, Row, Transaction, params};
use std::alloc::Global;

/// Reads nothing, and gives the allocator by which it was read. It is refused where the connection is closed.
pub fn nothing_inside<S: Alter>(tx: &mut Transaction<'_, S>) -> Result<Global, Error>
    ensures call { InsideOf S.Store tx.old.conn tx.new.conn result (λ _. OnlyReads) }
    ensures err { IsReasonedErrorInsideOf S.Store tx.old.conn tx.new.conn result }
{
    let rows = tx.query_all(NOTHING, &[])?;
    Ok(*rows.allocator())
}

/// The record with the least number that is not below `start`: at most one row.
pub(crate) fn rows_from_inside<S: Alter>(
    tx: &mut Transaction<'_, S>,
    db: i64,
    start: i64,
) -> Result<Vec<Row>, Error>
    ensures call { InsideOf S.Store tx.old.conn tx.new.conn result
        (λ rows a b. ReadsInside (λ trees rows. (all : List _)
        × IsListOf (IsRestAtLeast records_tree (Int db ∷ []) start trees) all × (rows ≡ take 1 all))
        a b rows.items) }
    ensures err { IsReasonedErrorInsideOf S.Store tx.old.conn tx.new.conn result }
{
    tx.query_all(FIRST_FROM, params![db, start])
}
