//! How much a packed register holds: its terms by their rows of `dict`, its postings by the blocks of each term.

ghost use Rattle.std.specs.Prelude.{◌≡◌, ◌<◌, ◌^◌, List, length, IfOk, IfErr, OnOk};
ghost use Rattle.zeb_packed.specs.PrivatePackedRows.{SomeMalformed};
ghost use Rattle.zeb_register.specs.Formats.{packed_blocks};
ghost use Rattle.zeb_register.specs.Occurring.{capped, key_in};
ghost use Rattle.zeb_register.specs.PackedBlocks.{SpellsPart, blocks_of};
ghost use Rattle.zeb_register.specs.PackedUnits.{HasMalformed};
ghost use Rattle.zeb_register.specs.PrivatePackedRows.{AreSpelled};
ghost use Rattle.zeb_register.specs.Tallies.{Rises};
ghost use Rattle.zeb_register.specs.Units.{ListsUnits};
ghost use Rattle.zeb_register.specs.Connections.{LooksIntoOf};

use crate::statements::packed::block_rows;
use sqlite::{Alter, Connection, Row};
use zeb_blocks::Postings;
use zeb_register::for_layouts::{counted, read_bytes, read_number};
use zeb_register::{RegFault, RegisterOf, RowFault, Work};

/// How many postings a term has. `Damaged` where a row of its blocks spells none. `work` counts these rows.
pub(crate) fn term_postings<S: Alter>(
    conn: &mut Connection<S>,
    work: &mut Work,
    at: RegisterOf,
    term: &str,
) -> Result<u64, RegFault>
    ensures finds { LooksIntoOf S.Store conn.old conn.new result
        (λ trees. HasMalformed trees at.db.0 (key_in at.index at.register term.now))
        (λ trees count. (list : List _) × ListsUnits packed_blocks trees at.db.0 (key_in at.index
        at.register term.now) list × (count ≡ capped (length list))
        × Rises (blocks_of list) work.old.block_read work.new.block_read) }
    ensures others { work.new ≡ record work.old { block_read = work.new.block_read } }
    ensures fits { OnOk result (work.new.block_read < 2 ^ 64) }
{
    let rows = block_rows(conn, at, term)?;
    let count = rows_postings(&rows)?;
    work.block_read = counted(work.block_read, rows.len());
    Ok(count)
}

/// How many postings blocks spell, one block behind the other. It takes no memory: it is refused as `Damaged` alone, where one spells none.
fn rows_postings(rows: &[Row]) -> Result<u64, RowFault>
    ensures ok { IfOk result (λ count. (list : List _) × AreSpelled rows.now list
        × (count ≡ capped (length list))) }
    ensures refused { IfErr result (λ fault. (fault ≡ RowFault.Damaged) × SomeMalformed rows.now) }
{
    let mut count: u64 = 0;
    for row in rows {
        count = count.saturating_add(row_postings(row)?);
    }
    Ok(count)
}

/// How many postings a row's block spells. It takes no memory: it is refused as `Damaged` alone, where it spells none.
fn row_postings(row: &Row) -> Result<u64, RowFault>
    ensures ok { IfOk result (λ count. (part : List _) × SpellsPart row.now part
        × (count ≡ length part)) }
    ensures refused { IfErr result (λ fault. (fault ≡ RowFault.Damaged)
        × ((part : List _) → ¬ SpellsPart row.now part)) }
{
    let block = read_number(row, 0)?;
    let bytes = read_bytes(row, 1)?;
    let Ok(part) = Postings::read(block, bytes) else {
        return Err(RowFault::Damaged);
    };
    Ok(part.len() as u64)
}
