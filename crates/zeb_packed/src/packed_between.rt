//! The postings of neighbouring terms, by the blocks of all of them.

ghost use Rattle.std.specs.Prelude.{◌≡◌, ◌++◌, List, map, sum_by, OnOk};
ghost use Rattle.sqlite.specs.Held.{state};
ghost use Rattle.zeb_packed.specs.PrivatePackedRows.{SomeMalformed};
ghost use Rattle.zeb_register.specs.Answers.{Answers, IfRowDamaged};
ghost use Rattle.zeb_register.specs.Between.{AreKeysBetween};
ghost use Rattle.zeb_register.specs.PrivateBetweenRows.{two_behind};
ghost use Rattle.zeb_register.specs.Clauses.{TellsHeld};
ghost use Rattle.zeb_register.specs.PackedBlocks.{HoldsBlocks, SpellsPart, blocks_of};
ghost use Rattle.zeb_register.specs.PrivatePackedRows.{AreSpelled};
ghost use Rattle.zeb_register.specs.Formats.{packed_blocks};
ghost use Rattle.zeb_register.specs.Tallies.{Works};
ghost use Rattle.zeb_register.specs.Units.{HasMalformedBetween, ListsBetween};
ghost use Rattle.zeb_register.specs.Connections.{LooksIntoOf};

use crate::packed::add_spelled;
use crate::statements::between::block_rows_between;
use sqlite::{Alter, Connection, Row};
use std::alloc::Global;
use zeb_blocks::Posting;
use zeb_register::for_layouts::{counted, read_bytes, read_number, text_above};
use zeb_register::{RegFault, RegisterOf, RowFault, Work};

/// The postings of the terms from `first` to `last`, by their units. `work` counts the rows of `blocks` that are read.
pub(crate) fn blocks_between<S: Alter>(
    alloc: Global,
    conn: &mut Connection<S>,
    work: &mut Work,
    at: RegisterOf,
    first: &str,
    last: &str,
) -> Result<Vec<Posting>, RegFault>
    ensures finds { LooksIntoOf S.Store conn.old conn.new result
        (λ trees. HasMalformedBetween packed_blocks trees at first.now last.now)
        (λ trees list. ListsBetween packed_blocks trees at first.now last.now list.items) }
    ensures work { TellsHeld HoldsBlocks (state S.Store conn.old) (state S.Store conn.new) result
        (λ content _. (keys : List _) → AreKeysBetween content at first.now last.now keys
        → Works 0 0 (sum_by (λ key. blocks_of (content at.db.0 key)) keys) 0 work.old work.new) }
{
    let end = text_above(alloc, last)?;
    let rows = block_rows_between(conn, at, first, end.as_str())?;
    let list = postings_behind(alloc, &rows)?;
    work.block_read = counted(work.block_read, rows.len());
    Ok(list)
}

/// The postings that blocks spell, one block behind the other, where each row has its term before them.
fn postings_behind(alloc: Global, rows: &[Row]) -> Result<Vec<Posting>, RowFault>
    ensures { Answers (IfRowDamaged (SomeMalformed (map two_behind rows.now)))
        (λ list. AreSpelled (map two_behind rows.now) list.items) result }
{
    let mut postings = Vec::new(alloc);
    for row in rows {
        add_behind(&mut postings, row)?;
    }
    Ok(postings)
}

/// Puts the postings that a row's block spells behind those before it.
fn add_behind(postings: &mut Vec<Posting>, row: &Row) -> Result<(), RowFault>
    ensures ok { OnOk result ((part : List _) × SpellsPart (two_behind row.now) part
        × (postings.new.items ≡ postings.old.items ++ part)) }
    ensures honest { result ≡ Err RowFault.Damaged → (part : List _)
        → ¬ SpellsPart (two_behind row.now) part }
{
    let block = read_number(row, 1)?;
    let bytes = read_bytes(row, 2)?;
    add_spelled(postings, block, bytes)
}
