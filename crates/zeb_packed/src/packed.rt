//! Registers packed in blocks: a row of `blocks` for each block of a key's postings, and a row of `dict` for each key.

ghost use Rattle.std.specs.Prelude.{◌≡◌, ◌^◌, ◌<◌, ◌≤◌, ◌++◌, List, length, pos, take, IfOk, IfErr, OnOk, FitsSigned};
ghost use Rattle.std.specs.Int.{w64};
ghost use Rattle.sqlite.specs.Order.{Row as Columns, column};
ghost use Rattle.sqlite.specs.declared.types.Value.TheVariants.{Int};
ghost use Rattle.sqlite_sql.specs.Query.{as_count, limited};
ghost use Rattle.zeb_register.specs.PackedBlocks.{CountsTerm, IsRecordNumber, SpellsPart, blocks_of};
ghost use Rattle.zeb_register.specs.PrivateRowPlaces.{first_two};
ghost use Rattle.zeb_register.specs.PrivatePackedRows.{AreSpelled};
ghost use Rattle.zeb_blocks.specs.Blocks.{BlockSpells};
ghost use Rattle.zeb_packed.specs.PrivatePackedRows.{EndsCounting, SomeMalformed, TellTerms, count_row};
ghost use Rattle.zeb_register.specs.Answers.{Answers, IfRowDamaged};
ghost use Rattle.zeb_register.specs.Formats.{packed_blocks};
ghost use Rattle.zeb_register.specs.PackedUnits.{HasMalformed};
ghost use Rattle.zeb_register.specs.Units.{ListsUnits};
ghost use Rattle.zeb_register.specs.Connections.{LooksIntoOf, TellsOf};
ghost use Rattle.zeb_register.specs.Tallies.{Works};

use crate::statements::packed::block_rows;
use sqlite::{Alter, Connection, Row};
use std::alloc::Global;
use zeb_blocks::{Damaged, Posting, push_block};
use zeb_keys::{Key, Term};
use zeb_register::for_layouts::{counted, read, read_bytes, read_number};
use zeb_register::{DatabaseId, RegFault, RegisterOf, RowFault, TermCount, Work};

/// How many records a database has at most, since each has a number of 1 to this.
pub(crate) const MOST_RECORDS: u64 = 999_999_999;

/// The postings of a key, by its units. `work` counts the rows of `blocks` that are read.
pub(crate) fn key_postings<S: Alter>(
    alloc: Global,
    conn: &mut Connection<S>,
    work: &mut Work,
    db: DatabaseId,
    key: &Key,
) -> Result<Vec<Posting>, RegFault>
    ensures finds { LooksIntoOf S.Store conn.old conn.new result
        (λ trees. HasMalformed trees db.0 key.now)
        (λ trees list. ListsUnits packed_blocks trees db.0 key.now list.items) }
    ensures work { TellsOf S.Store conn.old conn.new result (λ _ list. Works 0 0
        (blocks_of list.items) 0 work.old work.new) }
{
    let at = RegisterOf {
        db,
        index: key.index,
        register: key.register,
    };
    let rows = block_rows(conn, at, key.term.as_str())?;
    let list = postings_in(alloc, &rows)?;
    work.block_read = counted(work.block_read, rows.len());
    Ok(list)
}

/// The postings that blocks spell, one block behind the other.
fn postings_in(alloc: Global, rows: &[Row]) -> Result<Vec<Posting>, RowFault>
    ensures { Answers (IfRowDamaged (SomeMalformed rows.now))
        (λ list. AreSpelled rows.now list.items) result }
{
    let mut postings = Vec::new(alloc);
    for row in rows {
        add_part(&mut postings, row)?;
    }
    Ok(postings)
}

/// Puts the postings that a row's block spells behind those before it.
fn add_part(postings: &mut Vec<Posting>, row: &Row) -> Result<(), RowFault>
    ensures ok { OnOk result ((part : List _) × SpellsPart row.now part
        × (postings.new.items ≡ postings.old.items ++ part)) }
    ensures honest { result ≡ Err RowFault.Damaged → (part : List _) → ¬ SpellsPart row.now part }
{
    let block = read_number(row, 0)?;
    let bytes = read_bytes(row, 1)?;
    add_spelled(postings, block, bytes)
}

/// Puts the postings that bytes spell in a block behind those before them.
pub(crate) fn add_spelled(
    postings: &mut Vec<Posting>,
    block: u64,
    bytes: &[u8],
) -> Result<(), RowFault>
    ensures ok { OnOk result ((part : List _) × BlockSpells block part bytes.now
        × (postings.new.items ≡ postings.old.items ++ part)) }
    ensures honest { result ≡ Err RowFault.Damaged → (part : List _)
        → ¬ BlockSpells block part bytes.now }
{
    match push_block(postings, block, bytes)? {
        Ok(_) => Ok(()),
        Err(Damaged) => Err(RowFault::Damaged),
    }
}

/// The limit by which a statement gives its first `n` rows. Above `2^63 - 1`, which no column stores, it is -1, no limit: no list is so long.
pub(crate) fn limit_of(n: u64) -> i64
    ensures fits { FitsSigned w64 result }
    ensures limit { (rows all : List Columns) → rows ≡ limited (as_count (Int result)) all
        → length rows < 2 ^ 63 → rows ≡ take n all }
{
    i64::try_from(n).unwrap_or(-1)
}

/// The terms that rows show, each with the number of its records. `few` is so of each list; callers need it for `limit_of`.
pub(crate) fn counts_in(alloc: Global, rows: &[Row]) -> Result<Vec<TermCount>, RowFault>
    ensures tells { Answers (IfRowDamaged (EndsCounting rows.now))
        (λ list. TellTerms rows.now list.items) result }
    ensures few { length rows.now < 2 ^ 63 }
{
    let mut counts = Vec::new(alloc);
    for row in rows {
        counts.push(count_of(row)?)?;
    }
    Ok(counts)
}

/// The term that a row shows, with the number of its records.
fn count_of(row: &Row) -> Result<TermCount, RowFault>
    ensures ok { IfOk result (λ t. count_row t ≡ first_two row.now) }
    ensures sound { OnOk result (CountsTerm row.now) }
    ensures honest { result ≡ Err RowFault.Damaged → ¬ CountsTerm row.now }
{
    let term: String = read(row, 0)?;
    let records = records_at(row, 1)?;
    Ok(TermCount {
        term: Term::new(term),
        records,
    })
}

/// The number of records at this place of a row. It takes no memory: it is refused as `Damaged` alone, where it isn't 1 to 999,999,999, as
/// every number of records is.
pub(crate) fn records_at(row: &Row, at: usize) -> Result<u64, RowFault>
    ensures ok { IfOk result (λ records. (column row.now at ≡ Int (pos records)) × (1 ≤ records)
        × (records ≤ 999999999)) }
    ensures refused { IfErr result (λ fault. (fault ≡ RowFault.Damaged)
        × ¬ IsRecordNumber (column row.now at)) }
{
    let records = read_number(row, at)?;
    if records == 0 || records > MOST_RECORDS {
        return Err(RowFault::Damaged);
    }
    Ok(records)
}
