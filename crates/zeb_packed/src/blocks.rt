//! The layout of packed blocks.

use crate::held_runs::run_made;
use crate::packed::{counts_in, key_postings, limit_of};
use crate::packed_between::blocks_between;
use crate::packed_runs::changes_made;
use crate::packed_totals::term_postings;
use crate::statements::packed::{dict_rows, dict_rows_before, dict_rows_from};
use sqlite::{Alter, Connection, Error, Transaction};
use std::alloc::Global;
use zeb_blocks::Posting;
use zeb_keys::Key;
use zeb_register::for_layouts::{blocks_agree, counted, database_drop_whole};
use zeb_register::{
    DatabaseId, Expected, KeyChanges, Layout, RecordChange, RegFault, RegisterOf, TermCount,
    Totals, Work,
};

/// The layout with one row of `blocks` for each key and each 256 system numbers in which it has a posting, one row of `dict` for each key,
/// and no row of `postings`.
///
/// Of the calls that read lists, terms and totals it counts the rows of these tables that are read. Of a change it counts a row of each
/// table, read and written, for each record and key. That is an upper bound: the records of one block that stand next to each other share
/// its row, and all records of a call share that of `dict`.
///
/// Where a call is never accepted, want of memory or a failed store may be told in the place of `Damaged`.
#[derive(Clone, Copy, Debug, PartialEq, Eq)]
pub struct Blocks;

impl Layout for Blocks {
    ghost use Rattle.zeb_register.specs.Formats.{packed_blocks};
    ghost use Rattle.zeb_register.specs.PackedBlocks.{blocks_of};

    ghost format = { packed_blocks };

    ghost row_work = { 1 };

    ghost block_rows = { blocks_of };

    fn version() -> &'static str {
        "2"
    }

    /// `Damaged` just where the rows that are read don't allow the changes: the row of the key in `dict` doesn't say 1 to 999,999,999; the row
    /// of a changed record's block spells no postings, or has other places of the record than its change says; such a block has a row, but the
    /// key none in `dict`; or the count can't follow: no record is left to take from, none would be counted though the block has a posting, or
    /// more than 999,999,999 would be.
    fn key_changes<S: Alter>(
        tx: &mut Transaction<'_, S>,
        work: &mut Work,
        db: DatabaseId,
        key: &Key,
        changes: &[RecordChange<'_>],
    ) -> Result<(), RegFault> {
        changes_made(tx, work, db, key, changes)
    }

    /// `Damaged` as `key_changes` of one of the keys. A key without a row of `dict`, of which each change leaves its record some place, isn't
    /// looked for in `blocks` first: its rows are put behind those of the others, many at once.
    fn run_changes<S: Alter>(
        tx: &mut Transaction<'_, S>,
        work: &mut Work,
        db: DatabaseId,
        run: &[KeyChanges<'_>],
    ) -> Result<(), RegFault> {
        run_made(tx, work, db, run)
    }

    fn database_take<S: Alter>(tx: &mut Transaction<'_, S>, db: DatabaseId) -> Result<(), Error> {
        database_drop_whole(tx, db)
    }

    fn key_list<S: Alter>(
        alloc: Global,
        conn: &mut Connection<S>,
        work: &mut Work,
        db: DatabaseId,
        key: &Key,
    ) -> Result<Vec<Posting>, RegFault> {
        key_postings(alloc, conn, work, db, key)
    }

    fn postings_between<S: Alter>(
        alloc: Global,
        conn: &mut Connection<S>,
        work: &mut Work,
        at: RegisterOf,
        first: &str,
        last: &str,
    ) -> Result<Vec<Posting>, RegFault> {
        blocks_between(alloc, conn, work, at, first, last)
    }

    /// `Damaged` just where a row of the register in `dict` shows no term of UTF-8, or doesn't say 1 to 999,999,999.
    fn terms_of<S: Alter>(
        alloc: Global,
        conn: &mut Connection<S>,
        work: &mut Work,
        at: RegisterOf,
    ) -> Result<Vec<TermCount>, RegFault> {
        let rows = dict_rows(conn, at)?;
        let counts = counts_in(alloc, &rows)?;
        work.dict_read = counted(work.dict_read, counts.len());
        Ok(counts)
    }

    fn terms_from<S: Alter>(
        alloc: Global,
        conn: &mut Connection<S>,
        work: &mut Work,
        at: RegisterOf,
        start: &str,
        n: u64,
    ) -> Result<Vec<TermCount>, RegFault> {
        let limit = limit_of(n);
        let rows = dict_rows_from(conn, at, start, limit)?;
        let counts = counts_in(alloc, &rows)?;
        work.dict_read = counted(work.dict_read, counts.len());
        Ok(counts)
    }

    fn terms_before<S: Alter>(
        alloc: Global,
        conn: &mut Connection<S>,
        work: &mut Work,
        at: RegisterOf,
        start: &str,
        n: u64,
    ) -> Result<Vec<TermCount>, RegFault> {
        let limit = limit_of(n);
        let rows = dict_rows_before(conn, at, start, limit)?;
        let mut counts = counts_in(alloc, &rows)?;
        counts.reverse();
        work.dict_read = counted(work.dict_read, counts.len());
        Ok(counts)
    }

    /// `Damaged` just where `terms_of` is, or where a row of `blocks` of a term that it lists spells no postings. The blocks of one term are
    /// held at a time, and no list of postings.
    fn totals<S: Alter>(
        alloc: Global,
        conn: &mut Connection<S>,
        work: &mut Work,
        at: RegisterOf,
    ) -> Result<Totals, RegFault> {
        let terms = Self::terms_of(alloc, conn, work, at)?;
        let mut occurrences: u64 = 0;
        for term in &terms {
            let more = term_postings(conn, work, at, term.term.as_str())?;
            occurrences = occurrences.saturating_add(more);
        }
        Ok(Totals {
            terms: terms.len() as u64,
            occurrences,
        })
    }

    fn agrees<S: Alter>(
        alloc: Global,
        conn: &mut Connection<S>,
        expected: &Expected,
    ) -> Result<bool, Error> {
        blocks_agree(alloc, conn, expected)
    }
}
