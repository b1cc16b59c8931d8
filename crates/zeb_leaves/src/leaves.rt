//! The layout of leaves.

use crate::agreeing_tables::leaves_agree;
use crate::between::postings_between;
use crate::key_reads::key_list;
use crate::near_terms::{terms_before, terms_from};
use crate::term_totals::totals;
use crate::terms::terms_of;
use crate::turning::{key_changes, run_changes};
use sqlite::{Alter, Connection, Error, Transaction};
use std::alloc::Global;
use zeb_blocks::Posting;
use zeb_keys::Key;
use zeb_register::for_layouts::database_drop_whole;
use zeb_register::{
    DatabaseId, Expected, KeyChanges, Layout, RecordChange, RegFault, RegisterOf, TermCount,
    Totals, Work,
};

/// The layout with one row of `blocks` for many neighbouring keys, a leaf, and no row of `postings` or `dict`.
///
/// Of a change it counts the leaves that are read for it, and those that are written. The calls that read lists, terms and totals count nothing.
#[derive(Clone, Copy, Debug, PartialEq, Eq)]
pub struct Leaves;

impl Layout for Leaves {
    ghost use Rattle.zeb_register.specs.Formats.{packed_leaves};
    ghost use Rattle.zeb_register.specs.PlainRows.{no_rows};

    ghost format = { packed_leaves };

    ghost row_work = { 0 };

    ghost block_rows = { no_rows };

    fn version() -> &'static str {
        "3"
    }

    fn key_changes<S: Alter>(
        tx: &mut Transaction<'_, S>,
        work: &mut Work,
        db: DatabaseId,
        key: &Key,
        changes: &[RecordChange<'_>],
    ) -> Result<(), RegFault> {
        key_changes(tx, work, db, key, changes)
    }

    /// Each leaf is read once and written once for all changes that it covers, of 4,096 blocks at most.
    fn run_changes<S: Alter>(
        tx: &mut Transaction<'_, S>,
        work: &mut Work,
        db: DatabaseId,
        run: &[KeyChanges<'_>],
    ) -> Result<(), RegFault> {
        run_changes(tx, work, db, run)
    }

    fn database_take<S: Alter>(tx: &mut Transaction<'_, S>, db: DatabaseId) -> Result<(), Error> {
        database_drop_whole(tx, db)
    }

    fn key_list<S: Alter>(
        alloc: Global,
        conn: &mut Connection<S>,
        _work: &mut Work,
        db: DatabaseId,
        key: &Key,
    ) -> Result<Vec<Posting>, RegFault> {
        key_list(alloc, conn, db, key)
    }

    fn postings_between<S: Alter>(
        alloc: Global,
        conn: &mut Connection<S>,
        _work: &mut Work,
        at: RegisterOf,
        first: &str,
        last: &str,
    ) -> Result<Vec<Posting>, RegFault> {
        postings_between(alloc, conn, at, first, last)
    }

    fn terms_of<S: Alter>(
        alloc: Global,
        conn: &mut Connection<S>,
        _work: &mut Work,
        at: RegisterOf,
    ) -> Result<Vec<TermCount>, RegFault> {
        terms_of(alloc, conn, at)
    }

    fn terms_from<S: Alter>(
        alloc: Global,
        conn: &mut Connection<S>,
        _work: &mut Work,
        at: RegisterOf,
        start: &str,
        n: u64,
    ) -> Result<Vec<TermCount>, RegFault> {
        terms_from(alloc, conn, at, start, n)
    }

    fn terms_before<S: Alter>(
        alloc: Global,
        conn: &mut Connection<S>,
        _work: &mut Work,
        at: RegisterOf,
        start: &str,
        n: u64,
    ) -> Result<Vec<TermCount>, RegFault> {
        terms_before(alloc, conn, at, start, n)
    }

    fn totals<S: Alter>(
        alloc: Global,
        conn: &mut Connection<S>,
        _work: &mut Work,
        at: RegisterOf,
    ) -> Result<Totals, RegFault> {
        totals(alloc, conn, at)
    }

    fn agrees<S: Alter>(
        alloc: Global,
        conn: &mut Connection<S>,
        expected: &Expected,
    ) -> Result<bool, Error> {
        leaves_agree(alloc, conn, expected)
    }
}
