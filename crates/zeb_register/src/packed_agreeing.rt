//! The packed tables of a database beside what is expected of it. Each row of blocks takes its postings from the
//! front of those that are left.

ghost use Rattle.std.specs.Prelude.{◌≡◌, ◌≢◌, ◌<◌, ◌≤◌, ◌++◌, ℕ, pos, List, true, false, length, drop, map, IfSome, MatchOption};
ghost use Rattle.sqlite.specs.declared.types.Value.TheVariants.{Int};
ghost use Rattle.sqlite.specs.Order.{column};
ghost use Rattle.zeb_blocks.specs.Blocks.{BlockSpells};
ghost use Rattle.zeb_register.specs.Expected.{AreExpected, IsOrdered};
ghost use Rattle.zeb_register.specs.Formats.{packed_blocks};
ghost use Rattle.zeb_register.specs.PrivateRowExpected.{AreInOrder, HoldsExpected, HoldsKeysAlone, IsBlockBefore, with_key};
ghost use Rattle.zeb_register.specs.Connections.{AsksWhetherOf};

use crate::agreeing::{Table, lists_beside, table_agrees};
use crate::belonging::belongs;
use crate::expected::is_key;
use crate::{Expected, ExpectedDatabase, KeyPosting, ListedDatabase};
use sqlite::types::ValueRef;
use sqlite::{Alter, Connection, Error, Row};
use std::alloc::Global;
use zeb_blocks::{Posting, Postings};
use zeb_keys::Key;

/// Whether the tables hold just what is expected, in packed blocks. Unreadable rows are not expected. It changes nothing.
pub fn blocks_agree<S: Alter>(
    alloc: Global,
    conn: &mut Connection<S>,
    expected: &Expected,
) -> Result<bool, Error>
    ensures { AsksWhetherOf S.Store conn.old conn.new
        (λ trees. AreExpected packed_blocks trees expected.now) (IsOrdered expected.now) result }
{
    let Some(listed) = lists_beside(alloc, conn, expected)? else {
        return Ok(false);
    };
    packed_agree(conn, &listed, &expected.databases)
}

/// Whether the packed tables have just the expected rows, and the table of single postings none.
fn packed_agree<S: Alter>(
    conn: &mut Connection<S>,
    listed: &[ListedDatabase],
    expected: &[ExpectedDatabase],
) -> Result<bool, Error>
    requires { length listed.now ≡ length expected.now }
    ensures { AsksWhetherOf S.Store conn.old conn.new
        (λ trees. HoldsExpected Table.Blocks listed.now expected.now trees
        × HoldsKeysAlone listed.now expected.now trees) (AreInOrder expected.now) result }
{
    if !table_agrees(conn, Table::Blocks, listed, expected)? {
        return Ok(false);
    }
    keys_alone(conn, listed, expected)
}

/// Whether `dict` has just the expected rows, and the table of single postings none.
fn keys_alone<S: Alter>(
    conn: &mut Connection<S>,
    listed: &[ListedDatabase],
    expected: &[ExpectedDatabase],
) -> Result<bool, Error>
    requires { length listed.now ≡ length expected.now }
    ensures { AsksWhetherOf S.Store conn.old conn.new (HoldsKeysAlone listed.now expected.now)
        (AreInOrder expected.now) result }
{
    if !table_agrees(conn, Table::Dict, listed, expected)? {
        return Ok(false);
    }
    belongs(conn, Table::Postings, &[])
}

/// Where the postings end that the row spells from a place on, if it spells those that stand there.
pub(crate) fn block_end(row: &Row, postings: &[KeyPosting], at: usize) -> Option<usize>
    requires { at ≤ length postings.now }
    ensures further { IfSome result (λ end. (at < end) × (end ≤ length postings.now)) }
    ensures fits { MatchOption result ((rest : List KeyPosting)
        → ¬ IsBlockBefore row.now (drop at postings.now) rest)
        (λ end. IsBlockBefore row.now (drop at postings.now) (drop end postings.now)) }
{
    let first = postings.get(at)?;
    if row.column_count() != 5 || !is_key(row, &first.key) {
        return None;
    }
    let block = number_at(row, 3)?;
    match row.get_ref(4) {
        Ok(ValueRef::Blob(bytes)) => spelled_end(block, bytes, &first.key, postings, at),
        _ => None,
    }
}

/// The number at this place of a row, if one of 0 or more stands there.
fn number_at(row: &Row, at: usize) -> Option<u64>
    ensures { MatchOption result ((n : ℕ) → column row.now at ≢ Int (pos n))
        (λ n. column row.now at ≡ Int (pos n)) }
{
    match row.get_ref(at) {
        Ok(ValueRef::Int(value)) if value >= 0 => Some(value as u64),
        _ => None,
    }
}

/// Where the postings of a key end that bytes spell in a block, if they stand from a place on.
fn spelled_end(
    block: u64,
    bytes: &[u8],
    key: &Key,
    postings: &[KeyPosting],
    at: usize,
) -> Option<usize>
    requires { at ≤ length postings.now }
    ensures { MatchOption result ((part : List Posting) (rest : List KeyPosting)
        → BlockSpells block part bytes.now
        → drop at postings.now ≢ map (with_key key.now) part ++ rest)
        (λ end. (end ≤ length postings.now) × ((part : List Posting)
        × BlockSpells block part bytes.now
        × (drop at postings.now ≡ map (with_key key.now) part ++ drop end postings.now))) }
{
    match Postings::read(block, bytes) {
        Ok(part) => part_end(part, key, postings, at),
        Err(_) => None,
    }
}

/// Where these postings of a key end, if they stand from a place on.
fn part_end(part: Postings<'_>, key: &Key, postings: &[KeyPosting], at: usize) -> Option<usize>
    requires { at ≤ length postings.now }
    ensures { MatchOption result ((rest : List KeyPosting)
        → drop at postings.now ≢ map (with_key key.now) part.entry ++ rest)
        (λ end. (end ≤ length postings.now) × (drop at postings.now ≡ map (with_key key.now)
        part.entry ++ drop end postings.now)) }
{
    let mut end = at;
    for posting in part {
        let expected = postings.get(end)?;
        if !is_under(expected, key, posting) {
            return None;
        }
        end += 1;
    }
    Some(end)
}

/// Whether this is the posting under the key.
fn is_under(expected: &KeyPosting, key: &Key, posting: Posting) -> bool
    ensures same { result ≡ true → expected.now ≡ with_key key.now posting }
    ensures other { result ≡ false → expected.now ≢ with_key key.now posting }
{
    expected.key == *key && expected.posting == posting
}
