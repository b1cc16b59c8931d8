//! How much a register holds, by the entries of its leaves.

ghost use Rattle.std.specs.Prelude.{◌≡◌, ℕ, List, length};
ghost use Rattle.std.specs.Option.{option_map};
ghost use Rattle.sqlite.specs.Held.{state};
ghost use Rattle.zeb_leaf.specs.declared.spans.BlockKey.{BlockKey as KeyOfBlock};
ghost use Rattle.zeb_leaves.specs.PrivateTermReads.{HideAllOwns, HideOwns, HidesOwn, SayMany};
ghost use Rattle.zeb_leaves.specs.PrivateTermReads.{SaysNone, ShowAllOwns, ShowOwns, ShowsOwn, SomeBad};
ghost use Rattle.zeb_register.specs.Answers.{Answers, IfRowDamaged};
ghost use Rattle.zeb_register.specs.Formats.{packed_leaves};
ghost use Rattle.zeb_register.specs.Occurring.{capped};
ghost use Rattle.zeb_register.specs.Readings.{SaysPart};
ghost use Rattle.zeb_register.specs.Terms.{TellsTotals};

use crate::own_entries::own_entries;
use crate::rows_from::leaves_from;
use crate::said_postings::entry_said;
use crate::spans::own_key;
use crate::terms::counts_in;
use sqlite::{Alter, Connection, Row};
use std::alloc::Global;
use zeb_leaf::{BlockKey, Entry};
use zeb_register::{RegFault, RegisterOf, RowFault, Totals};

/// How many postings an entry says. `Damaged` where it says none.
fn entry_postings(alloc: Global, entry: &Entry) -> Result<u64, RowFault>
    ensures { Answers (IfRowDamaged (SaysNone entry.now))
        (λ many. (part : List _) × SaysPart entry.now part × (many ≡ length part)) result }
{
    Ok(entry_said(alloc, entry)?.len() as u64)
}

/// How many postings entries say together.
fn entries_postings(alloc: Global, own: &[Entry]) -> Result<u64, RowFault>
    ensures { Answers (IfRowDamaged (SomeBad SaysNone own.now))
        (λ many. (sum : ℕ) × SayMany own.now sum × (many ≡ capped sum)) result }
{
    let mut many: u64 = 0;
    for entry in own {
        many = many.saturating_add(entry_postings(alloc, entry)?);
    }
    Ok(many)
}

/// How many postings the entries say that a row has from the first key on and below the end, where there is one.
fn row_postings(
    alloc: Global,
    row: &Row,
    from: BlockKey,
    end: Option<BlockKey>,
) -> Result<u64, RowFault>
    ensures { Answers (IfRowDamaged (HidesOwn SaysNone from.entry.term.now from.entry.block
        (option_map (λ (k : KeyOfBlock). (k.term.now, k.block)) end.entry) row.now))
        (λ many. (own : List _) × (sum : ℕ) × ShowsOwn from.entry.term.now from.entry.block
        (option_map (λ (k : KeyOfBlock). (k.term.now, k.block)) end.entry) row.now own
        × SayMany own sum × (many ≡ capped sum)) result }
{
    let own = own_entries(alloc, row, from, end)?;
    entries_postings(alloc, &own)
}

/// How many postings the entries say that rows have from the first text on: each row up to the own key of the next.
fn postings_from<'a>(
    alloc: Global,
    leaf: &'a Row,
    behind: &'a [Row],
    first: &'a [u8],
) -> Result<u64, RowFault>
    ensures { Answers (IfRowDamaged (HideOwns SaysNone first.now 0 leaf.now behind.now))
        (λ many. (own : List _) × (sum : ℕ) × ShowOwns first.now 0 leaf.now behind.now own
        × SayMany own sum × (many ≡ capped sum)) result }
{
    let mut many: u64 = 0;
    let mut row = leaf;
    let mut from = BlockKey {
        term: first,
        block: 0,
    };
    for next in behind {
        let own = own_key(next)?;
        many = many.saturating_add(row_postings(alloc, row, from, Some(own))?);
        row = next;
        from = own;
    }
    Ok(many.saturating_add(row_postings(alloc, row, from, None)?))
}

/// How many postings the entries of these leaves say from the first text on.
fn postings_in(alloc: Global, rows: &[Row], first: &[u8]) -> Result<u64, RowFault>
    ensures { Answers (IfRowDamaged (HideAllOwns SaysNone first.now rows.now))
        (λ many. (own : List _) × (sum : ℕ) × ShowAllOwns first.now rows.now own
        × SayMany own sum × (many ≡ capped sum)) result }
{
    match rows.split_first() {
        Some((leaf, behind)) => postings_from(alloc, leaf, behind, first),
        None => Ok(0),
    }
}

/// How many terms of a register some record has, and how many postings these have, each at most 2^64 - 1. All leaves of the register are
/// held at once. `Damaged` only where a term has no count, or a block of one that some record has is malformed.
pub fn totals<S: Alter>(
    alloc: Global,
    conn: &mut Connection<S>,
    at: RegisterOf,
) -> Result<Totals, RegFault>
    ensures { TellsTotals packed_leaves at (state S.Store conn.old) (state S.Store conn.new)
        result }
{
    let rows = leaves_from(alloc, conn, at, "")?;
    let counts = counts_in(alloc, &rows, &[])?;
    let occurrences = postings_in(alloc, &rows, &[])?;
    Ok(Totals {
        terms: counts.len() as u64,
        occurrences,
    })
}
