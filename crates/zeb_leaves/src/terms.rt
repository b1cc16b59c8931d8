//! The terms of a register, each with how many records have it, by the entries of its leaves.

ghost use Rattle.std.specs.Prelude.{◌≡◌, ◌↔◌, List, [], IsTrue, IsUtf8};
ghost use Rattle.std.specs.Option.{option_map};
ghost use Rattle.sqlite.specs.Held.{state};
ghost use Rattle.zeb_leaf.specs.declared.spans.BlockKey.{BlockKey as KeyOfBlock};
ghost use Rattle.zeb_leaves.specs.PrivateTermReads.{CountAll, CountsIn, HideAllOwns, HideOwns, HidesOwn};
ghost use Rattle.zeb_leaves.specs.PrivateTermReads.{IsNoText, ShowAllOwns, ShowOwns, ShowsOwn, SomeBad};
ghost use Rattle.zeb_leaves.specs.PrivateTermReads.{entry_with_records};
ghost use Rattle.zeb_register.specs.Answers.{Answers, IfRowDamaged};
ghost use Rattle.zeb_register.specs.Formats.{packed_leaves};
ghost use Rattle.zeb_register.specs.Terms.{TellsAll};

use crate::own_entries::own_entries;
use crate::rows_from::leaves_from;
use crate::spans::own_key;
use sqlite::{Alter, Connection, Row};
use std::alloc::Global;
use zeb_keys::Term;
use zeb_leaf::{BlockKey, Entry, records_with};
use zeb_register::{RegFault, RegisterOf, RowFault, TermCount};

/// The term of these bytes. `Damaged` where they are no UTF-8.
fn term_of(alloc: Global, bytes: &[u8]) -> Result<Term, RowFault>
    ensures { Answers (IfRowDamaged (¬ IsUtf8 bytes.now))
        (λ term. (term ≡ bytes.now) × IsUtf8 bytes.now) result }
{
    match str::from_utf8(bytes) {
        Ok(text) => Ok(Term::new(String::from_str(alloc, text)?)),
        Err(_) => Err(RowFault::Damaged),
    }
}

/// Whether a term has these bytes.
pub(crate) fn is_term(term: &Term, bytes: &[u8]) -> bool
    ensures { IsTrue result ↔ (term.now ≡ bytes.now) }
{
    term.as_str().as_bytes() == bytes
}

/// Counts so many records of a term: with the last term that is counted, where that is this one, and else as one term more. So entries of
/// one term have to be counted one right behind the other, whether terms rise or fall. `Damaged` where a further term is no UTF-8.
pub(crate) fn count_records(
    alloc: Global,
    counts: &mut Vec<TermCount>,
    term: &[u8],
    records: u64,
) -> Result<(), RowFault>
    ensures { Answers (IfRowDamaged (¬ IsUtf8 term.now))
        (λ _. CountsIn (entry_with_records term.now records) counts.old.items counts.new.items)
        result }
{
    if let Some(last) = counts.last_mut() {
        if is_term(&last.term, term) {
            last.records = records_with(last.records, records)?;
            return Ok(());
        }
    }
    let term = term_of(alloc, term)?;
    counts.push(TermCount { term, records })?;
    Ok(())
}

/// Counts the records of an entry.
pub(crate) fn count_entry(
    alloc: Global,
    counts: &mut Vec<TermCount>,
    entry: &Entry,
) -> Result<(), RowFault>
    ensures { Answers (IfRowDamaged (IsNoText entry.now))
        (λ _. CountsIn entry.now counts.old.items counts.new.items) result }
{
    count_records(alloc, counts, entry.term.as_slice(), entry.records)
}

/// Counts the records of entries, one after the other.
fn count_entries(alloc: Global, counts: &mut Vec<TermCount>, own: &[Entry]) -> Result<(), RowFault>
    ensures { Answers (IfRowDamaged (SomeBad IsNoText own.now))
        (λ _. CountAll own.now counts.old.items counts.new.items) result }
{
    for entry in own {
        count_entry(alloc, counts, entry)?;
    }
    Ok(())
}

/// Counts the records of the entries that a row has from the first key on and below the end, where there is one.
fn count_row(
    alloc: Global,
    counts: &mut Vec<TermCount>,
    row: &Row,
    from: BlockKey,
    end: Option<BlockKey>,
) -> Result<(), RowFault>
    ensures { Answers (IfRowDamaged (HidesOwn IsNoText from.entry.term.now from.entry.block
        (option_map (λ (k : KeyOfBlock). (k.term.now, k.block)) end.entry) row.now))
        (λ _. (own : List _) × ShowsOwn from.entry.term.now from.entry.block
        (option_map (λ (k : KeyOfBlock). (k.term.now, k.block)) end.entry) row.now own
        × CountAll own counts.old.items counts.new.items) result }
{
    let own = own_entries(alloc, row, from, end)?;
    count_entries(alloc, counts, &own)
}

/// The terms of the entries that rows have from the first text on, each with its records: each row up to the own key of the next.
fn counts_from<'a>(
    alloc: Global,
    leaf: &'a Row,
    behind: &'a [Row],
    first: &'a [u8],
) -> Result<Vec<TermCount>, RowFault>
    ensures { Answers (IfRowDamaged (HideOwns IsNoText first.now 0 leaf.now behind.now))
        (λ counts. (own : List _) × ShowOwns first.now 0 leaf.now behind.now own
        × CountAll own [] counts.items) result }
{
    let mut counts = Vec::new(alloc);
    let mut row = leaf;
    let mut from = BlockKey {
        term: first,
        block: 0,
    };
    for next in behind {
        let own = own_key(next)?;
        count_row(alloc, &mut counts, row, from, Some(own))?;
        row = next;
        from = own;
    }
    count_row(alloc, &mut counts, row, from, None)?;
    Ok(counts)
}

/// The terms of the entries that these leaves have from the first text on, each with its records.
pub(crate) fn counts_in(
    alloc: Global,
    rows: &[Row],
    first: &[u8],
) -> Result<Vec<TermCount>, RowFault>
    ensures { Answers (IfRowDamaged (HideAllOwns IsNoText first.now rows.now))
        (λ counts. (own : List _) × ShowAllOwns first.now rows.now own
        × CountAll own [] counts.items) result }
{
    match rows.split_first() {
        Some((leaf, behind)) => counts_from(alloc, leaf, behind, first),
        None => Ok(Vec::new(alloc)),
    }
}

/// The terms of a register that some record has, in the order of their bytes, each with the number of these records. All leaves of the
/// register are held at once. `Damaged` only where a term has no count.
pub fn terms_of<S: Alter>(
    alloc: Global,
    conn: &mut Connection<S>,
    at: RegisterOf,
) -> Result<Vec<TermCount>, RegFault>
    ensures { TellsAll packed_leaves at (state S.Store conn.old) (state S.Store conn.new)
        result }
{
    let rows = leaves_from(alloc, conn, at, "")?;
    Ok(counts_in(alloc, &rows, &[])?)
}
