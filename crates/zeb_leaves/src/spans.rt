//! The leaves that cover the blocks of neighbouring terms, and what they have of these.

ghost use Rattle.std.specs.Prelude.{◌≡◌, ◌≢◌, ◌↔◌, ◌++◌, ◌∷◌, [], ℕ, List, true, IfErr, IfOk, IsTrue};
ghost use Rattle.std.specs.Cmp.Lexicographic.{slice_cmp};
ghost use Rattle.std.specs.Ordering.{is_lt, nat_cmp};
ghost use Rattle.sqlite.specs.Order.{column};
ghost use Rattle.sqlite.specs.declared.types.Value.TheVariants.{Blob, Text};
ghost use Rattle.zeb_register.specs.Covering.{HasTextTerm, leaf_key};
ghost use Rattle.zeb_leaf_rows.specs.LeafRows.{IsLeafIn, IsRowBetween, IsUncovered};
ghost use Rattle.zeb_leaves.specs.PrivateSpans.{AreSpanLeaves, ShowAllSpans, ShowSpans};
ghost use Rattle.zeb_leaves.specs.PrivateSpans.{ShowsKey, ShowsNone, ShowsSpan, SomeShowsNoKey};
ghost use Rattle.zeb_register.specs.Answers.{Answers, IfRowDamaged};
ghost use Rattle.zeb_register.specs.Connections.{LooksIntoOf};
ghost use Rattle.zeb_register.specs.Sql.{IsListOf};

use sqlite::types::ValueRef;
use sqlite::{Alter, Connection, Row};
use std::alloc::Global;
use zeb_leaf::{BlockKey, Held, LeafFault, push_span};
use zeb_leaf_rows::{leaf_at, only_leaf, rows_between};
use zeb_register::for_layouts::{read_bytes, read_number};
use zeb_register::{RegFault, RegisterOf, RowFault};

/// A leaf, and behind it the rows of the terms from the first text on and below the end.
fn span_from<S: Alter>(
    conn: &mut Connection<S>,
    at: RegisterOf,
    first: &str,
    end: &str,
    leaf: Row,
) -> Result<Vec<Row>, RegFault>
    ensures { LooksIntoOf S.Store conn.old conn.new result (λ _. ⊥) (λ trees rows. (behind : List _)
        × (rows.items ≡ leaf ∷ behind) × IsListOf (IsRowBetween at first.now end.now trees)
        behind) }
{
    let mut rows = rows_between(conn, at, first, end)?;
    rows.insert(0, leaf)?;
    Ok(rows)
}

/// The same as [`span_leaves`], where more than one leaf may have these terms.
fn many_leaves<S: Alter>(
    alloc: Global,
    conn: &mut Connection<S>,
    at: RegisterOf,
    first: &str,
    end: &str,
) -> Result<Vec<Row>, RegFault>
    ensures { LooksIntoOf S.Store conn.old conn.new result
        (λ trees. IsUncovered (IsLeafIn trees at) (leaf_key first.now 0))
        (λ trees rows. (last : List ℕ) → end.now ≡ last ++ 0 ∷ []
        → AreSpanLeaves (IsLeafIn trees at) first.now last rows.items) }
{
    match leaf_at(conn, at, first, 0)? {
        Some(leaf) => span_from(conn, at, first, end, leaf),
        None => Ok(Vec::new(alloc)),
    }
}

/// The leaves that cover the blocks of the terms from the first text on and below the end, which is the least text above `last`: none where
/// the register has none. The first may stand there twice. `Damaged` just where it has one, and none covers the first text's first block.
pub(crate) fn span_leaves<S: Alter>(
    alloc: Global,
    conn: &mut Connection<S>,
    at: RegisterOf,
    first: &str,
    end: &str,
) -> Result<Vec<Row>, RegFault>
    requires { is_lt (slice_cmp nat_cmp first.now end.now) ≡ true }
    ensures { LooksIntoOf S.Store conn.old conn.new result
        (λ trees. IsUncovered (IsLeafIn trees at) (leaf_key first.now 0))
        (λ trees rows. (last : List ℕ) → end.now ≡ last ++ 0 ∷ []
        → AreSpanLeaves (IsLeafIn trees at) first.now last rows.items) }
{
    let Some(leaf) = only_leaf(conn, at, first, end)? else {
        return many_leaves(alloc, conn, at, first, end);
    };
    let mut rows = Vec::new(alloc);
    rows.push(leaf)?;
    Ok(rows)
}

/// The bytes of the text at this place of a row, as they lie there. They take no memory: they are refused as `Damaged` alone, where there
/// is another type.
fn read_text(row: &Row, at: usize) -> Result<&[u8], RowFault>
    ensures ok { IfOk result (λ bytes. column row.now at ≡ Text bytes.now) }
    ensures refused { IfErr result (λ fault. (fault ≡ RowFault.Damaged)
        × ((bytes : List ℕ) → column row.now at ≢ Text bytes)) }
{
    match row.get_ref(at) {
        Ok(ValueRef::Text(bytes)) => Ok(bytes),
        _ => Err(RowFault::Damaged),
    }
}

/// The own key of a leaf. It takes no memory: it is refused as `Damaged` alone, where the row shows none.
#[tactic(auto, using(crate::proofs::SpanCalls::key_shown, crate::proofs::SpanCalls::no_text, crate::proofs::SpanCalls::no_number))]
pub(crate) fn own_key(row: &Row) -> Result<BlockKey<'_>, RowFault>
    ensures ok { IfOk result (λ key. ShowsKey row.now key.term.now key.block) }
    ensures refused { IfErr result (λ fault. (fault ≡ RowFault.Damaged)
        × ((term : List ℕ) (block : ℕ) → ¬ ShowsKey row.now term block)) }
{
    let term = read_text(row, 0)?;
    let block = read_number(row, 1)?;
    Ok(BlockKey { term, block })
}

/// Whether the term of a leaf's own key is text.
fn has_text_term(row: &Row) -> bool
    ensures { IsTrue result ↔ HasTextTerm row.now }
{
    match read_text(row, 0) {
        Ok(term) => str::from_utf8(term).is_ok(),
        Err(_) => false,
    }
}

/// The bytes of a leaf. They take no memory: they are refused as `Damaged` alone, where the leaf's own term is no text, or where another type
/// is in their place.
pub(crate) fn leaf_bytes(row: &Row) -> Result<&[u8], RowFault>
    ensures ok { IfOk result (λ bytes. (column row.now 2 ≡ Blob bytes.now) × HasTextTerm row.now) }
    ensures refused { IfErr result (λ fault. (fault ≡ RowFault.Damaged)
        × ((bytes : List ℕ) → column row.now 2 ≡ Blob bytes → ¬ HasTextTerm row.now)) }
{
    if !has_text_term(row) {
        return Err(RowFault::Damaged);
    }
    read_bytes(row, 2)
}

/// The fault of a row whose leaf has this fault.
pub(crate) fn told_of_leaf(fault: LeafFault) -> RowFault
    ensures { result ≡ RowFault.Damaged → fault ≡ LeafFault.Malformed }
{
    match fault {
        LeafFault::Malformed => RowFault::Damaged,
        LeafFault::Memory => RowFault::Memory,
    }
}

/// Puts what a row has from the first key on and below the end behind the others. A row without bytes has nothing; it is refused where the
/// bytes are no leaf, or its own term is no text.
fn push_row_span<'a>(
    alloc: Global,
    held: &mut Vec<Held<'a>>,
    row: &'a Row,
    first: BlockKey,
    end: BlockKey,
) -> Result<(), RowFault>
    ensures { Answers (IfRowDamaged (ShowsNone row.now))
        (λ _. (among : List _)
        × ShowsSpan first.entry.term.now first.entry.block end.entry.term.now end.entry.block
        row.now among × (held.new.items ≡ held.old.items ++ among)) result }
{
    let bytes = leaf_bytes(row)?;
    if bytes.is_empty() {
        return Ok(());
    }
    push_span(alloc, held, bytes, first, end).map_err(told_of_leaf)
}

/// What rows have of the terms from the first text on and below the end: each up to the own key of the next row.
fn spans_from<'a>(
    alloc: Global,
    leaf: &'a Row,
    behind: &'a [Row],
    first: &'a [u8],
    end: &[u8],
) -> Result<Vec<Held<'a>>, RowFault>
    ensures { Answers (IfRowDamaged (SomeShowsNoKey (leaf.now ∷ behind.now)))
        (λ held. ShowSpans end.now first.now 0 leaf.now behind.now held.items) result }
{
    let mut held = Vec::new(alloc);
    let mut row = leaf;
    let mut from = BlockKey {
        term: first,
        block: 0,
    };
    for next in behind {
        let own = own_key(next)?;
        push_row_span(alloc, &mut held, row, from, own)?;
        row = next;
        from = own;
    }
    let last = BlockKey {
        term: end,
        block: 0,
    };
    push_row_span(alloc, &mut held, row, from, last)?;
    Ok(held)
}

/// What these leaves have of the terms from the first text on and below the end.
pub(crate) fn spans_in<'a>(
    alloc: Global,
    rows: &'a [Row],
    first: &'a [u8],
    end: &[u8],
) -> Result<Vec<Held<'a>>, RowFault>
    ensures { Answers (IfRowDamaged (SomeShowsNoKey rows.now))
        (λ held. ShowAllSpans end.now first.now rows.now held.items) result }
{
    match rows.split_first() {
        Some((leaf, behind)) => spans_from(alloc, leaf, behind, first, end),
        None => Ok(Vec::new(alloc)),
    }
}
