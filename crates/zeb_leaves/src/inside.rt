//! The leaf that covers a block of a term, and where what it covers ends, inside a transaction.

ghost use Rattle.std.specs.Prelude.{◌≡◌, ◌<◌, ◌++◌, ◌∷◌, ◌^◌, [], None, Some, IfErr, IfOk, IsTrue};
ghost use Rattle.std.specs.Option.{option_map};
ghost use Rattle.zeb_leaf.specs.declared.spans.BlockKey.{BlockKey as KeyOfBlock};
ghost use Rattle.zeb_leaf_rows.specs.LeafRows.{IsLeafAt, IsLeafIn, IsUncovered};
ghost use Rattle.zeb_leaf_rows.specs.PrivateLeafRows.{IsCovering};
ghost use Rattle.zeb_leaves.specs.PrivateLeafReads.{IsLeast, IsNextBehind, TellsKey};
ghost use Rattle.zeb_leaves.specs.PrivateLeafWrites.{HidesEnd, IsEndAt};
ghost use Rattle.zeb_leaves.specs.PrivateTermReads.{IsRowFrom};
ghost use Rattle.zeb_register.specs.Answers.{IfDamaged};
ghost use Rattle.zeb_register.specs.Connections.{AsksInsideOf, LooksInsideOf};
ghost use Rattle.zeb_register.specs.Covering.{IsUpTo, leaf_key};

use crate::own_entries::is_below;
use crate::spans::own_key;
use crate::statements_inside::{
    key_of_term_from, key_of_terms_from, leaf_of_term_inside, leaf_of_terms_below_inside,
    some_row_inside,
};
use sqlite::{Alter, Error, Row, Transaction};
use std::alloc::Global;
use zeb_leaf::BlockKey;
use zeb_register::for_layouts::text_above;
use zeb_register::{RegFault, RegisterOf};

/// Whether the own key of a leaf isn't above a key; so, too, where there is no leaf. `false` where the row shows no key.
fn is_up_to(found: &Option<Row>, key: BlockKey) -> bool
    ensures { IsTrue result → (leaf : _) → found.now ≡ Some leaf
        → IsUpTo (leaf_key key.entry.term.now key.entry.block) leaf }
{
    match found {
        Some(leaf) => match own_key(leaf) {
            Ok(own) => !is_below(key, own),
            Err(_) => false,
        },
        None => true,
    }
}

/// Whether the own key of a leaf is above a key; so, too, where there is no leaf. `false` where the row shows no key.
fn is_above(found: &Option<Row>, key: BlockKey) -> bool
    ensures { IsTrue result → (leaf : _) → found.now ≡ Some leaf
        → ¬ IsUpTo (leaf_key key.entry.term.now key.entry.block) leaf }
{
    match found {
        Some(leaf) => match own_key(leaf) {
            Ok(own) => is_below(key, own),
            Err(_) => false,
        },
        None => true,
    }
}

/// The leaf that covers a block of a term: it is looked for among those of the term, and then among those of the terms below. `None` where each
/// leaf is above the block, or there is none.
fn covering_by_term<S: Alter>(
    tx: &mut Transaction<'_, S>,
    at: RegisterOf,
    term: &str,
    block: u64,
) -> Result<Option<Row>, Error>
    requires { block < 2 ^ 56 }
    ensures { AsksInsideOf S.Store tx.old.conn tx.new.conn result
        (λ trees. IsCovering (IsLeafIn trees at) (leaf_key term.now block)) }
{
    let end = block as i64 + 1;
    match leaf_of_term_inside(tx, at, term, end)? {
        Some(leaf) => Ok(Some(leaf)),
        None => leaf_of_terms_below_inside(tx, at, term),
    }
}

/// The leaf that covers a block of a term. `None` where each leaf is above it, or there is none.
fn covering_leaf<S: Alter>(
    alloc: Global,
    tx: &mut Transaction<'_, S>,
    at: RegisterOf,
    term: &str,
    block: u64,
) -> Result<Option<Row>, Error>
    requires { block < 2 ^ 56 }
    ensures { AsksInsideOf S.Store tx.old.conn tx.new.conn result
        (λ trees. IsCovering (IsLeafIn trees at) (leaf_key term.now block)) }
{
    let end = text_above(alloc, term)?;
    let key = BlockKey {
        term: term.as_bytes(),
        block,
    };
    // Few terms have leaves of their own. So the greatest leaf of the terms up to this one mostly covers it, and it is read alone.
    let last = leaf_of_terms_below_inside(tx, at, end.as_str())?;
    if is_up_to(&last, key) {
        return Ok(last);
    }
    covering_by_term(tx, at, term, block)
}

/// No leaf. `Damaged` where the register has one.
fn no_leaf<S: Alter>(tx: &mut Transaction<'_, S>, at: RegisterOf) -> Result<Option<Row>, RegFault>
    ensures { LooksInsideOf S.Store tx.old.conn tx.new.conn result
        (λ trees. IfDamaged ((leaf : _) × IsLeafIn trees at leaf))
        (λ trees found. (found ≡ None) × ((leaf : _) → ¬ IsLeafIn trees at leaf)) }
{
    match some_row_inside(tx, at)? {
        Some(_) => Err(RegFault::Damaged),
        None => Ok(None),
    }
}

/// The leaf that covers a block of a term; `None` where the register has no leaf. `Damaged` just where it has one, and none covers it.
pub(crate) fn leaf_inside<S: Alter>(
    alloc: Global,
    tx: &mut Transaction<'_, S>,
    at: RegisterOf,
    term: &str,
    block: u64,
) -> Result<Option<Row>, RegFault>
    requires { block < 2 ^ 56 }
    ensures { LooksInsideOf S.Store tx.old.conn tx.new.conn result
        (λ trees. IfDamaged (IsUncovered (IsLeafIn trees at) (leaf_key term.now block)))
        (λ trees. IsLeafAt (IsLeafIn trees at) (leaf_key term.now block)) }
{
    match covering_leaf(alloc, tx, at, term, block)? {
        Some(leaf) => Ok(Some(leaf)),
        None => no_leaf(tx, at),
    }
}

/// The own key of the least leaf of the terms above this one.
fn key_of_terms_above<S: Alter>(
    alloc: Global,
    tx: &mut Transaction<'_, S>,
    at: RegisterOf,
    term: &str,
) -> Result<Option<Row>, Error>
    ensures { AsksInsideOf S.Store tx.old.conn tx.new.conn result
        (λ trees. TellsKey (IsLeast (IsRowFrom at (term.now ++ 0 ∷ []) trees))) }
{
    let first = text_above(alloc, term)?;
    key_of_terms_from(tx, at, first.as_str())
}

/// The least own key of a leaf above a block of a term: it is looked for among those of the term, and then among those of the terms above.
/// `None` where no leaf is above the block.
fn behind_by_term<S: Alter>(
    alloc: Global,
    tx: &mut Transaction<'_, S>,
    at: RegisterOf,
    term: &str,
    block: u64,
) -> Result<Option<Row>, Error>
    requires { block < 2 ^ 56 }
    ensures { AsksInsideOf S.Store tx.old.conn tx.new.conn result
        (λ trees. TellsKey (IsNextBehind (IsLeafIn trees at) (leaf_key term.now block))) }
{
    let first = block as i64 + 1;
    match key_of_term_from(tx, at, term, first)? {
        Some(own) => Ok(Some(own)),
        None => key_of_terms_above(alloc, tx, at, term),
    }
}

/// The least own key of a leaf above a block of a term, without the leaf's bytes; `None` where no leaf is above it.
pub(crate) fn key_behind<S: Alter>(
    alloc: Global,
    tx: &mut Transaction<'_, S>,
    at: RegisterOf,
    term: &str,
    block: u64,
) -> Result<Option<Row>, Error>
    requires { block < 2 ^ 56 }
    ensures { AsksInsideOf S.Store tx.old.conn tx.new.conn result
        (λ trees. TellsKey (IsNextBehind (IsLeafIn trees at) (leaf_key term.now block))) }
{
    let key = BlockKey {
        term: term.as_bytes(),
        block,
    };
    // As in `covering_leaf`: the least leaf of the terms from this one on is mostly above the block.
    let next = key_of_terms_from(tx, at, term)?;
    if is_above(&next, key) {
        return Ok(next);
    }
    behind_by_term(alloc, tx, at, term, block)
}

/// The end of the keys that a leaf covers: the own key of the leaf behind it, which a row shows, where there is one. It takes no memory: it is
/// refused as `Damaged` alone, where the row shows no key.
pub(crate) fn end_at(next: Option<&Row>) -> Result<Option<BlockKey<'_>>, RegFault>
    ensures ok { IfOk result (λ end. IsEndAt (option_map (λ row. row.now) next.entry)
        (option_map (λ (k : KeyOfBlock). (k.term.now, k.block)) end)) }
    ensures refused { IfErr result (λ fault. (fault ≡ RegFault.Damaged)
        × HidesEnd (option_map (λ row. row.now) next.entry)) }
{
    match next {
        Some(row) => Ok(Some(own_key(row)?)),
        None => Ok(None),
    }
}
