//! The leaf that a row of `blocks` shows, and whether it may come behind the one before it.

ghost use Rattle.std.specs.Prelude.{◌≡◌, ◌≢◌, ◌↔◌, ◌≤◌, ℕ, pos, List, IfOk, IfSome, IsTrue, MatchOption, length};
ghost use Rattle.std.specs.List.Sorted.{IsStrictlySortedBy};
ghost use Rattle.std.specs.declared.cmp.Ordering.TheVariants.{Greater, Less};
ghost use Rattle.sqlite.specs.Order.{column, row_cmp};
ghost use Rattle.sqlite.specs.declared.types.Value.TheVariants.{Blob, Int, Text};
ghost use Rattle.sqlite_rules.specs.Lists.{Has};
ghost use Rattle.zeb_keys.specs.Registers.{register_code};
ghost use Rattle.zeb_leaf.specs.Order.{entry_cmp};
ghost use Rattle.zeb_leaves.specs.LeafSizes.{most_leaf_bytes};
ghost use Rattle.zeb_leaves.specs.PrivateAgreeing.{Follows, IsBeside, IsFirst, IsWhole, Leaf, ShowsLeaf, before_of, entry_key, leaf_of, leaf_shown, rest_shown};
ghost use Rattle.zeb_register.specs.Covering.{ShowsEntries, leaf_key};
ghost use Rattle.zeb_register.specs.Occurring.{key_in};

use crate::own_entries::is_below;
use sqlite::Row;
use sqlite::types::ValueRef;
use std::alloc::{AllocError, Global};
use zeb_keys::Register;
use zeb_leaf::{BlockKey, Bytes, Entry, LEAF_BYTES, LeafFault, read_leaf};
use zeb_register::for_layouts::read_number;

/// What a row shows behind its database: the own key of a leaf, with its register, and bytes.
#[derive(Clone, Copy)]
struct Columns<'a> {
    index: u64,
    register: Register,
    term: &'a [u8],
    block: u64,
    bytes: &'a [u8],
}

/// A leaf as its row shows it: its own key, with its register, and its entries.
#[derive(Drop)]
pub(crate) struct ShownLeaf {
    pub(crate) index: u64,
    pub(crate) register: Register,
    pub(crate) term: Bytes,
    pub(crate) block: u64,
    pub(crate) entries: Vec<Entry>,
}

/// The register with this code, if one has it.
fn register_with(code: u64) -> Option<Register>
    ensures { MatchOption result ((r : Register) → register_code r ≢ code)
        (λ r. register_code r ≡ code) }
{
    match code {
        0 => Some(Register::Word),
        1 => Some(Register::Phrase),
        2 => Some(Register::Number),
        _ => None,
    }
}

/// The bytes of the text at this place of a row, if one stands there.
fn text_at(row: &Row, at: usize) -> Option<&[u8]>
    ensures { MatchOption result ((text : List ℕ) → column row.now at ≢ Text text)
        (λ text. column row.now at ≡ Text text.now) }
{
    match row.get_ref(at) {
        Ok(ValueRef::Text(bytes)) => Some(bytes),
        _ => None,
    }
}

/// The number at this place of a row, if one of 0 or more stands there.
fn number_at(row: &Row, at: usize) -> Option<u64>
    ensures { MatchOption result ((n : ℕ) → column row.now at ≢ Int (pos n))
        (λ n. column row.now at ≡ Int (pos n)) }
{
    read_number(row, at).ok()
}

/// The bytes at this place of a row, if such stand there.
fn bytes_at(row: &Row, at: usize) -> Option<&[u8]>
    ensures { MatchOption result ((bytes : List ℕ) → column row.now at ≢ Blob bytes)
        (λ bytes. column row.now at ≡ Blob bytes.now) }
{
    match row.get_ref(at) {
        Ok(ValueRef::Blob(bytes)) => Some(bytes),
        _ => None,
    }
}

/// What a row shows, if that is the key of a leaf and bytes.
fn columns_of(row: &Row) -> Option<Columns<'_>>
    ensures { MatchOption result ((key : _) (block : ℕ) (bytes : List ℕ)
        → row.now ≢ rest_shown key block bytes)
        (λ own. row.now ≡ rest_shown (key_in own.index own.register own.term.now) own.block
        own.bytes.now) }
{
    if row.column_count() != 5 {
        return None;
    }
    let index = number_at(row, 0)?;
    let register = register_with(number_at(row, 1)?)?;
    let term = text_at(row, 2)?;
    let block = number_at(row, 3)?;
    let bytes = bytes_at(row, 4)?;
    Some(Columns {
        index,
        register,
        term,
        block,
        bytes,
    })
}

/// The entries that a row with these columns shows, if it shows any list of them: its term is text, and its bytes are a leaf's, or none.
fn entries_of(alloc: Global, columns: Columns<'_>) -> Result<Option<Vec<Entry>>, AllocError>
    ensures { (key : _) → key.term ≡ columns.entry.term.now
        → IfOk result (λ found. MatchOption found ((entries : List _)
        → ¬ ShowsEntries (leaf_shown key columns.entry.block columns.entry.bytes.now) entries)
        (λ entries. ShowsEntries (leaf_shown key columns.entry.block columns.entry.bytes.now)
        entries.items)) }
{
    if str::from_utf8(columns.term).is_err() {
        return Ok(None);
    }
    if columns.bytes.is_empty() {
        return Ok(Some(Vec::new(alloc)));
    }
    match read_leaf(alloc, columns.bytes) {
        Ok(entries) => Ok(Some(entries)),
        Err(LeafFault::Malformed) => Ok(None),
        Err(LeafFault::Memory) => Err(AllocError),
    }
}

/// Whether a leaf with these entries and bytes isn't too large: several entries take at most 3,000 bytes.
fn are_few(entries: &[Entry], bytes: &[u8]) -> bool
    ensures { IsTrue result ↔ (2 ≤ length entries.now → length bytes.now ≤ most_leaf_bytes) }
{
    entries.len() < 2 || bytes.len() <= LEAF_BYTES
}

/// Whether no entry is below a key.
fn are_from(entries: &[Entry], own: BlockKey<'_>) -> bool
    ensures { IsStrictlySortedBy entry_cmp entries.now → (IsTrue result
        ↔ ((e : _) → Has entries.now e
        → row_cmp (leaf_key own.entry.term.now own.entry.block) (entry_key e) ≢ Greater)) }
{
    match entries.split_first() {
        Some((first, _)) => !is_below(first.key(), own),
        None => true,
    }
}

/// Whether each entry is below a key.
fn end_before(entries: &[Entry], end: BlockKey<'_>) -> bool
    ensures { IsStrictlySortedBy entry_cmp entries.now → (IsTrue result
        ↔ ((e : _) → Has entries.now e
        → row_cmp (entry_key e) (leaf_key end.entry.term.now end.entry.block) ≡ Less)) }
{
    match entries.split_last() {
        Some((last, _)) => is_below(last.key(), end),
        None => true,
    }
}

/// The leaf that a row shows, if it shows one that is whole.
pub(crate) fn whole_leaf(alloc: Global, row: &Row) -> Result<Option<ShownLeaf>, AllocError>
    ensures { IfOk result (λ found. MatchOption found ((leaf : Leaf)
        → ShowsLeaf row.now leaf → ¬ IsWhole leaf)
        (λ leaf. ShowsLeaf row.now (leaf_of leaf) × IsWhole (leaf_of leaf))) }
{
    let Some(columns) = columns_of(row) else {
        return Ok(None);
    };
    let Some(entries) = entries_of(alloc, columns)? else {
        return Ok(None);
    };
    let own = BlockKey {
        term: columns.term,
        block: columns.block,
    };
    if !are_few(&entries, columns.bytes) || !are_from(&entries, own) {
        return Ok(None);
    }
    let term = Vec::from_slice(alloc, columns.term)?;
    Ok(Some(ShownLeaf {
        index: columns.index,
        register: columns.register,
        term: Bytes::new(term),
        block: columns.block,
        entries,
    }))
}

/// Whether two leaves are of one register.
fn are_beside(before: &ShownLeaf, leaf: &ShownLeaf) -> bool
    ensures { IsTrue result ↔ IsBeside (leaf_of before.now).key (leaf_of leaf.now).key }
{
    before.index == leaf.index && before.register == leaf.register
}

/// Whether a leaf has the least key.
fn is_first(leaf: &ShownLeaf) -> bool
    ensures { IsTrue result ↔ IsFirst (leaf_of leaf.now) }
{
    leaf.term.as_slice().is_empty() && leaf.block == 0
}

/// The own key of a leaf.
fn own_key_of(leaf: &ShownLeaf) -> BlockKey<'_>
    ensures term { result.term.now ≡ leaf.now.term }
    ensures block { result.block ≡ leaf.now.block }
{
    BlockKey {
        term: leaf.term.as_slice(),
        block: leaf.block,
    }
}

/// Whether a leaf may come behind the one before it, if there is one.
pub(crate) fn follows(before: &Option<ShownLeaf>, leaf: &ShownLeaf) -> bool
    ensures { IfSome before.now (λ one. IsStrictlySortedBy entry_cmp one.entries.items)
        → (IsTrue result ↔ Follows (before_of before.now) (leaf_of leaf.now)) }
{
    match before {
        Some(one) if are_beside(one, leaf) => end_before(&one.entries, own_key_of(leaf)),
        _ => is_first(leaf),
    }
}
