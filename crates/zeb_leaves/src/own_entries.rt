//! The entries that a leaf has of the keys from one on and below another.

ghost use Rattle.std.specs.Prelude.{◌≡◌, ◌++◌, ◌∷◌, [], List, IsTrue, MatchOption, OnOk, false, filter, not};
ghost use Rattle.std.specs.Option.{option_map};
ghost use Rattle.std.specs.Ordering.{is_lt};
ghost use Rattle.zeb_leaf.specs.Answers.{entry_of};
ghost use Rattle.zeb_leaf.specs.Spans.{key_cmp};
ghost use Rattle.zeb_leaf.specs.Walks.{IsStuck, Steps};
ghost use Rattle.zeb_leaf.specs.declared.entries.Entry.{Entry as LeafEntry};
ghost use Rattle.zeb_leaf.specs.declared.spans.BlockKey.{BlockKey as KeyOfBlock};
ghost use Rattle.zeb_leaves.specs.PrivateSpans.{ShowsNone};
ghost use Rattle.zeb_leaves.specs.PrivateTermReads.{AreEntries, ShowsOwn, is_own};
ghost use Rattle.zeb_register.specs.Answers.{Answers, IfRowDamaged};

use crate::spans::{leaf_bytes, told_of_leaf};
use sqlite::Row;
use std::alloc::{AllocError, Global};
use zeb_leaf::{BlockKey, Entry, Held, LeafReader, copy_entry};
use zeb_register::RowFault;

/// Whether a key is below another one.
pub(crate) fn is_below(key: BlockKey, other: BlockKey) -> bool
    ensures { result ≡ is_lt (key_cmp key.entry.term.now key.entry.block other.entry.term.now
        other.entry.block) }
{
    key.order(other).is_lt()
}

/// Sets `begun` to whether a key isn't below `from`. Where it is set already, a key before this one wasn't, and nothing is compared.
fn note_from(begun: &mut bool, key: BlockKey, from: BlockKey)
    requires { IsTrue begun.old
        → is_lt (key_cmp key.term.now key.block from.term.now from.block) ≡ false }
    ensures { begun.new ≡ not (is_lt (key_cmp key.entry.term.now key.entry.block
        from.entry.term.now from.entry.block)) }
{
    if *begun {
        return;
    }
    *begun = !is_below(key, from);
}

/// Whether the key of an entry of this term isn't below `from`, and is below the end, where there is one. Where `begun` is set, an entry before
/// it wasn't below `from`: so this one isn't either, and isn't compared. Afterwards `begun` says whether this entry isn't below `from`.
pub(crate) fn is_own_entry(
    term: &[u8],
    held: Held,
    from: BlockKey,
    end: Option<BlockKey>,
    begun: &mut bool,
) -> bool
    requires { IsTrue begun.old
        → is_lt (key_cmp term.now held.block from.term.now from.block) ≡ false }
    ensures own { result ≡ is_own from.entry.term.now from.entry.block
        (option_map (λ (k : KeyOfBlock). (k.term.now, k.block)) end.entry)
        (entry_of term.now held.entry) }
    ensures begun { begun.new ≡ not (is_lt (key_cmp term.now held.entry.block
        from.entry.term.now from.entry.block)) }
{
    let key = BlockKey {
        term,
        block: held.block,
    };
    note_from(begun, key, from);
    match end {
        Some(end) => *begun && is_below(key, end),
        None => *begun,
    }
}

/// The next entry of a walk over a leaf: its term is the walk's then.
#[inline(always)]
pub(crate) fn next_entry<'a>(reader: &mut LeafReader<'a>) -> Result<Option<Held<'a>>, RowFault>
    ensures { Answers (IfRowDamaged (IsStuck reader.old))
        (λ found. MatchOption found ((reader.old.left ≡ []) × (reader.new ≡ reader.old))
        (λ held. Steps reader.old (entry_of reader.new.place.term held) reader.new)) result }
{
    reader.next().map_err(told_of_leaf)
}

/// Puts an entry of this term behind the others, if it is chosen.
fn push_if_own(
    alloc: Global,
    own: &mut Vec<Entry>,
    term: &[u8],
    held: Held,
    chosen: bool,
) -> Result<(), AllocError>
    ensures { OnOk result (own.new.items
        ≡ own.old.items ++ filter (λ _. chosen) (entry_of term.now held.entry ∷ [])) }
{
    if !chosen {
        return Ok(());
    }
    own.push(copy_entry(alloc, term, held)?)?;
    Ok(())
}

/// The entries that bytes have from the first key on and below the end, where there is one. Empty bytes have no entries.
fn entries_in(
    alloc: Global,
    bytes: &[u8],
    from: BlockKey,
    end: Option<BlockKey>,
) -> Result<Vec<Entry>, RowFault>
    ensures { Answers (IfRowDamaged ((list : List LeafEntry) → ¬ AreEntries bytes.now list))
        (λ own. (list : List LeafEntry) × AreEntries bytes.now list
        × (own.items ≡ filter (is_own from.entry.term.now from.entry.block
        (option_map (λ (k : KeyOfBlock). (k.term.now, k.block)) end.entry)) list)) result }
{
    let mut reader = LeafReader::new(alloc, bytes);
    let mut own = Vec::new(alloc);
    let mut begun = false;
    while let Some(held) = next_entry(&mut reader)? {
        let chosen = is_own_entry(reader.term(), held, from, end, &mut begun);
        push_if_own(alloc, &mut own, reader.term(), held, chosen)?;
    }
    Ok(own)
}

/// The entries of a row from the first key on and below the end, where there is one: none where the row has no bytes. It is refused where
/// the bytes are no leaf, or its own term is no text.
pub(crate) fn own_entries(
    alloc: Global,
    row: &Row,
    from: BlockKey,
    end: Option<BlockKey>,
) -> Result<Vec<Entry>, RowFault>
    ensures { Answers (IfRowDamaged (ShowsNone row.now))
        (λ own. ShowsOwn from.entry.term.now from.entry.block
        (option_map (λ (k : KeyOfBlock). (k.term.now, k.block)) end.entry) row.now own.items)
        result }
{
    let bytes = leaf_bytes(row)?;
    entries_in(alloc, bytes, from, end)
}
