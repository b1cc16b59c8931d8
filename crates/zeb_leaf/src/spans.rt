//! What a leaf has from one key to another.
ghost use Rattle.std.specs.Prelude.{◌≡◌, ◌++◌, ◌↔◌, List, IfOk, IsTrue, OnErr, OnOk};
ghost use Rattle.zeb_leaf.specs.declared.entries.Entry.{Entry};
ghost use Rattle.zeb_leaf.specs.declared.entries.Held.{Held};
ghost use Rattle.zeb_leaf.specs.Spans.{AreInSpan, key_cmp};
ghost use Rattle.zeb_leaf.specs.Answers.{Answers, entry_of};
ghost use Rattle.zeb_leaf.specs.Leaves.{IsLeaf};
ghost use Rattle.zeb_leaf.specs.PrivateTold.{IsOnSide, IsOutside, TakesIfInSpan};

use crate::entries::{Entry, Held, LeafFault};
use crate::walking::LeafReader;
use crate::writing::shared_len;
use std::alloc::{AllocError, Global};
use std::cmp::Ordering;

/// A block of a term, by which entries rise.
#[derive(Clone, Copy, Debug)]
pub struct BlockKey<'a> {
    /// The term's bytes.
    pub term: &'a [u8],
    /// The number of a block, 0 to 2^64 - 1: that of an end may be of no system number.
    pub block: u64,
}

impl BlockKey<'_> {
    /// How this key lies to another one: by the bytes of their terms, and where these are the same by their blocks.
    pub fn order(self, other: BlockKey) -> Ordering
        ensures { result ≡ key_cmp self.entry.term.now self.entry.block other.entry.term.now
            other.entry.block }
    {
        self.term.cmp(other.term).then(self.block.cmp(&other.block))
    }
}

impl Entry {
    /// The entry's own key.
    pub fn key(&self) -> BlockKey<'_>
        ensures term { result.term.now ≡ self.now.term }
        ensures block { result.block ≡ self.now.block }
    {
        BlockKey {
            term: self.term.as_slice(),
            block: self.block,
        }
    }

    /// How the entry lies to a key.
    pub fn order(&self, key: BlockKey) -> Ordering
        ensures { result ≡ key_cmp self.now.term self.now.block key.entry.term.now key.entry.block }
    {
        self.key().order(key)
    }
}

/// Where the last entry that was compared stands beside a span of keys.
#[derive(Clone, Copy)]
enum Side {
    /// Its term is below that of the first key, and shares so many bytes with it.
    Below(usize),
    /// It may be in the span, or the next one may.
    Near,
    /// It isn't below the end.
    Past,
}

/// Whether the next entry, whose term shares so many bytes with the last one, is known to be outside of the span.
fn is_outside(side: Side, shared: usize) -> bool
    ensures { IsTrue result ↔ IsOutside side shared }
{
    match side {
        Side::Below(count) => count < shared,
        Side::Near => false,
        Side::Past => true,
    }
}

/// Puts what an entry of this term has beside it behind the others, if its key isn't below the first one and is below the end.
fn push_if_in_span<'a>(
    held: &mut Vec<Held<'a>>,
    own: &[u8],
    found: Held<'a>,
    first: BlockKey,
    end: BlockKey,
) -> Result<Side, AllocError>
    ensures takes { OnOk result (TakesIfInSpan first.entry.term.now first.entry.block
        end.entry.term.now end.entry.block
        (entry_of own.now found.entry) held.old.items held.new.items) }
    ensures side { IfOk result (λ side. IsOnSide first.entry.term.now
        end.entry.term.now end.entry.block own.now found.entry.block side) }
    ensures stays { OnErr result (held.new.items ≡ held.old.items) }
{
    if own.cmp(first.term).is_lt() {
        return Ok(Side::Below(shared_len(own, first.term)));
    }
    let key = BlockKey {
        term: own,
        block: found.block,
    };
    if !key.order(end).is_lt() {
        return Ok(Side::Past);
    }
    if !key.order(first).is_lt() {
        held.push(found)?;
    }
    Ok(Side::Near)
}

/// Puts what a leaf has from the first key on and below the end behind the others. Nothing of the leaf is copied but one term at a time, and
/// all of it is read. Before the first key few terms are compared with its own, and behind the end none is.
///
/// [`LeafFault::Malformed`] exactly where the bytes are no leaf, as of [`read_leaf`](crate::read_leaf). Then, and where memory ran out, a part
/// may have been put there.
pub fn push_span<'a>(
    alloc: Global,
    held: &mut Vec<Held<'a>>,
    bytes: &'a [u8],
    first: BlockKey,
    end: BlockKey,
) -> Result<(), LeafFault>
    ensures answers { Answers ((list : List Entry) → ¬ IsLeaf bytes.now list)
        (λ _. (list : List Entry) × IsLeaf bytes.now list
        × ((among : List Held)
        × AreInSpan first.entry.term.now first.entry.block end.entry.term.now end.entry.block list
        among × (held.new.items ≡ held.old.items ++ among))) result }
    ensures kept { (put : List Held) × (held.new.items ≡ held.old.items ++ put) }
{
    if bytes.is_empty() {
        return Err(LeafFault::Malformed);
    }
    let mut reader = LeafReader::new(alloc, bytes);
    let mut side = Side::Near;
    while let Some(step) = reader.step()? {
        if !is_outside(side, step.shared) {
            side = push_if_in_span(held, reader.term(), step.held, first, end)?;
        }
    }
    Ok(())
}
