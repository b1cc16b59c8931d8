//! Reading a leaf as a whole.
ghost use Rattle.std.specs.Prelude.{◌≡◌, List, IfOk};
ghost use Rattle.zeb_leaf.specs.declared.entries.Entry.{Entry};
ghost use Rattle.zeb_leaf.specs.Answers.{Answers, entry_of};
ghost use Rattle.zeb_leaf.specs.Leaves.{IsLeaf};

use crate::entries::{Bytes, Entry, Held, LeafFault};
use crate::walking::LeafReader;
use std::alloc::{AllocError, Global};

/// The entry of a term that has this beside it, its bytes copied.
pub fn copy_entry(alloc: Global, term: &[u8], held: Held) -> Result<Entry, AllocError>
    ensures { IfOk result (λ entry. entry ≡ entry_of term.now held.entry) }
{
    Ok(Entry {
        term: Bytes::copied(alloc, term)?,
        block: held.block,
        records: held.records,
        bytes: Bytes::copied(alloc, held.bytes)?,
    })
}

/// The entries of a leaf, in their order.
///
/// [`LeafFault::Malformed`] exactly where the bytes are no leaf: there are none, or [`LeafReader::next`] says so of an entry.
pub fn read_leaf(alloc: Global, bytes: &[u8]) -> Result<Vec<Entry>, LeafFault>
    ensures { Answers ((list : List Entry) → ¬ IsLeaf bytes.now list)
        (λ entries. IsLeaf bytes.now entries.items) result }
{
    if bytes.is_empty() {
        return Err(LeafFault::Malformed);
    }
    let mut reader = LeafReader::new(alloc, bytes);
    let mut entries = Vec::new(alloc);
    while let Some(held) = reader.next()? {
        let entry = copy_entry(alloc, reader.term(), held)?;
        entries.push(entry)?;
    }
    Ok(entries)
}
