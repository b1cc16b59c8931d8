//! An entry of a leaf, and why bytes can't be read.
ghost use Rattle.std.specs.Prelude.{◌≡◌, IfOk};

use smallvec::SmallVec;
use std::alloc::{AllocError, AllocFailed, Global};
use std::marker::Model;

/// So many bytes a leaf has at most, unless it has a single entry.
pub const LEAF_BYTES: usize = 3_000;

/// So many bytes a leaf that is written has at most, unless it has a single entry: above it, a leaf is parted. To read one key or to change it is
/// to read a whole leaf, so these are fewer than a leaf may have; two such leaves and their keys fit a page of the store.
pub const FULL_BYTES: usize = 1_900;

/// Bytes of a leaf that are kept: contracts see their list. Most terms are short, and so are the blocks of most terms: up to 24 bytes are kept in
/// the value, since a leaf has a hundred entries and more, and memory for each of them would take longer than all else.
#[derive(Debug, Drop)]
pub struct Bytes {
    kept: SmallVec<u8, 24>,
}

impl Model for Bytes {
    ghost use Rattle.std.specs.Prelude.{List, ℕ};

    ghost Value = { List ℕ };

    ghost view = { λ bytes. bytes.kept.items };
}

impl Bytes {
    /// These bytes. It takes no memory.
    pub fn new(kept: Vec<u8>) -> Bytes
        ensures { result ≡ kept.items }
    {
        Bytes {
            kept: SmallVec::from_vec(kept),
        }
    }

    /// A copy of these bytes. The only refusal is want of memory.
    pub fn copied(alloc: Global, bytes: &[u8]) -> Result<Bytes, AllocError>
        ensures { IfOk result (λ copy. copy ≡ bytes.now) }
    {
        Ok(Bytes {
            kept: SmallVec::from_slice(alloc, bytes)?,
        })
    }

    /// The bytes, lent.
    pub fn as_slice(&self) -> &[u8]
        ensures { result.now ≡ self.now }
    {
        self.kept.as_slice()
    }
}

/// A block of a term's postings, as a leaf has it. The block's bytes aren't asked what they spell: a damaged leaf can hold any.
#[derive(Debug, Drop)]
pub struct Entry {
    /// The term's bytes, which are UTF-8.
    pub term: Bytes,
    /// The block's number, a system number div 256, 0 to 2^56 - 1.
    pub block: u64,
    /// How many records of the term are in the block, 1 to 256.
    pub records: u64,
    /// The block's bytes, as `zeb_blocks` spells them.
    pub bytes: Bytes,
}

/// What an entry has beside its term, its bytes lent by the leaf.
#[derive(Clone, Copy, Debug)]
pub struct Held<'a> {
    /// The block's number, a system number div 256, 0 to 2^56 - 1.
    pub block: u64,
    /// How many records of the term are in the block, 1 to 256.
    pub records: u64,
    /// The block's bytes, as `zeb_blocks` spells them.
    pub bytes: &'a [u8],
}

/// Why a leaf isn't read.
#[derive(Clone, Copy, Debug, PartialEq, Eq)]
pub enum LeafFault {
    /// The bytes are no leaf.
    Malformed,
    /// Memory ran out.
    Memory,
}

impl From<AllocError> for LeafFault {
    ghost use Rattle.zeb_leaf.specs.declared.entries.LeafFault.TheVariants.{Memory};

    ghost from_gives = { λ _ fault. fault ≡ Memory };

    fn from(_error: AllocError) -> LeafFault {
        LeafFault::Memory
    }
}

impl<T: Drop> From<AllocFailed<T>> for LeafFault {
    ghost use Rattle.zeb_leaf.specs.declared.entries.LeafFault.TheVariants.{Memory};

    ghost from_gives = { λ _ fault. fault ≡ Memory };

    fn from(_error: AllocFailed<T>) -> LeafFault {
        LeafFault::Memory
    }
}
