//! Writing a block: the bytes of a list of postings.
ghost use Rattle.std.specs.Prelude.{◌≡◌, ◌≢◌, ◌++◌, ◌∷◌, ◌^◌, ◌<◌, [], IfOk, OnOk, OnErr};
ghost use Rattle.zeb_blocks.specs.Blocks.{BlockSpells, LiesIn, start_of, spelled_from};
ghost use Rattle.zeb_blocks.specs.Left.{Written};

use crate::gaps::Gaps;
use crate::postings::{BLOCK_RECORDS, Posting};
use std::alloc::{AllocError, Global};
use std::marker::Model;

/// A block that is being written, posting by posting: contracts see its number and its list so far.
#[derive(Debug, Drop)]
pub struct BlockWriter {
    block: u64,
    count: usize,
    last: Posting,
    bytes: Vec<u8>,
}

impl Model for BlockWriter {
    ghost use Rattle.zeb_blocks.specs.Left.{Written};

    ghost Value = { Written };

    ghost use Rattle.zeb_blocks.specs.Blocks.{start_of};
    ghost use Rattle.zeb_blocks.specs.Left.{postings_at};
    ghost use Rattle.zeb_blocks.specs.Writing.{IsWritten};

    ghost view = { λ w. record {
      block = w.block;
      list = postings_at w.count (start_of w.block) w.bytes.items;
    } };

    ghost invariant = { λ w.
        IsWritten w.block (postings_at w.count (start_of w.block) w.bytes.items) w.last
        w.bytes.items };
}

impl BlockWriter {
    /// An empty list of postings in the block, which is a system number div 256. Nothing is allocated yet.
    pub fn new(alloc: Global, block: u64) -> BlockWriter
        requires { block < 2 ^ 56 }
        ensures { result ≡ record { block = block; list = [] } }
    {
        let last = Posting {
            sysno: BLOCK_RECORDS * block,
            seq: 0,
            pos: 0,
        };
        BlockWriter {
            block,
            count: 0,
            last,
            bytes: Vec::new(alloc),
        }
    }

    /// Puts a posting at the end of the list, which has to rise and to stay in the block. Where memory ran out, the list stays as it was.
    pub fn push(&mut self, posting: Posting) -> Result<(), AllocError>
        requires { LiesIn self.old.block (self.old.list ++ posting ∷ []) }
        ensures ok { OnOk result (self.new
            ≡ record { block = self.old.block; list = self.old.list ++ posting ∷ [] }) }
        ensures err { OnErr result (self.new ≡ self.old) }
    {
        let len = self.bytes.len();
        if let Err(fault) = Gaps::between(self.last, posting).write(&mut self.bytes) {
            self.bytes.truncate(len);
            return Err(fault);
        }
        self.count += 1;
        self.last = posting;
        Ok(())
    }

    /// The bytes of the list: where it has a posting, those that spell it in the block.
    pub fn into_bytes(self) -> Vec<u8>
        ensures bytes { result.items ≡ spelled_from (start_of self.block) self.list }
        ensures spelled { self.list ≢ [] → BlockSpells self.block self.list result.items }
    {
        self.bytes
    }
}

/// The bytes that spell a list in a block: a rising list with a posting at least, whose system numbers div 256 are the block, and
/// which has no number 0. The only refusal is want of memory.
pub fn spell(alloc: Global, block: u64, list: &[Posting]) -> Result<Vec<u8>, AllocError>
    requires some { list.now ≢ [] }
    requires lies { LiesIn block list.now }
    ensures { IfOk result (λ bytes. BlockSpells block list.now bytes.items) }
{
    let mut writer = BlockWriter::new(alloc, block);
    for posting in list {
        writer.push(*posting)?;
    }
    Ok(writer.into_bytes())
}
