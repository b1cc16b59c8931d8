//! A posting, one place at which a key stands, and the blocks of postings.
ghost use Rattle.std.specs.Prelude.{◌^◌, ◌*◌, ◌<◌, SomeIff};

/// How many system numbers belong to one block: a record is in the block of its number div these.
pub const BLOCK_RECORDS: u64 = 256;

/// A place of a key in a database: the record's system number, the number of the unit in that record, and the number of the word
/// or number in that unit. In a block each is 1 to 2^64 - 1.
#[derive(Clone, Copy, Debug, PartialEq, Eq)]
pub struct Posting {
    pub sysno: u64,
    pub seq: u64,
    pub pos: u64,
}

ghost use Rattle.zeb_blocks.specs.Blocks.{start_of};

/// From where the first posting of a block is counted; `None` where no posting of the block fits 64 bits.
pub(crate) fn start_of_block(block: u64) -> Option<Posting>
    ensures { SomeIff result (256 * block < 2 ^ 64) (start_of block) }
{
    let sysno = BLOCK_RECORDS.checked_mul(block)?;
    Some(Posting {
        sysno,
        seq: 0,
        pos: 0,
    })
}
