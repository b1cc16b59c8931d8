//! The counts of the work on registers.

ghost use Rattle.std.specs.Prelude.{◌≤◌};
ghost use Rattle.zeb_register.specs.Tallies.{AreInRange, Rises};

use crate::registers::Work;

/// A count with so many more; it stays at its greatest value.
pub fn counted(count: u64, more: usize) -> u64
    ensures rises { Rises more count result }
    ensures keeps { count ≤ result }
{
    count.saturating_add(more as u64)
}

/// Each count of the work fits its type, which proofs learn where it is read. Nothing is done.
pub fn counts_are_numbers(work: &Work)
    ensures { AreInRange work.now }
{
    let _dict_read = work.dict_read;
    let _dict_written = work.dict_written;
    let _block_read = work.block_read;
    let _block_written = work.block_written;
}
