//! How many records entries of leaves count.
ghost use Rattle.std.specs.Prelude.{◌≡◌, ◌+◌, ◌^◌, ◌≤◌, IfErr, IfOk, sum_by};
ghost use Rattle.zeb_leaf.specs.declared.entries.Held.{Held};

use crate::entries::Held;
use std::alloc::AllocError;

/// So many records together. Refused just above 2^64 - 1: no memory holds so many entries.
pub fn records_with(records: u64, more: u64) -> Result<u64, AllocError>
    ensures ok { IfOk result (λ sum. sum ≡ records + more) }
    ensures err { IfErr result (λ _. 2 ^ 64 ≤ records + more) }
{
    records.checked_add(more).ok_or(AllocError)
}

/// How many records entries count together. Refused just above 2^64 - 1: no memory holds so many entries.
pub fn records_said(held: &[Held]) -> Result<u64, AllocError>
    ensures ok { IfOk result (λ records. records ≡ sum_by (λ (one : Held). one.records) held.now) }
    ensures err { IfErr result (λ _. 2 ^ 64 ≤ sum_by (λ (one : Held). one.records) held.now) }
{
    let mut records: u64 = 0;
    for one in held {
        records = records_with(records, one.records)?;
    }
    Ok(records)
}
