//! What stays the same over a change: its kind, and the limits and the profile that it goes by.

ghost use Rattle.std.specs.Prelude.{◌≡◌, ◌≤◌};

use std::alloc::Global;
use zeb_profile::Profile;

/// What a change does with each record of its files.
#[derive(Clone, Copy, Debug, PartialEq, Eq)]
pub enum Kind {
    /// A record whose identifier is kept replaces the kept one, and another is added.
    Update,
    /// Each record takes away the kept one with its identifier; one that is not kept is refused.
    Delete,
    /// As `Delete`, but an identifier that is not kept is passed over.
    Adelete,
}

/// How many records one command may have, and the greatest system number.
#[derive(Clone, Copy, Debug, PartialEq, Eq)]
pub struct Limits {
    /// 1 to 1,000,000.
    pub records: u64,
    /// 1 to 999,999,999.
    pub numbers: u64,
    ghost some_record: { 1 ≤ records },
    ghost most_records: { records ≤ 1_000_000 },
    ghost some_number: { 1 ≤ numbers },
    ghost most_numbers: { numbers ≤ 999_999_999 },
}

impl Limits {
    /// The greatest limits there are.
    pub const GREATEST: Limits = Limits {
        records: 1_000_000,
        numbers: 999_999_999,
    };

    /// These limits.
    pub fn new(records: u64, numbers: u64) -> Limits
        requires some_record { 1 ≤ records }
        requires most_records { records ≤ 1_000_000 }
        requires some_number { 1 ≤ numbers }
        requires most_numbers { numbers ≤ 999_999_999 }
        ensures records { result.records ≡ records }
        ensures numbers { result.numbers ≡ numbers }
    {
        Limits { records, numbers }
    }
}

/// What stays the same over a change: where memory comes from, the profile of the register, the limits, and the kind.
#[derive(Clone, Copy)]
pub struct Setting<'a> {
    pub alloc: Global,
    pub profile: &'a Profile,
    pub limits: Limits,
    pub kind: Kind,
}
