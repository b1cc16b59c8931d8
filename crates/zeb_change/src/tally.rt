//! What a change has done so far.

ghost use Rattle.std.specs.Prelude.{◌≡◌, ◌+◌, ◌≤◌, ◌<◌};

/// What became of one record of a change.
#[derive(Clone, Copy, Debug, PartialEq, Eq)]
pub enum Fate {
    /// It is kept, under a new number.
    Inserted,
    /// It is kept in the place of the one with its identifier.
    Updated,
    /// The one with its identifier is kept no longer.
    Deleted,
    /// An `Adelete` found none with its identifier.
    PassedOver,
}

/// How many records a change has taken, at most 1,000,000, and what became of them. One that was passed over counts in `records` alone.
#[derive(Clone, Copy, Debug)]
pub struct Tally {
    pub records: u64,
    pub inserted: u64,
    pub updated: u64,
    pub deleted: u64,
    ghost each_once: { inserted + updated + deleted ≤ records },
    ghost few: { records ≤ 1_000_000 },
}

impl Tally {
    ghost use Rattle.zeb_change.specs.Tallies.{IsTallied};

    /// Nothing was taken yet.
    pub fn new() -> Tally
        ensures { (result.records ≡ 0) × (result.inserted ≡ 0) × (result.updated ≡ 0)
            × (result.deleted ≡ 0) }
    {
        Tally {
            records: 0,
            inserted: 0,
            updated: 0,
            deleted: 0,
        }
    }

    /// One more record is taken.
    pub(crate) fn count(&mut self, fate: Fate)
        requires { self.old.records < 1_000_000 }
        ensures { IsTallied fate self.old self.new }
    {
        self.records += 1;
        match fate {
            Fate::Inserted => self.inserted += 1,
            Fate::Updated => self.updated += 1,
            Fate::Deleted => self.deleted += 1,
            Fate::PassedOver => {}
        }
    }
}
