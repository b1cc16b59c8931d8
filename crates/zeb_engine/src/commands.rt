//! What the engine is told.

use zeb_change::Kind;
use zeb_image::DbName;

/// One command. Records are files of ISO 2709 slices, given as their bytes.
#[derive(Debug, Drop)]
pub enum Command {
    /// Takes out all that the register holds, and begins it anew: without a database, under the session's profile, in its layout.
    Init,
    /// Whether the tables are the image of what is held: `Damaged` where they aren't. Reads every row and every kept record.
    Check,
    /// Puts the session's profile in the place of the register's, whose rule for identifiers it has to have, and makes the registers anew by it.
    Reindex,
    /// Puts the session's layout in the place of an earlier one, and makes the registers anew in it. Nothing changes where it is the session's;
    /// a register of a later version, or of one that isn't known, is refused.
    Upgrade,
    /// Makes an empty database of this name; `Exists` where there is one.
    Create(DbName),
    /// Takes away the database with its records and postings.
    Drop(DbName),
    /// Counts records, terms and occurrences.
    Stat(DbName),
    /// Answers the kept bytes of all records, in the order of their system numbers.
    Dump(DbName),
    /// Updates or deletes by the records of the files, in order.
    Change {
        kind: Kind,
        database: DbName,
        files: Vec<Vec<u8>>,
    },
    /// A query in Prefix Query Format. Of the records that it finds, those from the `first`-th on are shown, at most `count` of them. All numbers
    /// are taken, 0 as a `first` of 1; the program gives 1 to 999,999,999 and 0 to 1,000,000.
    Find {
        database: DbName,
        query: String,
        first: u32,
        count: u32,
    },
    /// Terms around a start: the `position` - 1 nearest before it, and `number` + 1 - `position` from it on. All numbers are taken, and less than
    /// none is none; the program gives 1 to 1,000, and 1 to `number`.
    Scan {
        database: DbName,
        query: String,
        number: u32,
        position: u32,
    },
    /// Reads the files, and shows the occurrences of each record. Keeps nothing.
    Analyse {
        files: Vec<Vec<u8>>,
    },
}
