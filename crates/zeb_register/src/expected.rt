//! What the tables of a store have to hold, written down by a caller, so that whole tables can be looked at beside it.

ghost use Rattle.std.specs.Prelude.{◌≡◌, ◌≢◌, true, false, map};
ghost use Rattle.zeb_register.specs.Agreeing.{expected_name, listed_name};
ghost use Rattle.zeb_register.specs.Kept.{record_shown};
ghost use Rattle.zeb_register.specs.PlainRows.{posting_row};
ghost use Rattle.zeb_register.specs.PrivateRowExpected.{key_shown, next_three, posting_shown, text_rows};
ghost use Rattle.zeb_register.specs.PrivateRowPlaces.{first_three};
ghost use Rattle.zeb_register.specs.Store.{entry};

use crate::values::{is_blob, is_number, is_text};
use crate::{ListedDatabase, Record};
use sqlite::Row;
use zeb_blocks::Posting;
use zeb_keys::Key;

/// A posting under its key.
#[derive(Debug, PartialEq, Eq, Drop)]
pub struct KeyPosting {
    pub key: Key,
    pub posting: Posting,
}

/// A database as it has to be: its name, the greatest system number that it has given, its records in rising order of system number, and
/// its postings, rising by key, system number and place.
#[derive(Debug, PartialEq, Eq, Drop)]
pub struct ExpectedDatabase {
    pub name: String,
    pub last: u64,
    pub records: Vec<Record>,
    pub postings: Vec<KeyPosting>,
}

/// A store as it has to be: its three texts, which are its version, the profile's canonical text and the identifier's rule; and its databases,
/// rising by the bytes of their names.
#[derive(Debug, PartialEq, Eq, Drop)]
pub struct Expected {
    pub version: String,
    pub profile: String,
    pub identifier: String,
    pub databases: Vec<ExpectedDatabase>,
}

/// Whether the rows of `meta`, by their names, are just the expected ones.
pub(crate) fn are_texts(rows: &[Row], expected: &Expected) -> bool
    ensures same { result ≡ true → rows.now ≡ text_rows expected.now }
    ensures other { result ≡ false → rows.now ≢ text_rows expected.now }
{
    rows.len() == 3
        && is_entry(&rows[0], "identifier", &expected.identifier)
        && is_entry(&rows[1], "profile", &expected.profile)
        && is_entry(&rows[2], "version", &expected.version)
}

/// Whether a row of `meta` has this name and this text.
fn is_entry(row: &Row, name: &str, text: &str) -> bool
    ensures same { result ≡ true → row.now ≡ entry name.now text.now }
    ensures other { result ≡ false → row.now ≢ entry name.now text.now }
{
    row.column_count() == 2 && is_text(row, 0, name) && is_text(row, 1, text)
}

/// Whether these are databases of the same names with the same last numbers, in the same order.
pub(crate) fn are_named(listed: &[ListedDatabase], databases: &[ExpectedDatabase]) -> bool
    ensures same { result ≡ true → map listed_name listed.now ≡ map expected_name databases.now }
    ensures other { result ≡ false → map listed_name listed.now ≢ map expected_name databases.now }
{
    if listed.len() != databases.len() {
        return false;
    }
    for (at, one) in listed.iter().enumerate() {
        if !is_named(one, &databases[at]) {
            return false;
        }
    }
    true
}

/// Whether the database has the expected name and last number.
fn is_named(listed: &ListedDatabase, database: &ExpectedDatabase) -> bool
    ensures same { result ≡ true → listed_name listed.now ≡ expected_name database.now }
    ensures other { result ≡ false → listed_name listed.now ≢ expected_name database.now }
{
    listed.name.as_str() == database.name.as_str() && listed.last == database.last
}

/// Whether a row shows this record.
pub(crate) fn is_record(row: &Row, kept: &Record) -> bool
    ensures same { result ≡ true → row.now ≡ record_shown kept.now }
    ensures other { result ≡ false → row.now ≢ record_shown kept.now }
{
    row.column_count() == 3
        && is_number(row, 0, kept.sysno)
        && is_text(row, 1, &kept.ident)
        && is_blob(row, 2, &kept.bytes)
}

/// Whether a row shows this posting under its key.
pub(crate) fn is_posting(row: &Row, expected: &KeyPosting) -> bool
    ensures same { result ≡ true → row.now ≡ posting_shown expected.now }
    ensures other { result ≡ false → row.now ≢ posting_shown expected.now }
{
    row.column_count() == 6 && is_key(row, &expected.key) && is_place(row, &expected.posting)
}

/// Whether a row begins with this key.
pub(crate) fn is_key(row: &Row, key: &Key) -> bool
    ensures same { result ≡ true → first_three row.now ≡ key_shown key.now }
    ensures other { result ≡ false → first_three row.now ≢ key_shown key.now }
{
    is_number(row, 0, u64::from(key.index))
        && is_number(row, 1, u64::from(key.register.code()))
        && is_text(row, 2, key.term.as_str())
}

/// Whether a row shows this posting behind a key.
fn is_place(row: &Row, posting: &Posting) -> bool
    ensures same { result ≡ true → next_three row.now ≡ posting_row posting.now }
    ensures other { result ≡ false → next_three row.now ≢ posting_row posting.now }
{
    is_number(row, 3, posting.sysno)
        && is_number(row, 4, posting.seq)
        && is_number(row, 5, posting.pos)
}
