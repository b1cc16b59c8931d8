//! Worked samples that the tests of several crates have in common, and no product code: records and profiles by their names.
#![tactic(auto)]

use std::alloc::{AllocError, Global};

/// `Moby Dick : or, the whale /` of 1851, the same with a slip in its title, one whose accent is a character of its own, one with a word twice;
/// a record without a field, and the leader and the directory of `moby` alone.
static RECORDS: [(&str, &str); 7] = [
    (
        "moby",
        "00109nam a2200061 a 4500001000300000245003300003260001100036\x1e\
        a1\x1e10\x1faMoby Dick :\x1fbor, the whale /\x1e\x20\x20\x1fcc1851.\x1e\x1d",
    ),
    (
        "dock",
        "00109nam a2200061 a 4500001000300000245003300003260001100036\x1e\
        a1\x1e10\x1faMoby Dock :\x1fbor, the whale /\x1e\x20\x20\x1fcc1851.\x1e\x1d",
    ),
    (
        "cafe",
        "00064nam a2200049 a 4500001000300000245001100003\x1eb2\x1e00\x1faCafe\u{301}\x1e\x1d",
    ),
    (
        "again",
        "00095nam a2200061 a 4500001000300000245002100003260000900024\x1e\
        c3\x1e10\x1faMoby again, Moby\x1e\x20\x20\x1fc1902\x1e\x1d",
    ),
    ("bare", "00026nam a2200025 a 4500\x1e\x1d"),
    (
        "cut",
        "00109nam a2200061 a 4500001000300000245003300003260001100036",
    ),
    ("nothing", ""),
];

/// Titles by their words and whole, dates by their numbers, and any words; the same with a use attribute of subjects, and no whole titles; titles
/// by their words alone; and these of records that are named by their titles.
static PROFILES: [(&str, &str); 4] = [
    (
        "books",
        "store books.db\nidentifier 001\natt 4 Title\natt 31 Date\natt 1016 Any\n\
        melm 245$a Title:w,Title:p\nmelm 245 Title:w\nmelm 260$c Date:n\nall Any\n",
    ),
    (
        "subjects",
        "store books.db\nidentifier 001\natt 4 Title\natt 31 Date\natt 1016 Any\natt 21 Any\n\
        melm 245$a Title:w\nmelm 245 Title:w\nmelm 260$c Date:n\nall Any\n",
    ),
    (
        "titles",
        "store books.db\nidentifier 001\natt 4 Title\nmelm 245 Title\n",
    ),
    (
        "by-title",
        "store books.db\nidentifier 245$a\natt 4 Title\nmelm 245 Title\n",
    ),
];

/// What a table has under a name, or else the name.
fn named<'a>(table: &[(&'static str, &'static str)], name: &'a str) -> &'a str {
    let found = table.iter().find(|row| row.0 == name);
    found.map_or(name, |row| row.1)
}

/// The bytes of the record of this name, or of the text itself where none has it.
pub fn record(name: &str) -> &[u8] {
    named(&RECORDS, name).as_bytes()
}

/// The profile of this name, or the text itself where none has it.
pub fn profile(name: &str) -> &str {
    named(&PROFILES, name)
}

/// The name of the record with these bytes, if there are any and one has them.
pub fn name_of(bytes: &[u8]) -> Option<&'static str> {
    let mut rows = RECORDS.iter();
    let found = rows.find(|row| !bytes.is_empty() && row.1.as_bytes() == bytes);
    found.map(|row| row.0)
}

/// The bytes of records, whose names have `+` between.
pub fn records(alloc: Global, names: &str) -> Result<Vec<u8>, AllocError> {
    let mut bytes = Vec::new(alloc);
    for name in names.split('+') {
        bytes.extend_from_slice(record(name))?;
    }
    Ok(bytes)
}
