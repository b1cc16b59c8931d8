//! What is said of occurrences and identifiers beside `crates/rows`, which has whose they are: their texts and clones, and a long record.

use crate::rows::{bytes_of, rows_hold};
use std::alloc::{AllocError, Global};
use std::test::Fail;
use zeb_extract::{IdentFault, occurrences};
use zeb_keys::{Key, Occurrence, Register, Term};
use zeb_marc::Marc;
use zeb_profile::Profile;

/// A fault's text, that of a term, a clone of an occurrence of a term, and of the long record how many occurrences it has, and the last one.
static ROWS: &str = "\
fault -> Memory
term  -> nothing
term moby dick -> moby dick
term caf\u{e9} -> caf\u{e9}
clone moby dick -> \
Occurrence { key: Key { index: 2, register: Phrase, term: \"moby dick\" }, seq: 3, pos: 1 }
long -> \
239760, Some(Occurrence { key: Key { index: 7, register: Word, term: \"ab\" }, seq: 9, pos: 3330 })
";

fn term_of(alloc: Global, text: &str) -> Result<Term, AllocError> {
    Ok(Term::new(String::from_str(alloc, text)?))
}

fn occurrence_of(term: Term) -> Occurrence {
    let key = Key {
        index: 2,
        register: Register::Phrase,
        term,
    };
    Occurrence {
        key,
        seq: 3,
        pos: 1,
    }
}

fn equals_its_clone<T: Clone + PartialEq + Drop>(value: &T) -> Result<bool, AllocError> {
    Ok(value.clone()? == *value)
}

/// A clone of an occurrence, where it, its key and its term equal theirs.
fn clone_line(alloc: Global, found: &Occurrence) -> Result<String, AllocError> {
    let are_equal = equals_its_clone(found)?
        && equals_its_clone(&found.key)?
        && equals_its_clone(&found.key.term)?;
    if are_equal {
        let copy = found.clone()?;
        format!(in alloc; "{copy:?}")
    } else {
        String::from_str(alloc, "other clones")
    }
}

/// The leader and the directory of a record with nine fields of 9,995 bytes.
static LONG: &str = "\
90089nam a2200133 a 4500\
500999500000500999509995500999519990500999529985500999539980\
500999549975500999559970500999569965500999579960\x1e";

/// The bytes of a record of nearly the greatest length, of 29,970 words.
fn long_record(alloc: Global) -> Result<Vec<u8>, AllocError> {
    let fields = "+  \x1fa+3330 * ab +\x1e".repeat(alloc, 9)?;
    let parts = [LONG, fields.as_str(), "+\x1d"].concat(alloc)?;
    bytes_of(alloc, &parts)
}

/// How many occurrences a record has, and the last one.
fn counted(alloc: Global, marc: &Marc<'_>, profile: &Profile) -> Result<String, AllocError> {
    let found = occurrences(alloc, marc, profile)?;
    let (count, last) = (found.len(), found.last());
    format!(in alloc; "{count}, {last:?}")
}

/// Under a profile with eight indexes. Were the work quadratic in the number of occurrences, the test would not end in its time.
fn long_line(alloc: Global, record: &[u8]) -> Result<String, AllocError> {
    let profile = Profile::read(alloc, "store s\nidentifier 001\nall A,B,C,D,E,F,G,H\n");
    match (Marc::read(record), profile) {
        (Ok(marc), Ok(profile)) => counted(alloc, &marc, &profile),
        _ => Err(AllocError),
    }
}

fn answer(alloc: Global, text: &str) -> Result<String, AllocError> {
    let (asked, text) = text.split_once(' ').unwrap_or((text, ""));
    match asked {
        "fault" => IdentFault::Memory.to_string(alloc),
        "long" => long_line(alloc, &long_record(alloc)?),
        "term" => term_of(alloc, text)?.to_string(alloc),
        _ => clone_line(alloc, &occurrence_of(term_of(alloc, text)?)),
    }
}

#[test]
fn occurrences_are_told(rt: HostRuntime) -> Result<(), Fail> {
    rows_hold(rt.alloc(), ROWS, answer)
}
