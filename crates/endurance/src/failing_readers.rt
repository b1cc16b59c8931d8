//! Readers that fail, or had failed: which is named, and that nothing is changed.

use crate::stories::told;
use std::alloc::{AllocError, AllocGlobal, Global};
use std::test::Fail;
use zeb_leaves::Leaves;
use zeb_packed::Blocks;

/// Readers of a change, and why it is refused: of those that had failed the first is named, whatever the ones before it would give. `dock` gives
/// that record and ends, `cafe!` fails behind it, and `cafe?` had failed.
static HAD_FAILED: &str = "\
cafe? -> 3: file 1: read fault
dock cafe? -> 3: file 2: read fault
cafe? dock -> 3: file 1: read fault
cafe? cafe? -> 3: file 1: read fault
dock cafe? dock cafe? -> 3: file 2: read fault
dock dock cafe? cafe? dock -> 3: file 3: read fault
cafe! cafe? -> 3: file 2: read fault
cafe! dock cafe? cafe? -> 3: file 3: read fault
cafe? cafe! -> 3: file 1: read fault
bare cafe! cafe? -> 3: file 3: read fault";

/// The same of readers that fail as they are read, `dock+cafe!#` behind each of so many first bytes, from none on. What the change would do is
/// to replace or to delete the records that are kept.
static FAIL: &str = "\
174 dock+cafe!# ! -> 3: file 1: read fault
65 dock cafe!# ! -> 3: file 2: read fault
1 bare! -> 1: file 1 record 1: NoIdentifier";

/// What is asked before changes from readers, of which the last leaves two records.
static BEFORE: &str = "\
find Default @attr 1=4 moby -> 1: register not initialised
init -> ok
find Default @attr 1=4 moby -> 1: diagnostic 235 at 0: Default
update Default moby+cafe -> inserted 2 updated 0 deleted 0";

/// What is asked after a change that is refused.
static STILL_LOADED: &str = "\
check -> ok
dump Default -> bytes of moby+cafe
stat Default -> records 2; last 2; Title:w 6 6; Title:p 2 2; Date:n 1 1; Any:w 7 7";

/// Adds changes of each kind from the readers of a row to a story.
fn add_changes(story: &mut String, row: &str) -> Result<(), AllocError> {
    let (words, why) = row.split_once(" -> ").unwrap_or((row, "no arrow"));
    for kind in ["update", "delete", "adelete"] {
        write!(story, "\nfrom {kind} Default {words} -> {why}")?;
    }
    Ok(())
}

/// Before the register is begun, before it has the database, and beside two records.
fn add_named(story: &mut String) -> Result<(), AllocError> {
    for line in BEFORE.split('\n') {
        write!(story, "\n{line}")?;
        for row in HAD_FAILED.split('\n') {
            add_changes(story, row)?;
        }
    }
    write!(story, "\n{STILL_LOADED}")
}

#[test]
fn a_reader_that_had_failed_is_named(rt: HostRuntime) -> Result<(), Fail> {
    let mut story = String::from_str(rt.alloc(), "either books")?;
    add_named(&mut story)?;
    told::<Blocks>(rt.alloc(), &story)?;
    told::<Leaves>(rt.alloc(), &story)
}

/// Adds a row's changes, wherever the readers fail.
fn add_failures(alloc: Global, story: &mut String, row: &str) -> Result<(), AllocError> {
    let (count, row) = row.split_once(' ').unwrap_or(("0", row));
    for place in 0..count.parse::<u64>().unwrap_or(0) {
        let digits = place.to_string(alloc)?;
        add_changes(story, &row.replace(alloc, '#', &digits)?)?;
        write!(story, "\n{STILL_LOADED}")?;
    }
    Ok(())
}

#[test]
fn a_reader_that_fails_is_named(rt: HostRuntime) -> Result<(), Fail> {
    let mut story = ["either books\n", BEFORE].concat(rt.alloc())?;
    for row in FAIL.split('\n') {
        add_failures(rt.alloc(), &mut story, row)?;
    }
    told::<Blocks>(rt.alloc(), &story)?;
    told::<Leaves>(rt.alloc(), &story)
}
