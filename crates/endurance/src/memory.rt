//! The program while memory is refused. Whichever allocation is refused (tests/each_allocation.py of the repository refuses each in
//! turn), a run writes its ordinary answer, or ends in status 3; and run again it writes its ordinary answer.

use crate::rows::{Done, Row};
use crate::runs::{End, Ends, FAILED, Input, OPEN};
use command_rows::sessions::Stopped;
use std::alloc::Global;
use std::test::Fail;
use zeb_leaves::Leaves;
use zeb_packed::Blocks;
use zeb_register::Layout;

/// Each kind of words, over a register that holds Moby Dick, and a script.
static RUNS: &str = "\
init -> ok
find|@attr 1=4 moby -> hits 1; 1 a1
scan|--number|3|--position|2|@attr 1=4 d -> dick 1; moby 1
update|b.mrc|in -> inserted 1 updated 2 deleted 0
delete|a.mrc -> inserted 0 updated 0 deleted 1
-s|update|a.mrc -> record 1 1 a1; Title:w 2 2 dick; Title:w 2 1 moby; Title:w 3 1 or; \
Title:w 3 2 the; Title:w 3 3 whale; Title:p 2 1 moby dick; Date:n 4 1 1851; Any:w 4 1 c1851; \
Any:w 2 2 dick; Any:w 2 1 moby; Any:w 3 1 or; Any:w 3 2 the; Any:w 3 3 whale
batch < update Default in; find Default dock -> inserted 1 updated 1 deleted 0; hits 1; 1 a1
shell < delete Default hex:moby; find Default moby -> inserted 0 updated 0 deleted 1; hits 0
 < store x; identifier 001; att 4 Title; melm 245 Title; .; init; update Default hex:cafe; \
find Default @attr 1=4 cafe -> ok; inserted 1 updated 0 deleted 0; hits 1; 1 b2";

/// What a run may write whose memory, or whose store for want of it, failed.
const FAILURES: [&str; 3] = [": out of memory\n", ": store fault\n", " Memory\n"];

/// A run that failed has written a first part of its answer and nothing else, or said that memory or the store failed.
fn is_failure(row: &Row, ends: &Ends) -> bool {
    let (output, faults) = (ends.output.text(), ends.faults.text());
    let is_named = FAILURES
        .iter()
        .any(|line| output.contains(*line) || faults.contains(*line));
    is_named || row.output.as_str().starts_with(output) && faults.is_empty()
}

/// A run gives its ordinary answer. One that fails counts as one without memory.
fn is_answered<L: Layout>(alloc: Global, line: &str) -> Done {
    let row = Row::read(alloc, line)?;
    let mut input = Input::new(row.input.as_bytes(), usize::MAX, End::Told);
    let ends = Ends::run_loaded::<L>(OPEN, &row, &mut input)?;
    if ends.status == FAILED && is_failure(&row, &ends) {
        return Err(Stopped::Memory);
    }
    ends.are(&row, false)
}

/// Each run over a register of a layout, again where it failed.
fn are_answered<L: Layout>(alloc: Global) -> Result<(), Fail> {
    for line in RUNS.split('\n') {
        match is_answered::<L>(alloc, line) {
            Err(Stopped::Memory) => is_answered::<L>(alloc, line)?,
            outcome => outcome?,
        }
    }
    Ok(())
}

#[test]
fn memory_or_the_ordinary_answer(rt: HostRuntime) -> Result<(), Fail> {
    are_answered::<Blocks>(rt.alloc())
}

#[test]
fn memory_or_the_ordinary_answer_in_leaves(rt: HostRuntime) -> Result<(), Fail> {
    are_answered::<Leaves>(rt.alloc())
}
