//! Requests for memory that are refused: to be run with each refused in turn (tests/each_allocation.py of the repository).

use super::{Done, Opened, Outcome, row_of};
use crate::queries::state;
use sqlite::{Connection, MemStore};
use std::alloc::{AllocError, Global};
use std::test::Fail;
use zeb_register::{RegFault, Rows};

/// Does a step once more, if all rows are as they were.
fn answer_again(
    alloc: Global,
    opened: &mut Opened<MemStore>,
    step: &str,
    before: &str,
    text: &mut String,
) -> Done {
    if state(alloc, &mut opened.conn)?.as_str() != before {
        return Err(RegFault::Store);
    }
    text.clear();
    opened.answer::<Rows>(alloc, step, text)
}

/// Does a step. A refused one leaves all rows as they were, and gets its answer where memory is there.
fn answer_or_memory(
    alloc: Global,
    opened: &mut Opened<MemStore>,
    step: &str,
    text: &mut String,
) -> Done {
    let before = state(alloc, &mut opened.conn)?;
    match opened.answer::<Rows>(alloc, step, text) {
        Err(RegFault::Memory) => answer_again(alloc, opened, step, &before, text),
        done => done,
    }
}

/// A line gets its answer.
fn run_line(alloc: Global, opened: &mut Opened<MemStore>, line: &str) -> Outcome {
    let (step, wanted) = row_of::<Rows>(line).ok_or("no row")?;
    let mut text = String::new(alloc);
    let done = answer_or_memory(alloc, opened, step, &mut text);
    if done.is_ok() && text.as_str() == wanted {
        return Ok(());
    }
    Err(Fail::new(line))
}

/// The tables and a database.
static BEGUN: &str = "\
do make_tables
do database_put Default 0";

/// Calls that write, and between them calls that read what is then there.
static STEPS: &str = "\
do make_tables
do meta_put version 1
meta_of version -> 1
do database_put Other 1
do database_put Default 5
database_of Default -> 5
do record_put 3 a1 x
records -> 3 a1 x,
do record_of_ident a1 -> 3 x
ident_of 3 -> a1
do key_change 0:w <whale> 3 - 2.1,2.4
do key_change 0:w <whale> 3 2.1,2.4 2.1,5.1
key_list 0:w <whale> -> 3:2.1,3:5.1,
terms_of 0:w -> whale 1,
terms_from 0:w <a> 2 -> whale 1,
terms_before 0:w <x> 2 -> whale 1,
totals 0:w -> 1 2
do record_take 3
do database_take
do wipe";

/// Does a step at the second try, if not at the first.
fn begin(alloc: Global, opened: &mut Opened<MemStore>, step: &str) -> Done {
    let text = &mut String::new(alloc);
    if opened.answer::<Rows>(alloc, step, text).is_ok() {
        return Ok(());
    }
    opened.answer::<Rows>(alloc, step, text)
}

/// A store in memory, made again where memory was refused.
fn connection(alloc: Global) -> Result<Connection<MemStore>, AllocError> {
    match Connection::open_in_memory(alloc) {
        Ok(conn) => Ok(conn),
        Err(_) => Connection::open_in_memory(alloc),
    }
}

fn run(alloc: Global, opened: &mut Opened<MemStore>) -> Outcome {
    for step in BEGUN.split('\n') {
        begin(alloc, opened, step)?;
    }
    for line in STEPS.split('\n') {
        run_line(alloc, opened, line)?;
    }
    if state(alloc, &mut opened.conn)?.is_empty() {
        return Ok(());
    }
    Err(Fail::new("rows are left"))
}

/// Holds whichever request for memory is refused.
#[test]
fn one_request_for_memory_may_be_refused(rt: HostRuntime) -> Outcome {
    let conn = connection(rt.alloc())?;
    run(rt.alloc(), &mut Opened { conn, db: None })
}
