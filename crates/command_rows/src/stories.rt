//! Stories: lines that a register is taken through.

use crate::sessions::{Answer, Stopped, ask, lacks_memory, prints};
use sqlite::{Alter, Connection, MemStore};
use std::alloc::{AllocError, Global};
use tables::queries::state;
use zeb_register::{Layout, Rows};

/// A command of a story, the setting that it is asked under, and what is printed for it.
#[derive(Clone, Copy)]
pub struct Row<'a> {
    pub setting: &'a str,
    pub command: &'a str,
    pub wanted: &'a str,
}

/// The commands of a story. A line has commands with `; ` between, an arrow, and what each of them is answered with; one without an arrow is the
/// setting of those below it.
pub fn rows_of(alloc: Global, story: &str) -> Result<Vec<Row<'_>>, AllocError> {
    let mut rows = Vec::new(alloc);
    let mut row = Row {
        setting: "",
        command: "",
        wanted: "",
    };
    for line in story.split('\n') {
        match line.split_once(" -> ") {
            Some((commands, wanted)) => {
                row.wanted = wanted;
                add_rows(&mut rows, row, commands)?;
            }
            None => row.setting = line,
        }
    }
    Ok(rows)
}

/// Adds a row for each command of a line.
fn add_rows<'a>(
    rows: &mut Vec<Row<'a>>,
    row: Row<'a>,
    commands: &'a str,
) -> Result<(), AllocError> {
    for command in commands.split("; ") {
        rows.push(Row { command, ..row })?;
    }
    Ok(())
}

/// A store in memory with the tables of a register, and no row.
pub fn new_store(alloc: Global) -> Result<Connection<MemStore>, AllocError> {
    let new = Connection::open_in_memory(alloc).or(Err(AllocError))?;
    let (store, _) = ask::<MemStore, Rows>(alloc, new, "plain books", "check");
    Ok(store)
}

/// All rows of a store.
fn rows_in<S: Alter>(alloc: Global, store: &mut Connection<S>) -> Result<String, AllocError> {
    state(alloc, store).or(Err(AllocError))
}

/// The answer to a line. A refusal leaves all rows as they were.
fn asked_once<S: Alter + Drop, L: Layout>(
    alloc: Global,
    mut store: Connection<S>,
    setting: &str,
    command: &str,
) -> Result<(Connection<S>, Answer), Stopped> {
    let before = rows_in(alloc, &mut store)?;
    let (left, answer) = ask::<S, L>(alloc, store, setting, command);
    store = left;
    if answer.is_err() && rows_in(alloc, &mut store)?.as_str() != before.as_str() {
        return Err(Stopped::Otherwise(format!(in alloc; "{command}: other rows")?));
    }
    Ok((store, answer))
}

/// The same, asked again where memory is refused for it: at most one request is refused in a run.
pub fn asked<S: Alter + Drop, L: Layout>(
    alloc: Global,
    store: Connection<S>,
    setting: &str,
    command: &str,
) -> Result<(Connection<S>, Answer), Stopped> {
    let (store, answer) = asked_once::<S, L>(alloc, store, setting, command)?;
    if lacks_memory(&answer) {
        return asked_once::<S, L>(alloc, store, setting, command);
    }
    Ok((store, answer))
}

/// Takes a new store through a story, over the layout `L`.
pub fn tell<L: Layout>(alloc: Global, story: &str) -> Result<(), Stopped> {
    let mut store = new_store(alloc)?;
    for row in &rows_of(alloc, story)? {
        let (left, answer) = asked::<MemStore, L>(alloc, store, row.setting, row.command)?;
        prints(alloc, &answer, row.command, row.wanted)?;
        store = left;
    }
    Ok(())
}
