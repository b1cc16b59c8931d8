//! Tables that one run makes in files and the next run finds there.

use super::paths::own_path;
use super::{Opened, Outcome};
use crate::disks::connected;
use sqlite::{Alter, Connection, Error, FileStore, Files};
use sqlite_disk::Memory;
use std::alloc::Global;
use std::fs;
use std::test::Fail;
use zeb_register::Rows;

/// The first run fills the tables. The second finds what it left, and changes a list: once for good, once in a transaction
/// that is given up. The third finds the list that the second left, and all else as before.
static RUNS: &str = "\
with begun default filled

do make_tables
use Default
with posted answers
do key_change 0:w <whale> 2 - 2.7
undo key_change 0:w <whale> 1 3.3 9.9

use Default
key_list 0:w <whale> -> 1:3.3,2:2.7,
do key_change 0:w <whale> 2 2.7 -
with posted";

/// Runs a table over a connection, which is given back.
fn run_over<S: Alter + Drop>(
    alloc: Global,
    conn: Connection<S>,
    table: &str,
) -> Result<Connection<S>, Fail> {
    let mut opened = Opened { conn, db: None };
    opened.run::<Rows>(alloc, table)?;
    let Opened { conn, db: _ } = opened;
    Ok(conn)
}

fn closed(conn: Connection<FileStore<Memory>>) -> Result<Files<Memory>, Error> {
    match conn.close_files() {
        Ok(files) => Ok(files),
        Err(failed) => Err(failed.0),
    }
}

/// Runs a table over files, which are given back.
fn run_in_files(alloc: Global, files: Files<Memory>, table: &str) -> Result<Files<Memory>, Fail> {
    let Ok(conn) = connected(alloc, files) else {
        return Err(Fail::new("the files can't be opened"));
    };
    Ok(closed(run_over(alloc, conn, table)?)?)
}

#[test]
fn the_next_run_finds_the_tables_in_files_in_memory(rt: HostRuntime) -> Outcome {
    let mut files = Files {
        log: Memory::new(rt.alloc()),
        db: Memory::new(rt.alloc()),
    };
    for table in RUNS.split("\n\n") {
        files = run_in_files(rt.alloc(), files, table)?;
    }
    Ok(())
}

/// Runs a table over the file at a path, and closes it, or leaves it open.
fn run_in_file(rt: &HostRuntime, path: &str, table: &str, is_closed: bool) -> Outcome {
    let conn = run_over(rt.alloc(), Connection::open(rt, path)?, table)?;
    if is_closed {
        conn.close()?;
    }
    Ok(())
}

/// The second run leaves the file open: what it committed is there all the same.
#[test]
fn the_next_run_finds_the_tables_in_a_file(rt: HostRuntime) -> Outcome {
    let folder = own_path(&rt, "tables")?;
    fs::create_dir_all(&rt, folder.as_str())?;
    let path = format!(in rt.alloc(); "{folder}/books.db")?;
    for (place, table) in RUNS.split("\n\n").enumerate() {
        run_in_file(&rt, &path, table, place == 0)?;
    }
    fs::remove_dir_all(&rt, folder.as_str())?;
    Ok(())
}
