//! Commands over files that stop at some call, each call in turn. What is opened again after it dumps and checks as before the command
//! that was under way, or as after it, whichever layout and profile it is opened under.

use crate::rows::Done;
use command_rows::sessions::{Stopped, ask, lacks_memory, prints};
use command_rows::stories::{Row, rows_of};
use sqlite::{Connection, FileStore, Files};
use sqlite_disk::{Crash, Fuse, Memory};
use std::alloc::Global;
use std::test::Fail;
use tables::disks::connected;
use zeb_leaves::Leaves;
use zeb_packed::Blocks;
use zeb_register::Layout;

/// Commands on new files, and those on the same files once they were closed. Then how the files look before the first of them and after each:
/// with bars between, what is printed for a dump and a check in each of `SETTINGS`, with a comma between where these differ.
struct Case {
    begun: &'static str,
    then: &'static str,
    looks: &'static str,
}

/// A row for each posting under `books`, the layout in question under `books`, and the same under `subjects`.
const SETTINGS: [&str; 3] = ["plain books", "either books", "either subjects"];

static CHANGED: Case = Case {
    begun: "",
    then: "\
either books
init -> ok
update Default moby -> inserted 1 updated 0 deleted 0
update Default dock -> inserted 0 updated 1 deleted 0
delete Default dock -> inserted 0 updated 0 deleted 1",
    looks: "\
1: register not initialised|1: register not initialised|1: register not initialised
1: register has another format|1: diagnostic 235 at 0: Default, ok|1: profile differs from the register's
1: register has another format|bytes of moby, ok|1: profile differs from the register's
1: register has another format|bytes of dock, ok|1: profile differs from the register's
1: register has another format|bytes of nothing, ok|1: profile differs from the register's",
};

/// A record that is replaced thrice in a command, one that is asked for twice, and the database.
static TAKEN: Case = Case {
    begun: "\
either books
init -> ok
update Default cafe+moby -> inserted 2 updated 0 deleted 0",
    then: "\
either books
update Default dock moby+dock -> inserted 0 updated 3 deleted 0
adelete Default cafe+cafe -> inserted 0 updated 0 deleted 1
drop Default -> ok
create Default -> ok",
    looks: "\
1: register not initialised|1: register not initialised|1: register not initialised
1: register has another format|1: diagnostic 235 at 0: Default, ok|1: profile differs from the register's
1: register has another format|bytes of cafe+moby, ok|1: profile differs from the register's
1: register has another format|bytes of cafe+dock, ok|1: profile differs from the register's
1: register has another format|bytes of dock, ok|1: profile differs from the register's
1: register has another format|1: diagnostic 235 at 0: Default, ok|1: profile differs from the register's
1: register has another format|bytes of nothing, ok|1: profile differs from the register's",
};

static REINDEXED: Case = Case {
    begun: "\
either books
init -> ok
update Default moby -> inserted 1 updated 0 deleted 0",
    then: "either subjects\nreindex -> ok",
    looks: "\
1: register not initialised|1: register not initialised|1: register not initialised
1: register has another format|1: diagnostic 235 at 0: Default, ok|1: profile differs from the register's
1: register has another format|bytes of moby, ok|1: profile differs from the register's
1: register has another format|1: profile differs from the register's|bytes of moby, ok",
};

/// The registers of `moby`, of which a word is gone, or in leaves all words of titles, and in which one stands that no record has.
static DAMAGED: Case = Case {
    begun: "\
either books
init -> ok
update Default moby -> inserted 1 updated 0 deleted 0
alter DELETE FROM blocks WHERE idx = 0 AND reg = 0 AND term IN ('', 'moby') -> ok
alter INSERT INTO dict SELECT id, 0, 0, 'zebra', 1 FROM databases -> ok",
    then: "either books\nreindex -> ok",
    looks: "\
1: register not initialised|1: register not initialised|1: register not initialised
1: register has another format|1: diagnostic 235 at 0: Default, ok|1: profile differs from the register's
1: register has another format|bytes of moby, ok|1: profile differs from the register's
1: register has another format|bytes of moby, 1: register damaged|1: profile differs from the register's
1: register has another format|bytes of moby, 1: register damaged|1: profile differs from the register's
1: register has another format|bytes of moby, ok|1: profile differs from the register's",
};

static UPGRADED: Case = Case {
    begun: "\
plain books
init -> ok
update Default moby -> inserted 1 updated 0 deleted 0",
    then: "either books\nupgrade -> ok",
    looks: "\
1: register not initialised|1: register not initialised|1: register not initialised
1: diagnostic 235 at 0: Default, ok|1: register has another format|1: register has another format
bytes of moby, ok|1: register has another format|1: register has another format
1: register has another format|bytes of moby, ok|1: profile differs from the register's",
};

/// Files that stop after so many calls.
type Stopping = Files<Fuse<Memory>>;

type OnFiles = Connection<FileStore<Fuse<Memory>>>;

/// New files, of which the log, or else the database file, stops after so many calls.
fn stopping(alloc: Global, calls: u64, is_log: bool) -> Stopping {
    let (log_calls, db_calls) = if is_log {
        (calls, u64::MAX)
    } else {
        (u64::MAX, calls)
    };
    Files {
        log: Fuse::new(Memory::new(alloc), log_calls),
        db: Fuse::new(Memory::new(alloc), db_calls),
    }
}

/// Asks a command, if each one before it was answered as it should be. For the disk it is refused as for want of memory.
fn step<L: Layout>(alloc: Global, store: OnFiles, row: Row<'_>, outcome: &mut Done) -> OnFiles {
    if outcome.is_err() {
        return store;
    }
    let (store, answer) = ask::<FileStore<Fuse<Memory>>, L>(alloc, store, row.setting, row.command);
    *outcome = match lacks_memory(&answer) {
        true => Err(Stopped::Memory),
        false => prints(alloc, &answer, row.command, row.wanted),
    };
    store
}

/// Opens files, asks commands there, counts those that were answered as they should be, and closes the files.
fn run<L: Layout>(
    alloc: Global,
    files: Stopping,
    rows: &[Row<'_>],
    (count, outcome): (&mut usize, &mut Done),
) -> Stopping {
    let mut store = match connected(alloc, files) {
        Ok(store) => store,
        Err(files) => {
            *outcome = Err(Stopped::Memory);
            return files;
        }
    };
    for row in rows {
        store = step::<L>(alloc, store, *row, outcome);
        *count = count.saturating_add(usize::from(outcome.is_ok()));
    }
    store.into_store().close()
}

/// Asks how a store looks.
fn look<L: Layout>(alloc: Global, mut store: OnFiles, line: &str, outcome: &mut Done) -> OnFiles {
    for (setting, wanted) in SETTINGS.iter().zip(line.split('|')) {
        let (dump, check) = wanted.split_once(", ").unwrap_or((wanted, wanted));
        for (command, wanted) in [("dump Default", dump), ("check", check)] {
            let row = Row {
                setting,
                command,
                wanted,
            };
            store = step::<L>(alloc, store, row, outcome);
        }
    }
    store
}

/// Whether a store looks as it did after so many commands, or after one more.
fn looks_so<L: Layout>(alloc: Global, mut store: OnFiles, looks: &str, count: usize) -> bool {
    for line in looks.split('\n').skip(count).take(2) {
        let mut outcome = Ok(());
        store = look::<L>(alloc, store, line, &mut outcome);
        if outcome.is_ok() {
            return true;
        }
    }
    false
}

/// The same of what a crash leaves on files.
fn is_left<L: Layout>(alloc: Global, mut files: Stopping, looks: &str, count: usize) -> bool {
    files.log.crash();
    files.db.crash();
    match connected(alloc, files) {
        Ok(store) => looks_so::<L>(alloc, store, looks, count),
        Err(_) => false,
    }
}

/// Asks commands on files until they stop. Whether they didn't.
fn goes_on<L: Layout>(
    alloc: Global,
    files: Stopping,
    (begun, then): (&[Row<'_>], &[Row<'_>]),
    looks: &str,
) -> Result<bool, Fail> {
    let (mut count, mut outcome) = (0, Ok(()));
    let mut files = run::<L>(alloc, files, begun, (&mut count, &mut outcome));
    if outcome.is_ok() {
        files = run::<L>(alloc, files, then, (&mut count, &mut outcome));
    }
    match (outcome, is_left::<L>(alloc, files, looks, count)) {
        (Err(Stopped::Otherwise(text)), _) => Err(Fail::new(text)),
        (outcome, true) => Ok(outcome.is_ok()),
        _ => Err(Fail::new("other files are left")),
    }
}

/// Stops the log or the database file at its n-th call, for each n until all commands are answered.
fn stops_anywhere<L: Layout>(
    alloc: Global,
    commands: (&[Row<'_>], &[Row<'_>]),
    looks: &str,
    is_log: bool,
) -> Result<(), Fail> {
    for calls in 0..2_000u64 {
        if goes_on::<L>(alloc, stopping(alloc, calls, is_log), commands, looks)? {
            return Ok(());
        }
    }
    Err(Fail::new("the disk always stops"))
}

/// The same over packed blocks, and over leaves.
fn stops_in_either(alloc: Global, case: &Case, is_log: bool) -> Result<(), Fail> {
    let (begun, then) = (rows_of(alloc, case.begun)?, rows_of(alloc, case.then)?);
    let commands = (begun.as_slice(), then.as_slice());
    stops_anywhere::<Blocks>(alloc, commands, case.looks, is_log)?;
    stops_anywhere::<Leaves>(alloc, commands, case.looks, is_log)
}

#[test]
fn a_log_that_stops_leaves_whole_commands(rt: HostRuntime) -> Result<(), Fail> {
    stops_in_either(rt.alloc(), &CHANGED, true)?;
    stops_in_either(rt.alloc(), &TAKEN, true)
}

#[test]
fn a_file_that_stops_leaves_whole_commands(rt: HostRuntime) -> Result<(), Fail> {
    stops_in_either(rt.alloc(), &CHANGED, false)?;
    stops_in_either(rt.alloc(), &TAKEN, false)
}

#[test]
fn a_renewal_that_stops_leaves_what_a_check_finds(rt: HostRuntime) -> Result<(), Fail> {
    for case in [&REINDEXED, &DAMAGED, &UPGRADED] {
        stops_in_either(rt.alloc(), case, true)?;
        stops_in_either(rt.alloc(), case, false)?;
    }
    Ok(())
}
