//! The program by words over the file system, one run after the other.

use crate::rows::{Done, Row};
use crate::runs::{End, Ends, Input, OPEN};
use std::test::Fail;
use std::{env, fs, io, process};
use worked_samples::record;
use zeb_paths::Disk;

/// Runs before those below: of a folder without a register, and of a register that is to be in leaves.
const NONE: &str = "-c|%/zebra.cfg|stat -> 1: register not initialised; 1: register is %/books.db";

const LEAVES: &str = "-c|%/zebra.cfg|init|--leaves -> ok";

/// Runs of the program, each on what the ones before it left; `%` stands for the folder. A file that is there and can't be read is, on
/// Linux, the process's own memory, from address 0 on. The last three: another profile, a store that can't be made, and no profile.
static RUNS: &str = "\
-c|%/zebra.cfg|batch < init; update Default %/in; find Default moby -> ok; \
inserted 2 updated 0 deleted 0; hits 1; 1 a1
-c|%/zebra.cfg|find|@or moby cafe -> hits 2; 1 a1; 2 b2
-c|%/zebra.cfg|-s|update|%/in/a -> record 1 1 a1; Any:w 2 2 dick; Any:w 2 1 moby
-c|%/zebra.cfg|update|%/in|%/none -> 3: cannot read %/none; 3: cause: nothing stands there
-c|%/zebra.cfg|delete|%/in/b|/proc/self/mem -> 3: file 2: read fault; \
3: file 2 is /proc/self/mem; 3: cause: the system failed a call
-c|%/zebra.cfg|-s|update|/proc/self/mem -> 3: cannot read /proc/self/mem; \
3: cause: the system failed a call
-c|%/zebra.cfg|stat -> records 2; last 2; Any:w 3 3
-c|%/zebra.cfg|delete|%/in/b -> inserted 0 updated 0 deleted 1
-c|%/zebra.cfg|-d|X|update|%/in/b -> inserted 1 updated 0 deleted 0
-c|%/zebra.cfg|find|cafe -> hits 0
-c|%/zebra.cfg|-d|X|find|cafe -> hits 1; 1 b2
-c|%/other.cfg|find|moby -> 1: profile differs from the register's
-c|%/lost.cfg|init -> 3: store fault; 3: cause: no such folder; 3: register is %/none/books.db
-c|%/none.cfg|init -> 3: cannot read %/none.cfg; 3: cause: nothing stands there";

/// How each profile begins, before the path of its store.
const BEGIN: &str = "identifier 001\natt 1016 Any\nstore ";

/// Profiles: their names, and their stores and what their indexes have.
const PROFILES: [(&str, &str); 3] = [
    ("zebra.cfg", "books.db\nmelm 245$a Any\n"),
    ("other.cfg", "books.db\nmelm 245 Any\n"),
    ("lost.cfg", "none/books.db\nmelm 245$a Any\n"),
];

fn write_file(rt: &HostRuntime, path: [&str; 3], bytes: &[u8]) -> io::Result<()> {
    fs::write(rt, path.concat(rt.alloc())?.as_str(), bytes)
}

/// Writes the profiles, and two records in a folder of their own.
fn write_files(rt: &HostRuntime, folder: &str) -> io::Result<()> {
    fs::create_dir_all(rt, [folder, "/in"].concat(rt.alloc())?.as_str())?;
    write_file(rt, [folder, "/in", "/a"], record("moby"))?;
    write_file(rt, [folder, "/in", "/b"], record("cafe"))?;
    for (name, rest) in PROFILES {
        let text = [BEGIN, folder, "/", rest].concat(rt.alloc())?;
        write_file(rt, [folder, "/", name], text.as_bytes())?;
    }
    Ok(())
}

/// A run over the folder is answered as its line says.
fn is_run_in(rt: &HostRuntime, folder: &str, line: &str) -> Done {
    let row = Row::read(rt.alloc(), &line.replace(rt.alloc(), '%', folder)?)?;
    let mut input = Input::new(row.input.as_bytes(), usize::MAX, End::Told);
    Ends::run(OPEN, &row, &mut input, &mut Disk::new(rt)).are(&row, false)
}

/// The runs in a folder, behind this one.
fn run_in(rt: &HostRuntime, folder: &str, first: &str) -> Result<(), Fail> {
    write_files(rt, folder)?;
    is_run_in(rt, folder, first)?;
    for line in RUNS.split('\n') {
        is_run_in(rt, folder, line)?;
    }
    fs::remove_dir_all(rt, folder)?;
    Ok(())
}

/// The path of a folder of this name.
fn folder_of(rt: &HostRuntime, name: &str) -> io::Result<String> {
    let (temporary, process) = (env::temp_dir(rt)?, process::id(rt.process()));
    Ok(format!(in rt.alloc(); "{}/zebraidx-{name}-{process}", temporary.as_str())?)
}

#[test]
fn keeps_a_register_on_disk(rt: HostRuntime) -> Result<(), Fail> {
    run_in(&rt, &folder_of(&rt, "blocks")?, NONE)
}

#[test]
fn keeps_a_register_in_leaves_on_disk(rt: HostRuntime) -> Result<(), Fail> {
    run_in(&rt, &folder_of(&rt, "leaves")?, LEAVES)
}
