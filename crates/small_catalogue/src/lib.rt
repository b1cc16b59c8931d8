//! A catalogue of one database in a file, over the engine as a library: opened, updated from readers, and asked.
#![tactic(auto)]

ghost use Rattle.std.specs.Prelude.{◌≡◌, IfOk, OnErr};
ghost use Rattle.sqlite.specs.Held.{state};
ghost use Rattle.sqlite.specs.State.{HasCleanDisk};
ghost use Rattle.zeb_register.specs.Calls.{ChangesNothing};

use sqlite::{Alter, Connection, File, FileStore, Unknown};
use std::alloc::Global;
use zeb_engine::{Command, DbName, Kind, Limits, Refusal, Reply, Session};
use zeb_marc::Source;
use zeb_packed::Blocks;
use zeb_profile::Profile;
use zeb_register::Layout;

/// How many of the records found are shown.
const SHOWN: u32 = 10;

/// Opens the register in the file that the profile names, and makes its tables where the file has none. Refused (`Store`, `Memory`)
/// where the file can't be opened, another program holds it, or it has other tables.
///
/// Proved here is that an opened session has this profile. No clause here says which file it is over, what it is refused for, or that
/// tables are made: `Session::adopt` says of a connection what becomes of its tables, and of files nothing is told.
pub fn open(rt: &HostRuntime, profile: Profile) -> Result<Session<FileStore<File>, Blocks>, Refusal>
    ensures given { IfOk result (λ session. session.profile ≡ profile) }
{
    match Connection::open_from(rt, profile.store_path(), false, Unknown) {
        Err(_) => Err(Refusal::Store),
        Ok(connection) => {
            match Session::adopt(rt.alloc(), connection, profile, Limits::GREATEST) {
                Err((_, refusal)) => Err(refusal),
                Ok(session) => Ok(session),
            }
        }
    }
}

/// Takes in all records of the readers, or none: a new one gets the next number, and one that is there keeps its own.
///
/// Proved here is that nothing changes where it is refused and the disk is clean. No clause here says what an accepted one leaves, of
/// numbers too: `Session::update_from` does, under its premises.
pub fn take_in<S: Alter, L: Layout, R: Source>(
    session: &mut Session<S, L>,
    database: &DbName,
    readers: &mut [R],
) -> Result<Reply, Refusal>
    ensures refused { HasCleanDisk (state S.Store session.new.connection)
        → OnErr result (ChangesNothing (state S.Store session.old.connection)
        (state S.Store session.new.connection)) }
{
    session.update_from(database, Kind::Update, readers)
}

/// The records on which a query holds: how many, and the first ten of them.
///
/// Proved here is that nothing changes where the disk is clean. No clause here says which records are answered: `Session::command`
/// does, under its premises.
pub fn find<S: Alter, L: Layout>(
    alloc: Global,
    session: &mut Session<S, L>,
    database: DbName,
    query: &str,
) -> Result<Reply, Refusal>
    ensures reads { HasCleanDisk (state S.Store session.new.connection)
        → ChangesNothing (state S.Store session.old.connection)
        (state S.Store session.new.connection) }
{
    let query = String::from_str(alloc, query)?;
    session.command(&Command::Find {
        database,
        query,
        first: 1,
        count: SHOWN,
    })
}
