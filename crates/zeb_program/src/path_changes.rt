//! The lines of a batch that name a change by the path of its file.

ghost use Rattle.std.specs.Prelude.{◌≡◌, ◌≢◌, IfNone, IfSome};
ghost use Rattle.sqlite.specs.Held.{state};
ghost use Rattle.sqlite.specs.State.{HasCleanDisk};
ghost use Rattle.zeb_change.specs.declared.settings.Kind.{Kind};
ghost use Rattle.zeb_paths.specs.Walks.{telling_of};
ghost use Rattle.zeb_program.specs.Batches.{kind_word};
ghost use Rattle.zeb_program.specs.PrivateShows.{ShowsPath};
ghost use Rattle.zeb_engine.specs.Sessions.{KeepsConditions, conditions_in};
ghost use Rattle.zeb_program.specs.PrivateSinks.{Sends};

use crate::faults::tell;
use crate::sinks::Sink;
use crate::statuses::Status;
use crate::tasks::change_by_paths;
use sqlite::Alter;
use std::alloc::{AllocError, Global};
use std::io::Write;
use std::slice;
use zeb_engine::{DbName, Kind, Session, render};
use zeb_paths::Paths;
use zeb_register::Layout;

/// A change of a database by the file at a path, or by those below a folder's.
#[derive(Drop)]
pub struct PathChange {
    pub kind: Kind,
    pub database: DbName,
    pub path: String,
}

/// The kind of change that a word names.
pub fn kind_of(word: &str) -> Option<Kind>
    ensures found { IfSome result (λ kind. word.now ≡ kind_word kind) }
    ensures none { IfNone result ((kind : Kind) → word.now ≢ kind_word kind) }
{
    match word {
        "update" => Some(Kind::Update),
        "delete" => Some(Kind::Delete),
        "adelete" => Some(Kind::Adelete),
        _ => None,
    }
}

/// Carries out a change by a path, writes its reply or what kept it from one, and answers the status.
pub fn run_path_change<S: Alter, L: Layout, P: Paths, W: Write>(
    alloc: Global,
    session: &mut Session<S, L>,
    paths: &P,
    change: &PathChange,
    output: &mut Sink<W>,
) -> Result<Status, AllocError>
    // It is answered as the engine says of it on any tables, whatever the paths tell; and where memory runs out it is done all the same, or
    // nothing is.
    ensures shows { Sends output.old output.new (λ bytes. HasCleanDisk (state S.Store
        session.new.connection) → ShowsPath S.Store (telling_of P.Paths paths.now) L.format
        (conditions_in L.format session.old) change.now session.old.connection
        session.new.connection bytes result) }
    // The session stays under its profile and its limits, and its disk was clean where it is.
    ensures stays { KeepsConditions session.old session.new × (HasCleanDisk (state S.Store
        session.new.connection) → HasCleanDisk (state S.Store session.old.connection)) }
{
    let named = slice::from_ref(&change.path);
    match change_by_paths(alloc, session, paths, change.kind, &change.database, named) {
        Ok(reply) => {
            output.write(render(alloc, &reply)?.as_slice());
            Ok(Status::Answered)
        }
        Err(fault) => tell(alloc, &fault, output),
    }
}
