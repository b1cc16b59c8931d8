//! A register in memory: its store's files are gone with it.

ghost use Rattle.std.specs.Prelude.{◌≡◌, false, IfErr, IfOk};
ghost use Rattle.sqlite.specs.Files.{file_state};
ghost use Rattle.sqlite.specs.Steps.{IsEmpty};
ghost use Rattle.zeb_register.specs.Formats.{packed_blocks};
ghost use Rattle.zeb_program.specs.FaultAnswers.{IsOpeningFailure};
ghost use Rattle.zeb_program.specs.ScriptAnswers.{AreScriptConditions, HoldsNothing};
ghost use Rattle.zeb_engine.specs.Sessions.{conditions_in};

use crate::opening::session_over;
use sqlite::{Connection, FileStore, Files, Options};
use sqlite_disk::Memory;
use std::alloc::Global;
use zeb_engine::{Refusal, Session};
use zeb_packed::Blocks;
use zeb_paths::{OpenFailed, StoreCause};
use zeb_profile::Profile;

/// Salts the log, so that frames which an earlier process left aren't taken for new ones. Files in memory have none.
const SEED: u64 = 1;

/// How many pages a transaction may write before the first go to the log: more than a script's records fill. A page
/// that goes there is held there too, once for each time that it goes.
const SPILL_PAGES: usize = 262_144;

/// A session over a register in memory, under the profile and the greatest limits. The register isn't initialised, and holds nothing.
pub fn session_in_memory(
    alloc: Global,
    profile: Profile,
) -> Result<Session<FileStore<Memory>, Blocks>, Refusal>
    ensures empty { IfOk result (λ session. HoldsNothing (file_state session.connection)) }
    ensures under { IfOk result (λ session. AreScriptConditions profile
        (conditions_in packed_blocks session)) }
    ensures failed { IfErr result IsOpeningFailure }
{
    match session_over(alloc, open_in_memory(alloc), profile) {
        Ok(session) => Ok(session),
        Err((_, refusal)) => Err(refusal),
    }
}

/// Opens a store over two new files in memory: it has no table. It fails where memory runs out.
fn open_in_memory(alloc: Global) -> Result<Connection<FileStore<Memory>>, OpenFailed>
    ensures empty { IfOk result (λ connection. IsEmpty (file_state connection)) }
    ensures idle { IfOk result (λ connection. connection.in_transaction ≡ false) }
{
    let files = Files {
        log: Memory::new(alloc),
        db: Memory::new(alloc),
    };
    let mut options = Options::new(SEED);
    options.spill_pages = SPILL_PAGES;
    match Connection::open_files(alloc, files, options) {
        Ok(connection) => Ok(connection),
        Err(_) => Err(OpenFailed {
            cause: Some(StoreCause::Memory),
        }),
    }
}
