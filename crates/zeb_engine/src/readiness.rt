//! Whether a register may be used by a session, and which of its databases is meant.

ghost use Rattle.std.specs.Prelude.{◌≡◌, false, IfErr};
ghost use Rattle.zeb_register.specs.Formats.{version_of};
ghost use Rattle.zeb_image.specs.NameOf.{name_bytes};
ghost use Rattle.zeb_engine.specs.PrivateLooking.{FindsNamed, IsUnready, RefusesTexts};
ghost use Rattle.zeb_engine.specs.Readiness.{IsReadyFor};
ghost use Rattle.zeb_engine.specs.PrivateConnections.{AsksTables, LooksAt, LooksReady};

use crate::looks::{keeps_text, kept_version};
use sqlite::{Alter, Connection};
use std::alloc::Global;
use zeb_change::Refusal;
use zeb_image::DbName;
use zeb_profile::Profile;
use zeb_register::{Database, Layout, database_of};

/// The row that holds the version of the tables' layout.
pub(crate) const VERSION: &str = "version";

/// The row that holds the profile's canonical text.
pub(crate) const PROFILE: &str = "profile";

/// The row that holds the pattern of the profile's identifier rule.
pub(crate) const IDENTIFIER: &str = "identifier";

/// The Bib-1 diagnostic of a database that is not there.
const NO_DATABASE: u32 = 235;

/// Refuses a register that was never initialised, has another layout, or was initialised under another profile.
pub(crate) fn check_ready<S: Alter, L: Layout>(
    connection: &mut Connection<S>,
    profile: &Profile,
) -> Result<(), Refusal>
    requires idle { connection.old.in_transaction ≡ false }
    ensures looks { LooksReady S.Store (version_of L.format) profile.now connection.old
        connection.new result }
{
    // What is shown is what was committed.
    let _settled = connection.is_autocommit();
    // Both texts of the session are UTF-8.
    let _version = L::version();
    let _text = profile.text();
    check_texts::<S, L>(connection, profile)
}

/// Refuses texts of a store that aren't those of a register which is ready.
fn check_texts<S: Alter, L: Layout>(
    connection: &mut Connection<S>,
    profile: &Profile,
) -> Result<(), Refusal>
    requires idle { connection.old.in_transaction ≡ false }
    ensures looks { LooksAt S.Store connection.old connection.new result
        (λ trees _. IsReadyFor (version_of L.format) profile.now trees)
        (RefusesTexts (version_of L.format) profile.now) }
    ensures few { IfErr result IsUnready }
{
    let version = kept_version(connection)?;
    if version.as_str() != L::version() {
        return Err(Refusal::OldFormat);
    }
    if keeps_text(connection, PROFILE, profile.text())? {
        Ok(())
    } else {
        Err(Refusal::ProfileChanged)
    }
}

/// The database of this name; where there is none, diagnostic 235, which names it.
pub(crate) fn existing_database<S: Alter, L: Layout>(
    alloc: Global,
    connection: &mut Connection<S>,
    name: &DbName,
) -> Result<Database, Refusal>
    requires idle { connection.old.in_transaction ≡ false }
    // Whatever the tables hold, it goes by the row of the name.
    ensures { AsksTables S.Store connection.old connection.new result
        (FindsNamed (name_bytes name.now)) }
{
    match database_of(connection, name.as_str())? {
        Some(database) => Ok(database),
        None => Err(Refusal::Diagnostic {
            number: NO_DATABASE,
            place: 0,
            addinfo: String::from_str(alloc, name.as_str())?,
        }),
    }
}
