//! Looks at the texts of a store: its layout's version, its profile, and its rule for identifiers.

ghost use Rattle.std.specs.Prelude.{◌≡◌, false, codes, string_bytes, IfErr};
ghost use Rattle.zeb_register.specs.Formats.{version_of};
ghost use Rattle.zeb_change.specs.Reading.{NoReadFault};
ghost use Rattle.zeb_engine.specs.PrivateLooking.{FindsStanding, IsUnready, RefusesVersion, TellsStanding};
ghost use Rattle.zeb_engine.specs.Reindexing.{IsReadyToReindex, RefusesReindex};
ghost use Rattle.zeb_engine.specs.Readiness.{KeepsText, RefusesText, TellsText};
ghost use Rattle.zeb_engine.specs.Upgrading.{RefusesUpgrade};
ghost use Rattle.zeb_engine.specs.PrivateConnections.{LooksAt};

use crate::readiness::{IDENTIFIER, PROFILE, VERSION};
use sqlite::{Alter, Connection};
use std::alloc::Global;
use zeb_change::Refusal;
use zeb_packed::Blocks;
use zeb_profile::Profile;
use zeb_register::{Layout, Rows, meta_of};

/// A layout that others came after.
#[derive(Clone, Copy)]
pub(crate) enum Earlier {
    /// Plain rows.
    First,
    /// Packed blocks.
    Second,
}

/// Where a register stands that an upgrade takes.
#[derive(Clone, Copy)]
pub(crate) enum Standing {
    /// It has the session's layout already.
    Upgraded,
    /// It has a layout before the session's.
    Before(Earlier),
}

/// The version of the tables' layout. `NotInitialised` where none is kept.
pub(crate) fn kept_version<S: Alter>(connection: &mut Connection<S>) -> Result<String, Refusal>
    requires idle { connection.old.in_transaction ≡ false }
    ensures looks { LooksAt S.Store connection.old connection.new result
        (λ trees version. KeepsText trees (codes "version") (string_bytes version)) RefusesVersion }
    ensures few { IfErr result IsUnready }
{
    match meta_of(connection, VERSION)? {
        Some(version) => Ok(version),
        None => Err(Refusal::NotInitialised),
    }
}

/// Whether this text is kept under this name.
pub(crate) fn keeps_text<S: Alter>(
    connection: &mut Connection<S>,
    name: &str,
    text: &str,
) -> Result<bool, Refusal>
    requires idle { connection.old.in_transaction ≡ false }
    ensures looks { LooksAt S.Store connection.old connection.new result
        (TellsText name.now text.now) (RefusesText name.now) }
    ensures few { IfErr result IsUnready }
{
    match meta_of(connection, name)? {
        Some(found) => Ok(found.as_str() == text),
        None => Ok(false),
    }
}

/// Refuses a register that was never initialised, has another layout, or was initialised under another rule for identifiers.
pub(crate) fn check_rule<S: Alter, L: Layout>(
    alloc: Global,
    connection: &mut Connection<S>,
    profile: &Profile,
) -> Result<(), Refusal>
    requires idle { connection.old.in_transaction ≡ false }
    ensures looks { LooksAt S.Store connection.old connection.new result
        (λ trees _. IsReadyToReindex (version_of L.format) profile.now trees)
        (RefusesReindex (version_of L.format) profile.now) }
    ensures unread { NoReadFault result }
{
    let version = kept_version(connection)?;
    if version.as_str() != L::version() {
        return Err(Refusal::OldFormat);
    }
    let pattern = profile.identifier_rule().to_string(alloc)?;
    if keeps_text(connection, IDENTIFIER, pattern.as_str())? {
        Ok(())
    } else {
        Err(Refusal::IdentifierRuleChanged)
    }
}

/// Where a register of this version stands, or `None` where an upgrade doesn't take it.
fn standing_of<L: Layout>(version: &str) -> Option<Standing>
    ensures { TellsStanding (version_of L.format) version.now result }
{
    let own = L::version();
    if version == own {
        Some(Standing::Upgraded)
    } else if version == Rows::version() {
        // Each other layout came after the first.
        Some(Standing::Before(Earlier::First))
    } else if version == Blocks::version() && own != Rows::version() {
        // Each other one but the first came after the second.
        Some(Standing::Before(Earlier::Second))
    } else {
        None
    }
}

/// Where a register stands. Refuses one that was never initialised, has a layout that is neither the session's nor an earlier one, or was
/// initialised under another profile.
pub(crate) fn check_layout<S: Alter, L: Layout>(
    connection: &mut Connection<S>,
    profile: &Profile,
) -> Result<Standing, Refusal>
    requires idle { connection.old.in_transaction ≡ false }
    ensures looks { LooksAt S.Store connection.old connection.new result
        (FindsStanding (version_of L.format) profile.now)
        (RefusesUpgrade (version_of L.format) profile.now) }
    ensures unread { NoReadFault result }
{
    let version = kept_version(connection)?;
    let Some(standing) = standing_of::<L>(version.as_str()) else {
        return Err(Refusal::OldFormat);
    };
    if keeps_text(connection, PROFILE, profile.text())? {
        Ok(standing)
    } else {
        Err(Refusal::ProfileChanged)
    }
}
