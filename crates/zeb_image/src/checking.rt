//! Whether whole tables are the image of something that can be held.

ghost use Rattle.std.specs.Prelude.{◌≢◌, ◌↔◌, IsSome, IsTrue, List};
ghost use Rattle.zeb_profile.specs.Canonical.{canonical_text};
ghost use Rattle.zeb_register.specs.Formats.{version_of};
ghost use Rattle.zeb_change.specs.Base.{Base};
ghost use Rattle.zeb_image.specs.Holdings.{under};
ghost use Rattle.zeb_image.specs.Image.{IsImage};
ghost use Rattle.zeb_image.specs.Looking.{Looks};
ghost use Rattle.zeb_image.specs.PrivateChecking.{IsExpectationOrNone};
ghost use Rattle.zeb_register.specs.Connections.{IsReasonedOf, ReadingOf, TellsOf};

use crate::checking_databases::expected_databases;
use sqlite::{Alter, Connection};
use std::alloc::Global;
use zeb_profile::Profile;
use zeb_register::{Expected, Layout, RegFault};

/// Whether the tables are the image of a register of this layout under this profile: its texts, its databases with their last numbers
/// and their records, and the registers that follow from these, and no other row.
///
/// It changes nothing, and never answers `Damaged`; `Store` and `Memory` where it can't be told.
///
/// Two things no clause says, and so they aren't proved: it reads every row of every table, or ends at the first that is part of no image;
/// and it holds all records and their postings at once, for `n` bytes of records some multiple of `n` bytes of memory.
pub fn is_image<S: Alter, L: Layout>(
    alloc: Global,
    connection: &mut Connection<S>,
    profile: &Profile,
) -> Result<bool, RegFault>
    ensures call { ReadingOf S.Store connection.old connection.new result
        (λ it. Looks (IsTrue it)) }
    ensures value { TellsOf S.Store connection.old connection.new result
        (λ trees it. IsTrue it ↔ ((bases : List Base)
        × IsImage trees (under (version_of L.format) (canonical_text profile.now) bases))) }
    ensures honest { result ≢ Err RegFault.Damaged }
    ensures refused { IsReasonedOf S.Store connection.old connection.new result }
{
    // Its profile is some text's.
    profile.is_of_some_text();
    let Some(expected) = expectation::<S, L>(alloc, connection, profile)? else {
        return Ok(false);
    };
    Ok(L::agrees(alloc, connection, &expected)?)
}

/// All that the tables have to hold, by the databases and records that they list; `None` where these can't be held.
fn expectation<S: Alter, L: Layout>(
    alloc: Global,
    connection: &mut Connection<S>,
    profile: &Profile,
) -> Result<Option<Expected>, RegFault>
    ensures call { ReadingOf S.Store connection.old connection.new result
        (λ found. Looks (IsSome found)) }
    ensures value { TellsOf S.Store connection.old connection.new result
        (IsExpectationOrNone L.format profile.now) }
    ensures honest { result ≢ Err RegFault.Damaged }
    ensures refused { IsReasonedOf S.Store connection.old connection.new result }
{
    let Some(databases) = expected_databases(alloc, connection, profile)? else {
        return Ok(None);
    };
    Ok(Some(Expected {
        version: String::from_str(alloc, L::version())?,
        profile: String::from_str(alloc, profile.text())?,
        identifier: profile.identifier_rule().to_string(alloc)?,
        databases,
    }))
}
