//! The commands that make the registers anew from the kept records, each in one transaction.

ghost use Rattle.std.specs.Prelude.{◌≡◌, ◌≢◌, ◌↔◌, false, IsTrue, List};
ghost use Rattle.zeb_profile.specs.Canonical.{canonical_text};
ghost use Rattle.zeb_register.specs.Formats.{version_of};
ghost use Rattle.zeb_change.specs.Base.{Base};
ghost use Rattle.zeb_image.specs.Holdings.{under};
ghost use Rattle.zeb_image.specs.Image.{IsImage};
ghost use Rattle.zeb_image.specs.Looking.{Looks};
ghost use Rattle.zeb_change.specs.declared.settings.Limits.{Limits};
ghost use Rattle.zeb_change.specs.Conditions.{conditions};
ghost use Rattle.zeb_engine.specs.Costs.{no_work};
ghost use Rattle.zeb_engine.specs.PrivateDone.{CommandDone};
ghost use Rattle.zeb_engine.specs.PrivateLooking.{earlier_version};
ghost use Rattle.zeb_register.specs.Connections.{ReadingOf, TellsOf};

use crate::commands::Command;
use crate::looks::{Earlier, Standing, check_layout, check_rule};
use crate::replies::Reply;
use crate::writes::{Write, transact};
use sqlite::{Alter, Connection};
use std::alloc::Global;
use zeb_change::Refusal;
use zeb_image::is_image;
use zeb_packed::Blocks;
use zeb_profile::Profile;
use zeb_register::{Layout, RegFault, Rows};

/// Puts the session's profile in the place of the register's, and makes the registers anew by it. `IdentifierRuleChanged` where the
/// profiles have other rules for identifiers; `Damaged` where `rebuild` tells it, or where the texts of the store can't be read.
pub(crate) fn reindex<S: Alter, L: Layout>(
    alloc: Global,
    connection: &mut Connection<S>,
    profile: &Profile,
) -> Result<Reply, Refusal>
    requires idle { connection.old.in_transaction ≡ false }
    ensures idle { connection.new.in_transaction ≡ false }
    ensures done { (limits : Limits) → CommandDone S.Store L.format L.row_work L.block_rows
        (conditions (version_of L.format) profile.now limits) Command.Reindex connection.old
        connection.new
        result no_work }
{
    // Its profile is some text's, both texts of the session are UTF-8, and it has a rule for identifiers.
    profile.is_of_some_text();
    let _version = L::version();
    let _text = profile.text();
    let _rule = profile.identifier_rule();
    check_rule::<S, L>(alloc, connection, profile)?;
    transact::<S, L>(connection, &Write::Reindex { alloc, profile })
}

/// Whether the tables are the image of what is held, in the earlier layout.
fn is_earlier_image<S: Alter>(
    alloc: Global,
    connection: &mut Connection<S>,
    profile: &Profile,
    earlier: Earlier,
) -> Result<bool, RegFault>
    ensures call { ReadingOf S.Store connection.old connection.new result
        (λ it. Looks (IsTrue it)) }
    ensures value { TellsOf S.Store connection.old connection.new result
        (λ trees it. IsTrue it ↔ ((bases : List Base)
        × IsImage trees (under (earlier_version earlier) (canonical_text profile.now) bases))) }
    ensures honest { result ≢ Err RegFault.Damaged }
{
    match earlier {
        Earlier::First => is_image::<S, Rows>(alloc, connection, profile),
        Earlier::Second => is_image::<S, Blocks>(alloc, connection, profile),
    }
}

/// Makes the registers of an earlier layout anew in this one. Where the register has this one already, nothing changes. `Damaged` where the
/// tables of the earlier layout aren't the image of what is held; they are as before then.
pub(crate) fn upgrade<S: Alter, L: Layout>(
    alloc: Global,
    connection: &mut Connection<S>,
    profile: &Profile,
) -> Result<Reply, Refusal>
    requires idle { connection.old.in_transaction ≡ false }
    ensures idle { connection.new.in_transaction ≡ false }
    ensures done { (limits : Limits) → CommandDone S.Store L.format L.row_work L.block_rows
        (conditions (version_of L.format) profile.now limits) Command.Upgrade connection.old
        connection.new
        result no_work }
{
    // What is shown is what was committed.
    let _settled = connection.is_autocommit();
    // Its profile is some text's, and both texts of the session are UTF-8.
    profile.is_of_some_text();
    let _version = L::version();
    let _text = profile.text();
    let standing = check_layout::<S, L>(connection, profile)?;
    match standing {
        Standing::Upgraded => Ok(Reply::Done),
        Standing::Before(earlier) => {
            if is_earlier_image(alloc, connection, profile, earlier)? {
                transact::<S, L>(connection, &Write::Upgrade { alloc, profile })
            } else {
                Err(Refusal::Damaged)
            }
        }
    }
}
