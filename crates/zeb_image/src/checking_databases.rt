//! What is expected of the databases that tables list.

ghost use Rattle.std.specs.Prelude.{◌≢◌, IsSome};
ghost use Rattle.sqlite.specs.State.{IsUnchanged};
ghost use Rattle.zeb_image.specs.Looking.{Looks};
ghost use Rattle.zeb_image.specs.PrivateChecking.{AreMadeOrNone, IsMadeOrNone};
ghost use Rattle.zeb_register.specs.Connections.{IsReasonedOf, ReadingOf, TellsOf};

use crate::checking_records::postings_of;
use crate::names::DbName;
use sqlite::{Alter, Connection};
use std::alloc::Global;
use zeb_change::Limits;
use zeb_profile::Profile;
use zeb_register::{ExpectedDatabase, ListedDatabase, RegFault, databases, records};

/// What is expected of all databases that the tables list, or `None` where a row can't be read or is of nothing that can be held.
pub(crate) fn expected_databases<S: Alter>(
    alloc: Global,
    connection: &mut Connection<S>,
    profile: &Profile,
) -> Result<Option<Vec<ExpectedDatabase>>, RegFault>
    ensures call { ReadingOf S.Store connection.old connection.new result
        (λ found. Looks (IsSome found)) }
    ensures value { TellsOf S.Store connection.old connection.new result
        (AreMadeOrNone profile.now) }
    ensures honest { result ≢ Err RegFault.Damaged }
    ensures refused { IsReasonedOf S.Store connection.old connection.new result }
{
    let list = match databases(alloc, connection) {
        Ok(list) => list,
        Err(RegFault::Damaged) => return Ok(None),
        Err(fault) => return Err(fault),
    };
    let mut expected = Vec::new(alloc);
    for listed in list {
        let Some(made) = expected_database(alloc, connection, profile, listed)? else {
            return Ok(None);
        };
        expected.push(made)?;
    }
    Ok(Some(expected))
}

/// What is expected of one database, or `None` where its row or a row of its records can't be read or is of nothing that can be held.
fn expected_database<S: Alter>(
    alloc: Global,
    connection: &mut Connection<S>,
    profile: &Profile,
    listed: ListedDatabase,
) -> Result<Option<ExpectedDatabase>, RegFault>
    ensures call { ReadingOf S.Store connection.old connection.new result
        (λ found old new. IsSome found → IsUnchanged old new) }
    ensures value { TellsOf S.Store connection.old connection.new result
        (λ trees. IsMadeOrNone profile.now trees listed) }
    ensures honest { result ≢ Err RegFault.Damaged }
    ensures refused { IsReasonedOf S.Store connection.old connection.new result }
{
    let ListedDatabase { id, name, last } = listed;
    if last > Limits::GREATEST.numbers || DbName::read(name.as_str()).is_none() {
        return Ok(None);
    }
    let records = match records(alloc, connection, id) {
        Ok(records) => records,
        Err(RegFault::Damaged) => return Ok(None),
        Err(fault) => return Err(fault),
    };
    let Some(postings) = postings_of(alloc, profile, last, &records)? else {
        return Ok(None);
    };
    Ok(Some(ExpectedDatabase {
        name,
        last,
        records,
        postings,
    }))
}
