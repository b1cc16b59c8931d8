//! The commands that write and take in no records, each in one transaction.

ghost use Rattle.std.specs.Prelude.{◌≡◌, ◌≢◌, Err, [], codes, false, IsTrue, OnOk, IfErr};
ghost use Rattle.sqlite.specs.Held.{state};
ghost use Rattle.sqlite.specs.State.{Survives};
ghost use Rattle.zeb_profile.specs.Canonical.{canonical_text};
ghost use Rattle.zeb_register.specs.Answers.{Answers, IfDamaged};
ghost use Rattle.zeb_register.specs.Calls.{GoesOn};
ghost use Rattle.zeb_register.specs.Formats.{version_of};
ghost use Rattle.zeb_register.specs.Store.{meta_tree};
ghost use Rattle.zeb_change.specs.declared.settings.Limits.{Limits};
ghost use Rattle.zeb_change.specs.Conditions.{conditions};
ghost use Rattle.zeb_change.specs.Outcomes.{register_refusal};
ghost use Rattle.zeb_change.specs.RecordChanges.{OnRowsOf};
ghost use Rattle.zeb_image.specs.NameOf.{name_bytes};
ghost use Rattle.zeb_image.specs.Rebuilding.{AreSound};
ghost use Rattle.zeb_engine.specs.PrivateConnections.{CommandedOf};
ghost use Rattle.zeb_engine.specs.Costs.{no_work};
ghost use Rattle.zeb_engine.specs.PrivateDatabaseChanges.{Transacts};
ghost use Rattle.zeb_engine.specs.PrivateDone.{CommandDone};
ghost use Rattle.zeb_engine.specs.PrivateLooking.{IsAskRefusal};
ghost use Rattle.zeb_engine.specs.PrivateWriting.{LeavesNoDatabase, CreatesDatabase, DropsNamed, IsUnsound, IsWriteRefusal, MakesRow, PutsTexts, RemakesRows, TakesRows, WriteDoes, WriteWorks};
ghost use Rattle.zeb_register.specs.Connections.{InsideOf};

use crate::commands::Command;
use crate::readiness::{IDENTIFIER, PROFILE, VERSION, existing_database};
use crate::replies::Reply;
use sqlite::{Alter, Connection, Error, Transaction};
use std::alloc::Global;
use zeb_change::Refusal;
use zeb_image::{DbName, rebuild};
use zeb_profile::Profile;
use zeb_register::{DatabaseId, Layout, RegFault, database_of, database_put, meta_put, wipe};

/// A command that writes, other than a change by the records of files.
#[derive(Clone, Copy)]
pub(crate) enum Write<'a> {
    /// No database, under this profile, of whose identifier rule this is the pattern.
    Init {
        profile: &'a Profile,
        pattern: &'a str,
    },
    /// An empty database, of a name that has none.
    Create(&'a DbName),
    /// No database of this name any more, which the tables know by this id.
    Drop(&'a DbName, DatabaseId),
    /// This profile, and the registers of what is kept by it.
    Reindex {
        alloc: Global,
        profile: &'a Profile,
    },
    /// This layout, and the registers of what is kept under this profile in it.
    Upgrade {
        alloc: Global,
        profile: &'a Profile,
    },
}

/// The three texts of a register whose tables hold no text.
fn put_texts<S: Alter>(
    tx: &mut Transaction<'_, S>,
    version: &str,
    text: &str,
    pattern: &str,
) -> Result<(), Error>
    ensures call { InsideOf S.Store tx.old.conn tx.new.conn result (λ _. GoesOn) }
    ensures put { OnRowsOf S.Store tx.old.conn tx.new.conn
        ((state S.Store tx.old.conn.now).now.trees meta_tree ≡ []
        → OnOk result (PutsTexts version.now text.now pattern.now (state S.Store tx.old.conn.now)
        (state S.Store tx.new.conn.now))) }
{
    meta_put(tx, VERSION, version)?;
    meta_put(tx, PROFILE, text)?;
    meta_put(tx, IDENTIFIER, pattern)?;
    Ok(())
}

/// No row but the three texts, whatever rows there were.
fn init<S: Alter, L: Layout>(
    tx: &mut Transaction<'_, S>,
    profile: &Profile,
    pattern: &str,
) -> Result<(), RegFault>
    ensures call { InsideOf S.Store tx.old.conn tx.new.conn result (λ _. GoesOn) }
    ensures begins { OnRowsOf S.Store tx.old.conn tx.new.conn
        (OnOk result (LeavesNoDatabase L.format profile.now pattern.now
        (state S.Store tx.new.conn.now).now)) }
    ensures whole { result ≢ Err RegFault.Damaged }
{
    wipe(tx)?;
    put_texts(tx, L::version(), profile.text(), pattern)?;
    Ok(())
}

/// An empty database under a name that has none.
fn create<S: Alter, L: Layout>(tx: &mut Transaction<'_, S>, name: &DbName) -> Result<(), RegFault>
    ensures call { InsideOf S.Store tx.old.conn tx.new.conn result (λ _. GoesOn) }
    ensures makes { OnRowsOf S.Store tx.old.conn tx.new.conn (Answers (IfDamaged ⊥)
        (λ _. MakesRow (name_bytes name.now) (state S.Store tx.old.conn.now).now
        (state S.Store tx.new.conn.now).now) result) }
{
    database_put(tx, name.as_str(), 0)?;
    Ok(())
}

/// No database of this id, with its records and postings.
fn take<S: Alter, L: Layout>(
    tx: &mut Transaction<'_, S>,
    name: &DbName,
    id: DatabaseId,
) -> Result<(), RegFault>
    ensures call { InsideOf S.Store tx.old.conn tx.new.conn result (λ _. GoesOn) }
    ensures takes { OnRowsOf S.Store tx.old.conn tx.new.conn (Answers (IfDamaged ⊥)
        (λ _. TakesRows L.format id.0 (state S.Store tx.old.conn.now).now
        (state S.Store tx.new.conn.now).now) result) }
{
    L::database_take(tx, id)?;
    Ok(())
}

/// The registers made anew by this profile, whose text is kept then.
fn reindex<S: Alter, L: Layout>(
    alloc: Global,
    tx: &mut Transaction<'_, S>,
    profile: &Profile,
) -> Result<(), RegFault>
    ensures call { InsideOf S.Store tx.old.conn tx.new.conn result (λ _. GoesOn) }
    ensures remakes { OnRowsOf S.Store tx.old.conn tx.new.conn
        (Answers (IfDamaged (IsUnsound profile.now (state S.Store tx.old.conn.now).now.trees))
        (λ _. AreSound profile.now (state S.Store tx.old.conn.now).now.trees
        × RemakesRows L.format profile.now (codes "profile") (canonical_text profile.now)
        (state S.Store tx.old.conn.now).now (state S.Store tx.new.conn.now).now) result) }
{
    rebuild::<S, L>(alloc, tx, profile)?;
    meta_put(tx, PROFILE, profile.text())?;
    Ok(())
}

/// The registers made anew in this layout, whose version is kept then.
fn upgrade<S: Alter, L: Layout>(
    alloc: Global,
    tx: &mut Transaction<'_, S>,
    profile: &Profile,
) -> Result<(), RegFault>
    ensures call { InsideOf S.Store tx.old.conn tx.new.conn result (λ _. GoesOn) }
    ensures remakes { OnRowsOf S.Store tx.old.conn tx.new.conn
        (Answers (IfDamaged (IsUnsound profile.now (state S.Store tx.old.conn.now).now.trees))
        (λ _. RemakesRows L.format profile.now (codes "version") (version_of L.format)
        (state S.Store tx.old.conn.now).now (state S.Store tx.new.conn.now).now) result) }
{
    rebuild::<S, L>(alloc, tx, profile)?;
    meta_put(tx, VERSION, L::version())?;
    Ok(())
}

fn apply<S: Alter, L: Layout>(
    tx: &mut Transaction<'_, S>,
    write: &Write<'_>,
) -> Result<(), RegFault>
    ensures call { InsideOf S.Store tx.old.conn tx.new.conn result (λ _. GoesOn) }
    ensures works { OnRowsOf S.Store tx.old.conn tx.new.conn
        (WriteWorks L.format write.now (state S.Store tx.old.conn.now).now
        (state S.Store tx.new.conn.now).now result) }
    ensures few { IfErr result (λ fault. IsWriteRefusal write.now (register_refusal fault)) }
{
    match write {
        Write::Init { profile, pattern } => init::<S, L>(tx, profile, pattern),
        Write::Create(name) => create::<S, L>(tx, name),
        Write::Drop(name, id) => take::<S, L>(tx, name, *id),
        Write::Reindex { alloc, profile } => reindex::<S, L>(*alloc, tx, profile),
        Write::Upgrade { alloc, profile } => upgrade::<S, L>(*alloc, tx, profile),
    }
}

/// Does a write in one transaction. The commit is the last that the store is asked.
pub(crate) fn transact<S: Alter, L: Layout>(
    connection: &mut Connection<S>,
    write: &Write<'_>,
) -> Result<Reply, Refusal>
    requires idle { connection.old.in_transaction ≡ false }
    ensures commanded { CommandedOf S.Store connection.old connection.new result }
    ensures transacts { Transacts (WriteDoes L.format write.now) (state S.Store connection.old)
        (state S.Store connection.new) result }
    ensures few { IfErr result (IsWriteRefusal write.now) }
    // Of a connection that is shut nothing is committed.
    ensures opened { Survives (state S.Store connection.old) (state S.Store connection.new)
        (λ _. IsTrue (state S.Store connection.old).is_open) }
{
    let _settled = connection.is_autocommit();
    let mut tx = connection.transaction();
    apply::<S, L>(&mut tx, write)?;
    tx.commit()?;
    Ok(Reply::Done)
}

/// The register holds no database then, under this profile.
pub(crate) fn init_register<S: Alter, L: Layout>(
    alloc: Global,
    connection: &mut Connection<S>,
    profile: &Profile,
) -> Result<Reply, Refusal>
    requires idle { connection.old.in_transaction ≡ false }
    ensures idle { connection.new.in_transaction ≡ false }
    ensures done { (limits : Limits) → CommandDone S.Store L.format L.row_work L.block_rows
        (conditions (version_of L.format) profile.now limits) Command.Init connection.old
        connection.new
        result no_work }
{
    // Its profile is some text's.
    profile.is_of_some_text();
    let pattern = profile.identifier_rule().to_string(alloc)?;
    transact::<S, L>(
        connection,
        &Write::Init {
            profile,
            pattern: pattern.as_str(),
        },
    )
}

/// Makes an empty database; `Exists` where the name has one.
pub(crate) fn create_database<S: Alter, L: Layout>(
    connection: &mut Connection<S>,
    name: &DbName,
) -> Result<Reply, Refusal>
    requires idle { connection.old.in_transaction ≡ false }
    ensures commanded { CommandedOf S.Store connection.old connection.new result }
    // Whatever the tables hold, it goes by the row of the name.
    ensures transacts { Transacts (CreatesDatabase (name_bytes name.now))
        (state S.Store connection.old) (state S.Store connection.new) result }
    ensures few { IfErr result IsAskRefusal }
{
    let found = database_of(connection, name.as_str())?;
    match found {
        Some(_) => Err(Refusal::Exists),
        None => transact::<S, L>(connection, &Write::Create(name)),
    }
}

/// Takes a database away with its records and postings; where there is none, diagnostic 235, which names it.
pub(crate) fn drop_database<S: Alter, L: Layout>(
    alloc: Global,
    connection: &mut Connection<S>,
    name: &DbName,
) -> Result<Reply, Refusal>
    requires idle { connection.old.in_transaction ≡ false }
    ensures commanded { CommandedOf S.Store connection.old connection.new result }
    ensures transacts { Transacts (DropsNamed L.format (name_bytes name.now))
        (state S.Store connection.old) (state S.Store connection.new) result }
    ensures few { IfErr result IsAskRefusal }
{
    let database = existing_database::<S, L>(alloc, connection, name)?;
    transact::<S, L>(connection, &Write::Drop(name, database.id))
}
