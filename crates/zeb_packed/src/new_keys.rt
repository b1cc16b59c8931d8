//! Whether all keys of a run are new to their register. Then the row of `dict` is looked for once, and not for each key.

ghost use Rattle.std.specs.Prelude.{IsUtf8, IsTrue};
ghost use Rattle.std.specs.List.{AllByRecursion};
ghost use Rattle.zeb_packed.specs.PrivateNewRows.{AreToldNew, IsOfRegister};
ghost use Rattle.zeb_register.specs.Connections.{AsksInsideOf};
ghost use Rattle.zeb_register.specs.RunChanges.{KeysRise};

use crate::statements::packed_changes::dict_from;
use sqlite::{Alter, Error, Transaction};
use std::alloc::Global;
use zeb_keys::Key;
use zeb_register::for_layouts::{KeyOf, nothing_inside};
use zeb_register::{DatabaseId, KeyChanges};

/// What is known of a run before its keys are looked for.
#[derive(Clone, Copy)]
pub(crate) struct RunKnown {
    /// Where lists are made.
    pub(crate) alloc: Global,
    /// No key of the run has a row of `dict`. Where it is false, nothing is known.
    pub(crate) are_new: bool,
}

/// A key's term is UTF-8, which proofs learn where it is read as text. Nothing is done.
pub(crate) fn term_is_text(key: &Key)
    ensures { IsUtf8 key.now.term }
{
    let _text = key.term.as_str();
}

/// Whether the keys of a run are of the register of this key.
fn are_of_register(first: &Key, run: &[KeyChanges<'_>]) -> bool
    ensures { IsTrue result → AllByRecursion (IsOfRegister first.now) run.now }
{
    for one in run {
        if one.key.index != first.index {
            return false;
        }
        if one.key.register.code() != first.register.code() {
            return false;
        }
    }
    true
}

/// What is known of a run by one look. Its keys are new where they are of one register, which has no term from the first on, as where a new
/// database is filled.
pub(crate) fn run_known<S: Alter>(
    tx: &mut Transaction<'_, S>,
    db: DatabaseId,
    run: &[KeyChanges<'_>],
) -> Result<RunKnown, Error>
    requires { KeysRise run.now }
    ensures { AsksInsideOf S.Store tx.old.conn tx.new.conn result
        (λ trees known. AreToldNew known.are_new db.0 run.now trees) }
{
    if run.is_empty() {
        // A closed connection is refused also where there is no key.
        let alloc = nothing_inside(tx)?;
        return Ok(RunKnown {
            alloc,
            are_new: false,
        });
    }
    let first = run[0].key;
    let rows = dict_from(tx, KeyOf { db, key: first })?;
    let alloc = *rows.allocator();
    if !rows.is_empty() {
        return Ok(RunKnown {
            alloc,
            are_new: false,
        });
    }
    let are_new = are_of_register(first, run);
    Ok(RunKnown { alloc, are_new })
}
