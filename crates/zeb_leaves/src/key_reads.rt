//! What leaves say of a key: its postings, and its count.

ghost use Rattle.sqlite.specs.Held.{state};
ghost use Rattle.zeb_leaves.specs.KeyReads.{CountsLeafKey};
ghost use Rattle.zeb_register.specs.Formats.{packed_leaves};
ghost use Rattle.zeb_register.specs.Units.{ListsKey};

use crate::said_postings::postings_said;
use crate::spans::{span_leaves, spans_in};
use sqlite::{Alter, Connection};
use std::alloc::Global;
use zeb_blocks::Posting;
use zeb_keys::Key;
use zeb_leaf::records_said;
use zeb_register::for_layouts::text_above;
use zeb_register::{DatabaseId, RegFault, RegisterOf};

/// The postings of a key, rising: those that its units say. `Damaged` only where one of its blocks is malformed.
pub fn key_list<S: Alter>(
    alloc: Global,
    conn: &mut Connection<S>,
    db: DatabaseId,
    key: &Key,
) -> Result<Vec<Posting>, RegFault>
    ensures { ListsKey packed_leaves db.0 key.now (state S.Store conn.old)
        (state S.Store conn.new) result }
{
    let at = RegisterOf {
        db,
        index: key.index,
        register: key.register,
    };
    let term = key.term.as_str();
    let end = text_above(alloc, term)?;
    let rows = span_leaves(alloc, conn, at, term, end.as_str())?;
    let held = spans_in(alloc, &rows, term.as_bytes(), end.as_str().as_bytes())?;
    Ok(postings_said(alloc, &held)?)
}

/// How many records have a key: so many as its entries say together. What their blocks spell isn't asked. `Damaged` only where it has no count.
pub fn key_count<S: Alter>(
    alloc: Global,
    conn: &mut Connection<S>,
    db: DatabaseId,
    key: &Key,
) -> Result<u64, RegFault>
    ensures { CountsLeafKey db.0 key.now (state S.Store conn.old) (state S.Store conn.new)
        result }
{
    let at = RegisterOf {
        db,
        index: key.index,
        register: key.register,
    };
    let term = key.term.as_str();
    let end = text_above(alloc, term)?;
    let rows = span_leaves(alloc, conn, at, term, end.as_str())?;
    let held = spans_in(alloc, &rows, term.as_bytes(), end.as_str().as_bytes())?;
    Ok(records_said(&held)?)
}
