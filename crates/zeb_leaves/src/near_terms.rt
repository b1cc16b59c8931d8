//! The terms of a register that are nearest to a text, each with how many records have it. Leaves are read a few at first, and twice as many
//! where these don't serve.

ghost use Rattle.std.specs.Prelude.{◌≡◌, ◌≤◌, []};
ghost use Rattle.sqlite.specs.Held.{state};
ghost use Rattle.zeb_leaves.specs.PrivateNearCalls.{MayTellBeside, TellsBeside};
ghost use Rattle.zeb_register.specs.Connections.{LooksIntoOf};
ghost use Rattle.zeb_register.specs.Formats.{packed_leaves};
ghost use Rattle.zeb_register.specs.Terms.{TellsBefore, TellsFrom};

use crate::first_terms::first_within;
use crate::last_terms::last_within;
use sqlite::{Alter, Connection, Row};
use std::alloc::Global;
use zeb_leaf_rows::{leaf_from, some_row};
use zeb_register::{RegFault, RegisterOf, TermCount};

/// On which side of a text terms are asked for.
#[derive(Drop)]
pub(crate) enum Side {
    /// From the text on. This leaf covers its first block.
    From(Row),
    /// Below the text.
    Below,
}

/// So many terms are expected of each leaf that is read at first. Most leaves have more, but a leaf that isn't needed costs less than to begin
/// anew with twice as many.
const LEAF_TERMS: u64 = 16;

/// How many leaves are read at first for so many terms: one for each whole 16, and two more, since the first may begin before the start and the
/// last end behind the terms.
fn few_leaves(n: u64) -> u32
    ensures { 1 ≤ result }
{
    u32::try_from(n / LEAF_TERMS)
        .unwrap_or(u32::MAX)
        .saturating_add(2)
}

/// The `n` terms of the side that are nearest to the start, by at most `limit` leaves there. `None` where more leaves have to be read.
fn terms_within<S: Alter>(
    alloc: Global,
    conn: &mut Connection<S>,
    at: RegisterOf,
    side: &Side,
    start: &str,
    n: u64,
    limit: u32,
) -> Result<Option<Vec<TermCount>>, RegFault>
    requires { (1 ≤ n) × (1 ≤ limit) }
    ensures { MayTellBeside at start.now n side.now (state S.Store conn.old)
        (state S.Store conn.new) result }
{
    match side {
        Side::From(leaf) => first_within(alloc, conn, at, leaf, start, n, limit),
        Side::Below => last_within(alloc, conn, at, start, n, limit),
    }
}

/// The `n` terms of the side that are nearest to the start.
fn terms_beside<S: Alter>(
    alloc: Global,
    conn: &mut Connection<S>,
    at: RegisterOf,
    side: &Side,
    start: &str,
    n: u64,
) -> Result<Vec<TermCount>, RegFault>
    requires { 1 ≤ n }
    ensures { TellsBeside at start.now n side.now (state S.Store conn.old)
        (state S.Store conn.new) result }
{
    let mut limit = few_leaves(n);
    'turns: for _turn in 0..u32::BITS {
        if let Some(counts) = terms_within(alloc, conn, at, side, start, n, limit)? {
            return Ok(counts);
        }
        limit = limit.saturating_mul(2);
    }
    // So many leaves no memory holds.
    Err(RegFault::Memory)
}

/// No terms. A closed connection is refused also where none is asked for.
fn no_terms<S: Alter>(
    alloc: Global,
    conn: &mut Connection<S>,
    at: RegisterOf,
) -> Result<Vec<TermCount>, RegFault>
    ensures { LooksIntoOf S.Store conn.old conn.new result (λ _. ⊥) (λ _ list. list.items ≡ []) }
{
    some_row(conn, at)?;
    Ok(Vec::new(alloc))
}

/// The first `n` terms of a register that are not below `start` and that some record has, in the order of their bytes, each with the number
/// of these records. The leaves that have to be read are held at once. `Damaged` only by one of these terms.
pub fn terms_from<S: Alter>(
    alloc: Global,
    conn: &mut Connection<S>,
    at: RegisterOf,
    start: &str,
    n: u64,
) -> Result<Vec<TermCount>, RegFault>
    ensures { TellsFrom packed_leaves at start.now n (state S.Store conn.old)
        (state S.Store conn.new) result }
{
    if n == 0 {
        return no_terms(alloc, conn, at);
    }
    match leaf_from(alloc, conn, at, start)? {
        Some(leaf) => terms_beside(alloc, conn, at, &Side::From(leaf), start, n),
        None => Ok(Vec::new(alloc)),
    }
}

/// The last `n` terms of a register that are below `start` and that some record has, in the order of their bytes, each with the number of
/// these records. The leaves that have to be read are held at once. `Damaged` only by one of these terms.
pub fn terms_before<S: Alter>(
    alloc: Global,
    conn: &mut Connection<S>,
    at: RegisterOf,
    start: &str,
    n: u64,
) -> Result<Vec<TermCount>, RegFault>
    ensures { TellsBefore packed_leaves at start.now n (state S.Store conn.old)
        (state S.Store conn.new) result }
{
    if n == 0 || start.is_empty() {
        return no_terms(alloc, conn, at);
    }
    terms_beside(alloc, conn, at, &Side::Below, start, n)
}
