//! The leaves of a database beside the postings that are expected of it.

ghost use Rattle.std.specs.Prelude.{◌∷◌, []};
ghost use Rattle.std.specs.List.Sorted.{IsStrictlySortedBy};
ghost use Rattle.sqlite.specs.declared.types.Value.TheVariants.{Int};
ghost use Rattle.zeb_leaves.specs.PrivateAgreeing.{HoldsPostings};
ghost use Rattle.zeb_register.specs.Connections.{AsksWhetherOf};
ghost use Rattle.zeb_register.specs.Expected.{key_posting_order};
ghost use Rattle.zeb_register.specs.Store.{IsRest, blocks_tree};

use crate::agreeing_walk::leaves_walked;
use sqlite::{Alter, Connection, Error};
use std::alloc::Global;
use zeb_register::KeyPosting;

/// Whether the leaves under the id of a database hold these postings, which rise, and nothing else. It changes nothing.
pub(crate) fn leaves_hold<S: Alter>(
    alloc: Global,
    conn: &mut Connection<S>,
    db: i64,
    postings: &[KeyPosting],
) -> Result<bool, Error>
    ensures { AsksWhetherOf S.Store conn.old conn.new
        (λ trees. HoldsPostings (IsRest blocks_tree (Int db ∷ []) trees) postings.now)
        (IsStrictlySortedBy key_posting_order postings.now) result }
{
    leaves_walked(alloc, conn, db, postings)
}
