//! What holds of leaves, whatever their rows: each law is the contract of a function that does nothing.

ghost use Rattle.std.specs.Prelude.{ℕ, ℤ, List};
ghost use Rattle.sqlite.specs.Held.{state};
ghost use Rattle.sqlite.specs.Tree.{Trees};
ghost use Rattle.sqlite_rules.specs.Lists.{Has};
ghost use Rattle.zeb_leaves.specs.LeafSizes.{IsSmall};
ghost use Rattle.zeb_register.specs.Content.{Content};
ghost use Rattle.zeb_register.specs.Covering.{Covers, ShowsEntries, leaf_key};
ghost use Rattle.zeb_register.specs.HeldLeaves.{HoldsLeaves, IsLeafAlone};
ghost use Rattle.zeb_register.specs.LeafUnits.{AreLeavesMiscounted, IsLeafOf, LeavesCount};
ghost use Rattle.zeb_register.specs.Store.{IsStore};

use sqlite::{Alter, Connection};

/// Where the tables hold a content, each leaf that shows more than one entry has at most 3,000 bytes. Of its size a leaf needs no more: one
/// that covers its entries, and has as few bytes, is such as tables that hold a content have.
pub fn leaves_of_several_entries_are_small()
    ensures held { (trees : Trees) (content : Content) → HoldsLeaves trees content
        → (db : ℤ) (key : _) (leaf : _) → IsLeafOf trees db key leaf → IsSmall leaf }
    ensures small { (trees : Trees) (db : ℤ) (key : _) (leaf : _)
        → IsLeafAlone (IsLeafOf trees db key) leaf → IsSmall leaf }
    ensures alone { (trees : Trees) (db : ℤ) (key : _) (leaf : _) (entries : List _)
        → ShowsEntries leaf entries
        → ((e : _) → Has entries e
        → Covers (IsLeafOf trees db key) (leaf_key e.term e.block) leaf)
        → IsSmall leaf → IsLeafAlone (IsLeafOf trees db key) leaf }
{}

/// In the tables of a store no key is neither miscounted nor has a number of records, whatever its leaves are.
pub fn each_key_counts_or_is_miscounted<S: Alter>(conn: &Connection<S>)
    ensures { IsStore (state S.Store conn.now) → (db : ℤ) (key : _)
        → ¬ ((¬ AreLeavesMiscounted (state S.Store conn.now).now.trees db key)
        × ((records : ℕ) → ¬ LeavesCount (state S.Store conn.now).now.trees db key records)) }
{
    let _ = conn;
}
