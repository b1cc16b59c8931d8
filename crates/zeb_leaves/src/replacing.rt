//! What holds where leaves are written, whatever the rows: each law is the contract of a function that does nothing.

ghost use Rattle.std.specs.Prelude.{◌≡◌, ◌↔◌, ℕ, ℤ, List, Contains};
ghost use Rattle.sqlite.specs.Tree.{Trees};
ghost use Rattle.zeb_leaf.specs.Merging.{AreChanges, AreMerged, puts};
ghost use Rattle.zeb_register.specs.Covering.{Covers, leaf_key};
ghost use Rattle.zeb_register.specs.HeldLeaves.{IsLeafAlone};
ghost use Rattle.zeb_leaves.specs.LeafChanges.{BeginsLeavesOf, ReplacesLeafOf};
ghost use Rattle.zeb_register.specs.LeafUnits.{IsLeafOf, LeavesReadBlock};
ghost use Rattle.zeb_register.specs.Readings.{IsPartMalformed, SayPart};

/// Where leaves take the place of one, a block that it covered reads as their entries say, and is malformed where they say nothing of it.
/// Each other block of the register reads as it did, and is malformed where it was. Where each leaf covered its entries and was small, each
/// does and is.
pub fn leaves_take_the_place_of_one()
    ensures reads { (old new : Trees) (db : ℤ) (key : _) (was : _) (entries : List _)
        → ReplacesLeafOf old new db key was entries
        → (block : ℕ) → Covers (IsLeafOf old db key) (leaf_key key.term block) was
        → (part : List _) → SayPart entries key.term block part
        → LeavesReadBlock new db key block part }
    ensures malformed { (old new : Trees) (db : ℤ) (key : _) (was : _) (entries : List _)
        → ReplacesLeafOf old new db key was entries
        → (block : ℕ) → Covers (IsLeafOf old db key) (leaf_key key.term block) was
        → ((part : List _) → ¬ SayPart entries key.term block part)
        → IsPartMalformed (IsLeafOf new db key) key.term block }
    ensures stays { (old new : Trees) (db : ℤ) (key : _) (was : _) (entries : List _)
        → ReplacesLeafOf old new db key was entries
        → (block : ℕ) → ¬ Covers (IsLeafOf old db key) (leaf_key key.term block) was
        → (part : List _)
        → LeavesReadBlock old db key block part ↔ LeavesReadBlock new db key block part }
    ensures still_malformed { (old new : Trees) (db : ℤ) (key : _) (was : _) (entries : List _)
        → ReplacesLeafOf old new db key was entries
        → (block : ℕ) → ¬ Covers (IsLeafOf old db key) (leaf_key key.term block) was
        → IsPartMalformed (IsLeafOf old db key) key.term block
        ↔ IsPartMalformed (IsLeafOf new db key) key.term block }
    ensures alone { (old new : Trees) (db : ℤ) (key : _) (was : _) (entries : List _)
        → ReplacesLeafOf old new db key was entries
        → ((leaf : _) → IsLeafOf old db key leaf → IsLeafAlone (IsLeafOf old db key) leaf)
        → (leaf : _) → IsLeafOf new db key leaf → IsLeafAlone (IsLeafOf new db key) leaf }
{}

/// Where a register gets its first leaves, each block reads as their entries say, and is malformed where they say nothing of it. Each leaf
/// covers its entries, and is small.
pub fn leaves_begin_a_register()
    ensures reads { (new : Trees) (db : ℤ) (key : _) (entries : List _)
        → BeginsLeavesOf new db key entries → (block : ℕ) (part : List _)
        → SayPart entries key.term block part → LeavesReadBlock new db key block part }
    ensures malformed { (new : Trees) (db : ℤ) (key : _) (entries : List _)
        → BeginsLeavesOf new db key entries → (block : ℕ)
        → ((part : List _) → ¬ SayPart entries key.term block part)
        → IsPartMalformed (IsLeafOf new db key) key.term block }
    ensures alone { (new : Trees) (db : ℤ) (key : _) (entries : List _)
        → BeginsLeavesOf new db key entries
        → (leaf : _) → IsLeafOf new db key leaf → IsLeafAlone (IsLeafOf new db key) leaf }
{}

/// Entries that were merged with changes of blocks say of a block that no change touches what the old ones said, and of a changed one what
/// its change puts: nothing, where it puts nothing.
pub fn merged_entries_say_what_was_put()
    ensures stays { (changes old new : List _) → AreMerged changes old new
        → (term : List ℕ) (block : ℕ)
        → ((c : _) → Contains changes c → ¬ ((c.term ≡ term) × (c.block ≡ block)))
        → (part : List _) → SayPart old term block part ↔ SayPart new term block part }
    ensures put { (changes old new : List _) → AreMerged changes old new → AreChanges changes
        → (c : _) → Contains changes c
        → (part : List _) → SayPart (puts c) c.term c.block part ↔ SayPart new c.term c.block part }
{}
