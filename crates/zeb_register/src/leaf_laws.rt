//! What holds of leaves in tables, whatever their rows: each law is the contract of a function that does nothing.

ghost use Rattle.std.specs.Prelude.{◌≡◌, ◌↔◌, ◌∷◌, ℕ, ℤ, List, [], codes};
ghost use Rattle.std.specs.List.{AllByRecursion};
ghost use Rattle.sqlite.specs.Tree.{Trees};
ghost use Rattle.sqlite_rules.specs.Lists.{Has};
ghost use Rattle.zeb_blocks.specs.Worked.{at};
ghost use Rattle.zeb_register.specs.Covering.{Covers, leaf_key, own_key};
ghost use Rattle.zeb_register.specs.DamagedLeaves.{AreAlikeBeside, DifferInLeaf, leaf_row};
ghost use Rattle.zeb_register.specs.HeldLeaves.{AreLeavesAlone, HoldsLeaves, IsLeafAlone};
ghost use Rattle.zeb_register.specs.LeafUnits.{AreLeavesWhole};
ghost use Rattle.zeb_register.specs.LeafUnits.{IsLeafOf, LeavesCount, LeavesRead};
ghost use Rattle.zeb_register.specs.Readings.{IsPartMalformed, LacksSum, PartReads, SumsRecords};
ghost use Rattle.zeb_register.specs.Worked.{cut_leaf, first_leaf, miscounted_leaf, no_text_leaf};
ghost use Rattle.zeb_register.specs.Worked.{second_leaf, stray_leaf};
ghost use Rattle.zeb_register.specs.Content.{Content, HasRisingLists, places_in, posted};
ghost use Rattle.zeb_register.specs.Occurring.{AreTermsOf, HasKey, IsCount};
ghost use Rattle.zeb_register.specs.PackedBlocks.{part_in};

/// Tables hold a content in leaves just where each unit reads as the content says and no row and no entry stands beside. Then each
/// count is that of the content, each block of a key reads as some postings, and each register has a list of its terms.
pub fn units_tell_held_leaves()
    ensures units { (trees : Trees) (content : Content) → HoldsLeaves trees content
        → (db : ℤ) (key : _) (sysno : ℕ)
        → LeavesRead trees db key sysno (places_in sysno (content db key)) }
    ensures held { (trees : Trees) (content : Content) → HasRisingLists content
        → ((db : ℤ) (key : _) (sysno : ℕ)
        → LeavesRead trees db key sysno (places_in sysno (content db key)))
        → AreLeavesAlone trees → HoldsLeaves trees content }
    ensures counts { (trees : Trees) (content : Content) → HoldsLeaves trees content
        → (db : ℤ) (key : _) (records : ℕ)
        → LeavesCount trees db key records ↔ IsCount (HasKey (posted content db) key) records }
    ensures whole { (trees : Trees) (content : Content) → HoldsLeaves trees content
        → (db : ℤ) (key : _) → AreLeavesWhole trees db key }
    ensures terms { (trees : Trees) (content : Content) → HoldsLeaves trees content
        → (db : ℤ) (index : ℕ) (register : _)
        → (terms : List _) × AreTermsOf (posted content db) index register terms }
{}

/// Where the tables hold a content, the first leaf of a register that has one has the empty term and block 0 as its own key.
pub fn held_registers_begin_at_the_least_key()
    ensures { (trees : Trees) (content : Content) → HoldsLeaves trees content
        → (db : ℤ) (key : _) (leaf : _) → IsLeafOf trees db key leaf
        → (first : _) × IsLeafOf trees db key first × (own_key first ≡ leaf_key [] 0) }
{}

/// A damaged leaf damages what it covers, and nothing else. Where tables differ in one leaf alone, of which both have the own key, all that this
/// leaf doesn't cover reads, counts, is malformed and is miscounted in both alike, in each register of each database.
pub fn damage_stays_in_its_leaf()
    ensures { (db : ℤ) (key : _) (leaf other : _) (one two : Trees)
        → DifferInLeaf db key leaf other one two
        → AreAlikeBeside (leaf_row db key leaf) one two }
{}

/// The definitions, tried on a register of two leaves. The first has a in record 1 and b in record 1; the second, from block 1 of b
/// on, b in record 256 and c in records 1 and 255. Then on one with an entry that no writer puts where it stands.
pub fn worked_registers()
    ensures covered { AllByRecursion
        (λ key. Covers (Has (first_leaf ∷ second_leaf ∷ [])) key first_leaf)
        (leaf_key (codes "a") 0 ∷ leaf_key (codes "a") 7 ∷ leaf_key (codes "b") 0 ∷ [])
        × AllByRecursion
        (λ key. Covers (Has (first_leaf ∷ second_leaf ∷ [])) key second_leaf)
        (leaf_key (codes "b") 1 ∷ leaf_key (codes "b") 2 ∷ leaf_key (codes "c") 0 ∷ []) }
    ensures read { (block : ℕ)
        → PartReads (Has (first_leaf ∷ second_leaf ∷ [])) (codes "a") block
        (part_in block (at 1 2 2 ∷ []))
        × PartReads (Has (first_leaf ∷ second_leaf ∷ [])) (codes "b") block
        (part_in block (at 1 2 2 ∷ at 256 2 2 ∷ []))
        × PartReads (Has (first_leaf ∷ second_leaf ∷ [])) (codes "c") block
        (part_in block (at 1 2 2 ∷ at 255 1 1 ∷ []))
        × PartReads (Has (first_leaf ∷ second_leaf ∷ [])) (codes "d") block [] }
    ensures counted { SumsRecords (Has (first_leaf ∷ second_leaf ∷ [])) (codes "a") 1
        × SumsRecords (Has (first_leaf ∷ second_leaf ∷ [])) (codes "b") 2
        × SumsRecords (Has (first_leaf ∷ second_leaf ∷ [])) (codes "c") 2
        × SumsRecords (Has (first_leaf ∷ second_leaf ∷ [])) (codes "d") 0 }
    // An entry that another leaf covers is read by nobody, and stands beside.
    ensures stray { PartReads (Has (stray_leaf ∷ second_leaf ∷ [])) (codes "c") 0
        (at 1 2 2 ∷ at 255 1 1 ∷ [])
        × SumsRecords (Has (stray_leaf ∷ second_leaf ∷ [])) (codes "c") 2
        × ¬ IsLeafAlone (Has (stray_leaf ∷ second_leaf ∷ [])) stray_leaf }
{}

/// The definitions of damage, tried on registers that no writer leaves.
pub fn worked_damage()
    // A leaf whose bytes are cut damages what it covers, and nothing else.
    ensures cut { IsPartMalformed (Has (first_leaf ∷ cut_leaf ∷ [])) (codes "b") 1
        × IsPartMalformed (Has (first_leaf ∷ cut_leaf ∷ [])) (codes "c") 0
        × LacksSum (Has (first_leaf ∷ cut_leaf ∷ [])) (codes "b")
        × PartReads (Has (first_leaf ∷ cut_leaf ∷ [])) (codes "b") 0 (at 1 2 2 ∷ [])
        × SumsRecords (Has (first_leaf ∷ cut_leaf ∷ [])) (codes "a") 1 }
    // A leaf whose own term is no text damages what it covers, as é.
    ensures no_text { IsPartMalformed (Has (first_leaf ∷ no_text_leaf ∷ [])) (0xc3 ∷ 0xa9 ∷ []) 0 }
    // What no leaf covers is malformed, and what an entry miscounts.
    ensures uncovered { IsPartMalformed (Has (second_leaf ∷ [])) (codes "a") 0 }
    ensures miscounted { IsPartMalformed (Has (miscounted_leaf ∷ second_leaf ∷ [])) (codes "a") 0 }
{}
