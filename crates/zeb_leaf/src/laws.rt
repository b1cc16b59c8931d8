//! What holds of leaves, whatever their entries: each law is the contract of a function that does nothing.
ghost use Rattle.std.specs.Prelude.{◌≡◌, ◌≢◌, ◌+◌, ◌<◌, ◌≤◌, ◌∷◌, ◌++◌, ◌↔◌, [], ℕ, List, length, replicate};
ghost use Rattle.std.specs.List.{AllByRecursion};
ghost use Rattle.std.specs.List.Sorted.{IsStrictlySortedBy};
ghost use Rattle.zeb_leaf.specs.declared.entries.Entry.{Entry};
ghost use Rattle.zeb_leaf.specs.declared.entries.TheConstants.{FULL_BYTES, LEAF_BYTES};
ghost use Rattle.zeb_leaf.specs.Leaves.{IsLeaf, entry_bytes, leaf_bytes};
ghost use Rattle.zeb_leaf.specs.Order.{IsEntry, entry_cmp};
ghost use Rattle.zeb_leaf.specs.Walks.{Follows, first_place, last_place};
ghost use Rattle.zeb_leaf.specs.Worked.{entry};

/// Rising entries have one spelling, and no bytes spell two lists of them.
pub fn bytes_and_entries_are_one_to_one()
    ensures spelled { (list : List Entry) → list ≢ [] → IsStrictlySortedBy entry_cmp list
        → AllByRecursion IsEntry list → IsLeaf (leaf_bytes list) list }
    ensures one_spelling { (list : List Entry) (one other : List ℕ)
        → IsLeaf one list → IsLeaf other list → one ≡ other }
    ensures one_list { (bytes : List ℕ) (one other : List Entry)
        → IsLeaf bytes one → IsLeaf bytes other → one ≡ other }
{}

/// The entries of a leaf, cut before one of them, are two leaves, each shorter than the whole: in the second the entry's term is told
/// whole.
pub fn leaf_is_cut_at_an_entry()
    ensures front { (bytes : List ℕ) (front rest : List Entry) → front ≢ []
        → IsLeaf bytes (front ++ rest) → IsLeaf (leaf_bytes front) front }
    ensures rest { (bytes : List ℕ) (front rest : List Entry) → rest ≢ []
        → IsLeaf bytes (front ++ rest) → IsLeaf (leaf_bytes rest) rest }
    ensures begins { (bytes : List ℕ) (front rest : List Entry) → IsLeaf bytes (front ++ rest)
        → (behind : List ℕ) × (bytes ≡ leaf_bytes front ++ behind) }
    ensures shorter { (bytes : List ℕ) (front rest : List Entry) → front ≢ [] → rest ≢ []
        → IsLeaf bytes (front ++ rest)
        → (length (leaf_bytes front) < length bytes) × (length (leaf_bytes rest) < length bytes) }
{}

/// Where a list rises, an entry that may come behind its last one is just one that keeps it rising.
pub fn rising_entries_follow()
    ensures { (list : List Entry) (e : Entry) → IsStrictlySortedBy entry_cmp list
        → AllByRecursion IsEntry list
        → Follows (last_place first_place list) e
        ↔ (IsStrictlySortedBy entry_cmp (list ++ e ∷ []) × IsEntry e) }
{}

/// An entry takes at most 50 bytes beside its term and its block's bytes; so many a leaf with a single entry takes at most.
pub fn sizes_of_entries()
    ensures { (before : List ℕ) (e : Entry)
        → length (entry_bytes before e) ≤ 50 + length e.term + length e.bytes }
{}

/// So many bytes a leaf of several entries may have, and so many one that is written.
pub fn bytes_of_leaves()
    ensures { (LEAF_BYTES ≡ 3000) × (FULL_BYTES ≡ 1900) }
{}

/// The definitions, tried on worked leaves and on bytes that are none.
pub fn worked_leaves()
    // Two terms that share three bytes; two blocks of a term, the second with 256 records; an empty term; é and ê, which share a
    // byte.
    ensures spelled { IsLeaf
        (0 ∷ 3 ∷ 109 ∷ 111 ∷ 98 ∷ 0 ∷ 1 ∷ 3 ∷ 1 ∷ 2 ∷ 2 ∷ 3 ∷ 1 ∷ 121 ∷ 0 ∷ 1 ∷ 3 ∷ 1 ∷ 2 ∷ 2 ∷ [])
        (entry (109 ∷ 111 ∷ 98 ∷ []) 0 1 (1 ∷ 2 ∷ 2 ∷ [])
        ∷ entry (109 ∷ 111 ∷ 98 ∷ 121 ∷ []) 0 1 (1 ∷ 2 ∷ 2 ∷ []) ∷ [])
        × IsLeaf (0 ∷ 1 ∷ 97 ∷ 0 ∷ 1 ∷ 3 ∷ 1 ∷ 2 ∷ 2 ∷ 1 ∷ 0 ∷ 2 ∷ 0x80 ∷ 2 ∷ 3 ∷ 0 ∷ 2 ∷ 2 ∷ [])
        (entry (97 ∷ []) 0 1 (1 ∷ 2 ∷ 2 ∷ []) ∷ entry (97 ∷ []) 2 256 (0 ∷ 2 ∷ 2 ∷ []) ∷ [])
        × IsLeaf (0 ∷ 0 ∷ 0 ∷ 1 ∷ 3 ∷ 1 ∷ 2 ∷ 2 ∷ []) (entry [] 0 1 (1 ∷ 2 ∷ 2 ∷ []) ∷ [])
        × IsLeaf
        (0 ∷ 2 ∷ 0xc3 ∷ 0xa9 ∷ 0 ∷ 1 ∷ 3 ∷ 1 ∷ 2 ∷ 2 ∷ 1 ∷ 1 ∷ 0xaa ∷ 0 ∷ 1 ∷ 3 ∷ 1 ∷ 2 ∷ 2 ∷ [])
        (entry (0xc3 ∷ 0xa9 ∷ []) 0 1 (1 ∷ 2 ∷ 2 ∷ [])
        ∷ entry (0xc3 ∷ 0xaa ∷ []) 0 1 (1 ∷ 2 ∷ 2 ∷ []) ∷ []) }
    // Nothing; a number that isn't in its shortest form; bytes shared with no term; fewer bytes shared than can be; a term below the
    // one before it; the same term and block again; no records; 257 records; a block's bytes that are cut; a byte behind the last
    // entry; a block of no system number; a term that isn't UTF-8; one that isn't, though what it doesn't share with the one before is.
    ensures none { AllByRecursion (λ bytes. (list : List Entry) → ¬ IsLeaf bytes list)
        ([] ∷ (0x80 ∷ 0 ∷ 1 ∷ 97 ∷ 0 ∷ 1 ∷ 3 ∷ 1 ∷ 2 ∷ 2 ∷ [])
        ∷ (1 ∷ 0 ∷ 0 ∷ 1 ∷ 3 ∷ 1 ∷ 2 ∷ 2 ∷ [])
        ∷ (0 ∷ 2 ∷ 97 ∷ 98 ∷ 0 ∷ 1 ∷ 3 ∷ 1 ∷ 2 ∷ 2 ∷ 0 ∷ 2 ∷ 97 ∷ 99 ∷ 0 ∷ 1 ∷ 3 ∷ 1 ∷ 2 ∷ 2 ∷ [])
        ∷ (0 ∷ 1 ∷ 98 ∷ 0 ∷ 1 ∷ 3 ∷ 1 ∷ 2 ∷ 2 ∷ 0 ∷ 1 ∷ 97 ∷ 0 ∷ 1 ∷ 3 ∷ 1 ∷ 2 ∷ 2 ∷ [])
        ∷ (0 ∷ 1 ∷ 97 ∷ 0 ∷ 1 ∷ 3 ∷ 1 ∷ 2 ∷ 2 ∷ 1 ∷ 0 ∷ 0 ∷ 1 ∷ 3 ∷ 1 ∷ 2 ∷ 2 ∷ [])
        ∷ (0 ∷ 1 ∷ 97 ∷ 0 ∷ 0 ∷ 3 ∷ 1 ∷ 2 ∷ 2 ∷ [])
        ∷ (0 ∷ 1 ∷ 97 ∷ 0 ∷ 0x81 ∷ 2 ∷ 3 ∷ 1 ∷ 2 ∷ 2 ∷ [])
        ∷ (0 ∷ 1 ∷ 97 ∷ 0 ∷ 1 ∷ 3 ∷ 1 ∷ 2 ∷ [])
        ∷ (0 ∷ 1 ∷ 97 ∷ 0 ∷ 1 ∷ 3 ∷ 1 ∷ 2 ∷ 2 ∷ 0 ∷ [])
        ∷ (0 ∷ 1 ∷ 97 ∷ (replicate 8 0x80 ++ 1 ∷ 1 ∷ 3 ∷ 1 ∷ 2 ∷ 2 ∷ []))
        ∷ (0 ∷ 1 ∷ 0xe9 ∷ 0 ∷ 1 ∷ 3 ∷ 1 ∷ 2 ∷ 2 ∷ [])
        ∷ (0 ∷ 2 ∷ 0xc3 ∷ 0xa9 ∷ 0 ∷ 1 ∷ 3 ∷ 1 ∷ 2 ∷ 2 ∷ 1 ∷ 2 ∷ 0xc3 ∷ 0xaa ∷ 0 ∷ 1 ∷ 3 ∷ 1 ∷ 2 ∷ 2
        ∷ [])
        ∷ []) }
{}
