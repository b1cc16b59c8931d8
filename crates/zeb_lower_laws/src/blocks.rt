//! Blocks of postings, whatever their lists.
ghost use Rattle.std.specs.Prelude.{◌≡◌, ◌≢◌, ◌^◌, ◌-◌, ◌≤◌, ◌<◌, ◌∷◌, ◌++◌, [], ℕ, List, length};
ghost use Rattle.std.specs.List.{AllByRecursion};
ghost use Rattle.zeb_blocks.specs.declared.postings.Posting.{Posting};
ghost use Rattle.zeb_blocks.specs.Blocks.{BlockSpells, LiesIn};
ghost use Rattle.zeb_blocks.specs.Numbers.{uleb};
ghost use Rattle.zeb_blocks.specs.Worked.{at, ten_bytes};
ghost use Rattle.zeb_lower_laws.specs.ShortestForms.{IsShortestForm};

/// Every rising list in a block that isn't empty has one spelling there, and no bytes spell two lists of one block.
pub fn spellings_and_lists_are_one_to_one()
    ensures spelled { (block : ℕ) (list : List Posting) → list ≢ [] → LiesIn block list
        → (bytes : List ℕ) × BlockSpells block list bytes }
    ensures one_spelling { (block : ℕ) (list : List Posting) (one other : List ℕ)
        → BlockSpells block list one → BlockSpells block list other → one ≡ other }
    ensures one_list { (block : ℕ) (bytes : List ℕ) (one other : List Posting)
        → BlockSpells block one bytes → BlockSpells block other bytes → one ≡ other }
{}

/// The bytes of a number that fits 64 bits are its shortest form in ULEB128 (DWARF 5, 7.6), the only one, and at most ten.
pub fn numbers_are_in_their_shortest_form()
    ensures shortest { (n : ℕ) → n < 2 ^ 64 → IsShortestForm n (uleb n) }
    ensures only { (n : ℕ) (bytes : List ℕ) → n < 2 ^ 64 → IsShortestForm n bytes → bytes ≡ uleb n }
    ensures few { (n : ℕ) → n < 2 ^ 64 → length (uleb n) ≤ 10 }
{}

/// The definitions, tried on worked lists and on bytes that spell none.
pub fn worked_examples()
    ensures spelled { BlockSpells 0 (at 1 2 2 ∷ []) (1 ∷ 2 ∷ 2 ∷ [])
        × BlockSpells 0 (at 1 2 2 ∷ at 1 3 1 ∷ []) (1 ∷ 2 ∷ 2 ∷ 0 ∷ 1 ∷ 1 ∷ [])
        × BlockSpells 0 (at 1 2 2 ∷ at 1 2 5 ∷ []) (1 ∷ 2 ∷ 2 ∷ 0 ∷ 0 ∷ 3 ∷ [])
        × BlockSpells 0 (at 1 2 2 ∷ at 255 1 1 ∷ []) (1 ∷ 2 ∷ 2 ∷ 0xfe ∷ 1 ∷ 1 ∷ 1 ∷ []) }
    ensures other_blocks { BlockSpells 1 (at 256 2 2 ∷ []) (0 ∷ 2 ∷ 2 ∷ [])
        × BlockSpells (2 ^ 56 - 1) (at (2 ^ 64 - 1) (2 ^ 63) (2 ^ 64 - 1) ∷ [])
        (0xff ∷ 1 ∷ (ten_bytes 0x80 1 ++ ten_bytes 0xff 1)) }
    // What spells no list of block 0: nothing, a number 0, a cut, a number that isn't in its shortest form, no rise, a posting
    // outside the block, and numbers that don't fit 64 bits.
    ensures none { AllByRecursion (λ bytes. (list : List Posting) → ¬ BlockSpells 0 list bytes)
        ([] ∷ (0 ∷ 2 ∷ 2 ∷ []) ∷ (1 ∷ 2 ∷ []) ∷ (1 ∷ 2 ∷ 0x82 ∷ 0 ∷ [])
        ∷ (1 ∷ 2 ∷ 2 ∷ 0 ∷ 0 ∷ 0 ∷ []) ∷ (0x80 ∷ 2 ∷ 1 ∷ 1 ∷ [])
        ∷ (1 ∷ (ten_bytes 0xff 2 ++ 1 ∷ [])) ∷ (1 ∷ (ten_bytes 0x80 0x81 ++ 1 ∷ 1 ∷ [])) ∷ []) }
{}
