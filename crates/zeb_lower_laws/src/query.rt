//! Queries: words, the grammar and plans.
ghost use Rattle.std.specs.Prelude.{◌≡◌, ◌⊎◌, ℕ, List, [], ◌∷◌, Ok, codes};
ghost use Rattle.zeb_profile.specs.declared.Profile.{Profile};
ghost use Rattle.zeb_query.specs.declared.words.Spelling.TheVariants.{Bad, Plain, Quoted};
ghost use Rattle.zeb_query.specs.Words.{Word, AreWords};
ghost use Rattle.zeb_query.specs.Grammar.{QueryValue, no_head, SpellsQuery};
ghost use Rattle.zeb_query.specs.Places.{IsReadable, IsFaulty};
ghost use Rattle.zeb_query.specs.Plans.{PlanValue, plan_of};
ghost use Rattle.zeb_lower_laws.specs.PlanRegisters.{held_in, looked_into, AllLookInto};

/// Each text has one list of words that stand in it one after the other, with the blanks before, between and after them.
pub fn a_text_has_one_list_of_words()
    ensures some { (text : List ℕ) → (words : List Word) × AreWords text words }
    ensures once { (text : List ℕ) (x y : List Word) → AreWords text x → AreWords text y → x ≡ y }
{}

/// The words of a few texts, as a reader would work them out: an escaped quote (34, after 92) between quotes, and a word right
/// after the closing one; a place behind U+00E9 (233), which takes two bytes; a word that begins with `{` (123); a quote
/// without end; and a backslash and a quote in an unquoted word.
pub fn words_at_examples()
    ensures escape { AreWords (34 ∷ 97 ∷ 92 ∷ 34 ∷ 34 ∷ 98 ∷ [])
        (record { place = 0; spelling = Quoted; text = 97 ∷ 34 ∷ [] }
        ∷ record { place = 5; spelling = Plain; text = 98 ∷ [] } ∷ []) }
    ensures bytes { AreWords (233 ∷ 9 ∷ 97 ∷ 10 ∷ [])
        (record { place = 0; spelling = Plain; text = 195 ∷ 169 ∷ [] }
        ∷ record { place = 3; spelling = Plain; text = 97 ∷ [] } ∷ []) }
    ensures brace { AreWords (codes " {a b}")
        (record { place = 1; spelling = Bad; text = codes "{a" }
        ∷ record { place = 4; spelling = Plain; text = codes "b}" } ∷ []) }
    ensures endless { AreWords (97 ∷ 32 ∷ 34 ∷ 98 ∷ 32 ∷ 99 ∷ [])
        (record { place = 0; spelling = Plain; text = codes "a" }
        ∷ record { place = 2; spelling = Bad; text = codes "b c" } ∷ []) }
    ensures unquoted { AreWords (97 ∷ 92 ∷ 34 ∷ 98 ∷ 32 ∷ 34 ∷ 34 ∷ [])
        (record { place = 0; spelling = Plain; text = 97 ∷ 92 ∷ 34 ∷ 98 ∷ [] }
        ∷ record { place = 5; spelling = Quoted; text = [] } ∷ []) }
{}

/// No text spells two queries.
pub fn no_text_spells_two_queries()
    ensures { (text : List ℕ) (x y : QueryValue) → SpellsQuery text x → SpellsQuery text y → x ≡ y }
{}

/// Each text is a query that is read, or has a fault; none is both, and none has two faults.
pub fn a_text_is_read_or_has_one_fault()
    ensures some { (text : List ℕ) → IsReadable text
        ⊎ ((number : ℕ) × (place : ℕ) × IsFaulty text number place) }
    ensures apart { (text : List ℕ) (number place : ℕ) → IsReadable text
        → ¬ IsFaulty text number place }
    ensures once { (text : List ℕ) (m p n q : ℕ) → IsFaulty text m p → IsFaulty text n q
        → (m ≡ n) × (p ≡ q) }
{}

/// Each term of a query's plan looks into the register that its attributes ask for, and its index has a target with that
/// register; a local number is looked up in no register.
pub fn a_plan_looks_into_its_register()
    ensures { (profile : Profile) (query : QueryValue) (plan : PlanValue)
        → plan_of profile query ≡ Ok plan
        → AllLookInto profile (held_in query.attrset no_head query.tree) (looked_into plan) }
{}
