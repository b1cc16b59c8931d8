//! Queries tried by the definitions: what texts and queries come to, as a reader would work them out.
ghost use Rattle.std.specs.Prelude.{◌≡◌, ◌<◌, ℕ, List, length, [], ◌∷◌, ◌++◌, false, true, Ok, codes};
ghost use Rattle.zeb_text.specs.Symbols.{Star, literal};
ghost use Rattle.zeb_keys.specs.declared.registers.Register.TheVariants.{Word, Phrase, Number};
ghost use Rattle.zeb_query.specs.Places.{IsReadable, IsFaulty};
ghost use Rattle.zeb_query.specs.Plans.{TermOf, NearOf, RecordNumberOf, NoWordsOf, AlwaysOf, CompleteOf, PhraseOf, AllWordsOf, AnyWordOf};
ghost use Rattle.zeb_query.specs.Checks.{refused};
ghost use Rattle.zeb_profile.specs.Profiles.{profile_of};
ghost use Rattle.zeb_lower_laws.specs.WorkedQueries.{PlansAs, PlansUnder, ScansAs, SpellsPair, a_near_b, date_by, dick_by, first_in, pair_of_words, quoted, sample_profile, times, titles_alone, word_in, words_65};

use zeb_query::{DistanceRelation, Operator, Relation};

/// The two profiles of the examples, each read from a text.
pub fn profiles_at_examples()
    ensures sample { profile_of
        (codes "store x\nidentifier 001\natt 4 Title\natt 31 Date\natt 1016 Any\n"
        ++ codes "melm 245 Title,Title:p\nmelm 260$c Date:n\nall Any") ≡ Ok sample_profile }
    ensures titles { profile_of
        (codes "store x\nidentifier 001\natt 4 Title\nmelm 245 Title") ≡ Ok titles_alone }
{}

/// Texts and their faults: where a query goes on no more, or isn't at its end, with places in bytes; the 101st operator; and
/// each text of more than 65,535 bytes.
pub fn faults_at_examples()
    ensures due { IsFaulty (codes "@and x") 108 6
        × IsFaulty [] 108 0
        × IsFaulty (codes "@attr 1=4") 108 9 }
    ensures words { IsFaulty (codes "{moby dick}") 108 0
        × IsFaulty (34 ∷ codes "moby") 108 0
        × IsFaulty (codes "moby dick") 108 5
        × IsFaulty (195 ∷ 169 ∷ codes " {") 108 3 }
    ensures specs { IsFaulty (codes "@attr =4 x") 108 6
        × IsFaulty (codes "@attr 1= x") 108 6 }
    ensures at_sign { IsReadable (codes "@foo") }
    ensures limits { IsFaulty (times 101 (codes "@and ")) 6 500
        × ((text : List ℕ) → 65535 < length text → IsFaulty text 11 0) }
{}

/// Queries under a small profile, and one under a profile that has no index for 1016, with their first diagnostics: number, place
/// and additional information.
pub fn diagnostics_at_examples()
    ensures values { PlansAs (codes "@attr 1=9999 x") (refused 114 13 (codes "9999"))
        × PlansAs (codes "@attr 2=6 x") (refused 117 10 (codes "6"))
        × PlansAs (codes "@attr 3=4 x") (refused 119 10 (codes "4"))
        × PlansAs (codes "@attr 4=3 x") (refused 118 10 (codes "3"))
        × PlansAs (codes "@attr 5=102 x") (refused 120 12 (codes "102"))
        × PlansAs (codes "@attr 6=4 x") (refused 122 10 (codes "4")) }
    ensures heads { PlansAs (codes "@attr 7=1 x") (refused 113 10 (codes "7"))
        × PlansAs (codes "@attr 7=1 @attr 8=1 x") (refused 113 20 (codes "7"))
        × PlansAs (codes "@attr exp-1 1=4 x") (refused 121 16 (codes "exp-1"))
        × PlansAs (codes "@attrset x moby") (refused 121 11 (codes "x"))
        × PlansAs (codes "@term numeric 5") (refused 229 14 (codes "numeric"))
        × PlansAs (codes "@attr 1=4 @attr 1=9999 moby") (refused 114 23 (codes "9999")) }
    ensures terms { PlansAs (codes "@set r") (refused 18 0 (codes "r"))
        × PlansAs (codes "@attr 1=31 @attr 4=109 x1") (refused 126 23 (codes "x1"))
        × PlansAs (codes "@attr 4=107 x") (refused 126 12 (codes "x"))
        × PlansAs words_65 (refused 5 0 [])
        × PlansAs (codes "@and @attr 2=6 x @attr 1=9999 y") (refused 117 15 (codes "6")) }
    ensures defaults { PlansUnder titles_alone (codes "whale") (refused 116 0 [])
        × PlansUnder titles_alone (codes "@attr 1=1016 x") (refused 114 13 (codes "1016")) }
{}

/// Values that aren't taken together under that profile, for which 123 refuses a term; and values of other types beside structure 109
/// or relation 103 that are taken.
pub fn combinations_at_examples()
    ensures numbers { PlansAs (codes "@attr 4=107 @attr 3=1 1") (refused 123 22 [])
        × PlansAs (codes "@attr 4=107 @attr 5=1 1") (refused 123 22 [])
        × PlansAs (codes "@attr 4=107 @attr 6=2 1") (refused 123 22 [])
        × PlansAs (codes "@attr 4=107 @attr 2=4 1") (refused 123 22 [])
        × PlansAs (codes "@attr 4=107 @attr 2=103 1") (refused 123 24 [])
        × PlansAs (codes "@attr 1=31 @attr 4=109 @attr 3=1 1851") (refused 123 33 [])
        × PlansAs (codes "@attr 1=31 @attr 4=109 @attr 5=1 1851") (refused 123 33 [])
        × PlansAs (codes "@attr 1=31 @attr 4=109 @attr 6=2 1851") (refused 123 33 []) }
    ensures lists { PlansAs (codes "@attr 4=6 @attr 3=1 x") (refused 123 20 [])
        × PlansAs (codes "@attr 1=4 @attr 4=6 @attr 6=2 x") (refused 123 30 [])
        × PlansAs (codes "@attr 4=6 @attr 2=5 x") (refused 123 20 [])
        × PlansAs (codes "@attr 4=105 @attr 3=1 x") (refused 123 22 [])
        × PlansAs (codes "@attr 1=4 @attr 4=105 @attr 6=2 x") (refused 123 32 [])
        × PlansAs (codes "@attr 4=105 @attr 2=1 x") (refused 123 22 []) }
    ensures orders { PlansAs (codes "@attr 2=4 @attr 3=1 x") (refused 123 20 [])
        × PlansAs (codes "@attr 2=4 @attr 5=1 x") (refused 123 20 []) }
    ensures registers { PlansAs (codes "@attr 1=31 1851") (refused 123 11 [])
        × PlansAs (codes "@attr 6=2 x") (refused 123 10 []) }
    ensures taken { PlansAs (codes "@attr 1=31 @attr 4=109 @attr 2=103 x")
        (Ok (TermOf (AlwaysOf 1 Number)))
        × PlansAs (codes "@attr 1=4 @attr 2=103 @attr 3=1 @attr 5=1 @attr 6=2 x")
        (Ok (TermOf (AlwaysOf 0 Phrase)))
        × PlansAs (codes "@attr 4=6 @attr 2=103 x") (Ok (TermOf (AlwaysOf 2 Word)))
        × PlansAs (codes "@attr 2=103 " ++ words_65) (Ok (TermOf (AlwaysOf 2 Word))) }
{}

/// Two faults of one term under that profile: the first of their order is told, wherever its attribute stands.
pub fn first_faults_at_examples()
    ensures heads { PlansAs (codes "@attr exp-1 1=4 @term no x") (refused 229 25 (codes "no"))
        × PlansAs (codes "@attr 7=1 @attr exp-1 1=4 x") (refused 121 26 (codes "exp-1"))
        × PlansAs (codes "@attr 1=9999 @attr 7=1 x") (refused 113 23 (codes "7")) }
    ensures values { PlansAs (codes "@attr 2=6 @attr 1=9999 x") (refused 114 23 (codes "9999"))
        × PlansUnder titles_alone (codes "@attr 2=6 x") (refused 116 10 [])
        × PlansAs (codes "@attr 3=4 @attr 2=6 x") (refused 117 20 (codes "6"))
        × PlansAs (codes "@attr 4=3 @attr 3=4 x") (refused 119 20 (codes "4"))
        × PlansAs (codes "@attr 5=102 @attr 4=3 x") (refused 118 22 (codes "3"))
        × PlansAs (codes "@attr 6=4 @attr 5=102 x") (refused 120 22 (codes "102"))
        × PlansAs (codes "@attr 6=4 " ++ words_65) (refused 122 10 (codes "4")) }
    ensures texts { PlansAs (codes "@attr 2=4 @attr 5=1 " ++ words_65) (refused 5 20 [])
        × PlansAs (codes "@attr 4=107 @attr 3=1 x") (refused 123 22 []) }
{}

/// Queries under that profile and their plans.
pub fn plans_at_examples()
    ensures kinds { PlansAs (codes "@attr 1=4 Whale") (word_in 0 (codes "whale"))
        × PlansAs (codes "@attr 1=4 @attr 6=3 moby")
        (Ok (TermOf (CompleteOf 0 (literal (codes "moby")))))
        × PlansAs (codes "@attr 1=4 @attr 2=1 Dick") (dick_by Relation.Less)
        × PlansAs (codes "@attr 1=31 @attr 4=109 @attr 2=4 951") (date_by Relation.GreaterOrEqual)
        × PlansAs (codes "@attr 4=107 007") (Ok (TermOf (RecordNumberOf 7)))
        × PlansAs (codes "@attr 2=103 x") (Ok (TermOf (AlwaysOf 2 Word))) }
    ensures attributes { PlansAs (codes "@attr 1=9999 @attr 1=4 moby") (word_in 0 (codes "moby"))
        × PlansAs (codes "@attrset BIB-1 @attr 1=4 moby") (word_in 0 (codes "moby"))
        × PlansAs (codes "@attr 1=TITLE whale") (word_in 0 (codes "whale")) }
    ensures words { PlansAs (codes "@attr 1=4 " ++ quoted (codes "@and")) (word_in 0 (codes "and"))
        × PlansAs (codes "@foo") (word_in 2 (codes "foo"))
        × PlansAs (codes "@attr 1=4 CAF" ++ 195 ∷ 137 ∷ []) (word_in 0 (codes "cafe")) }
    ensures no_words { PlansAs (codes "@attr 1=4 @attr 6=3 " ++ quoted [])
        (Ok (TermOf (NoWordsOf 0 Phrase)))
        × PlansAs (codes "@attr 2=1 " ++ quoted []) (Ok (TermOf (NoWordsOf 2 Word))) }
{}

/// The operators, each by its word: what two terms under it are read as, with the places of their words, and the plan.
pub fn operators_at_examples()
    ensures trees { SpellsPair (codes "@and a b") Operator.And (5, codes "a") (7, codes "b")
        × SpellsPair (codes "@or a b") Operator.Or (4, codes "a") (6, codes "b")
        × SpellsPair (codes "@not a b") Operator.Not (5, codes "a") (7, codes "b") }
    ensures plans { PlansAs (codes "@and a b") (pair_of_words Operator.And)
        × PlansAs (codes "@or a b") (pair_of_words Operator.Or)
        × PlansAs (codes "@not a b") (pair_of_words Operator.Not) }
{}

/// What the values of a relation, a position, a structure and a completeness come to under that profile.
pub fn values_at_examples()
    ensures positions { PlansAs (codes "@attr 1=4 @attr 3=1 or") (first_in 0 (codes "or"))
        × PlansAs (codes "@attr 1=4 @attr 3=2 or") (first_in 0 (codes "or"))
        × PlansAs (codes "@attr 1=4 @attr 3=3 or") (word_in 0 (codes "or")) }
    ensures structures { PlansAs (codes "@attr 1=4 @attr 4=2 or") (word_in 0 (codes "or"))
        × PlansAs (codes "@attr 1=4 @attr 4=6 " ++ quoted (codes "whale moby"))
        (Ok (TermOf (AllWordsOf 0 (literal (codes "whale") ∷ literal (codes "moby") ∷ []))))
        × PlansAs (codes "@attr 1=4 @attr 4=105 " ++ quoted (codes "whale moby"))
        (Ok (TermOf (AnyWordOf 0 (literal (codes "whale") ∷ literal (codes "moby") ∷ []))))
        × PlansAs (codes "@attr 1=4 @attr 6=2 moby")
        (Ok (TermOf (CompleteOf 0 (literal (codes "moby"))))) }
    ensures orders { PlansAs (codes "@attr 1=4 @attr 2=2 Dick") (dick_by Relation.LessOrEqual)
        × PlansAs (codes "@attr 1=4 @attr 2=4 Dick") (dick_by Relation.GreaterOrEqual)
        × PlansAs (codes "@attr 1=4 @attr 2=5 Dick") (dick_by Relation.Greater) }
    ensures numbers { PlansAs (codes "@attr 1=31 @attr 4=109 @attr 2=1 951") (date_by Relation.Less)
        × PlansAs (codes "@attr 1=31 @attr 4=109 @attr 2=2 951") (date_by Relation.LessOrEqual)
        × PlansAs (codes "@attr 1=31 @attr 4=109 951") (date_by Relation.Equal)
        × PlansAs (codes "@attr 1=31 @attr 4=109 @attr 2=5 951") (date_by Relation.Greater) }
{}

/// The patterns of terms under that profile, by their truncation; it stands on each word of a word list, else at the ends.
pub fn truncations_at_examples()
    ensures ends { PlansAs (codes "@attr 5=1 " ++ quoted (codes "moby d"))
        (Ok (TermOf (PhraseOf 2
        (literal (codes "moby") ∷ (literal (codes "d") ++ Star ∷ []) ∷ []) false)))
        × PlansAs (codes "@attr 5=2 " ++ quoted (codes "oby dick"))
        (Ok (TermOf (PhraseOf 2
        ((Star ∷ literal (codes "oby")) ∷ literal (codes "dick") ∷ []) false)))
        × PlansAs (codes "@attr 5=3 hal")
        (Ok (TermOf (PhraseOf 2 ((Star ∷ (literal (codes "hal") ++ Star ∷ [])) ∷ []) false))) }
    ensures hash { PlansAs (codes "@attr 5=101 m#y")
        (Ok (TermOf (PhraseOf 2 ((literal (codes "m") ++ Star ∷ literal (codes "y")) ∷ []) false)))
        × PlansAs (codes "@attr 5=100 m#y")
        (Ok (TermOf (PhraseOf 2 (literal (codes "m") ∷ literal (codes "y") ∷ []) false))) }
    ensures each { PlansAs (codes "@attr 4=6 @attr 5=1 " ++ quoted (codes "w m"))
        (Ok (TermOf (AllWordsOf 2
        ((literal (codes "w") ++ Star ∷ []) ∷ (literal (codes "m") ++ Star ∷ []) ∷ [])))) }
{}

/// Proximity under that profile: diagnostics, and a plan.
pub fn proximity_at_examples()
    ensures parameters { PlansAs (codes "@prox 1 1 0 2 k 2 a b") (refused 110 0 (codes "1"))
        × PlansAs (codes "@prox 0 1 0 7 k 2 a b") (refused 110 0 (codes "7"))
        × PlansAs (codes "@prox 0 1 0 2 p 2 a b") (refused 110 0 (codes "p")) }
    ensures operands { PlansAs (codes "@prox 0 1 0 2 k 2 @attr 1=4 moby dick") (refused 123 0 [])
        × PlansAs (codes "@prox 0 1 0 2 k 2 a @and b c") (refused 110 0 (codes "@prox"))
        × PlansAs (codes "@prox 0 1 0 2 k 2 a " ++ quoted (codes "b c")) (refused 123 20 [])
        × PlansAs (codes "@prox 0 1 0 2 k 2 a " ++ quoted []) (refused 123 20 []) }
    ensures values { PlansAs (codes "@prox 0 1 0 2 k 2 @attr 2=4 a b") (refused 123 28 [])
        × PlansAs (codes "@prox 0 1 0 2 k 2 @attr 2=103 a b") (refused 123 30 [])
        × PlansAs (codes "@prox 0 1 0 2 k 2 @attr 3=1 a b") (refused 123 28 [])
        × PlansAs (codes "@prox 0 1 0 2 k 2 @attr 4=6 a b") (refused 123 28 [])
        × PlansAs (codes "@prox 0 1 0 2 k 2 @attr 4=105 a b") (refused 123 30 [])
        × PlansAs (codes "@prox 0 1 0 2 k 2 @attr 4=107 1 b") (refused 123 30 [])
        × PlansAs (codes "@prox 0 1 0 2 k 2 @attr 1=31 @attr 4=109 1 b") (refused 123 41 [])
        × PlansAs (codes "@prox 0 1 0 2 k 2 @attr 1=4 @attr 6=2 a b") (refused 123 38 []) }
    ensures near { PlansAs (codes "@prox 0 1 1 2 known 2 Dick moby") (Ok (NearOf 2
        (literal (codes "dick")) (literal (codes "moby"))
        record { distance = 1; ordered = true; relation = DistanceRelation.LessOrEqual }))
        × PlansAs (codes "@prox 0 1 0 2 k 2 a @attr 5=1 b") (Ok (NearOf 2
        (literal (codes "a")) (literal (codes "b") ++ Star ∷ [])
        record { distance = 1; ordered = false; relation = DistanceRelation.LessOrEqual }))
        × PlansAs (codes "@prox 0 1 0 1 k 2 a b") (a_near_b DistanceRelation.Less)
        × PlansAs (codes "@prox 0 1 0 3 k 2 a b") (a_near_b DistanceRelation.Equal)
        × PlansAs (codes "@prox 0 1 0 4 k 2 a b") (a_near_b DistanceRelation.GreaterOrEqual)
        × PlansAs (codes "@prox 0 1 0 5 k 2 a b") (a_near_b DistanceRelation.Greater)
        × PlansAs (codes "@prox 0 1 0 6 k 2 a b") (a_near_b DistanceRelation.NotEqual) }
{}

/// Where scans begin under that profile, and their diagnostics.
pub fn scans_at_examples()
    ensures starts { ScansAs (codes "@attr 1=4 Dick")
        (Ok record { index = 0; register = Word; start = codes "dick" })
        × ScansAs (codes "@attr 1=4 @attr 6=3 a")
        (Ok record { index = 0; register = Phrase; start = codes "a" })
        × ScansAs (codes "@attr 1=31 @attr 4=109 1851")
        (Ok record { index = 1; register = Number; start = codes "000000000000001851" }) }
    ensures values { ScansAs (codes "@attr 2=103 a") (refused 123 12 [])
        × ScansAs (codes "@attr 2=1 a") (refused 123 10 [])
        × ScansAs (codes "@attr 2=2 a") (refused 123 10 [])
        × ScansAs (codes "@attr 2=4 a") (refused 123 10 [])
        × ScansAs (codes "@attr 2=5 a") (refused 123 10 [])
        × ScansAs (codes "@attr 3=1 a") (refused 123 10 [])
        × ScansAs (codes "@attr 5=1 a") (refused 123 10 [])
        × ScansAs (codes "@attr 4=6 a") (refused 123 10 [])
        × ScansAs (codes "@attr 4=105 a") (refused 123 12 [])
        × ScansAs (codes "@attr 4=107 1") (refused 123 12 []) }
    ensures structures { ScansAs (codes "@or a b") (refused 110 0 (codes "@or"))
        × ScansAs (codes "@prox 1 1 0 2 k 2 a b") (refused 110 0 (codes "@prox"))
        × ScansAs (codes "@set r") (refused 18 0 (codes "r")) }
    ensures terms { ScansAs (codes "@attr 1=9999 a") (refused 114 13 (codes "9999"))
        × ScansAs (codes "@attr 1=31 @attr 4=109 a") (refused 126 23 (codes "a")) }
{}
