//! What a record is called and found by: identifiers, occurrences and terms.
ghost use Rattle.std.specs.Prelude.{◌≡◌, ◌↔◌, ◌∷◌, ◌++◌, [], ℕ, List, Ok, codes, replicate};
ghost use Rattle.zeb_extract.specs.declared.naming.IdentFault.TheVariants.{BadIdentifier, NoIdentifier};
ghost use Rattle.std.specs.List.{Contains};
ghost use Rattle.zeb_keys.specs.declared.keys.Occurrence.{Occurrence};
ghost use Rattle.zeb_marc.specs.Contents.{UnitText};
ghost use Rattle.zeb_profile.specs.declared.directives.Directive.{Directive};
ghost use Rattle.zeb_profile.specs.Indexes.{unit_targets};
ghost use Rattle.zeb_profile.specs.Profiles.{profile_of};
ghost use Rattle.zeb_extract.specs.Identifier.{identifier_of, without_spaces};
ghost use Rattle.zeb_lower_laws.specs.Stripped.{IsStripped, called, IsCalled, HasIdentFault};
ghost use Rattle.zeb_extract.specs.Occurrences.{IsOccurrence, terms_of, text_of};
ghost use Rattle.zeb_text.specs.Numbers.{number_key};
ghost use Rattle.zeb_keys.specs.Order.{IsRising};
ghost use Rattle.zeb_lower_laws.specs.Sample.{moby_dick, moby_dick_analysis, date_profile, date_at, date_text, title_profile, title_text};

use zeb_keys::{Occurrence, Register};

/// An identifier's spaces (U+0020) go from both ends of its text and from nowhere else: the text is spaces, what is left,
/// and spaces, and what is left neither begins nor ends with one. There is one text that is left so.
pub fn spaces_go_from_both_ends()
    ensures { (text stripped : List ℕ)
        → (IsStripped text stripped) ↔ (stripped ≡ without_spaces text) }
{}

/// Identifiers under the rule `001`, as a reader would work them out from the record's bytes. Where no unit fits, or nothing is left of
/// the first that does, there is none, even where another fits. Up to 255 bytes are taken, and spaces at the ends don't count; a byte that
/// is no UTF-8 (255) counts three, as U+FFFD. A control character is bad: a tab, U+007F or U+0085 (194, 133), but not U+00A0 (194, 160).
pub fn identifiers_at_examples()
    ensures missing { HasIdentFault [] NoIdentifier
        × HasIdentFault (called (codes "   ")) NoIdentifier
        × HasIdentFault (called [] ++ called (codes "a1")) NoIdentifier }
    ensures found { IsCalled (called (codes " a  1 ")) (codes "a  1")
        × IsCalled (called (codes "a1") ++ called (codes "a2")) (codes "a1") }
    ensures long { IsCalled (called (replicate 255 97)) (replicate 255 97)
        × IsCalled (called (32 ∷ (replicate 255 97 ++ 32 ∷ []))) (replicate 255 97)
        × HasIdentFault (called (replicate 256 97)) BadIdentifier }
    ensures damaged { IsCalled (called (255 ∷ [])) (239 ∷ 191 ∷ 189 ∷ [])
        × IsCalled (called (replicate 252 97 ++ 255 ∷ []))
        (replicate 252 97 ++ 239 ∷ 191 ∷ 189 ∷ [])
        × HasIdentFault (called (replicate 253 97 ++ 255 ∷ [])) BadIdentifier }
    ensures control { HasIdentFault (called (97 ∷ 9 ∷ 49 ∷ [])) BadIdentifier
        × HasIdentFault (called (97 ∷ 127 ∷ 49 ∷ [])) BadIdentifier
        × HasIdentFault (called (97 ∷ 194 ∷ 133 ∷ 49 ∷ [])) BadIdentifier
        × IsCalled (called (97 ∷ 194 ∷ 160 ∷ 49 ∷ [])) (97 ∷ 194 ∷ 160 ∷ 49 ∷ []) }
{}

/// The occurrences of a record under a profile are the members of a rising list. There is one alone, by
/// [`rising_list_is_one`](crate::keys::rising_list_is_one).
pub fn occurrences_have_a_list()
    ensures { (profile : List Directive) (units : List UnitText) → (list : List Occurrence)
        × IsRising list
        × ((o : Occurrence) → Contains list o ↔ IsOccurrence (unit_targets profile) units o) }
{}

/// An example: under the profile of a text that indexes the date of publication as a number, the record of "Moby Dick" has the
/// occurrence of 1851 in its fourth unit, and no other.
pub fn moby_dick_has_its_date()
    ensures profile { profile_of date_text ≡ Ok date_profile }
    ensures found { IsOccurrence (unit_targets date_profile) moby_dick
        (date_at 4 (codes "000000000000001851")) }
    ensures no_other { (o : Occurrence) → IsOccurrence (unit_targets date_profile) moby_dick o
        → o ≡ date_at 4 (codes "000000000000001851") }
    ensures not_elsewhere { ¬ (IsOccurrence (unit_targets date_profile) moby_dick
        (date_at 3 (codes "000000000000001851"))) }
{}

/// A whole example: what "Moby Dick" is called and found by under the profile of a text of titles, dates and any words, line by line
/// in the order of occurrences.
pub fn moby_dick_is_analysed()
    ensures profile { profile_of title_text ≡ Ok title_profile }
    ensures called { identifier_of title_profile moby_dick ≡ Ok (codes "a1") }
    ensures rising { IsRising moby_dick_analysis }
    ensures members { (o : Occurrence) →
        Contains moby_dick_analysis o ↔ IsOccurrence (unit_targets title_profile) moby_dick o }
{}

/// The terms of a few texts, as a reader would work them out from their bytes: U+00E9 (195, 169) and U+0130 (196, 176) fold to
/// `e` and `i`; a byte that is no UTF-8 (255) parts words; where there is no word there is no phrase; and a number is a key.
pub fn terms_at_examples()
    ensures accents { terms_of Register.Word
        (text_of (codes "Caf" ++ 195 ∷ 169 ∷ codes " " ++ 196 ∷ 176 ∷ codes "zmir"))
        ≡ codes "cafe" ∷ codes "izmir" ∷ [] }
    ensures phrase { terms_of Register.Phrase
        (text_of (codes "Caf" ++ 195 ∷ 169 ∷ codes ", " ++ 196 ∷ 176 ∷ codes "zmir"))
        ≡ codes "cafe izmir" ∷ [] }
    ensures damaged { terms_of Register.Word (text_of (codes "a" ++ 255 ∷ codes "b"))
        ≡ codes "a" ∷ codes "b" ∷ [] }
    ensures no_word { terms_of Register.Phrase (text_of (codes " / :")) ≡ [] }
    ensures number { terms_of Register.Number (text_of (codes "c1851, 007"))
        ≡ number_key 1851 ∷ number_key 7 ∷ [] }
{}
