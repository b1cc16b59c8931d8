//! Texts: folding, words, numbers, and patterns with stars.
ghost use Rattle.std.specs.Prelude.{◌≡◌, ◌↔◌, ◌^◌, ◌<◌, ℕ, All, Bool, List, [], ◌∷◌, ◌++◌};
ghost use Rattle.std.specs.Prelude.{codes, encode_utf8_all, length, map};
ghost use Rattle.std.specs.Char.{is_ascii_digit, to_ascii_lowercase};
ghost use Rattle.std.specs.Cmp.Lexicographic.{slice_cmp};
ghost use Rattle.std.specs.List.{AllPass};
ghost use Rattle.std.specs.Ordering.{nat_cmp};
ghost use Rattle.std.specs.Str.Parse.{digits_value};
ghost use Rattle.unicode_normalization.specs.Forms.{nfd};
ghost use Rattle.caseless.specs.Caseless.{IsCanonicalMatch, default_case_fold};
ghost use Rattle.zeb_text.specs.Folding.{folded};
ghost use Rattle.zeb_text.specs.Words.{AreRuns, is_word_character, joined_text, runs_of, words_of};
ghost use Rattle.zeb_text.specs.Numbers.{number_key, numbers_of};
ghost use Rattle.zeb_text.specs.Symbols.{Char, Star, Symbol, literal};
ghost use Rattle.zeb_text.specs.Patterns.{Matches};
ghost use Rattle.zeb_lower_laws.specs.JoinedMatches.{MatchEach};
ghost use Rattle.zeb_text.specs.Truncation.{joined_patterns, patterns_of};

use zeb_text::{Cut, Spread};

/// A text has one list of maximal runs of the characters that pass a test, and [`words`](zeb_text::words) and
/// [`numbers`](zeb_text::numbers) give it for theirs.
pub fn runs_are_maximal()
    ensures { (passes : ℕ → Bool) (text : List ℕ) (runs : List (List ℕ)) →
        (AreRuns passes text runs) ↔ (runs ≡ runs_of passes text) }
{}

/// The words of a text, joined with one space between each two, are the runs of word characters of what was joined. They
/// are not always its words, since folding a text twice is not always folding it once.
pub fn joined_words_stay()
    ensures { (text : List ℕ)
        → runs_of is_word_character (joined_text (words_of text)) ≡ words_of text }
{}

/// Words are joined alike as characters and as UTF-8: what [`join`](zeb_text::join) makes of a text's words is that text's
/// joined text in UTF-8.
pub fn joined_texts_are_encoded()
    ensures { (words : List (List ℕ))
        → joined_text (map encode_utf8_all words) ≡ encode_utf8_all (joined_text words) }
{}

/// What folding makes the same, and where it changes nothing: texts that are a canonical caseless match fold to one text;
/// ASCII folds to lower case; and a folded text is its own folding where it is still decomposed and its case folded. That
/// it is not where dropping U+034F, which parts two sequences of marks, leaves marks out of their canonical order.
pub fn folding_joins_matches()
    ensures matching { (left right : List ℕ) → IsCanonicalMatch left right
        → folded left ≡ folded right }
    ensures ascii { (text : List ℕ) → All (λ c. c < 128) text
        → folded text ≡ map to_ascii_lowercase text }
    ensures twice { (text : List ℕ) → nfd (folded text) ≡ folded text
        → default_case_fold (folded text) ≡ folded text → folded (folded text) ≡ folded text }
{}

/// A pattern without stars is a text: it matches that text alone; and the patterns of a term that is not truncated, joined,
/// are the term's joined words.
pub fn plain_patterns_are_texts()
    ensures matching { (text other : List ℕ) → (Matches (literal text) other) ↔ (other ≡ text) }
    ensures joined { (spread : Spread) (term : List ℕ) →
        joined_patterns (patterns_of Cut.None spread term) ≡ literal (joined_text (words_of term)) }
{}

/// Patterns that are joined match just the texts that each of them matches, joined.
pub fn joined_patterns_match_joined_texts()
    ensures { (patterns : List (List Symbol)) (text : List ℕ)
        → (Matches (joined_patterns patterns) text)
        ↔ ((texts : List (List ℕ)) × (text ≡ joined_text texts) × MatchEach patterns texts) }
{}

/// Every number of a text is below 10^18, so that it has a key.
#[tactic(auto, using(zeb_text::proofs::NumberBounds::numbers_below))]
pub fn numbers_have_keys()
    ensures { (text : List ℕ) → All (λ number. number < 10 ^ 18) (numbers_of text) }
{}

/// The key of a number has 18 digits and writes that number, and keys compare, byte by byte, as their numbers do.
pub fn keys_rise_with_numbers()
    ensures digits { (number : ℕ) → number < 10 ^ 18 →
        (length (number_key number) ≡ 18) × AllPass is_ascii_digit (number_key number) }
    ensures value { (number : ℕ) → number < 10 ^ 18 → digits_value 10 (number_key number) ≡ number }
    ensures order { (left right : ℕ) → left < 10 ^ 18 → right < 10 ^ 18 →
        slice_cmp nat_cmp (number_key left) (number_key right) ≡ nat_cmp left right }
{}

/// Every text of 18 ASCII digits is the key of a number below 10^18, so that
/// [`number_of_key`](zeb_text::number_of_key) gives `None` for no such text.
#[tactic(auto, using(zeb_text::proofs::KeyLemmas::key_of_digits))]
pub fn eighteen_digits_are_a_key()
    ensures { (text : List ℕ) → length text ≡ 18 → AllPass is_ascii_digit text →
        (number : ℕ) × (number < 10 ^ 18) × (number_key number ≡ text) }
{}

/// The definitions at a few texts, as a reader would work them out: an accent and a capital are folded away, folding again
/// what U+034F has parted puts its marks (U+0591, U+05B0) in order, a text is cut into its words, and a run of 19 digits is no
/// number.
pub fn definitions_at_examples()
    ensures fold { (folded (67 ∷ 65 ∷ 70 ∷ 201 ∷ []) ≡ codes "cafe")
        × (folded (codes "Cafe" ++ 769 ∷ []) ≡ codes "cafe")
        × (folded (codes "Stra" ++ 223 ∷ codes "e") ≡ codes "strasse") }
    ensures twice { (folded (97 ∷ 1425 ∷ 847 ∷ 1456 ∷ []) ≡ 97 ∷ 1425 ∷ 1456 ∷ [])
        × (folded (97 ∷ 1425 ∷ 1456 ∷ []) ≡ 97 ∷ 1456 ∷ 1425 ∷ []) }
    ensures words { words_of (codes "or, the whale /")
        ≡ codes "or" ∷ codes "the" ∷ codes "whale" ∷ [] }
    ensures numbers { numbers_of (codes "c1851, 007, 1234567890123456789") ≡ 1851 ∷ 7 ∷ [] }
    ensures key { number_key 1851 ≡ codes "000000000000001851" }
{}

/// The patterns of a few terms, and what one matches, as a reader would work them out: a star after the last word; a `#` that
/// is a star where the term is cut by it, and else parts two words; and a star that stands for any text, the empty one too.
pub fn patterns_at_examples()
    ensures right { patterns_of Cut.Right Spread.Ends (codes "Moby d")
        ≡ literal (codes "moby") ∷ (literal (codes "d") ++ Star ∷ []) ∷ [] }
    ensures hash { (patterns_of Cut.Hash Spread.Ends (codes "m#y")
        ≡ (Char 109 ∷ Star ∷ Char 121 ∷ []) ∷ [])
        × (patterns_of Cut.None Spread.Ends (codes "m#y")
        ≡ literal (codes "m") ∷ literal (codes "y") ∷ []) }
    ensures star { Matches (Char 109 ∷ Star ∷ Char 121 ∷ []) (codes "moby")
        × Matches (Char 109 ∷ Star ∷ Char 121 ∷ []) (codes "my") }
    ensures other { ¬ (Matches (Char 109 ∷ Star ∷ Char 121 ∷ []) (codes "m")) }
{}
