//! Profiles and their canonical texts.
ghost use Rattle.std.specs.Prelude.{◌≡◌, ◌↔◌, ◌∷◌, [], ℕ, List, None, Ok, Some, codes};
ghost use Rattle.zeb_text.specs.Words.{AreRuns};
ghost use Rattle.zeb_keys.specs.declared.registers.Register.TheVariants as register;
ghost use Rattle.zeb_profile.specs.declared.directives.Directive.{Directive as DirectiveOfProfile};
ghost use Rattle.zeb_profile.specs.declared.faults.ProfileFaultKind.TheVariants.{Directive, Name, Register, Pattern, DuplicateTarget, DuplicateUse, UnknownIndex, NoIdentifier, TwoIdentifiers, TwoAlls, TwoStores, NoStore};
ghost use Rattle.zeb_profile.specs.Indexes.{index_by_name, index_names, unit_targets};
ghost use Rattle.zeb_profile.specs.Lines.{is_no_blank, trimmed, words_of};
ghost use Rattle.zeb_profile.specs.Profiles.{profile_of};
ghost use Rattle.zeb_profile.specs.Words.{distinct_names};
ghost use Rattle.zeb_lower_laws.specs.ProfileExamples.{EachLineIsRead, IsRefused, repeated_names};
ghost use Rattle.zeb_lower_laws.specs.ProfileLaws.{HasNumberedNames, CanonicalTextReadsBack, CommentsSayNothing, CountsNames, EachTargetOnce, FirstFaultIsAnswered, IsTrimmed, OneTextSaysTheSame, StoreSaysNothingElse, TargetsAreRead};

/// The canonical text and all that is asked of indexes, units and identifiers don't depend on the `store` line.
pub fn store_says_nothing_else()
    ensures { StoreSaysNothingElse }
{}

/// The canonical text of a profile, read again with a `store` line behind it, gives the same directives but for the store.
pub fn canonical_text_reads_back()
    ensures { CanonicalTextReadsBack }
{}

/// Two profiles with one canonical text have the same directives but for the store: the same names, uses, pairs, targets
/// and identifier rule.
pub fn one_text_says_the_same()
    ensures { OneTextSaysTheSame }
{}

/// Comments, empty lines and blanks at the ends of lines say nothing: a text with the telling lines of a profile is that
/// profile.
#[tactic(auto, using(crate::proofs::Comments::comments_say_nothing))]
pub fn comments_say_nothing()
    ensures { CommentsSayNothing }
{}

/// A text is refused by the fault of its first faulty line: each line before it says a directive that may stand behind the
/// ones before. Where no line has a fault, it is refused by what all of them lack, and by nothing else.
pub fn first_fault_is_answered()
    ensures { FirstFaultIsAnswered }
{}

/// A unit has each of its targets, a pair of an index and a register, once: whatever its tag and code.
pub fn each_target_once()
    ensures { EachTargetOnce }
{}

/// The indexes are numbered from 0 as their names first come: names are counted from the left, one that is there already adds
/// nothing, and a name's number is how many there are before it first comes. A target has the number of its name, which is below
/// the number of names.
pub fn names_are_numbered()
    ensures none { distinct_names [] ≡ [] }
    ensures counted { (names : List (List ℕ)) (name : List ℕ) → CountsNames names name }
    ensures numbered { (directives : List DirectiveOfProfile) → HasNumberedNames directives }
{}

/// An example: three names, of which the first comes again behind the second, once in another case. It keeps its number.
pub fn numbers_at_examples()
    ensures read { profile_of
        (codes "store x\nidentifier 001\nmelm 245 A\nmelm 246 B,a:p\nall A:n,C")
        ≡ Ok repeated_names }
    ensures names { index_names repeated_names ≡ codes "A" ∷ codes "B" ∷ codes "C" ∷ [] }
    ensures numbers { (index_by_name repeated_names (codes "A") ≡ Some 0)
        × (index_by_name repeated_names (codes "b") ≡ Some 1)
        × (index_by_name repeated_names (codes "C") ≡ Some 2)
        × (index_by_name repeated_names (codes "D") ≡ None) }
    ensures units { (unit_targets repeated_names (codes "245") None
        ≡ (0, register.Word) ∷ (0, register.Number) ∷ (2, register.Word) ∷ [])
        × (unit_targets repeated_names (codes "246") None
        ≡ (1, register.Word) ∷ (0, register.Phrase) ∷ (0, register.Number)
        ∷ (2, register.Word) ∷ []) }
{}

/// A line's blanks go from both ends of its text and from nowhere else: it is blanks, what is left, and blanks, and what is left
/// neither begins nor ends with one. There is one text that is left so.
pub fn blanks_go_from_both_ends()
    ensures { (text left : List ℕ) → IsTrimmed text left ↔ (left ≡ trimmed text) }
{}

/// The words of a line are the maximal runs of its bytes that are no blanks, and no other list of texts is.
pub fn words_are_maximal()
    ensures { (text : List ℕ) (words : List (List ℕ))
        → AreRuns is_no_blank text words ↔ (words ≡ words_of text) }
{}

/// A word of targets is read as those of its parts, none of which may be there twice, and else has the fault of its first
/// faulty part.
#[tactic(auto, using(crate::proofs::TargetsRead::targets_are_read))]
pub fn targets_are_read()
    ensures { (word : List ℕ) → TargetsAreRead word }
{}

/// Profiles that the definitions alone read: one with a line of each kind, and one with each fault but too many indexes and want of
/// memory.
pub fn examples()
    ensures read { EachLineIsRead }
    ensures lines { IsRefused (codes "store x\nmell 245 T") 2 Directive
        × IsRefused (codes "melm 245") 1 Directive
        × IsRefused (codes "att 0 T") 1 Directive }
    ensures words { IsRefused (codes "att 4 4T") 1 Name
        × IsRefused (codes "melm 245 T:x") 1 Register
        × IsRefused (codes "melm 24 T") 1 Pattern
        × IsRefused (codes "store x\nall Title,title:w") 2 DuplicateTarget }
    ensures repeats { IsRefused (codes "att 4 T\nmelm 245 T,U\natt 4 U") 3 DuplicateUse
        × IsRefused (codes "identifier 001\nidentifier 035$a") 2 TwoIdentifiers
        × IsRefused (codes "all T\n\nall U") 3 TwoAlls
        × IsRefused (codes "store x\nstore x") 2 TwoStores }
    ensures lacks { IsRefused (codes "identifier 001\nstore x\natt 9 T\nmelm 245 U") 3 UnknownIndex
        × IsRefused (codes "store x") 0 NoIdentifier
        × IsRefused (codes "identifier 001") 0 NoStore }
{}
