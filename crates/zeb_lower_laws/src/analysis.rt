//! Analyses of files.
ghost use Rattle.std.specs.Prelude.{◌≡◌, ◌↔◌, ◌∷◌, ◌++◌, [], ℕ, List, Result, Some, slice_get};
ghost use Rattle.zeb_marc.specs.declared.faults.MarcFault.{MarcFault};
ghost use Rattle.zeb_profile.specs.declared.directives.Directive.{Directive};
ghost use Rattle.zeb_analysis.specs.declared.faults.AnalysisFault.{AnalysisFault};
ghost use Rattle.zeb_extract.specs.declared.naming.IdentFault.{IdentFault};
ghost use Rattle.zeb_analysis.specs.Analysing.{Analysed, AnalysesTo, Standing, place_at, refusal_at, standing_in_all};
ghost use Rattle.zeb_analysis.specs.Laws.{IsFirstRefused, IsRefusal};
ghost use Rattle.zeb_lower_laws.specs.Sample.{title_profile};
ghost use Rattle.zeb_lower_laws.specs.WholeAnalyses.{IsWhole, moby_dick_at, named_by_isbn};
ghost use Rattle.zeb_lower_laws.specs.WorkedRecord.{unended_record, worked_record, worked_stream};

/// What is analysed is told once: files have one answer under a profile and a limit, be it a refusal or a list of analyses. There is
/// one, and there are no two.
pub fn an_analysis_is_told_once()
    ensures some { (profile : List Directive) (limit : ℕ) (texts : List (List ℕ))
        → (answer : Result (List Analysed) AnalysisFault) × AnalysesTo profile limit texts answer }
    ensures once { (profile : List Directive) (limit : ℕ) (texts : List (List ℕ))
        (one other : Result (List Analysed) AnalysisFault)
        → AnalysesTo profile limit texts one → AnalysesTo profile limit texts other → one ≡ other }
{}

/// An accepted analysis has one entry a record, and no more than the limit; and no file ends with a fault.
pub fn each_record_has_one_analysis()
    ensures { (profile : List Directive) (limit : ℕ) (texts : List (List ℕ))
        (analyses : List Analysed) → AnalysesTo profile limit texts (Ok analyses)
        → IsWhole limit texts analyses }
{}

/// A refusal is that of the first that is refused, and there is one exactly where something is refused.
pub fn the_first_refusal_counts()
    ensures some { (profile : List Directive) (limit : ℕ) (texts : List (List ℕ)) (k : ℕ)
        (standing : Standing) (fault : AnalysisFault)
        → slice_get (standing_in_all 1 texts) k ≡ Some standing
        → refusal_at profile limit k standing ≡ Some fault
        → (first : AnalysisFault) × AnalysesTo profile limit texts (Err first) }
    ensures first { (profile : List Directive) (limit : ℕ) (texts : List (List ℕ))
        (fault : AnalysisFault)
        → AnalysesTo profile limit texts (Err fault)
        ↔ IsFirstRefused profile limit (standing_in_all 1 texts) fault }
{}

/// A refusal is by what the files hold: never by a reader that failed, nor by want of memory.
pub fn refusals_are_of_records()
    ensures { (profile : List Directive) (limit : ℕ) (texts : List (List ℕ)) (fault : AnalysisFault)
        → AnalysesTo profile limit texts (Err fault) → IsRefusal fault }
{}

/// Examples with *Moby Dick*: two files of which the first has it twice, with all three analyses, and what is refused. A byte that is left
/// behind the second record is the fault of the third, a second record with another last byte has a fault of its own, and under a
/// profile that takes the identifier from field 020, of which there is none, the first is refused. A limit of two is told before the
/// third record's own fault, but not before that of a stream; and a record's fault is told before its identifier's.
pub fn analyses_at_examples()
    ensures accepted { AnalysesTo title_profile 3
        ((worked_record ++ 10 ∷ worked_record) ∷ worked_record ∷ [])
        (Ok (moby_dick_at 1 1 ∷ moby_dick_at 1 2 ∷ moby_dick_at 2 1 ∷ [])) }
    ensures limit { AnalysesTo title_profile 2
        ((worked_record ++ 10 ∷ worked_record) ∷ unended_record ∷ [])
        (Err AnalysisFault.TooManyRecords) }
    ensures stream { AnalysesTo title_profile 2 (worked_stream ∷ [])
        (Err (AnalysisFault.Marc (place_at 1 3) MarcFault.Truncated)) }
    ensures record_fault { AnalysesTo title_profile 3
        (worked_record ∷ (worked_record ++ unended_record) ∷ [])
        (Err (AnalysisFault.Marc (place_at 2 2) MarcFault.NoTerminator)) }
    ensures unnamed { AnalysesTo named_by_isbn 3 (worked_record ∷ [])
        (Err (AnalysisFault.Ident (place_at 1 1) IdentFault.NoIdentifier))
        × AnalysesTo named_by_isbn 3 (unended_record ∷ [])
        (Err (AnalysisFault.Marc (place_at 1 1) MarcFault.NoTerminator)) }
{}
