//! Records and streams, whatever their bytes.
ghost use Rattle.std.specs.Prelude.{◌≡◌, ◌+◌, ◌<◌, ◌≤◌, ◌^◌, ◌↔◌, ◌∷◌, ◌++◌, [], ℕ, List, Option, Result, Some, None, codes, length, replicate, slice_get};
ghost use Rattle.std.specs.List.{AllByRecursion};
ghost use Rattle.zeb_marc.specs.declared.faults.MarcFault.{MarcFault};
ghost use Rattle.zeb_marc.specs.Directory.{FieldText};
ghost use Rattle.zeb_marc.specs.Contents.{UnitText, units_of};
ghost use Rattle.zeb_marc.specs.Records.{first_fault, IsRecord, IsRecordFault};
ghost use Rattle.zeb_lower_laws.specs.Layout.{IsLaidOut};
ghost use Rattle.zeb_marc.specs.Splits.{at_end, a_fault, a_slice, next_of, split_next, split_of, EndsAs, IsRun, IsSlice, IsSplit};
ghost use Rattle.zeb_marc.specs.Unread.{Takes};
ghost use Rattle.zeb_lower_laws.specs.Parts.{IsPart};
ghost use Rattle.zeb_lower_laws.specs.WorkedRecord.{EntryFault, LeaderFault, record_with, small_text, unended_record, with_leader, worked_fields, worked_record, worked_stream, worked_units};
ghost use Rattle.zeb_marc.specs.declared.faults.MarcFault.TheVariants.{BaseAddress, EntryDigits, EntryRange, EntryTag, FieldEnd, LeaderCounts, LengthDigits, LengthRange};

/// A text is a record in at most one way, and in one exactly where no check fails; and it is one exactly where it is
/// laid out as ISO 2709 says: a leader, the directory's entries, 0x1E, the data area and 0x1D. The texts of its fields
/// and units are parts of it; its units are numbered from 1, and 64 bits number them. A text that is no record has a
/// fault of records, and none of streams.
pub fn record_laws()
    ensures unique { (text : List ℕ) (one other : List FieldText) → IsRecord text one
        → IsRecord text other → one ≡ other }
    ensures exact { (text : List ℕ)
        → ((fields : List FieldText) × IsRecord text fields) ↔ (first_fault text ≡ None) }
    ensures laid_out { (text : List ℕ) (fields : List FieldText)
        → IsRecord text fields ↔ IsLaidOut text fields }
    ensures parts { (text : List ℕ) (fields : List FieldText) → IsRecord text fields
        → AllByRecursion (λ field. IsPart text field.text) fields
        × AllByRecursion (λ unit. IsPart text unit.text) (units_of fields)
        × (length (units_of fields) < 2 ^ 64) }
    ensures faults { (text : List ℕ) (fault : MarcFault) → first_fault text ≡ Some fault
        → IsRecordFault fault }
    ensures numbered { (fields : List FieldText) (k : ℕ) (unit : UnitText)
        → slice_get (units_of fields) k ≡ Some unit
        → unit.seq ≡ k + 1 }
{}

/// A stream is split in exactly one way, which reading it from its front on finds: what stands next is its first slice
/// behind separators, or its end, or its fault.
pub fn split_laws()
    ensures found { (file : List ℕ) → IsSplit file (split_of file).slices (split_of file).fault }
    ensures only { (file : List ℕ) (slices : List (List ℕ)) (end : Option MarcFault)
        → IsSplit file slices end
        → split_of file ≡ record { slices = slices; fault = end } }
    ensures step { (file : List ℕ) → split_of file ≡ split_next split_of (next_of file) }
    // What stands next, in the same terms.
    ensures slice { (file slice rest : List ℕ) → next_of file ≡ a_slice slice rest
        ↔ ((run : List ℕ) × (file ≡ run ++ (slice ++ rest)) × IsRun run × IsSlice slice) }
    ensures end { (file : List ℕ) → next_of file ≡ at_end ↔ EndsAs file None }
    ensures fault { (file : List ℕ) (fault : MarcFault)
        → next_of file ≡ a_fault fault ↔ EndsAs file (Some fault) }
{}

/// Whatever reading the next record answers, it takes no more bytes off a stream than 65,535 separators and a record of
/// 99,999 bytes have together.
#[tactic(auto, using(crate::proofs::TakenLaws::few_taken))]
pub fn few_bytes_are_taken()
    ensures { (answer : Result (Option ℕ) MarcFault) (taken rest : List ℕ) → Takes answer taken rest
        → length taken ≤ 65535 + 99999 }
{}

/// The definitions, tried on a worked record, on three texts that aren't one, and on a stream of two records and one byte.
pub fn worked_examples()
    ensures accepted { IsRecord worked_record worked_fields }
    ensures units { units_of worked_fields ≡ worked_units }
    ensures faulty { (first_fault [] ≡ Some MarcFault.Truncated)
        × (first_fault (record_with (codes "00110nam a") 29) ≡ Some MarcFault.Truncated)
        × (first_fault unended_record ≡ Some MarcFault.NoTerminator) }
    ensures stream { split_of worked_stream
        ≡ record { slices = worked_record ∷ worked_record ∷ []; fault = Some MarcFault.Truncated } }
{}

/// A text for each further fault of a record. The first small record of `sound` has no fault, and each other text differs from it in
/// the place that its fault is about, its lengths following: the digits of its length; a length below 26, or a byte less than is
/// there; each of the five counts in the leader; the base address; a byte too many in the directory; and of its entry the digits, the tag, the
/// end, and the last byte of its field. For `Truncated` and `NoTerminator` see [`worked_examples`].
pub fn fault_examples()
    // A count that is no digit is read as the one that is wanted.
    ensures sound { AllByRecursion (λ leader. first_fault (with_leader leader) ≡ None)
        (codes "00041nam a2200037 a 4500" ∷ codes "00041nam a  00037 a 4500"
        ∷ codes "00041nam a2200037 a |||0" ∷ []) }
    ensures length { LeaderFault (codes "0004 nam a2200037 a 4500") LengthDigits
        × LeaderFault (codes "00025nam a2200037 a 4500") LengthRange
        × LeaderFault (codes "00040nam a2200037 a 4500") LengthRange }
    ensures counts { AllByRecursion (λ leader. LeaderFault leader LeaderCounts)
        (codes "00041nam a3200037 a 4500" ∷ codes "00041nam a2300037 a 4500"
        ∷ codes "00041nam a2200037 a 5500" ∷ codes "00041nam a2200037 a 4400"
        ∷ codes "00041nam a2200037 a 4510" ∷ []) }
    ensures directory { LeaderFault (codes "00041nam a2200036 a 4500") BaseAddress
        × (first_fault (small_text (codes "00042nam a2200038 a 4500") (codes "0010003000000")
        (codes "a1" ++ (30 ∷ []))) ≡ Some MarcFault.DirectoryLength) }
    ensures entry { EntryFault (codes "001000 00000") EntryDigits
        × EntryFault (codes "0-1000300000") EntryTag
        × EntryFault (codes "001000400000") EntryRange
        × EntryFault (codes "001000200000") FieldEnd }
{}

/// Separators (CR, LF and space) at their limit: 65,535 of one kind are skipped, before a record and before the end, and 65,536 are a
/// fault, whatever follows them, also at a file's end and behind a record.
pub fn separators_at_examples()
    ensures skipped { AllByRecursion (λ byte.
        (split_of (replicate 65535 byte) ≡ record { slices = []; fault = None })
        × (split_of (replicate 65535 byte ++ worked_record)
        ≡ record { slices = worked_record ∷ []; fault = None })) (13 ∷ 10 ∷ 32 ∷ []) }
    ensures refused { AllByRecursion (λ byte. (rest : List ℕ)
        → (split_of (replicate 65536 byte ++ rest)
        ≡ record { slices = []; fault = Some MarcFault.TooManySeparators })
        × (split_of (worked_record ++ (replicate 65536 byte ++ rest))
        ≡ record { slices = worked_record ∷ []; fault = Some MarcFault.TooManySeparators }))
        (13 ∷ 10 ∷ 32 ∷ []) }
{}
