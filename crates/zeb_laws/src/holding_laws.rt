//! Laws of what is held. Each is a function with no code, whose contract is the law.
ghost use Rattle.std.specs.Prelude.{◌≡◌, ◌≢◌, ◌↔◌, ◌⊎◌, ℕ, List, Some};
ghost use Rattle.std.specs.List.{Contains};
ghost use Rattle.std.specs.List.Sorted.{IsStrictlySortedBy};
ghost use Rattle.std.specs.Ordering.{nat_cmp};
ghost use Rattle.std.specs.Cmp.Lexicographic.{slice_cmp};
ghost use Rattle.zeb_marc.specs.Splits.{Split};
ghost use Rattle.zeb_change.specs.Conditions.{Conditions};
ghost use Rattle.zeb_laws.specs.Counts.{FoldsTo};
ghost use Rattle.zeb_change.specs.Folding.{Progress};
ghost use Rattle.zeb_change.specs.Base.{Base, Kept};
ghost use Rattle.zeb_image.specs.Holdings.{base_named, with_base};
ghost use Rattle.zeb_laws.specs.Lasting.{IsLastOf, KeepsIdent, NoneHas, SomeHas, slices_in};

use zeb_change::Kind;

/// A database that is put among others is there, under its name; each of another name stays as it was, and the elder of its
/// name is gone. Names that rise rise still, so that no name is there twice. So a change of one database is no change of
/// another, and what a reader finds under a name is what was put there last.
pub fn a_database_is_in_its_place()
    ensures members { (base : Base) (bases : List Base)
        → IsStrictlySortedBy (λ (a b : Base). slice_cmp nat_cmp a.name b.name) bases
        → (other : Base) → Contains (with_base base bases) other ↔ ((other ≡ base)
        ⊎ (Contains bases other × (other.name ≢ base.name))) }
    ensures rising { (base : Base) (bases : List Base)
        → IsStrictlySortedBy (λ (a b : Base). slice_cmp nat_cmp a.name b.name) bases
        → IsStrictlySortedBy (λ (a b : Base). slice_cmp nat_cmp a.name b.name)
        (with_base base bases) }
    ensures named { (base : Base) (bases : List Base)
        → IsStrictlySortedBy (λ (a b : Base). slice_cmp nat_cmp a.name b.name) bases
        → base_named base.name (with_base base bases) ≡ Some base }
{}

/// The last record stays. After an accepted update an identifier is kept just where it was kept before or some slice of the
/// files has it. Each kept record's bytes are those of the last slice with its identifier; where no slice has it, the record
/// is one that was kept before, as it was. A delete takes away the records whose identifiers the slices have, and leaves each
/// other one as it was. So a reader can tell from the files alone what is kept of them.
pub fn the_last_record_stays()
    ensures idents { (c : Conditions) (files : List Split) (base : Base) (p : Progress)
        → FoldsTo c Kind.Update files base p
        → (ident : List ℕ) → KeepsIdent p.base ident ↔ (KeepsIdent base ident
        ⊎ SomeHas c.profile ident (slices_in files)) }
    ensures bytes { (c : Conditions) (files : List Split) (base : Base) (p : Progress)
        → FoldsTo c Kind.Update files base p
        → (kept : Kept) → Contains p.base.records kept
        → IsLastOf c.profile kept.ident (slices_in files) kept.bytes
        ⊎ (NoneHas c.profile kept.ident (slices_in files) × Contains base.records kept) }
    ensures deleted { (c : Conditions) (kind : Kind) (files : List Split) (base : Base)
        (p : Progress) → FoldsTo c kind files base p
        → kind ≢ Kind.Update → (kept : Kept) → Contains p.base.records kept
        ↔ (Contains base.records kept × NoneHas c.profile kept.ident (slices_in files)) }
{}
