//! What changes of a run of keys come to. These are laws: functions with no code, whose contracts they are.

ghost use Rattle.std.specs.Prelude.{ℤ, List, [], ◌∷◌};
ghost use Rattle.std.specs.List.{AllByRecursion};
ghost use Rattle.sqlite.specs.Tree.{Trees};
ghost use Rattle.sqlite_rules.specs.Lists.{Has};
ghost use Rattle.zeb_register.specs.Content.{Content, IsStorable, OldsRise};
ghost use Rattle.zeb_register.specs.Formats.{Format, KeepsRows, holds_in};
ghost use Rattle.zeb_register.specs.RunChanges.{AreChangedBy, IsRunRefusedAs, KeysRise, PutsKeys, keeps_run_others};
ghost use Rattle.zeb_register.specs.Sound.{keeps_malformed};
ghost use Rattle.zeb_register.specs.UnitChanges.{AllowsChanges, IsRefusedAs, IsStorableChange, KeyUnits, PutsAny};

/// Keys that are changed one after the other are changed as a run. A run is refused by what refuses one of its keys. Where each key has rows
/// of its own, a run is changed as its keys in turn.
pub fn runs_are_keys_in_turn()
    ensures none { (format : Format) (db : ℤ) (trees : Trees) → PutsKeys format db [] trees trees }
    ensures joined { (format : Format) (db : ℤ) (one : _) (run : List _) → KeysRise (one ∷ run)
        → (old mid new : Trees) → PutsAny format db one.key.now one.changes.now old mid
        → PutsKeys format db run mid new → PutsKeys format db (one ∷ run) old new }
    ensures parted { (format : Format) → KeepsRows format
        → (db : ℤ) (one : _) (run : List _) → KeysRise (one ∷ run) → (old new : Trees)
        → PutsKeys format db (one ∷ run) old new
        → (mid : Trees) × PutsAny format db one.key.now one.changes.now old mid
        × PutsKeys format db run mid new }
    ensures first { (format : Format) (db : ℤ) (one : _) (run : List _) (trees : Trees) (fault : _)
        → IsRefusedAs format db one.key.now one.changes.now trees fault
        → IsRunRefusedAs format db (one ∷ run) trees fault }
    ensures later { (format : Format) (db : ℤ) (one : _) (run : List _) → KeysRise (one ∷ run)
        → (old mid : Trees) → PutsAny format db one.key.now one.changes.now old mid → (fault : _)
        → IsRunRefusedAs format db run mid fault → IsRunRefusedAs format db (one ∷ run) old fault }
{}

/// Units of many keys that are changed are those of the changed content. Each row that is malformed is there still, and each that is of
/// none of the keys; in leaves, each such unit. Where the changes are those of a content, the rows that hold it allow them.
pub fn changed_runs_are_of_a_content()
    ensures held { (format : Format) (db : ℤ) (run : List _) (old new : Trees) → KeysRise run
        → PutsKeys format db run old new
        → (before after : Content) → holds_in format old before
        → AreChangedBy db run before after → holds_in format new after }
    ensures found { (format : Format) (db : ℤ) (run : List _) (old new : Trees) → KeysRise run
        → PutsKeys format db run old new
        → (content : Content) → holds_in format old content
        → (after : Content) × AreChangedBy db run content after }
    ensures malformed { (format : Format) (db : ℤ) (run : List _) (old new : Trees) → KeysRise run
        → PutsKeys format db run old new → keeps_malformed format old new }
    ensures others { (format : Format) (db : ℤ) (run : List _) (old new : Trees)
        → PutsKeys format db run old new → keeps_run_others format db run old new }
    ensures allowed { (format : Format) (db : ℤ) (run : List _) (trees : Trees) (content : Content)
        → holds_in format trees content → IsStorable content
        → (after : Content) → AreChangedBy db run content after
        → (one : _) → Has run one
        → AllByRecursion IsStorableChange one.changes.now → OldsRise one.changes.now
        → (were : KeyUnits) × (are : KeyUnits)
        × AllowsChanges format db one.key.now one.changes.now trees were are }
{}
