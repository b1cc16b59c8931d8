//! What the calls of a layout tell where the tables hold a content. It is a law: a function with no code, whose contract it is.

ghost use Rattle.std.specs.Prelude.{◌≡◌, ◌↔◌, ℕ, ℤ, List};
ghost use Rattle.sqlite.specs.Tree.{Trees};
ghost use Rattle.sqlite_rules.specs.Lists.{Has};
ghost use Rattle.zeb_register.specs.Between.{IsPostingBetween};
ghost use Rattle.zeb_register.specs.Content.{posted};
ghost use Rattle.zeb_register.specs.Formats.{Format};
ghost use Rattle.zeb_register.specs.Occurring.{AreTermsBefore, AreTermsFrom, AreTermsOf, AreTotals};
ghost use Rattle.zeb_register.specs.Terms.{HidesBefore, HidesFrom, HidesSome, HidesSums};
ghost use Rattle.zeb_register.specs.Terms.{ListsAll, ListsBefore, ListsFrom, SumsUp};
ghost use Rattle.zeb_register.specs.Units.{HasMalformedBetween, ListsBetween, ListsUnits, TellsOfContent, has_malformed};

/// What calls tell by units and counts they tell of the content that tables hold: of a key its list, of neighbouring terms their postings,
/// of a register its terms and its totals. And they tell no damage of a content that every layout can store.
pub fn calls_tell_of_the_content()
    ensures list { (format : Format) (trees : Trees) (db : ℤ) (key : _)
        → TellsOfContent format trees (ListsUnits format trees db key)
        (has_malformed format trees db key)
        (λ content list. list ≡ content db key) }
    ensures between { (format : Format) (trees : Trees) (at : _) (first last : List ℕ)
        → TellsOfContent format trees (ListsBetween format trees at first last)
        (HasMalformedBetween format trees at first last)
        (λ content list. (p : _) → Has list p ↔ IsPostingBetween content at first last p) }
    ensures terms { (format : Format) (trees : Trees) (db : ℤ) (index : ℕ) (register : _)
        → TellsOfContent format trees (ListsAll format trees db index register)
        (HidesSome format trees db index register)
        (λ content list. AreTermsOf (posted content db) index register list) }
    ensures from { (format : Format) (trees : Trees) (db : ℤ) (index : ℕ) (register : _)
        (start : List ℕ) (n : ℕ) → TellsOfContent format trees
        (ListsFrom format trees db index register start n)
        (HidesFrom format trees db index register start n)
        (λ content list. AreTermsFrom (posted content db) index register start n list) }
    ensures before { (format : Format) (trees : Trees) (db : ℤ) (index : ℕ) (register : _)
        (start : List ℕ) (n : ℕ) → TellsOfContent format trees
        (ListsBefore format trees db index register start n)
        (HidesBefore format trees db index register start n)
        (λ content list. AreTermsBefore (posted content db) index register start n list) }
    ensures totals { (format : Format) (trees : Trees) (db : ℤ) (index : ℕ) (register : _)
        → TellsOfContent format trees (SumsUp format trees db index register)
        (HidesSums format trees db index register)
        (λ content. AreTotals (posted content db) index register) }
{}
