//! Laws of what a query holds on, each the contract of a function that does nothing.
ghost use Rattle.std.specs.Prelude.{◌≡◌, ℕ, ℤ, List, Option, Ok};
ghost use Rattle.sqlite.specs.Tree.{Trees};
ghost use Rattle.sqlite_rules.specs.Lists.{Has};
ghost use Rattle.zeb_keys.specs.declared.keys.Occurrence.{Occurrence};
ghost use Rattle.zeb_profile.specs.declared.Profile.{Profile};
ghost use Rattle.zeb_query.specs.Grammar.{HeadValue, TermValue, heads, no_head};
ghost use Rattle.zeb_query.specs.Attributes.{HoldingValue, holding_of, values_held};
ghost use Rattle.zeb_query.specs.Plans.{PlanValue, TermOf, plan_asked, plan_of};
ghost use Rattle.zeb_register.specs.Content.{Content, IsStorable, posted};
ghost use Rattle.zeb_register.specs.Formats.{Format, holds_in};
ghost use Rattle.zeb_search.specs.ByAttributes.{AreKept, HasRow, HoldsByAttributes, occurs_in};
ghost use Rattle.zeb_search.specs.Finds.{PlanFinds, PlanHides};
ghost use Rattle.zeb_search.specs.Holds.{TreeHolds};
ghost use Rattle.zeb_search.specs.Lists.{AreNumbers};
ghost use Rattle.zeb_search.specs.Registers.{HoldsIn, NamesReadable, is_kept_in};
ghost use Rattle.zeb_search.specs.SearchRows.{ArePlanRowsSound};

/// A term holds on just the records that the rows of Bib-1's attributes say: a query that is one term by its plan, whatever records are
/// kept and whatever occurrences they have (`query`); and by the tables each term of any query, by what its attributes ask for
/// (`tables`). The values of a query's term are those of its attributes or of their defaults, by the table of each type (`kept`), and some
/// row stands for them (`rows`).
pub fn a_term_holds_by_its_attributes()
    ensures query { (occurrences : List (ℕ × Occurrence)) (kept : List ℕ) (profile : Profile)
        (set : Option (List ℕ)) (place : ℕ)
        (head : HeadValue) (text : List ℕ) (plan : PlanValue)
        → plan_of profile record { attrset = set; tree = TermValue place head text } ≡ Ok plan
        → HoldsByAttributes (occurs_in occurrences) (Has kept)
        (values_held profile (holding_of set (heads no_head head))) text
        (TreeHolds (occurs_in occurrences) (Has kept) plan) }
    ensures tables { (trees : Trees) (content : Content) (db : ℤ) (profile : Profile)
        (h : HoldingValue) (text : List ℕ)
        → HoldsByAttributes (posted content db) (is_kept_in trees db) (values_held profile h) text
        (HoldsIn trees content db (TermOf (plan_asked profile h text))) }
    ensures kept { (profile : Profile) (set : Option (List ℕ)) (place : ℕ)
        (head : HeadValue) (text : List ℕ) (plan : PlanValue)
        → plan_of profile record { attrset = set; tree = TermValue place head text } ≡ Ok plan
        → AreKept profile (holding_of set (heads no_head head))
        (values_held profile (holding_of set (heads no_head head))) }
    ensures rows { (profile : Profile) (h : HoldingValue) → HasRow (values_held profile h) }
{}

/// What a find answers on any tables it tells of the content that they hold: just the numbers of the records on which the plan holds (`held`).
/// Over a content that every layout can store it is refused as damage only where an identifier that the plan names by its number isn't UTF-8
/// (`shown`). Whatever the tables hold, the rows that it asked for were sound (`sound`).
pub fn a_find_tells_of_the_content()
    ensures held { (format : Format) (trees : Trees) (db : ℤ) (plan : PlanValue) (hits : List ℕ)
        → PlanFinds format trees db plan hits
        → (content : Content) → holds_in format trees content
        → AreNumbers (HoldsIn trees content db plan) hits }
    ensures shown { (format : Format) (trees : Trees) (db : ℤ) (plan : PlanValue)
        → PlanHides format trees db plan → NamesReadable trees db plan
        → (content : Content) → IsStorable content → ¬ holds_in format trees content }
    ensures sound { (format : Format) (trees : Trees) (db : ℤ) (plan : PlanValue) (hits : List ℕ)
        → PlanFinds format trees db plan hits → ArePlanRowsSound format trees db plan }
{}
