//! Keys and occurrences: their order, and equality.
ghost use Rattle.std.specs.Prelude.{◌≡◌, ◌↔◌, ℕ, List, true};
ghost use Rattle.std.specs.Cmp.{IsTotalOrder};
ghost use Rattle.std.specs.List.{Contains};
ghost use Rattle.zeb_keys.specs.declared.keys.Key.{Key};
ghost use Rattle.zeb_keys.specs.declared.keys.Occurrence.{Occurrence};
ghost use Rattle.zeb_keys.specs.Order.{key_order, occurrence_order, IsRising, TellsApart};

use zeb_keys::{Key, Occurrence, Term};

/// Both orders are total, and answer `Equal` of equal values alone.
pub fn order_is_total()
    ensures keys { IsTotalOrder key_order }
    ensures keys_apart { TellsApart key_order }
    ensures occurrences { IsTotalOrder occurrence_order }
    ensures occurrences_apart { TellsApart occurrence_order }
{}

/// Keys, occurrences and terms are equal as the program compares them exactly where they are the same.
pub fn equality_is_identity()
    ensures terms { (a b : List ℕ) → (⟦<Term as PartialEq>⟧.eq a b ≡ true) ↔ (a ≡ b) }
    ensures keys { (a b : Key) → (⟦<Key as PartialEq>⟧.eq a b ≡ true) ↔ (a ≡ b) }
    ensures occurrences { (a b : Occurrence)
        → (⟦<Occurrence as PartialEq>⟧.eq a b ≡ true) ↔ (a ≡ b) }
{}

/// Two rising lists of occurrences that have the same members are the same list.
pub fn rising_list_is_one()
    ensures { (xs ys : List Occurrence) → IsRising xs → IsRising ys
        → ((o : Occurrence) → Contains xs o ↔ Contains ys o)
        → xs ≡ ys }
{}
