//! A law of the order of keys and occurrences, which programs call where they compare them.
ghost use Rattle.std.specs.Prelude.{◌≡◌};
ghost use Rattle.zeb_keys.specs.declared.keys.Key.{Key};
ghost use Rattle.zeb_keys.specs.declared.keys.Occurrence.{Occurrence};
ghost use Rattle.zeb_keys.specs.Order.{key_order, occurrence_order};

use crate::{Key, Occurrence};

/// Keys compare by index, then register, then the bytes of the term; occurrences by key, then `seq`, then `pos`.
pub fn order_is_by_parts()
    ensures keys { (a b : Key) → ⟦<Key as Ord>⟧.cmp a b ≡ key_order a b }
    ensures occurrences { (a b : Occurrence)
        → ⟦<Occurrence as Ord>⟧.cmp a b ≡ occurrence_order a b }
{}
