//! What a set of occurrences has in a register.

ghost use Rattle.std.specs.Prelude.{◌≡◌, ◌↔◌, ℕ, ℤ, List};
ghost use Rattle.sqlite.specs.Tree.{Trees};
ghost use Rattle.zeb_keys.specs.declared.keys.Occurrence.{Occurrence};
ghost use Rattle.zeb_register.specs.Content.{Content, posted};
ghost use Rattle.zeb_register.specs.Formats.{Format, holds_in};
ghost use Rattle.zeb_register.specs.Occurring.{AreTermsOf, AreTotals};

/// A set of occurrences by the number of the record that has each. No program has use for one: laws range over them.
pub trait OccurrenceSet {
    /// The record of this number has this occurrence.
    ghost has: { ℕ → Occurrence → Type 0 };
}

/// In each register a set of occurrences has one list of terms at most and one pair of totals, and these are told by its occurrences alone.
/// The registers of a store have such a list, in every format.
pub fn occurrences_have_one_list_of_terms<O: OccurrenceSet, P: OccurrenceSet>()
    ensures terms { (index : ℕ) (register : _) (one two : List _)
        → AreTermsOf O.has index register one
        → AreTermsOf O.has index register two → one ≡ two }
    ensures totals { (index : ℕ) (register : _) (one two : _) → AreTotals O.has index register one
        → AreTotals O.has index register two
        → one ≡ two }
    ensures told { ((n : ℕ) (o : Occurrence) → O.has n o ↔ P.has n o)
        → (index : ℕ) (register : _) (terms : List _)
        → AreTermsOf O.has index register terms → AreTermsOf P.has index register terms }
    ensures totals_told { ((n : ℕ) (o : Occurrence) → O.has n o ↔ P.has n o)
        → (index : ℕ) (register : _) (totals : _)
        → AreTotals O.has index register totals → AreTotals P.has index register totals }
    ensures held { (format : Format) (trees : Trees) (content : Content) (db : ℤ) (index : ℕ)
        (register : _)
        → holds_in format trees content → (terms : List _)
        × AreTermsOf (posted content db) index register terms }
{}
