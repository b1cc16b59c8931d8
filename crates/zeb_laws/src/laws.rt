//! The definitions that the contracts cite, tried on a worked example, under a profile of titles, dates and any words: functions with no
//! code, whose contracts are the example.

ghost use Rattle.std.specs.Prelude.{◌≡◌, ◌↔◌, ℕ, List, [], ◌∷◌, codes};
ghost use Rattle.zeb_lower_laws.specs.WorkedRecord.{worked_record};
ghost use Rattle.zeb_lower_laws.specs.Sample.{title_profile};
ghost use Rattle.zeb_engine.specs.Answers.{Answer, done, changed, refused, found};
ghost use Rattle.zeb_change.specs.Refused.{faulty};
ghost use Rattle.zeb_query.specs.Plans.{PairOf};
ghost use Rattle.zeb_engine.specs.Finding.{IsFound, has_name};
ghost use Rattle.zeb_change.specs.Occurs.{occurs};
ghost use Rattle.zeb_register.specs.Occurring.{HasKey};
ghost use Rattle.zeb_image.specs.Holdings.{Holdings, nothing_yet};
ghost use Rattle.zeb_engine.specs.Steps.{Run, Step};
ghost use Rattle.zeb_laws.specs.Worked.{book_base, book_conditions, faulty_file, no_books, one_book, title_plan, ahab, title_word, whale, BookHolds, IsFindBy, IsJust, IsUpdateBy};

use zeb_change::{Limits, RecordFault};
use zeb_engine::Command;
use zeb_query::Operator;

/// `Init` leaves no database. An update by a file with "Moby Dick" keeps it under number 1, and a second one keeps that number. `Init`, the
/// first update and a find, one after the other, are a run from nothing.
pub fn a_book_is_kept()
    ensures begun { (version : List ℕ) (limits : Limits) (before : Holdings)
        → IsJust (Step (book_conditions version limits) Command.Init before) done
        (no_books version) }
    ensures kept { (version : List ℕ) (limits : Limits) (command : Command)
        → IsUpdateBy (worked_record ∷ []) command
        → IsJust (Step (book_conditions version limits) command (no_books version)) (changed 1 0 0)
        (one_book version) }
    ensures again { (version : List ℕ) (limits : Limits) (command : Command)
        → IsUpdateBy (worked_record ∷ []) command
        → IsJust (Step (book_conditions version limits) command (one_book version)) (changed 0 1 0)
        (one_book version) }
    ensures run { (version : List ℕ) (limits : Limits) (update ask : Command)
        → IsUpdateBy (worked_record ∷ []) update
        → IsFindBy (codes "@attr 1=4 whale") ask
        → Run (book_conditions version limits) nothing_yet (Command.Init ∷ update ∷ ask ∷ [])
        (done ∷ changed 1 0 0 ∷ found 1 ((1, codes "a1") ∷ []) ∷ []) (one_book version) }
{}

/// A file in which five letters follow the record is refused by its second record, and nothing changes.
pub fn a_faulty_file_is_refused()
    ensures refused { (version : List ℕ) (limits : Limits) (command : Command)
        → IsUpdateBy (faulty_file ∷ []) command
        → IsJust (Step (book_conditions version limits) command (no_books version))
        (refused (faulty 1 2 RecordFault.LengthDigits))
        (no_books version) }
    ensures refused_again { (version : List ℕ) (limits : Limits) (command : Command)
        → IsUpdateBy (faulty_file ∷ []) command
        → IsJust (Step (book_conditions version limits) command (one_book version))
        (refused (faulty 1 2 RecordFault.LengthDigits))
        (one_book version) }
{}

/// A word of the title finds the record, by its key, and another word finds none; nothing else is answered.
pub fn a_word_of_the_title_is_found()
    ensures found { (answer : Answer)
        → IsFound (occurs title_profile book_base.records) (has_name book_base.records)
        (title_plan (codes "whale")) 1 20 answer
        ↔ (answer ≡ found 1 ((1, codes "a1") ∷ [])) }
    ensures other_word { (n : ℕ) → ¬ HasKey (occurs title_profile book_base.records)
        (title_word (codes "ahab")) n }
    ensures not_found { (answer : Answer)
        → IsFound (occurs title_profile book_base.records) (has_name book_base.records)
        (title_plan (codes "ahab")) 1 20 answer
        ↔ (answer ≡ found 0 []) }
{}

/// A word of the title finds the record by a query's text. It and another word, both together, hold of none, either holds of the record,
/// and so does the first without the other, but not the other without the first.
pub fn a_query_is_answered()
    ensures joined { (n : ℕ) → (¬ BookHolds (PairOf Operator.And whale ahab) n)
        × (BookHolds (PairOf Operator.Or whale ahab) n ↔ (n ≡ 1))
        × (BookHolds (PairOf Operator.Not whale ahab) n ↔ (n ≡ 1))
        × (¬ BookHolds (PairOf Operator.Not ahab whale) n) }
    ensures asked { (version : List ℕ) (limits : Limits) (command : Command)
        → IsFindBy (codes "@attr 1=4 whale") command
        → IsJust (Step (book_conditions version limits) command (one_book version))
        (found 1 ((1, codes "a1") ∷ [])) (one_book version) }
{}
