//! What a layout of the registers has to do, whatever tables it keeps them in, and laws of contents and units.

ghost use Rattle.std.specs.Prelude.{◌≡◌, ◌↔◌, ◌*◌, ℕ, ℤ, List, [], length, IfOk, OnOk};
ghost use Rattle.std.specs.List.{AllByRecursion};
ghost use Rattle.sqlite.specs.Held.{state};
ghost use Rattle.sqlite_rules.specs.Lists.{Has};
ghost use Rattle.zeb_register.specs.Calls.{GoesOn};
ghost use Rattle.zeb_register.specs.Clauses.{TellsHeld};
ghost use Rattle.sqlite.specs.Tree.{Trees};
ghost use Rattle.zeb_register.specs.Connections.{AsksWhetherOf, InStoreOf, InsideOf, TellsOf};
ghost use Rattle.zeb_register.specs.Content.{AreChangedAt, Content, HasRisingLists, IsChangedAt, IsStorable, IsWithout, OldsRise};
ghost use Rattle.zeb_register.specs.Formats.{Format, holds_in, version_of};
ghost use Rattle.zeb_register.specs.Sound.{keeps_malformed};
ghost use Rattle.zeb_register.specs.Store.{KeepsRegisters, LacksRegisters};
ghost use Rattle.zeb_register.specs.UnitChanges.{AllowsChanges, IsStorableChange, KeyUnits, PutsAny};
ghost use Rattle.zeb_register.specs.UnitChanges.{keeps_others};
ghost use Rattle.zeb_register.specs.Units.{HoldsUnits, counts_as, is_malformed, is_miscounted, reads_as};

use crate::statements::inside::nothing_inside;
use crate::tallies::counts_are_numbers;
use crate::{DatabaseId, Expected, RegFault};
use sqlite::{Alter, Connection, Error, Transaction};
use std::alloc::Global;
use zeb_blocks::Posting;
use zeb_keys::{Key, Register, Term};

/// A place of a record at which a key stands: the number of the unit, and the number of the word or number in it. Both are 1 to `2^63 - 1`.
#[derive(Clone, Copy, Debug, PartialEq, Eq)]
pub struct Place {
    pub seq: u64,
    pub pos: u64,
}

/// What becomes of a key's places in one record: those that stood there, and those that stand there then. Both lists rise.
#[derive(Clone, Copy, Debug)]
pub struct RecordChange<'a> {
    pub sysno: u64,
    pub old: &'a [Place],
    pub new: &'a [Place],
}

/// What becomes of a key's places in records.
#[derive(Clone, Copy, Debug)]
pub struct KeyChanges<'a> {
    pub key: &'a Key,
    pub changes: &'a [RecordChange<'a>],
}

/// A term of a register, and the number of records that have it.
#[derive(Debug, PartialEq, Eq, Drop)]
pub struct TermCount {
    pub term: Term,
    pub records: u64,
}

/// A register of a database: `register` of the index whose number is `index`.
#[derive(Clone, Copy, Debug)]
pub struct RegisterOf {
    pub db: DatabaseId,
    pub index: u32,
    pub register: Register,
}

/// How much a register of a database holds: its distinct terms, and its postings; 2^64 - 1 where there are more.
#[derive(Clone, Copy, Debug, Default, PartialEq, Eq)]
pub struct Totals {
    pub terms: u64,
    pub occurrences: u64,
}

/// Work on the tables `dict` and `blocks`: how many of their rows are read and written. A count stays at its type's greatest value once it
/// is there.
///
/// In packed tables `dict` has a row for each term, and `blocks` one for each block of a term's postings. A look-up counts those that it
/// reads. A change counts one in each of the four for each record whose places under a key it changes. A row that several records change
/// is read and written once, so that these counts are bounds from above.
///
/// In tables of leaves a change counts each leaf from which it reads what it changes, and each that it writes. A look-up counts nothing.
/// In plain tables nothing counts.
#[derive(Clone, Copy, Debug, Default, PartialEq, Eq)]
pub struct Work {
    pub dict_read: u64,
    pub dict_written: u64,
    pub block_read: u64,
    pub block_written: u64,
}

/// A way to keep the registers of all databases in tables.
///
/// What the registers hold is, for each database and each key, a rising list of postings. The system numbers of records are 1 to
/// 999,999,999. Calls that read change nothing.
pub trait Layout {
    ghost use Rattle.std.specs.Prelude.{List, ◌∷◌, ℕ, sum_by};
    ghost use Rattle.sqlite.specs.Tree.{Trees};
    ghost use Rattle.zeb_register.specs.Formats.{Format, version_of, holds_in};
    ghost use Rattle.zeb_register.specs.Content.{Content};
    ghost use Rattle.zeb_register.specs.Content.{IsWithout, TakesWhole};
    ghost use Rattle.zeb_register.specs.Expected.{IsOrdered, AreExpected};
    ghost use Rattle.zeb_register.specs.Tallies.{CountsNothing, Works, works_for};
    ghost use Rattle.zeb_register.specs.Between.{AreKeysBetween};
    ghost use Rattle.zeb_register.specs.Units.{ListsKey, ListsTerms};
    ghost use Rattle.zeb_register.specs.Terms.{TellsAll, TellsBefore, TellsFrom, TellsTotals, WorksThrough};
    ghost use Rattle.zeb_register.specs.UnitChanges.{ChangesKey, NumbersRise};
    ghost use Rattle.zeb_register.specs.RunChanges.{ChangesKeys, IsRun, changes_in};
    ghost use Rattle.zeb_keys.specs.declared.keys.Key.{Key};
    ghost use Rattle.zeb_blocks.specs.declared.postings.Posting.{Posting};

    /// In which format the tables keep the registers.
    ghost format: { Format };

    /// What a record whose places are changed adds to each count, and a term that is listed to `dict_read`: 1, or 0 where a layout counts none.
    ghost row_work: { ℕ };

    /// How many rows of `blocks` have just this list of postings and no other key's: so many a look-up of it counts.
    ghost block_rows: { List Posting → ℕ };

    /// The text that a store of this layout keeps under the name `version`.
    fn version() -> &'static str
        ensures { result.now ≡ version_of format };

    /// Puts the places `new` of a key in a record where `old` stood: `key_changes` of one change.
    fn key_change<S: Alter>(
        tx: &mut Transaction<'_, S>,
        work: &mut Work,
        db: DatabaseId,
        key: &Key,
        sysno: u64,
        old: &[Place],
        new: &[Place],
    ) -> Result<(), RegFault>
        ensures call { InsideOf S.Store tx.old.conn tx.new.conn result (λ _. GoesOn) }
        ensures units { ChangesKey format db.0 key.now
            (record { sysno = sysno; old = old.entry; new = new.entry } ∷ [])
            (state S.Store tx.old.conn.now) (state S.Store tx.new.conn.now) result }
        ensures work { InStoreOf S.Store tx.old.conn tx.new.conn
            (λ trees. OnOk result
            (works_for format row_work 1 trees (state S.Store tx.new.conn.now).now.trees work.old
            work.new)) }
        ensures no_work { CountsNothing format row_work → work.new ≡ work.old }
    {
        let change = RecordChange { sysno, old, new };
        Self::key_changes(tx, work, db, key, &[change])
    }

    /// Puts places of a key in several records, one after the other, each where its `old` stood. The numbers of the records don't fall. A
    /// layout may read and write a row once for several records that stand next to each other. In packed tables work counts as if each
    /// record had been changed alone. Of leaves it counts those that are read and written: for each record one at most, and besides each
    /// that comes.
    ///
    /// `Damaged` where a record has other places than its `old`, where a row that is read is malformed, and where the number of the records
    /// that have the key is kept and can't follow. `Store` also where a number of a record is 0 or above 999,999,999, one of a place 0 or
    /// above `2^63 - 1`, and where places `new` don't rise.
    fn key_changes<S: Alter>(
        tx: &mut Transaction<'_, S>,
        work: &mut Work,
        db: DatabaseId,
        key: &Key,
        changes: &[RecordChange<'_>],
    ) -> Result<(), RegFault>
        requires rising { NumbersRise changes.now }
        ensures call { InsideOf S.Store tx.old.conn tx.new.conn result (λ _. GoesOn) }
        ensures units { ChangesKey format db.0 key.now changes.now
            (state S.Store tx.old.conn.now) (state S.Store tx.new.conn.now) result }
        ensures work { InStoreOf S.Store tx.old.conn tx.new.conn
            (λ trees. OnOk result
            (works_for format row_work (length changes.now) trees
            (state S.Store tx.new.conn.now).now.trees work.old work.new)) }
        ensures no_work { CountsNothing format row_work → work.new ≡ work.old };

    /// Puts the changes of a run of keys, each where its `old` stood. A layout may read and write a row once for several keys that it keeps
    /// there. Work counts as that of `key_changes` does, for the records of all keys.
    ///
    /// It is refused where `key_changes` of one of the keys is. Other keys of the run may be changed then, before it or behind it.
    fn run_changes<S: Alter>(
        tx: &mut Transaction<'_, S>,
        work: &mut Work,
        db: DatabaseId,
        run: &[KeyChanges<'_>],
    ) -> Result<(), RegFault>
        requires rising { IsRun run.now }
        ensures call { InsideOf S.Store tx.old.conn tx.new.conn result (λ _. GoesOn) }
        ensures units { ChangesKeys format db.0 run.now
            (state S.Store tx.old.conn.now) (state S.Store tx.new.conn.now) result }
        ensures work { InStoreOf S.Store tx.old.conn tx.new.conn
            (λ trees. OnOk result
            (works_for format row_work (changes_in run.now) trees
            (state S.Store tx.new.conn.now).now.trees work.old work.new)) }
        ensures no_work { CountsNothing format row_work → work.new ≡ work.old }
    {
        // A closed connection is refused also where there is no key.
        nothing_inside(tx)?;
        for one in run {
            Self::key_changes(tx, work, db, one.key, one.changes)?;
            counts_are_numbers(work);
        }
        Ok(())
    }

    /// Takes a database out, with its records and its rows in every table of the registers.
    fn database_take<S: Alter>(tx: &mut Transaction<'_, S>, db: DatabaseId) -> Result<(), Error>
        ensures call { InsideOf S.Store tx.old.conn tx.new.conn result (λ _. GoesOn) }
        ensures taken { InStoreOf S.Store tx.old.conn tx.new.conn
            (λ trees. OnOk result
            (TakesWhole db.0 (state S.Store tx.old.conn.now) (state S.Store tx.new.conn.now)
            × ((before after : Content) → holds_in format trees before → IsWithout db.0 before after
            → holds_in format (state S.Store tx.new.conn.now).now.trees after))) };

    /// The postings of a key, rising: those that its units say. `Damaged` only where one of its rows is malformed.
    fn key_list<S: Alter>(
        alloc: Global,
        conn: &mut Connection<S>,
        work: &mut Work,
        db: DatabaseId,
        key: &Key,
    ) -> Result<Vec<Posting>, RegFault>
        ensures units { ListsKey format db.0 key.now (state S.Store conn.old)
            (state S.Store conn.new) result }
        ensures work { TellsOf S.Store conn.old conn.new result
            (λ _ list. Works 0 0 (block_rows list.items) 0 work.old work.new) }
        ensures no_work { row_work ≡ 0 → work.new ≡ work.old };

    /// The postings of the terms of a register that are not below `first` and not above `last`; in which order isn't said. The rows of all
    /// these terms are held at once. `Damaged` only where a row of one of these terms is malformed.
    fn postings_between<S: Alter>(
        alloc: Global,
        conn: &mut Connection<S>,
        work: &mut Work,
        at: RegisterOf,
        first: &str,
        last: &str,
    ) -> Result<Vec<Posting>, RegFault>
        ensures units { ListsTerms format at first.now last.now (state S.Store conn.old)
            (state S.Store conn.new) result }
        ensures work { TellsHeld (holds_in format) (state S.Store conn.old) (state S.Store conn.new)
            result
            (λ content _. (keys : List Key) → AreKeysBetween content at first.now last.now keys
            → Works 0 0
            (sum_by (λ key. block_rows (content at.db.0 key)) keys) 0 work.old work.new) }
        ensures no_work { row_work ≡ 0 → work.new ≡ work.old };

    /// The terms of a register that some record has, in the order of their bytes, each with the number of these records. `Damaged` only where
    /// what is kept of one of them is malformed, or it isn't UTF-8.
    fn terms_of<S: Alter>(
        alloc: Global,
        conn: &mut Connection<S>,
        work: &mut Work,
        at: RegisterOf,
    ) -> Result<Vec<TermCount>, RegFault>
        ensures units { TellsAll format at (state S.Store conn.old)
            (state S.Store conn.new) result }
        ensures work { IfOk result (λ list. Works (row_work * length list.items) 0 0 0 work.old
            work.new) }
        ensures no_work { row_work ≡ 0 → work.new ≡ work.old };

    /// The first `n` of these terms that are not below `start`, in the order of their bytes. `Damaged` only by one of these.
    fn terms_from<S: Alter>(
        alloc: Global,
        conn: &mut Connection<S>,
        work: &mut Work,
        at: RegisterOf,
        start: &str,
        n: u64,
    ) -> Result<Vec<TermCount>, RegFault>
        ensures units { TellsFrom format at start.now n (state S.Store conn.old)
            (state S.Store conn.new) result }
        ensures work { IfOk result (λ list. Works (row_work * length list.items) 0 0 0 work.old
            work.new) }
        ensures no_work { row_work ≡ 0 → work.new ≡ work.old };

    /// The last `n` of these terms that are below `start`, in the order of their bytes. `Damaged` only by one of these.
    fn terms_before<S: Alter>(
        alloc: Global,
        conn: &mut Connection<S>,
        work: &mut Work,
        at: RegisterOf,
        start: &str,
        n: u64,
    ) -> Result<Vec<TermCount>, RegFault>
        ensures units { TellsBefore format at start.now n (state S.Store conn.old)
            (state S.Store conn.new) result }
        ensures work { IfOk result (λ list. Works (row_work * length list.items) 0 0 0 work.old
            work.new) }
        ensures no_work { row_work ≡ 0 → work.new ≡ work.old };

    /// How many terms of a register some record has, and how many postings these have. In packed tables each row of `dict` that is read
    /// counts once in `work`, and each row of `blocks` of these terms. `Damaged` only where what is kept of one of these terms is
    /// malformed, or it isn't UTF-8.
    fn totals<S: Alter>(
        alloc: Global,
        conn: &mut Connection<S>,
        work: &mut Work,
        at: RegisterOf,
    ) -> Result<Totals, RegFault>
        ensures units { TellsTotals format at (state S.Store conn.old) (state S.Store conn.new)
            result }
        ensures work { TellsOf S.Store conn.old conn.new result
            (λ trees _. WorksThrough format row_work block_rows at trees work.old work.new) }
        ensures no_work { row_work ≡ 0 → work.new ≡ work.old };

    /// Whether the tables hold just what is expected, in this layout. Unreadable rows are not expected. It changes nothing.
    fn agrees<S: Alter>(
        alloc: Global,
        conn: &mut Connection<S>,
        expected: &Expected,
    ) -> Result<bool, Error>
        ensures { AsksWhetherOf S.Store conn.old conn.new
            (λ trees. AreExpected format trees expected.now) (IsOrdered expected.now) result };
}

/// A content is told by its postings. It can be changed at one key of one record, and a database can be taken from it, each in one way.
pub fn contents_change()
    ensures told { (one two : Content) → HasRisingLists one → HasRisingLists two
        → ((db : ℤ) (key : _) (p : _) → Has (one db key) p ↔ Has (two db key) p) → one ≡ two }
    ensures changed { (db : ℤ) (key : _) (sysno : ℕ) (places : List _) (old : Content)
        → HasRisingLists old
        → ((new : Content) × IsChangedAt db key sysno places old new)
        × ((one two : Content) → IsChangedAt db key sysno places old one
        → IsChangedAt db key sysno places old two → one ≡ two) }
    ensures without { (db : ℤ) (old : Content) → HasRisingLists old
        → ((new : Content) × IsWithout db old new)
        × ((one two : Content) → IsWithout db old one → IsWithout db old two → one ≡ two) }
{}

/// Units that are changed are those of the changed content. Each row that is malformed is there still, and each that isn't of the key; in
/// leaves, where one row is of many keys, so is each such unit. Where the changes are those of a content, the rows that hold it allow them.
pub fn changed_units_are_of_a_content()
    ensures held { (format : Format) (db : ℤ) (key : _) (changes : List _) (old new : Trees)
        → PutsAny format db key changes old new
        → (before after : Content) → holds_in format old before
        → AreChangedAt db key changes before after → holds_in format new after }
    ensures found { (format : Format) (db : ℤ) (key : _) (changes : List _) (old new : Trees)
        → PutsAny format db key changes old new
        → (content : Content) → holds_in format old content → (after : Content)
        × AreChangedAt db key changes content after }
    ensures malformed { (format : Format) (db : ℤ) (key : _) (changes : List _) (old new : Trees)
        → PutsAny format db key changes old new → keeps_malformed format old new }
    ensures others { (format : Format) (db : ℤ) (key : _) (changes : List _) (old new : Trees)
        → PutsAny format db key changes old new → keeps_others format db key changes old new }
    ensures allowed { (format : Format) (db : ℤ) (key : _) (changes : List _) (trees : Trees)
        (content : Content)
        → holds_in format trees content → IsStorable content
        → AllByRecursion IsStorableChange changes → OldsRise changes
        → (after : Content) → AreChangedAt db key changes content after
        → (were : KeyUnits) × (are : KeyUnits)
        × AllowsChanges format db key changes trees were are }
{}

/// What tables hold in a format is one content at most, and each of its lists rises. It is told by the tables of the registers alone, and
/// where these have no row it has no posting. No two formats have one version.
pub fn registers_hold_one_content()
    ensures one { (format : Format) (trees : Trees) (one two : Content) → holds_in format trees one
        → holds_in format trees two
        → one ≡ two }
    ensures rising { (format : Format) (trees : Trees) (content : Content)
        → holds_in format trees content → HasRisingLists content }
    ensures stays { (format : Format) (old new : Trees) (content : Content) → KeepsRegisters old new
        → holds_in format old content
        → holds_in format new content }
    ensures empty { (format : Format) (trees : Trees) → LacksRegisters trees
        → holds_in format trees (λ _ _. []) }
    ensures version { (one two : Format) → version_of one ≡ version_of two → one ≡ two }
{}

/// A record's places under a key, its unit, read in one way at most, and not where the unit is malformed; a key has one count at most, and none
/// where it is miscounted. Tables hold a content that every layout can store just where each unit and each count reads as the content says,
/// and no row stands beside.
pub fn units_tell_the_content()
    ensures one { (format : Format) (trees : Trees) (db : ℤ) (key : _) (sysno : ℕ)
        (one two : List _)
        → reads_as format trees db key sysno one → reads_as format trees db key sysno two
        → one ≡ two }
    ensures unread { (format : Format) (trees : Trees) (db : ℤ) (key : _) (sysno : ℕ)
        (places : List _)
        → is_malformed format trees db key sysno → ¬ reads_as format trees db key sysno places }
    ensures counted { (format : Format) (trees : Trees) (db : ℤ) (key : _) (one two : ℕ)
        → counts_as format trees db key one → counts_as format trees db key two → one ≡ two }
    ensures uncounted { (format : Format) (trees : Trees) (db : ℤ) (key : _) (records : ℕ)
        → is_miscounted format trees db key → ¬ counts_as format trees db key records }
    ensures said { (format : Format) (trees : Trees) (content : Content) → IsStorable content
        → holds_in format trees content → HoldsUnits format trees content }
    ensures held { (format : Format) (trees : Trees) (content : Content)
        → HoldsUnits format trees content
        → holds_in format trees content }
{}
