//! Laws of a store's rows: what makes lists of them, and that each unit reads or is malformed.

ghost use Rattle.std.specs.Prelude.{◌≡◌, ℕ, ℤ, List, [], ◌∷◌};
ghost use Rattle.sqlite.specs.declared.types.Value.TheVariants.{Int};
ghost use Rattle.sqlite.specs.Held.{state};
ghost use Rattle.sqlite.specs.Order.{Row};
ghost use Rattle.sqlite.specs.Tree.{Trees};
ghost use Rattle.zeb_register.specs.Formats.{Format};
ghost use Rattle.zeb_register.specs.Sql.{HasRow, IsListOf};
ghost use Rattle.zeb_register.specs.Store.{IsStore, meta_tree, records_tree, entry, HasDatabase, HasRecord, IsRest};
ghost use Rattle.zeb_register.specs.Units.{is_malformed, reads_as};

use sqlite::{Alter, Connection};

/// In the tables of a store a name has one text at most, an id one name and one last number, and a name one id; in a
/// database each number and each identifier has one record at most. And a database has one list of records.
pub fn rows_are_lists<S: Alter>(conn: &Connection<S>)
    ensures texts { IsStore (state S.Store conn.now) → (name one two : List ℕ)
        → HasRow (state S.Store conn.now).now.trees meta_tree (entry name one)
        → HasRow (state S.Store conn.now).now.trees meta_tree (entry name two) → one ≡ two }
    ensures ids { IsStore (state S.Store conn.now) → (id : ℤ) (one two : List ℕ) (last other : ℤ)
        → HasDatabase (state S.Store conn.now).now.trees id one last
        → HasDatabase (state S.Store conn.now).now.trees id two other
        → (one ≡ two) × (last ≡ other) }
    ensures names { IsStore (state S.Store conn.now)
        → (one two : ℤ) (name : List ℕ) (last other : ℤ)
        → HasDatabase (state S.Store conn.now).now.trees one name last
        → HasDatabase (state S.Store conn.now).now.trees two name other
        → one ≡ two }
    ensures numbers { IsStore (state S.Store conn.now)
        → (db sysno : ℤ) (one two bytes other : List ℕ)
        → HasRecord (state S.Store conn.now).now.trees db sysno one bytes
        → HasRecord (state S.Store conn.now).now.trees db sysno two other → (one ≡ two)
        × (bytes ≡ other) }
    ensures idents { IsStore (state S.Store conn.now)
        → (db one two : ℤ) (ident bytes other : List ℕ)
        → HasRecord (state S.Store conn.now).now.trees db one ident bytes
        → HasRecord (state S.Store conn.now).now.trees db two ident other → (one ≡ two)
        × (bytes ≡ other) }
    ensures lists { (trees : Trees) (db : ℤ) (one two : List Row)
        → IsListOf (IsRest records_tree (Int db ∷ []) trees) one
        → IsListOf (IsRest records_tree (Int db ∷ []) trees) two → one ≡ two }
{
    let _ = conn;
}

/// In the tables of a store no unit is neither malformed nor reads as some places, in each format and whatever the rows of the registers are.
pub fn each_unit_reads_or_is_malformed<S: Alter>(conn: &Connection<S>)
    ensures { IsStore (state S.Store conn.now) → (format : Format) (db : ℤ) (key : _) (sysno : ℕ)
        → ¬ ((¬ is_malformed format (state S.Store conn.now).now.trees db key sysno)
        × ((places : List _)
        → ¬ reads_as format (state S.Store conn.now).now.trees db key sysno places)) }
{
    let _ = conn;
}
