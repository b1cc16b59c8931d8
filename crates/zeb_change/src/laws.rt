//! Laws of a fold: what follows from `FoldsFiles`, which `fold_files` ensures. Each is a function that does nothing, whose contract is
//! the law of any two connections.

ghost use Rattle.std.specs.Prelude.{◌≢◌, ◌+◌, ◌<◌, ◌≤◌, ℕ, ℤ, List, length, Result, Ok, Err, OnOk};
ghost use Rattle.std.specs.List.{flat_map};
ghost use Rattle.sqlite.specs.Held.{state};
ghost use Rattle.zeb_marc.specs.Splits.{Split};
ghost use Rattle.zeb_register.specs.Formats.{Format};
ghost use Rattle.zeb_register.specs.Store.{IsStore};
ghost use Rattle.zeb_register.specs.Tallies.{works_for};
ghost use Rattle.zeb_change.specs.Base.{Kept};
ghost use Rattle.zeb_change.specs.Costs.{IsFilesCost};
ghost use Rattle.zeb_change.specs.Elders.{AllFindWhole, FirstFindsWhole, PassesOn};
ghost use Rattle.zeb_change.specs.Folding.{Progress, files_folded};
ghost use Rattle.zeb_change.specs.Holding.{HoldsSome};
ghost use Rattle.zeb_change.specs.Reasons.{IsRefusedFor, LosesNamedAlone};
ghost use Rattle.zeb_change.specs.RecordFolds.{FoldsFiles};
ghost use Rattle.zeb_change.specs.Refused.{Meets, NeverUnready};
ghost use Rattle.zeb_change.specs.UnderWay.{IsFolded, IsUnderWay, StandsFor, conditions_of};

use crate::files::Fold;
use crate::refusals::Refusal;
use crate::settings::Setting;
use sqlite::{Alter, Connection};

/// From tables that hold a database as the definition has it, a fold comes to what the definition says of the records of the files,
/// in their order: the tables hold then what it leaves, or its first refusal is answered, or a failure. Of tables that hold some
/// database on its way, whatever the files are, damage is never answered, and those that an accepted fold leaves hold one too.
/// An accepted fold counts the work for the keys that its records change, as the layout counts it.
pub fn a_fold_follows_the_definition<S: Alter>(old: &Connection<S>, new: &Connection<S>)
    ensures folded { (setting : Setting) (format : Format) (row_work : ℕ) (db : ℤ)
        (splits : List Split) (first last : Fold)
        (version : List ℕ) (records_of : ℤ → List Kept) (result : Result (Unit {0}) Refusal)
        → FoldsFiles setting format row_work db splits
        (state S.Store old.now).now (state S.Store new.now).now first last result
        → (p : Progress) → StandsFor first p
        → IsUnderWay format setting.profile.now db records_of
        (state S.Store old.now) p.base
        → Meets (λ after _. IsFolded format setting.profile.now db records_of
        (state S.Store old.now) (state S.Store new.now) last after)
        (files_folded (conditions_of version setting) setting.kind 1 splits p) result }
    ensures honest { (setting : Setting) (format : Format) (row_work : ℕ) (db : ℤ)
        (splits : List Split) (first last : Fold)
        (version : List ℕ) (records_of : ℤ → List Kept) (result : Result (Unit {0}) Refusal)
        → FoldsFiles setting format row_work db splits
        (state S.Store old.now).now (state S.Store new.now).now first last result
        → HoldsSome format setting.profile.now db records_of
        (state S.Store old.now) first.progress.last
        → (result ≢ Err Refusal.Damaged)
        × OnOk result (HoldsSome format setting.profile.now db records_of
        (state S.Store new.now) last.progress.last) }
    ensures work { (setting : Setting) (format : Format) (row_work : ℕ) (db : ℤ)
        (splits : List Split) (first last : Fold)
        (version : List ℕ) (records_of : ℤ → List Kept)
        → FoldsFiles setting format row_work db splits
        (state S.Store old.now).now (state S.Store new.now).now first last (Ok tt)
        → (p : Progress) → StandsFor first p
        → IsUnderWay format setting.profile.now db records_of
        (state S.Store old.now) p.base
        → (n : ℕ) × IsFilesCost (conditions_of version setting) setting.kind 1 splits p n
        × works_for format row_work n (state S.Store old.now).now.trees
        (state S.Store new.now).now.trees first.progress.work last.progress.work }
{
    let _ = old;
    let _ = new;
}

/// Whatever rows the tables of the store have: a refused fold is refused, but for damage and a failure, for the reason at the first
/// place of the files that has one, by what stands there and by the limits. It is never refused as for a register that isn't ready.
/// What is kept under the first record's identifier is whole, or the fold is refused as damage or by a failure.
pub fn a_refused_fold_has_a_reason<S: Alter>(old: &Connection<S>, new: &Connection<S>)
    ensures reasons { (setting : Setting) (format : Format) (row_work : ℕ) (db : ℤ)
        (splits : List Split) (first last : Fold)
        → IsStore (state S.Store old.now) → (refusal : Refusal)
        → FoldsFiles setting format row_work db splits
        (state S.Store old.now).now (state S.Store new.now).now first last (Err refusal)
        → IsRefusedFor setting.profile.now setting.kind setting.limits first.progress.last
        first.tally.records (state S.Store old.now).now.trees db splits refusal }
    ensures ready { (setting : Setting) (format : Format) (row_work : ℕ) (db : ℤ)
        (splits : List Split) (first last : Fold)
        → IsStore (state S.Store old.now) → (refusal : Refusal)
        → FoldsFiles setting format row_work db splits
        (state S.Store old.now).now (state S.Store new.now).now first last (Err refusal)
        → NeverUnready {T = Unit {0}} (Err refusal) }
    ensures elder { (setting : Setting) (format : Format) (row_work : ℕ) (db : ℤ)
        (splits : List Split) (first last : Fold)
        → IsStore (state S.Store old.now) → first.tally.records < setting.limits.records
        → (result : Result (Unit {0}) Refusal)
        → FoldsFiles setting format row_work db splits
        (state S.Store old.now).now (state S.Store new.now).now first last result
        → FirstFindsWhole setting.profile.now (state S.Store old.now).now.trees db splits result }
{
    let _ = old;
    let _ = new;
}

/// Whatever rows the tables of the store have: an accepted fold has taken no more records than the limit allows, and what was kept
/// under the identifiers of all of them, up to the last number, was whole. Each record kept before, up to that number, was whole or
/// is kept after just as it was, or a record of the files has its identifier; and all else stays.
pub fn an_accepted_fold_passes_on<S: Alter>(old: &Connection<S>, new: &Connection<S>)
    ensures passes { (setting : Setting) (format : Format) (row_work : ℕ) (db : ℤ)
        (splits : List Split) (first last : Fold)
        → IsStore (state S.Store old.now)
        → FoldsFiles setting format row_work db splits
        (state S.Store old.now).now (state S.Store new.now).now first last (Ok tt)
        → PassesOn format setting.profile.now db first.progress.last last.progress.last
        (state S.Store old.now) (state S.Store new.now) }
    ensures named { (setting : Setting) (format : Format) (row_work : ℕ) (db : ℤ)
        (splits : List Split) (first last : Fold)
        → IsStore (state S.Store old.now)
        → FoldsFiles setting format row_work db splits
        (state S.Store old.now).now (state S.Store new.now).now first last (Ok tt)
        → LosesNamedAlone setting.profile.now first.progress.last db splits
        (state S.Store old.now).now.trees (state S.Store new.now).now.trees }
    ensures most { (setting : Setting) (format : Format) (row_work : ℕ) (db : ℤ)
        (splits : List Split) (first last : Fold)
        → IsStore (state S.Store old.now)
        → FoldsFiles setting format row_work db splits
        (state S.Store old.now).now (state S.Store new.now).now first last (Ok tt)
        → first.tally.records ≤ setting.limits.records
        → first.tally.records + length (flat_map (λ (split : Split). split.slices) splits)
        ≤ setting.limits.records }
    ensures elders { (setting : Setting) (format : Format) (row_work : ℕ) (db : ℤ)
        (splits : List Split) (first last : Fold)
        → IsStore (state S.Store old.now)
        → FoldsFiles setting format row_work db splits
        (state S.Store old.now).now (state S.Store new.now).now first last (Ok tt)
        → AllFindWhole setting.profile.now first.progress.last
        (state S.Store old.now).now.trees db splits }
{
    let _ = old;
    let _ = new;
}
