//! A run of keys whose places change, put into leaves: each leaf is read and written once for all pieces of the run that it covers.

ghost use Rattle.std.specs.Prelude.{◌≡◌, ◌≢◌, ◌↔◌, ◌≤◌, [], length, take, IfErr, IsTrue, IsUtf8, OnOk};
ghost use Rattle.std.specs.List.{AllByRecursion};
ghost use Rattle.std.specs.Option.{option_map};
ghost use Rattle.sqlite.specs.Held.{state};
ghost use Rattle.zeb_leaf.specs.declared.spans.BlockKey.{BlockKey as KeyOfBlock};
ghost use Rattle.zeb_leaves.specs.PrivatePieces.{ArePieces, AreStorable};
ghost use Rattle.zeb_leaves.specs.PrivateTurnedLeaves.{CoversFront};
ghost use Rattle.zeb_leaves.specs.PrivateTurning.{BeginInRegister, BeginsFront, CountsChanges, CountsLeaves};
ghost use Rattle.zeb_leaves.specs.PrivateTurning.{CountsTurn, IsBelow, IsOfRegister, IsTextOf};
ghost use Rattle.zeb_leaves.specs.PrivateTurning.{ReplacesFront, TurnsFront};
ghost use Rattle.zeb_register.specs.Calls.{GoesOn};
ghost use Rattle.zeb_register.specs.Connections.{InStoreOf, InsideOf};
ghost use Rattle.zeb_register.specs.Formats.{packed_leaves};
ghost use Rattle.zeb_register.specs.RunChanges.{ChangesKeys, IsRun, changes_in};
ghost use Rattle.zeb_register.specs.Tallies.{WorksOnLeaves};
ghost use Rattle.zeb_register.specs.UnitChanges.{ChangesKey, NumbersRise};

use crate::inside::{end_at, key_behind, leaf_inside};
use crate::own_entries::is_below;
use crate::pieces::{first_block, pieces_of};
use crate::spans::own_key;
use crate::turned_entries::{entries_turned, leaf_entries_turned};
use crate::writes::{LeafKey, entries_put, text_of};
use sqlite::{Alter, Row, Transaction};
use std::alloc::Global;
use zeb_keys::Key;
use zeb_leaf::{BlockKey, Filling};
use zeb_register::for_layouts::{check_changes, counted, counts_are_numbers, nothing_inside};
use zeb_register::{DatabaseId, KeyChanges, RecordChange, RegFault, RegisterOf, Work};

/// So many pieces are put into a leaf at once with the first one: their entries are held together.
const MORE_AT_ONCE: usize = 4_095;

/// Whether a piece is of the register.
fn is_of_register(piece: &KeyChanges<'_>, at: RegisterOf) -> bool
    ensures { IsTrue result ↔ IsOfRegister at piece.now }
{
    piece.key.index == at.index && piece.key.register == at.register
}

/// Whether the block of a piece is below the end, where there is one.
fn is_before(piece: &KeyChanges<'_>, end: Option<BlockKey<'_>>) -> bool
    ensures before { IsTrue result
        ↔ IsBelow (option_map (λ (k : KeyOfBlock). (k.term.now, k.block)) end.entry) piece.now }
    ensures text { IsUtf8 piece.now.key.now.term }
{
    let own = BlockKey {
        term: piece.key.term.as_str().as_bytes(),
        block: first_block(piece.changes),
    };
    match end {
        Some(end) => is_below(own, end),
        None => true,
    }
}

/// How many pieces there are before the first that isn't of the register, or not below the end; at most as many as are put at once with the one
/// before them.
fn count_covered(pieces: &[KeyChanges<'_>], at: RegisterOf, end: Option<BlockKey<'_>>) -> usize
    ensures within { result ≤ length pieces.now }
    ensures register { AllByRecursion (IsTextOf at) (take result pieces.now) }
    ensures below { AllByRecursion
        (IsBelow (option_map (λ (k : KeyOfBlock). (k.term.now, k.block)) end.entry))
        (take result pieces.now) }
{
    for (count, piece) in pieces.iter().enumerate() {
        if count == MORE_AT_ONCE || !is_of_register(piece, at) || !is_before(piece, end) {
            return count;
        }
    }
    pieces.len()
}

/// Counts so many leaves as read, and so many as written.
fn count_leaves(work: &mut Work, read: usize, written: usize)
    ensures { CountsLeaves read written work.old work.new }
{
    work.block_read = counted(work.block_read, read);
    work.block_written = counted(work.block_written, written);
}

/// Puts the pieces at the front that are of the register, which has no leaf, into its first leaves; returns how many pieces it puts. It counts
/// these leaves as written, and none as read.
fn register_begun<S: Alter>(
    alloc: Global,
    tx: &mut Transaction<'_, S>,
    work: &mut Work,
    at: RegisterOf,
    pieces: &[KeyChanges<'_>],
) -> Result<usize, RegFault>
    requires { BeginInRegister at pieces.now }
    ensures call { InsideOf S.Store tx.old.conn tx.new.conn result (λ _. GoesOn) }
    ensures turned { BeginsFront at pieces.now (state S.Store tx.old.conn.now)
        (state S.Store tx.new.conn.now) result }
    ensures work { CountsTurn 0 (state S.Store tx.old.conn.now)
        (state S.Store tx.new.conn.now) result work.old work.new }
{
    let count = 1 + count_covered(&pieces[1..], at, None);
    let entries = entries_turned(alloc, Vec::new(alloc), &pieces[..count])?;
    let first = LeafKey { term: "", block: 0 };
    let written = entries_put(alloc, tx, at, first, false, &entries, Filling::Full)?;
    count_leaves(work, 0, written);
    Ok(count)
}

/// Puts the pieces at the front into a leaf that covers the first of them: as many as it covers, up to 4,096; returns how many these are. The
/// end is the own key of the leaf behind it. Leaves are filled where nothing stands behind them, and else halved. It counts the leaf as read, and
/// each that is written.
fn leaf_turned<S: Alter>(
    alloc: Global,
    tx: &mut Transaction<'_, S>,
    work: &mut Work,
    at: RegisterOf,
    leaf: &Row,
    end: Option<BlockKey<'_>>,
    pieces: &[KeyChanges<'_>],
) -> Result<usize, RegFault>
    requires { BeginInRegister at pieces.now }
    ensures call { InsideOf S.Store tx.old.conn tx.new.conn result (λ _. GoesOn) }
    ensures turned { ReplacesFront at leaf.now
        (option_map (λ (k : KeyOfBlock). (k.term.now, k.block)) end.entry) pieces.now
        (state S.Store tx.old.conn.now) (state S.Store tx.new.conn.now) result }
    ensures work { CountsTurn 1 (state S.Store tx.old.conn.now)
        (state S.Store tx.new.conn.now) result work.old work.new }
{
    let count = 1 + count_covered(&pieces[1..], at, end);
    let own = own_key(leaf)?;
    let entries = leaf_entries_turned(alloc, leaf, own, end, &pieces[..count])?;
    let key = LeafKey {
        term: text_of(own.term),
        block: own.block,
    };
    let filling = if end.is_none() {
        Filling::Full
    } else {
        Filling::Even
    };
    let written = entries_put(alloc, tx, at, key, true, &entries, filling)?;
    count_leaves(work, 1, written);
    Ok(count)
}

/// Puts the pieces at the front into a leaf that covers the first of them: as many as it covers, up to 4,096; returns how many these are. This
/// call looks for the end of what it covers.
fn covering_turned<S: Alter>(
    alloc: Global,
    tx: &mut Transaction<'_, S>,
    work: &mut Work,
    at: RegisterOf,
    leaf: &Row,
    pieces: &[KeyChanges<'_>],
) -> Result<usize, RegFault>
    requires { BeginInRegister at pieces.now }
    ensures call { InsideOf S.Store tx.old.conn tx.new.conn result (λ _. GoesOn) }
    ensures turned { CoversFront at leaf.now pieces.now (state S.Store tx.old.conn.now)
        (state S.Store tx.new.conn.now) result }
    ensures work { CountsChanges 1 (state S.Store tx.old.conn.now)
        (state S.Store tx.new.conn.now) result work.old work.new }
{
    let first = pieces[0];
    let block = first_block(first.changes);
    let behind = key_behind(alloc, tx, at, first.key.term.as_str(), block)?;
    let end = end_at(behind.as_ref())?;
    leaf_turned(alloc, tx, work, at, leaf, end, pieces)
}

/// Puts the pieces at the front that one leaf covers; returns how many these are.
///
/// `Damaged` where the register has leaves and none covers the first piece, where the leaf's bytes are no leaf's, and where a record has other
/// places than its change says.
fn front_turned<S: Alter>(
    alloc: Global,
    tx: &mut Transaction<'_, S>,
    work: &mut Work,
    db: DatabaseId,
    pieces: &[KeyChanges<'_>],
) -> Result<usize, RegFault>
    requires some { pieces.now ≢ [] }
    requires pieces { ArePieces pieces.now }
    ensures call { InsideOf S.Store tx.old.conn tx.new.conn result (λ _. GoesOn) }
    ensures turned { TurnsFront db.0 pieces.now (state S.Store tx.old.conn.now)
        (state S.Store tx.new.conn.now) result }
    ensures work { CountsChanges 1 (state S.Store tx.old.conn.now)
        (state S.Store tx.new.conn.now) result work.old work.new }
{
    let first = pieces[0];
    let at = RegisterOf {
        db,
        index: first.key.index,
        register: first.key.register,
    };
    let term = first.key.term.as_str();
    let block = first_block(first.changes);
    let Some(leaf) = leaf_inside(alloc, tx, at, term, block)? else {
        return register_begun(alloc, tx, work, at, pieces);
    };
    covering_turned(alloc, tx, work, at, &leaf, pieces)
}

/// Puts all pieces, leaf by leaf.
fn pieces_turned<S: Alter>(
    alloc: Global,
    tx: &mut Transaction<'_, S>,
    work: &mut Work,
    db: DatabaseId,
    pieces: &[KeyChanges<'_>],
) -> Result<(), RegFault>
    requires { ArePieces pieces.now }
    ensures call { InsideOf S.Store tx.old.conn tx.new.conn result (λ _ a b. IsTrue a.is_open
        → GoesOn a b) }
    ensures units { ChangesKeys packed_leaves db.0 pieces.now (state S.Store tx.old.conn.now)
        (state S.Store tx.new.conn.now) result }
    ensures work { CountsChanges (length pieces.now) (state S.Store tx.old.conn.now)
        (state S.Store tx.new.conn.now) result work.old work.new }
{
    let mut done = 0;
    while done < pieces.len() {
        done += front_turned(alloc, tx, work, db, &pieces[done..])?;
        counts_are_numbers(work);
    }
    Ok(())
}

/// Refuses changes of a run that no row has, as `Store`.
fn check_run(run: &[KeyChanges<'_>]) -> Result<(), RegFault>
    ensures stored { OnOk result (AreStorable run.now) }
    ensures refused { IfErr result (λ fault. fault ≡ RegFault.Store) }
{
    for one in run {
        check_changes(one.changes)?;
    }
    Ok(())
}

/// Puts the changes of a run of keys, each where its `old` stood. Each leaf is read once and written once for all changes that it covers, of
/// 4,096 blocks at most. It counts as many as are read and written.
///
/// `Damaged` where a record has other places than its `old`, where the register has leaves and none covers a changed block, and where what a
/// leaf says of one can't be read. `Store` also where a change can't be stored. Keys may be changed then that stand before the one that is
/// refused.
pub fn run_changes<S: Alter>(
    tx: &mut Transaction<'_, S>,
    work: &mut Work,
    db: DatabaseId,
    run: &[KeyChanges<'_>],
) -> Result<(), RegFault>
    requires rising { IsRun run.now }
    ensures call { InsideOf S.Store tx.old.conn tx.new.conn result (λ _. GoesOn) }
    ensures units { ChangesKeys packed_leaves db.0 run.now (state S.Store tx.old.conn.now)
        (state S.Store tx.new.conn.now) result }
    ensures work { InStoreOf S.Store tx.old.conn tx.new.conn
        (λ trees. OnOk result (WorksOnLeaves (changes_in run.now) trees
        (state S.Store tx.new.conn.now).now.trees work.old work.new)) }
{
    // A closed connection is refused also where there is no change.
    let alloc = nothing_inside(tx)?;
    check_run(run)?;
    let pieces = pieces_of(alloc, run)?;
    pieces_turned(alloc, tx, work, db, &pieces)
}

/// Puts the changes of one key, each where its `old` stood, as `run_changes` does.
///
/// `Damaged` where a record has other places than its `old`, where the register has leaves and none covers a changed block, and where what a
/// leaf says of one can't be read. `Store` also where a change can't be stored.
pub fn key_changes<S: Alter>(
    tx: &mut Transaction<'_, S>,
    work: &mut Work,
    db: DatabaseId,
    key: &Key,
    changes: &[RecordChange<'_>],
) -> Result<(), RegFault>
    requires rising { NumbersRise changes.now }
    ensures call { InsideOf S.Store tx.old.conn tx.new.conn result (λ _. GoesOn) }
    ensures units { ChangesKey packed_leaves db.0 key.now changes.now
        (state S.Store tx.old.conn.now) (state S.Store tx.new.conn.now) result }
    ensures work { InStoreOf S.Store tx.old.conn tx.new.conn
        (λ trees. OnOk result (WorksOnLeaves (length changes.now) trees
        (state S.Store tx.new.conn.now).now.trees work.old work.new)) }
{
    // A change that no row has is told before anything else can be.
    check_changes(changes)?;
    if changes.is_empty() {
        // A closed connection is refused also here.
        nothing_inside(tx)?;
        return Ok(());
    }
    let one = KeyChanges { key, changes };
    run_changes(tx, work, db, &[one])
}
