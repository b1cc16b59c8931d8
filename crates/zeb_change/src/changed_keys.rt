//! The keys whose places differ between two lists of occurrences.

ghost use Rattle.std.specs.Prelude.{◌≡◌, ◌≤◌, ◌⊎◌, length, take, drop, IfOk, OnOk, IfSome, IfNone, []};
ghost use Rattle.zeb_keys.specs.Order.{IsRising};
ghost use Rattle.zeb_change.specs.PrivateChangedKeys.{AreChangedKeys, IsAddedIfChanged};
ghost use Rattle.zeb_change.specs.PrivateKeyRuns.{BeginsWithKey, AreOfKey, Stops, IsNotAbove};

use std::alloc::{AllocError, Global};
use std::cmp::Ordering;
use zeb_keys::{Key, Occurrence, order_is_by_parts};

/// A key with its occurrences in the elder record and in the newer one. Either list rises.
#[derive(Clone, Copy)]
pub(crate) struct ChangedKey<'a> {
    pub key: &'a Key,
    pub old: &'a [Occurrence],
    pub new: &'a [Occurrence],
}

/// How many of the first occurrences are of this key.
fn run_length(occurrences: &[Occurrence], key: &Key) -> usize
    ensures within { result ≤ length occurrences.now }
    ensures run { AreOfKey key.now (take result occurrences.now) }
    ensures stops { Stops key.now (drop result occurrences.now) }
    ensures some { BeginsWithKey key.now occurrences.now → 1 ≤ result }
{
    for (index, occurrence) in occurrences.iter().enumerate() {
        if occurrence.key != *key {
            return index;
        }
    }
    occurrences.len()
}

/// The lesser of the keys that two lists begin with.
fn lesser_key<'a>(old: &'a [Occurrence], new: &'a [Occurrence]) -> Option<&'a Key>
    ensures found { IfSome result (λ key.
        BeginsWithKey key.now old.now ⊎ BeginsWithKey key.now new.now) }
    ensures lesser { IfSome result (λ key.
        IsNotAbove key.now old.now × IsNotAbove key.now new.now) }
    ensures none { IfNone result ((old.now ≡ []) × (new.now ≡ [])) }
{
    order_is_by_parts();
    match (old.first(), new.first()) {
        (Some(elder), Some(newer)) => match elder.key.cmp(&newer.key) {
            Ordering::Greater => Some(&newer.key),
            Ordering::Less | Ordering::Equal => Some(&elder.key),
        },
        (Some(elder), None) => Some(&elder.key),
        (None, Some(newer)) => Some(&newer.key),
        (None, None) => None,
    }
}

/// Notes a key with its occurrences in either record, where they differ.
fn note<'a>(
    changed: &mut Vec<ChangedKey<'a>>,
    key: &'a Key,
    old: &'a [Occurrence],
    new: &'a [Occurrence],
) -> Result<(), AllocError>
    ensures { AreOfKey key.now old.now → AreOfKey key.now new.now
        → OnOk result (IsAddedIfChanged key.now old.now new.now changed.old.items
        changed.new.items) }
{
    if old != new {
        changed.push(ChangedKey { key, old, new })?;
    }
    Ok(())
}

/// The keys, in their order, whose places differ between two rising lists of occurrences, each once, with its occurrences in either.
///
/// Where there is no elder record, these are the newer one's keys with all their occurrences. An error is want of memory.
pub(crate) fn changed_keys<'a>(
    alloc: Global,
    elder: &'a [Occurrence],
    newer: &'a [Occurrence],
) -> Result<Vec<ChangedKey<'a>>, AllocError>
    ensures { IsRising elder.now → IsRising newer.now
        → IfOk result (λ changed. AreChangedKeys elder.now newer.now changed.items) }
{
    let mut changed = Vec::new(alloc);
    let mut elder = elder;
    let mut newer = newer;
    while let Some(key) = lesser_key(elder, newer) {
        let (in_elder, elder_rest) = elder.split_at(run_length(elder, key));
        let (in_newer, newer_rest) = newer.split_at(run_length(newer, key));
        note(&mut changed, key, in_elder, in_newer)?;
        elder = elder_rest;
        newer = newer_rest;
    }
    Ok(changed)
}
