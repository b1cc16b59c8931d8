//! Writing a leaf: the bytes of rising entries.
ghost use Rattle.std.specs.Prelude.{◌≡◌, ◌≤◌, ◌++◌, ◌∷◌, [], ℕ, List, IfOk, OnOk, OnErr, length};
ghost use Rattle.std.specs.List.{AllByRecursion};
ghost use Rattle.std.specs.List.Sorted.{IsStrictlySortedBy};
ghost use Rattle.zeb_blocks.specs.Numbers.{uleb};
ghost use Rattle.zeb_leaf.specs.declared.entries.Entry.{Entry};
ghost use Rattle.zeb_leaf.specs.Order.{IsEntry, entry_cmp};
ghost use Rattle.zeb_leaf.specs.Leaves.{counted, entry_bytes, leaf_bytes, shared_of};
ghost use Rattle.zeb_leaf.specs.Walks.{Follows, draft_of};

use crate::entries::{Entry, FULL_BYTES};
use std::alloc::{AllocError, Global};
use std::marker::Model;
use zeb_blocks::write_number;

/// How many bytes two terms share at their front.
pub(crate) fn shared_len(before: &[u8], term: &[u8]) -> usize
    ensures value { result ≡ shared_of before.now term.now }
    ensures within { result ≤ length term.now }
{
    let mut len = 0;
    while len < before.len() && len < term.len() && before[len] == term[len] {
        len += 1;
    }
    len
}

/// Puts a number at the end, as of [`write_number`]. Most numbers of a leaf take one byte: then no call is made, and an entry has five.
fn put_number(out: &mut Vec<u8>, number: u64) -> Result<(), AllocError>
    ensures ok { OnOk result (out.new.items ≡ out.old.items ++ uleb number) }
    ensures err { OnErr result ((part : List ℕ) × (out.new.items ≡ out.old.items ++ part)) }
{
    if number < 128 {
        out.push(number as u8)?;
        return Ok(());
    }
    write_number(out, number)
}

/// Puts bytes behind how many they are. Where memory ran out, a part of them may have been put there.
fn write_counted(out: &mut Vec<u8>, bytes: &[u8]) -> Result<(), AllocError>
    ensures ok { OnOk result (out.new.items ≡ out.old.items ++ counted bytes.now) }
    ensures err { OnErr result ((part : List ℕ) × (out.new.items ≡ out.old.items ++ part)) }
{
    put_number(out, bytes.len() as u64)?;
    out.extend_from_slice(bytes)
}

/// Puts the bytes of an entry behind those of one with this term. Where memory ran out, a part of them may have been put there.
fn write_entry(out: &mut Vec<u8>, before: &[u8], entry: &Entry) -> Result<(), AllocError>
    ensures ok { OnOk result (out.new.items ≡ out.old.items ++ entry_bytes before.now entry.now) }
    ensures err { OnErr result ((part : List ℕ) × (out.new.items ≡ out.old.items ++ part)) }
{
    let term = entry.term.as_slice();
    let shared = shared_len(before, term);
    let (_, rest) = term.split_at(shared);
    put_number(out, shared as u64)?;
    write_counted(out, rest)?;
    put_number(out, entry.block)?;
    put_number(out, entry.records)?;
    write_counted(out, entry.bytes.as_slice())
}

/// Makes a term another one. Where memory ran out, it stays as it was.
fn set_term(term: &mut Vec<u8>, new: &[u8]) -> Result<(), AllocError>
    ensures ok { OnOk result (term.new.items ≡ new.now) }
    ensures err { OnErr result (term.new.items ≡ term.old.items) }
{
    term.reserve(new.len())?;
    term.clear();
    term.extend_from_slice(new)
}

/// Puts the bytes of an entry behind those of one with this term, and makes the term the entry's own. Where memory ran out, the term stays
/// as it was, and a part of the bytes may have been put there.
fn put_entry(out: &mut Vec<u8>, term: &mut Vec<u8>, entry: &Entry) -> Result<(), AllocError>
    ensures ok { OnOk result
        ((out.new.items ≡ out.old.items ++ entry_bytes term.old.items entry.now)
        × (term.new.items ≡ entry.now.term)) }
    ensures err { OnErr result
        (((part : List ℕ) × (out.new.items ≡ out.old.items ++ part))
        × (term.new.items ≡ term.old.items)) }
{
    write_entry(out, term.as_slice(), entry)?;
    set_term(term, entry.term.as_slice())
}

/// A leaf that is being written, entry by entry: contracts see the place behind its last entry, and its bytes so far.
#[derive(Debug, Drop)]
pub struct LeafWriter {
    term: Vec<u8>,
    least: u64,
    bytes: Vec<u8>,
}

impl Model for LeafWriter {
    ghost use Rattle.zeb_leaf.specs.Walks.{Draft};

    ghost Value = { Draft };

    ghost view = { λ w. record {
      place = record { term = w.term.items; least = w.least };
      bytes = w.bytes.items;
    } };
}

impl LeafWriter {
    /// A leaf without entries, with room for those of a full one. The only refusal is want of memory.
    pub fn new(alloc: Global) -> Result<LeafWriter, AllocError>
        ensures { IfOk result (λ writer. writer ≡ draft_of []) }
    {
        Ok(LeafWriter {
            term: Vec::new(alloc),
            least: 0,
            bytes: Vec::with_capacity(alloc, FULL_BYTES)?,
        })
    }

    /// Puts an entry at the end, which has to be above the last one. Where memory ran out, the leaf stays as it was.
    pub fn push(&mut self, entry: &Entry) -> Result<(), AllocError>
        requires { Follows self.old.place entry.now }
        ensures ok { (list : List Entry) → self.old ≡ draft_of list
            → OnOk result (self.new ≡ draft_of (list ++ entry.now ∷ [])) }
        ensures err { OnErr result (self.new ≡ self.old) }
    {
        let len = self.bytes.len();
        if let Err(fault) = put_entry(&mut self.bytes, &mut self.term, entry) {
            self.bytes.truncate(len);
            return Err(fault);
        }
        self.least = entry.block + 1;
        Ok(())
    }

    /// The bytes of the leaf.
    pub fn into_bytes(self) -> Vec<u8>
        ensures { result.items ≡ self.bytes }
    {
        self.bytes
    }
}

/// The bytes of a leaf with these entries, which have to rise. The only refusal is want of memory.
pub fn spell_leaf(alloc: Global, entries: &[Entry]) -> Result<Vec<u8>, AllocError>
    requires rising { IsStrictlySortedBy entry_cmp entries.now }
    requires each { AllByRecursion IsEntry entries.now }
    ensures { IfOk result (λ bytes. bytes.items ≡ leaf_bytes entries.now) }
{
    let mut writer = LeafWriter::new(alloc)?;
    for entry in entries {
        writer.push(entry)?;
    }
    Ok(writer.into_bytes())
}
