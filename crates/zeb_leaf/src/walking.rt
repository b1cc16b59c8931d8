//! A walk over a leaf, entry by entry.
ghost use Rattle.std.specs.Prelude.{◌≡◌, ◌+◌, ◌^◌, ◌<◌, ◌≤◌, ◌++◌, ◌↔◌, [], ℕ, IsTrue, IsUtf8, OnErr, OnOk, MatchOption, length, take};
ghost use Rattle.std.specs.Str.{IsAscii, IsCharBoundary};
ghost use Rattle.zeb_leaf.specs.Answers.{Answers, entry_of};
ghost use Rattle.zeb_leaf.specs.PrivateTold.{AreSmall, Fit, StepsBy, parts_bytes, parts_told};
ghost use Rattle.zeb_leaf.specs.Walks.{Steps, IsStuck, first_place};

use crate::entries::{Held, LeafFault};
use crate::telling::Told;
use crate::texts::Text;
use std::alloc::{AllocError, Global};
use std::marker::Model;

/// A reader of a leaf: contracts see the place that it came to, and the bytes that are left.
#[derive(Debug, Drop)]
pub struct LeafReader<'a> {
    term: Text,
    least: u64,
    left: &'a [u8],
    /// Where a term is put together that shares a part of a character: only once it is known to be text, it takes the place of the one before it.
    tried: Vec<u8>,
}

impl<'a> Model for LeafReader<'a> {
    ghost use Rattle.std.specs.Prelude.{IsUtf8};
    ghost use Rattle.zeb_leaf.specs.Walks.{Walk};

    ghost Value = { Walk };

    ghost view = { λ r. record {
      place = record { term = r.term; least = r.least };
      left = r.left.now;
    } };

    ghost invariant = { λ r. IsUtf8 r.term };
}

/// An entry that a walk came over.
#[derive(Clone, Copy)]
pub(crate) struct Step<'a> {
    /// How many bytes of its term are those of the term before it.
    pub(crate) shared: usize,
    pub(crate) held: Held<'a>,
}

/// Makes the bytes those of two parts, one behind the other. Where memory ran out, they may be others.
fn set_joined(bytes: &mut Vec<u8>, front: &[u8], back: &[u8]) -> Result<(), AllocError>
    ensures { OnOk result (bytes.new.items ≡ front.now ++ back.now) }
{
    bytes.clear();
    bytes.extend_from_slice(front)?;
    bytes.extend_from_slice(back)
}

/// Whether all bytes are those of ASCII. Few bytes are told soonest one by one.
#[inline(always)]
fn is_ascii(bytes: &[u8]) -> bool
    ensures { IsTrue result → IsAscii bytes.now }
{
    for byte in bytes {
        if *byte >= 0x80 {
            return false;
        }
    }
    true
}

/// Whether bytes are UTF-8.
fn is_text(bytes: &[u8]) -> bool
    ensures { IsTrue result ↔ IsUtf8 bytes.now }
{
    str::from_utf8(bytes).is_ok()
}

/// Whether no byte within a character stands at this place.
fn is_between_characters(bytes: &[u8], place: usize) -> bool
    requires { place ≤ length bytes.now }
    ensures { IsTrue result → IsCharBoundary bytes.now place }
{
    match bytes.get(place) {
        Some(byte) => *byte < 0x80 || *byte >= 0xc0,
        None => true,
    }
}

/// Makes a text another one, which shares so many bytes at its front: it is put together in other bytes first. `Malformed` just where
/// that is no text. At a refusal the text stays.
fn set_tried(
    text: &mut Text,
    tried: &mut Vec<u8>,
    shared: usize,
    suffix: &[u8],
) -> Result<(), LeafFault>
    requires shared { shared ≤ length text.old }
    requires fits { shared + length suffix.now < 2 ^ 64 }
    ensures told { Answers (¬ IsUtf8 (take shared text.old ++ suffix.now))
        (λ _. (text.new ≡ take shared text.old ++ suffix.now) × IsUtf8 text.new) result }
    ensures stays { OnErr result (text.new ≡ text.old) }
{
    let (front, _) = text.as_slice().split_at(shared);
    set_joined(tried, front, suffix)?;
    if !is_text(tried.as_slice()) {
        return Err(LeafFault::Malformed);
    }
    text.set_behind(shared, suffix)?;
    Ok(())
}

/// Makes a text another one, which shares so many bytes at its front. `Malformed` just where that is no text. At a refusal the text stays;
/// what is tried stands in other bytes. Few terms need it, so it isn't part of a walk's loop.
#[inline(never)]
fn set_any(
    text: &mut Text,
    tried: &mut Vec<u8>,
    shared: usize,
    suffix: &[u8],
) -> Result<(), LeafFault>
    requires text { (shared ≤ length text.old) × IsUtf8 text.old }
    requires fits { shared + length suffix.now < 2 ^ 64 }
    ensures told { Answers (¬ IsUtf8 (take shared text.old ++ suffix.now))
        (λ _. (text.new ≡ take shared text.old ++ suffix.now) × IsUtf8 text.new) result }
    ensures stays { OnErr result (text.new ≡ text.old) }
{
    // A text that is cut between characters, and a text behind it.
    if is_between_characters(text.as_slice(), shared) && is_text(suffix) {
        text.set_behind(shared, suffix)?;
        return Ok(());
    }
    set_tried(text, tried, shared, suffix)
}

/// Makes a text the one that is told behind it. `Malformed` just where that is no text. At a refusal the text stays.
#[inline(always)]
fn set_text(text: &mut Text, tried: &mut Vec<u8>, told: Told) -> Result<(), LeafFault>
    requires text { IsUtf8 text.old }
    requires fits { (least : ℕ) × Fit (record { term = text.old; least = least }) (parts_told told) }
    ensures told { Answers (¬ IsUtf8 (take told.entry.shared text.old ++ told.entry.suffix.now))
        (λ _. (text.new ≡ take told.entry.shared text.old ++ told.entry.suffix.now)
        × IsUtf8 text.new) result }
    ensures stays { OnErr result (text.new ≡ text.old) }
{
    // The suffix is ASCII, and the old byte at the cut is less than its first, or the old text ends there: so the cut isn't within a character.
    if is_ascii(told.suffix) {
        text.set_front(told.shared, told.suffix, told.onward)?;
        return Ok(());
    }
    set_any(text, tried, told.shared, told.suffix)
}

impl<'a> LeafReader<'a> {
    /// A walk before the first entry of the bytes. Nothing is allocated yet.
    pub fn new(alloc: Global, bytes: &'a [u8]) -> LeafReader<'a>
        ensures { result ≡ record { place = first_place; left = bytes.now } }
    {
        LeafReader {
            term: Text::new(alloc),
            least: 0,
            left: bytes,
            tried: Vec::new(alloc),
        }
    }

    /// The term of the entry that was read last; empty before the first.
    pub fn term(&self) -> &[u8]
        ensures { result.now ≡ self.now.place.term }
    {
        self.term.as_slice()
    }

    /// Goes over an entry that these parts tell, if one may come here.
    #[inline(always)]
    fn go_over(&mut self, told: Told<'a>, left: &'a [u8]) -> Result<Step<'a>, LeafFault>
        requires small { AreSmall (parts_told told) }
        requires spelled { self.old.left ≡ parts_bytes (parts_told told) ++ left.now }
        ensures answers { Answers (IsStuck self.old)
            (λ step. StepsBy self.old step self.new) result }
        ensures stays { OnErr result (self.new ≡ self.old) }
    {
        if !told.fits(self.term.as_slice(), self.least) {
            return Err(LeafFault::Malformed);
        }
        set_text(&mut self.term, &mut self.tried, told)?;
        self.least = told.block + 1;
        self.left = left;
        Ok(Step {
            shared: told.shared,
            held: Held {
                block: told.block,
                records: told.records,
                bytes: told.bytes,
            },
        })
    }

    /// Goes over the entry that comes next, whatever its numbers are.
    #[inline(always)]
    fn go_over_any(&mut self) -> Result<Step<'a>, LeafFault>
        requires { ¬ (self.old.left ≡ []) }
        ensures answers { Answers (IsStuck self.old)
            (λ step. StepsBy self.old step self.new) result }
        ensures stays { OnErr result (self.new ≡ self.old) }
    {
        let Some((told, left)) = Told::read(self.left) else {
            return Err(LeafFault::Malformed);
        };
        self.go_over(told, left)
    }

    /// The next entry, as of [`LeafReader::next`], and how many bytes its term shares with the one before it. A leaf has a hundred
    /// entries: the hint saves a call for each.
    #[inline(always)]
    pub(crate) fn step(&mut self) -> Result<Option<Step<'a>>, LeafFault>
        ensures answers { Answers (IsStuck self.old) (λ found. MatchOption found
            ((self.old.left ≡ []) × (self.new ≡ self.old))
            (λ step. StepsBy self.old step self.new)) result }
        ensures stays { OnErr result (self.new ≡ self.old) }
    {
        if self.left.is_empty() {
            return Ok(None);
        }
        if let Some((told, left)) = Told::read_short(self.left) {
            let step = self.go_over(told, left)?;
            return Ok(Some(step));
        }
        let step = self.go_over_any()?;
        Ok(Some(step))
    }

    /// The next entry: its term is then [`LeafReader::term`]. `None` at the end of the bytes.
    ///
    /// [`LeafFault::Malformed`] exactly where no entry that may come here stands at the front of what is left: a number is cut, isn't
    /// in the shortest form of ULEB128 or doesn't fit 64 bits; bytes are cut; a term isn't told by the longest start that it shares
    /// with the one before it, or isn't UTF-8; term and block don't rise; the block is 2^56 or more; or there are no records, or more
    /// than 256. Then, and where memory ran out, the walk stays where it was.
    #[inline(always)]
    pub fn next(&mut self) -> Result<Option<Held<'a>>, LeafFault>
        ensures answers { Answers (IsStuck self.old) (λ found. MatchOption found
            ((self.old.left ≡ []) × (self.new ≡ self.old))
            (λ held. Steps self.old (entry_of self.new.place.term held) self.new)) result }
        ensures stays { OnErr result (self.new ≡ self.old) }
    {
        match self.step()? {
            Some(step) => Ok(Some(step.held)),
            None => Ok(None),
        }
    }
}
