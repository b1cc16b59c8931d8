//! The parts in which an entry is told from the one before it.
ghost use Rattle.std.specs.Prelude.{◌≡◌, ◌≢◌, ◌++◌, ◌^◌, ◌<◌, ◌↔◌, ℕ, List, IfSome, IsTrue, MatchOption, length, take};

use zeb_blocks::{BLOCK_RECORDS, read_number, read_small};

/// The greatest block's number is below this: a system number fits 64 bits.
const BLOCKS: u64 = 1 << 56;

/// The parts of an entry, read but not yet compared with the entry before it.
#[derive(Clone, Copy)]
pub(crate) struct Told<'a> {
    /// How many bytes of its term are those of the term before it.
    pub(crate) shared: usize,
    /// The rest of its term.
    pub(crate) suffix: &'a [u8],
    /// The same with what stands behind it.
    pub(crate) onward: &'a [u8],
    pub(crate) block: u64,
    pub(crate) records: u64,
    pub(crate) bytes: &'a [u8],
    ghost begins: { take (length suffix.now) onward.now ≡ suffix.now },
}

ghost use Rattle.zeb_leaf.specs.Leaves.{counted};

/// The bytes that stand behind how many they are, what stands behind them, and both together; `None` where the bytes don't begin so.
#[inline(always)]
fn read_counted<'a>(bytes: &'a [u8]) -> Option<(&'a [u8], &'a [u8], &'a [u8])>
    ensures { MatchOption result
        ((part rest : List ℕ) → length part < 2 ^ 64 → bytes.now ≢ counted part ++ rest)
        (λ found. (length found.0.now < 2 ^ 64)
        × (bytes.now ≡ counted found.0.now ++ found.1.now)
        × (found.2.now ≡ found.0.now ++ found.1.now)) }
{
    let (count, onward) = read_number(bytes)?;
    let (part, behind) = onward.split_at_checked(count as usize)?;
    Some((part, behind, onward))
}

impl<'a> Told<'a> {
    ghost use Rattle.zeb_leaf.specs.PrivateTold.{AreSmall, Parts, parts_bytes, parts_told, Fit, Rises, Sound};

    /// As [`Told::read`], where the block's number takes one byte or two and each other number one, as nearly all do; else `None`.
    #[inline(always)]
    pub(crate) fn read_short(bytes: &'a [u8]) -> Option<(Told<'a>, &'a [u8])>
        ensures { IfSome result (λ found. AreSmall (parts_told found.0)
            × (bytes.now ≡ parts_bytes (parts_told found.0) ++ found.1.now)) }
    {
        let [shared, count, onward @ ..] = bytes else {
            return None;
        };
        if *shared >= 128 || *count >= 128 {
            return None;
        }
        let (suffix, behind_suffix) = onward.split_at_checked(usize::from(*count))?;
        let (block, behind_block) = read_small(behind_suffix)?;
        let [records, size, behind_size @ ..] = behind_block else {
            return None;
        };
        if *records >= 128 || *size >= 128 {
            return None;
        }
        let (bytes, behind) = behind_size.split_at_checked(usize::from(*size))?;
        let told = Told {
            shared: usize::from(*shared),
            suffix,
            onward,
            block,
            records: u64::from(*records),
            bytes,
        };
        Some((told, behind))
    }

    /// The parts at the front of the bytes, and what stands behind them; `None` where the bytes don't begin with an entry's parts.
    /// Few entries need it, so it isn't part of a walk's loop.
    #[inline(never)]
    pub(crate) fn read(bytes: &'a [u8]) -> Option<(Told<'a>, &'a [u8])>
        ensures { MatchOption result
            ((parts : Parts) (rest : List ℕ) → AreSmall parts
            → bytes.now ≢ parts_bytes parts ++ rest)
            (λ found. AreSmall (parts_told found.0)
            × (bytes.now ≡ parts_bytes (parts_told found.0) ++ found.1.now)) }
    {
        let (shared, behind_shared) = read_number(bytes)?;
        let (suffix, behind_suffix, onward) = read_counted(behind_shared)?;
        let (block, behind_block) = read_number(behind_suffix)?;
        let (records, behind_records) = read_number(behind_block)?;
        let (bytes, behind, _) = read_counted(behind_records)?;
        let told = Told {
            shared: shared as usize,
            suffix,
            onward,
            block,
            records,
            bytes,
        };
        Some((told, behind))
    }

    /// Whether the numbers are those of an entry.
    #[inline(always)]
    fn is_sound(&self) -> bool
        ensures { IsTrue result ↔ Sound (parts_told self.now) }
    {
        self.shared.checked_add(self.suffix.len()).is_some()
            && self.block < BLOCKS
            && self.records != 0
            && self.records <= BLOCK_RECORDS
    }

    /// Whether the term rises above the one before it, by what each has behind all that they share; where both are the same, by the block.
    #[inline(always)]
    fn rises(&self, before: &[u8], least: u64) -> bool
        ensures { IsTrue result ↔ Rises before.now self.now.suffix.now least self.now.block }
    {
        match (before.first(), self.suffix.first()) {
            (None, None) => least <= self.block,
            (None, Some(_)) => true,
            (Some(_), None) => false,
            (Some(old), Some(new)) => old < new,
        }
    }

    /// Whether they tell an entry that may come behind one with this term, if its own term is text, its block no less than the least where the term
    /// is the same.
    #[inline(always)]
    pub(crate) fn fits(&self, term: &[u8], least: u64) -> bool
        ensures { IsTrue result
            ↔ Fit (record { term = term.now; least = least }) (parts_told self.now) }
    {
        match term.split_at_checked(self.shared) {
            None => false,
            Some((_, rest)) => self.rises(rest, least) && self.is_sound(),
        }
    }
}
