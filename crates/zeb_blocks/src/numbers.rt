//! Numbers in bytes: ULEB128 (DWARF 5, 7.6), in its shortest form alone.
ghost use Rattle.std.specs.Prelude.{◌≡◌, ◌≢◌, ◌^◌, ◌+◌, ◌*◌, ◌%◌, ◌<◌, ◌++◌, ℕ, List, OnErr, OnOk, SomeIff, MatchOption};
ghost use Rattle.zeb_blocks.specs.Numbers.{uleb};

use std::alloc::AllocError;

/// How many values a byte's low seven bits have.
const GROUP: u64 = 128;

/// The value with one more group, which counts by the scale; `None` where that doesn't fit 64 bits.
fn with_group(value: u64, scale: u64, byte: u8) -> Option<u64>
    ensures { SomeIff result
        (value + scale * (byte % 128) < 2 ^ 64) (value + scale * (byte % 128)) }
{
    let group = scale.checked_mul(u64::from(byte) % GROUP)?;
    value.checked_add(group)
}

/// As [`read_number`], group by group.
#[inline(never)]
fn read_groups<'a>(bytes: &'a [u8]) -> Option<(u64, &'a [u8])>
    ensures { MatchOption result ((n : ℕ) (rest : List ℕ) → n < 2 ^ 64 → bytes.now ≢ uleb n ++ rest)
        (λ found. (found.0 < 2 ^ 64) × (bytes.now ≡ uleb found.0 ++ found.1.now)) }
{
    let (first, rest) = bytes.split_first()?;
    if *first < 128 {
        return Some((u64::from(*first), rest));
    }
    let mut left = rest;
    let mut value = u64::from(*first) % GROUP;
    let mut scale = GROUP;
    loop {
        let (byte, behind) = left.split_first()?;
        value = with_group(value, scale, *byte)?;
        if *byte < 128 {
            return (*byte != 0).then_some((value, behind));
        }
        scale = scale.checked_mul(GROUP)?;
        left = behind;
    }
}

/// The number below 2^14 in its shortest form at the front of the bytes, and the bytes behind it; `None` where no such number stands there.
/// It takes one byte or two, and they are read without a call.
#[inline(always)]
pub fn read_small<'a>(bytes: &'a [u8]) -> Option<(u64, &'a [u8])>
    ensures { MatchOption result ((n : ℕ) (rest : List ℕ) → n < 2 ^ 14 → bytes.now ≢ uleb n ++ rest)
        (λ found. (found.0 < 2 ^ 14) × (bytes.now ≡ uleb found.0 ++ found.1.now)) }
{
    let (first, behind) = bytes.split_first()?;
    if *first < 128 {
        return Some((u64::from(*first), behind));
    }
    let (second, rest) = behind.split_first()?;
    if *second == 0 || *second >= 128 {
        return None;
    }
    Some((u64::from(*first) % GROUP + GROUP * u64::from(*second), rest))
}

/// The number in its shortest form at the front of the bytes, and the bytes behind it; `None` where no number below 2^64 stands there.
/// Most numbers are small: then no call is made.
#[inline(always)]
pub fn read_number<'a>(bytes: &'a [u8]) -> Option<(u64, &'a [u8])>
    ensures { MatchOption result ((n : ℕ) (rest : List ℕ) → n < 2 ^ 64 → bytes.now ≢ uleb n ++ rest)
        (λ found. (found.0 < 2 ^ 64) × (bytes.now ≡ uleb found.0 ++ found.1.now)) }
{
    if let Some(found) = read_small(bytes) {
        return Some(found);
    }
    read_groups(bytes)
}

/// Puts the shortest form of a number at the end. Where memory ran out, a part of it may have been put there.
pub fn write_number(out: &mut Vec<u8>, number: u64) -> Result<(), AllocError>
    ensures ok { OnOk result (out.new.items ≡ out.old.items ++ uleb number) }
    ensures err { OnErr result ((part : List ℕ) × (out.new.items ≡ out.old.items ++ part)) }
{
    let mut left = number;
    while left >= GROUP {
        out.push((left % GROUP + GROUP) as u8)?;
        left /= GROUP;
    }
    out.push(left as u8)?;
    Ok(())
}
