//! The leader of a record: ISO 2709, "Record label".
ghost use Rattle.std.specs.Prelude.{◌≡◌, ◌≤◌, ◌<◌, true, false, length, IfOk, MatchOption};
ghost use Rattle.zeb_marc.specs.Leader.{base_address, counts, announced_checks, has_base_address, has_counts, layout_checks, record_length};
ghost use Rattle.zeb_marc.specs.PrivateLeader.{Answers};

use crate::digits::read_number;
use crate::faults::MarcFault;

/// Ends each field, and the directory.
pub(crate) const FIELD_TERMINATOR: u8 = 0x1E;

/// Ends the record.
const RECORD_TERMINATOR: u8 = 0x1D;

/// The leader's bytes.
pub(crate) const LEADER_LEN: usize = 24;

/// The bytes of a directory entry.
pub(crate) const ENTRY_LEN: usize = 12;

/// The least length: a leader, an empty directory's field terminator and a record terminator.
const LEAST_LENGTH: usize = 26;

/// The length that the first five digits of a record say, where a record may have it.
pub(crate) fn announced_length(bytes: &[u8]) -> Result<usize, MarcFault>
    ensures checked { Answers (announced_checks bytes.now) result }
    ensures value { IfOk result
        (λ length. (length ≡ record_length bytes.now) × (26 ≤ length) × (length < 100000)) }
{
    if bytes.len() < 5 {
        return Err(MarcFault::Truncated);
    }
    let Some(length) = read_number(&bytes[..5]) else {
        return Err(MarcFault::LengthDigits);
    };
    if length < LEAST_LENGTH {
        return Err(MarcFault::LengthRange);
    }
    Ok(length)
}

/// Whether a count in the leader is read as this digit: a byte that is no digit is.
#[tactic(auto, unfolding(crate::specs::Leader::counts))]
fn says(byte: u8, digit: u8) -> bool
    ensures { result ≡ counts byte digit }
{
    !byte.is_ascii_digit() || byte == digit
}

/// Whether the leader has the counts of MARC 21.
#[tactic(auto, unfolding(crate::specs::Leader::has_counts))]
fn has_marc_counts(bytes: &[u8]) -> bool
    requires { 24 ≤ length bytes.now }
    ensures { result ≡ has_counts bytes.now }
{
    says(bytes[10], b'2')
        && says(bytes[11], b'2')
        && says(bytes[20], b'4')
        && says(bytes[21], b'5')
        && says(bytes[22], b'0')
}

/// The base address of data, where it stands behind the directory's field terminator, and within the record.
#[tactic(auto, unfolding(crate::specs::Leader::has_base_address, crate::specs::Leader::ends_directory))]
fn read_base_address(bytes: &[u8]) -> Option<usize>
    requires { 26 ≤ length bytes.now }
    ensures { MatchOption result (has_base_address bytes.now ≡ false)
        (λ base. (has_base_address bytes.now ≡ true) × (base ≡ base_address bytes.now) × (25 ≤ base)
        × (base < length bytes.now)) }
{
    let base = read_number(&bytes[12..17])?;
    if base <= LEADER_LEN || base >= bytes.len() || bytes[base - 1] != FIELD_TERMINATOR {
        return None;
    }
    Some(base)
}

/// The base address of data, or the first fault of the last byte, the leader's counts, the base address and the directory's length.
pub(crate) fn checked_base_address(bytes: &[u8]) -> Result<usize, MarcFault>
    requires { 26 ≤ length bytes.now }
    ensures checked { Answers (layout_checks bytes.now) result }
    ensures value { IfOk result
        (λ base. (base ≡ base_address bytes.now) × (25 ≤ base) × (base < length bytes.now)) }
{
    if bytes[bytes.len() - 1] != RECORD_TERMINATOR {
        return Err(MarcFault::NoTerminator);
    }
    if !has_marc_counts(bytes) {
        return Err(MarcFault::LeaderCounts);
    }
    let Some(base) = read_base_address(bytes) else {
        return Err(MarcFault::BaseAddress);
    };
    if (base - LEADER_LEN - 1) % ENTRY_LEN != 0 {
        return Err(MarcFault::DirectoryLength);
    }
    Ok(base)
}
