//! Numbers on their way into a row, and values on their way out.

ghost use Rattle.std.specs.Prelude.{◌≡◌, ◌≢◌, ◌<◌, ◌≤◌, ◌^◌, ℕ, List, true, false, pos, length, IfOk, IfErr, FitsSigned};
ghost use Rattle.std.specs.Int.{w64};
ghost use Rattle.sqlite.specs.declared.types.Value.TheVariants.{Blob, Int, Text};
ghost use Rattle.sqlite.specs.Values.{IsInt};
ghost use Rattle.sqlite.specs.Order.{column};
ghost use Rattle.zeb_register.specs.Faults.{fault_of};

use crate::{RegFault, RowFault};
use sqlite::types::{FromSql, ValueRef};
use sqlite::{Error, ErrorCode, Row};

/// The number as a column stores it. It is refused above `2^63 - 1`, which no column stores.
pub fn stored(number: u64) -> Result<i64, Error>
    ensures ok { IfOk result (λ n. (n ≡ pos number) × FitsSigned w64 n) }
    ensures err { IfErr result (λ e. (fault_of e ≡ RegFault.Store) × (2 ^ 63 ≤ number)) }
{
    i64::try_from(number).map_err(|_| Error::SqliteFailure(ErrorCode::IntegerOverflow))
}

/// The value at this place of a row, in memory of its own. `Damaged` where it is of another type or no UTF-8.
pub fn read<T: FromSql>(row: &Row, at: usize) -> Result<T, RowFault>
    ensures ok { IfOk result (T.FromSql.reads_as (column row.now at)) }
    ensures honest { result ≡ Err RowFault.Damaged → at < length row.now
        → ¬ T.FromSql.is_readable (column row.now at) }
{
    match row.get(at) {
        Ok(value) => Ok(value),
        Err(Error::SqliteFailure(ErrorCode::OutOfMemory)) => Err(RowFault::Memory),
        Err(_) => Err(RowFault::Damaged),
    }
}

/// The number at this place of a row. It takes no memory: it is refused as `Damaged` alone, where it is of another type or below 0.
pub fn read_number(row: &Row, at: usize) -> Result<u64, RowFault>
    ensures ok { IfOk result (λ n. column row.now at ≡ Int (pos n)) }
    ensures refused { IfErr result (λ fault. (fault ≡ RowFault.Damaged)
        × ¬ ((n : ℕ) × (column row.now at ≡ Int (pos n)))) }
{
    match row.get_ref(at) {
        Ok(ValueRef::Int(value)) => u64::try_from(value).map_err(|_| RowFault::Damaged),
        _ => Err(RowFault::Damaged),
    }
}

/// The integer at this place of a row. It takes no memory: it is refused as `Damaged` alone, where it is of another type.
pub(crate) fn read_integer(row: &Row, at: usize) -> Result<i64, RowFault>
    ensures ok { IfOk result (λ n. (column row.now at ≡ Int n) × FitsSigned w64 n) }
    ensures refused { IfErr result (λ fault. (fault ≡ RowFault.Damaged)
        × ¬ IsInt (column row.now at)) }
{
    match row.get_ref(at) {
        Ok(ValueRef::Int(value)) => Ok(value),
        _ => Err(RowFault::Damaged),
    }
}

/// The bytes at this place of a row, as they lie there. They take no memory: they are refused as `Damaged` alone, where they are of another
/// type.
pub fn read_bytes(row: &Row, at: usize) -> Result<&[u8], RowFault>
    ensures ok { IfOk result (λ bytes. column row.now at ≡ Blob bytes.now) }
    ensures refused { IfErr result (λ fault. (fault ≡ RowFault.Damaged)
        × ((bytes : List ℕ) → column row.now at ≢ Blob bytes)) }
{
    match row.get_ref(at) {
        Ok(ValueRef::Blob(bytes)) => Ok(bytes),
        _ => Err(RowFault::Damaged),
    }
}

/// Whether the value at this place of a row is this number.
pub(crate) fn is_number(row: &Row, at: usize, number: u64) -> bool
    ensures same { result ≡ true → column row.now at ≡ Int (pos number) }
    ensures other { result ≡ false → column row.now at ≢ Int (pos number) }
{
    match row.get_ref(at) {
        Ok(ValueRef::Int(value)) => value >= 0 && value as u64 == number,
        _ => false,
    }
}

/// Whether the value at this place of a row is this text.
pub(crate) fn is_text(row: &Row, at: usize, text: &str) -> bool
    ensures same { result ≡ true → column row.now at ≡ Text text.now }
    ensures other { result ≡ false → column row.now at ≢ Text text.now }
{
    match row.get_ref(at) {
        Ok(ValueRef::Text(value)) => value == text.as_bytes(),
        _ => false,
    }
}

/// Whether the value at this place of a row is these bytes.
pub(crate) fn is_blob(row: &Row, at: usize, bytes: &[u8]) -> bool
    ensures same { result ≡ true → column row.now at ≡ Blob bytes.now }
    ensures other { result ≡ false → column row.now at ≢ Blob bytes.now }
{
    match row.get_ref(at) {
        Ok(ValueRef::Blob(value)) => value == bytes,
        _ => false,
    }
}
