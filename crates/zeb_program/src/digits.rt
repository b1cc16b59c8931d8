//! Bytes written as hexadecimal digits.

ghost use Rattle.std.specs.Prelude.{IfOk, MatchOption};
ghost use Rattle.zeb_program.specs.PathChanges.{IsDigits};
ghost use Rattle.zeb_program.specs.PrivateBatches.{AreBytesOf};

use hex::FromHexError;
use std::alloc::{AllocError, Global};

/// The bytes of a file that is given as `hex:` and their digits, two of either case to a byte. `None` where it isn't: another
/// text, an odd number of digits, another character.
pub fn bytes_of_file(alloc: Global, file: &str) -> Result<Option<Vec<u8>>, AllocError>
    ensures { IfOk result (λ found. MatchOption found (¬ IsDigits file.now)
        (λ bytes. AreBytesOf file.now bytes.items)) }
{
    let Some(digits) = file.strip_prefix("hex:") else {
        return Ok(None);
    };
    match hex::decode(alloc, digits) {
        Ok(bytes) => Ok(Some(bytes)),
        Err(FromHexError::OutOfMemory) => Err(AllocError),
        Err(_) => Ok(None),
    }
}
