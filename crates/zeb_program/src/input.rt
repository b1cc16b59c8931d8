//! Reading a source whole.

ghost use Rattle.std.specs.Prelude.{◌≡◌, ◌↔◌, ◌≤◌, ◌+◌, true, false, length, vec_len, IfOk, IfSome};
ghost use Rattle.std.specs.Io.KnownBytes.{Consumes, IsAtEnd};
ghost use Rattle.zeb_program.specs.Inputs.{IsTextWithin, TakesAtMost};
ghost use Rattle.zeb_program.specs.InputCauses.{IsTextCause};
ghost use Rattle.zeb_program.specs.PrivateFiles.{IsWholeText};
ghost use Rattle.zeb_program.specs.declared.input.SourceFault.TheVariants.{Unreadable, Memory};
ghost use Rattle.zeb_program.specs.declared.input.TextCause.{TextCause};
ghost use Rattle.zeb_program.specs.declared.input.TextCause.TheVariants.{FailedRead};
ghost use Rattle.zeb_program.specs.declared.input.TextFault.TheVariants.{Unreadable as TextUnreadable};

use std::alloc::{AllocError, Global};
use std::fmt;
use zeb_marc::{ReadFailed, Source};

/// How many bytes an input may have, and a file that is read whole.
pub const GREATEST_INPUT: usize = 16_777_216;

/// How many bytes are asked of the source at a time.
const PORTION: usize = 8192;

/// Why a source isn't read.
#[derive(Clone, Copy, PartialEq, Eq)]
pub enum SourceFault {
    /// A read failed, there are too many bytes, or a text was wanted and the bytes aren't UTF-8.
    Unreadable,
    Memory,
}

impl From<AllocError> for SourceFault {
    ghost from_gives = { λ _ fault. fault ≡ Memory };

    fn from(_error: AllocError) -> SourceFault {
        SourceFault::Memory
    }
}

impl From<ReadFailed> for SourceFault {
    ghost from_gives = { λ _ fault. fault ≡ Unreadable };

    fn from(_error: ReadFailed) -> SourceFault {
        SourceFault::Unreadable
    }
}

/// Why an input can't be read whole as a text.
#[derive(Clone, Copy, PartialEq, Eq)]
pub enum TextCause {
    /// It has more bytes than may be.
    TooLong,
    /// Its bytes aren't UTF-8.
    NoText,
    /// A read failed.
    FailedRead,
}

impl fmt::Display for TextCause {
    ghost use Rattle.std.specs.Prelude.{Some};
    ghost use Rattle.zeb_program.specs.InputCauses.{text_cause_text};

    ghost output = { λ cause. Some (text_cause_text cause) };

    fn fmt<W: fmt::Write>(&self, f: &mut fmt::Formatter<W>) -> fmt::Result {
        f.write_str(match self {
            TextCause::TooLong => "too long",
            TextCause::NoText => "no UTF-8",
            TextCause::FailedRead => "a read failed",
        })
    }
}

/// Why an input isn't read whole as a text.
#[derive(Clone, Copy, PartialEq, Eq)]
pub enum TextFault {
    Unreadable(TextCause),
    Memory,
}

/// Reads an input to its end, as UTF-8 of at most `GREATEST_INPUT` bytes, or tells why it can't be. At most one byte above that is
/// taken from it.
pub fn read_input<R: Source>(alloc: Global, input: &mut R) -> Result<String, TextFault>
    requires sound { R.has_failed input.old ≡ false }
    ensures text { IfOk result (IsWholeText GREATEST_INPUT (R.remaining input.old)) }
    ensures unreadable { (cause : TextCause) → result ≡ Err (TextUnreadable cause)
        → IsTextCause (R.remaining input.old) (R.has_failed input.new) cause }
    ensures failed { R.has_failed input.new ≡ true → result ≡ Err (TextUnreadable FailedRead) }
    ensures taken { TakesAtMost (GREATEST_INPUT + 1) (R.remaining input.old)
        (R.remaining input.new) }
{
    match read_whole(alloc, input, GREATEST_INPUT) {
        Ok(bytes) => match String::from_utf8(bytes) {
            Ok(text) => Ok(text),
            Err(_) => Err(TextFault::Unreadable(TextCause::NoText)),
        },
        Err(SourceFault::Unreadable) if input.has_failed() => {
            Err(TextFault::Unreadable(TextCause::FailedRead))
        }
        Err(SourceFault::Unreadable) => Err(TextFault::Unreadable(TextCause::TooLong)),
        Err(SourceFault::Memory) => Err(TextFault::Memory),
    }
}

/// Reads the source to its end, as UTF-8 of at most so many bytes. At most one byte above that is taken
/// from the source.
pub fn read_text<R: Source>(
    alloc: Global,
    source: &mut R,
    most: usize,
) -> Result<String, SourceFault>
    requires sound { R.has_failed source.old ≡ false }
    requires bounded { most ≤ GREATEST_INPUT }
    ensures text { IfOk result (IsWholeText most (R.remaining source.old)) }
    // A source that tells its bytes and doesn't fail is refused only for what they are, or for memory.
    ensures unreadable { result ≡ Err Unreadable → R.has_failed source.new ≡ false →
        IfSome (R.remaining source.old) (λ bytes. ¬ IsTextWithin most bytes) }
    ensures failed { R.has_failed source.new ≡ true → result ≡ Err Unreadable }
    ensures able { R.may_fail source.old ≡ false → R.has_failed source.new ≡ false }
    // Whatever the answer.
    ensures taken { TakesAtMost (most + 1) (R.remaining source.old) (R.remaining source.new) }
{
    let bytes = read_whole(alloc, source, most)?;
    String::from_utf8(bytes).map_err(|_| SourceFault::Unreadable)
}

/// Reads the source to its end, where there are at most so many bytes. At most one byte above that is taken
/// from the source.
pub fn read_whole<R: Source>(
    alloc: Global,
    source: &mut R,
    most: usize,
) -> Result<Vec<u8>, SourceFault>
    requires sound { R.has_failed source.old ≡ false }
    requires bounded { most ≤ GREATEST_INPUT }
    ensures whole { IfOk result (λ bytes. (vec_len bytes ≤ most)
        × IfSome (R.remaining source.old) (λ left. bytes.items ≡ left)) }
    ensures unreadable { result ≡ Err Unreadable → R.has_failed source.new ≡ false →
        IfSome (R.remaining source.old) (λ left. ¬ (length left ≤ most)) }
    ensures failed { R.has_failed source.new ≡ true → result ≡ Err Unreadable }
    ensures able { R.may_fail source.old ≡ false → R.has_failed source.new ≡ false }
    ensures taken { TakesAtMost (most + 1) (R.remaining source.old) (R.remaining source.new) }
{
    let bytes = read_bytes(alloc, source, most)?;
    if bytes.len() > most {
        return Err(SourceFault::Unreadable);
    }
    Ok(bytes)
}

/// The bytes up to the source's end, but no more than one above so many.
pub fn read_bytes<R: Source>(
    alloc: Global,
    source: &mut R,
    most: usize,
) -> Result<Vec<u8>, SourceFault>
    requires sound { R.has_failed source.old ≡ false }
    requires bounded { most ≤ GREATEST_INPUT }
    ensures taken { IfOk result (λ bytes.
        Consumes (R.remaining source.old) (R.remaining source.new) bytes.items) }
    ensures end { IfOk result (λ bytes. vec_len bytes ≤ most → IsAtEnd (R.remaining source.new)) }
    ensures failed { result ≡ Err Unreadable ↔ R.has_failed source.new ≡ true }
    ensures able { R.may_fail source.old ≡ false → R.has_failed source.new ≡ false }
    ensures bounded { TakesAtMost (most + 1) (R.remaining source.old) (R.remaining source.new) }
{
    let mut bytes = Vec::new(alloc);
    let mut portion = [0u8; PORTION];
    while bytes.len() <= most {
        let room = PORTION.min(most + 1 - bytes.len());
        let count = source.read(&mut portion[..room])?;
        if count == 0 {
            break;
        }
        bytes.extend_from_slice(&portion[..count])?;
    }
    Ok(bytes)
}
