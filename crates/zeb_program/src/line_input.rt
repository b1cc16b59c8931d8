//! Reading a source line by line.

ghost use Rattle.std.specs.Prelude.{◌≡◌, ◌↔◌, ◌≤◌, ◌+◌, true, false, IfErr, IfOk, IfSome};
ghost use Rattle.zeb_program.specs.InputCauses.{EndsInLine};
ghost use Rattle.zeb_program.specs.Inputs.{TakesAtMost};
ghost use Rattle.zeb_program.specs.PrivateLines.{ReadsLine};
ghost use Rattle.zeb_program.specs.declared.line_input.InputCause.TheVariants.{FailedRead};
ghost use Rattle.zeb_program.specs.declared.line_input.LineFault.TheVariants.{Unreadable, Memory};

use crate::input::GREATEST_INPUT;
use std::alloc::{AllocError, Global};
use std::fmt;
use zeb_marc::{ReadFailed, Source};

/// Why an input can't be read on.
#[derive(Clone, Copy, PartialEq, Eq)]
pub enum InputCause {
    /// A line has more bytes before its LF than may be.
    LongLine,
    /// A read failed.
    FailedRead,
}

impl fmt::Display for InputCause {
    ghost use Rattle.std.specs.Prelude.{Some};
    ghost use Rattle.zeb_program.specs.InputCauses.{input_cause_text};

    ghost output = { λ cause. Some (input_cause_text cause) };

    fn fmt<W: fmt::Write>(&self, f: &mut fmt::Formatter<W>) -> fmt::Result {
        f.write_str(match self {
            InputCause::LongLine => "a line is too long",
            InputCause::FailedRead => "a read failed",
        })
    }
}

/// Why a line isn't read.
#[derive(Clone, Copy, PartialEq, Eq)]
pub enum LineFault {
    Unreadable(InputCause),
    Memory,
}

impl From<AllocError> for LineFault {
    ghost from_gives = { λ _ fault. fault ≡ Memory };

    fn from(_error: AllocError) -> LineFault {
        LineFault::Memory
    }
}

impl From<ReadFailed> for LineFault {
    ghost from_gives = { λ _ fault. fault ≡ Unreadable FailedRead };

    fn from(_error: ReadFailed) -> LineFault {
        LineFault::Unreadable(InputCause::FailedRead)
    }
}

/// Reads the next line of a source, with its LF where it has one; of a source that is at its end the line is empty.
/// No byte behind the line is taken.
///
/// `Unreadable` where a read fails or more than so many bytes stand before the LF; the bytes read are gone then, and the LF isn't
/// among them.
pub fn read_line<R: Source>(
    alloc: Global,
    source: &mut R,
    most: usize,
) -> Result<Vec<u8>, LineFault>
    requires sound { R.has_failed source.old ≡ false }
    requires bounded { most ≤ GREATEST_INPUT }
    ensures read { IfOk result (λ line.
        ReadsLine (R.remaining source.old) (R.remaining source.new) line.items) }
    ensures sound { IfOk result (λ _. R.has_failed source.new ≡ false) }
    // A source that tells its bytes is refused only for a line that is too long, for a read that failed, or for memory.
    ensures stops { IfErr result (λ fault. IfSome (R.remaining source.old)
        (λ left. EndsInLine most fault left (R.remaining source.new))) }
    ensures failed { result ≡ Err (Unreadable FailedRead) ↔ R.has_failed source.new ≡ true }
    // Whatever the answer.
    ensures bounded { TakesAtMost (most + 1) (R.remaining source.old) (R.remaining source.new) }
{
    let mut line = Vec::new(alloc);
    let mut byte = [0u8];
    while line.len() <= most {
        if source.read(&mut byte)? == 0 {
            return Ok(line);
        }
        line.extend_from_slice(&byte)?;
        if byte[0] == b'\n' {
            return Ok(line);
        }
    }
    Err(LineFault::Unreadable(InputCause::LongLine))
}
