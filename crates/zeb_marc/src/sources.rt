//! Where records are read from.
ghost use Rattle.std.specs.Prelude.{◌≡◌, List, ℕ, Option, Bool, Result, true, false, Some, Ok, IsErr, IsOk, is_ok, if◌then◌else◌, MatchResult};
ghost use Rattle.std.specs.Io.{ReadsAtMost};
ghost use Rattle.std.specs.Io.KnownBytes.{ReadConsumes};
ghost use Rattle.zeb_marc.specs.declared.sources.ReadFailed.{ReadFailed};
ghost use Rattle.zeb_marc.specs.Asking.{AsksOnce};

use std::io::{self, Read};
use std::marker::Model;

/// A read failed.
#[derive(Clone, Copy, Debug, PartialEq, Eq)]
pub struct ReadFailed;

/// A source of bytes, which may fail.
pub trait Source {
    /// The bytes that are left, where the source tells them.
    ghost remaining: { Self → Option (List ℕ) };

    /// Whether a read has failed.
    ghost has_failed: { Self → Bool };

    /// Whether a read may fail, now or later.
    ghost may_fail: { Self → Bool };

    /// Reads some bytes into the front of the buffer and says how many; 0 into a buffer with room is the end.
    ///
    /// An error, an interruption too, is for good: the source has failed then, and each later read fails. It takes no byte of
    /// those that are left.
    fn read(&mut self, buffer: &mut [u8]) -> Result<usize, ReadFailed>
        ensures bound { ReadsAtMost result buffer.new }
        ensures bytes { ReadConsumes (remaining self.old) (remaining self.new) result buffer.new }
        ensures failed { has_failed self.new
            ≡ (if is_ok result then has_failed self.old else true) }
        ensures still { has_failed self.old ≡ true → IsErr result }
        ensures able { may_fail self.old ≡ false → IsOk result × (may_fail self.new ≡ false) };

    /// Whether a read has failed.
    fn has_failed(&self) -> bool
        ensures { result ≡ has_failed self.now };
}

/// The bytes of a slice, as a source that never fails: contracts see the bytes that are left.
#[derive(Debug, Drop)]
pub struct Slice<'a> {
    bytes: &'a [u8],
}

impl<'a> Model for Slice<'a> {
    ghost use Rattle.std.specs.Prelude.{List, ℕ};

    ghost Value = { List ℕ };

    ghost view = { λ s. s.bytes.now };
}

impl<'a> Slice<'a> {
    /// A source of these bytes.
    pub fn new(bytes: &'a [u8]) -> Slice<'a>
        ensures { result ≡ bytes.now }
    {
        Slice { bytes }
    }
}

impl<'a> Source for Slice<'a> {
    ghost remaining = { λ s. Some s };

    ghost has_failed = { λ _. false };

    ghost may_fail = { λ _. false };

    fn read(&mut self, buffer: &mut [u8]) -> Result<usize, ReadFailed> {
        let count = buffer.len().min(self.bytes.len());
        let (front, rest) = self.bytes.split_at(count);
        buffer[..count].copy_from_slice(front);
        self.bytes = rest;
        Ok(count)
    }

    fn has_failed(&self) -> bool {
        false
    }
}

/// What a reader has answered, as a source passes it on: each failure is a failed read, an interruption too. It has no reader to
/// ask again.
pub fn passed_on(answer: io::Result<usize>) -> Result<usize, ReadFailed>
    ensures { MatchResult answer (λ count. result ≡ Ok count) (λ _. IsErr result) }
{
    match answer {
        Ok(count) => Ok(count),
        Err(_) => Err(ReadFailed),
    }
}

/// A reader that is asked for bytes, one question at a time. Every reader of std is one.
///
/// What std says of one read is true of two reads too, of which the first failed. So a source asks its reader only here, and `asks` says
/// that it did so once. That this asks its reader once itself is tested, and no clause says it.
pub trait Ask: Read {
    /// What the reader was, what it answers where it is asked once, the buffer's bytes behind that, and what the reader is then.
    ghost asks: { Self → Result ℕ ReadFailed → List ℕ → Self → Type 0 };

    /// Asks the reader once, as [`Read::read`] does, and passes on what it answers ([`passed_on`]).
    fn ask(&mut self, buffer: &mut [u8]) -> Result<usize, ReadFailed>
        ensures bound { ReadsAtMost result buffer.new }
        ensures bytes { ReadConsumes (Self.remaining self.old) (Self.remaining self.new) result
            buffer.new }
        ensures once { asks self.old result buffer.new self.new };
}

impl<R: Read> Ask for R {
    ghost asks = { λ old answer bytes new.
        ReadConsumes (R.remaining old) (R.remaining new) answer bytes };

    fn ask(&mut self, buffer: &mut [u8]) -> Result<usize, ReadFailed> {
        passed_on(self.read(buffer))
    }
}

/// A reader, as a source: its bytes are the reader's. The source has failed once a read has, and the reader isn't asked again.
#[derive(Drop)]
pub struct FromRead<R: Ask> {
    reader: R,
    failed: bool,
}

impl<R: Ask> FromRead<R> {
    /// A source of what a reader gives.
    pub fn new(reader: R) -> FromRead<R>
        ensures bytes { ⟦<FromRead<R> as Source>⟧.remaining result ≡ R.remaining reader }
        ensures sound { ⟦<FromRead<R> as Source>⟧.has_failed result ≡ false }
    {
        FromRead {
            reader,
            failed: false,
        }
    }
}

impl<R: Ask> Source for FromRead<R> {
    ghost remaining = { λ s. R.remaining s.reader };

    ghost has_failed = { λ s. s.failed };

    ghost may_fail = { λ _. true };

    /// The reader is asked once, whatever it answers, and its failure is passed on; it isn't asked any more once it has failed.
    fn read(&mut self, buffer: &mut [u8]) -> Result<usize, ReadFailed>
        ensures bound { ReadsAtMost result buffer.new }
        ensures bytes { ReadConsumes (R.remaining self.old.reader) (R.remaining self.new.reader)
            result buffer.new }
        ensures failed { self.new.failed ≡ (if is_ok result then self.old.failed else true) }
        ensures asked { AsksOnce R.asks self.old.failed self.old.reader result buffer.new
            self.new.reader }
    {
        if self.failed {
            return Err(ReadFailed);
        }
        let answer = self.reader.ask(buffer);
        self.failed = answer.is_err();
        answer
    }

    fn has_failed(&self) -> bool {
        self.failed
    }
}
