//! Where the program writes.

ghost use Rattle.std.specs.Prelude.{◌≡◌, ◌⊎◌, [], false, true, IfSome};
ghost use Rattle.std.specs.Fmt.{with_newline};
ghost use Rattle.zeb_program.specs.Sinks.{Sent};

use crate::outputs::Output;
use std::fmt::Display;
use std::io::Write;
use std::marker::Model;

/// A writer that keeps in mind whether a write has failed. After a failed write nothing more is
/// written, so what the writer got is a first part of what was meant. Contracts see the bytes that it got, as far as they are known.
#[derive(Drop)]
pub struct Sink<W: Write> {
    writer: W,
    failed: bool,
}

impl<W: Write> Model for Sink<W> {
    ghost use Rattle.zeb_program.specs.Sinks.{KnownSink};

    ghost Value = { KnownSink W };

    ghost view = { λ s. record {
      writer = s.writer;
      failed = s.failed;
      known = W.contents s.writer;
    } };
}

impl<W: Write> Sink<W> {
    /// A sink over this writer, to which no write has failed.
    pub fn new(writer: W) -> Sink<W>
        ensures { result ≡ record { writer = writer; failed = false; known = W.contents writer } }
    {
        Sink {
            writer,
            failed: false,
        }
    }

    /// Writes these bytes, unless a write has failed before. To write nothing can't fail.
    pub fn write(&mut self, bytes: &[u8])
        ensures sent { Sent self.old self.new bytes.now }
        ensures silent { (self.old.failed ≡ true) ⊎ (bytes.now ≡ []) → self.new ≡ self.old }
    {
        if !self.failed && !bytes.is_empty() {
            self.failed = self.writer.write_all(bytes).is_err();
        }
    }

    /// Writes the text and an LF, unless a write has failed before.
    pub fn write_line<D: Display + Drop>(&mut self, text: D)
        ensures sent { IfSome (with_newline (D.output text)) (Sent self.old self.new) }
        ensures silent { self.old.failed ≡ true → self.new ≡ self.old }
    {
        if !self.failed {
            self.failed = self.writer.writeln(text).is_err();
        }
    }

    /// Whether a write has failed.
    pub fn has_failed(&self) -> bool
        ensures { result ≡ self.now.failed }
    {
        self.failed
    }
}

impl<W: Output> Sink<W> {
    /// Has the writer pass on what it holds back, unless a write has failed before. A failure counts
    /// as a failed write.
    pub fn flush(&mut self)
        ensures sent { Sent self.old self.new [] }
        ensures silent { self.old.failed ≡ true → self.new ≡ self.old }
        ensures passed { self.new.failed ≡ false → W.held_back self.new.writer ≡ [] }
    {
        if !self.failed {
            self.failed = self.writer.pass_on().is_err();
        }
    }
}
