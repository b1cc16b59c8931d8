//! Writers that may hold back what they are given.

ghost use Rattle.std.specs.Prelude.{◌≡◌, [], ℕ, List, OnOk};
ghost use Rattle.std.specs.Io.Buffered.{writer_buffer};
ghost use Rattle.std.specs.Io.KnownBytes.{Keeps};

use std::io::{self, BufWriter, Stderr, Write};

/// A writer of which it is known what it holds back.
pub trait Output: Write {
    /// The bytes that were written and are not passed on yet.
    ghost held_back: { Self → List ℕ };

    /// Passes on what is held back. Where that fails, a part of it may be held back still.
    fn pass_on(&mut self) -> io::Result<()>
        ensures bytes { Keeps (Self.contents self.old) (Self.contents self.new) }
        ensures passed { OnOk result (held_back self.new ≡ []) };
}

impl<W: Output> Output for &mut W {
    ghost held_back = { λ w. W.held_back w.now };

    fn pass_on(&mut self) -> io::Result<()> {
        Output::pass_on(&mut **self)
    }
}

impl<W: Write + Drop> Output for BufWriter<W> {
    ghost held_back = { writer_buffer };

    fn pass_on(&mut self) -> io::Result<()> {
        self.flush()
    }
}

impl Output for Vec<u8> {
    ghost held_back = { λ _. [] };

    fn pass_on(&mut self) -> io::Result<()> {
        Ok(())
    }
}

impl Output for io::Sink {
    ghost held_back = { λ _. [] };

    fn pass_on(&mut self) -> io::Result<()> {
        Ok(())
    }
}

impl Output for Stderr {
    ghost held_back = { λ _. [] };

    fn pass_on(&mut self) -> io::Result<()> {
        Ok(())
    }
}
