//! The three registers that an index may have: words, phrases and numbers.

ghost use Rattle.std.specs.Prelude.{◌≡◌, Some};
ghost use Rattle.zeb_keys.specs.Registers.{register_code, register_text};

use std::fmt;

/// A register of an index: its single words, its whole texts, or its numbers.
#[derive(Clone, Copy, Debug, PartialEq, Eq, PartialOrd, Ord)]
pub enum Register {
    /// `w`: each word of a unit.
    Word,
    /// `p`: the whole text of a unit, its words joined by one space.
    Phrase,
    /// `n`: each number of a unit.
    Number,
}

impl Register {
    /// The register's number, by which registers are ordered and tables know them: 0, 1 or 2.
    pub fn code(self) -> u8
        ensures { result ≡ register_code self }
    {
        match self {
            Register::Word => 0,
            Register::Phrase => 1,
            Register::Number => 2,
        }
    }
}

impl fmt::Display for Register {
    ghost output = { λ register. Some (register_text register) };

    fn fmt<W: fmt::Write>(&self, f: &mut fmt::Formatter<W>) -> fmt::Result {
        match self {
            Register::Word => f.write_str("w"),
            Register::Phrase => f.write_str("p"),
            Register::Number => f.write_str("n"),
        }
    }
}
