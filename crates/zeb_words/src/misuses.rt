//! Why the program itself takes no command from words that its parser takes.

use std::fmt;

/// Why the program itself takes no command from words in which its parser finds no fault.
#[derive(Clone, Copy, Debug, PartialEq, Eq)]
pub enum Misuse {
    /// No database may have this name.
    Name,
    /// The position is above the number of terms.
    PastNumber,
    /// `-s` stands with another command than `update`.
    ShowsElsewhere,
    /// There is no such command.
    NoCommand,
}

impl fmt::Display for Misuse {
    ghost use Rattle.std.specs.Prelude.{Some};
    ghost use Rattle.zeb_words.specs.Misuses.{misuse_text};

    ghost output = { λ misuse. Some (misuse_text misuse) };

    fn fmt<W: fmt::Write>(&self, f: &mut fmt::Formatter<W>) -> fmt::Result {
        f.write_str(match self {
            Misuse::Name => {
                "a database's name has 1 to 64 ASCII letters, digits, '-', '_' and '.', and no others"
            }
            Misuse::PastNumber => "the position is above the number of terms",
            Misuse::ShowsElsewhere => "-s stands with update alone",
            Misuse::NoCommand => "there is no such command",
        })
    }
}
